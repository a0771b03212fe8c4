// The top call.
ghost use Rattle.std.specs.Prelude.{◌≡◌, ◌≢◌, ℕ, ◌≤◌, ◌⊎◌, true, false, List, length, Some, None, IsTrue};
ghost use Rattle.sercos_multi.specs.Clauses.{Rose, Outcome, changed, writes_nothing, HasInput, TakesAtMost, TakesTooMany, IsAnswered, IsCutShort, IsAnswer, rings_answer, RingsMerged, RunsItsRings, form_of, reads_input};

use crate::answering::answer_rings;
use crate::words::form_of;
use sercos_io::{ReadAll, Sink, Source, Status, Words, read_all};
use std::alloc::Global;

// Reads the input, writes the answer to it, and returns the status. Words in no form are `BadWords`, and nothing is read. If the input
// can't be read, is too long, or memory runs out, the status is `ReadFault`, `TooLong` or `Memory`, and nothing is written. Otherwise the
// status is that of `answer_rings`.
fn respond<S: Source, K: Sink>(alloc: Global, words: &Words, source: &mut S, sink: &mut K) -> Status
    ensures words { form_of words.now ≡ None → result ≡ Status.BadWords }
    ensures how { Outcome (form_of words.now) (reads_input (form_of words.now)) rings_answer RunsItsRings
        (record {
          left = S.left source.old;
          left' = S.left source.new;
          faults = S.faults source.old;
          faults' = S.faults source.new;
        })
        (changed K.held K.faults K.room sink.old sink.new)
        (source.new ≡ source.old) (sink.new ≡ sink.old) result }
{
    if form_of(words).is_none() {
        return Status::BadWords;
    }
    let bytes = match read_all(alloc, source) {
        Ok(bytes) => bytes,
        Err(ReadAll::ReadFault) => return Status::ReadFault,
        Err(ReadAll::TooLong) => return Status::TooLong,
        Err(ReadAll::Memory) => return Status::Memory,
    };
    answer_rings(alloc, bytes.as_slice(), sink)
}

/// Runs two to eight rings whose masters share one clock, over one input and one output, and returns the status with which it ends.
///
/// The words are `run`, with at most one word `--` before or after it. The input is the source's bytes up to its end, at most 1,048,576 of
/// them: ring documents, divided by lines that are exactly `next`, with a line feed or as the last line without one. It is read whole, and
/// all rings are opened, before anything is written. Each ring runs over the script of its document alone. The output begins with the head
/// of each ring, in the order of the documents, each line after the ring's number, from 1 on, and a space. The moments at which a ring
/// begins a cycle follow, in microseconds, each with a line `t`, the lines of the cycles that begin then, and the end line of a ring after
/// its last cycle. The lines of cycles and the end lines also follow their ring's number and a space; the lines `t` and the last line do
/// not. A cycle takes 1000 microseconds if phase 0, 1 or 2 is commanded in it, and the common cycle time otherwise. The last line,
/// `together`, has the number of moments at which every ring begins a cycle commanded phase 3 or 4. No trace is held. `Done` is returned if
/// the output was written whole.
///
/// Any other words are `BadWords`, and nothing is read. `ReadFault` is returned if a read failed, `TooLong` if the input is longer, and
/// `Memory` if no memory was found; then nothing is written. `Refused` is returned, with one line, if there aren't 2 to 8 documents, then
/// for the first document that is refused, then for the first one whose cycle time differs from the first one's or doesn't divide 1000;
/// also if that line couldn't be written whole. After any other failed write the status is `WriteFault`, and the sink has accepted a proper
/// prefix of the output. `No` is never returned.
///
/// The clauses on the bytes of source and sink hold if these expose their bytes, as those in memory do.
pub fn rings<S: Source, K: Sink>(
    alloc: Global,
    words: &Words,
    source: &mut S,
    sink: &mut K,
) -> Status
    // The words come first: words that are not a form are refused before anything is read.
    ensures bad_words { result ≡ Status.BadWords → form_of words.now ≡ None }
    ensures no_form { form_of words.now ≡ None → result ≡ Status.BadWords }
    ensures unread { reads_input (form_of words.now) ≡ false → source.new ≡ source.old }

    // What is taken from the source is lost: at most 1,048,577 bytes, and that number only if the answer is TooLong.
    ensures taken { TakesAtMost 1048577 (S.left source.old) (S.left source.new) }
    ensures taken_few { result ≢ Status.TooLong → TakesAtMost 1048576 (S.left source.old) (S.left source.new) }

    // BadWords, ReadFault, TooLong and Memory are returned before anything is written.
    ensures unwritten { IsTrue (writes_nothing result) → sink.new ≡ sink.old }

    // ReadFault is returned only if the source's count of faults rose or is 2^64 - 1; otherwise no read failed.
    ensures read_fault { result ≡ Status.ReadFault → Rose (S.faults source.old) (S.faults source.new) }
    ensures read_count { S.faults source.old ≤ S.faults source.new }
    ensures read_well { result ≢ Status.ReadFault → S.faults source.new ≡ S.faults source.old }

    // TooLong is returned only if 1,048,577 bytes were read.
    ensures too_long { result ≡ Status.TooLong → TakesTooMany (S.left source.old) (S.left source.new) }

    // Done is returned only if the input was read to its end, its answer is the merged text of its documents' rings, and that was appended
    // whole. No is never returned.
    ensures done { result ≡ Status.Done → IsAnswered (reads_input (form_of words.now)) rings_answer Status.Done
        (S.left source.old) (S.left source.new) (K.held sink.old) (K.held sink.new) }
    // What was appended then is the merged text of the runs of the documents' rings, each of which keeps all that is promised, up to its
    // own first arrival that is unseen; if its script has no flip, there is none. The lines of each, without its number, are the trace of
    // its document alone, which is clean if nothing was unseen in the run. If a moment at which one ring begins a cycle lies in a cycle of
    // another that is commanded phase 3 or 4, that cycle too begins then: their MSTs end together.
    ensures merged { result ≡ Status.Done → RingsMerged (S.left source.old) (S.left source.new) (K.held sink.old) (K.held sink.new) }
    ensures never_no { result ≢ Status.No }

    // Refused too is returned only if the input was read to its end; if writing the refusal failed, a proper prefix of it was appended, and
    // the sink's count of faults rose or is 2^64 - 1.
    ensures refused { result ≡ Status.Refused →
        ((K.faults sink.new ≡ K.faults sink.old) × IsAnswered (reads_input (form_of words.now)) rings_answer Status.Refused
        (S.left source.old) (S.left source.new) (K.held sink.old) (K.held sink.new))
        ⊎ (Rose (K.faults sink.old) (K.faults sink.new) × IsCutShort (reads_input (form_of words.now)) rings_answer Status.Refused
        (S.left source.old) (S.left source.new) (K.held sink.old) (K.held sink.new)) }

    // WriteFault is returned only if the sink's count of faults rose or is 2^64 - 1, after a proper prefix of the output. With any other
    // status but Refused no write failed.
    ensures write_fault { result ≡ Status.WriteFault →
        Rose (K.faults sink.old) (K.faults sink.new) × IsCutShort (reads_input (form_of words.now)) rings_answer Status.WriteFault
        (S.left source.old) (S.left source.new) (K.held sink.old) (K.held sink.new) }
    ensures write_count { K.faults sink.old ≤ K.faults sink.new }
    ensures write_well { result ≢ Status.WriteFault → result ≢ Status.Refused →
        K.faults sink.new ≡ K.faults sink.old }

    // Completeness: if the source exposes an input of at most 1,048,576 bytes, and no count of faults rose or is 2^64 - 1, the call writes
    // the answer whole, or returns Memory. Whatever the sink does, if the source's count neither rose nor is 2^64 - 1, a refusal is
    // returned, or Memory, and a longer input is TooLong, or Memory.
    ensures answers { (bytes : List ℕ) → HasInput (reads_input (form_of words.now)) (S.left source.old) bytes → length bytes ≤ 1048576
        → form_of words.now ≢ None
        → (Rose (S.faults source.old) (S.faults source.new) → ⊥)
        → (Rose (K.faults sink.old) (K.faults sink.new) → ⊥)
        → (result ≡ Status.Memory)
        ⊎ IsAnswer (rings_answer bytes) result (K.held sink.old) (K.held sink.new) }
    ensures refuses { (bytes : List ℕ) → HasInput (reads_input (form_of words.now)) (S.left source.old) bytes → length bytes ≤ 1048576
        → form_of words.now ≢ None
        → (Rose (S.faults source.old) (S.faults source.new) → ⊥)
        → (rings_answer bytes).status ≡ Status.Refused
        → (result ≡ Status.Memory) ⊎ (result ≡ Status.Refused) }
    ensures exceeds { (bytes : List ℕ) → S.left source.old ≡ Some bytes → 1048577 ≤ length bytes
        → reads_input (form_of words.now) ≡ true
        → (Rose (S.faults source.old) (S.faults source.new) → ⊥)
        → (result ≡ Status.Memory) ⊎ (result ≡ Status.TooLong) }

    // If the source exposes its input, or nothing is read, a sink that has room for the whole output doesn't fail.
    ensures room { (bytes : List ℕ) → HasInput (reads_input (form_of words.now)) (S.left source.old) bytes
        → length (rings_answer bytes).output ≤ K.room sink.old
        → K.faults sink.new ≡ K.faults sink.old }
{
    respond(alloc, words, source, sink)
}
