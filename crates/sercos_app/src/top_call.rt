// The top call. The functions that write an answer return its status. If memory runs out it is `Memory`, and nothing is written. If a write
// fails, the sink has accepted a proper prefix of the answer, its count of faults has risen or is 2^64 - 1, and the status is `Refused` for
// a refused input, otherwise `WriteFault`. A sink with room for the whole answer doesn't fail.
ghost use Rattle.std.specs.Prelude.{◌≡◌, ◌≢◌, ℕ, ◌≤◌, ◌⊎◌, true, false, List, length, Some, None, IsTrue};
ghost use Rattle.sercos_app.specs.Clauses.{Rose, answer_of, command_answer, SaysWell, form_of, reads_input, HasNumber, Replies, changed, Ends, MeasuresItsRing, margin_answer, PlansItsRing, plan_answer, check_answer, show_answer, Asks, cycles_in, place_answer, replay_answer, Station, station_differs, Carry, Restarts, DocumentView, IsClear, document_run, writes_nothing, HasInput, TakesAtMost, TakesTooMany, IsAnswered, IsCutShort, IsAnswer, AgreesThroughout, DiffersNoEarlier, IsCalm, IsOwnRun, ReplaysItsRing, NonePlanned, LeastPlanned, MarginsTold, ChainTold, ViolationTold, CleanTold, PlaceTold, AgreementTold, BreachTold, RunTraced, RunSummed, BackupSaved, BackupFailed, RestoreTold};

use crate::backup_command::answer_backup;
use crate::check_command::write_verdict;
use crate::gen_command::answer_gen;
use crate::replay::replay_law;
use crate::replay_command::replay;
use crate::restore_command::answer_restore;
use crate::run_command::answer_run;
use sercos_call::{give_if_made, give_or_refuse};
use sercos_io::{ReadAll, Sink, Source, Status, Words, read_all};
use sercos_planning::{margins, plan};
use sercos_replay::asking_law;
use sercos_script::BitLink;
use sercos_show::show::show;
use sercos_words::{Form, form_of};
use std::alloc::Global;

// Writes the answer of `show` to an input, and returns the status: `Done` or `Refused`.
fn answer_show<K: Sink>(alloc: Global, text: &[u8], sink: &mut K) -> Status
    ensures { Replies (show_answer text.now) (Unit {0})
        (changed K.held K.faults K.room sink.old sink.new) (sink.new ≡ sink.old) result }
{
    give_if_made(&show(alloc, text), sink)
}

// Writes the answer of `plan` to an input, and returns the status: `Done`, `No` if no plan fits, or `Refused`.
fn answer_plan<K: Sink>(alloc: Global, bytes: &[u8], sink: &mut K) -> Status
    ensures { Replies (plan_answer bytes.now) (PlansItsRing bytes.now)
        (changed K.held K.faults K.room sink.old sink.new) (sink.new ≡ sink.old) result }
{
    give_or_refuse(&plan(alloc, bytes), sink)
}

// Writes the answer of `margin` to an input, and returns the status: `Done`, `No` if no plan fits, or `Refused`.
fn answer_margin<K: Sink>(alloc: Global, bytes: &[u8], sink: &mut K) -> Status
    ensures { Replies (margin_answer bytes.now) (MeasuresItsRing bytes.now)
        (changed K.held K.faults K.room sink.old sink.new) (sink.new ≡ sink.old) result }
{
    give_or_refuse(&margins(alloc, bytes), sink)
}

// Writes the answer of `check` to an input of at most 1,048,576 bytes, and returns the status: `Done`, `No` if a rule is broken, or
// `Refused`.
fn answer_check<K: Sink>(text: &[u8], sink: &mut K) -> Status
    requires { length text.now ≤ 1048576 }
    ensures { Replies (check_answer text.now) (Unit {0})
        (changed K.held K.faults K.room sink.old sink.new) (sink.new ≡ sink.old) result }
{
    write_verdict(text, sink)
}

// Writes the answer of `replay` to an input of at most 1,048,576 bytes, for the station with an address, and returns the status: `Done`,
// `No` if a place differs or the capture breaks a rule, or `Refused`. Its stack is apart from that of the other commands: the states of a
// drive and of the master are large.
#[inline(never)]
fn answer_replay<K: Sink>(alloc: Global, address: u8, bytes: &[u8], sink: &mut K) -> Status
    requires few { length bytes.now ≤ 1048576 }
    ensures { Replies (replay_answer address bytes.now) (ReplaysItsRing address bytes.now)
        (changed K.held K.faults K.room sink.old sink.new) (sink.new ≡ sink.old) result }
{
    asking_law();
    replay_law();
    give_or_refuse(&replay(alloc, address, bytes), sink)
}

// Returns whether a command reads its source: each but `gen` does.
#[tactic(auto, unfolding(sercos_words::specs::Form::reads_input))]
fn reads_input(form: Form) -> bool
    ensures { result ≡ reads_input (Some form) }
{
    !matches!(form, Form::Gen(_))
}

// Writes the answer of the command with this form to an input of at most 1,048,576 bytes, and returns the status. The number of drives of
// `gen` must be 1 to 64, and the address of `replay` at most 254. `gen` ignores the input, and only `run` and `gen` use the link.
#[tactic(auto, unfolding(crate::specs::Answer::command_answer))]
fn answer<K: Sink, L: BitLink>(
    alloc: Global,
    form: Form,
    bytes: &[u8],
    sink: &mut K,
    link: L,
) -> Status
    requires number { HasNumber form }
    requires few { length bytes.now ≤ 1048576 }
    ensures { Replies (command_answer (L.carry link) (L.restart link) form bytes.now) (SaysWell (L.carry link) (L.restart link) form bytes.now)
        (changed K.held K.faults K.room sink.old sink.new) (sink.new ≡ sink.old) result }
{
    match form {
        Form::Show => answer_show(alloc, bytes, sink),
        Form::Plan => answer_plan(alloc, bytes, sink),
        Form::Margin => answer_margin(alloc, bytes, sink),
        Form::Run => answer_run(alloc, bytes, link, sink),
        Form::Check => answer_check(bytes, sink),
        Form::Backup => answer_backup(alloc, bytes, sink),
        Form::Restore => answer_restore(alloc, bytes, sink),
        Form::Gen(drives) => answer_gen(alloc, drives, link, sink),
        Form::Replay(address) => answer_replay(alloc, address, bytes, sink),
    }
}

// Reads the words, and the input if their command has one, writes the answer, and returns the status. Words in no form are `BadWords`, and
// nothing is read. If a read fails, the input is longer than 1,048,576 bytes, or memory runs out, the status is `ReadFault`, `TooLong` or
// `Memory`. In all these cases nothing is written. `gen` reads nothing either.
fn respond<S: Source, K: Sink, L: BitLink>(
    alloc: Global,
    words: &Words,
    source: &mut S,
    sink: &mut K,
    link: L,
) -> Status
    ensures { Ends (L.carry link) (L.restart link) words.now
        (record {
          left = S.left source.old;
          left' = S.left source.new;
          faults = S.faults source.old;
          faults' = S.faults source.new;
        })
        (changed K.held K.faults K.room sink.old sink.new)
        (source.new ≡ source.old) (sink.new ≡ sink.old) result }
{
    let form = match form_of(alloc, words) {
        Ok(Some(form)) => form,
        Ok(None) => return Status::BadWords,
        Err(_) => return Status::Memory,
    };
    if !reads_input(form) {
        return answer(alloc, form, &[], sink, link);
    }
    let bytes = match read_all(alloc, source) {
        Ok(bytes) => bytes,
        Err(ReadAll::ReadFault) => return Status::ReadFault,
        Err(ReadAll::TooLong) => return Status::TooLong,
        Err(ReadAll::Memory) => return Status::Memory,
    };
    answer(alloc, form, bytes.as_slice(), sink, link)
}

/// Runs the command that the words name, over one input and one output, and returns the status with which it ends.
///
/// The input is the source's bytes up to its end, at most 1,048,576 of them. It is read whole before anything is written; `gen` reads
/// nothing. `run` writes the lines of each cycle as the cycle is made; each other command writes its output once it is whole. The clauses
/// on the bytes of source and sink hold if these expose their bytes, as those in memory do.
///
/// The forms of words are `show`, `plan`, `margin`, `run`, `check`, `backup`, `restore`, `gen N` for 1 to 64 drives, and `replay A` for an
/// address from 0 to 254, with at most one word `--` anywhere. `run` and `gen` run their ring over the script of the document, followed by
/// `link`; no other command uses `link`. `backup` and `restore` run theirs over the script alone. Any other words are `BadWords`, and
/// nothing is read. `ReadFault` is returned if a read failed, `TooLong` if the input is longer, and `Memory` if no memory was found; then
/// nothing is written. A refused input is `Refused`, also if its line couldn't be written whole. After any other failed write the status is
/// `WriteFault`, and the sink has accepted a proper prefix of the output.
///
/// Of each run that `run` traces and `gen` sums, up to the first undetected damage: regardless of losses and restarts before, if no cycle
/// after a fall is disturbed, the ring starts up again; and from twice the bound of a start-up and 200 cycles after the last disturbed
/// cycle on, phase 4 is commanded, or the master is at a stop for its cause. While disturbed cycles are sparse and no station restarts, the
/// ring doesn't fall; and after other cycles it falls at most once while that holds, and is back by the same bound and what the disturbed
/// cycles since cost a start-up. No damage is undetected if the script has no flip and `link` changes nothing, or is harmless after cuts:
/// it makes no other frame of a frame or of the beginning of one. Whatever arrives, each drive's data are fit for its phase, each drive
/// moves for its causes alone, and each fall has its cause.
///
/// If no damage is undetected in a run, what `run` wrote of it is clean: `check` finds no fault and no violation in it.
///
/// If the capture of `replay A` is what `run` writes of its document, over any link, the replay differs in no cycle before the first
/// disturbed one, for the master and for each drive. If no cycle of that run is disturbed, `check` finds the capture clean, and the replay
/// agrees.
pub fn sercos<S: Source, K: Sink, L: BitLink>(
    alloc: Global,
    words: &Words,
    source: &mut S,
    sink: &mut K,
    link: L,
) -> Status
    // The words come first: words that are not a form are refused, if memory was found to read them, before anything is read. `gen` reads
    // nothing either.
    ensures bad_words { result ≡ Status.BadWords → form_of words.now ≡ None }
    ensures no_form { form_of words.now ≡ None → (result ≡ Status.Memory) ⊎ (result ≡ Status.BadWords) }
    ensures unread { reads_input (form_of words.now) ≡ false → source.new ≡ source.old }

    // What is taken from the source is lost: at most 1,048,577 bytes, and that number only if the answer is TooLong.
    ensures taken { TakesAtMost 1048577 (S.left source.old) (S.left source.new) }
    ensures taken_few { result ≢ Status.TooLong → TakesAtMost 1048576 (S.left source.old) (S.left source.new) }

    // BadWords, ReadFault, TooLong and Memory are returned before anything is written.
    ensures unwritten { IsTrue (writes_nothing result) → sink.new ≡ sink.old }

    // ReadFault is returned only if the source's count of faults rose or is 2^64 - 1; otherwise no read failed.
    ensures read_fault { result ≡ Status.ReadFault → Rose (S.faults source.old) (S.faults source.new) }
    ensures read_count { S.faults source.old ≤ S.faults source.new }
    ensures read_well { result ≢ Status.ReadFault → S.faults source.new ≡ S.faults source.old }

    // TooLong is returned only if 1,048,577 bytes were read.
    ensures too_long { result ≡ Status.TooLong → TakesTooMany (S.left source.old) (S.left source.new) }

    // Done and No are returned only if the input was read to its end, its answer has this status, and the whole output was appended; No is
    // returned by `plan`, `margin`, `check`, `backup`, `restore` and `replay` alone.
    ensures done { result ≡ Status.Done → IsAnswered (reads_input (form_of words.now)) (answer_of (L.carry link) (L.restart link) words.now) Status.Done
        (S.left source.old) (S.left source.new) (K.held sink.old) (K.held sink.new) }
    ensures no { result ≡ Status.No → IsAnswered (reads_input (form_of words.now)) (answer_of (L.carry link) (L.restart link) words.now) Status.No
        (S.left source.old) (S.left source.new) (K.held sink.old) (K.held sink.new) }
    ensures no_of { result ≡ Status.No → (form_of words.now ≡ Some Form.Plan) ⊎ (form_of words.now ≡ Some Form.Margin) ⊎ (form_of words.now ≡ Some Form.Check)
        ⊎ (form_of words.now ≡ Some Form.Backup) ⊎ (form_of words.now ≡ Some Form.Restore) ⊎ ((address : ℕ) × (form_of words.now ≡ Some (Form.Replay address))) }

    // No is returned by `plan` only if no plan fits the ring that was read, and with the text of a chain that proves it; and Done only with
    // the text of the least plan.
    ensures none_fits { result ≡ Status.No → form_of words.now ≡ Some Form.Plan → NonePlanned
        (S.left source.old) (S.left source.new) (K.held sink.old) (K.held sink.new) }
    ensures least { result ≡ Status.Done → form_of words.now ≡ Some Form.Plan → LeastPlanned
        (S.left source.old) (S.left source.new) (K.held sink.old) (K.held sink.new) }

    // Done is returned by `margin` only with the slack of each time of each drive, and the least cycle time; No, only if no plan fits, with
    // that cycle time and the text of a chain that proves it.
    ensures margins { result ≡ Status.Done → form_of words.now ≡ Some Form.Margin → MarginsTold
        (S.left source.old) (S.left source.new) (K.held sink.old) (K.held sink.new) }
    ensures chain { result ≡ Status.No → form_of words.now ≡ Some Form.Margin → ChainTold
        (S.left source.old) (S.left source.new) (K.held sink.old) (K.held sink.new) }

    // No is returned by `check` only with the first line that breaks a rule and the lowest rule that it breaks, and Done only if none does;
    // each only if no line has a fault of grammar or shape.
    ensures violation { result ≡ Status.No → form_of words.now ≡ Some Form.Check → ViolationTold
        (S.left source.old) (S.left source.new) (K.held sink.old) (K.held sink.new) }
    ensures clean { result ≡ Status.Done → form_of words.now ≡ Some Form.Check → CleanTold
        (S.left source.old) (S.left source.new) (K.held sink.old) (K.held sink.new) }

    // No is returned by `replay A` only with the first place at which the station with the address A deviated from its rules, given all
    // that the capture has before that place; or, if the capture breaks a rule, with the answer of `check`. Done is returned only if no
    // place differs. If the input of at most 1,048,576 bytes is that of a replay, and no count of faults rose or is 2^64 - 1, the answer is
    // that place or the number of cycles; or Memory is returned.
    ensures differs { (address : ℕ) → result ≡ Status.No → form_of words.now ≡ Some (Form.Replay address) →
        PlaceTold address (S.left source.old) (S.left source.new) (K.held sink.old) (K.held sink.new)
        ⊎ BreachTold address (S.left source.old) (S.left source.new) (K.held sink.old) (K.held sink.new) }
    ensures agrees { (address : ℕ) → result ≡ Status.Done → form_of words.now ≡ Some (Form.Replay address) →
        AgreementTold address (S.left source.old) (S.left source.new) (K.held sink.old) (K.held sink.new) }
    ensures replays { (address : ℕ) (bytes capture : List ℕ) (station : Station) → form_of words.now ≡ Some (Form.Replay address)
        → S.left source.old ≡ Some bytes → length bytes ≤ 1048576 → Asks address bytes station capture
        → (Rose (S.faults source.old) (S.faults source.new) → ⊥)
        → (Rose (K.faults sink.old) (K.faults sink.new) → ⊥)
        → (result ≡ Status.Memory)
        ⊎ IsAnswer (place_answer (station_differs station (cycles_in capture)) (length (cycles_in capture))) result (K.held sink.old) (K.held sink.new) }

    // If the input is a document and, as its capture, what `run` writes of this document over any link, and no cycle of that run is
    // disturbed, `check` finds the capture clean, it begins with cycle 0, and the answer is the number of its cycles, for the master and
    // for every drive, if no count of faults rose or is 2^64 - 1; or Memory is returned.
    ensures calm { (address : ℕ) (bytes : List ℕ) (carry : Carry) (restarts : Restarts) (d : DocumentView) (own : IsOwnRun carry restarts address bytes d)
        → form_of words.now ≡ Some (Form.Replay address) → S.left source.old ≡ Some bytes → length bytes ≤ 1048576 → IsCalm carry restarts d
        → (Rose (S.faults source.old) (S.faults source.new) → ⊥)
        → (Rose (K.faults sink.old) (K.faults sink.new) → ⊥)
        → (result ≡ Status.Memory)
        ⊎ (AgreesThroughout address bytes own.capture × IsAnswer (place_answer None (length (cycles_in own.capture))) result (K.held sink.old) (K.held sink.new)) }

    // Whatever is disturbed or undetected in that run: No is returned only with a first place that is in no cycle before the first
    // disturbed one; or, if the capture breaks a rule, with the answer of `check`, and then some damage in the run was undetected.
    ensures no_earlier { (address : ℕ) (bytes : List ℕ) (carry : Carry) (restarts : Restarts) (d : DocumentView) (own : IsOwnRun carry restarts address bytes d)
        → result ≡ Status.No → form_of words.now ≡ Some (Form.Replay address) → S.left source.old ≡ Some bytes →
        DiffersNoEarlier own (K.held sink.old) (K.held sink.new)
        ⊎ (BreachTold address (S.left source.old) (S.left source.new) (K.held sink.old) (K.held sink.new) × (IsClear (document_run carry restarts d) → ⊥)) }

    // Done is returned by `run` only with the trace of the one run of the ring that was read, and by `gen` only with the summary of the one
    // run of the ring that it generates.
    ensures traced { result ≡ Status.Done → form_of words.now ≡ Some Form.Run → RunTraced (L.carry link) (L.restart link)
        (S.left source.old) (S.left source.new) (K.held sink.old) (K.held sink.new) }
    ensures summed { (n : ℕ) → result ≡ Status.Done → form_of words.now ≡ Some (Form.Gen n) →
        RunSummed (L.carry link) (L.restart link) n (K.held sink.old) (K.held sink.new) }

    // Done is returned by `backup` only with the saved data of all blocks on the drives' lists of backup operation data, which were read in
    // two runs of the ring; if nothing was undetected in a run, what was read in it are the bytes that the drive's store had in the one
    // cycle in which the drive accepted the selection of that read's own transfer. No is returned only with the requests that failed, or if
    // the blocks are too many.
    ensures saved { result ≡ Status.Done → form_of words.now ≡ Some Form.Backup → BackupSaved
        (S.left source.old) (S.left source.new) (K.held sink.old) (K.held sink.new) }
    ensures unsaved { result ≡ Status.No → form_of words.now ≡ Some Form.Backup → BackupFailed
        (S.left source.old) (S.left source.new) (K.held sink.old) (K.held sink.new) }

    // Done and No are returned by `restore` only if each request of the ring writes operation data, with a line for each: what the drive
    // has after the last cycle of the one run of the ring, or how the request failed; Done only if none did. If nothing was undetected in
    // the run, what is printed for a complete write is its data, filled up to whole words, if no later request to the drive is one to the
    // same block, which the drive has.
    ensures restored { result ≡ Status.Done → form_of words.now ≡ Some Form.Restore → RestoreTold true
        (S.left source.old) (S.left source.new) (K.held sink.old) (K.held sink.new) }
    ensures unrestored { result ≡ Status.No → form_of words.now ≡ Some Form.Restore → RestoreTold false
        (S.left source.old) (S.left source.new) (K.held sink.old) (K.held sink.new) }

    // Refused too is returned only if the input was read to its end; if writing the refusal failed, a proper prefix of it was appended, and
    // the sink's count of faults rose or is 2^64 - 1.
    ensures refused { result ≡ Status.Refused →
        ((K.faults sink.new ≡ K.faults sink.old) × IsAnswered (reads_input (form_of words.now)) (answer_of (L.carry link) (L.restart link) words.now) Status.Refused
        (S.left source.old) (S.left source.new) (K.held sink.old) (K.held sink.new))
        ⊎ (Rose (K.faults sink.old) (K.faults sink.new) × IsCutShort (reads_input (form_of words.now)) (answer_of (L.carry link) (L.restart link) words.now) Status.Refused
        (S.left source.old) (S.left source.new) (K.held sink.old) (K.held sink.new)) }

    // WriteFault is returned only if the sink's count of faults rose or is 2^64 - 1, after a proper prefix of the output. With any other
    // status but Refused no write failed.
    ensures write_fault { result ≡ Status.WriteFault →
        Rose (K.faults sink.old) (K.faults sink.new) × IsCutShort (reads_input (form_of words.now)) (answer_of (L.carry link) (L.restart link) words.now) Status.WriteFault
        (S.left source.old) (S.left source.new) (K.held sink.old) (K.held sink.new) }
    ensures write_count { K.faults sink.old ≤ K.faults sink.new }
    ensures write_well { result ≢ Status.WriteFault → result ≢ Status.Refused →
        K.faults sink.new ≡ K.faults sink.old }

    // Completeness: if the source exposes an input of at most 1,048,576 bytes, or nothing is read, and no count of faults rose or is 2^64 -
    // 1, the call writes the answer whole, or returns Memory. A refusal is returned, or Memory, whatever the sink does.
    ensures answers { (bytes : List ℕ) → HasInput (reads_input (form_of words.now)) (S.left source.old) bytes → length bytes ≤ 1048576
        → form_of words.now ≢ None
        → (Rose (S.faults source.old) (S.faults source.new) → ⊥)
        → (Rose (K.faults sink.old) (K.faults sink.new) → ⊥)
        → (result ≡ Status.Memory)
        ⊎ IsAnswer (answer_of (L.carry link) (L.restart link) words.now bytes) result (K.held sink.old) (K.held sink.new) }
    ensures refuses { (bytes : List ℕ) → HasInput (reads_input (form_of words.now)) (S.left source.old) bytes → length bytes ≤ 1048576
        → form_of words.now ≢ None
        → (Rose (S.faults source.old) (S.faults source.new) → ⊥)
        → (answer_of (L.carry link) (L.restart link) words.now bytes).status ≡ Status.Refused
        → (result ≡ Status.Memory) ⊎ (result ≡ Status.Refused) }

    // A longer input that is read is TooLong, or Memory, if the source's count of faults neither rose nor is 2^64 - 1.
    ensures exceeds { (bytes : List ℕ) → S.left source.old ≡ Some bytes → 1048577 ≤ length bytes
        → reads_input (form_of words.now) ≡ true
        → (Rose (S.faults source.old) (S.faults source.new) → ⊥)
        → (result ≡ Status.Memory) ⊎ (result ≡ Status.TooLong) }

    // If the source exposes its input, or nothing is read, a sink that has room for the whole output doesn't fail.
    ensures room { (bytes : List ℕ) → HasInput (reads_input (form_of words.now)) (S.left source.old) bytes
        → length (answer_of (L.carry link) (L.restart link) words.now bytes).output ≤ K.room sink.old
        → K.faults sink.new ≡ K.faults sink.old }
{
    respond(alloc, words, source, sink, link)
}
