// The answers to several ring documents. If a write fails, the sink has accepted a prefix of the text, short of the whole, and its count of
// faults has risen or is 2^64 - 1; otherwise it has accepted the whole, and the count is unchanged. A sink with room for the whole doesn't
// fail.
ghost use Rattle.std.specs.Prelude.{◌≡◌, ◌≢◌, ◌≤◌, ◌<◌, ◌⊎◌, codes, ◌∷◌, [], List, length, map, drop, Option, Some, None};
ghost use Rattle.sercos_multi.specs.Clauses.{line_text, number, Replies, changed, count_line, cycle_fault, cycle_line, cycles_answer, cycles_of, document_line, first_cycle, is_common, other_cycle, rings_answer, voices_from, DocumentView, parts_of, EndsUnopened, IsTold, ended_by, Voice, merged, AllAt, RunsItsRings};
ghost use Rattle.sercos_trace.specs.Written as plain;
ghost use Rattle.sercos_call.specs.Outcome.{Writes};

use crate::divided::count_parts;
use crate::moments::write_merged;
use crate::opening::{Unopened, open_all};
use crate::part::Part;
use sercos_call::{fault_status, refuse};
use sercos_config::BadDocument;
use sercos_io::{Sink, Status, WriteFailed, write_all};
use sercos_script::BitLink;
use sercos_text::{Given, Line, push_line};
use std::alloc::Global;

// Returns the status after writing an answer of a status: the same if the write succeeded; otherwise `Refused` for a refusal, and
// `WriteFault` for any other.
fn ended(written: &Result<(), WriteFailed>, status: Status) -> Status
    ensures { result ≡ ended_by written.now status }
{
    match written {
        Ok(()) => status,
        Err(_) => fault_status(status),
    }
}

// Writes the bytes of a line.
#[tactic(auto, using(sercos_trace::proofs::WriteLemmas::writes_all))]
fn write_text<K: Sink>(line: &Line, sink: &mut K) -> Result<(), WriteFailed>
    ensures { plain.Writes (plain.seen K.held K.faults K.room sink.old) (plain.seen K.held K.faults K.room sink.new) result line.now }
{
    write_all(sink, line.as_slice())
}

// Writes the line that refuses an input of `count` documents, and returns `Refused`, also if the write fails.
fn refuse_count<K: Sink>(count: u32, sink: &mut K) -> Status
    ensures { Writes Status.Refused (count_line count) (changed K.held K.faults K.room sink.old sink.new) result }
{
    let mut line = Line::new();
    push_line(
        b"refused 11 documents D",
        &[Given::Number(count)],
        &mut line,
    );
    line.push_within(b'\n');
    ended(&write_text(&line, sink), Status::Refused)
}

// Writes the line that refuses the document with the number `document` for its cycle time, in microseconds, and returns `Refused`, also
// if the write fails.
fn refuse_cycle<K: Sink>(document: u32, cycle: u16, sink: &mut K) -> Status
    ensures { Writes Status.Refused (cycle_line document cycle) (changed K.held K.faults K.room sink.old sink.new) result }
{
    let mut line = Line::new();
    let values = [Given::Number(document), Given::Number(u32::from(cycle))];
    push_line(b"document D refused 12 cycle D", &values, &mut line);
    line.push_within(b'\n');
    ended(&write_text(&line, sink), Status::Refused)
}

// Writes `document N `, the front of the line that refuses a document, where N is its number, `document`.
fn write_document<K: Sink>(document: u32, sink: &mut K) -> Result<(), WriteFailed>
    ensures { plain.Writes (plain.seen K.held K.faults K.room sink.old) (plain.seen K.held K.faults K.room sink.new) result (line_text (codes "document D ") (number document ∷ [])) }
{
    let mut line = Line::new();
    push_line(b"document D ", &[Given::Number(document)], &mut line);
    write_text(&line, sink)
}

// Writes the line that refuses the document with the number `document` for the cause `bad`, which isn't `Memory`, and returns `Refused`,
// also if a write fails.
fn refuse_document<K: Sink>(document: u32, bad: &BadDocument, sink: &mut K) -> Status
    requires { bad.now ≢ BadDocument.Memory }
    ensures { Writes Status.Refused (document_line document bad.now) (changed K.held K.faults K.room sink.old sink.new) result }
{
    match write_document(document, sink) {
        Ok(()) => refuse(bad, sink),
        Err(_) => fault_status(Status::Refused),
    }
}

// Returns the cycle time of a ring, in microseconds.
fn cycle_of<L: BitLink>(part: &Part<L>) -> u16
    ensures { result ≡ part.now.wishes.cycle }
{
    let wishes = &part.wishes;
    wishes.cycle
}

// Returns the number, from 2 on, and the cycle time, in microseconds, of the first ring after the first one whose cycle time isn't `time`;
// `None` if there is none. There are at most 8 rings.
fn other_cycle<L: BitLink>(time: u16, parts: &[Part<L>]) -> Option<(u32, u16)>
    requires few { length parts.now ≤ 8 }
    ensures { result ≡ other_cycle time 2 (drop 1 (map (λ p. p.wishes.cycle) parts.now)) }
{
    for k in 1..parts.len() {
        let cycle = cycle_of(&parts[k]);
        if cycle != time {
            return Some((k as u32 + 1, cycle));
        }
    }
    None
}

// Returns whether a cycle time is 125, 250, 500 or 1000 microseconds. Of the cycle times that a ring can have, these divide 1000.
fn is_common(cycle: u16) -> bool
    ensures { result ≡ is_common cycle }
{
    cycle == 125 || cycle == 250 || cycle == 500 || cycle == 1000
}

// Returns the cycle time of the first ring, in microseconds. There must be a ring.
#[tactic(auto, unfolding(crate::specs::Asking::first_cycle))]
fn first_cycle<L: BitLink>(parts: &[Part<L>]) -> u16
    requires some { 0 < length parts.now }
    ensures { result ≡ first_cycle (map (λ p. p.wishes.cycle) parts.now) }
{
    cycle_of(&parts[0])
}

// Returns the number and the cycle time, in microseconds, of the first ring if its cycle time doesn't divide 1000, otherwise of the first
// ring whose cycle time isn't the first one's; `None` if there is none. There are 1 to 8 rings.
fn cycle_fault<L: BitLink>(parts: &[Part<L>]) -> Option<(u32, u16)>
    requires some { 0 < length parts.now }
    requires few { length parts.now ≤ 8 }
    ensures { result ≡ cycle_fault (map (λ p. p.wishes.cycle) parts.now) }
{
    let time = first_cycle(parts);
    if !is_common(time) {
        return Some((1, time));
    }
    other_cycle(time, parts)
}

// Writes the merged text of rings, at least one, with the common cycle time `time`, 1 to 1000 microseconds. Afterwards `parts` is
// unspecified. Returns `Done`, or `WriteFault` if a write failed.
fn give_merged<L: BitLink, K: Sink>(parts: &mut Vec<Part<L>>, time: u16, sink: &mut K) -> Status
    requires all { (voices : List Voice) × AllAt L.carry L.restart parts.old.items voices × (0 < length voices) }
    requires some { 0 < time }
    requires time { time ≤ 1000 }
    ensures { (voices : List Voice) → AllAt L.carry L.restart parts.old.items voices → 0 < length voices →
        Writes Status.Done (merged time voices) (changed K.held K.faults K.room sink.old sink.new) result }
{
    ended(&write_merged(parts, time, sink), Status::Done)
}

// Runs the rings of 1 to 8 documents, which are numbered from 1 and have made no cycle, writes their merged text, and returns `Done`, or
// `WriteFault` if a write failed; or, if `cycle_fault` returns a document, refuses it, and returns `Refused`. Afterwards `parts` is
// unspecified.
fn run_all<L: BitLink, K: Sink>(parts: &mut Vec<Part<L>>, sink: &mut K) -> Status
    requires all { (documents : List DocumentView) × AllAt L.carry L.restart parts.old.items (voices_from 1 documents) × (0 < length documents) × (length documents ≤ 8) }
    ensures { (documents : List DocumentView) → AllAt L.carry L.restart parts.old.items (voices_from 1 documents) → 0 < length documents →
        Writes (cycles_answer (cycle_fault (cycles_of documents)) documents).status (cycles_answer (cycle_fault (cycles_of documents)) documents).output (changed K.held K.faults K.room sink.old sink.new) result }
{
    match cycle_fault(parts.as_slice()) {
        Some((document, cycle)) => refuse_cycle(document, cycle, sink),
        None => {
            let time = first_cycle(parts.as_slice());
            give_merged(parts, time, sink)
        }
    }
}

// Refuses the document that wasn't opened, and returns `Refused`, also if a write fails. If no memory was found, the status is `Memory`,
// and nothing is written. The cause of a refusal isn't `Memory`.
fn refuse_unopened<K: Sink>(why: &Unopened, sink: &mut K) -> Status
    requires { IsTold why.now }
    ensures { EndsUnopened why.now (changed K.held K.faults K.room sink.old sink.new) (sink.new ≡ sink.old) result }
{
    match why {
        Unopened::Memory => Status::Memory,
        Unopened::Refused(number, bad) => refuse_document(u32::from(*number), bad, sink),
    }
}

/// Writes the answer to an input of at most 1,048,576 bytes, and returns its status: `Done` with the merged text of the rings of its 2 to 8
/// documents, `Refused` with its first refusal, also if a write fails, or `WriteFault` if any other write failed. All rings are opened
/// before anything is written: if memory runs out, the status is `Memory`, and the sink is as it was. Any other number of documents is
/// refused without memory. The run of each ring has the properties of `kept_law`. If its script has no flip, nothing is undetected in it;
/// if nothing is, its trace is a clean capture.
pub fn answer_rings<K: Sink>(alloc: Global, bytes: &[u8], sink: &mut K) -> Status
    requires few { length bytes.now ≤ 1048576 }
    ensures answer { Replies (rings_answer bytes.now) (RunsItsRings bytes.now) (changed K.held K.faults K.room sink.old sink.new) (sink.new ≡ sink.old) result }
    ensures count { (length (parts_of bytes.now) < 2) ⊎ (8 < length (parts_of bytes.now)) →
        Writes Status.Refused (count_line (length (parts_of bytes.now))) (changed K.held K.faults K.room sink.old sink.new) result }
{
    let count = count_parts(bytes);
    if count < 2 || count > 8 {
        return refuse_count(count as u32, sink);
    }
    match open_all(alloc, bytes, count as u8) {
        Ok(mut parts) => run_all(&mut parts, sink),
        Err(why) => refuse_unopened(&why, sink),
    }
}
