// Several rings, from each moment at which one of them begins a cycle to the next. Moments are in microseconds. A ring in progress is that
// of a valid setup, and its totals are those of the cycles that it has made. With those left they are at most 50,000, and its next one
// begins at most 1000 microseconds after moment 0 for each cycle made. If a write fails, the sink has accepted a prefix of the text, short
// of the whole, and its count of faults has risen or is 2^64 - 1; otherwise it has accepted the whole, and the count is unchanged. A sink
// with room for the whole doesn't fail. Afterwards `line` is unspecified.
ghost use Rattle.std.specs.Prelude.{◌≡◌, ◌+◌, ◌<◌, ◌≤◌, ◌++◌, ◌∷◌, ◌==◌, ◌&&◌, ◌||◌, List, [], length, Option, Some, None, true, IfSome};
ghost use Rattle.sercos_multi.specs.Clauses.{flat_map, sum_by, line_text, number, Voice, head_lines, lines_at, merged, over_by, rest_text, AreFrom, here_text, timed_count, AllAt, IsAt, IsEarliest, PassAll, sooner};
ghost use Rattle.sercos_trace.specs.Written.{seen, Writes};

use crate::part::{Part, pass};
use sercos_block::ring_law;
use sercos_io::{Sink, WriteFailed, write_all};
use sercos_script::BitLink;
use sercos_text::{Given, Line, push_line};
use sercos_trace::write_marked_header;

// Ends a line of at most 4351 bytes with its line feed, and writes it.
#[tactic(auto, using(sercos_trace::proofs::WriteLemmas::writes_all))]
fn end_line<K: Sink>(line: &mut Line, sink: &mut K) -> Result<(), WriteFailed>
    requires { length line.old + 1 ≤ 4352 }
    ensures { Writes (seen K.held K.faults K.room sink.old) (seen K.held K.faults K.room sink.new) result (line.old ++ 10 ∷ []) }
{
    line.push_within(b'\n');
    write_all(sink, line.as_slice())
}

// Writes a line of a template, at most 64 bytes, with `value` for its field, and a line feed. It is made in `line`, regardless of its
// contents.
fn write_number<K: Sink>(
    template: &[u8],
    value: u32,
    line: &mut Line,
    sink: &mut K,
) -> Result<(), WriteFailed>
    requires { length template.now ≤ 64 }
    ensures { Writes (seen K.held K.faults K.room sink.old) (seen K.held K.faults K.room sink.new) result (line_text template.now (number value ∷ []) ++ 10 ∷ []) }
{
    line.clear();
    push_line(template, &[Given::Number(value)], line);
    end_line(line, sink)
}

// Returns whether both are true.
fn both(a: bool, b: bool) -> bool
    ensures { result ≡ (a && b) }
{
    a && b
}

// Makes the cycle of each ring that begins one at a moment, and writes its lines. Returns whether every ring began a cycle commanded phase
// 3 or 4. `time`, the common cycle time, and `moment` are in microseconds. `line` is room for each line that is made. The cycle time is at
// most 1000. No ring with cycles left begins its next one before the moment. After success a ring that begins a cycle then has made it, and
// any other is as it was. After an error `parts` is unspecified.
fn pass_all<L: BitLink, K: Sink>(
    parts: &mut Vec<Part<L>>,
    moment: u32,
    time: u16,
    line: &mut Line,
    sink: &mut K,
) -> Result<bool, WriteFailed>
    requires all { (voices : List Voice) × AllAt L.carry L.restart parts.old.items voices × AreFrom moment voices }
    requires time { time ≤ 1000 }
    ensures { (voices : List Voice) → AllAt L.carry L.restart parts.old.items voices → AreFrom moment voices →
        PassAll L.carry L.restart time moment parts.new.items (seen K.held K.faults K.room sink.old) (seen K.held K.faults K.room sink.new) result voices (flat_map (lines_at time moment) voices) }
{
    let mut timed = true;
    for k in 0..parts.len() {
        let one = pass(&mut parts[k], moment, time, line, sink)?;
        timed = both(timed, one);
    }
    Ok(timed)
}

// Writes the line of a moment and the lines of the cycles that begin then. Returns whether every ring began a cycle commanded phase 3 or 4.
// `time`, the common cycle time, and `moment` are in microseconds. `line` is room for each line that is made. The cycle time is at most
// 1000. No ring with cycles left begins its next one before the moment. After success a ring that begins a cycle then has made it, and any
// other is as it was. After an error `parts` is unspecified.
fn write_moment<L: BitLink, K: Sink>(
    parts: &mut Vec<Part<L>>,
    moment: u32,
    time: u16,
    line: &mut Line,
    sink: &mut K,
) -> Result<bool, WriteFailed>
    requires all { (voices : List Voice) × AllAt L.carry L.restart parts.old.items voices × AreFrom moment voices }
    requires time { time ≤ 1000 }
    ensures { (voices : List Voice) → AllAt L.carry L.restart parts.old.items voices → AreFrom moment voices →
        PassAll L.carry L.restart time moment parts.new.items (seen K.held K.faults K.room sink.old) (seen K.held K.faults K.room sink.new) result voices (here_text time voices moment) }
{
    write_number(b"t D", moment, line, sink)?;
    pass_all(parts, moment, time, line, sink)
}

// Returns the sooner of `best` and the moment `at`, in microseconds, at which a ring, which has `left` cycles left, begins its next one. It
// is `best` if the ring has no cycles left, or if `at` is before the moment `from`, up to which all lines are written.
fn sooner(best: Option<u32>, left: u32, at: u32, from: u32) -> Option<u32>
    ensures { result ≡ sooner best left at from }
{
    if left == 0 || at < from {
        return best;
    }
    match best {
        None => Some(at),
        Some(other) => Some(at.min(other)),
    }
}

// Returns the first moment from the moment `from` on, in microseconds, at which a ring begins a cycle; `None` if no ring has one left. No
// ring with cycles left begins its next one before `from`. The result is below 50,000,000.
fn earliest<L: BitLink>(parts: &[Part<L>], from: u32) -> Option<u32>
    requires all { (voices : List Voice) × AllAt L.carry L.restart parts.now voices × AreFrom from voices }
    ensures is { (voices : List Voice) → AllAt L.carry L.restart parts.now voices → AreFrom from voices → IsEarliest result voices }
    ensures bound { IfSome result (λ moment. moment < 50000000) }
{
    let mut best = None;
    for k in 0..parts.len() {
        let part = &parts[k];
        best = sooner(best, part.left, part.at, from);
    }
    best
}

// Returns 1 if `timed` is true, otherwise 0.
#[tactic(auto, unfolding(crate::specs::Going::timed_count))]
fn count_of(timed: bool) -> u32
    ensures value { result ≡ timed_count timed }
    ensures few { result ≤ 1 }
{
    u32::from(timed)
}

// Writes the text after the heads: the lines of each moment, and the last line. There is at least one ring. `time` is the common cycle
// time, 1 to 1000 microseconds. Afterwards `parts` is unspecified. `line` is room for each line that is made.
fn write_moments<L: BitLink, K: Sink>(
    parts: &mut Vec<Part<L>>,
    time: u16,
    line: &mut Line,
    sink: &mut K,
) -> Result<(), WriteFailed>
    requires all { (voices : List Voice) × AllAt L.carry L.restart parts.old.items voices × (0 < length voices) }
    requires some { 0 < time }
    requires time { time ≤ 1000 }
    ensures { (voices : List Voice) → AllAt L.carry L.restart parts.old.items voices → 0 < length voices →
        Writes (seen K.held K.faults K.room sink.old) (seen K.held K.faults K.room sink.new) result (rest_text time voices 0 (sum_by (over_by time) voices) 0) }
{
    let mut from = 0;
    let mut together = 0;
    'moments: loop {
        let Some(moment) = earliest(parts.as_slice(), from) else {
            return write_number(b"together D", together, line, sink);
        };
        let timed = write_moment(parts, moment, time, line, sink)?;
        together += count_of(timed);
        from = moment + 1;
    }
}

// Writes the head of a ring, each line after the ring's mark. `line` is room for each line that is made.
fn write_head<L: BitLink, K: Sink>(
    part: &Part<L>,
    line: &mut Line,
    sink: &mut K,
) -> Result<(), WriteFailed>
    requires at { (v : Voice) × IsAt L.carry L.restart part.now v }
    ensures { (v : Voice) → IsAt L.carry L.restart part.now v → Writes (seen K.held K.faults K.room sink.old) (seen K.held K.faults K.room sink.new) result (head_lines v) }
{
    ring_law();
    write_marked_header(&part.wishes, &part.mark, line, sink)
}

// Writes the heads of all rings, in their order. `line` is room for each line that is made.
fn write_heads<L: BitLink, K: Sink>(
    parts: &[Part<L>],
    line: &mut Line,
    sink: &mut K,
) -> Result<(), WriteFailed>
    requires all { (voices : List Voice) × AllAt L.carry L.restart parts.now voices }
    ensures { (voices : List Voice) → AllAt L.carry L.restart parts.now voices → Writes (seen K.held K.faults K.room sink.old) (seen K.held K.faults K.room sink.new) result (flat_map head_lines voices) }
{
    for k in 0..parts.len() {
        write_head(&parts[k], line, sink)?;
    }
    Ok(())
}

/// Runs rings, at least one, by moments, each from its next cycle on, and writes their merged text as they go: the heads, for each moment
/// the lines of the cycles that begin then, and the number of moments at which every ring begins a cycle commanded phase 3 or 4. `time` is
/// the common cycle time, 1 to 1,000 microseconds. No trace is held, and no memory is taken. After an error the sink has accepted a prefix
/// of the text, short of the whole, and its count of faults has risen or is 2^64 - 1. Afterwards `parts` is unspecified.
pub fn write_merged<L: BitLink, K: Sink>(
    parts: &mut Vec<Part<L>>,
    time: u16,
    sink: &mut K,
) -> Result<(), WriteFailed>
    requires all { (voices : List Voice) × AllAt L.carry L.restart parts.old.items voices × (0 < length voices) }
    requires some { 0 < time }
    requires time { time ≤ 1000 }
    ensures { (voices : List Voice) → AllAt L.carry L.restart parts.old.items voices → 0 < length voices →
        Writes (seen K.held K.faults K.room sink.old) (seen K.held K.faults K.room sink.new) result (merged time voices) }
{
    let mut line = Line::new();
    write_heads(parts.as_slice(), &mut line, sink)?;
    write_moments(parts, time, &mut line, sink)
}
