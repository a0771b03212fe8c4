// A ring in progress among several. A ring in progress is that of a valid setup, and its totals are those of the cycles that it has made.
// With those left they are at most 50,000, and its next one begins at most 1000 microseconds after moment 0 for each cycle made. If a write
// fails, the sink has accepted a prefix of the text, short of the whole, and its count of faults has risen or is 2^64 - 1; otherwise it has
// accepted the whole, and the count is unchanged. A sink with room for the whole doesn't fail. Afterwards `line` is unspecified.
ghost use Rattle.std.specs.Prelude.{◌≡◌, ◌+◌, ◌-◌, ◌<◌, ◌≤◌, ◌^◌, ◌==◌, if◌then◌else◌, List, [], length, IfOk, IfSome};
ghost use Rattle.sercos_multi.specs.Clauses.{CycleView, cycle_text, end_text, AfterCycle, IsNextOf, RingStandsFor, cycles_made, newest, HasRoom, IsFew, with_cycle, Voice, span, IsFrom, GoesOn, IsAt, Passes, IsRingOf};
ghost use Rattle.sercos_trace.specs.Written as plain;
ghost use Rattle.sercos_trace.specs.MarkedWritten.{seen, Writes};

use sercos_io::{Sink, WriteFailed};
use sercos_law_run::{plan_law, run_law, totals_law};
use sercos_ring::{Ring, count_made, standing_law};
use sercos_script::BitLink;
use sercos_text::Line;
use sercos_timing::Wishes;
use sercos_trace::{CycleRecord, Totals, write_marked_cycle, write_marked_end};

/// A ring in progress among several.
#[derive(Drop)]
pub struct Part<L: BitLink> {
    /// The ring, with the cycles that it has made.
    pub ring: Ring<L>,
    /// The planner's input of its setup.
    pub wishes: Wishes,
    /// The totals of the cycles that it has made.
    pub totals: Totals,
    /// How many cycles are left.
    pub left: u32,
    /// When its next cycle begins, in microseconds.
    pub at: u32,
    /// The mark before each of its lines: its number and a space.
    pub mark: [u8; 2],
}

// Returns how long a cycle takes, in microseconds, if `phase` is commanded in it: 1000 in phases 0, 1 and 2, otherwise the common cycle
// time, `time`. If that is at most 1000, so is the result.
fn span(time: u16, phase: u8) -> u32
    ensures value { result ≡ span time phase }
    ensures bound { time ≤ 1000 → result ≤ 1000 }
{
    if phase <= 2 {
        return 1000;
    }
    u32::from(time)
}

// Writes the lines of a cycle, each after the mark, and returns the phase that is commanded in it. `w` is the planner's input of the ring.
// A plan in the record has a T1 and a position for each drive. Each line is made in `line`, regardless of its contents.
fn write_made<K: Sink>(
    w: &Wishes,
    made: &CycleRecord,
    mark: &[u8],
    line: &mut Line,
    sink: &mut K,
) -> Result<u8, WriteFailed>
    requires starts { IfSome made.now.events.plan (λ p. length p.t1 ≡ length w.now.drives) }
    requires positions { IfSome made.now.events.plan (λ p. length p.position ≡ length w.now.drives) }
    ensures written { Writes (seen mark.now K.held K.faults K.room sink.old) (seen mark.now K.held K.faults K.room sink.new) result (cycle_text w.now made.now) }
    ensures phase { IfOk result (λ phase. phase ≡ made.now.phase) }
{
    write_marked_cycle(w, made, mark, line, sink)?;
    Ok(made.phase)
}

// Makes the next cycle of a ring, adds it to the totals, and writes its lines, each after the mark. Returns the phase that is commanded in
// it. `w` is the planner's input of the ring, whose setup is valid, and which has made fewer than 2^31 cycles. The totals must have room
// for one more cycle: after it, with at most 128 requests of each outcome, one fall and 195 undetected arrivals, each count must be below
// 2^32. The cycle has at most 128 requests of each outcome, and at most 195 undetected arrivals. The cycle is made and added even if a
// write fails. `line` is room for each line that is made.
fn make_next<L: BitLink, K: Sink>(
    ring: &mut Ring<L>,
    w: &Wishes,
    totals: &mut Totals,
    mark: &[u8],
    line: &mut Line,
    sink: &mut K,
) -> Result<u8, WriteFailed>
    requires ring { (j : List CycleView) × IsRingOf (RingStandsFor L.carry L.restart) ring.old w.now j }
    requires made { cycles_made ring.old < 2 ^ 31 }
    requires room { HasRoom totals.old }
    ensures after { AfterCycle L.carry L.restart ring.old ring.new }
    ensures next { IsNextOf L.carry L.restart ring.old (newest ring.new) }
    ensures counted { totals.new ≡ with_cycle totals.old (newest ring.new) }
    ensures few { IsFew (newest ring.new) }
    ensures written { Writes (seen mark.now K.held K.faults K.room sink.old) (seen mark.now K.held K.faults K.room sink.new) result (cycle_text w.now (newest ring.new)) }
    ensures phase { IfOk result (λ phase. phase ≡ (newest ring.new).phase) }
{
    plan_law();
    let made = ring.cycle();
    count_made(totals, made);
    write_made(w, made, mark, line, sink)
}

// Writes the end line of a ring, after the mark, if `left`, the number of cycles left, is 0. `line` is room for each line that is made.
fn write_last<K: Sink>(
    left: u32,
    totals: &Totals,
    mark: &[u8],
    line: &mut Line,
    sink: &mut K,
) -> Result<(), WriteFailed>
    ensures { Writes (seen mark.now K.held K.faults K.room sink.old) (seen mark.now K.held K.faults K.room sink.new) result (if left == 0 then end_text totals.now else []) }
{
    if left == 0 {
        return write_marked_end(totals, mark, line, sink);
    }
    Ok(())
}

// Makes the next cycle of a ring, which must have at least one left, and writes its lines, and the end line after its last cycle. Returns
// whether the cycle is commanded phase 3 or 4. `time` is the common cycle time, at most 1000 microseconds. After success `part` is the ring
// with this cycle made. After an error `part` is unspecified. `line` is room for each line that is made.
fn go_on<L: BitLink, K: Sink>(
    part: &mut Part<L>,
    time: u16,
    line: &mut Line,
    sink: &mut K,
) -> Result<bool, WriteFailed>
    requires at { (v : Voice) × IsAt L.carry L.restart part.old v }
    requires some { 0 < part.old.left }
    requires time { time ≤ 1000 }
    ensures { (v : Voice) → IsAt L.carry L.restart part.old v →
        GoesOn L.carry L.restart time part.old part.new (seen part.old.mark K.held K.faults K.room sink.old) (seen part.old.mark K.held K.faults K.room sink.new) result v }
{
    run_law();
    standing_law::<L>();
    totals_law();
    let phase = make_next(
        &mut part.ring,
        &part.wishes,
        &mut part.totals,
        &part.mark,
        line,
        sink,
    )?;
    part.left -= 1;
    part.at += span(time, phase);
    write_last(part.left, &part.totals, &part.mark, line, sink)?;
    Ok(phase >= 3)
}

/// Passes a moment: if the next cycle of a ring begins then, makes it, and writes its lines, and the end line after the last cycle. Returns
/// whether a cycle commanded phase 3 or 4 begins then. `time`, the common cycle time, and `moment` are in microseconds; `time` is at most
/// 1000. A ring with cycles left doesn't begin its next one before the moment. After success `part` is the ring after the moment, as it was
/// if no cycle begins then. After an error `part` is unspecified. `line` is room for each line that is made.
pub fn pass<L: BitLink, K: Sink>(
    part: &mut Part<L>,
    moment: u32,
    time: u16,
    line: &mut Line,
    sink: &mut K,
) -> Result<bool, WriteFailed>
    requires at { (v : Voice) × IsAt L.carry L.restart part.old v }
    requires time { time ≤ 1000 }
    ensures { (v : Voice) → IsAt L.carry L.restart part.old v → IsFrom moment v →
        Passes L.carry L.restart time moment part.new (plain.seen K.held K.faults K.room sink.old) (plain.seen K.held K.faults K.room sink.new) result v }
{
    if part.left == 0 || part.at != moment {
        return Ok(false);
    }
    go_on(part, time, line, sink)
}
