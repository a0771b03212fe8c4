// The trace of a ring's run, written while the cycles are made. A write fails only if the sink has less room than the text. After success
// the sink has accepted the whole text, and its count of faults is unchanged. After an error it has accepted a proper prefix of the text,
// and the count has risen or is 2^64 - 1. Afterwards `line` is unspecified.
ghost use Rattle.std.specs.Prelude.{◌≡◌, ℕ, ◌≤◌, ◌<◌, ◌^◌, List, [], length, reverse, take, IfSome, IfOk, OnOk, OnErr, IsOk, is_ok};
ghost use Rattle.sercos_app.specs.Clauses.{Appends, HasCause, All, Job, RingView, Carry, Restarts, CycleView, header_text, cycle_text, end_text, seen, run_of, IsOpened, AfterCycle, RingStandsFor, cycles_made, newest, HasRoom, IsFew, with_cycle, HasMade, IsRingOf, OfRun, WritesCycles, journal_text, totals_of, WritesRun, IsKept};
ghost use Rattle.sercos_trace.specs.Written.{Writes};

use sercos_block::ring_law;
use sercos_io::{Sink, WriteFailed};
use sercos_law_run::{plan_law, run_law};
use sercos_opened::kept_law;
use sercos_ring::{Ring, count_made, no_totals, standing_law};
use sercos_script::BitLink;
use sercos_text::Line;
use sercos_timing::Wishes;
use sercos_trace::{
    CycleRecord, Totals, write_marked_cycle, write_marked_end, write_marked_header,
};

// Writes the head of a trace. Each line is made in `line`, regardless of its contents. Each index of the order of `w` must be that of a
// drive.
#[tactic(auto, using(sercos_trace::proofs::MarkedLemmas::unmarked))]
fn write_head<K: Sink>(w: &Wishes, line: &mut Line, sink: &mut K) -> Result<(), WriteFailed>
    requires { All (λ place. place < length w.now.drives) w.now.order }
    ensures { Writes (seen K.held K.faults K.room sink.old) (seen K.held K.faults K.room sink.new) result (header_text w.now) }
{
    write_marked_header(w, b"", line, sink)
}

// Writes the lines of a cycle. Each is made in `line`, regardless of its contents. `w` is the planner's input of the ring. If the record
// has a plan, it must have a T1 and a position for each drive.
#[tactic(auto, using(sercos_trace::proofs::MarkedLemmas::unmarked))]
fn write_made<K: Sink>(
    w: &Wishes,
    made: &CycleRecord,
    line: &mut Line,
    sink: &mut K,
) -> Result<(), WriteFailed>
    requires starts { IfSome made.now.events.plan (λ p. length p.t1 ≡ length w.now.drives) }
    requires positions { IfSome made.now.events.plan (λ p. length p.position ≡ length w.now.drives) }
    ensures { Writes (seen K.held K.faults K.room sink.old) (seen K.held K.faults K.room sink.new) result (cycle_text w.now made.now) }
{
    write_marked_cycle(w, made, b"", line, sink)
}

// Writes the last line of a trace, which has the totals. It is made in `line`, regardless of its contents.
#[tactic(auto, using(sercos_trace::proofs::MarkedLemmas::unmarked))]
fn write_totals<K: Sink>(totals: &Totals, line: &mut Line, sink: &mut K) -> Result<(), WriteFailed>
    ensures { Writes (seen K.held K.faults K.room sink.old) (seen K.held K.faults K.room sink.new) result (end_text totals.now) }
{
    write_marked_end(totals, b"", line, sink)
}

// Makes the next cycle of a ring, adds it to the totals, and writes its lines. The ring must have made fewer than 2^31 cycles. The totals
// must have room for one more cycle: after it, with at most 128 requests of each outcome, one fall and 195 undetected arrivals, each count
// must be below 2^32. The cycle has at most 128 requests of each outcome, and at most 195 undetected arrivals. `w` is the planner's input
// of the ring's setup, which must be valid. `line` is room for each line that is made. Also after an error the ring has made the cycle, and
// the totals have it.
fn write_next<L: BitLink, K: Sink>(
    ring: &mut Ring<L>,
    w: &Wishes,
    totals: &mut Totals,
    line: &mut Line,
    sink: &mut K,
) -> Result<(), WriteFailed>
    requires ring { (j : List CycleView) × IsRingOf (RingStandsFor L.carry L.restart) ring.old w.now j }
    requires made { cycles_made ring.old < 2 ^ 31 }
    requires room { HasRoom totals.old }
    ensures after { AfterCycle L.carry L.restart ring.old ring.new }
    ensures counted { totals.new ≡ with_cycle totals.old (newest ring.new) }
    ensures few { IsFew (newest ring.new) }
    ensures written { Writes (seen K.held K.faults K.room sink.old) (seen K.held K.faults K.room sink.new) result (cycle_text w.now (newest ring.new)) }
{
    plan_law();
    let made = ring.cycle();
    count_made(totals, made);
    write_made(w, made, line, sink)
}

// Makes the first `cycles` cycles, at most 50,000, of a ring that has made none, writes the lines of each as it is made, and returns their
// totals. `w` is the planner's input of the ring's setup, which must be valid. `line` is room for each line that is made. After success the
// ring has made these cycles. After an error the ring has made no more than these cycles.
fn write_cycles<L: BitLink, K: Sink>(
    ring: &mut Ring<L>,
    w: &Wishes,
    cycles: u32,
    line: &mut Line,
    sink: &mut K,
) -> Result<Totals, WriteFailed>
    requires ring { IsRingOf (RingStandsFor L.carry L.restart) ring.old w.now [] }
    requires made { cycles_made ring.old ≡ 0 }
    requires few { cycles ≤ 50000 }
    ensures { WritesCycles (RingStandsFor L.carry L.restart) w.now ring.old ring.new cycles
        (seen K.held K.faults K.room sink.old) (seen K.held K.faults K.room sink.new) result }
{
    let mut totals = no_totals();
    for _k in 0..cycles {
        write_next(ring, w, &mut totals, line, sink)?;
    }
    Ok(totals)
}

// Makes the first `cycles` cycles, at most 50,000, of a ring that has made none, writes their whole trace, with its head and its last line,
// and returns their totals. `w` is the planner's input of the ring's setup, which must be valid; each index of its order must be that of a
// drive. After success the ring has made these cycles. After an error the ring has made no more than these cycles.
fn write_whole<L: BitLink, K: Sink>(
    ring: &mut Ring<L>,
    w: &Wishes,
    cycles: u32,
    sink: &mut K,
) -> Result<Totals, WriteFailed>
    requires ring { IsRingOf (RingStandsFor L.carry L.restart) ring.old w.now [] }
    requires made { cycles_made ring.old ≡ 0 }
    requires few { cycles ≤ 50000 }
    requires order { All (λ place. place < length w.now.drives) w.now.order }
    ensures { WritesRun (RingStandsFor L.carry L.restart) w.now ring.old ring.new cycles
        (seen K.held K.faults K.room sink.old) (seen K.held K.faults K.room sink.new) result }
{
    run_law();
    standing_law::<L>();
    let mut line = Line::new();
    write_head(w, &mut line, sink)?;
    let totals = write_cycles(ring, w, cycles, &mut line, sink)?;
    write_totals(&totals, &mut line, sink)?;
    Ok(totals)
}

/// Writes the trace of a ring's run: the head, the lines of each cycle as it is made, and the last line with the totals, which are
/// returned. It takes no memory.
///
/// The ring must have made no cycle, `w` must be the planner's input of the setup with which it was opened, which must be valid, and
/// `cycles` must be 1 to 50,000. A write fails only if the sink has less room than the whole text. After success the sink has accepted the
/// whole text, and its count of faults is unchanged. After an error it has accepted a proper prefix of the text, and the count has risen or
/// is 2^64 - 1. In both cases the ring stands for the cycles that it has made: all of them, or after an error at most `cycles`. If the ring
/// may be opened with its requests as in `kept_law`, the run has the properties of that law.
pub fn write_run<L: BitLink, K: Sink>(
    ring: &mut Ring<L>,
    w: &Wishes,
    cycles: u32,
    sink: &mut K,
) -> Result<Totals, WriteFailed>
    requires ring { IsRingOf (RingStandsFor L.carry L.restart) ring.old w.now [] }
    requires some { 1 ≤ cycles }
    requires few { cycles ≤ 50000 }
    ensures made { HasMade (RingStandsFor L.carry L.restart) ring.old ring.new cycles (is_ok result) }
    ensures totals { IfOk result (λ totals. OfRun (RingStandsFor L.carry L.restart) ring.old cycles (λ run. totals ≡ totals_of (reverse run))) }
    ensures ok { OnOk result (OfRun (RingStandsFor L.carry L.restart) ring.old cycles (λ run. Appends (K.held sink.old) (K.held sink.new) (journal_text w.now run))) }
    ensures err { OnErr result (OfRun (RingStandsFor L.carry L.restart) ring.old cycles (λ run. (count : ℕ) × (count < length (journal_text w.now run))
        × Appends (K.held sink.old) (K.held sink.new) (take count (journal_text w.now run)))) }
    ensures cause { HasCause (K.faults sink.old) (K.faults sink.new) result }
    ensures kept { (r : RingView) (jobs : List Job) (carry : Carry) (restarts : Restarts) → RingStandsFor L.carry L.restart ring.old r jobs carry restarts []
        → IsOpened r jobs → IsKept r jobs carry restarts (run_of r jobs carry restarts cycles) }
    ensures room { OfRun (RingStandsFor L.carry L.restart) ring.old cycles (λ run. length (journal_text w.now run) ≤ K.room sink.old → IsOk result) }
{
    ring_law();
    kept_law();
    standing_law::<L>();
    write_whole(ring, w, cycles, sink)
}
