// Writing a trace to a sink. With `mark` and `line`, each line is made in `line`, regardless of its contents, and is written after the
// bytes of `mark`. Afterwards `line` is unspecified. The sink's room shrinks by at most the bytes of the text with its marks. Without an
// error its count of faults is unchanged. A write fails only if the sink has less room than the text with its marks. After an error the
// sink has taken a proper prefix of them, and its count of faults has risen or is 2^64 - 1.
ghost use Rattle.std.specs.Prelude.{◌≡◌, ℕ, ◌≤◌, ◌<◌, ◌+◌, [], length, map, take, drop, IfSome, OnOk, OnErr, IsOk};
ghost use Rattle.sercos_trace.specs.Clauses.{All, flat_map, Appends, HasCause, drive_text, address_at, ring_text, order_text, header_text, sent_text, cycle_text, end_text};
ghost use Rattle.sercos_trace.specs.declared.kind.LineKind.TheVariants as kind;
ghost use Rattle.sercos_trace.specs.MarkedWritten.{seen, Writes};

use crate::cycle_text::{write_all_sent, write_moves};
use crate::event_text::write_events;
use crate::kind::LineKind;
use crate::line::{write_line, write_order};
use crate::record::{CycleRecord, Totals};
use arrayvec::ArrayVec;
use sercos_io::{Sink, WriteFailed};
use sercos_text::{Given, Line};
use sercos_timing::{Wish, Wishes};

// Writes the line of the ring's numbers.
fn write_ring<K: Sink>(
    wishes: &Wishes,
    mark: &[u8],
    line: &mut Line,
    sink: &mut K,
) -> Result<(), WriteFailed>
    ensures { Writes (seen mark.now K.held K.faults K.room sink.old) (seen mark.now K.held K.faults K.room sink.new) result (ring_text wishes.now) }
{
    let values = [
        Given::Number(u32::from(wishes.rate)),
        Given::Number(u32::from(wishes.cycle)),
        Given::Number(u32::from(wishes.control)),
        Given::Number(u32::from(wishes.gap)),
        Given::Number(wishes.drives().len() as u32),
    ];
    write_line(LineKind::Ring, &values, mark, line, sink)
}

// Writes the line of a drive: the planner's input for it.
fn write_drive<K: Sink>(
    wish: &Wish,
    mark: &[u8],
    line: &mut Line,
    sink: &mut K,
) -> Result<(), WriteFailed>
    ensures { Writes (seen mark.now K.held K.faults K.room sink.old) (seen mark.now K.held K.faults K.room sink.new) result (drive_text wish.now) }
{
    let values = [
        Given::Number(u32::from(wish.address)),
        Given::Number(u32::from(wish.slave)),
        Given::Number(u32::from(wish.times.t1min)),
        Given::Number(u32::from(wish.times.tatmt)),
        Given::Number(u32::from(wish.times.t4min)),
        Given::Number(u32::from(wish.times.tatat)),
        Given::Number(u32::from(wish.times.tmtsy)),
        Given::Number(u32::from(wish.times.tmtsg)),
        Given::Number(u32::from(wish.at_len)),
        Given::Number(u32::from(wish.record_len)),
    ];
    write_line(LineKind::Drive, &values, mark, line, sink)
}

// Writes the lines of drives, in the order of the list.
fn write_drives<K: Sink>(
    drives: &[Wish],
    mark: &[u8],
    line: &mut Line,
    sink: &mut K,
) -> Result<(), WriteFailed>
    ensures { Writes (seen mark.now K.held K.faults K.room sink.old) (seen mark.now K.held K.faults K.room sink.new) result (flat_map drive_text drives.now) }
{
    for wish in drives {
        write_drive(wish, mark, line, sink)?;
    }
    Ok(())
}

// Returns the addresses of the drives at these indices in ring order. There must be at most 64 indices, each of a drive.
fn addresses_of(wishes: &Wishes, places: &[u8]) -> ArrayVec<u8, 64>
    requires places { All (λ place. place < length wishes.now.drives) places.now }
    requires few { length places.now ≤ 64 }
    ensures value { result.items ≡ map (address_at wishes.now) places.now }
    ensures few { length result.items ≤ 64 }
{
    let mut addresses = ArrayVec::new();
    for place in places {
        addresses.push(wishes.wish(usize::from(*place)).address);
    }
    addresses
}

// Writes the line of the order: the addresses in the order of the ATs. Each index of the order must be that of a drive.
fn write_ordered<K: Sink>(
    wishes: &Wishes,
    mark: &[u8],
    line: &mut Line,
    sink: &mut K,
) -> Result<(), WriteFailed>
    requires { All (λ place. place < length wishes.now.drives) wishes.now.order }
    ensures { Writes (seen mark.now K.held K.faults K.room sink.old) (seen mark.now K.held K.faults K.room sink.new) result (order_text wishes.now) }
{
    let addresses = addresses_of(wishes, wishes.order());
    write_order(addresses.as_slice(), mark, line, sink)
}

// Writes the line of the first telegram of a cycle, the MST; nothing if no telegram was sent.
fn write_first<K: Sink>(
    cycle: &CycleRecord,
    mark: &[u8],
    line: &mut Line,
    sink: &mut K,
) -> Result<(), WriteFailed>
    ensures { Writes (seen mark.now K.held K.faults K.room sink.old) (seen mark.now K.held K.faults K.room sink.new) result (flat_map (sent_text cycle.now.cycle) (take 1 cycle.now.sent)) }
{
    let sent = cycle.sent.as_slice();
    write_all_sent(cycle.cycle, &sent[..sent.len().min(1)], mark, line, sink)
}

// Writes the lines of the telegrams of a cycle after the first one.
fn write_rest<K: Sink>(
    cycle: &CycleRecord,
    mark: &[u8],
    line: &mut Line,
    sink: &mut K,
) -> Result<(), WriteFailed>
    ensures { Writes (seen mark.now K.held K.faults K.room sink.old) (seen mark.now K.held K.faults K.room sink.new) result (flat_map (sent_text cycle.now.cycle) (drop 1 cycle.now.sent)) }
{
    let sent = cycle.sent.as_slice();
    write_all_sent(cycle.cycle, &sent[sent.len().min(1)..], mark, line, sink)
}

/// Writes the head of a trace as [`write_header`] does, with the bytes of `mark` before each line. Each line is made in `line`, regardless
/// of its contents; afterwards `line` is unspecified. Each index of the order of `wishes` must be that of a drive. A write fails only if
/// the sink has less room than the marked text. After an error the sink has taken a proper prefix of the marked text, and its count of
/// faults has risen or is 2^64 - 1.
pub fn write_marked_header<K: Sink>(
    wishes: &Wishes,
    mark: &[u8],
    line: &mut Line,
    sink: &mut K,
) -> Result<(), WriteFailed>
    requires { All (λ place. place < length wishes.now.drives) wishes.now.order }
    ensures { Writes (seen mark.now K.held K.faults K.room sink.old) (seen mark.now K.held K.faults K.room sink.new) result (header_text wishes.now) }
{
    write_line(LineKind::Version, &[], mark, line, sink)?;
    write_ring(wishes, mark, line, sink)?;
    write_drives(wishes.drives(), mark, line, sink)?;
    write_ordered(wishes, mark, line, sink)
}

/// Writes the lines of a cycle as [`write_cycle`] does, with the bytes of `mark` before each line. Each line is made in `line`, regardless
/// of its contents; afterwards `line` is unspecified. If the record has a plan, it must have a start and a position for each drive of
/// `wishes`. A write fails only if the sink has less room than the marked text. After an error the sink has taken a proper prefix of the
/// marked text, and its count of faults has risen or is 2^64 - 1.
pub fn write_marked_cycle<K: Sink>(
    wishes: &Wishes,
    cycle: &CycleRecord,
    mark: &[u8],
    line: &mut Line,
    sink: &mut K,
) -> Result<(), WriteFailed>
    requires starts { IfSome cycle.now.events.plan (λ p. length p.t1 ≡ length wishes.now.drives) }
    requires positions { IfSome cycle.now.events.plan (λ p. length p.position ≡ length wishes.now.drives) }
    ensures { Writes (seen mark.now K.held K.faults K.room sink.old) (seen mark.now K.held K.faults K.room sink.new) result (cycle_text wishes.now cycle.now) }
{
    write_first(cycle, mark, line, sink)?;
    write_moves(cycle.cycle, false, cycle.moves.as_slice(), mark, line, sink)?;
    write_rest(cycle, mark, line, sink)?;
    write_moves(cycle.cycle, true, cycle.moves.as_slice(), mark, line, sink)?;
    write_events(cycle.cycle, wishes, &cycle.events, mark, line, sink)
}

/// Writes the end line of a trace as [`write_end`] does, after the bytes of `mark`. It is made in `line`, regardless of its contents;
/// afterwards `line` is unspecified. A write fails only if the sink has less room than the marked text. After an error the sink has taken a
/// proper prefix of the marked text, and its count of faults has risen or is 2^64 - 1.
pub fn write_marked_end<K: Sink>(
    totals: &Totals,
    mark: &[u8],
    line: &mut Line,
    sink: &mut K,
) -> Result<(), WriteFailed>
    ensures { Writes (seen mark.now K.held K.faults K.room sink.old) (seen mark.now K.held K.faults K.room sink.new) result (end_text totals.now) }
{
    let values = [
        Given::Number(totals.cycles),
        Given::Number(u32::from(totals.phase)),
        Given::Number(totals.complete),
        Given::Number(totals.refused),
        Given::Number(totals.broken),
        Given::Number(totals.falls),
        Given::Number(totals.unseen),
    ];
    write_line(LineKind::End, &values, mark, line, sink)
}

/// Writes the head of a trace: the version, the ring's numbers, a line for each drive in ring order, and the addresses in the order of the
/// ATs. Times are in microseconds, lengths in bytes after the address. Each index of the order must be that of a drive. A write fails only
/// if the sink has less room than the text. After an error the sink has taken a proper prefix of the text, and its count of faults has
/// risen or is 2^64 - 1.
#[tactic(auto, using(crate::proofs::MarkedLemmas::unmarked_ok, crate::proofs::MarkedLemmas::unmarked_err, crate::proofs::MarkedLemmas::unmarked_cause, crate::proofs::MarkedLemmas::unmarked_room, crate::proofs::MarkedLemmas::unmarked_left))]
pub fn write_header<K: Sink>(wishes: &Wishes, sink: &mut K) -> Result<(), WriteFailed>
    requires { All (λ place. place < length wishes.now.drives) wishes.now.order }
    ensures ok { OnOk result (Appends (K.held sink.old) (K.held sink.new) (header_text wishes.now)) }
    ensures err { OnErr result ((count : ℕ) × (count < length (header_text wishes.now))
        × Appends (K.held sink.old) (K.held sink.new) (take count (header_text wishes.now))) }
    ensures cause { HasCause (K.faults sink.old) (K.faults sink.new) result }
    ensures room { length (header_text wishes.now) ≤ K.room sink.old → IsOk result }
    ensures room_left { K.room sink.old ≤ K.room sink.new + length (header_text wishes.now) }
{
    let mut line = Line::new();
    write_marked_header(wishes, b"", &mut line, sink)
}

/// Writes the lines of a cycle: the MST, the moves at it, the ATs and the MDT, the late moves, then the outcomes, the plan, the stop and
/// the fall that the master reports. If the record has a plan, it must have a start and a position for each drive of `wishes`. A write
/// fails only if the sink has less room than the text. After an error the sink has taken a proper prefix of the text, and its count of
/// faults has risen or is 2^64 - 1.
#[tactic(auto, using(crate::proofs::MarkedLemmas::unmarked_ok, crate::proofs::MarkedLemmas::unmarked_err, crate::proofs::MarkedLemmas::unmarked_cause, crate::proofs::MarkedLemmas::unmarked_room, crate::proofs::MarkedLemmas::unmarked_left))]
pub fn write_cycle<K: Sink>(
    wishes: &Wishes,
    cycle: &CycleRecord,
    sink: &mut K,
) -> Result<(), WriteFailed>
    requires starts { IfSome cycle.now.events.plan (λ p. length p.t1 ≡ length wishes.now.drives) }
    requires positions { IfSome cycle.now.events.plan (λ p. length p.position ≡ length wishes.now.drives) }
    ensures ok { OnOk result (Appends (K.held sink.old) (K.held sink.new) (cycle_text wishes.now cycle.now)) }
    ensures err { OnErr result ((count : ℕ) × (count < length (cycle_text wishes.now cycle.now))
        × Appends (K.held sink.old) (K.held sink.new) (take count (cycle_text wishes.now cycle.now))) }
    ensures cause { HasCause (K.faults sink.old) (K.faults sink.new) result }
    ensures room { length (cycle_text wishes.now cycle.now) ≤ K.room sink.old → IsOk result }
    ensures room_left { K.room sink.old ≤ K.room sink.new + length (cycle_text wishes.now cycle.now) }
{
    let mut line = Line::new();
    write_marked_cycle(wishes, cycle, b"", &mut line, sink)
}

/// Writes the end line of a trace, which has the totals. A write fails only if the sink has less room than the text. After an error the
/// sink has taken a proper prefix of the text, and its count of faults has risen or is 2^64 - 1.
#[tactic(auto, using(crate::proofs::MarkedLemmas::unmarked_ok, crate::proofs::MarkedLemmas::unmarked_err, crate::proofs::MarkedLemmas::unmarked_cause, crate::proofs::MarkedLemmas::unmarked_room, crate::proofs::MarkedLemmas::unmarked_left))]
pub fn write_end<K: Sink>(totals: &Totals, sink: &mut K) -> Result<(), WriteFailed>
    ensures ok { OnOk result (Appends (K.held sink.old) (K.held sink.new) (end_text totals.now)) }
    ensures err { OnErr result ((count : ℕ) × (count < length (end_text totals.now))
        × Appends (K.held sink.old) (K.held sink.new) (take count (end_text totals.now))) }
    ensures cause { HasCause (K.faults sink.old) (K.faults sink.new) result }
    ensures room { length (end_text totals.now) ≤ K.room sink.old → IsOk result }
    ensures room_left { K.room sink.old ≤ K.room sink.new + length (end_text totals.now) }
{
    let mut line = Line::new();
    write_marked_end(totals, b"", &mut line, sink)
}
