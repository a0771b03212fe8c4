//! Lines of a trace, which are written to the front of a room. Afterwards the bytes of the room after the text are unspecified; if the text
//! doesn't fit, all of them are.
ghost use Rattle.std.specs.Prelude.{◌≡◌, ◌<◌, ◌==◌, ◌&&◌, true, false, if◌then◌else◌, length, take};
ghost use Rattle.sercos_c.specs.Clauses.{All, header_text, cycle_text, end_text, has_slots, done, write_fault, IsIn, IsText};

use crate::slices::SliceSink;
use crate::status::{DONE, WRITE_FAULT};
use sercos_timing::{Plan, Wishes};
use sercos_trace::{CycleRecord, Totals, write_cycle, write_end, write_header};

// Writes the first lines of a trace to a sink, and returns whether they fit. If not, the bytes in the sink are unspecified. The sink must
// have taken nothing, and no write to it may have failed. Each index of the order must be that of a drive. The sink stays over the same
// slice.
fn head_into(wishes: &Wishes, sink: &mut SliceSink<'_>) -> bool
    requires order { All (λ place. place < length wishes.now.drives) wishes.now.order }
    requires fresh { sink.old.is_full ≡ false }
    requires empty { sink.old.place ≡ 0 }
    ensures same_reference { sink.new.room.ghost_name ≡ sink.old.room.ghost_name }
    ensures written { IsIn (header_text wishes.now) (length sink.old.room.now) (take sink.new.place sink.new.room.now) result }
{
    write_header(wishes, sink).is_ok()
}

// Writes the trace lines of a cycle to a sink, and returns whether they fit. If not, the bytes in the sink are unspecified. The sink must
// have taken nothing, and no write to it may have failed. If the record has a plan, it must have exactly one start and one position for
// each drive of `wishes`. The sink stays over the same slice.
fn cycle_into(wishes: &Wishes, made: &CycleRecord, sink: &mut SliceSink<'_>) -> bool
    requires slots { has_slots wishes.now made.now ≡ true }
    requires fresh { sink.old.is_full ≡ false }
    requires empty { sink.old.place ≡ 0 }
    ensures same_reference { sink.new.room.ghost_name ≡ sink.old.room.ghost_name }
    ensures written { IsIn (cycle_text wishes.now made.now) (length sink.old.room.now) (take sink.new.place sink.new.room.now) result }
{
    write_cycle(wishes, made, sink).is_ok()
}

// Writes the last line of a trace to a sink, and returns whether it fits. If not, the bytes in the sink are unspecified. The sink must have
// taken nothing, and no write to it may have failed. The sink stays over the same slice.
fn end_into(totals: &Totals, sink: &mut SliceSink<'_>) -> bool
    requires fresh { sink.old.is_full ≡ false }
    requires empty { sink.old.place ≡ 0 }
    ensures same_reference { sink.new.room.ghost_name ≡ sink.old.room.ghost_name }
    ensures written { IsIn (end_text totals.now) (length sink.old.room.now) (take sink.new.place sink.new.room.now) result }
{
    write_end(totals, sink).is_ok()
}

// Writes `place`, the number of bytes of a text, to `written`, and returns `DONE`, if the text fits. Otherwise writes 0, and returns
// `WRITE_FAULT`.
fn tell(fits: bool, place: usize, written: &mut usize) -> u8
    ensures status { result ≡ (if fits then done else write_fault) }
    ensures written { written.new ≡ (if fits then place else 0) }
{
    *written = if fits { place } else { 0 };
    if fits { DONE } else { WRITE_FAULT }
}

/// Writes the first lines of a trace to the front of `out`, and the number of their bytes to `written`, and returns `DONE`. Returns
/// `WRITE_FAULT` if there is too little room, and then `written` is 0. Each index of the order must be that of a drive.
pub(crate) fn put_head(wishes: &Wishes, out: &mut [u8], written: &mut usize) -> u8
    requires { All (λ place. place < length wishes.now.drives) wishes.now.order }
    ensures { IsText (header_text wishes.now) out.old out.new written.new result }
{
    let mut sink = SliceSink::new(out);
    let fits = head_into(wishes, &mut sink);
    tell(fits, sink.place, written)
}

/// Writes the trace lines of a cycle to the front of `out`, and the number of their bytes to `written`, and returns `DONE`. Returns
/// `WRITE_FAULT` if there is too little room, and then `written` is 0. If the record has a plan, it must have exactly one start and one
/// position for each drive of `wishes`.
pub(crate) fn put_cycle(
    wishes: &Wishes,
    made: &CycleRecord,
    out: &mut [u8],
    written: &mut usize,
) -> u8
    requires { has_slots wishes.now made.now ≡ true }
    ensures { IsText (cycle_text wishes.now made.now) out.old out.new written.new result }
{
    let mut sink = SliceSink::new(out);
    let fits = cycle_into(wishes, made, &mut sink);
    tell(fits, sink.place, written)
}

/// Writes the last line of a trace, the totals, to the front of `out`, and the number of its bytes to `written`, and returns `DONE`.
/// Returns `WRITE_FAULT` if there is too little room, and then `written` is 0.
pub(crate) fn put_end(totals: &Totals, out: &mut [u8], written: &mut usize) -> u8
    ensures { IsText (end_text totals.now) out.old out.new written.new result }
{
    let mut sink = SliceSink::new(out);
    let fits = end_into(totals, &mut sink);
    tell(fits, sink.place, written)
}

// Returns whether a plan has exactly one start and one position for each of n drives.
fn has_each(plan: &Plan, n: usize) -> bool
    ensures { result ≡ ((length plan.now.t1 == n) && (length plan.now.position == n)) }
{
    plan.t1().len() == n && plan.position().len() == n
}

/// Returns whether the plan that is reported in a cycle has exactly one start and one position for each drive of `wishes`; true if none is
/// reported.
pub(crate) fn has_slots(wishes: &Wishes, made: &CycleRecord) -> bool
    ensures { result ≡ has_slots wishes.now made.now }
{
    match &made.events.plan {
        Some(plan) => has_each(plan, wishes.drives().len()),
        None => true,
    }
}
