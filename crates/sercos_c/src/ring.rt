//! A ring whose cycles a program in another language makes. The comments speak of one that was opened from a document.
ghost use Rattle.std.specs.Prelude.{◌≡◌, ◌≢◌, ◌==◌, ◌∷◌, not, nat_lt, if◌then◌else◌, false, List, length, reverse, None};
ghost use Rattle.sercos_c.specs.Clauses.{CycleView, header_text, end_text, DocumentView, totals_of, script_carry, script_restarts, IsKept, done, answer_no, closed, IsText, lines_of_newest, HoldsRing};
ghost use Rattle.sercos_block.specs.Rings.{wishes_of};
ghost use Rattle.sercos_c.specs.Rings.{is_ring};

use crate::handle::{Handle, close, on_station};
use crate::station::Station;
use crate::texts::{put_end, put_head};
use std::alloc::Global;

/// Writes the first lines of the trace, the version, the ring, the drives and the order, to the front of `out`, and the number of their
/// bytes to `written`, and returns `DONE`. The ring stays as it was. Returns `CLOSED` if no ring is held, and then nothing is written;
/// otherwise `WRITE_FAULT` if there is too little room, and then `written` is 0. Afterwards the bytes of `out` after the text are
/// unspecified; after `WRITE_FAULT` all of them are.
#[unsafe(no_mangle)]
pub extern "C" fn sercos_ring_head(
    alloc: Global,
    ring: &mut Handle,
    out: &mut [u8],
    written: &mut usize,
) -> u8
    ensures kept { ring.new.held.value ≡ ring.old.held.value }
    ensures closed { (result == closed) ≡ not (is_ring ring.old.held.value) }
    ensures written { (d : DocumentView) (j : List CycleView) → HoldsRing ring.old.held.value d j → IsText (header_text (wishes_of d.setup)) out.old out.new written.new result }
    ensures nothing { result ≡ closed → (out.new ≡ out.old) × (written.new ≡ written.old) }
{
    on_station!(alloc, ring, Station::Ring(held) => put_head(&held.wishes, out, written))
}

/// Makes the next cycle, and returns `DONE`. Returns `CLOSED` if no ring is held; otherwise `NO` if all cycles of the document have been
/// made. After these two nothing changes. The cycles made so far have the properties of `kept_law`.
#[unsafe(no_mangle)]
pub extern "C" fn sercos_ring_cycle(alloc: Global, ring: &mut Handle) -> u8
    ensures closed { (result == closed) ≡ not (is_ring ring.old.held.value) }
    ensures status { (d : DocumentView) (j : List CycleView) → HoldsRing ring.old.held.value d j → result ≡ (if nat_lt (length j) d.setup.cycles then done else answer_no) }
    ensures goes { (d : DocumentView) (j : List CycleView) → HoldsRing ring.old.held.value d j → result ≡ done → (v : CycleView) × HoldsRing ring.new.held.value d (v ∷ j) }
    ensures same { result ≢ done → ring.new.held.value ≡ ring.old.held.value }
    ensures kept { (d : DocumentView) (j : List CycleView) → HoldsRing ring.new.held.value d j → IsKept d.setup d.jobs (script_carry d) (script_restarts d) j }
{
    on_station!(alloc, ring, Station::Ring(held) => held.cycle())
}

/// Writes the trace lines of the cycle that was made last, none before the first, to the front of `out`, and the number of their bytes to
/// `written`, and returns `DONE`. The ring stays as it was. Returns `CLOSED` if no ring is held; with a ring that was opened from a
/// document it never does. After `CLOSED` nothing is written. Otherwise it returns `WRITE_FAULT` if there is too little room, and then
/// `written` is 0. Afterwards the bytes of `out` after the text are unspecified; after `WRITE_FAULT` all of them are.
#[unsafe(no_mangle)]
pub extern "C" fn sercos_ring_lines(
    alloc: Global,
    ring: &mut Handle,
    out: &mut [u8],
    written: &mut usize,
) -> u8
    ensures kept { ring.new.held.value ≡ ring.old.held.value }
    ensures closed { is_ring ring.old.held.value ≡ false → result ≡ closed }
    ensures written { (d : DocumentView) (j : List CycleView) → HoldsRing ring.old.held.value d j → IsText (lines_of_newest (wishes_of d.setup) j) out.old out.new written.new result }
    ensures nothing { result ≡ closed → (out.new ≡ out.old) × (written.new ≡ written.old) }
{
    on_station!(alloc, ring, Station::Ring(held) => held.lines(out, written))
}

/// Writes the last line of the trace, the totals of the cycles made so far, to the front of `out`, and the number of its bytes to
/// `written`, and returns `DONE`. The ring stays as it was. Returns `CLOSED` if no ring is held, and then nothing is written; otherwise
/// `WRITE_FAULT` if there is too little room, and then `written` is 0. Afterwards the bytes of `out` after the text are unspecified; after
/// `WRITE_FAULT` all of them are.
#[unsafe(no_mangle)]
pub extern "C" fn sercos_ring_end(
    alloc: Global,
    ring: &mut Handle,
    out: &mut [u8],
    written: &mut usize,
) -> u8
    ensures kept { ring.new.held.value ≡ ring.old.held.value }
    ensures closed { (result == closed) ≡ not (is_ring ring.old.held.value) }
    ensures written { (d : DocumentView) (j : List CycleView) → HoldsRing ring.old.held.value d j → IsText (end_text (totals_of (reverse j))) out.old out.new written.new result }
    ensures nothing { result ≡ closed → (out.new ≡ out.old) × (written.new ≡ written.old) }
{
    on_station!(alloc, ring, Station::Ring(held) => put_end(&held.totals, out, written))
}

/// Closes a ring: drops it and frees its memory, if there is one. The handle then holds nothing; it may be closed again, or opened.
#[unsafe(no_mangle)]
pub extern "C" fn sercos_ring_close(alloc: Global, ring: &mut Handle)
    ensures { ring.new.held.value ≡ None }
{
    close(alloc, ring);
}
