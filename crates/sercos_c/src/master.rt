//! A master whose calls a program in another language makes. The comments speak of one that was opened from a document and has had only
//! these calls since.
ghost use Rattle.std.specs.Prelude.{◌≡◌, ◌≤◌, ◌<◌, ◌⊎◌, ◌==◌, ◌∷◌, not, true, false, List, length, None};
ghost use Rattle.sercos_c.specs.Clauses.{cycle_text, known_of, DocumentView, Call, HearMst, HearAt, End, mst_said, mdt_said, done, closed, write_fault, IsNothing, IsPut, silent_record, IsText, arrival, is_master, past_of, reported, reported_in, HoldsMaster, IsSent};
ghost use Rattle.sercos_block.specs.Rings.{wishes_of};
ghost use Rattle.sercos_master.specs.Annals.{Mdt, Restart};

use crate::drive::arrival;
use crate::handle::{Handle, close, on_station};
use crate::station::Station;
use crate::status::DONE;
use std::alloc::Global;

/// Writes the content of this cycle's MST to the front of `out`, and the number of its bytes to `written`, and returns `DONE`. The bytes of
/// `out` after the content stay as they were, and so does the master. Returns `CLOSED` if no master is held, and then nothing is written;
/// otherwise `WRITE_FAULT` if there is too little room, and then `out` stays as it was, and `written` is 0.
#[unsafe(no_mangle)]
pub extern "C" fn sercos_master_mst(
    alloc: Global,
    master: &mut Handle,
    out: &mut [u8],
    written: &mut usize,
) -> u8
    ensures kept { master.new.held.value ≡ master.old.held.value }
    ensures closed { (result == closed) ≡ not (is_master master.old.held.value) }
    ensures said { (d : DocumentView) (h : List Call) → HoldsMaster master.old.held.value d h → IsPut (mst_said (past_of d h)) out.old out.new written.new result }
    ensures nothing { result ≡ closed → (out.new ≡ out.old) × (written.new ≡ written.old) }
{
    on_station!(alloc, master, Station::Master(held) => held.mst(out, written))
}

/// Takes what returned of the master's own MST: `content` if a frame arrived, and otherwise nothing; then `content` is ignored. Returns
/// `DONE`. Returns `CLOSED`, and changes nothing, if no master is held.
#[unsafe(no_mangle)]
pub extern "C" fn sercos_master_hear_mst(
    alloc: Global,
    master: &mut Handle,
    arrived: bool,
    content: &[u8],
) -> u8
    ensures closed { (result == closed) ≡ not (is_master master.old.held.value) }
    ensures status { (result ≡ done) ⊎ (result ≡ closed) }
    ensures heard { (d : DocumentView) (h : List Call) → HoldsMaster master.old.held.value d h → HoldsMaster master.new.held.value d (HearMst (arrival arrived content.now) ∷ h) }
    ensures same { result ≡ closed → master.new.held.value ≡ master.old.held.value }
{
    on_station!(alloc, master, Station::Master(held) => {
        held.hear_mst(arrival(arrived, content));
        DONE
    })
}

/// Takes the content of a frame that arrived at the place of an AT, and returns `DONE`. Returns `CLOSED`, and changes nothing, if no master
/// is held.
#[unsafe(no_mangle)]
pub extern "C" fn sercos_master_hear_at(alloc: Global, master: &mut Handle, content: &[u8]) -> u8
    ensures closed { (result == closed) ≡ not (is_master master.old.held.value) }
    ensures status { (result ≡ done) ⊎ (result ≡ closed) }
    ensures heard { (d : DocumentView) (h : List Call) → HoldsMaster master.old.held.value d h → HoldsMaster master.new.held.value d (HearAt content.now ∷ h) }
    ensures same { result ≡ closed → master.new.held.value ≡ master.old.held.value }
{
    on_station!(alloc, master, Station::Master(held) => {
        held.hear_at(content);
        DONE
    })
}

/// Has the master send this cycle's MDT: writes its content to the front of `out`, the number of its bytes to `written`, and its start, in
/// microseconds after the MST's end, to `start`, and returns `DONE`. The bytes of `out` after the content stay as they were. Returns
/// `CLOSED` if no master is held, and then nothing changes. Otherwise it returns `WRITE_FAULT` if `out` has fewer than 2,048 bytes, and
/// then the master stays as it was. Otherwise it returns `NO` if there is no MDT in this cycle: in phase 0, in 1 if each drive is
/// identified, in 2 if no step is open, and in 3 and 4 without a plan. With `NO`, too, the master has noted a stop, made its plan and begun
/// its next tasks, if they were due. After `WRITE_FAULT` and `NO` `written` is 0, and `out` and the start stay as they were.
#[unsafe(no_mangle)]
pub extern "C" fn sercos_master_mdt(
    alloc: Global,
    master: &mut Handle,
    out: &mut [u8],
    written: &mut usize,
    start: &mut u16,
) -> u8
    ensures closed { (result == closed) ≡ not (is_master master.old.held.value) }
    ensures fault { is_master master.old.held.value ≡ true → length out.old < 2048 → IsNothing write_fault out.old out.new written.new result × ((start.new ≡ start.old) × (master.new.held.value ≡ master.old.held.value)) }
    ensures said { (d : DocumentView) (h : List Call) → HoldsMaster master.old.held.value d h → 2048 ≤ length out.old →
        IsSent (mdt_said (known_of d.setup) (past_of d (Mdt ∷ h))) out.old out.new written.new start.old start.new result × HoldsMaster master.new.held.value d (Mdt ∷ h) }
    ensures nothing { result ≡ closed → (out.new ≡ out.old) × ((written.new ≡ written.old) × ((start.new ≡ start.old) × (master.new.held.value ≡ master.old.held.value))) }
{
    on_station!(alloc, master, Station::Master(held) => held.mdt(out, written, start))
}

/// Ends the cycle: the master falls to phase 0, stays in its phase, or rises to the next. What it reports of the cycle takes the place of
/// its earlier report, for `sercos_master_events`. Returns `DONE`. Returns `CLOSED`, and changes nothing, if no master is held.
#[unsafe(no_mangle)]
pub extern "C" fn sercos_master_end_cycle(alloc: Global, master: &mut Handle) -> u8
    ensures closed { (result == closed) ≡ not (is_master master.old.held.value) }
    ensures status { (result ≡ done) ⊎ (result ≡ closed) }
    ensures ended { (d : DocumentView) (h : List Call) → HoldsMaster master.old.held.value d h → HoldsMaster master.new.held.value d (End ∷ h) }
    ensures same { result ≡ closed → master.new.held.value ≡ master.old.held.value }
{
    on_station!(alloc, master, Station::Master(held) => {
        held.end_cycle();
        DONE
    })
}

/// Restarts the master between two cycles, and returns `DONE`. It then commands phase 0 and has received nothing; its current requests are
/// reported as broken, and those not begun still wait. Returns `CLOSED`, and changes nothing, if no master is held.
#[unsafe(no_mangle)]
pub extern "C" fn sercos_master_restart(alloc: Global, master: &mut Handle) -> u8
    ensures closed { (result == closed) ≡ not (is_master master.old.held.value) }
    ensures status { (result ≡ done) ⊎ (result ≡ closed) }
    ensures restarted { (d : DocumentView) (h : List Call) → HoldsMaster master.old.held.value d h → HoldsMaster master.new.held.value d (Restart ∷ h) }
    ensures same { result ≡ closed → master.new.held.value ≡ master.old.held.value }
{
    on_station!(alloc, master, Station::Master(held) => {
        held.restart();
        DONE
    })
}

/// Writes the phase that the master commands, 0 to 4, to `phase`, and returns `DONE`. The master stays as it was. Returns `CLOSED` if no
/// master is held, and then nothing is written.
#[unsafe(no_mangle)]
pub extern "C" fn sercos_master_command(alloc: Global, master: &mut Handle, phase: &mut u8) -> u8
    ensures kept { master.new.held.value ≡ master.old.held.value }
    ensures closed { (result == closed) ≡ not (is_master master.old.held.value) }
    ensures status { (result ≡ done) ⊎ (result ≡ closed) }
    ensures phase { (d : DocumentView) (h : List Call) → HoldsMaster master.old.held.value d h → phase.new ≡ (past_of d h).now.phase }
    ensures bound { result ≡ done → phase.new ≤ 4 }
    ensures nothing { result ≡ closed → phase.new ≡ phase.old }
{
    on_station!(alloc, master, Station::Master(held) => {
        *phase = held.command();
        DONE
    })
}

/// Writes the trace lines of what the master reported in the cycle that ended last, or in a restart since, nothing before both, to the
/// front of `out`, and the number of their bytes to `written`, and returns `DONE`. The number of the cycle in the lines is how many cycles
/// had ended before, since the opening, at most 2^32 - 1. The master stays as it was. Returns `CLOSED` if no master is held; with a master
/// that was opened from a document it never does. After `CLOSED` nothing is written. Otherwise it returns `WRITE_FAULT` if there is too
/// little room, and then `written` is 0. Afterwards the bytes of `out` after the text are unspecified; after `WRITE_FAULT` all of them are.
#[unsafe(no_mangle)]
pub extern "C" fn sercos_master_events(
    alloc: Global,
    master: &mut Handle,
    out: &mut [u8],
    written: &mut usize,
) -> u8
    ensures kept { master.new.held.value ≡ master.old.held.value }
    ensures closed { is_master master.old.held.value ≡ false → result ≡ closed }
    ensures written { (d : DocumentView) (h : List Call) → HoldsMaster master.old.held.value d h → IsText (cycle_text (wishes_of d.setup) (silent_record (reported_in h) (reported d h))) out.old out.new written.new result }
    ensures nothing { result ≡ closed → (out.new ≡ out.old) × (written.new ≡ written.old) }
{
    on_station!(alloc, master, Station::Master(held) => held.events(out, written))
}

/// Closes a master: drops it and frees its memory, if there is one. The handle then holds nothing; it may be closed again, or opened.
#[unsafe(no_mangle)]
pub extern "C" fn sercos_master_close(alloc: Global, master: &mut Handle)
    ensures { master.new.held.value ≡ None }
{
    close(alloc, master);
}
