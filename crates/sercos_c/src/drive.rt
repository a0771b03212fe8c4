//! A drive whose calls a program in another language makes. The comments speak of one that was opened from a document and has had only
//! these calls since.
ghost use Rattle.std.specs.Prelude.{◌≡◌, ◌≢◌, ℕ, ◌≤◌, ◌<◌, ◌⊎◌, ◌==◌, not, List, ◌∷◌, None, true};
ghost use Rattle.sercos_c.specs.Clauses.{option_copied, DriveView, find_block, DriveCall, Mst, cycle_at, phase_at, store_at, drive_says, DriveStandsFor, refused, closed, done, IsNothing, is_drive, drive_status, arrival, HoldsDrive, IsSaid, IsElement};
ghost use Rattle.sercos_drive.specs.Heard.{Mdt, Restart};

use crate::handle::{Handle, close, on_station};
use crate::room::put;
use crate::station::Station;
use crate::status::{DONE, NO, REFUSED};
use sercos_bits::Content;
use sercos_drive::Drive;
use sercos_idn::Idn;
use sercos_idn::element::{DATA, NAME};
use std::alloc::Global;

/// Returns what arrived at a place of a cycle: the content if a frame arrived, and otherwise `None`.
pub(crate) fn arrival(arrived: bool, content: &[u8]) -> Option<&[u8]>
    ensures { option_copied result ≡ arrival arrived content.now }
{
    if arrived { Some(content) } else { None }
}

// Writes the content of this cycle's AT to the front of `out`, the number of its bytes to `written`, and its start, in microseconds after
// the MST's end, to `start`, and returns `DONE`. The bytes of `out` after the content stay as they were. Returns `NO` if the drive sends
// none: without this cycle's MST, in phase 0, and in phases 1 and 2 if it accepted no MDT in the cycle before. Then the start stays as it
// was. Otherwise it returns `WRITE_FAULT` if there is too little room, and then the start is written anyway. After `NO` and `WRITE_FAULT`
// `written` is 0, and `out` stays as it was.
fn at_of(drive: &Drive, out: &mut [u8], written: &mut usize, start: &mut u16) -> u8
    ensures open { result ≢ closed }
    ensures said { (d : DriveView) (rate : ℕ) (h : List DriveCall) → DriveStandsFor drive.now d rate h
        → IsSaid (drive_says d rate h) out.old out.new written.new start.old start.new result }
{
    let mut said = Content::new();
    match drive.at(&mut said) {
        Some(at) => {
            *start = at;
            put(said.as_slice(), out, written)
        }
        None => {
            *written = 0;
            NO
        }
    }
}

// Writes the bytes of an element, 2 to 7, of the drive's data block `idn` to the front of `out`, the number of them, at most 1,024, to
// `written`, and 0 to `code`, and returns `DONE`. The bytes of `out` after the element stay as they were. The operation data of a block
// with a step are those of cycle 0, not of the newest one. Returns `REFUSED` if the element isn't 2 to 7, and then `code` is 0. Otherwise
// it returns `NO` if the drive has no such block, or the block no such element, and then `code` is the error that a service transfer gets;
// or `WRITE_FAULT` if there is too little room, and then `code` is 0. In these three cases `written` is 0, and `out` stays as it was.
fn element_of(
    drive: &Drive,
    idn: u16,
    element: u8,
    out: &mut [u8],
    written: &mut usize,
    code: &mut u16,
) -> u8
    ensures open { result ≢ closed }
    ensures bound { written.new ≤ 1024 }
    ensures refused { (element < 2) ⊎ (7 < element) → IsNothing refused out.old out.new written.new result × (code.new ≡ 0) }
    ensures read { (d : DriveView) (rate : ℕ) (h : List DriveCall) → DriveStandsFor drive.now d rate h → 2 ≤ element → element ≤ 7
        → IsElement (find_block idn (store_at d rate h)) element out.old out.new written.new code.new result }
{
    if element < NAME || element > DATA {
        *code = 0;
        *written = 0;
        return REFUSED;
    }
    match drive.store().element(Idn { raw: idn }, element) {
        Ok(bytes) => {
            *code = 0;
            put(bytes, out, written)
        }
        Err(why) => {
            *code = why.raw;
            *written = 0;
            NO
        }
    }
}

/// Closes a drive: drops it and frees its memory, if there is one. The handle then holds nothing; it may be closed again, or opened.
#[unsafe(no_mangle)]
pub extern "C" fn sercos_drive_close(alloc: Global, drive: &mut Handle)
    ensures { drive.new.held.value ≡ None }
{
    close(alloc, drive);
}

/// Takes what arrived at the MST's place of a cycle: `content` if a frame arrived, and otherwise nothing; then `content` is ignored. The
/// cycle must not be below an earlier one. Returns `DONE`. Returns `CLOSED`, and changes nothing, if no drive is held.
#[unsafe(no_mangle)]
pub extern "C" fn sercos_drive_hear_mst(
    alloc: Global,
    drive: &mut Handle,
    cycle: u32,
    arrived: bool,
    content: &[u8],
) -> u8
    ensures status { result ≡ drive_status drive.old.held.value }
    ensures same { result ≡ closed → drive.new.held.value ≡ drive.old.held.value }
    ensures stands { (d : DriveView) (rate : ℕ) (h : List DriveCall) → HoldsDrive drive.old.held.value d rate h → cycle_at d rate h ≤ cycle
        → HoldsDrive drive.new.held.value d rate (Mst cycle (arrival arrived content.now) ∷ h) }
{
    on_station!(alloc, drive, Station::Drive(held) => {
        held.hear_mst(cycle, arrival(arrived, content));
        DONE
    })
}

/// Takes what arrived at the MDT's place of this cycle: `content` if a frame arrived, and otherwise nothing; then `content` is ignored.
/// Returns `DONE`. Returns `CLOSED`, and changes nothing, if no drive is held.
#[unsafe(no_mangle)]
pub extern "C" fn sercos_drive_hear_mdt(
    alloc: Global,
    drive: &mut Handle,
    arrived: bool,
    content: &[u8],
) -> u8
    ensures status { result ≡ drive_status drive.old.held.value }
    ensures same { result ≡ closed → drive.new.held.value ≡ drive.old.held.value }
    ensures stands { (d : DriveView) (rate : ℕ) (h : List DriveCall) → HoldsDrive drive.old.held.value d rate h
        → HoldsDrive drive.new.held.value d rate (Mdt (arrival arrived content.now) ∷ h) }
{
    on_station!(alloc, drive, Station::Drive(held) => {
        held.hear_mdt(arrival(arrived, content));
        DONE
    })
}

/// Restarts a drive between two cycles: it is in phase 0, its service channel and its procedure commands are cleared, and its data blocks
/// stay. Returns `DONE`. Returns `CLOSED`, and changes nothing, if no drive is held.
#[unsafe(no_mangle)]
pub extern "C" fn sercos_drive_restart(alloc: Global, drive: &mut Handle) -> u8
    ensures status { result ≡ drive_status drive.old.held.value }
    ensures same { result ≡ closed → drive.new.held.value ≡ drive.old.held.value }
    ensures stands { (d : DriveView) (rate : ℕ) (h : List DriveCall) → HoldsDrive drive.old.held.value d rate h
        → HoldsDrive drive.new.held.value d rate (Restart ∷ h) }
{
    on_station!(alloc, drive, Station::Drive(held) => {
        held.restart();
        DONE
    })
}

/// Writes the phase of a drive, 0 to 4, to `phase`, and returns `DONE`. Returns `CLOSED`, and writes nothing, if no drive is held. The
/// drive stays as it was.
#[unsafe(no_mangle)]
pub extern "C" fn sercos_drive_phase(alloc: Global, drive: &mut Handle, phase: &mut u8) -> u8
    ensures status { result ≡ drive_status drive.old.held.value }
    ensures same { drive.new.held.value ≡ drive.old.held.value }
    ensures phase { (d : DriveView) (rate : ℕ) (h : List DriveCall) → HoldsDrive drive.old.held.value d rate h → phase.new ≡ phase_at d rate h }
    ensures bound { result ≡ done → phase.new ≤ 4 }
    ensures nothing { result ≡ closed → phase.new ≡ phase.old }
{
    on_station!(alloc, drive, Station::Drive(held) => {
        *phase = held.phase();
        DONE
    })
}

/// Writes the content of this cycle's AT to the front of `out`, the number of its bytes to `written`, and its start, in microseconds after
/// the MST's end, to `start`, and returns `DONE`. The bytes of `out` after the content stay as they were, and so does the drive. It is
/// called between this cycle's `sercos_drive_hear_mst` and `sercos_drive_hear_mdt`. Returns `CLOSED`, and writes nothing, if no drive is
/// held; otherwise `NO` if the drive sends none: without this cycle's MST, in phase 0, and in phases 1 and 2 if it accepted no MDT in the
/// cycle before. Then the start stays as it was. Otherwise it returns `WRITE_FAULT` if there is too little room, and then the start is
/// written anyway. After `NO` and `WRITE_FAULT` `written` is 0, and `out` stays as it was.
#[unsafe(no_mangle)]
pub extern "C" fn sercos_drive_at(
    alloc: Global,
    drive: &mut Handle,
    out: &mut [u8],
    written: &mut usize,
    start: &mut u16,
) -> u8
    ensures closed { (result == closed) ≡ not (is_drive drive.old.held.value) }
    ensures same { drive.new.held.value ≡ drive.old.held.value }
    ensures said { (d : DriveView) (rate : ℕ) (h : List DriveCall) → HoldsDrive drive.old.held.value d rate h
        → IsSaid (drive_says d rate h) out.old out.new written.new start.old start.new result }
    ensures nothing { result ≡ closed → (out.new ≡ out.old) × ((written.new ≡ written.old) × (start.new ≡ start.old)) }
{
    on_station!(alloc, drive, Station::Drive(held) => at_of(held, out, written, start))
}

/// Writes the bytes of an element, 2 to 7, of the data block `idn` to the front of `out`, and the number of them, at most 1,024, to
/// `written`, and returns `DONE`. The bytes of `out` after the element stay as they were, and so does the drive. A number has its low byte
/// first. The operation data of a block with a step are those of cycle 0, while an AT or a service transfer has those of its own cycle.
/// Returns `CLOSED`, and writes nothing, if no drive is held. Otherwise it returns `REFUSED` if the element isn't 2 to 7. Otherwise it
/// returns `NO` if the drive has no such block, or the block no such element, and then `code` is the error that a service transfer gets; or
/// `WRITE_FAULT` if there is too little room. After the last three `written` is 0, and `out` stays as it was. Unless the result is `NO` or
/// `CLOSED`, `code` is 0.
#[unsafe(no_mangle)]
pub extern "C" fn sercos_drive_element(
    alloc: Global,
    drive: &mut Handle,
    idn: u16,
    element: u8,
    out: &mut [u8],
    written: &mut usize,
    code: &mut u16,
) -> u8
    ensures closed { (result == closed) ≡ not (is_drive drive.old.held.value) }
    ensures same { drive.new.held.value ≡ drive.old.held.value }
    ensures bound { result ≢ closed → written.new ≤ 1024 }
    ensures refused { is_drive drive.old.held.value ≡ true → (element < 2) ⊎ (7 < element)
        → IsNothing refused out.old out.new written.new result × (code.new ≡ 0) }
    ensures read { (d : DriveView) (rate : ℕ) (h : List DriveCall) → HoldsDrive drive.old.held.value d rate h → 2 ≤ element → element ≤ 7
        → IsElement (find_block idn (store_at d rate h)) element out.old out.new written.new code.new result }
    ensures nothing { result ≡ closed → (out.new ≡ out.old) × ((written.new ≡ written.old) × (code.new ≡ code.old)) }
{
    on_station!(alloc, drive, Station::Drive(held) => element_of(held, idn, element, out, written, code))
}
