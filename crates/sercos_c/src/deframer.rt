//! A frame whose bits arrive in pieces.
ghost use Rattle.std.specs.Prelude.{◌≡◌, ◌≢◌, ◌⊎◌, ◌==◌, ◌<◌, ◌≤◌, not, Bool, true, List, [], ◌++◌, length, take, None};
ghost use Rattle.sercos_c.specs.Clauses.{bits_of, taken_of, IsFed, done, write_fault, no_memory, closed, IsNothing, no_bad_frame, IsUnframed, is_deframer, feed_status, HoldsFed};

use crate::bad_frame::{SercosBadFrame, no_bad_frame};
use crate::frames::{MOST_BITS, feed_bits, read_frame};
use crate::handle::{Handle, close, on_station, open};
use crate::station::Station;
use crate::status::{DONE, REFUSED, TOO_LONG, WRITE_FAULT};
use sercos_bits::MAX_CONTENT;
use sercos_hdlc::Deframer;
use std::alloc::Global;

// Feeds the first `count` bits of `bits` to a deframer, and returns `DONE`. Returns `REFUSED` if there are fewer bits; otherwise `TOO_LONG`
// if more than 2^31 bits would have been taken since the frame began. After these two the deframer is unchanged.
fn feed(deframer: &mut Deframer, bits: &[u8], count: usize) -> u8
    ensures status { result ≡ feed_status (taken_of deframer.old) (length bits.now) count }
    ensures fed { result ≡ done → (before : List Bool) → IsFed before deframer.old → IsFed (before ++ take count (bits_of bits.now)) deframer.new }
    ensures same { result ≢ done → deframer.new ≡ deframer.old }
{
    if count.div_ceil(8) > bits.len() {
        return REFUSED;
    }
    if count > MOST_BITS || deframer.taken() as usize > MOST_BITS - count {
        return TOO_LONG;
    }
    feed_bits(deframer, bits, count);
    DONE
}

// Reads all bits so far as a frame, and begins a new one, with the result of `read_frame`. Returns `WRITE_FAULT` if `out` has fewer than
// 2,048 bytes; then `written` and all fields of `why` are 0, and `out` and the bits stay.
fn finish(
    deframer: &mut Deframer,
    out: &mut [u8],
    written: &mut usize,
    why: &mut SercosBadFrame,
) -> u8
    ensures fault { length out.old < 2048 → IsNothing write_fault out.old out.new written.new result × (why.new ≡ no_bad_frame) }
    ensures read { (bits : List Bool) → IsFed bits deframer.old → 2048 ≤ length out.old
        → IsUnframed bits out.old out.new written.new why.new result }
    ensures anew { 2048 ≤ length out.old → IsFed [] deframer.new }
    ensures same { length out.old < 2048 → deframer.new ≡ deframer.old }
    ensures open { result ≢ closed }
{
    if out.len() < MAX_CONTENT {
        *written = 0;
        *why = no_bad_frame();
        return WRITE_FAULT;
    }
    read_frame(deframer, out, written, why)
}

/// Begins a frame: no bit of it has been taken. What the handle held before is closed. Returns `DONE`, or `MEMORY` if no memory was found;
/// then nothing is held.
#[unsafe(no_mangle)]
pub extern "C" fn sercos_deframer_open(alloc: Global, deframer: &mut Handle) -> u8
    ensures status { (result ≡ done) ⊎ (result ≡ no_memory) }
    ensures opened { result ≡ done → HoldsFed [] deframer.new.held.value }
    ensures none { result ≢ done → deframer.new.held.value ≡ None }
{
    open(alloc, Station::Deframer(Deframer::new()), deframer)
}

/// Takes the first `count` bits of `bits`, and returns `DONE`. Bit n is bit n % 8 of byte n / 8. A frame may be cut anywhere. Returns
/// `CLOSED` if no deframer is held; otherwise `REFUSED` if there are fewer bits; otherwise `TOO_LONG` if more than 2^31 bits would have
/// been taken since the frame began. After these three nothing changes.
#[unsafe(no_mangle)]
pub extern "C" fn sercos_deframer_feed(
    alloc: Global,
    deframer: &mut Handle,
    bits: &[u8],
    count: usize,
) -> u8
    ensures closed { (result == closed) ≡ not (is_deframer deframer.old.held.value) }
    ensures status { (before : List Bool) → HoldsFed before deframer.old.held.value → result ≡ feed_status (length before) (length bits.now) count }
    ensures fed { (before : List Bool) → HoldsFed before deframer.old.held.value → result ≡ done
        → HoldsFed (before ++ take count (bits_of bits.now)) deframer.new.held.value }
    ensures same { result ≢ done → deframer.new.held.value ≡ deframer.old.held.value }
{
    on_station!(alloc, deframer, Station::Deframer(held) => feed(held, bits, count))
}

/// Reads all bits so far as a frame, writes its content to the front of `out` and the number of its bytes to `written`, and begins a new
/// frame. Returns `DONE` then. Returns `CLOSED` if no deframer is held, and then nothing changes. Otherwise it returns `WRITE_FAULT` if
/// `out` has fewer than 2,048 bytes; then the bits stay. Otherwise it returns `NO`, with the reason in `why`, if the bits are not a frame;
/// then a new frame begins, too. After the last two `written` is 0, and `out` stays as it was. Unless the result is `NO` or `CLOSED`, all
/// fields of `why` are 0.
#[unsafe(no_mangle)]
pub extern "C" fn sercos_deframer_finish(
    alloc: Global,
    deframer: &mut Handle,
    out: &mut [u8],
    written: &mut usize,
    why: &mut SercosBadFrame,
) -> u8
    ensures closed { (result == closed) ≡ not (is_deframer deframer.old.held.value) }
    ensures fault { is_deframer deframer.old.held.value ≡ true → length out.old < 2048 → IsNothing write_fault out.old out.new written.new result × (why.new ≡ no_bad_frame) }
    ensures read { (bits : List Bool) → HoldsFed bits deframer.old.held.value → 2048 ≤ length out.old
        → IsUnframed bits out.old out.new written.new why.new result }
    ensures anew { is_deframer deframer.old.held.value ≡ true → 2048 ≤ length out.old → HoldsFed [] deframer.new.held.value }
    ensures same { (length out.old < 2048) ⊎ (result ≡ closed) → deframer.new.held.value ≡ deframer.old.held.value }
    ensures nothing { result ≡ closed → (out.new ≡ out.old) × ((written.new ≡ written.old) × (why.new ≡ why.old)) }
{
    on_station!(alloc, deframer, Station::Deframer(held) => finish(held, out, written, why))
}

/// Closes a deframer: drops it and frees its memory, if there is one. The handle then holds nothing; it may be closed again, or opened.
#[unsafe(no_mangle)]
pub extern "C" fn sercos_deframer_close(alloc: Global, deframer: &mut Handle)
    ensures { deframer.new.held.value ≡ None }
{
    close(alloc, deframer);
}
