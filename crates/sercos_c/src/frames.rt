//! Frames of ISO/IEC 3309. Bit n of a list of bytes is bit n % 8 of byte n / 8.
ghost use Rattle.std.specs.Prelude.{◌≡◌, ◌≢◌, ◌+◌, ◌-◌, ◌*◌, ◌/◌, ◌%◌, ◌^◌, ◌<◌, ◌≤◌, Bool, List, [], ◌++◌, length, take, drop};
ghost use Rattle.sercos_c.specs.Clauses.{bits_of, fcs_of, frame_of, taken_of, IsFed, done, refused, too_long, closed, IsNothing, bytes_for, padded, frame_status, no_bad_frame, IsUnframed};

use crate::bad_frame::{SercosBadFrame, bad_frame_of, no_bad_frame};
use crate::room::put;
use crate::status::{DONE, NO, REFUSED, TOO_LONG, WRITE_FAULT};
use sercos_bits::{BitBuf, Content, fcs, push_number};
use sercos_hdlc::{Deframer, frame};

/// The most bits that a reader of a frame takes.
pub(crate) const MOST_BITS: usize = 0x8000_0000;

/// Returns the frame check sequence of a content of any length (ISO/IEC 3309). A frame carries its low byte first.
#[unsafe(no_mangle)]
pub extern "C" fn sercos_fcs(content: &[u8]) -> u16
    ensures { result ≡ fcs_of content.now }
{
    fcs(content)
}

/// Appends zeros up to a whole byte, at most seven.
pub(crate) fn pad(bits: &mut BitBuf)
    ensures { bits.new ≡ padded bits.old }
{
    let rest = bits.len() % 8;
    push_number(0, (8 - rest) % 8, bits);
}

/// Writes the bits to `out`, which must have one byte for each eight of them.
pub(crate) fn fill(bits: &BitBuf, out: &mut [u8])
    requires { length bits.now ≡ 8 * length out.old }
    ensures { bits_of out.new ≡ bits.now }
{
    let count = bits.len() / 8;
    for place in 0..count {
        out[place] = bits.byte_at(8 * place);
    }
}

/// Writes the frame of a content to the front of `out`, from the first bit of its opening flag to the last bit of its closing flag, and
/// zeros up to a whole byte (ISO/IEC 3309). Writes the number of bits of the frame, without these zeros, to `bits`, and returns `DONE`. The
/// bytes of `out` after these stay as they were. Returns `REFUSED` if the content has not 1 to 2,048 bytes; otherwise `WRITE_FAULT` if
/// there is too little room. After both `out` stays as it was, and `bits` is 0.
#[unsafe(no_mangle)]
pub extern "C" fn sercos_frame(content: &[u8], out: &mut [u8], bits: &mut u32) -> u8
    ensures status { result ≡ frame_status content.now (length out.old) }
    ensures bits { result ≡ done → bits.new ≡ length (frame_of content.now) }
    ensures frame { result ≡ done → take bits.new (bits_of out.new) ≡ frame_of content.now }
    ensures front { result ≡ done → bits_of (take (bytes_for bits.new) out.new) ≡ padded (frame_of content.now) }
    ensures rest { result ≡ done → drop (bytes_for bits.new) out.new ≡ drop (bytes_for bits.new) out.old }
    ensures nothing { result ≢ done → (out.new ≡ out.old) × (bits.new ≡ 0) }
{
    *bits = 0;
    if content.is_empty() {
        return REFUSED;
    }
    let mut sent = BitBuf::new();
    if frame(content, &mut sent).is_err() {
        return REFUSED;
    }
    let len = sent.len();
    pad(&mut sent);
    let count = sent.len() / 8;
    if count > out.len() {
        return WRITE_FAULT;
    }
    fill(&sent, &mut out[..count]);
    *bits = len as u32;
    DONE
}

/// Feeds the first `count` bits of `bits` to a deframer. `bits` must have that many, and with those taken before there must be at most
/// 2^31.
pub(crate) fn feed_bits(deframer: &mut Deframer, bits: &[u8], count: usize)
    requires within { count ≤ 8 * length bits.now }
    requires fits { taken_of deframer.old + count ≤ 2 ^ 31 }
    ensures fed { (before : List Bool) → IsFed before deframer.old → IsFed (before ++ take count (bits_of bits.now)) deframer.new }
    ensures taken { taken_of deframer.new ≡ taken_of deframer.old + count }
{
    let whole = count / 8;
    deframer.feed_bytes(&bits[..whole]);
    let rest = count % 8;
    if rest > 0 {
        deframer.feed_low(bits[whole], rest as u8);
    }
}

/// Reads all bits so far as a frame, writes its content to the front of `out` and the number of its bytes to `written`, begins a new frame,
/// and returns `DONE`. Returns `NO`, with the reason in `why`, if they are not a frame; otherwise `WRITE_FAULT` if there is too little
/// room. After both `written` is 0, `out` stays as it was, and a new frame begins, too. Unless the result is `NO`, all fields of `why` are
/// 0.
pub(crate) fn read_frame(
    deframer: &mut Deframer,
    out: &mut [u8],
    written: &mut usize,
    why: &mut SercosBadFrame,
) -> u8
    ensures read { (bits : List Bool) → IsFed bits deframer.old → IsUnframed bits out.old out.new written.new why.new result }
    ensures anew { IsFed [] deframer.new }
    ensures taken { taken_of deframer.new ≡ 0 }
    ensures open { result ≢ closed }
{
    let mut content = Content::new();
    match deframer.finish(&mut content) {
        Ok(_) => {
            *why = no_bad_frame();
            put(content.as_slice(), out, written)
        }
        Err(reason) => {
            *why = bad_frame_of(reason);
            *written = 0;
            NO
        }
    }
}

/// Reads the first `count` bits of `bits` as a frame, writes its content to the front of `out` and the number of its bytes to `written`,
/// and returns `DONE`. Returns `REFUSED` if there are fewer bits; otherwise `TOO_LONG` if `count` is above 2^31; otherwise `NO`, with the
/// reason in `why`, if the bits are not a frame; otherwise `WRITE_FAULT` if there is too little room for the content. After these four
/// `out` stays as it was, and `written` is 0. Unless the result is `NO`, all fields of `why` are 0.
#[unsafe(no_mangle)]
pub extern "C" fn sercos_unframe(
    bits: &[u8],
    count: usize,
    out: &mut [u8],
    written: &mut usize,
    why: &mut SercosBadFrame,
) -> u8
    ensures refused { 8 * length bits.now < count → IsNothing refused out.old out.new written.new result × (why.new ≡ no_bad_frame) }
    ensures too_long { count ≤ 8 * length bits.now → 2 ^ 31 < count
        → IsNothing too_long out.old out.new written.new result × (why.new ≡ no_bad_frame) }
    ensures read { count ≤ 8 * length bits.now → count ≤ 2 ^ 31
        → IsUnframed (take count (bits_of bits.now)) out.old out.new written.new why.new result }
{
    *written = 0;
    *why = no_bad_frame();
    if count.div_ceil(8) > bits.len() {
        return REFUSED;
    }
    if count > MOST_BITS {
        return TOO_LONG;
    }
    let mut deframer = Deframer::new();
    feed_bits(&mut deframer, bits, count);
    read_frame(&mut deframer, out, written, why)
}
