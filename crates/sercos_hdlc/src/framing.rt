// Frames (ISO/IEC 3309): the bits of a content with flags, check sequence and inserted zeros, and their number.
ghost use Rattle.std.specs.Prelude.{◌≡◌, ℕ, ◌+◌, ◌<◌, ◌≤◌, ◌↔◌, Bool, List, [], ◌++◌, length, IsErr, OnOk, OnErr};
ghost use Rattle.sercos_hdlc.specs.Clauses.{bits_of, AreBytes, flag, plain_of, wire_bits, IsFrame, stuffed, frame_of};

use crate::flags::FLAG_BYTE;
use crate::stuffing::{count_bytes, count_taken, push_bytes};
use sercos_bits::{BitBuf, MAX_CONTENT, Register, bits_of, fcs};

/// The error of [`frame`]: a content has more than 2048 bytes.
#[derive(Clone, Copy, Debug, PartialEq, Eq)]
pub struct TooLong;

// The length of two flags, in bits.
const FLAGS_BITS: u32 = 16;

// Appends a flag. There must be room for its eight bits.
fn push_flag(out: &mut BitBuf)
    requires { length out.old + 8 ≤ 19696 }
    ensures { out.new ≡ out.old ++ flag }
{
    bits_of(&[FLAG_BYTE], out).unwrap();
}

// Replaces `out` by the frame of a content of at most 2048 bytes. Of the check sequence the low byte is sent first.
fn write_frame(content: &[u8], out: &mut BitBuf)
    requires { length content.now ≤ 2048 }
    ensures { out.new ≡ flag ++ stuffed 0 (plain_of content.now) ++ flag }
{
    out.clear();
    push_flag(out);
    let ones = push_bytes(content, 0, out);
    push_bytes(&fcs(content).to_le_bytes(), ones, out);
    push_flag(out);
}

/// Replaces `out` by the one frame of a content of at least one byte (ISO/IEC 3309), from the first bit of its opening flag to the last bit
/// of its closing flag. For n bytes of content it has at most `wire_bits` n bits: 16 of the flags, 8 (n + 2) of content and check sequence,
/// and an inserted zero for each five of the latter. The error is `TooLong` iff the content has more than 2048 bytes; then `out` is
/// unchanged. [`unframe`](crate::unframe) returns the content again: by `ok` the bits are its frame, and `unframe` returns the content of
/// every frame.
#[tactic(auto, unfolding(crate::specs::Stuffed::frame_of))]
pub fn frame(content: &[u8], out: &mut BitBuf) -> Result<(), TooLong>
    requires { 0 < length content.now }
    ensures ok { OnOk result (IsFrame content.now out.new) }
    ensures bits { OnOk result (out.new ≡ frame_of content.now) }
    ensures wire { OnOk result (length out.new ≤ wire_bits (length content.now)) }
    ensures too_long { IsErr result ↔ (2048 < length content.now) }
    ensures err { OnErr result (out.new ≡ out.old) }
{
    if content.len() > MAX_CONTENT {
        return Err(TooLong);
    }
    write_frame(content, out);
    Ok(())
}

/// Returns the length in bits of the frame of a content of 1 to 2048 bytes, with its flags and inserted zeros.
pub fn frame_len(content: &[u8]) -> u32
    requires some { 0 < length content.now }
    requires fits { length content.now ≤ 2048 }
    ensures bits { (bits : List Bool) × IsFrame content.now bits × (result ≡ length bits) }
    ensures only { (bits : List Bool) → IsFrame content.now bits → result ≡ length bits }
    ensures frame { result ≡ length (frame_of content.now) }
{
    let mut len = FLAGS_BITS;
    let mut register = Register::new();
    let ones = count_taken(content, &mut register, &mut len);
    count_bytes(&register.fcs().to_le_bytes(), ones, &mut len);
    len
}

/// States that every content of 1 to 2048 bytes has a frame, `frame_of`, and that a content has only one. The frame of a content of n bytes
/// has at most `wire_bits` n bits (see [`frame`]), and at most 19,696: it fits into a [`BitBuf`]. No frame is a proper prefix of another,
/// and none is that of two contents. The function does nothing.
pub fn framing_law()
    ensures some { (content : List ℕ) → AreBytes content → 0 < length content → length content ≤ 2048
        → (bits : List Bool) × IsFrame content bits }
    ensures frame { (content : List ℕ) → AreBytes content → 0 < length content → length content ≤ 2048
        → IsFrame content (frame_of content) }
    ensures one { (content : List ℕ) (a b : List Bool) → IsFrame content a → IsFrame content b → a ≡ b }
    ensures wire { (content : List ℕ) (bits : List Bool) → IsFrame content bits
        → length bits ≤ wire_bits (length content) }
    ensures fits { (content : List ℕ) (bits : List Bool) → IsFrame content bits
        → length bits ≤ 19696 }
    ensures prefix { (content other : List ℕ) (bits more : List Bool) → IsFrame content bits
        → IsFrame other (bits ++ more) → (more ≡ []) × (content ≡ other) }
{}
