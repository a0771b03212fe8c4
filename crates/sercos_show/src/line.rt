// The lines of `show`: `KIND COUNT HEX`. The fault of a part of a line is the place, from 0 on, counted from the part's first byte, of the
// first byte that doesn't fit. The place of a missing byte is the part's length. COUNT is at most 19696. After an error the room and the
// deframer are unspecified; after a success the room is.
ghost use Rattle.std.specs.Prelude.{◌≡◌, ◌+◌, ◌/◌, ◌<◌, ◌≤◌, [], OnOk, IfOk, IfErr, IfSome, length, take, nat_eq, true, Some, None};
ghost use Rattle.sercos_show.specs.Clauses.{common_prefix_len, result_ok, result_err, number_len, number_of, pairs_of, taken_of, IsFed, wanted_digits, has_spare, kind_text, kind_of, kind_fault, count_fault, dash_fault, digits_fault, hex_fault, hex_bits, numbers_fault, numbers_bits, line_fault, line_bits};

use crate::digits::{Room, byte_of, feed_first, leading_digits, set_pairs};
use sercos_hdlc::Deframer;

/// What the bits of a line are read as.
#[derive(Clone, Copy, Debug, PartialEq, Eq)]
pub enum LineKind {
    /// `raw`: a frame.
    Raw,
    /// `mst`: the frame of an MST.
    Mst,
    /// `single`: the frame of an MDT of phases 1 and 2.
    Single,
    /// `at`: the frame of an AT.
    At,
}

// The largest COUNT, in bits.
const MOST_BITS: u32 = 19696;

// Returns the number of bytes at the front of a line that are the same as those at the front of a text.
fn shared_with(line: &[u8], text: &[u8]) -> usize
    ensures value { result ≡ common_prefix_len nat_eq line.now text.now }
    ensures bound { result ≤ length line.now }
{
    for (place, wanted) in text.iter().enumerate() {
        if line.get(place) != Some(wanted) {
            return place;
        }
    }
    text.len()
}

// Returns the kind of a line, which is then at least as long as the kind and the space after it. The error is the place of the first byte
// with which no kind continues.
#[tactic(auto, unfolding(crate::specs::Line::kind_of, crate::specs::Line::kind_fault))]
fn kind_of(line: &[u8]) -> Result<LineKind, usize>
    ensures kind { result_ok result ≡ kind_of line.now }
    ensures fault { IfErr result (λ place. place ≡ kind_fault line.now) }
    ensures bound { IfErr result (λ place. place ≤ length line.now) }
    ensures there { IfOk result (λ kind. length (kind_text kind) ≤ length line.now) }
{
    let raw = shared_with(line, b"raw ");
    if raw == 4 {
        return Ok(LineKind::Raw);
    }
    let mst = shared_with(line, b"mst ");
    if mst == 4 {
        return Ok(LineKind::Mst);
    }
    let single = shared_with(line, b"single ");
    if single == 7 {
        return Ok(LineKind::Single);
    }
    let at = shared_with(line, b"at ");
    if at == 3 {
        return Ok(LineKind::At);
    }
    Err(raw.max(mst).max(single).max(at))
}

// Returns the number of bytes of a kind and the space after it.
fn kind_len(kind: LineKind) -> usize
    ensures { result ≡ length (kind_text kind) }
{
    match kind {
        LineKind::Raw | LineKind::Mst => 4,
        LineKind::Single => 7,
        LineKind::At => 3,
    }
}

// Returns how many digits the HEX of `count` bits, at most 19696, has: two for each eight bits begun. There are at most 4924, and at least
// 2 unless `count` is 0.
#[tactic(auto, unfolding(crate::specs::Line::wanted_digits))]
fn wanted_digits(count: usize) -> usize
    requires { count ≤ 19696 }
    ensures value { result ≡ wanted_digits count }
    ensures most { result ≤ 4924 }
    ensures some { 0 < count → 2 ≤ result }
{
    2 * count.div_ceil(8)
}

// Returns whether `byte`, the last one of `count` bits, 1 to 19696, has a one after the last bit. The first bit of a byte is its least
// significant one.
#[tactic(auto, unfolding(crate::specs::Line::has_spare))]
fn has_spare(count: usize, byte: u8) -> bool
    requires some { 0 < count }
    requires most { count ≤ 19696 }
    ensures { result ≡ has_spare count byte }
{
    let used = count - 8 * (count.div_ceil(8) - 1);
    u16::from(byte) >= 1 << used
}

// Returns the fault of the HEX of `count` bits, 1 to 19696; `None` if it has none. It is the first of these: a missing digit before the
// last pair, or the pair's first; spare bits that aren't zeros by the pair's first digit, at that digit; the missing second digit; spare
// bits that aren't zeros by the second digit, at the first; a byte after the digits.
#[tactic(auto, unfolding(crate::specs::Line::digits_fault))]
fn digits_fault(count: usize, text: &[u8]) -> Option<usize>
    requires some { 0 < count }
    requires most { count ≤ 19696 }
    ensures value { result ≡ digits_fault count text.now }
    ensures bound { IfSome result (λ place. place ≤ length text.now) }
{
    let wanted = wanted_digits(count);
    let last = wanted - 2;
    let digits = leading_digits(text);
    if digits <= last {
        return Some(digits);
    }
    if has_spare(count, byte_of(text[last], b'0')) {
        return Some(last);
    }
    if digits < wanted {
        return Some(digits);
    }
    if has_spare(count, byte_of(text[last], text[last + 1])) {
        return Some(last);
    }
    (text.len() > wanted).then_some(wanted)
}

// Returns the fault of the HEX of `count` bits, which is `-` for no bits; `None` if it has none.
#[tactic(auto, unfolding(crate::specs::Line::hex_fault, crate::specs::Line::dash_fault))]
fn hex_fault(count: usize, text: &[u8]) -> Option<usize>
    requires { count ≤ 19696 }
    ensures value { result ≡ hex_fault count text.now }
    ensures bound { IfSome result (λ place. place ≤ length text.now) }
{
    if count > 0 {
        return digits_fault(count, text);
    }
    if text.first() != Some(&b'-') {
        return Some(0);
    }
    (text.len() > 1).then_some(1)
}

// Reads COUNT and the space after it. Returns how many bytes they take, and COUNT, at most 19696. The error is their fault: 0 without a
// digit or for a number above 19696, 1 for a digit after a leading zero, otherwise the number of digits if no space follows.
#[tactic(auto, unfolding(crate::specs::Line::count_fault))]
fn read_count(text: &[u8]) -> Result<(usize, usize), usize>
    ensures fault { result_err result ≡ count_fault text.now }
    ensures len { IfOk result (λ r. r.0 ≡ number_len text.now + 1) }
    ensures inside { IfOk result (λ r. r.0 ≤ length text.now) }
    ensures count { IfOk result (λ r. r.1 ≡ number_of text.now) }
    ensures most { IfOk result (λ r. r.1 ≤ 19696) }
    ensures bound { IfErr result (λ place. place ≤ length text.now) }
{
    let (len, count) = sercos_text::read_number(text, MOST_BITS)?;
    if text.get(len) != Some(&b' ') {
        return Err(len);
    }
    Ok((len + 1, count as usize))
}

// Returns how many bytes `count` bits, at most 19696, take: at most 2462.
fn byte_len(count: usize) -> usize
    requires { count ≤ 19696 }
    ensures value { result ≡ (count + 7) / 8 }
    ensures most { result ≤ 2462 }
{
    count.div_ceil(8)
}

// Puts the bytes of the HEX of `count` bits at the front of the room. Returns whether there is at least one bit and HEX has no fault; if
// not, the room's bytes are unspecified.
#[tactic(auto, unfolding(crate::specs::Line::wanted_digits))]
fn set_hex(count: usize, text: &[u8], room: &mut Room) -> bool
    requires { count ≤ 19696 }
    ensures some { result ≡ true → 0 < count }
    ensures good { result ≡ true → hex_fault count text.now ≡ None }
    ensures bytes { result ≡ true → take ((count + 7) / 8) room.new ≡ pairs_of text.now }
    ensures none { 0 < count → hex_fault count text.now ≡ None → result ≡ true }
{
    if count == 0 {
        return false;
    }
    if text.len() != wanted_digits(count) {
        return false;
    }
    let len = byte_len(count);
    set_pairs(text, &mut room[..len]) && !has_spare(count, room[len - 1])
}

// Reads the HEX of `count` bits, and feeds the bits to the deframer, which has taken none. The room is for their bytes. The error is the
// fault of HEX.
fn read_hex(
    count: usize,
    text: &[u8],
    room: &mut Room,
    deframer: &mut Deframer,
) -> Result<(), usize>
    requires most { count ≤ 19696 }
    requires begun { taken_of deframer.old ≡ 0 }
    ensures fault { result_err result ≡ hex_fault count text.now }
    ensures bits { IsFed [] deframer.old → OnOk result (IsFed (hex_bits count text.now) deframer.new) }
    ensures bound { IfErr result (λ place. place ≤ length text.now) }
{
    if set_hex(count, text, room) {
        feed_first(&room[..byte_len(count)], count, deframer);
        return Ok(());
    }
    match hex_fault(count, text) {
        Some(place) => Err(place),
        None => Ok(()),
    }
}

// Reads COUNT HEX, and feeds the bits to the deframer, which has taken none. The room is for their bytes. The error is the fault of COUNT
// HEX.
#[tactic(auto, unfolding(crate::specs::Line::numbers_fault, crate::specs::Line::numbers_bits))]
fn read_numbers(text: &[u8], room: &mut Room, deframer: &mut Deframer) -> Result<(), usize>
    requires { taken_of deframer.old ≡ 0 }
    ensures fault { result_err result ≡ numbers_fault text.now }
    ensures bits { IsFed [] deframer.old → OnOk result (IsFed (numbers_bits text.now) deframer.new) }
    ensures bound { IfErr result (λ place. place ≤ length text.now) }
{
    let (begin, count) = read_count(text)?;
    match read_hex(count, &text[begin..], room, deframer) {
        Ok(()) => Ok(()),
        Err(place) => Err(begin + place),
    }
}

/// Reads a line, feeds its bits to the deframer, which has taken none, and returns its kind. The room is for the bytes of the bits, and is
/// unspecified afterwards. The error is the place, from 0 on, of the first byte of the line that doesn't fit: the line's length if one is
/// missing. A COUNT above 19696 is refused at its first digit. The last pair of digits is refused at its first one, even if only its second
/// one shows that a bit after the last one is 1. Then the deframer is unspecified.
#[tactic(auto, unfolding(crate::specs::Line::line_fault, crate::specs::Line::fault_by, crate::specs::Line::line_bits, crate::specs::Line::bits_by))]
pub fn read_line(line: &[u8], room: &mut Room, deframer: &mut Deframer) -> Result<LineKind, usize>
    requires { taken_of deframer.old ≡ 0 }
    ensures fault { result_err result ≡ line_fault line.now }
    ensures kind { IfOk result (λ kind. kind_of line.now ≡ Some kind) }
    ensures bits { IsFed [] deframer.old → OnOk result (IsFed (line_bits line.now) deframer.new) }
    ensures bound { IfErr result (λ place. place ≤ length line.now) }
{
    let kind = kind_of(line)?;
    let begin = kind_len(kind);
    match read_numbers(&line[begin..], room, deframer) {
        Ok(()) => Ok(kind),
        Err(place) => Err(begin + place),
    }
}
