// Hexadecimal digits at the front of a text: `0` to `9` and `a` to `f`.
ghost use Rattle.std.specs.Prelude.{◌<◌, ◌≡◌, ◌+◌, ◌*◌, ◌/◌, ◌%◌, ◌≤◌, true, false, max, length, drop, IfOk, IfErr};
ghost use Rattle.sercos_text.specs.Clauses.{result_err, is_hex, hex_digits, pairs_fault, hex_fault, digits_fault, hex_len, hex_of, digit_of, low_pairs, all_hex, is_dash};

use crate::room::Room;

// The value of each byte as a hexadecimal digit in lower case; 255 for any other byte, also for a digit in upper case.
const VALUES: [u8; 256] = [
    255, 255, 255, 255, 255, 255, 255, 255, 255, 255, 255, 255, 255, 255, 255, 255, 255, 255, 255,
    255, 255, 255, 255, 255, 255, 255, 255, 255, 255, 255, 255, 255, 255, 255, 255, 255, 255, 255,
    255, 255, 255, 255, 255, 255, 255, 255, 255, 255, 0, 1, 2, 3, 4, 5, 6, 7, 8, 9, 255, 255, 255,
    255, 255, 255, 255, 255, 255, 255, 255, 255, 255, 255, 255, 255, 255, 255, 255, 255, 255, 255,
    255, 255, 255, 255, 255, 255, 255, 255, 255, 255, 255, 255, 255, 255, 255, 255, 255, 10, 11,
    12, 13, 14, 15, 255, 255, 255, 255, 255, 255, 255, 255, 255, 255, 255, 255, 255, 255, 255, 255,
    255, 255, 255, 255, 255, 255, 255, 255, 255, 255, 255, 255, 255, 255, 255, 255, 255, 255, 255,
    255, 255, 255, 255, 255, 255, 255, 255, 255, 255, 255, 255, 255, 255, 255, 255, 255, 255, 255,
    255, 255, 255, 255, 255, 255, 255, 255, 255, 255, 255, 255, 255, 255, 255, 255, 255, 255, 255,
    255, 255, 255, 255, 255, 255, 255, 255, 255, 255, 255, 255, 255, 255, 255, 255, 255, 255, 255,
    255, 255, 255, 255, 255, 255, 255, 255, 255, 255, 255, 255, 255, 255, 255, 255, 255, 255, 255,
    255, 255, 255, 255, 255, 255, 255, 255, 255, 255, 255, 255, 255, 255, 255, 255, 255, 255, 255,
    255, 255, 255, 255, 255, 255, 255, 255, 255, 255, 255, 255, 255, 255, 255, 255, 255, 255, 255,
    255, 255, 255, 255,
];

// Returns the value of a byte as a hexadecimal digit in lower case; 255 for any other byte.
fn value_of(byte: u8) -> u8
    ensures digit { is_hex byte ≡ true → result ≡ digit_of byte }
    ensures below { is_hex byte ≡ true → result < 16 }
    ensures other { is_hex byte ≡ false → result ≡ 255 }
{
    VALUES[usize::from(byte)]
}

// Returns the number of hexadecimal digits at the front of a text, found byte by byte.
fn first_digits(text: &[u8]) -> usize
    ensures value { result ≡ hex_digits text.now }
    ensures bound { result ≤ length text.now }
{
    for (place, byte) in text.iter().enumerate() {
        if value_of(*byte) >= 16 {
            return place;
        }
    }
    text.len()
}

// Returns whether a byte is a hexadecimal digit in lower case, without the table, so that the compiler can test many bytes at once.
fn is_digit(byte: u8) -> bool
    ensures { result ≡ is_hex byte }
{
    (b'0' <= byte) & (byte <= b'9') | (b'a' <= byte) & (byte <= b'f')
}

// Returns whether all bytes are hexadecimal digits in lower case.
fn are_digits(bytes: &[u8]) -> bool
    ensures { result ≡ all_hex bytes.now }
{
    let mut all = true;
    for byte in bytes {
        all &= is_digit(*byte);
    }
    all
}

// Returns an index before which a text has hexadecimal digits alone, found by testing sixteen bytes at a time. More digits can follow it.
fn after_sixteens(text: &[u8]) -> usize
    ensures value { hex_digits text.now ≡ result + hex_digits (drop result text.now) }
    ensures bound { result ≤ length text.now }
{
    for turn in 0..text.len() / 16 {
        if !are_digits(&text[16 * turn..16 * turn + 16]) {
            return 16 * turn;
        }
    }
    text.len() / 16 * 16
}

// Returns true only if eight bytes are hexadecimal digits. The value of any other byte is above the sum of eight digits.
fn are_eight(bytes: &[u8]) -> bool
    requires { length bytes.now ≡ 8 }
    ensures { result ≡ true → all_hex bytes.now ≡ true }
{
    let front = u16::from(value_of(bytes[0]))
        + u16::from(value_of(bytes[1]))
        + u16::from(value_of(bytes[2]))
        + u16::from(value_of(bytes[3]));
    let back = u16::from(value_of(bytes[4]))
        + u16::from(value_of(bytes[5]))
        + u16::from(value_of(bytes[6]))
        + u16::from(value_of(bytes[7]));
    front + back < 255
}

// Returns an index before which a text has hexadecimal digits alone, found by testing eight bytes at a time. More digits can follow it.
fn after_eights(text: &[u8]) -> usize
    ensures value { hex_digits text.now ≡ result + hex_digits (drop result text.now) }
    ensures bound { result ≤ length text.now }
{
    for turn in 0..text.len() / 8 {
        if !are_eight(&text[8 * turn..8 * turn + 8]) {
            return 8 * turn;
        }
    }
    text.len() / 8 * 8
}

// Returns the number of hexadecimal digits at the front of a text, found eight at a time.
fn by_eights(text: &[u8]) -> usize
    ensures value { result ≡ hex_digits text.now }
    ensures bound { result ≤ length text.now }
{
    let place = after_eights(text);
    place + first_digits(&text[place..])
}

// Returns the number of hexadecimal digits at the front of a text.
fn leading_digits(text: &[u8]) -> usize
    ensures value { result ≡ hex_digits text.now }
    ensures bound { result ≤ length text.now }
{
    let place = after_sixteens(text);
    place + by_eights(&text[place..])
}

// Returns the number of hexadecimal digits of 1 to `most` bytes at the front of a text. The error is the index of the first byte that
// doesn't fit: 0 without a digit, `2 * most` for a byte too many, and otherwise the number of digits if that is odd.
#[tactic(auto, unfolding(crate::specs::Fields::pairs_fault))]
fn read_pairs(text: &[u8], most: u16) -> Result<usize, usize>
    ensures fault { result_err result ≡ pairs_fault most text.now }
    ensures len { IfOk result (λ len. len ≡ hex_digits text.now) }
    ensures some { IfOk result (λ len. 0 < len) }
    ensures even { IfOk result (λ len. len % 2 ≡ 0) }
    ensures most { IfOk result (λ len. len ≤ 2 * most) }
    ensures bound { IfOk result (λ len. len ≤ length text.now) }
    ensures place { IfErr result (λ place. place ≤ length text.now) }
{
    let most_digits = 2 * usize::from(most);
    let digits = leading_digits(text);
    if digits == 0 {
        return Err(0);
    }
    if digits > most_digits {
        return Err(most_digits);
    }
    if digits % 2 == 1 {
        return Err(digits);
    }
    Ok(digits)
}

/// Reads at most `most` bytes at the front of a text, and returns the number of bytes of the text that they take, at least 1: two
/// hexadecimal digits in lower case for each, or `-` for no bytes. The error is the index of the first byte of the text that doesn't fit,
/// at most the text's length: 0 without a digit or `-`, `2 * most` for a byte too many, and otherwise the number of digits if that is odd.
#[tactic(auto, unfolding(crate::specs::Fields::hex_fault, crate::specs::Fields::hex_len))]
pub fn read_hex(text: &[u8], most: u16) -> Result<usize, usize>
    ensures fault { result_err result ≡ hex_fault most text.now }
    ensures len { IfOk result (λ len. len ≡ hex_len text.now) }
    ensures some { IfOk result (λ len. 0 < len) }
    ensures even { IfOk result (λ len. is_dash text.now ≡ false → len % 2 ≡ 0) }
    ensures most { IfOk result (λ len. len ≤ max 1 (2 * most)) }
    ensures bound { IfOk result (λ len. len ≤ length text.now) }
    ensures place { IfErr result (λ place. place ≤ length text.now) }
{
    if text.first() == Some(&b'-') {
        return Ok(1);
    }
    read_pairs(text, most)
}

/// Reads exactly `count` bytes at the front of a text, as two hexadecimal digits in lower case each, and returns the number of bytes of the
/// text that they take, `2 * count`. The error is the index of the first byte that is not a digit, at most the text's length.
#[tactic(auto, unfolding(crate::specs::Fields::digits_fault))]
pub fn read_digits(text: &[u8], count: u16) -> Result<usize, usize>
    ensures fault { result_err result ≡ digits_fault count text.now }
    ensures len { IfOk result (λ len. len ≡ 2 * count) }
    ensures bound { IfOk result (λ len. len ≤ length text.now) }
    ensures place { IfErr result (λ place. place ≤ length text.now) }
    ensures digits { IfOk result (λ len. len ≤ hex_digits text.now) }
{
    let digits = leading_digits(text);
    if digits < 2 * usize::from(count) {
        return Err(digits);
    }
    Ok(2 * usize::from(count))
}

// Returns the byte that two hexadecimal digits in lower case spell, the high one first.
fn byte_of_pair(high: u8, low: u8) -> u8
    requires high { is_hex high ≡ true }
    requires low { is_hex low ≡ true }
    ensures { result ≡ digit_of high * 16 + digit_of low }
{
    16 * value_of(high) + value_of(low)
}

// Replaces the bytes by those that two hexadecimal digits in lower case each spell. There is an even number of digits, at most 4096.
pub(crate) fn set_pairs(digits: &[u8], bytes: &mut Room)
    requires few { length digits.now ≤ 4096 }
    requires even { length digits.now % 2 ≡ 0 }
    requires digits { all_hex digits.now ≡ true }
    ensures { bytes.new ≡ low_pairs digits.now }
{
    bytes.clear();
    for place in 0..digits.len() / 2 {
        bytes.put(
            place,
            byte_of_pair(digits[2 * place], digits[2 * place + 1]),
        );
    }
}

/// Replaces the bytes by those at the front of a text that [`read_hex`] accepts, no bytes for `-`. `len` is the number of bytes of the text
/// that it returned, and must be at most 4096.
#[tactic(auto, unfolding(crate::specs::Fields::hex_of, crate::specs::Fields::hex_len))]
pub(crate) fn set_bytes(text: &[u8], len: usize, bytes: &mut Room)
    requires len { len ≡ hex_len text.now }
    requires within { len ≤ length text.now }
    requires most { len ≤ 4096 }
    requires some { 0 < len }
    requires even { is_dash text.now ≡ false → len % 2 ≡ 0 }
    ensures { bytes.new ≡ hex_of text.now }
{
    if text[0] == b'-' {
        bytes.clear();
    } else {
        set_pairs(&text[..len], bytes);
    }
}
