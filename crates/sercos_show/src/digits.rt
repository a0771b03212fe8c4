// Hexadecimal digits of either case, and the bits of the bytes that they spell.
ghost use Rattle.std.specs.Prelude.{◌≡◌, ◌+◌, ◌*◌, ◌<◌, ◌≤◌, true, nat_lt, Bool, List, ◌++◌, length, take, Some};
ghost use Rattle.sercos_show.specs.Clauses.{is_ascii_hexdigit, prefix_len, hex_digit_value, bits_of, pairs_of, taken_of, IsFed, AreDigitPairs, byte_of};

use sercos_hdlc::Deframer;

// The number of bits of a byte.
const BYTE_BITS: usize = 8;

// The value of each byte as a hexadecimal digit, or 255.
const VALUES: [u8; 256] = [
    255, 255, 255, 255, 255, 255, 255, 255, 255, 255, 255, 255, 255, 255, 255, 255, 255, 255, 255,
    255, 255, 255, 255, 255, 255, 255, 255, 255, 255, 255, 255, 255, 255, 255, 255, 255, 255, 255,
    255, 255, 255, 255, 255, 255, 255, 255, 255, 255, 0, 1, 2, 3, 4, 5, 6, 7, 8, 9, 255, 255, 255,
    255, 255, 255, 255, 10, 11, 12, 13, 14, 15, 255, 255, 255, 255, 255, 255, 255, 255, 255, 255,
    255, 255, 255, 255, 255, 255, 255, 255, 255, 255, 255, 255, 255, 255, 255, 255, 10, 11, 12, 13,
    14, 15, 255, 255, 255, 255, 255, 255, 255, 255, 255, 255, 255, 255, 255, 255, 255, 255, 255,
    255, 255, 255, 255, 255, 255, 255, 255, 255, 255, 255, 255, 255, 255, 255, 255, 255, 255, 255,
    255, 255, 255, 255, 255, 255, 255, 255, 255, 255, 255, 255, 255, 255, 255, 255, 255, 255, 255,
    255, 255, 255, 255, 255, 255, 255, 255, 255, 255, 255, 255, 255, 255, 255, 255, 255, 255, 255,
    255, 255, 255, 255, 255, 255, 255, 255, 255, 255, 255, 255, 255, 255, 255, 255, 255, 255, 255,
    255, 255, 255, 255, 255, 255, 255, 255, 255, 255, 255, 255, 255, 255, 255, 255, 255, 255, 255,
    255, 255, 255, 255, 255, 255, 255, 255, 255, 255, 255, 255, 255, 255, 255, 255, 255, 255, 255,
    255, 255, 255, 255, 255, 255, 255, 255, 255, 255, 255, 255, 255, 255, 255, 255, 255, 255, 255,
    255, 255, 255,
];

/// The most bytes of a line: those of the most bits.
pub const MOST_BYTES: usize = 2462;

/// Room for the bytes of a line.
pub type Room = [u8; MOST_BYTES];

// Returns the value of a byte as a hexadecimal digit; at least 16 if it isn't one.
fn value_or(byte: u8) -> u8
    ensures digit { result < 16 → hex_digit_value byte ≡ Some result }
    ensures test { nat_lt result 16 ≡ is_ascii_hexdigit byte }
{
    VALUES[usize::from(byte)]
}

/// Returns how many hexadecimal digits a text begins with.
pub fn leading_digits(text: &[u8]) -> usize
    ensures value { result ≡ prefix_len is_ascii_hexdigit text.now }
    ensures bound { result ≤ length text.now }
{
    for (place, byte) in text.iter().enumerate() {
        if value_or(*byte) >= 16 {
            return place;
        }
    }
    text.len()
}

/// Returns the byte that two hexadecimal digits spell.
pub fn byte_of(high: u8, low: u8) -> u8
    requires high { is_ascii_hexdigit high ≡ true }
    requires low { is_ascii_hexdigit low ≡ true }
    ensures { result ≡ byte_of high low }
{
    16 * value_or(high) + value_or(low)
}

/// Replaces bytes by those that `digits` spells, two hexadecimal digits for each byte. `digits` is twice as long as `bytes`. Returns
/// whether all are digits; if not, the bytes are unspecified.
#[inline(always)]
pub fn set_pairs(digits: &[u8], bytes: &mut [u8]) -> bool
    requires { length digits.now ≡ 2 * length bytes.old }
    ensures pairs { result ≡ true → AreDigitPairs digits.now }
    ensures bytes { result ≡ true → bytes.new ≡ pairs_of digits.now }
    ensures all { AreDigitPairs digits.now → result ≡ true }
{
    let mut seen = 0;
    for place in 0..bytes.len() {
        let high = value_or(digits[2 * place]);
        let low = value_or(digits[2 * place + 1]);
        seen |= high | low;
        bytes[place] = high.wrapping_mul(16).wrapping_add(low);
    }
    seen < 16
}

/// Feeds the first `count` bits of `bytes`, which has at least as many, to the deframer, the least significant bit of each byte first. With
/// them it has taken at most 2^31 bits.
pub fn feed_first(bytes: &[u8], count: usize, deframer: &mut Deframer)
    requires long { count ≤ 8 * length bytes.now }
    requires fits { taken_of deframer.old + count ≤ 2147483648 }
    ensures taken { taken_of deframer.new ≡ taken_of deframer.old + count }
    ensures fed { (bits : List Bool) → IsFed bits deframer.old → IsFed (bits ++ take count (bits_of bytes.now)) deframer.new }
{
    let whole = count / BYTE_BITS;
    deframer.feed_bytes(&bytes[..whole]);
    let rest = (count % BYTE_BITS) as u8;
    if rest > 0 {
        deframer.feed_low(bytes[whole], rest);
    }
}
