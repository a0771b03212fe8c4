// Writing lines into a buffer of 4,352 bytes. It must have room for what is appended.
ghost use Rattle.std.specs.Prelude.{◌≡◌, ◌<◌, ◌≤◌, ◌+◌, ◌*◌, ◌++◌, ◌∷◌, [], length, take, drop, map, sum_by, max, decimal};
ghost use Rattle.sercos_text.specs.Clauses.{signed_decimal, encode_lower, field_of, hex_text, value_text, part_text, part_left, line_text, item_text, list_text, idents_text, value_of, most_bytes};
ghost use Rattle.sercos_text.specs.declared.list.Item.TheVariants as kind;

use crate::room::MOST_BYTES;
use crate::template::field_of;
use itoa::Buffer;
use sercos_bits::ByteList;
use sercos_idn::Idn;

/// The most bytes of a line that is written, with its line feed: two digits for each of [`MOST_BYTES`] bytes, and 256 bytes for the rest.
pub const LINE_BYTES: usize = 2 * MOST_BYTES + 256;

/// The buffer in which a line is made.
pub type Line = ByteList<LINE_BYTES>;

/// The value of a field to be written.
#[derive(Clone, Copy, Debug)]
pub enum Given<'a> {
    /// An unsigned number.
    Number(u32),
    /// A signed number.
    Signed(i32),
    /// Bytes.
    Bytes(&'a [u8]),
    /// An identifier number.
    Ident(Idn),
}

// Appends a number in decimal digits, at most ten bytes. There must be room for ten, even if it has fewer digits.
fn push_number(line: &mut Line, number: u32)
    requires { length line.old + 10 ≤ 4352 }
    ensures value { line.new ≡ line.old ++ decimal number }
    ensures bound { length line.new ≤ length line.old + 10 }
{
    let mut buffer = Buffer::new();
    line.append_within(buffer.format(number).as_bytes());
}

// Appends a number in decimal digits, after a `-` if it is negative: at most eleven bytes. There must be room for eleven, even if it has
// fewer.
fn push_signed(line: &mut Line, number: i32)
    requires { length line.old + 11 ≤ 4352 }
    ensures value { line.new ≡ line.old ++ signed_decimal number }
    ensures bound { length line.new ≤ length line.old + 11 }
{
    let mut buffer = Buffer::new();
    line.append_within(buffer.format(number).as_bytes());
}

/// Returns at most 32 bytes from index `place` on, which is at most the number of bytes: the piece that is written at once.
pub fn piece_of(bytes: &[u8], place: usize) -> &[u8]
    requires { place ≤ length bytes.now }
    ensures value { result.now ≡ take 32 (drop place bytes.now) }
    ensures few { length result.now ≤ 32 }
{
    let end = place + (bytes.len() - place).min(32);
    &bytes[place..end]
}

// The two hexadecimal digits of each byte, in lower case, the first digit as the low byte.
const PAIRS: [u16; 256] = [
    0x3030, 0x3130, 0x3230, 0x3330, 0x3430, 0x3530, 0x3630, 0x3730, 0x3830, 0x3930, 0x6130, 0x6230,
    0x6330, 0x6430, 0x6530, 0x6630, 0x3031, 0x3131, 0x3231, 0x3331, 0x3431, 0x3531, 0x3631, 0x3731,
    0x3831, 0x3931, 0x6131, 0x6231, 0x6331, 0x6431, 0x6531, 0x6631, 0x3032, 0x3132, 0x3232, 0x3332,
    0x3432, 0x3532, 0x3632, 0x3732, 0x3832, 0x3932, 0x6132, 0x6232, 0x6332, 0x6432, 0x6532, 0x6632,
    0x3033, 0x3133, 0x3233, 0x3333, 0x3433, 0x3533, 0x3633, 0x3733, 0x3833, 0x3933, 0x6133, 0x6233,
    0x6333, 0x6433, 0x6533, 0x6633, 0x3034, 0x3134, 0x3234, 0x3334, 0x3434, 0x3534, 0x3634, 0x3734,
    0x3834, 0x3934, 0x6134, 0x6234, 0x6334, 0x6434, 0x6534, 0x6634, 0x3035, 0x3135, 0x3235, 0x3335,
    0x3435, 0x3535, 0x3635, 0x3735, 0x3835, 0x3935, 0x6135, 0x6235, 0x6335, 0x6435, 0x6535, 0x6635,
    0x3036, 0x3136, 0x3236, 0x3336, 0x3436, 0x3536, 0x3636, 0x3736, 0x3836, 0x3936, 0x6136, 0x6236,
    0x6336, 0x6436, 0x6536, 0x6636, 0x3037, 0x3137, 0x3237, 0x3337, 0x3437, 0x3537, 0x3637, 0x3737,
    0x3837, 0x3937, 0x6137, 0x6237, 0x6337, 0x6437, 0x6537, 0x6637, 0x3038, 0x3138, 0x3238, 0x3338,
    0x3438, 0x3538, 0x3638, 0x3738, 0x3838, 0x3938, 0x6138, 0x6238, 0x6338, 0x6438, 0x6538, 0x6638,
    0x3039, 0x3139, 0x3239, 0x3339, 0x3439, 0x3539, 0x3639, 0x3739, 0x3839, 0x3939, 0x6139, 0x6239,
    0x6339, 0x6439, 0x6539, 0x6639, 0x3061, 0x3161, 0x3261, 0x3361, 0x3461, 0x3561, 0x3661, 0x3761,
    0x3861, 0x3961, 0x6161, 0x6261, 0x6361, 0x6461, 0x6561, 0x6661, 0x3062, 0x3162, 0x3262, 0x3362,
    0x3462, 0x3562, 0x3662, 0x3762, 0x3862, 0x3962, 0x6162, 0x6262, 0x6362, 0x6462, 0x6562, 0x6662,
    0x3063, 0x3163, 0x3263, 0x3363, 0x3463, 0x3563, 0x3663, 0x3763, 0x3863, 0x3963, 0x6163, 0x6263,
    0x6363, 0x6463, 0x6563, 0x6663, 0x3064, 0x3164, 0x3264, 0x3364, 0x3464, 0x3564, 0x3664, 0x3764,
    0x3864, 0x3964, 0x6164, 0x6264, 0x6364, 0x6464, 0x6564, 0x6664, 0x3065, 0x3165, 0x3265, 0x3365,
    0x3465, 0x3565, 0x3665, 0x3765, 0x3865, 0x3965, 0x6165, 0x6265, 0x6365, 0x6465, 0x6565, 0x6665,
    0x3066, 0x3166, 0x3266, 0x3366, 0x3466, 0x3566, 0x3666, 0x3766, 0x3866, 0x3966, 0x6166, 0x6266,
    0x6366, 0x6466, 0x6566, 0x6666,
];

// Returns the two hexadecimal digits of a byte, in lower case.
#[inline(always)]
fn pair_of(byte: u8) -> [u8; 2]
    ensures { result ≡ encode_lower (byte ∷ []) }
{
    PAIRS[usize::from(byte)].to_le_bytes()
}

/// Replaces `room` by the two hexadecimal digits of each byte, in lower case. `room` has exactly two bytes for each.
pub fn put_pairs(bytes: &[u8], room: &mut [u8])
    requires { length room.old ≡ 2 * length bytes.now }
    ensures { room.new ≡ encode_lower bytes.now }
{
    for place in 0..bytes.len() {
        room[2 * place..2 * place + 2].copy_from_slice(&pair_of(bytes[place]));
    }
}

// Appends the two hexadecimal digits of each byte of a piece. They are made in `room`, which has at least two bytes for each. Its bytes are
// then unspecified.
fn push_piece(line: &mut Line, bytes: &[u8], room: &mut [u8])
    requires few { 2 * length bytes.now ≤ length room.old }
    requires within { length line.old + 2 * length bytes.now ≤ 4352 }
    ensures value { line.new ≡ line.old ++ encode_lower bytes.now }
    ensures len { length line.new ≡ length line.old + 2 * length bytes.now }
    ensures room { length room.new ≡ length room.old }
{
    let text = &mut room[..2 * bytes.len()];
    put_pairs(bytes, text);
    line.append_within(text);
}

// Appends the two hexadecimal digits of each byte.
fn push_digits(line: &mut Line, bytes: &[u8])
    requires { length line.old + 2 * length bytes.now ≤ 4352 }
    ensures value { line.new ≡ line.old ++ encode_lower bytes.now }
    ensures bound { length line.new ≡ length line.old + 2 * length bytes.now }
{
    let mut room = [0; 64];
    for turn in 0..bytes.len().div_ceil(32) {
        push_piece(line, piece_of(bytes, 32 * turn), &mut room);
    }
}

// Appends the two hexadecimal digits of each byte, or `-` for no bytes.
#[tactic(auto, unfolding(crate::specs::Templates::hex_text))]
fn push_hex(line: &mut Line, bytes: &[u8])
    requires { length line.old + max 1 (2 * length bytes.now) ≤ 4352 }
    ensures value { line.new ≡ line.old ++ hex_text bytes.now }
    ensures bound { length line.new ≤ length line.old + max 1 (2 * length bytes.now) }
{
    if bytes.is_empty() {
        line.push_within(b'-');
    } else {
        push_digits(line, bytes);
    }
}

// Appends the text of a value. There must be room for its most bytes, even if it has fewer: 10 for an unsigned number, 11 for a signed one,
// two for each byte but at least one, and 8 for an identifier number.
#[tactic(auto, unfolding(crate::specs::Templates::value_text, crate::specs::Lists::item_text))]
fn push_value(line: &mut Line, value: Given<'_>)
    requires { length line.old + most_bytes (value_of value) ≤ 4352 }
    ensures value { line.new ≡ line.old ++ value_text (value_of value.entry) }
    ensures bound { length line.new ≤ length line.old + most_bytes (value_of value.entry) }
{
    match value {
        Given::Number(number) => push_number(line, number),
        Given::Signed(number) => push_signed(line, number),
        Given::Bytes(bytes) => push_hex(line, bytes),
        Given::Ident(idn) => line.append_within(&idn.text()),
    }
}

// Appends the text of one letter of a template: the letter itself, or for a field the first of the values left, if there is one. Returns
// the number of values that it took, 0 or 1. The line must have room for the letter and the most bytes of all values left, as `push_line`
// counts them.
#[tactic(auto, unfolding(crate::specs::Templates::part_text, crate::specs::Templates::part_left))]
fn push_part(line: &mut Line, letter: u8, values: &[Given<'_>]) -> usize
    requires { length line.old + 1 + sum_by most_bytes (map value_of values.now) ≤ 4352 }
    ensures value { line.new ≡ line.old ++ part_text (field_of letter) letter (map value_of values.now) }
    ensures room { length line.new + sum_by most_bytes (map value_of (drop result values.now)) ≤ length line.old + 1 + sum_by most_bytes (map value_of values.now) }
    ensures taken { map value_of (drop result values.now) ≡ part_left (field_of letter) (map value_of values.now) }
    ensures bound { result ≤ length values.now }
{
    if field_of(letter).is_none() {
        line.push_within(letter);
        return 0;
    }
    match values {
        [value, ..] => {
            push_value(line, *value);
            1
        }
        [] => 0,
    }
}

/// Appends the line of a template, with these values for its fields, in order, and without a line feed. The line must have room for the
/// template and all values: 10 bytes for an unsigned number, 11 for a signed one, two for each byte but at least one, and 8 for an
/// identifier number. A value isn't compared with its field: its own text is appended. A field without a value is left out, and further
/// values are ignored.
pub fn push_line(template: &[u8], values: &[Given<'_>], line: &mut Line)
    requires { length line.old + length template.now + sum_by most_bytes (map value_of values.now) ≤ 4352 }
    ensures value { line.new ≡ line.old ++ line_text template.now (map value_of values.now) }
    ensures bound { length line.new ≤ length line.old + length template.now + sum_by most_bytes (map value_of values.now) }
{
    let mut next = 0;
    for letter in template {
        next += push_part(line, *letter, &values[next..]);
    }
}

// Appends a space and an address, at most four bytes. There must be room for four, even if it has fewer digits.
#[tactic(auto, unfolding(crate::specs::Lists::item_text))]
fn push_address(line: &mut Line, address: u8)
    requires { length line.old + 4 ≤ 4352 }
    ensures value { line.new ≡ line.old ++ 32 ∷ item_text kind.Address address }
    ensures bound { length line.new ≤ length line.old + 4 }
{
    line.push_within(b' ');
    let mut buffer = Buffer::new();
    line.append_within(buffer.format(address).as_bytes());
}

/// Appends addresses in decimal digits, each after a space. The line must have room for four bytes for each.
pub fn push_addresses(addresses: &[u8], line: &mut Line)
    requires { length line.old + 4 * length addresses.now ≤ 4352 }
    ensures value { line.new ≡ line.old ++ list_text kind.Address addresses.now }
    ensures bound { length line.new ≤ length line.old + 4 * length addresses.now }
{
    for address in addresses {
        push_address(line, *address);
    }
}

// Appends a space and an identifier number, nine bytes.
#[tactic(auto, unfolding(crate::specs::Lists::item_text))]
fn push_ident(line: &mut Line, idn: Idn)
    requires { length line.old + 9 ≤ 4352 }
    ensures value { line.new ≡ line.old ++ 32 ∷ item_text kind.Ident idn.raw }
    ensures bound { length line.new ≤ length line.old + 9 }
{
    line.push_within(b' ');
    line.append_within(&idn.text());
}

// Appends identifier numbers, each after a space: nine bytes each.
fn push_listed(idns: &[Idn], line: &mut Line)
    requires { length line.old + 9 * length idns.now ≤ 4352 }
    ensures value { line.new ≡ line.old ++ list_text kind.Ident (map (λ idn. idn.raw) idns.now) }
    ensures bound { length line.new ≤ length line.old + 9 * length idns.now }
{
    for idn in idns {
        push_ident(line, *idn);
    }
}

/// Appends identifier numbers, each after a space, or ` -` for no identifier numbers. The line must have room for two bytes, and nine for
/// each.
#[tactic(auto, unfolding(crate::specs::Tails::idents_text))]
pub fn push_idents(idns: &[Idn], line: &mut Line)
    requires { length line.old + 2 + 9 * length idns.now ≤ 4352 }
    ensures value { line.new ≡ line.old ++ idents_text (map (λ idn. idn.raw) idns.now) }
    ensures bound { length line.new ≤ length line.old + 2 + 9 * length idns.now }
{
    if idns.is_empty() {
        line.append_within(b" -");
    } else {
        push_listed(idns, line);
    }
}
