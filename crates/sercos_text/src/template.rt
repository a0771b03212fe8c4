// Lines by templates. In a template some capital letters are fields, and every other byte is itself. After an error of a reader `told` is
// unspecified, except for parts that a clause leaves unchanged. Its addresses are unspecified until the tail is read. An index that a
// private reader returns as its error is at most the length of its text.
ghost use Rattle.std.specs.Prelude.{◌≡◌, ◌<◌, ◌≤◌, ◌+◌, ◌*◌, ◌++◌, [], ◌∷◌, pos, true, length, take, IfOk, IfErr, IfSome, OnOk};
ghost use Rattle.sercos_text.specs.Clauses.{number_fault, number_len, number_of, signed_fault, signed_len, signed_of, hex_fault, hex_len, hex_of, digits_fault, low_pairs, result_err, field_of, field_fault, field_len, byte_fault, part_fault, part_len, line_fault, field_value, part_values, values_of, items_of, numbers_in, signed_by, bytes_by, is_field, AreOf, addresses_in};

use crate::digits::{read_digits, read_hex, set_bytes, set_pairs};
use crate::list::{Addresses, read_ident};
use crate::number::{read_number, read_signed};
use crate::room::{Numbers, Room};
use crate::tail::{Tail, read_tail};

/// A field of a line.
#[derive(Clone, Copy, Debug, PartialEq, Eq)]
pub enum Field {
    /// A decimal number, at most this.
    Number(u32),
    /// A signed decimal number of 32 bits.
    Signed,
    /// At most this number of bytes, as two hexadecimal digits in lower case each; `-` for no bytes.
    Hex(u16),
    /// Exactly this number of bytes, as two hexadecimal digits in lower case each.
    Digits(u16),
    /// An identifier number. It is only checked; its value isn't kept.
    Ident,
}

// Returns the field of a letter in a template; `None` if the byte is itself.
#[tactic(auto, unfolding(crate::specs::Templates::field_of))]
pub(crate) fn field_of(letter: u8) -> Option<Field>
    ensures value { result ≡ field_of letter }
    ensures field { IfSome result (λ field. is_field field ≡ true) }
{
    match letter {
        b'B' => Some(Field::Number(255)),
        b'W' => Some(Field::Number(65535)),
        b'D' => Some(Field::Number(4_294_967_295)),
        b'S' => Some(Field::Signed),
        b'H' => Some(Field::Hex(2048)),
        b'R' => Some(Field::Hex(1024)),
        b'C' => Some(Field::Digits(2)),
        b'A' => Some(Field::Digits(4)),
        b'I' => Some(Field::Ident),
        _ => None,
    }
}

/// The values that were read from a line.
#[derive(Drop)]
pub struct Told {
    /// The unsigned numbers, in order.
    pub numbers: Numbers,
    /// The last signed number; 0 if there is none.
    pub signed: i32,
    /// The bytes of the last field with hexadecimal digits; no bytes if there is none.
    pub bytes: Room,
    /// The addresses of the tail.
    pub addresses: Addresses,
}

impl Told {
    /// Returns the values of a line without fields.
    pub fn new() -> Told
        ensures { (result.numbers.items ≡ []) × (result.signed ≡ pos 0) × (result.bytes ≡ []) × (result.addresses.items ≡ []) }
    {
        Told {
            numbers: Numbers::new(),
            signed: 0,
            bytes: Room::new(),
            addresses: Addresses::new(),
        }
    }
}

// Reads a number, at most `most`, at the front of a text, appends it to `told`, which must have fewer than 64, and returns the number of
// bytes that it takes. The error is that of `read_number`. The signed number and the bytes stay, also after an error.
#[tactic(auto, unfolding(crate::specs::Templates::field_fault, crate::specs::Templates::field_len, crate::specs::Templates::field_value, crate::specs::Templates::numbers_in, crate::specs::Templates::signed_by, crate::specs::Templates::bytes_by))]
fn take_number(most: u32, text: &[u8], told: &mut Told) -> Result<usize, usize>
    requires { length told.old.numbers.items < 64 }
    ensures fault { result_err result ≡ number_fault most text.now }
    ensures len { IfOk result (λ len. len ≡ number_len text.now) }
    ensures bound { IfOk result (λ len. len ≤ length text.now) }
    ensures place { IfErr result (λ place. place ≤ length text.now) }
    ensures numbers { OnOk result (told.new.numbers.items ≡ told.old.numbers.items ++ number_of text.now ∷ []) }
    ensures signed { told.new.signed ≡ told.old.signed }
    ensures bytes { told.new.bytes ≡ told.old.bytes }
{
    match read_number(text, most) {
        Ok((len, number)) => {
            told.numbers.push(number);
            Ok(len)
        }
        Err(place) => Err(place),
    }
}

// Reads a signed number at the front of a text into `told`, and returns the number of bytes that it takes. The error is that of
// `read_signed`. The unsigned numbers and the bytes stay, also after an error.
fn take_signed(text: &[u8], told: &mut Told) -> Result<usize, usize>
    ensures fault { result_err result ≡ signed_fault text.now }
    ensures len { IfOk result (λ len. len ≡ signed_len text.now) }
    ensures bound { IfOk result (λ len. len ≤ length text.now) }
    ensures place { IfErr result (λ place. place ≤ length text.now) }
    ensures numbers { told.new.numbers ≡ told.old.numbers }
    ensures signed { OnOk result (told.new.signed ≡ signed_of text.now) }
    ensures bytes { told.new.bytes ≡ told.old.bytes }
{
    match read_signed(text) {
        Ok((len, number)) => {
            told.signed = number;
            Ok(len)
        }
        Err(place) => Err(place),
    }
}

// Reads at most `most` bytes, which is at most 2048, at the front of a text into `told`: two hexadecimal digits in lower case for each, or
// `-` for no bytes. Returns the number of bytes of the text that they take. The error is that of `read_hex`. All numbers stay, also after
// an error.
fn take_hex(most: u16, text: &[u8], told: &mut Told) -> Result<usize, usize>
    requires { most ≤ 2048 }
    ensures fault { result_err result ≡ hex_fault most text.now }
    ensures len { IfOk result (λ len. len ≡ hex_len text.now) }
    ensures bound { IfOk result (λ len. len ≤ length text.now) }
    ensures place { IfErr result (λ place. place ≤ length text.now) }
    ensures numbers { told.new.numbers ≡ told.old.numbers }
    ensures signed { told.new.signed ≡ told.old.signed }
    ensures bytes { OnOk result (told.new.bytes ≡ hex_of text.now) }
{
    match read_hex(text, most) {
        Ok(len) => {
            set_bytes(text, len, &mut told.bytes);
            Ok(len)
        }
        Err(place) => Err(place),
    }
}

// Reads exactly `count` bytes, 1 to 2048, at the front of a text into `told`: two hexadecimal digits in lower case for each. Returns the
// number of bytes of the text that they take, `2 * count`. The error is the index of the first byte that is not a digit. All numbers stay,
// also after an error.
fn take_digits(count: u16, text: &[u8], told: &mut Told) -> Result<usize, usize>
    requires { (1 ≤ count) × (count ≤ 2048) }
    ensures fault { result_err result ≡ digits_fault count text.now }
    ensures len { IfOk result (λ len. len ≡ 2 * count) }
    ensures bound { IfOk result (λ len. len ≤ length text.now) }
    ensures place { IfErr result (λ place. place ≤ length text.now) }
    ensures numbers { told.new.numbers ≡ told.old.numbers }
    ensures signed { told.new.signed ≡ told.old.signed }
    ensures bytes { OnOk result (told.new.bytes ≡ low_pairs (take (2 * count) text.now)) }
{
    match read_digits(text, count) {
        Ok(len) => {
            set_pairs(&text[..len], &mut told.bytes);
            Ok(len)
        }
        Err(place) => Err(place),
    }
}

// Reads a field at the front of a text into `told`, and returns the number of bytes that it takes. A hexadecimal field must be of at most
// 2048 decoded bytes, two digits each, and of at least one if their number is fixed. `told` must have fewer than 64 numbers, and keeps
// those before; its other values stay unless the field is theirs. An identifier number changes nothing. The error is that of the field's
// reader.
#[tactic(auto, unfolding(crate::specs::Templates::field_fault, crate::specs::Templates::field_len, crate::specs::Templates::field_value, crate::specs::Templates::numbers_in, crate::specs::Templates::signed_by, crate::specs::Templates::bytes_by))]
fn read_field(field: Field, text: &[u8], told: &mut Told) -> Result<usize, usize>
    requires few { length told.old.numbers.items < 64 }
    requires field { is_field field ≡ true }
    ensures fault { result_err result ≡ field_fault field text.now }
    ensures len { IfOk result (λ len. len ≡ field_len field text.now) }
    ensures bound { IfOk result (λ len. len ≤ length text.now) }
    ensures place { IfErr result (λ place. place ≤ length text.now) }
    ensures numbers { OnOk result (told.new.numbers.items ≡ told.old.numbers.items ++ numbers_in (field_value field text.now ∷ [])) }
    ensures signed { OnOk result (told.new.signed ≡ signed_by told.old.signed (field_value field text.now ∷ [])) }
    ensures bytes { OnOk result (told.new.bytes ≡ bytes_by told.old.bytes (field_value field text.now ∷ [])) }
{
    match field {
        Field::Number(most) => take_number(most, text, told),
        Field::Signed => take_signed(text, told),
        Field::Hex(most) => take_hex(most, text, told),
        Field::Digits(count) => take_digits(count, text, told),
        Field::Ident => read_ident(text),
    }
}

// Tests that a text begins with this byte, and returns 1, the number of bytes that it takes. Otherwise the error is 0.
#[tactic(auto, unfolding(crate::specs::Templates::byte_fault))]
fn read_byte(byte: u8, text: &[u8]) -> Result<usize, usize>
    ensures fault { result_err result ≡ byte_fault byte text.now }
    ensures len { IfOk result (λ len. len ≡ 1) }
    ensures bound { IfOk result (λ len. len ≤ length text.now) }
    ensures place { IfErr result (λ place. place ≤ length text.now) }
{
    match text.first() {
        Some(first) if *first == byte => Ok(1),
        _ => Err(0),
    }
}

// Reads the part of a line for one letter of the template, at the front of a text, into `told`: a field as `read_field` does, and any other
// letter as itself, which changes nothing. Returns the number of bytes that it takes. `told` must have fewer than 64 numbers. The error is
// that of the field's reader, or 0 for another byte than the letter.
#[tactic(auto, unfolding(crate::specs::Templates::part_fault, crate::specs::Templates::part_len, crate::specs::Templates::part_values, crate::specs::Templates::numbers_in, crate::specs::Templates::signed_by, crate::specs::Templates::bytes_by))]
fn read_part(letter: u8, text: &[u8], told: &mut Told) -> Result<usize, usize>
    requires { length told.old.numbers.items < 64 }
    ensures fault { result_err result ≡ part_fault (field_of letter) letter text.now }
    ensures len { IfOk result (λ len. len ≡ part_len (field_of letter) text.now) }
    ensures bound { IfOk result (λ len. len ≤ length text.now) }
    ensures place { IfErr result (λ place. place ≤ length text.now) }
    ensures numbers { OnOk result (told.new.numbers.items ≡ told.old.numbers.items ++ numbers_in (part_values (field_of letter) text.now)) }
    ensures signed { OnOk result (told.new.signed ≡ signed_by told.old.signed (part_values (field_of letter) text.now)) }
    ensures bytes { OnOk result (told.new.bytes ≡ bytes_by told.old.bytes (part_values (field_of letter) text.now)) }
{
    match field_of(letter) {
        Some(field) => read_field(field, text, told),
        None => read_byte(letter, text),
    }
}

/// Reads a line by its template, of at most 64 letters, and its tail. `told` is replaced by the values read. The error is the index, from
/// 0, of the first byte of the line that doesn't fit, at most one more than the line's length: for a missing byte the line's length; for a
/// number out of its range, also that of an identifier number above 4095, and for a byte or an address too many, its first digit. After an
/// error `told` is unspecified.
pub fn read_line(template: &[u8], tail: Tail, line: &[u8], told: &mut Told) -> Result<(), usize>
    requires { length template.now ≤ 64 }
    ensures fault { result_err result ≡ line_fault tail template.now line.now }
    ensures place { IfErr result (λ place. place ≤ length line.now + 1) }
    ensures numbers { OnOk result (told.new.numbers.items ≡ numbers_in (values_of template.now line.now)) }
    ensures signed { OnOk result (told.new.signed ≡ signed_by (pos 0) (values_of template.now line.now)) }
    ensures bytes { OnOk result (told.new.bytes ≡ bytes_by [] (values_of template.now line.now)) }
    ensures fields { OnOk result (AreOf template.now (values_of template.now line.now)) }
    ensures addresses { OnOk result (told.new.addresses.items ≡ addresses_in tail (items_of tail template.now line.now)) }
{
    told.numbers.clear();
    told.signed = 0;
    told.bytes.clear();
    let mut at = 0;
    for letter in template {
        match read_part(*letter, &line[at..], told) {
            Ok(len) => at += len,
            Err(place) => return Err(at + place),
        }
    }
    match read_tail(tail, &line[at..], &mut told.addresses) {
        Ok(()) => Ok(()),
        Err(place) => Err(at + place),
    }
}
