// Identifier numbers and their text.
ghost use Rattle.std.specs.Prelude.{◌≡◌, ℕ, ◌+◌, ◌^◌, ◌<◌, ◌≤◌, ◌==◌, if◌then◌else◌, Some, None, Ok, length, IfOk, IfNone, IfSome, MatchResult};
ghost use Rattle.sercos_idn.specs.Clauses.{can_stand, has_byte, letter_of, head_fault, digits_fault, idn_fault, spelled_number, spelled_raw, digit_at};

use std::fmt;

// A kind of byte in the text of an identifier number: the letter, a dash, the digit of the parameter set, or a digit of the number.
#[derive(Clone, Copy)]
enum Slot {
    Letter,
    Dash,
    Octal,
    Decimal,
}

// The largest number of an identifier number, which has twelve bits.
const MOST_NUMBER: u16 = 4095;

// The number of bytes of the text of an identifier number.
const LENGTH: usize = 8;

// The index of the number's first digit in the text.
const NUMBER: usize = 4;

// The value of the letter P, which is bit 15.
const LETTER_P: u16 = 32768;

// The factor of the parameter set, which is in bits 14 to 12.
const SET_FACTOR: u16 = 4096;

// The number of parameter sets.
const SET_COUNT: u16 = 8;

// Returns whether a byte fits a slot.
fn can_stand(slot: Slot, byte: u8) -> bool
    ensures { result ≡ can_stand slot byte }
{
    match slot {
        Slot::Letter => byte == b'S' || byte == b'P',
        Slot::Dash => byte == b'-',
        Slot::Octal => b'0' <= byte && byte <= b'7',
        Slot::Decimal => b'0' <= byte && byte <= b'9',
    }
}

// Returns whether a text has a byte at an index, and the byte fits the slot.
fn has_byte(text: &[u8], place: usize, slot: Slot) -> bool
    ensures { result ≡ has_byte text.now place slot }
{
    place < text.len() && can_stand(slot, text[place])
}

// Returns the index of the first byte that is missing or doesn't fit, among letter, dash, parameter set and dash; `None` if all fit.
#[tactic(auto, unfolding(crate::specs::Idns::head_fault))]
fn head_fault(text: &[u8]) -> Option<usize>
    ensures value { result ≡ head_fault text.now }
    ensures place { IfSome result (λ place. place ≤ length text.now) }
    ensures whole { IfNone result (4 ≤ length text.now) }
{
    if !has_byte(text, 0, Slot::Letter) {
        return Some(0);
    }
    if !has_byte(text, 1, Slot::Dash) {
        return Some(1);
    }
    if !has_byte(text, 2, Slot::Octal) {
        return Some(2);
    }
    if !has_byte(text, 3, Slot::Dash) {
        return Some(3);
    }
    None
}

// Returns the index of the first byte that is missing or doesn't fit, among the four digits of the number; `None` if all fit. If the text
// has at least four bytes, the index is at most its length.
#[tactic(auto, unfolding(crate::specs::Idns::digits_fault))]
fn digits_fault(text: &[u8]) -> Option<usize>
    ensures value { result ≡ digits_fault text.now }
    ensures length { IfNone result (8 ≤ length text.now) }
    ensures place { 4 ≤ length text.now → IfSome result (λ place. place ≤ length text.now) }
{
    if !has_byte(text, 4, Slot::Decimal) {
        return Some(4);
    }
    if !has_byte(text, 5, Slot::Decimal) {
        return Some(5);
    }
    if !has_byte(text, 6, Slot::Decimal) {
        return Some(6);
    }
    if !has_byte(text, 7, Slot::Decimal) {
        return Some(7);
    }
    None
}

// Returns the value of the digit at an index, which is within the text: the byte minus that of 0. The result is 0 for a byte below it.
fn digit_at(text: &[u8], place: usize) -> u16
    requires { place < length text.now }
    ensures value { result ≡ digit_at text.now place }
    ensures bound { result < 256 }
{
    u16::from(text[place].saturating_sub(b'0'))
}

// Returns the number that the four digits from index 4 on spell. The text has at least eight bytes. The number may be above 4095.
fn spelled_number(text: &[u8]) -> u32
    requires { 8 ≤ length text.now }
    ensures { result ≡ spelled_number text.now }
{
    1000 * u32::from(digit_at(text, 4))
        + 100 * u32::from(digit_at(text, 5))
        + 10 * u32::from(digit_at(text, 6))
        + u32::from(digit_at(text, 7))
}

/// Returns the index of the first byte at which a text deviates from the text of an identifier number, as [`BadIdn`] defines it. It is at
/// most the text's length. `None` means that the text is that of an identifier number.
#[tactic(auto, unfolding(crate::specs::Idns::idn_fault))]
pub fn idn_fault(text: &[u8]) -> Option<usize>
    ensures value { result ≡ idn_fault text.now }
    ensures place { IfSome result (λ place. place ≤ length text.now) }
    ensures whole { IfNone result (8 ≤ length text.now) }
{
    if let Some(place) = head_fault(text) {
        return Some(place);
    }
    if let Some(place) = digits_fault(text) {
        return Some(place);
    }
    if spelled_number(text) > u32::from(MOST_NUMBER) {
        return Some(NUMBER);
    }
    if text.len() > LENGTH {
        return Some(LENGTH);
    }
    None
}

// Returns the value of the letter: 32,768 for P, otherwise 0.
fn letter_value(letter: u8) -> u16
    ensures { result ≡ (if letter == 80 then 32768 else 0) }
{
    if letter == b'P' { LETTER_P } else { 0 }
}

// Returns the sixteen bits of the identifier number that a text spells for which `idn_fault` returns `None`.
fn spelled_raw(text: &[u8]) -> u16
    requires { idn_fault text.now ≡ None }
    ensures { result ≡ spelled_raw text.now }
{
    letter_value(text[0]) + SET_FACTOR * digit_at(text, 2) + spelled_number(text) as u16
}

/// An identifier number (IDN) of a data block, after IEC 61491:1995.
///
/// Its text is `S-0-0127`: the letter, the parameter set and the number.
#[derive(Clone, Copy, Debug, Default, PartialEq, Eq, PartialOrd, Ord)]
pub struct Idn {
    /// The sixteen bits: bit 15 is 0 for S, the standard's numbers, and 1 for P, those of the product; bits 14 to 12 are the parameter set,
    /// bits 11 to 0 the number.
    pub raw: u16,
}

/// A text that is not an identifier number.
#[derive(Clone, Copy, Debug, PartialEq, Eq)]
pub struct BadIdn {
    /// The index of the first byte that doesn't fit, counted from 0. It is the text's length if a byte is missing, 4 if the number is above
    /// 4095, and 8 if the text goes on after the number.
    pub place: usize,
}

impl Idn {
    ghost use Rattle.sercos_idn.specs.Idns.{idn_text};

    /// Returns the identifier number that a text spells. Each has one spelling (this profile), which `Display` prints: `S` or `P`, `-`, the
    /// parameter set as a digit from 0 to 7, `-`, and the number, at most 4095, in four decimal digits. The error for any other text has
    /// the index of the first byte that doesn't fit, as [`BadIdn`] defines it.
    pub fn parse(text: &str) -> Result<Idn, BadIdn>
        ensures ok { IfOk result (λ idn. text.now ≡ idn_text idn.raw) }
        ensures value { IfOk result (λ idn. idn ≡ record { raw = spelled_raw text.now }) }
        ensures only { (raw : ℕ) → raw < 2 ^ 16 → text.now ≡ idn_text raw → result ≡ Ok (record { raw = raw }) }
        ensures fault { MatchResult result (λ _. idn_fault text.now ≡ None) (λ bad. idn_fault text.now ≡ Some bad.place) }
    {
        let text = text.as_bytes();
        match idn_fault(text) {
            Some(place) => Err(BadIdn { place }),
            None => Ok(Idn {
                raw: spelled_raw(text),
            }),
        }
    }

    /// Returns the eight bytes of the text that `Display` prints, such as `S-0-0127`.
    #[tactic(auto, unfolding(crate::specs::Idns::idn_text, crate::specs::Idns::four_digits))]
    pub fn text(self) -> [u8; 8]
        ensures { result ≡ idn_text self.raw }
    {
        let number = self.raw % SET_FACTOR;
        [
            if self.raw < LETTER_P { b'S' } else { b'P' },
            b'-',
            digit(self.raw / SET_FACTOR % SET_COUNT),
            b'-',
            digit(number / 1000),
            digit(number / 100 % 10),
            digit(number / 10 % 10),
            digit(number % 10),
        ]
    }
}

// Returns the decimal digit, as a byte, of a number below 10.
fn digit(number: u16) -> u8
    requires { number < 10 }
    ensures { result ≡ 48 + number }
{
    b'0' + number as u8
}

// Returns the letter of an identifier number: S if bit 15 is 0, otherwise P.
fn letter_of(raw: u16) -> char
    ensures { result ≡ letter_of raw }
{
    if raw < LETTER_P { 'S' } else { 'P' }
}

// Prints the eight bytes that `text` returns.
impl fmt::Display for Idn {
    ghost use Rattle.sercos_idn.specs.Idns.{idn_text};

    ghost output = { λ idn. Some (idn_text idn.raw) };

    fn fmt<W: fmt::Write>(&self, f: &mut fmt::Formatter<W>) -> fmt::Result {
        let letter = letter_of(self.raw);
        let set = self.raw / SET_FACTOR % SET_COUNT;
        let number = self.raw % SET_FACTOR;
        write!(f, "{letter}-{set}-{number:04}")
    }
}
