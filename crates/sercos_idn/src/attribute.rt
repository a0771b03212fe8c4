// The attribute of a data block.
ghost use Rattle.std.specs.Prelude.{◌≡◌, ℕ, ◌+◌, ◌*◌, ◌/◌, ◌%◌, ◌^◌, ◌<◌, ◌≤◌, ◌==◌, if◌then◌else◌, true, Some, None, Ok, IfOk, MatchResult};
ghost use Rattle.sercos_idn.specs.declared.kinds.Length.TheVariants.{Two};
ghost use Rattle.sercos_idn.specs.Codes.{length_bits, form_bits, attribute_fault};

use crate::kinds::{Form, Length, form_code, form_of, is_form, is_length, length_code, length_of};

// The lowest bit of each part of the attribute's word, as a power of two. `UNUSED` and `HIGHEST` are bits that are always 0.
const LENGTH: u32 = 0x0001_0000;

const COMMAND: u32 = 0x0008_0000;

const FORM: u32 = 0x0010_0000;

const UNUSED: u32 = 0x0080_0000;

const DECIMALS: u32 = 0x0100_0000;

const PROTECT2: u32 = 0x1000_0000;

const PROTECT3: u32 = 0x2000_0000;

const PROTECT4: u32 = 0x4000_0000;

const HIGHEST: u32 = 0x8000_0000;

// The number of values of a part of three bits, and the number of values of the decimal places.
const CODES: u32 = 8;

const PLACES: u32 = 16;

// Returns whether a word has a bit. The bit is passed as a power of two.
fn has(word: u32, bit: u32) -> bool
    requires { 0 < bit }
    ensures { result ≡ (word / bit % 2 == 1) }
{
    word / bit % 2 == 1
}

// Returns `bit` if `set` is true, otherwise 0.
fn placed(set: bool, bit: u32) -> u32
    ensures value { result ≡ (if set then 1 else 0) * bit }
    ensures bound { result ≤ bit }
{
    if set { bit } else { 0 }
}

// Returns the number of the first bit that is refused: 16, 19, 20, 23 or 31, as [`BadAttribute`] defines it. `None` means that the word is
// an attribute.
#[tactic(auto, unfolding(crate::specs::Codes::attribute_fault))]
fn attribute_fault(word: u32) -> Option<u8>
    ensures { result ≡ attribute_fault word }
{
    if !is_length(word / LENGTH % CODES) {
        return Some(16);
    }
    if has(word, COMMAND) && word / LENGTH % CODES != length_code(Length::Two) {
        return Some(19);
    }
    if !is_form(word / FORM % CODES) {
        return Some(20);
    }
    if has(word, UNUSED) {
        return Some(23);
    }
    if has(word, HIGHEST) {
        return Some(31);
    }
    None
}

/// The attribute of a data block, its third element (IEC 61491:1995): how its operation data is read, shown and protected.
#[derive(Clone, Copy, Debug, PartialEq, Eq)]
pub struct Attribute {
    /// The conversion factor: bits 15 to 0.
    pub factor: u16,
    /// The length of the operation data: bits 18 to 16. It is `Two` if the block is a procedure command.
    pub length: Length,
    /// Whether the block is a procedure command: bit 19.
    pub command: bool,
    /// The display form: bits 22 to 20.
    pub form: Form,
    /// The number of decimal places, 0 to 15: bits 27 to 24.
    pub decimals: u8,
    /// Whether the operation data is write protected in phase 2: bit 28.
    pub protect2: bool,
    /// Whether the operation data is write protected in phase 3: bit 29.
    pub protect3: bool,
    /// Whether the operation data is write protected in phase 4: bit 30.
    pub protect4: bool,
    ghost decimals_in_range: { decimals < 16 },
    ghost command_is_two: { command ≡ true → length ≡ Two },
}

/// A word that is not an attribute.
#[derive(Clone, Copy, Debug, PartialEq, Eq)]
pub struct BadAttribute {
    /// The first of these bits that is refused:
    /// - 16: bits 18 to 16 are not the code of a length.
    /// - 19: a procedure command has another length than two bytes.
    /// - 20: bits 22 to 20 are not the code of a display form.
    /// - 23, 31: the bit isn't 0.
    pub bit: u8,
}

impl Attribute {
    ghost use Rattle.sercos_idn.specs.Attributes.{attribute_word, attribute_of};

    /// Returns the attribute of a word. Each attribute has exactly one word, which `write` returns. The error for any other word has the
    /// first wrong bit, as [`BadAttribute`] defines it.
    pub fn read(word: u32) -> Result<Attribute, BadAttribute>
        ensures ok { IfOk result (λ attribute. attribute_word attribute ≡ word) }
        ensures value { IfOk result (λ attribute. attribute ≡ attribute_of word) }
        ensures only { (attribute : Attribute) → attribute.factor < 2 ^ 16 → attribute_word attribute ≡ word → result ≡ Ok attribute }
        ensures fault { MatchResult result (λ _. attribute_fault word ≡ None) (λ bad. attribute_fault word ≡ Some bad.bit) }
    {
        match attribute_fault(word) {
            Some(bit) => Err(BadAttribute { bit }),
            None => Ok(Attribute::of_word(word)),
        }
    }

    /// Returns the word of the attribute. `read` of this word returns the attribute.
    pub fn write(&self) -> u32
        ensures value { result ≡ attribute_word self.now }
        ensures factor { self.now.factor < 2 ^ 16 }
    {
        u32::from(self.factor)
            + length_code(self.length) * LENGTH
            + placed(self.command, COMMAND)
            + form_code(self.form) * FORM
            + u32::from(self.decimals) * DECIMALS
            + placed(self.protect2, PROTECT2)
            + placed(self.protect3, PROTECT3)
            + placed(self.protect4, PROTECT4)
    }

    // Returns the attribute of a word for which `attribute_fault` returns `None`.
    fn of_word(word: u32) -> Attribute
        requires { attribute_fault word ≡ None }
        ensures word { attribute_word result ≡ word }
        ensures value { result ≡ attribute_of word }
        ensures factor { result.factor < 2 ^ 16 }
    {
        Attribute {
            factor: (word % LENGTH) as u16,
            length: length_of(word / LENGTH % CODES),
            command: has(word, COMMAND),
            form: form_of(word / FORM % CODES),
            decimals: (word / DECIMALS % PLACES) as u8,
            protect2: has(word, PROTECT2),
            protect3: has(word, PROTECT3),
            protect4: has(word, PROTECT4),
        }
    }
}
