// Operation data that is one number.
ghost use Rattle.std.specs.Prelude.{◌≡◌, ◌<◌, ◌==◌, ◌⊎◌, int_lt, length, true, false};
ghost use Rattle.sercos_block.specs.Clauses.{list_all, is_list, item_len, is_number, bits_in, bytes_for, number_end, meant};

use sercos_bits::{Text, byte_at};
use sercos_idn::{Attribute, Form, Length};

/// Returns whether the operation data is one number: two or four bytes, and no procedure command (IEC 61491:1995).
pub fn is_number(attribute: &Attribute) -> bool
    ensures { result ≡ is_number attribute.now }
{
    !attribute.length.is_list() && !attribute.command
}

/// Returns the limit below which all numbers of a length are: 2^16 for two bytes, otherwise 2^32.
pub fn number_end(length: Length) -> u64
    ensures value { result ≡ number_end length }
    ensures two { (result ≡ 65536) ⊎ (result ≡ 4294967296) }
{
    match length {
        Length::Two => 0x1_0000,
        Length::Four | Length::List1 | Length::List2 | Length::List4 => 0x1_0000_0000,
    }
}

/// Returns the number that the bytes of operation data spell, the low byte first (IEC 61491:1995), without regard to sign: of 16 bits for a
/// length of two bytes, otherwise of 32. A missing byte is 0, and bytes after the last one of the number are ignored.
pub fn bits_in(attribute: &Attribute, bytes: &[u8]) -> u32
    ensures value { result ≡ bits_in attribute.now bytes.now }
    ensures bound { result < number_end attribute.now.length }
{
    if attribute.length == Length::Two {
        u32::from(u16::from_le_bytes([byte_at(bytes, 0), byte_at(bytes, 1)]))
    } else {
        u32::from_le_bytes([
            byte_at(bytes, 0),
            byte_at(bytes, 1),
            byte_at(bytes, 2),
            byte_at(bytes, 3),
        ])
    }
}

// Returns the number that bits spell: in two's complement if the display form is signed. The bits are below `number_end` of the length in
// the attribute.
fn meant(attribute: &Attribute, bits: u32) -> i64
    requires { bits < number_end attribute.now.length }
    ensures { result ≡ meant attribute.now bits }
{
    if attribute.form == Form::Signed {
        if attribute.length == Length::Two {
            i64::from((bits as u16).cast_signed())
        } else {
            i64::from(bits.cast_signed())
        }
    } else {
        i64::from(bits)
    }
}

// Returns whether the number that `first` spells, as `meant` returns it, is less than the one that `second` spells. Both are below
// `number_end` of the length in the attribute.
pub(crate) fn is_less(attribute: &Attribute, first: u32, second: u32) -> bool
    requires first { first < number_end attribute.now.length }
    requires second { second < number_end attribute.now.length }
    ensures { result ≡ int_lt (meant attribute.now first) (meant attribute.now second) }
{
    meant(attribute, first) < meant(attribute, second)
}

/// Returns the bytes of a number with these bits, the low byte first (IEC 61491:1995): two or four, by the length in the attribute, which
/// is not a list. The bits are below `number_end` of that length. If they are 0, all bytes are 0.
pub fn bytes_for(attribute: Attribute, bits: u32) -> Text
    requires bits { bits < number_end attribute.length }
    requires number { is_list attribute.length ≡ false }
    ensures value { result ≡ bytes_for attribute bits }
    ensures count { length result ≡ item_len attribute.length }
    ensures zero { bits ≡ 0 → list_all (λ byte. byte == 0) result ≡ true }
{
    let mut text = Text::new();
    match attribute.length {
        Length::Two => text.assign(&(bits as u16).to_le_bytes()),
        _ => text.assign(&bits.to_le_bytes()),
    }
    text
}
