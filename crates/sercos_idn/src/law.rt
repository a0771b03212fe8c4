// Laws on the index at which an identifier number is refused, on the word of an attribute, and on the codes of errors.
ghost use Rattle.std.specs.Prelude.{◌≡◌, ℕ, ◌^◌, ◌<◌, List, Some, None};
ghost use Rattle.sercos_idn.specs.Clauses.{idn_fault, IsRefusedAt, attribute_fault, attribute_word, attribute_of, Attribute};

use crate::code::Code;

/// States what the index means at which [`idn_fault`](crate::idn_fault) refuses a text. A text is large if it is that of an identifier
/// number, except that its number is from 4096 to 9999.
/// - If the first eight bytes are a large text, the index is 4, regardless of what follows them.
/// - Otherwise, if the index is below the text's length, the bytes before it begin the text of an identifier number or a large one, and
///   with the byte at the index they begin neither.
/// - Otherwise the index is the text's length: the text begins one of these, and is not that of an identifier number.
pub fn place_law()
    ensures { (text : List ℕ) (place : ℕ) → idn_fault text ≡ Some place → IsRefusedAt text place }
{}

/// States that the word of an attribute is below 2^32, that [`Attribute::read`](crate::Attribute::read) accepts it (it has no
/// `attribute_fault`), and that the attribute of this word is the same attribute. The conversion factor of the attribute has sixteen bits.
pub fn attribute_law()
    ensures small { (a : Attribute) → a.factor < 2 ^ 16 → attribute_word a < 2 ^ 32 }
    ensures sound { (a : Attribute) → a.factor < 2 ^ 16 → attribute_fault (attribute_word a) ≡ None }
    ensures back { (a : Attribute) → a.factor < 2 ^ 16 → attribute_of (attribute_word a) ≡ a }
{}

/// States the information word of each constant of [`Code`]. The words are taken after IEC 61491:1995.
pub fn code_law()
    ensures not_open { Code.NOT_OPEN.raw ≡ 0x0001 }
    ensures no_idn { Code.NO_IDN.raw ≡ 0x1001 }
    ensures too_short { Code.TOO_SHORT.raw ≡ 0x7002 }
    ensures too_long { Code.TOO_LONG.raw ≡ 0x7003 }
    ensures fixed { Code.FIXED.raw ≡ 0x7004 }
    ensures protected_now { Code.PROTECTED_NOW.raw ≡ 0x7005 }
    ensures below_minimum { Code.BELOW_MINIMUM.raw ≡ 0x7006 }
    ensures above_maximum { Code.ABOVE_MAXIMUM.raw ≡ 0x7007 }
    ensures invalid { Code.INVALID.raw ≡ 0x7008 }
{}
