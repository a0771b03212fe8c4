// Why a word of operation data is refused before all words have arrived. Error codes are those of IEC 61491:1995.
ghost use Rattle.std.specs.Prelude.{◌≡◌, ◌≤◌, ◌+◌, ◌==◌, nat_lt, nat_le, not, ◌&&◌, ◌||◌, Some, None, MatchResult};
ghost use Rattle.sercos_service_drive.specs.Clauses.{is_list, words_by, length_cause, place_cause};

use sercos_block::Stored;
use sercos_idn::{Attribute, Code};

// Returns the number of 16-bit words of a whole write of operation data. `first` is its first word: the length of a list in bytes, which
// another length and the items follow. For a number `first` is ignored.
fn words_by(attribute: &Attribute, first: u16) -> u32
    ensures { result ≡ words_by attribute.now first }
{
    if attribute.length.is_list() {
        2 + (u32::from(first) + 1) / 2
    } else {
        attribute.length.item_len() as u32 / 2
    }
}

// Returns whether the write is too long at a word, with the parameters of `check_length`: the length of a list, at its first word, is above
// `most` bytes; or with this word the write has all its words or more, and this isn't its last.
fn is_over(attribute: &Attribute, most: u16, last: bool, count: u32, first: u16) -> bool
    ensures { result ≡ ((is_list attribute.now.length && ((count == 1) && nat_lt most first)) || (not last && nat_le (words_by attribute.now first) count)) }
{
    attribute.length.is_list() && count == 1 && most < first
        || !last && words_by(attribute, first) <= count
}

// Checks a word by its place in the run: with it there are `count` words, `first` is the first of them, and `last` is whether it is the
// last. `most` is the most bytes of a list. The error is the first that applies: 0x7002, the last word is too early; 0x7003, the write is
// too long, as `is_over` decides; 0x7008, at the first word, the length of a list isn't a number of whole items.
#[tactic(auto, unfolding(crate::specs::Partial::length_cause))]
fn check_length(
    attribute: &Attribute,
    most: u16,
    last: bool,
    count: u32,
    first: u16,
) -> Result<(), Code>
    ensures { MatchResult result
        (λ _. length_cause attribute.now most last count first ≡ None)
        (λ code. length_cause attribute.now most last count first ≡ Some code.raw) }
{
    if last && count < words_by(attribute, first) {
        return Err(Code::TOO_SHORT);
    }
    if is_over(attribute, most, last, count, first) {
        return Err(Code::TOO_LONG);
    }
    if attribute.length.is_list()
        && count == 1
        && usize::from(first) % attribute.length.item_len() != 0
    {
        return Err(Code::INVALID);
    }
    Ok(())
}

// Checks a word of the operation data of a block, in a phase from 2 to 4. The other parameters are those of `check_length`. The error is
// the first that applies: 0x7004, the block is fixed or has a step; 0x7005, it is write protected in this phase; an error of
// `check_length`.
pub(crate) fn check_place(
    block: &Stored<'_>,
    phase: u8,
    last: bool,
    count: u32,
    first: u16,
) -> Result<(), Code>
    requires { (2 ≤ phase) × (phase ≤ 4) }
    ensures { MatchResult result
        (λ _. place_cause (Some block.now) phase last count first ≡ None)
        (λ code. place_cause (Some block.now) phase last count first ≡ Some code.raw) }
{
    block.may_write(phase)?;
    check_length(&block.attribute(), block.max_len(), last, count, first)
}
