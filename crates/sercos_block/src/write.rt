// Why the operation data of a block can't be written.
ghost use Rattle.std.specs.Prelude.{◌≡◌, ◌<◌, ◌||◌, IfSome, length, option_map, true, false, None};
ghost use Rattle.sercos_block.specs.Clauses.{is_list, item_len, number_end, is_protected, is_short, is_long, is_invalid, is_below, is_above, write_fault, data_fault, is_sound};

use crate::stored::Stored;
use crate::value::{bits_in, is_less, is_number};
use sercos_idn::command::{CANCEL, SET};
use sercos_idn::{Attribute, Code};

// Returns whether the operation data is write protected in a phase, 2 or 3. Any other phase counts as 4.
fn is_protected(attribute: &Attribute, phase: u8) -> bool
    ensures { result ≡ is_protected attribute.now phase }
{
    if phase == 2 {
        attribute.protect2
    } else if phase == 3 {
        attribute.protect3
    } else {
        attribute.protect4
    }
}

// Returns the first error for which the operation data of a block can't be written in a phase, for any bytes: 0x7004, the block is fixed or
// has a step; 0x7005, it is write protected in this phase. `None` if it can. Any phase but 2 and 3 counts as 4.
#[tactic(auto, unfolding(crate::specs::Stores::write_fault))]
pub(crate) fn write_fault(block: &Stored<'_>, phase: u8) -> Option<Code>
    ensures { option_map (λ code. code.raw) result ≡ write_fault (Some block.now) phase }
{
    if block.fixed() || block.step() > 0 {
        return Some(Code::FIXED);
    }
    if is_protected(&block.attribute(), phase) {
        return Some(Code::PROTECTED_NOW);
    }
    None
}

// Returns whether there are fewer bytes than the number has; false for a list.
fn is_short(block: &Stored<'_>, bytes: &[u8]) -> bool
    ensures { result ≡ is_short block.now bytes.now }
{
    !block.attribute().length.is_list() && bytes.len() < block.attribute().length.item_len()
}

// Returns whether there are more bytes than the number has, or than the list can have.
fn is_long(block: &Stored<'_>, bytes: &[u8]) -> bool
    ensures { result ≡ is_long block.now bytes.now }
{
    let most = if block.attribute().length.is_list() {
        usize::from(block.max_len())
    } else {
        block.attribute().length.item_len()
    };
    bytes.len() > most
}

// Returns whether the bytes are no whole items of a list, or a number other than 0 and 3 for a procedure command. For anything but a list
// the caller passes as many bytes as the number has.
fn is_invalid(block: &Stored<'_>, bytes: &[u8]) -> bool
    requires { is_list block.now.attribute.length ≡ false → length bytes.now ≡ item_len block.now.attribute.length }
    ensures { result ≡ is_invalid block.now bytes.now }
{
    let attribute = &block.attribute();
    if attribute.length.is_list() {
        return bytes.len() % attribute.length.item_len() != 0;
    }
    let bits = bits_in(attribute, bytes);
    attribute.command && !(bits == u32::from(CANCEL) || bits == u32::from(SET))
}

// Returns whether the number is below the minimum `limit`; false without a limit or a number. Unless the block is a list, there are as many
// bytes as its attribute requires. The limit is below `number_end` of the length in the attribute.
fn is_below(block: &Stored<'_>, bytes: &[u8], limit: Option<u32>) -> bool
    requires len { is_list block.now.attribute.length ≡ false → length bytes.now ≡ item_len block.now.attribute.length }
    requires limit { IfSome limit (λ bits. bits < number_end block.now.attribute.length) }
    ensures { result ≡ is_below block.now bytes.now limit }
{
    let attribute = &block.attribute();
    match limit {
        Some(bits) if is_number(attribute) => is_less(attribute, bits_in(attribute, bytes), bits),
        _ => false,
    }
}

// Returns whether the number is above the maximum `limit`; false without a limit or a number. Unless the block is a list, there are as many
// bytes as its attribute requires. The limit is below `number_end` of the length in the attribute.
fn is_above(block: &Stored<'_>, bytes: &[u8], limit: Option<u32>) -> bool
    requires len { is_list block.now.attribute.length ≡ false → length bytes.now ≡ item_len block.now.attribute.length }
    requires limit { IfSome limit (λ bits. bits < number_end block.now.attribute.length) }
    ensures { result ≡ is_above block.now bytes.now limit }
{
    let attribute = &block.attribute();
    match limit {
        Some(bits) if is_number(attribute) => is_less(attribute, bits, bits_in(attribute, bytes)),
        _ => false,
    }
}

// Returns whether the operation data of a sound block is a number below its minimum or above its maximum.
#[tactic(auto, using(crate::proofs::SoundLemmas::min_below, crate::proofs::SoundLemmas::max_below, crate::proofs::SoundLemmas::value_len))]
pub(crate) fn is_outside(block: &Stored<'_>) -> bool
    requires { is_sound block.now ≡ true }
    ensures { result ≡ (is_below block.now block.now.value block.now.min || is_above block.now block.now.value block.now.max) }
{
    let bytes = block.value();
    is_below(block, bytes, block.min()) || is_above(block, bytes, block.max())
}

// Returns the first error for which bytes can't be the operation data of a sound block: 0x7002, too short; 0x7003, too long; 0x7008,
// invalid by `is_invalid`; 0x7006, below the minimum; 0x7007, above the maximum. `None` if they can.
#[tactic(auto, using(crate::proofs::SoundLemmas::min_below, crate::proofs::SoundLemmas::max_below), unfolding(crate::specs::Stores::data_fault))]
pub(crate) fn data_fault(block: &Stored<'_>, bytes: &[u8]) -> Option<Code>
    requires { is_sound block.now ≡ true }
    ensures { option_map (λ code. code.raw) result ≡ data_fault block.now bytes.now }
{
    if is_short(block, bytes) {
        return Some(Code::TOO_SHORT);
    }
    if is_long(block, bytes) {
        return Some(Code::TOO_LONG);
    }
    if is_invalid(block, bytes) {
        return Some(Code::INVALID);
    }
    if is_below(block, bytes, block.min()) {
        return Some(Code::BELOW_MINIMUM);
    }
    if is_above(block, bytes, block.max()) {
        return Some(Code::ABOVE_MAXIMUM);
    }
    None
}
