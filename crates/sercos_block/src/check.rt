// The rules for a drive's own data blocks.
ghost use Rattle.std.specs.Prelude.{◌≡◌, ◌≤◌, ◌==◌, true, [], length, Some};
ghost use Rattle.sercos_block.specs.Clauses.{result_err, list_all, has_block, is_printable, is_text, is_limit, is_max_len, is_value, is_step, block_fault, blocks_fault};

use crate::block::Block;
use crate::built_in::is_built_in;
use crate::limits::{MOST_DATA, MOST_NAME, MOST_UNIT};
use crate::setup::DriveSetup;
use crate::value::{is_number, number_end};
use sercos_bits::Text;
use sercos_idn::{Attribute, Idn};

/// The part of a data block that breaks a rule of this profile.
#[derive(Clone, Copy, Debug, PartialEq, Eq)]
pub enum Field {
    /// A built-in block, or an earlier one of the drive, has the identifier number.
    Idn,
    /// The name is not 1 to 60 bytes of printable ASCII.
    Name,
    /// The unit is not 1 to 12 bytes of printable ASCII.
    Unit,
    /// There is a minimum, but the operation data isn't a number; or the minimum has more bits than the number.
    Min,
    /// There is a maximum, but the operation data isn't a number; or the maximum has more bits than the number.
    Max,
    /// The most bytes of a list are not 1 to 1024, or not whole items; or they are not 0 although the operation data isn't a list.
    MaxLen,
    /// The operation data of a list has more than its most bytes, or not whole items; other operation data hasn't the length that the
    /// attribute requires; or that of a procedure command is not 0.
    Value,
    /// There is a step, but the operation data isn't a number, or it has a minimum or a maximum.
    Step,
    /// The block is to fail, but it is not a procedure command.
    Fails,
}

/// The first data block of a setup that breaks a rule.
#[derive(Clone, Copy, Debug, PartialEq, Eq)]
pub struct BadBlock {
    /// The index of the block in the setup, from 0.
    pub index: usize,
    /// The part that breaks the rule.
    pub field: Field,
}

/// Returns whether one of the blocks has the identifier number.
pub fn has_block(idn: Idn, blocks: &[Block]) -> bool
    ensures { result ≡ has_block idn.raw blocks.now }
{
    blocks.iter().any(|block| block.idn == idn)
}

// Returns whether all bytes are printable ASCII, 0x20 to 0x7e.
fn are_printable(bytes: &[u8]) -> bool
    ensures { result ≡ list_all is_printable bytes.now }
{
    bytes.iter().all(|byte| 0x20 <= *byte && *byte <= 0x7e)
}

/// Returns whether a text can be a name or a unit: 1 to `most` bytes of printable ASCII (this profile).
pub fn is_text(most: usize, text: &[u8]) -> bool
    ensures value { result ≡ is_text most (Some text.now) }
    ensures short { result ≡ true → length text.now ≤ most }
{
    let some = 1 <= text.len();
    let few = text.len() <= most;
    let plain = are_printable(text);
    some && few && plain
}

// Returns whether a name or a unit is absent, or has 1 to `most` bytes of printable ASCII.
fn is_text_or_none(most: usize, text: &Option<Text>) -> bool
    ensures { result ≡ is_text most text.now }
{
    match text {
        None => true,
        Some(text) => is_text(most, text.as_slice()),
    }
}

// Returns whether a minimum or a maximum is absent, or the operation data is a number and the limit has no more bits than the number.
fn is_limit(attribute: &Attribute, limit: Option<u32>) -> bool
    ensures { result ≡ is_limit attribute.now limit }
{
    match limit {
        None => true,
        Some(bits) => is_number(attribute) && u64::from(bits) < number_end(attribute.length),
    }
}

// Returns whether `most` is valid as the most bytes: of a list 1 to 1024 in whole items, otherwise 0.
fn is_max_len(attribute: &Attribute, most: u16) -> bool
    ensures { result ≡ is_max_len attribute.now most }
{
    if attribute.length.is_list() {
        1 <= most && most <= MOST_DATA && usize::from(most) % attribute.length.item_len() == 0
    } else {
        most == 0
    }
}

// Returns whether the operation data of a block is valid. A list has at most its most bytes, and only whole items. Other operation data has
// as many bytes as the attribute requires, and that of a procedure command has only zeros.
fn is_value(block: &Block) -> bool
    ensures { result ≡ is_value block.now }
{
    let item = block.attribute.length.item_len();
    let value = block.value.as_slice();
    if block.attribute.length.is_list() {
        value.len() <= usize::from(block.max_len) && value.len() % item == 0
    } else {
        value.len() == item && (!block.attribute.command || value.iter().all(|byte| *byte == 0))
    }
}

// Returns whether the step of a block is valid: it is 0, or the operation data is a number without a minimum and a maximum.
fn is_step(block: &Block) -> bool
    ensures { result ≡ is_step block.now }
{
    block.step == 0 || is_number(&block.attribute) && block.min.is_none() && block.max.is_none()
}

// Returns the first rule that a block breaks if the blocks `before` precede it, in the order of [`Field`]; `None` if it breaks none.
#[tactic(auto, unfolding(crate::specs::Rules::block_fault))]
fn block_fault(before: &[Block], block: &Block) -> Option<Field>
    ensures { result ≡ block_fault before.now block.now }
{
    if is_built_in(block.idn) || has_block(block.idn, before) {
        return Some(Field::Idn);
    }
    if !is_text_or_none(MOST_NAME, &block.name) {
        return Some(Field::Name);
    }
    if !is_text_or_none(MOST_UNIT, &block.unit) {
        return Some(Field::Unit);
    }
    if !is_limit(&block.attribute, block.min) {
        return Some(Field::Min);
    }
    if !is_limit(&block.attribute, block.max) {
        return Some(Field::Max);
    }
    if !is_max_len(&block.attribute, block.max_len) {
        return Some(Field::MaxLen);
    }
    if !is_value(block) {
        return Some(Field::Value);
    }
    if !is_step(block) {
        return Some(Field::Step);
    }
    if block.fails && !block.attribute.command {
        return Some(Field::Fails);
    }
    None
}

/// Tests that a drive can have its own data blocks beside the built-in ones (this profile). The error is the first block that breaks a
/// rule, and the first rule that it breaks, in the order of [`Field`]. The number of blocks isn't tested.
#[tactic(auto, unfolding(crate::specs::Rules::blocks_fault))]
pub fn check_blocks(setup: &DriveSetup) -> Result<(), BadBlock>
    ensures { result_err result ≡ blocks_fault [] setup.now.blocks }
{
    let blocks = setup.blocks.as_slice();
    for index in 0..blocks.len() {
        if let Some(field) = block_fault(&blocks[..index], &blocks[index]) {
            return Err(BadBlock { index, field });
        }
    }
    Ok(())
}
