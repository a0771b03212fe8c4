// The data blocks of a drive. Any error may also be `Memory` instead of the refusal, as the path of a refusal takes memory. `Missing` means
// that a required key is absent, and `Kind` that a value has another TOML type.
ghost use Rattle.std.specs.Prelude.{◌≡◌, ◌<◌, ◌≤◌, true, None, Some, [], ◌==◌, ◌&&◌, ◌||◌, not, is_none, length, map, IfOk, IfSome};
ghost use Rattle.sercos_config.specs.Clauses.{list_all, table_view, is_number, is_built_in, has_block, is_text, block_fault, blocks_fault, is_typed, Gives, Shows, known, located, idn_of, idn_in, idn_under, attribute_under, text_under, step_under, fails_under, block_keys, block_of, blocks_onto};

use crate::data::{read_data, read_limit, read_max_len, text_of};
use sercos_bits::Text;
use sercos_block::limits::{MOST_NAME, MOST_UNIT};
use sercos_block::{Block, attribute_in, has_block, is_built_in, is_number, is_text};
use sercos_document::{BadDocument, Keys, Place};
use sercos_idn::{Attribute, Idn};
use std::alloc::Global;
use toml::Table;

/// Reads the data blocks of a drive from its `block` tables, in their order. `drive` is the drive's index in the document, from 0; the
/// paths of refusals name it. The error is the first refusal, or `Memory`. There is one block for each table. `check_blocks` of
/// `sercos_block` accepts them, and their numbers are in the ranges of their types.
#[tactic(auto, using(crate::proofs::BlockLemmas::blocks_none, crate::proofs::BlockLemmas::blocks_more), unfolding(crate::specs::Block::blocks_onto))]
pub(crate) fn read_blocks(
    alloc: Global,
    drive: usize,
    tables: &[&Table],
) -> Result<Vec<Block>, BadDocument>
    ensures value { Shows (λ v. v.items) result (blocks_onto drive [] (map (λ t. table_view t.now) tables.now)) }
    ensures valid { IfOk result (λ v. blocks_fault [] v.items ≡ None) }
    ensures typed { IfOk result (λ v. list_all is_typed v.items ≡ true) }
    ensures count { IfOk result (λ v. length v.items ≡ length tables.now) }
{
    let Ok(mut blocks) = Vec::with_capacity(alloc, tables.len()) else {
        return Err(BadDocument::Memory);
    };
    for table in tables {
        let keys = Keys {
            alloc,
            place: Place::Block(drive, blocks.len()),
            table: *table,
        };
        let block = read_block(&keys, blocks.as_slice())?;
        blocks.push(block)?;
    }
    Ok(blocks)
}

// Reads a data block from its table. `before` has the drive's blocks of the tables before it: an identifier number of theirs or of a
// built-in block is refused as `Twice`. The error is the first refusal, or `Memory`: an unknown key comes first, then the keys in the order
// `idn`, `attribute`, `name`, `unit`, `min`, `max`, `max_len`, `data`, `fixed`, `step` and `fails`. `fails` is a `Range` with 1 if it is
// true in a block that isn't a procedure command. The block keeps the rules of `check_blocks` of `sercos_block` after those of `before`,
// and its numbers are in the ranges of their types.
#[tactic(auto, unfolding(crate::specs::Block::block_of, crate::specs::Block::fails_under, sercos_block::specs::Rules::block_fault))]
fn read_block(keys: &Keys<'_>, before: &[Block]) -> Result<Block, BadDocument>
    ensures value { Gives result (block_of before.now (located keys.now)) }
    ensures valid { IfOk result (λ b. block_fault before.now b ≡ None) }
    ensures typed { IfOk result (λ b. is_typed b ≡ true) }
{
    known(keys)?;
    let idn = read_idn(keys, "idn")?;
    let taken = is_built_in(idn) || has_block(idn, before);
    keys.demand_once(!taken, "idn")?;
    let attribute = read_attribute(keys)?;
    let name = read_text(keys, "name", MOST_NAME)?;
    let unit = read_text(keys, "unit", MOST_UNIT)?;
    let min = read_limit(keys, "min", attribute)?;
    let max = read_limit(keys, "max", attribute)?;
    let max_len = read_max_len(keys, attribute)?;
    let value = read_data(keys, max_len, attribute)?;
    let fixed = keys.boolean_or("fixed", false)?;
    let step = read_step(keys, attribute, min, max)?;
    let fails = keys.boolean_or("fails", false)?;
    keys.demand(!(fails && !attribute.command), "fails", 1)?;
    Ok(Block {
        idn,
        attribute,
        name,
        unit,
        min,
        max,
        value,
        max_len,
        fixed,
        step,
        fails,
    })
}

// Refuses the least key, in the order of bytes, that a `block` table may not have, as `Unknown`.
#[tactic(auto, unfolding(crate::specs::Block::block_keys))]
fn known(keys: &Keys<'_>) -> Result<(), BadDocument>
    ensures { Gives result (known (located keys.now) block_keys) }
{
    keys.known(&[
        "idn",
        "attribute",
        "name",
        "unit",
        "min",
        "max",
        "max_len",
        "data",
        "fixed",
        "step",
        "fails",
    ])
}

/// Returns the identifier number that a text such as `S-0-0127` spells: `S` or `P`, the parameter set as a digit from 0 to 7, and the
/// number, at most 4095, in four decimal digits, with `-` between them. `None` for any other text.
#[tactic(auto, unfolding(crate::specs::Block::idn_of))]
pub(crate) fn idn_of(text: &str) -> Option<Idn>
    ensures value { result ≡ idn_of text.now }
    ensures typed { IfSome result (λ idn. idn.raw < 65536) }
{
    match Idn::parse(text) {
        Ok(idn) => Some(idn),
        Err(_) => None,
    }
}

/// Returns the identifier number that the text under `key` spells. The error is `Missing`, `Kind`, or `Range` with the text's length in
/// bytes if it spells none.
#[tactic(auto, unfolding(crate::specs::Block::idn_in, crate::specs::Block::idn_under))]
pub(crate) fn read_idn(keys: &Keys<'_>, key: &str) -> Result<Idn, BadDocument>
    ensures value { Gives result (idn_under (located keys.now) key.now) }
    ensures typed { IfOk result (λ idn. idn.raw < 65536) }
{
    let text = keys.required_text(key)?;
    match idn_of(text) {
        Some(idn) => Ok(idn),
        None => Err(keys.range(key, text.len() as i64)),
    }
}

// Returns the attribute that the 32-bit word under `attribute` encodes. The error is `Missing`, `Kind`, or `Range` with the number if it
// isn't 0 to 2^32 - 1, or is no attribute's word: its length or display form is unused, it is a procedure command of another length than
// two bytes, or bit 23 or 31 isn't 0.
#[tactic(auto, unfolding(crate::specs::Block::attribute_under))]
fn read_attribute(keys: &Keys<'_>) -> Result<Attribute, BadDocument>
    ensures value { Gives result (attribute_under (located keys.now)) }
    ensures typed { IfOk result (λ attribute. attribute.factor < 65536) }
{
    let word = keys.number("attribute", 0, u32::MAX)?;
    match attribute_in(word) {
        Some(attribute) => Ok(attribute),
        None => Err(keys.range("attribute", i64::from(word))),
    }
}

// Returns the name or unit under `key`; `None` if the key is absent. The error is `Kind`, or `Range` with the text's length in bytes unless
// it has 1 to `most` bytes, all of them printable ASCII. `most` is at most 1024.
#[tactic(auto, unfolding(crate::specs::Block::text_under))]
fn read_text(keys: &Keys<'_>, key: &str, most: usize) -> Result<Option<Text>, BadDocument>
    requires { most ≤ 1024 }
    ensures value { Gives result (text_under (located keys.now) key.now most) }
    ensures valid { IfOk result (λ text. is_text most text ≡ true) }
{
    match keys.text(key)? {
        None => Ok(None),
        Some(text) => {
            let bytes = text.as_bytes();
            let allowed = is_text(most, bytes);
            keys.demand(allowed, key, bytes.len() as i64)?;
            Ok(Some(text_of(bytes)))
        }
    }
}

// Returns how much the number of the block grows in each cycle, from `step`; 0 if the key is absent. `min` and `max` are the block's
// limits. The error is `Kind`, or `Range` with the step if it isn't 0 to 2^32 - 1, even if the block's number has a sign, or isn't 0 in a
// block that has a limit, is a list or is a procedure command.
#[tactic(auto, unfolding(crate::specs::Block::step_under))]
fn read_step(
    keys: &Keys<'_>,
    attribute: Attribute,
    min: Option<u32>,
    max: Option<u32>,
) -> Result<u32, BadDocument>
    ensures value { Gives result (step_under attribute min max (located keys.now)) }
    ensures valid { IfOk result (λ step. ((step == 0) || (is_number attribute && (is_none min && is_none max))) ≡ true) }
{
    let step = keys.number_or("step", 0, u32::MAX, 0)?;
    let number = is_number(&attribute);
    let free = min.is_none() && max.is_none();
    keys.demand(step == 0 || number && free, "step", i64::from(step))?;
    Ok(step)
}
