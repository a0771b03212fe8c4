// The region of bytes that holds the elements of a store's blocks. If a function returns an error, its region is unspecified afterwards.
//
// A block is sound (`is_sound`) if it keeps the rules of `check_blocks` for all but its identifier number, except that a list may end
// within an item, and a procedure command may be set. The lists S-0-0021 and S-0-0022 have at most 128 bytes then, S-0-0016 and S-0-0024 at
// most 32. The blocks of a store keep the invariant `IsStore`: they are at most 57, ascend by identifier number, and are sound, and their
// numbers are in the ranges of their types.
ghost use Rattle.std.specs.Prelude.{◌≡◌, ◌+◌, ◌-◌, ◌≤◌, ◌<◌, ◌++◌, [], true, length, option_map, unwrap_or, replicate, if◌then◌else◌, IfOk, OnOk};
ghost use Rattle.sercos_block.specs.Clauses.{splice, sum_by, is_list, item_len, is_limit, is_sound, IsStore, part_at, limit_at, word_bytes, limit_bytes, room_of, HasPacked, HasAppended};

use crate::block::Block;
use crate::entry::{Entry, Limit, Part};
use crate::value::bytes_for;
use sercos_bits::Text;
use sercos_idn::{Attribute, Length};
use std::alloc::{AllocError, Global};

// Overwrites the bytes of a region from index `place` on. They end within the region. All its other bytes are unchanged.
pub(crate) fn put_bytes(region: &mut Vec<u8>, place: usize, bytes: &[u8])
    requires { place + length bytes.now ≤ length region.old.items }
    ensures { region.new.items ≡ splice region.old.items place (place + length bytes.now) bytes.now }
{
    region.as_mut_slice()[place..place + bytes.len()].copy_from_slice(bytes);
}

// Appends at most 1024 bytes to a region, and returns the part that they are. The region has fewer than 65,536 bytes then. The error is
// `AllocError`.
fn append(region: &mut Vec<u8>, bytes: &[u8]) -> Result<Part, AllocError>
    requires room { length region.old.items + length bytes.now < 65536 }
    requires few { length bytes.now ≤ 1024 }
    ensures bytes { OnOk result (region.new.items ≡ region.old.items ++ bytes.now) }
    ensures part { IfOk result (λ part. part ≡ part_at (length region.old.items) bytes.now) }
{
    let place = region.len() as u16;
    region.extend_from_slice(bytes)?;
    Ok(Part {
        place,
        len: bytes.len() as u16,
    })
}

// Appends zeros to a region until it has `len` bytes. Before, it has at most as many. The error is `AllocError`.
fn fill(region: &mut Vec<u8>, len: usize) -> Result<(), AllocError>
    requires { length region.old.items ≤ len }
    ensures { OnOk result (region.new.items ≡ region.old.items ++ replicate (len - length region.old.items) 0) }
{
    region.resize(len, 0)?;
    Ok(())
}

// Appends the bytes of a name or a unit, if present, and returns the part that they are; `None` if absent. The region has fewer than 65,536
// bytes then. The error is `AllocError`.
fn append_text(region: &mut Vec<u8>, text: &Option<Text>) -> Result<Option<Part>, AllocError>
    requires room { length region.old.items + length (unwrap_or text.now []) < 65536 }
    ensures bytes { OnOk result (region.new.items ≡ region.old.items ++ unwrap_or text.now []) }
    ensures part { IfOk result (λ part. part ≡ option_map (part_at (length region.old.items)) text.now) }
{
    match text {
        None => Ok(None),
        Some(text) => Ok(Some(append(region, text.as_slice())?)),
    }
}

// Appends the four bytes of an attribute, the low byte first, to a region of at most 65,000 bytes, and returns the part that they are. The
// error is `AllocError`.
fn append_word(region: &mut Vec<u8>, attribute: Attribute) -> Result<Part, AllocError>
    requires room { length region.old.items ≤ 65000 }
    ensures bytes { OnOk result (region.new.items ≡ region.old.items ++ word_bytes attribute) }
    ensures part { IfOk result (λ part. part ≡ part_at (length region.old.items) (word_bytes attribute)) }
{
    let bytes = attribute.write().to_le_bytes();
    append(region, &bytes)
}

// Appends the bytes of a minimum or maximum, if present, to a region of at most 64,500 bytes. If it is present, the attribute must be that
// of a number with at least as many bits. Returns the limit with the part that they are; `None` if absent. The error is `AllocError`.
#[tactic(auto, using(crate::proofs::SoundLemmas::limit_below_end, crate::proofs::SoundLemmas::limit_of_number))]
fn append_limit(
    region: &mut Vec<u8>,
    attribute: Attribute,
    limit: Option<u32>,
) -> Result<Option<Limit>, AllocError>
    requires limit { is_limit attribute limit ≡ true }
    requires room { length region.old.items ≤ 64500 }
    ensures bytes { OnOk result (region.new.items ≡ region.old.items ++ limit_bytes attribute limit) }
    ensures limit { IfOk result (λ made. made ≡ option_map (limit_at attribute (length region.old.items)) limit) }
{
    match limit {
        None => Ok(None),
        Some(bits) => {
            let bytes = bytes_for(attribute, bits);
            let bytes = append(region, bytes.as_slice())?;
            Ok(Some(Limit { bits, bytes }))
        }
    }
}

// Returns the most bytes that the operation data of a sound block can have. They are at most 1024, and no fewer than it has.
#[tactic(auto, using(crate::proofs::SoundLemmas::most_few, crate::proofs::SoundLemmas::list_fits, crate::proofs::SoundLemmas::item_fits))]
fn most_value(block: &Block) -> usize
    requires { is_sound block.now ≡ true }
    ensures most { result ≡ (if is_list block.now.attribute.length then block.now.max_len else item_len block.now.attribute.length) }
    ensures few { result ≤ 1024 }
    ensures fits { length block.now.value ≤ result }
{
    if block.attribute.length.is_list() {
        usize::from(block.max_len)
    } else {
        block.attribute.length.item_len()
    }
}

// Appends the bytes of a sound block to a region of at most 64,000 bytes, with room for its longest operation data, and returns its entry.
// The earlier bytes are unchanged. The error is `AllocError`.
fn append_block(region: &mut Vec<u8>, block: &Block) -> Result<Entry, AllocError>
    requires sound { is_sound block.now ≡ true }
    requires room { length region.old.items ≤ 64000 }
    ensures { IfOk result (λ entry. HasAppended block.now region.old.items region.new.items entry) }
{
    let word = append_word(region, block.attribute)?;
    let min = append_limit(region, block.attribute, block.min)?;
    let max = append_limit(region, block.attribute, block.max)?;
    let name = append_text(region, &block.name)?;
    let unit = append_text(region, &block.unit)?;
    let end = region.len() + most_value(block);
    let value = append(region, block.value.as_slice())?;
    fill(region, end)?;
    Ok(Entry {
        idn: block.idn,
        attribute: block.attribute,
        word,
        name,
        unit,
        min,
        max,
        value,
        max_len: block.max_len,
        fixed: block.fixed,
        step: block.step,
        fails: block.fails,
    })
}

// Returns the number of bytes of a name or a unit, at most 1024; 0 if absent.
fn text_len(text: &Option<Text>) -> usize
    ensures value { result ≡ length (unwrap_or text.now []) }
    ensures few { result ≤ 1024 }
{
    match text {
        None => 0,
        Some(text) => text.len(),
    }
}

// Returns the number of bytes of a minimum or a maximum: two or four; 0 if absent.
fn limit_len(attribute: Attribute, limit: Option<u32>) -> usize
    ensures value { result ≡ length (limit_bytes attribute limit) }
    ensures few { result ≤ 4 }
{
    if limit.is_none() {
        return 0;
    }
    match attribute.length {
        Length::Two => 2,
        _ => 4,
    }
}

// Returns the number of bytes of the region that a sound block takes, at most 4096: those of its attribute, limits, name and unit, and of
// its longest operation data.
fn room_of(block: &Block) -> usize
    requires { is_sound block.now ≡ true }
    ensures value { result ≡ room_of block.now }
    ensures few { result ≤ 4096 }
{
    let limits = limit_len(block.attribute, block.min) + limit_len(block.attribute, block.max);
    let texts = text_len(&block.name) + text_len(&block.unit);
    4 + limits + texts + most_value(block)
}

// Returns the number of bytes of the region for the blocks of a store, which keep the invariant `IsStore`.
fn region_len(blocks: &[Block]) -> usize
    requires { IsStore blocks.now }
    ensures { result ≡ sum_by room_of blocks.now }
{
    let mut len = 0;
    for block in blocks {
        len += room_of(block);
    }
    len
}

// Returns the bytes of the blocks of a store, one after the other, with room for the longest operation data of each, and the index of the
// blocks. The blocks keep the invariant `IsStore`. The region has no more bytes than they may need. The error is `AllocError`.
pub(crate) fn packed(alloc: Global, blocks: &[Block]) -> Result<(Vec<u8>, Vec<Entry>), AllocError>
    requires { IsStore blocks.now }
    ensures { IfOk result (λ made. HasPacked blocks.now made.0.items made.1.items) }
{
    let mut region = Vec::with_capacity(alloc, region_len(blocks))?;
    let mut entries = Vec::with_capacity(alloc, blocks.len())?;
    for block in blocks {
        let entry = append_block(&mut region, block)?;
        entries.push(entry)?;
    }
    Ok((region, entries))
}
