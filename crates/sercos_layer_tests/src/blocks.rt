// Drives and data blocks for the tests.
use arrayvec::ArrayVec;
use sercos_bits::Text;
use sercos_block::{Block, DriveSetup, Store, check_blocks};
use sercos_idn::{Attribute, Idn};
use sercos_timing::Times;
use std::alloc::{AllocError, Global};

// The attributes of a number of four bytes with sign and of one of two bytes without sign.
pub const SIGNED_FOUR: u32 = 0x0022_0001;

pub const UNSIGNED_TWO: u32 = 0x0011_0001;

// A block of a number: no name, no unit, no step. None for a bad attribute.
pub fn number(
    raw: u16,
    attribute: u32,
    min: Option<u32>,
    max: Option<u32>,
    value: &[u8],
) -> Option<Block> {
    let attribute = Attribute::read(attribute).ok()?;
    let mut text = Text::new();
    for byte in value {
        text.push(*byte).ok()?;
    }
    Some(Block {
        idn: Idn { raw },
        attribute,
        name: None,
        unit: None,
        min,
        max,
        value: text,
        max_len: 0,
        fixed: false,
        step: 0,
        fails: false,
    })
}

// A drive with the blocks S-0-0047 and S-0-0051, which grows by 10 in each cycle.
pub fn drive(alloc: Global) -> Result<DriveSetup, AllocError> {
    let mut blocks = Vec::new(alloc);
    if let Some(block) = number(47, SIGNED_FOUR, None, None, &[0, 0, 0, 0]) {
        blocks.push(block)?;
    }
    if let Some(mut block) = number(51, SIGNED_FOUR, None, None, &[244, 251, 0, 0]) {
        block.step = 10;
        blocks.push(block)?;
    }
    Ok(DriveSetup {
        address: 1,
        slave: 1,
        busy: 0,
        command: 0,
        times: Times {
            t1min: 10,
            tatmt: 6,
            t4min: 20,
            tatat: 5,
            tmtsy: 10,
            tmtsg: 20,
        },
        cycle_min: 125,
        cycle_max: 64000,
        at: ArrayVec::new(),
        mdt: ArrayVec::new(),
        blocks,
    })
}

// The store of a drive, if its blocks are valid.
pub fn opened(alloc: Global, setup: &DriveSetup) -> Result<Option<Store>, AllocError> {
    if setup.blocks.len() > 36 {
        return Ok(None);
    }
    match check_blocks(setup) {
        Ok(()) => Ok(Some(Store::open(alloc, setup)?)),
        Err(_) => Ok(None),
    }
}

// The first `count` letters, along the alphabet.
pub fn letters(count: usize) -> Option<Text> {
    let mut text = Text::new();
    for place in 0..count {
        text.push(b'A' + (place % 26) as u8).ok()?;
    }
    Some(text)
}
