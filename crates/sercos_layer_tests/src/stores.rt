// A drive's data blocks: which it can have, and how its store is read and written.
use crate::blocks::{SIGNED_FOUR, UNSIGNED_TWO, drive, letters, number, opened};
use sercos_bits::Text;
use sercos_block::{BadBlock, Block, DriveSetup, Field, Store, check_blocks};
use sercos_idn::{Attribute, Code, Idn};
use std::alloc::{AllocError, Global};
use std::test::Fail;

// The attribute of a number of two bytes with sign.
const SIGNED_TWO: u32 = 0x0021_0001;

// All that a store returns of the block with an identifier number, except for its operation data.
fn told(alloc: Global, store: &Store, idn: Idn) -> Result<Vec<u8>, AllocError> {
    let mut bytes = Vec::from_slice(alloc, &store.max_len(idn).to_le_bytes())?;
    bytes.extend_from_slice(&store.step(idn).to_le_bytes())?;
    bytes.push(u8::from(store.has(idn)))?;
    bytes.push(u8::from(store.fails(idn)))?;
    for element in 2..7u8 {
        match store.element(idn, element) {
            Ok(found) => bytes.extend_from_slice(found)?,
            Err(code) => bytes.extend_from_slice(&code.raw.to_le_bytes())?,
        }
        bytes.push(255)?;
    }
    Ok(bytes)
}

// Whether two stores have the same blocks, except for the operation data of one identifier number, if there is one.
fn are_same(
    alloc: Global,
    first: &Store,
    second: &Store,
    but: Option<Idn>,
) -> Result<bool, AllocError> {
    if first.count() != second.count() {
        return Ok(false);
    }
    for index in 0..first.count() {
        let idn = first.idn(index);
        let same_data = Some(idn) == but || first.element(idn, 7) == second.element(idn, 7);
        if !same_data || told(alloc, first, idn)? != told(alloc, second, idn)? {
            return Ok(false);
        }
    }
    Ok(true)
}

// A store at its opening, and the same again.
fn two_stores(alloc: Global, setup: &DriveSetup) -> Result<Option<(Store, Store)>, AllocError> {
    match (opened(alloc, setup)?, opened(alloc, setup)?) {
        (Some(first), Some(second)) => Ok(Some((first, second))),
        _ => Ok(None),
    }
}

// The built-in blocks and the drive's own, ascending, with the values at opening.
#[test]
fn opening(rt: HostRuntime) -> Result<(), Fail> {
    let setup = drive(rt.alloc())?;
    let store = opened(rt.alloc(), &setup)?.expect(&rt, "the blocks can stand");
    let numbers: [u16; 23] = [
        1, 2, 3, 4, 5, 6, 7, 8, 9, 10, 15, 16, 21, 22, 24, 47, 51, 87, 88, 89, 90, 127, 128,
    ];
    assert_eq!(rt; store.count(), numbers.len());
    for index in 0..store.count().min(numbers.len()) {
        assert_eq!(rt; store.idn(index).raw, numbers[index]);
    }
    let values: [(u16, &'static [u8]); 9] = [
        (2, &[0, 0]),
        (3, &[10, 0]),
        (4, &[6, 0]),
        (5, &[20, 0]),
        (16, &[]),
        (51, &[244, 251, 0, 0]),
        (87, &[5, 0]),
        (88, &[10, 0]),
        (90, &[20, 0]),
    ];
    for (raw, bytes) in values {
        assert_eq!(rt; store.element(Idn { raw }, 7), Ok(bytes), "{raw}");
    }
    let cycle = Idn { raw: 2 };
    assert_eq!(rt; store.element(cycle, 5), Ok([125u8, 0].as_slice()));
    assert_eq!(rt; store.element(cycle, 6), Ok([0u8, 250].as_slice()));
    assert_eq!(rt;
        store.element(cycle, 3),
        Ok([1u8, 0, 0x11, 0x60].as_slice())
    );
    assert_eq!(rt;
        store.attribute(cycle).map(|attribute| attribute.write()),
        Ok(0x6011_0001)
    );
    assert_eq!(rt; store.attribute(Idn { raw: 99 }), Err(Code::NO_IDN));
    assert_eq!(rt; store.max_len(Idn { raw: 16 }), 32);
    assert_eq!(rt; store.max_len(Idn { raw: 21 }), 128);
    assert_eq!(rt; store.step(Idn { raw: 51 }), 10);
    assert!(rt; !store.fails(Idn { raw: 127 }));
    Ok(())
}

// What can't be read, by its code.
#[test]
fn missing_elements(rt: HostRuntime) -> Result<(), Fail> {
    let setup = drive(rt.alloc())?;
    let store = opened(rt.alloc(), &setup)?.expect(&rt, "the blocks can stand");
    let rows: [(u16, u8, u16); 6] = [
        (6, 2, 0x2001),
        (6, 4, 0x4001),
        (6, 5, 0x5001),
        (6, 6, 0x6001),
        (99, 7, 0x1001),
        (99, 2, 0x1001),
    ];
    for (raw, element, code) in rows {
        assert_eq!(rt;
            store.element(Idn { raw }, element),
            Err(Code { raw: code }),
            "{raw} {element}"
        );
    }
    Ok(())
}

// A drive with limits, too: S-0-0047 with a minimum of -10 and a maximum of 10, P-0-0010 with sign and two bytes, and
// P-0-0011 with a maximum below its minimum.
fn limited(alloc: Global) -> Result<DriveSetup, AllocError> {
    let mut setup = drive(alloc)?;
    setup.blocks = Vec::new(alloc);
    let blocks = [
        number(47, SIGNED_FOUR, Some(0xffff_fff6), Some(10), &[0, 0, 0, 0]),
        number(0x800a, SIGNED_TWO, Some(0xfff6), Some(10), &[0, 0]),
        number(0x800b, UNSIGNED_TWO, Some(10), Some(5), &[0, 0]),
    ];
    for block in blocks {
        if let Some(block) = block {
            setup.blocks.push(block)?;
        }
    }
    Ok(setup)
}

// An identifier number, the bytes, the phase, and the code, 0 for none.
type Write = (u16, &'static [u8], u8, u16);

// Returns whether a write has this answer: with a code nothing changes, otherwise the operation data of that block alone.
fn is_answered(alloc: Global, setup: &DriveSetup, write: Write) -> Result<bool, AllocError> {
    let (raw, bytes, phase, code) = write;
    let idn = Idn { raw };
    let Some((mut store, before)) = two_stores(alloc, setup)? else {
        return Ok(false);
    };
    if phase < 2 || phase > 4 {
        return Ok(false);
    }
    let answer = store.put(idn, bytes, phase);
    if code != 0 {
        return Ok(answer == Err(Code { raw: code }) && are_same(alloc, &store, &before, None)?);
    }
    let others = are_same(alloc, &store, &before, Some(idn))?;
    Ok(answer == Ok(()) && others && store.element(idn, 7) == Ok(bytes))
}

// Each code of a write, and the pairs whose order decides, with the whole store compared.
#[test]
fn writes(rt: HostRuntime) -> Result<(), Fail> {
    let setup = limited(rt.alloc())?;
    let rows: [Write; 30] = [
        (6, &[10, 0], 2, 0),
        (99, &[10, 0], 2, 0x1001),
        (3, &[10, 0], 2, 0x7004),
        (21, &[10, 0], 2, 0x7004),
        (6, &[10, 0], 3, 0x7005),
        (6, &[10, 0], 4, 0x7005),
        (128, &[3, 0], 2, 0x7005),
        (128, &[3, 0], 3, 0),
        (6, &[10], 2, 0x7002),
        (6, &[], 2, 0x7002),
        (6, &[10, 0, 0], 2, 0x7003),
        (16, &[7; 33], 2, 0x7003),
        (16, &[7; 32], 2, 0),
        (16, &[], 2, 0),
        (16, &[7; 3], 2, 0x7008),
        (127, &[1, 0], 2, 0x7008),
        (127, &[3, 0], 2, 0),
        (127, &[0, 0], 2, 0),
        (2, &[124, 0], 2, 0x7006),
        (2, &[125, 0], 2, 0),
        (2, &[0, 250], 2, 0),
        (2, &[1, 250], 2, 0x7007),
        // Numbers with sign: -11, -10, -1, 10 and 11.
        (47, &[245, 255, 255, 255], 4, 0x7006),
        (47, &[246, 255, 255, 255], 4, 0),
        (0x800a, &[245, 255], 2, 0x7006),
        (0x800a, &[255, 255], 2, 0),
        (0x800a, &[11, 0], 2, 0x7007),
        // The first cause counts.
        (3, &[10], 4, 0x7004),
        (6, &[10], 4, 0x7005),
        (0x800b, &[7, 0], 2, 0x7006),
    ];
    for row in rows {
        assert!(rt; is_answered(rt.alloc(), &setup, row)?, "{row:?}");
    }
    Ok(())
}

// What may be written, apart from the bytes.
#[test]
fn protection(rt: HostRuntime) -> Result<(), Fail> {
    let setup = drive(rt.alloc())?;
    let store = opened(rt.alloc(), &setup)?.expect(&rt, "the blocks can stand");
    assert_eq!(rt; store.may_write(Idn { raw: 6 }, 2), Ok(()));
    assert_eq!(rt;
        store.may_write(Idn { raw: 6 }, 4),
        Err(Code::PROTECTED_NOW)
    );
    assert_eq!(rt; store.may_write(Idn { raw: 51 }, 2), Err(Code::FIXED));
    assert_eq!(rt; store.may_write(Idn { raw: 47 }, 4), Ok(()));
    assert_eq!(rt; store.may_write(Idn { raw: 99 }, 2), Err(Code::NO_IDN));
    Ok(())
}

// The lists of invalid operation data are the drive's own to write.
#[test]
fn given_lists(rt: HostRuntime) -> Result<(), Fail> {
    let setup = drive(rt.alloc())?;
    for raw in [21u16, 22] {
        let (mut store, before) = two_stores(rt.alloc(), &setup)?.expect(
            &rt,
            "the blocks can stand",
        );
        let idn = Idn { raw };
        store.set_list(idn, &[9; 128]);
        assert_eq!(rt; store.element(idn, 7), Ok([9u8; 128].as_slice()));
        assert!(rt; are_same(rt.alloc(), &store, &before, Some(idn))?);
    }
    Ok(())
}

// A block that breaks the rule of a part, and those of the later parts that it can.
fn breaking(field: Field) -> Option<Block> {
    let mut block = number(0x8014, UNSIGNED_TWO, None, None, &[0, 0])?;
    let command = Attribute::read(0x0009_0001).ok()?;
    match field {
        Field::Idn => {
            block.idn = Idn { raw: 128 };
            block.name = letters(61);
        }
        Field::Name => {
            block.name = letters(61);
            block.unit = letters(0);
        }
        Field::Unit => {
            block.unit = letters(13);
            block.min = Some(0x1_0000);
        }
        Field::Min => {
            block.attribute = command;
            block.min = Some(0);
            block.max = Some(0);
        }
        Field::Max => {
            block.max = Some(0x1_0000);
            block.max_len = 2;
        }
        Field::MaxLen => {
            block.max_len = 2;
            block.value = Text::new();
        }
        Field::Value => {
            block.value = Text::new();
            block.max = Some(0);
            block.step = 1;
        }
        Field::Step => {
            block.max = Some(0);
            block.step = 1;
            block.fails = true;
        }
        Field::Fails => block.fails = true,
    }
    Some(block)
}

// The first rule that a drive's blocks break, and where.
#[test]
fn rules(rt: HostRuntime) -> Result<(), Fail> {
    let fields = [
        Field::Idn,
        Field::Name,
        Field::Unit,
        Field::Min,
        Field::Max,
        Field::MaxLen,
        Field::Value,
        Field::Step,
        Field::Fails,
    ];
    for field in fields {
        let mut setup = drive(rt.alloc())?;
        assert_eq!(rt; check_blocks(&setup), Ok(()));
        setup.blocks.push(breaking(field).expect(&rt, "a block"))?;
        assert_eq!(rt; check_blocks(&setup), Err(BadBlock { index: 2, field }));
    }
    // The same identifier number twice, and a unit of thirteen letters in the first block.
    let mut setup = drive(rt.alloc())?;
    setup.blocks.push(number(47, SIGNED_FOUR, None, None, &[0; 4]).expect(&rt, "a block"))?;
    assert_eq!(rt;
        check_blocks(&setup),
        Err(BadBlock {
            index: 2,
            field: Field::Idn
        })
    );
    let mut block = number(47, SIGNED_FOUR, None, None, &[0; 4]).expect(&rt, "a block");
    block.unit = letters(13);
    setup.blocks.insert(0, block)?;
    assert_eq!(rt;
        check_blocks(&setup),
        Err(BadBlock {
            index: 0,
            field: Field::Unit
        })
    );
    Ok(())
}
