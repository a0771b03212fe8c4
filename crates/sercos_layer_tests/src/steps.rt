// What a drive answers to the steps of the service channel.
use crate::blocks::{UNSIGNED_TWO, drive, number};
use crate::station::Station;
use sercos_block::{Block, DriveSetup};
use sercos_step::Step;
use std::alloc::{AllocError, Global};
use std::test::Fail;

// The attributes of a number of four bytes without sign, of a list of two-byte items, and of a procedure command.
const UNSIGNED_FOUR: u32 = 0x0012_0001;

const LIST: u32 = 0x0015_0001;

const COMMAND: u32 = 0x0009_0001;

// The drive's further blocks: numbers from 10 to 100 (of two bytes, the same fixed, of four bytes), a number of at least 100
// and at most 10, a list of at most four items, and two procedure commands, of which the second is fixed.
const LIMITED: u16 = 0x800a;

const LISTED: u16 = 0x800b;

const FIXED: u16 = 0x800c;

const LONG: u16 = 0x800e;

const CROSSED: u16 = 0x800f;

const START: u16 = 0x8014;

const FIXED_START: u16 = 0x8015;

// The same block, fixed.
fn fixed(block: Option<Block>) -> Option<Block> {
    let mut block = block?;
    block.fixed = true;
    Some(block)
}

// An empty list.
fn list() -> Option<Block> {
    let mut block = number(LISTED, LIST, None, None, &[])?;
    block.max_len = 8;
    Some(block)
}

// A drive with these blocks, which is busy for two cycles with each step, and whose commands run for five.
fn setup(alloc: Global) -> Result<DriveSetup, AllocError> {
    let mut setup = drive(alloc)?;
    setup.busy = 2;
    setup.command = 5;
    let blocks = [
        number(LIMITED, UNSIGNED_TWO, Some(10), Some(100), &[50, 0]),
        list(),
        fixed(number(FIXED, UNSIGNED_TWO, Some(10), Some(100), &[50, 0])),
        number(LONG, UNSIGNED_FOUR, Some(10), Some(100), &[50, 0, 0, 0]),
        number(CROSSED, UNSIGNED_TWO, Some(100), Some(10), &[50, 0]),
        number(START, COMMAND, None, None, &[0, 0]),
        fixed(number(FIXED_START, COMMAND, None, None, &[0, 0])),
    ];
    for block in blocks {
        if let Some(block) = block {
            setup.blocks.push(block)?;
        }
    }
    Ok(setup)
}

// What a step does: it opens an identifier number or closes the one that is open, reads the data status, reads a word of an
// element that isn't the last, writes an element, or writes a word of operation data, the last one or another.
#[derive(Clone, Copy, Debug)]
enum Does {
    Open,
    Close,
    Status,
    Read(u8),
    Write(u8),
    Word,
    Last,
}

fn step(does: Does, word: u16) -> Step {
    let (write, last, element) = match does {
        Does::Open => (true, true, 1),
        Does::Close => (false, true, 0),
        Does::Status => (false, true, 1),
        Does::Read(element) => (false, false, element),
        Does::Write(element) => (true, true, element),
        Does::Word => (true, false, 7),
        Does::Last => (true, true, 7),
    };
    Step {
        write,
        last,
        element,
        word,
    }
}

// The identifier number that is opened before, or 0; the phase, what the step does, its word, and the code.
type Row = (u16, u8, Does, u16, u16);

// Each code, and below them each pair of causes that one step can have, in the order in which they are tried. No other pairs
// meet: if nothing is open there is no block that could be fixed, protected or of another length; elements 2 to 6 are not
// operation data; a list and a procedure command have no limits, so 0x7008 and a list's length (0x7003) don't meet them; and
// limits are tested with the word that is marked as the last, so 0x7003 of one that isn't doesn't, either.
const ROWS: [Row; 38] = [
    (0, 2, Does::Open, 99, 0x1001),
    (0, 2, Does::Read(7), 0, 0x0001),
    (47, 2, Does::Read(2), 0, 0x2001),
    (47, 2, Does::Read(4), 0, 0x4001),
    (47, 2, Does::Read(5), 0, 0x5001),
    (47, 2, Does::Read(6), 0, 0x6001),
    (47, 2, Does::Write(2), 0, 0x2004),
    (47, 2, Does::Write(3), 0, 0x3004),
    (47, 2, Does::Write(4), 0, 0x4004),
    (47, 2, Does::Write(5), 0, 0x5004),
    (47, 2, Does::Write(6), 0, 0x6004),
    (51, 2, Does::Word, 0, 0x7004),
    (6, 4, Does::Last, 10, 0x7005),
    (47, 2, Does::Last, 1, 0x7002),
    (LISTED, 2, Does::Word, 10, 0x7003),
    (LIMITED, 2, Does::Word, 50, 0x7003),
    (LISTED, 2, Does::Word, 3, 0x7008),
    (START, 2, Does::Last, 1, 0x7008),
    (LIMITED, 2, Does::Last, 5, 0x7006),
    (LIMITED, 2, Does::Last, 101, 0x7007),
    // 0x0001 with 0x2004.
    (0, 2, Does::Write(2), 0, 0x0001),
    // 0x7004 with 0x7005, 0x7002, 0x7003, 0x7008, 0x7006 and 0x7007.
    (3, 4, Does::Last, 10, 0x7004),
    (51, 2, Does::Last, 0, 0x7004),
    (FIXED, 2, Does::Word, 50, 0x7004),
    (FIXED_START, 2, Does::Last, 1, 0x7004),
    (FIXED, 2, Does::Last, 5, 0x7004),
    (FIXED, 2, Does::Last, 101, 0x7004),
    // 0x7005 with 0x7002, 0x7003, 0x7008, 0x7006 and 0x7007.
    (16, 4, Does::Last, 2, 0x7005),
    (6, 4, Does::Word, 10, 0x7005),
    (127, 3, Does::Last, 1, 0x7005),
    (2, 3, Does::Last, 124, 0x7005),
    (2, 3, Does::Last, 64001, 0x7005),
    // 0x7002 with 0x7003, 0x7008, and with 0x7006 and 0x7007, if the words so far are taken for the number.
    (LISTED, 2, Does::Last, 10, 0x7002),
    (LISTED, 2, Does::Last, 3, 0x7002),
    (LONG, 2, Does::Last, 5, 0x7002),
    (LONG, 2, Does::Last, 101, 0x7002),
    // 0x7003 with 0x7008, and 0x7006 with 0x7007.
    (LISTED, 2, Does::Word, 9, 0x7003),
    (CROSSED, 2, Does::Last, 50, 0x7006),
];

// The code that a row's step is refused with, as the AT of the first cycle shows in which the drive isn't busy any more.
fn refusal(alloc: Global, setup: &DriveSetup, row: Row) -> Result<Option<u16>, AllocError> {
    let (opened, phase, does, word, _) = row;
    let Some(mut drive) = Station::open(alloc, setup)? else {
        return Ok(None);
    };
    if phase < 2 || phase > 4 {
        return Ok(None);
    }
    if opened > 0 {
        let _wrote = drive.step(100, phase, step(Does::Open, opened));
    }
    let wrote = drive.step(101, phase, step(does, word));
    let (status, code) = drive.say(104);
    if status.error && !status.busy && !wrote {
        Ok(Some(code))
    } else {
        Ok(None)
    }
}

#[test]
fn refusals(rt: HostRuntime) -> Result<(), Fail> {
    let setup = setup(rt.alloc())?;
    for row in ROWS {
        assert_eq!(rt; refusal(rt.alloc(), &setup, row)?, Some(row.4), "{row:?}");
    }
    Ok(())
}

// Steps, each with its phase and its word; whether the last of them is refused, and the word that it is answered with; and a
// block with the operation data that it then has.
type Story = (&'static [(u8, Does, u16)], bool, u16, u16, &'static [u8]);

const STORIES: [Story; 9] = [
    // Element 0 closes.
    (
        &[(2, Does::Open, 47), (2, Does::Close, 0)],
        false,
        0,
        47,
        &[0; 4],
    ),
    (
        &[
            (2, Does::Open, 47),
            (2, Does::Close, 0),
            (2, Does::Read(7), 0),
        ],
        true,
        0x0001,
        47,
        &[0; 4],
    ),
    // An identifier number that the drive hasn't closes, too.
    (
        &[
            (2, Does::Open, 47),
            (2, Does::Open, 99),
            (2, Does::Read(7), 0),
        ],
        true,
        0x0001,
        47,
        &[0; 4],
    ),
    // An opening ends the run, so that the second word is a first one.
    (
        &[
            (2, Does::Open, 47),
            (2, Does::Word, 7),
            (2, Does::Open, 47),
            (2, Does::Last, 8),
        ],
        true,
        0x7002,
        47,
        &[0; 4],
    ),
    // After the copy there is 0.
    (
        &[
            (2, Does::Open, LIMITED),
            (2, Does::Read(7), 0),
            (2, Does::Read(7), 0),
        ],
        false,
        0,
        LIMITED,
        &[50, 0],
    ),
    // A list is written at its last word.
    (
        &[
            (2, Does::Open, LISTED),
            (2, Does::Word, 4),
            (2, Does::Word, 0),
            (2, Does::Word, 0x0201),
        ],
        false,
        0,
        LISTED,
        &[],
    ),
    (
        &[
            (2, Does::Open, LISTED),
            (2, Does::Word, 4),
            (2, Does::Word, 0),
            (2, Does::Word, 0x0201),
            (2, Does::Last, 0x0403),
        ],
        false,
        0,
        LISTED,
        &[1, 2, 3, 4],
    ),
    // Each word is held to the protection in its phase.
    (
        &[(2, Does::Open, 16), (2, Does::Word, 2), (3, Does::Word, 0)],
        true,
        0x7005,
        16,
        &[],
    ),
    // An error ends the run, so that the next word is a length, and one above 32.
    (
        &[
            (2, Does::Open, 16),
            (2, Does::Word, 2),
            (3, Does::Word, 0),
            (2, Does::Word, 34),
        ],
        true,
        0x7003,
        16,
        &[],
    ),
];

// Takes steps from cycle 100 on, one in each cycle.
fn take_all(drive: &mut Station, steps: &[(u8, Does, u16)]) {
    let mut cycle = 100u32;
    for (phase, does, word) in steps {
        if *phase >= 2 && *phase <= 4 {
            let _wrote = drive.step(cycle, *phase, step(*does, *word));
        }
        cycle = cycle.saturating_add(1);
    }
}

#[test]
fn stories(rt: HostRuntime) -> Result<(), Fail> {
    let setup = setup(rt.alloc())?;
    for (steps, error, word, raw, data) in STORIES {
        let mut drive = Station::open(rt.alloc(), &setup)?.expect(&rt, "the blocks can stand");
        take_all(&mut drive, steps);
        let (status, info) = drive.say(120);
        assert_eq!(rt; (status.error, info), (error, word), "{steps:?}");
        assert_eq!(rt; drive.data(raw), data, "{steps:?}");
    }
    Ok(())
}

// A record that is repeated with the same handshake bit is not a step: the drive isn't busy with it, and the read goes on
// where it was. In cycle 110 the number is 65600.
#[test]
fn repeated_record(rt: HostRuntime) -> Result<(), Fail> {
    let setup = setup(rt.alloc())?;
    let mut drive = Station::open(rt.alloc(), &setup)?.expect(&rt, "the blocks can stand");
    let read = step(Does::Read(7), 0);
    assert!(rt; !drive.step(107, 4, step(Does::Open, 51)));
    assert!(rt; !drive.step(110, 4, read));
    for (cycle, busy, word) in [(111, true, 0), (112, true, 0), (113, false, 64)] {
        let (status, info) = drive.say(cycle);
        assert_eq!(rt; (status.busy, info), (busy, word), "{cycle}");
    }
    assert!(rt; !drive.repeat(113, 4, read));
    let (status, info) = drive.say(114);
    assert_eq!(rt; (status.busy, info), (false, 64));
    assert!(rt; !drive.step(114, 4, read));
    let (status, info) = drive.say(117);
    assert_eq!(rt; (status.busy, info), (false, 1));
    Ok(())
}

// A command that is set in cycle 109 runs until cycle 113.
#[test]
fn set_command(rt: HostRuntime) -> Result<(), Fail> {
    let setup = setup(rt.alloc())?;
    let mut drive = Station::open(rt.alloc(), &setup)?.expect(&rt, "the blocks can stand");
    assert!(rt; !drive.step(106, 4, step(Does::Open, START)));
    assert!(rt; drive.step(109, 4, step(Does::Last, 3)));
    for cycle in 110..118 {
        assert_eq!(rt; drive.say(cycle).0.change, cycle > 113, "{cycle}");
    }
    assert!(rt; !drive.step(113, 4, step(Does::Status, 0)));
    assert_eq!(rt; drive.say(116).1, 7);
    assert!(rt; !drive.step(116, 4, step(Does::Status, 0)));
    assert_eq!(rt; drive.say(119).1, 3);
    assert!(rt; drive.step(119, 4, step(Does::Last, 0)));
    assert!(rt; !drive.say(120).0.change);
    assert!(rt; !drive.step(122, 4, step(Does::Status, 0)));
    assert_eq!(rt; drive.say(125).1, 0);
    Ok(())
}

// After a reset nothing is set or open, and the handshake bit is 0.
#[test]
fn reset(rt: HostRuntime) -> Result<(), Fail> {
    let setup = setup(rt.alloc())?;
    let mut drive = Station::open(rt.alloc(), &setup)?.expect(&rt, "the blocks can stand");
    take_all(
        &mut drive,
        &[
            (2, Does::Open, START),
            (2, Does::Last, 3),
            (2, Does::Open, START),
        ],
    );
    let (status, _) = drive.say(110);
    assert_eq!(rt; (status.ahs, status.change), (true, true));
    drive.reset();
    let (status, info) = drive.say(110);
    assert_eq!(rt; (status.ahs, status.change, info), (false, false, 0));
    take_all(&mut drive, &[(2, Does::Status, 0)]);
    let (status, info) = drive.say(110);
    assert_eq!(rt; (status.ahs, status.error, info), (true, true, 1));
    Ok(())
}
