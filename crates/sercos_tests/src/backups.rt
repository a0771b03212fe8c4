// `backup` and `restore`: the data of the drives, saved as requests.
use crate::texts::{ONE_DRIVE, READ};
use sercos_io::Status;
use sercos_rows::{PLAIN, Row, check, check_over, input_of, push_number};
use std::test::Fail;

const OF_ONE_DRIVE: Row = Row {
    texts: ONE_DRIVE,
    ..PLAIN
};

const BACKUP_ROWS: &[Row] = &[
    Row {
        shows: "saved data of a block",
        words: "sercos backup",
        edits: "attribute = 0x00220001 => attribute = 0x00220001\ndata = 7",
        more: "
[[drive.block]]
idn = 'S-0-0192'
attribute = 0x00550001
max_len = 8
data = '2f00'
",
        lines: "[[request]]
drive = 1
kind = \"write\"
idn = \"S-0-0047\"
data = \"07000000\"",
        ..OF_ONE_DRIVE
    },
    Row {
        shows: "saved data restored with another value",
        words: "sercos restore",
        edits: "attribute = 0x00220001 => attribute = 0x00220001\ndata = 7",
        more: "
[[drive.block]]
idn = 'S-0-0192'
attribute = 0x00550001
max_len = 8
data = '2f00'
[[request]]
drive = 1
kind = \"write\"
idn = \"S-0-0047\"
data = \"09000000\"
",
        lines: "restored 1 S-0-0047 09000000",
        ..OF_ONE_DRIVE
    },
    Row {
        shows: "drive without a list",
        words: "sercos backup",
        ..OF_ONE_DRIVE
    },
    Row {
        shows: "write of a protected block",
        words: "sercos restore",
        more: "
[[request]]
drive = 1
kind = 'write'
idn = 'S-0-0006'
data = '0a00'
",
        status: Status::No,
        lines: "failed 1 S-0-0006 refused 0x7005",
        ..OF_ONE_DRIVE
    },
    Row {
        shows: "restore of a read",
        words: "sercos restore",
        more: READ,
        status: Status::Refused,
        lines: "refused 8 request 1",
        ..OF_ONE_DRIVE
    },
];

// A run reads at most 4,096 numbers.
const TOO_MANY: Row = Row {
    shows: "nine drives whose lists have 512 numbers each",
    words: "sercos backup",
    status: Status::No,
    lines: "too many 4608",
    ..PLAIN
};

// A ring whose ATs are all lost.
const LOSING: Row = Row {
    more: "
[[fault]]
kind = 'lose'
cycle = 0
last = 49999
telegram = 'at'
from = 1
link = 1
",
    ..OF_ONE_DRIVE
};

// Both commands leave the links that are handed in alone.
#[test]
fn backups(rt: HostRuntime) -> Result<(), Fail> {
    let losing = input_of(rt.alloc(), &LOSING, "")?;
    for row in BACKUP_ROWS {
        check_over(rt.alloc(), row, "", None)?;
        check_over(rt.alloc(), row, "", Some(losing.as_str()))?;
    }
    Ok(())
}

#[test]
fn too_many_blocks(rt: HostRuntime) -> Result<(), Fail> {
    let alloc = rt.alloc();
    let list = "2f00".repeat(alloc, 512)?;
    let mut text = String::from_str(alloc, "[ring]\nrate = 4\ncycle = 1000\ncycles = 2500\n")?;
    for address in 1..10 {
        text.push_str("[[drive]]\n")?;
        push_number(&mut text, "address", address)?;
        text.push_str("t1min = 10\ntatmt = 6\nt4min = 20\ntatat = 5\ntmtsy = 10\ntmtsg = 20\n")?;
        text.push_str("[[drive.block]]\nidn = 'S-0-0192'\nattribute = 0x00550001\n")?;
        text.push_str("max_len = 1024\ndata = '")?;
        text.push_str(list.as_str())?;
        text.push_str("'\n")?;
    }
    check(alloc, &[TOO_MANY], text.as_str())
}
