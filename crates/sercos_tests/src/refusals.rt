// Documents, words and texts that are refused.
use crate::texts::{ONE_DRIVE, TWO_DRIVES};
use sercos_io::Status;
use sercos_rows::{PLAIN, Row, check};
use std::test::Fail;

const REFUSED: Row = Row {
    words: "sercos plan",
    texts: ONE_DRIVE,
    status: Status::Refused,
    ..PLAIN
};

const REFUSED_ROWS: &[Row] = &[
    Row {
        shows: "no text",
        texts: &[],
        lines: "refused 2 missing ring",
        ..REFUSED
    },
    Row {
        shows: "unknown key",
        edits: "cycles = 300 => cycles = 300\nspeed = 3",
        lines: "refused 6 unknown ring.speed",
        ..REFUSED
    },
    Row {
        shows: "float",
        edits: "gap = 5 => gap = 5.0",
        lines: "refused 3 kind ring.gap",
        ..REFUSED
    },
    Row {
        shows: "rate of 3",
        edits: "rate = 4 => rate = 3",
        lines: "refused 4 range ring.rate 3",
        ..REFUSED
    },
    Row {
        shows: "two drives of one address",
        texts: TWO_DRIVES,
        edits: "address = 2 => address = 1",
        lines: "refused 5 twice drive[1].address",
        ..REFUSED
    },
    Row {
        shows: "no TOML",
        texts: &[],
        more: "ring =",
        lines: "refused 1 toml",
        ..REFUSED
    },
    Row {
        shows: "unit of thirteen letters",
        edits: "idn = \"S-0-0047\" => idn = \"S-0-0047\"\nunit = \"uuuuuuuuuuuuu\"",
        lines: "refused 4 range drive[0].block[0].unit 13",
        ..REFUSED
    },
    Row {
        shows: "document cut after its cycle time",
        texts: &[],
        more: "[ring]\nrate = 4\ncycle = 250\n",
        lines: "refused 2 missing drive",
        ..REFUSED
    },
    Row {
        shows: "document cut after an address",
        texts: &[],
        more: "[ring]\nrate = 4\ncycle = 250\ngap = 5\ncycles = 300\n\n[[drive]]\naddress = 1\n",
        lines: "refused 2 missing drive[0].t1min",
        ..REFUSED
    },
    Row {
        shows: "document cut within the head of a table",
        texts: &[],
        more: "[ring]\nrate = 4\ncycle = 250\ngap = 5\ncycles = 300\n\n[[d",
        lines: "refused 1 toml",
        ..REFUSED
    },
    Row {
        shows: "document cut within the head of a table",
        texts: &[],
        more: "[ring]\nrate = 4\ncycle = 250\ngap = 5\ncycles = 300\n\n[[dr",
        lines: "refused 1 toml",
        ..REFUSED
    },
    Row {
        shows: "document cut within the head of a table",
        texts: &[],
        more: "[ring]\nrate = 4\ncycle = 250\ngap = 5\ncycles = 300\n\n[[dri",
        lines: "refused 1 toml",
        ..REFUSED
    },
    Row {
        shows: "document cut within the head of a table",
        texts: &[],
        more: "[ring]\nrate = 4\ncycle = 250\ngap = 5\ncycles = 300\n\n[[driv",
        lines: "refused 1 toml",
        ..REFUSED
    },
    Row {
        shows: "document cut within the head of a table",
        texts: &[],
        more: "[ring]\nrate = 4\ncycle = 250\ngap = 5\ncycles = 300\n\n[[drive",
        lines: "refused 1 toml",
        ..REFUSED
    },
    Row {
        shows: "document cut within the head of a table",
        texts: &[],
        more: "[ring]\nrate = 4\ncycle = 250\ngap = 5\ncycles = 300\n\n[[drive]",
        lines: "refused 1 toml",
        ..REFUSED
    },
    Row {
        shows: "restart with a link",
        words: "sercos run",
        more: "
[[fault]]
kind = 'restart'
cycle = 120
link = 0
station = 1
",
        lines: "refused 6 unknown fault[0].link",
        ..REFUSED
    },
];

const WORD_ROWS: &[Row] = &[
    Row {
        shows: "no drive",
        words: "sercos gen 0",
        status: Status::BadWords,
        ..PLAIN
    },
    Row {
        shows: "word too many",
        words: "sercos plan x",
        status: Status::BadWords,
        ..PLAIN
    },
    Row {
        shows: "no words",
        words: "sercos",
        status: Status::BadWords,
        ..PLAIN
    },
    Row {
        shows: "address too large",
        words: "sercos replay 255",
        status: Status::BadWords,
        ..PLAIN
    },
    Row {
        shows: "no address",
        words: "sercos replay",
        status: Status::BadWords,
        ..PLAIN
    },
    Row {
        shows: "four words",
        words: "sercos run plan show check",
        status: Status::BadWords,
        ..PLAIN
    },
    Row {
        shows: "word of the other program",
        words: "sercos_rings plan",
        status: Status::BadWords,
        ..PLAIN
    },
];

#[test]
fn refusals(rt: HostRuntime) -> Result<(), Fail> {
    check(rt.alloc(), REFUSED_ROWS, "")?;
    check(rt.alloc(), WORD_ROWS, "")
}
