// `sercos_rings`: several rings on one cycle clock.
use crate::texts::{FIRST, ONE_DRIVE, REST, THREE_DRIVES};
use sercos_io::Status;
use sercos_rows::{PLAIN, Row, check};
use std::test::Fail;

const RINGS: Row = Row {
    words: "sercos_rings run",
    ..PLAIN
};

const NEXT: &str = "next\n";

// Two and eight rings of one drive.
const TWO_RINGS: &[&str] = &[FIRST, REST, NEXT, FIRST, REST];

const EIGHT_RINGS: &[&str] = &[
    FIRST, REST, NEXT, FIRST, REST, NEXT, FIRST, REST, NEXT, FIRST, REST, NEXT, FIRST, REST, NEXT,
    FIRST, REST, NEXT, FIRST, REST, NEXT, FIRST, REST,
];

const ROWS: &[Row] = &[
    Row {
        shows: "one cycle each, whole",
        texts: TWO_RINGS,
        edits: "cycles = 300 => cycles = 1 & cycles = 300 => cycles = 1",
        lines: "1 sercos 1
1 ring 4 250 250 5 1
1 drive 1 1 10 6 20 5 10 20 8 8
1 order 1
2 sercos 1
2 ring 4 250 250 5 1
2 drive 1 1 10 6 20 5 10 20 8 8
2 order 1
t 0
1 m 0 -49 49 ff00
1 end 1 phase 0 complete 0 refused 0 broken 0 falls 0 unseen 0
2 m 0 -49 49 ff00
2 end 1 phase 0 complete 0 refused 0 broken 0 falls 0 unseen 0
together 0",
        ..RINGS
    },
    Row {
        shows: "one start-up each",
        texts: TWO_RINGS,
        lines: "1 sercos 1
1 ring 4 250 250 5 1
1 drive 1 1 10 6 20 5 10 20 8 8
1 order 1
2 sercos 1
2 ring 4 250 250 5 1
2 drive 1 1 10 6 20 5 10 20 8 8
2 order 1
t 0
1 m 0 -49 49 ff00
2 m 0 -49 49 ff00
t 94000
t 95000
1 m 95 -50 50 ff03
2 m 95 -50 50 ff03
t 95250
1 m 96 -50 50 ff03
2 m 96 -50 50 ff03
t 95500
t 95750
1 end 300 phase 4 complete 0 refused 0 broken 0 falls 0 unseen 0
2 end 300 phase 4 complete 0 refused 0 broken 0 falls 0 unseen 0
together 205",
        only: "? sercos *|? ring *|? drive *|? order *|t 0|t 94???|t 95???|? end *|together *",
        ..RINGS
    },
    Row {
        shows: "one that starts up sooner than the other",
        texts: TWO_RINGS,
        edits: "cycles = 300 => cycles = 7000 & cycles = 300\n\n[[drive]] => cycles = 2000\n\n[[drive]]\nbusy = 20",
        lines: "together 265",
        only: "together *",
        ..RINGS
    },
    Row {
        shows: "most rings, one cycle each",
        texts: EIGHT_RINGS,
        edits: "cycles = 300 => cycles = 1 & cycles = 300 => cycles = 1 & cycles = 300 => cycles = 1 & cycles = 300 => cycles = 1 & cycles = 300 => cycles = 1 & cycles = 300 => cycles = 1 & cycles = 300 => cycles = 1 & cycles = 300 => cycles = 1",
        lines: "1 sercos 1
8 sercos 1
8 ring 4 250 250 5 1
8 drive 1 1 10 6 20 5 10 20 8 8
8 order 1
t 0
1 m 0 -49 49 ff00
8 m 0 -49 49 ff00
8 end 1 phase 0 complete 0 refused 0 broken 0 falls 0 unseen 0
together 0",
        only: "t *|together *",
        ..RINGS
    },
    Row {
        shows: "one document",
        texts: ONE_DRIVE,
        status: Status::Refused,
        lines: "refused 11 documents 1",
        ..RINGS
    },
];

// Over a ring of one drive and the three drives that are given.
const OTHER_ROWS: &[Row] = &[
    Row {
        shows: "cycle of a millisecond",
        texts: &[FIRST, REST, NEXT],
        edits: "cycle = 250 => cycle = 1000 & cycles = 300 => cycles = 900",
        lines: "1 sercos 1
2 sercos 1
2 order 1 2 3
t 0
together 75",
        only: "together *",
        ..RINGS
    },
    Row {
        shows: "two cycle times",
        texts: &[FIRST, REST, NEXT],
        status: Status::Refused,
        lines: "document 2 refused 12 cycle 1000",
        ..RINGS
    },
];

#[test]
fn several_rings(rt: HostRuntime) -> Result<(), Fail> {
    check(rt.alloc(), ROWS, "")?;
    let three = THREE_DRIVES.concat(rt.alloc())?;
    check(rt.alloc(), OTHER_ROWS, three.as_str())
}
