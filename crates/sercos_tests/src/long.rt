// Inputs of the most bytes that a command reads, and of one more.
use crate::texts::{CAPTURE, FIRST, ONE_DRIVE, REST, SECOND, SHORT};
use sercos_io::Status;
use sercos_rows::{PLAIN, Row, check};
use std::test::Fail;

// A ring document of one drive, with blanks after it.
const DOCUMENT: Row = Row {
    texts: ONE_DRIVE,
    fill: "\n",
    ..PLAIN
};

// Blanks alone, and one too many.
const BLANKS: Row = Row {
    fill: "\n",
    ..PLAIN
};

const TOO_LONG: Row = Row {
    more: "\n",
    status: Status::TooLong,
    ..BLANKS
};

// A document of two drives, and as its capture the one of eight lines, with lines that obey no rule. It begins in phase 3: the master
// doesn't, and the drive sends nothing then.
const REPLAY: Row = Row {
    texts: &[FIRST, REST, SECOND, REST, "capture\n", CAPTURE],
    fill: MOVE,
    status: Status::No,
    ..PLAIN
};

// A line that obeys no rule.
const MOVE: &str = "p 0 1 0\n";

const ROWS: &[Row] = &[
    Row {
        shows: "plan of a long document",
        words: "sercos plan",
        lines: "plan t2 47 t3 98 t4 230 mdt 8
slot 1 t1 10 position 1",
        ..DOCUMENT
    },
    Row {
        shows: "margins of a long document",
        words: "sercos margin",
        lines: "cycle 125
margin 1 t1min 159 tatmt 155 t4min 250 tatat 64000 tmtsy 159 tmtsg 172",
        ..DOCUMENT
    },
    Row {
        shows: "run of a long document",
        words: "sercos run",
        edits: "cycles = 300 => cycles = 13",
        lines: SHORT,
        ..DOCUMENT
    },
    Row {
        shows: "backup of a long document",
        words: "sercos backup",
        ..DOCUMENT
    },
    Row {
        shows: "restore of a long document",
        words: "sercos restore",
        ..DOCUMENT
    },
    Row {
        shows: "blanks alone",
        words: "sercos plan",
        status: Status::Refused,
        lines: "refused 2 missing ring",
        ..BLANKS
    },
    Row {
        shows: "text of a byte too many for `show`",
        words: "sercos show",
        ..TOO_LONG
    },
    Row {
        shows: "text of a byte too many for `plan`",
        words: "sercos plan",
        ..TOO_LONG
    },
    Row {
        shows: "text of a byte too many for several rings",
        words: "sercos_rings run",
        ..TOO_LONG
    },
    Row {
        shows: "check of a long capture",
        words: "sercos check",
        texts: &[CAPTURE],
        fill: MOVE,
        lines: "clean 131058",
        ..PLAIN
    },
    Row {
        shows: "replay of the master of a long capture",
        words: "sercos replay 0",
        lines: "differs cycle 0 mst
expected -49 ff00
found -50 ff03",
        ..REPLAY
    },
    Row {
        shows: "replay of a drive of a long capture",
        words: "sercos replay 1",
        lines: "differs cycle 0 at
expected none
found 40 010000000000000000",
        ..REPLAY
    },
    Row {
        shows: "lines of a long text of frames",
        words: "sercos show",
        fill: "raw 49 7edf010ee1fd00\n",
        lines: "ok ff00\n",
        times: 47662,
        ..PLAIN
    },
];

#[test]
fn long_inputs(rt: HostRuntime) -> Result<(), Fail> {
    check(rt.alloc(), ROWS, "")
}
