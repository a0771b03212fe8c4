// `check` and `replay`: captures, and the trace of a run read again.
use crate::texts::{CAPTURE, FIRST, READ, REST};
use sercos_io::Status;
use sercos_rows::{PLAIN, Row, check, output};
use std::test::Fail;

const CHECK: Row = Row {
    words: "sercos check",
    texts: &[CAPTURE],
    ..PLAIN
};

const CAPTURE_ROWS: &[Row] = &[
    Row {
        shows: "cycle of phase 3",
        lines: "clean 8",
        ..CHECK
    },
    Row {
        shows: "second AT too near to the first",
        edits: "a 0 184 => a 0 140",
        status: Status::No,
        lines: "violation line 8 rule 6 gap",
        ..CHECK
    },
    Row {
        shows: "AT of a bit more than its frame",
        edits: "a 0 40 105 => a 0 40 106",
        status: Status::No,
        lines: "violation line 7 rule 2 frame",
        ..CHECK
    },
    Row {
        shows: "AT of one byte",
        edits: "a 0 184 104 020000000000000000 => a 0 184 104 02",
        status: Status::No,
        lines: "violation line 8 rule 2 frame",
        ..CHECK
    },
    Row {
        shows: "capture cut after the first drive",
        edits: "drive 2 2 12 6 20 5 10 20 8 8\norder 1 2\nm 0 -50 50 ff03\na 0 40 105 010000000000000000\na 0 184 104 020000000000000000\n => ",
        status: Status::Refused,
        lines: "refused line 4 column 1",
        ..CHECK
    },
    Row {
        shows: "capture cut after the order",
        edits: "m 0 -50 50 ff03\na 0 40 105 010000000000000000\na 0 184 104 020000000000000000\n => ",
        lines: "clean 5",
        ..CHECK
    },
    Row {
        shows: "text that is empty",
        texts: &[],
        status: Status::Refused,
        lines: "refused line 1 column 1",
        ..CHECK
    },
];

// A run.
const TRACED: Row = Row {
    shows: "run that is read again",
    words: "sercos run",
    texts: &[FIRST, REST, READ],
    ..PLAIN
};

// What a replay has before the trace.
const REPLAYED: &[&str] = &[FIRST, REST, READ, "capture\n"];

// Over its trace: 4 lines of its head, 300 MSTs, 4 moves of the drive, 288 ATs and as many MDTs, the two lines of the plan, that of the
// request and the last one.
const TRACE_ROWS: &[Row] = &[
    Row {
        shows: "trace of a run",
        texts: &[],
        lines: "clean 888",
        ..CHECK
    },
    Row {
        shows: "drive in its own run",
        texts: REPLAYED,
        words: "sercos replay 1",
        lines: "agrees 300",
        ..PLAIN
    },
    Row {
        shows: "master in its own run",
        texts: REPLAYED,
        words: "sercos replay 0",
        lines: "agrees 300",
        ..PLAIN
    },
    Row {
        shows: "drive, with an AT changed",
        texts: REPLAYED,
        words: "sercos replay 1",
        edits: "a 13 1200 72 0101000000 => a 13 1200 72 0100000000",
        status: Status::No,
        lines: "differs cycle 13 at
expected 1200 0101000000
found 1200 0100000000",
        ..PLAIN
    },
    Row {
        shows: "master, with an AT changed",
        texts: REPLAYED,
        words: "sercos replay 0",
        edits: "a 13 1200 72 0101000000 => a 13 1200 72 0100000000",
        status: Status::No,
        lines: "differs cycle 13 mdt
expected 2600 010f000300
found 2600 0118000000",
        ..PLAIN
    },
    Row {
        shows: "drive that isn't there",
        texts: REPLAYED,
        words: "sercos replay 2",
        status: Status::Refused,
        lines: "refused 10 drive 2",
        ..PLAIN
    },
];

#[test]
fn captures(rt: HostRuntime) -> Result<(), Fail> {
    let alloc = rt.alloc();
    check(alloc, CAPTURE_ROWS, "")?;
    let trace = output(alloc, &TRACED, "", None)?;
    check(alloc, TRACE_ROWS, trace.as_str())
}
