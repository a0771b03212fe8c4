// Rows that ask for something wrong: the tables must refuse each of them, or they show nothing.
use sercos_io::Status;
use sercos_rows::{PLAIN, Row, check, failed, fault_of};
use std::test::Fail;

// What `show` answers here.
const RIGHT: Row = Row {
    shows: "MST, then a frame with a wrong bit",
    words: "sercos show",
    more: "raw 49 7edf010ee1fd00\nraw 49 7edf110ee1fd00\n",
    lines: "ok ff00\nerror 6 check found 0xf087 wanted 0x7ccf",
    ..PLAIN
};

const RIGHT_ROWS: &[Row] = &[
    RIGHT,
    Row {
        shows: "any byte, and any rest",
        lines: "ok f?00\nerror 6 *",
        ..RIGHT
    },
    Row {
        shows: "one of the lines",
        lines: "ok ff00",
        only: "ok *|m *",
        ..RIGHT
    },
];

const WRONG_ROWS: &[Row] = &[
    Row {
        shows: "line with another byte",
        lines: "ok ff01\nerror 6 *",
        ..RIGHT
    },
    Row {
        shows: "beginning of a line",
        lines: "ok ff0\nerror 6 *",
        ..RIGHT
    },
    Row {
        shows: "longer line",
        lines: "ok ff000\nerror 6 *",
        ..RIGHT
    },
    Row {
        shows: "two lines in the other order",
        lines: "error 6 *\nok ff00",
        only: "m *",
        ..RIGHT
    },
    Row {
        shows: "line too few",
        lines: "error 6 *",
        ..RIGHT
    },
    Row {
        shows: "last line too few",
        lines: "ok ff00",
        only: "m *|error *",
        ..RIGHT
    },
    Row {
        shows: "line too many",
        lines: "ok ff00\nok ff00\nerror 6 *",
        ..RIGHT
    },
    Row {
        shows: "last line too many",
        times: 2,
        lines: "ok ff00\nerror 6 *\n",
        ..RIGHT
    },
    Row {
        shows: "no line",
        lines: "",
        ..RIGHT
    },
    Row {
        shows: "another status",
        status: Status::No,
        ..RIGHT
    },
];

#[test]
fn wrong_rows(rt: HostRuntime) -> Result<(), Fail> {
    check(rt.alloc(), RIGHT_ROWS, "")?;
    for row in WRONG_ROWS {
        if fault_of(rt.alloc(), row, row.more, None)?.is_none() {
            return Err(failed(row, "not refused"));
        }
    }
    Ok(())
}
