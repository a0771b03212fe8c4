// `show`: the frames and telegrams of single lines.
use sercos_io::Status;
use sercos_rows::{PLAIN, Row, check};
use std::test::Fail;

const SHOW: Row = Row {
    words: "sercos show",
    ..PLAIN
};

const ROWS: &[Row] = &[
    Row {
        shows: "MST of phase 0",
        more: "raw 49 7edf010ee1fd00\n",
        lines: "ok ff00",
        ..SHOW
    },
    Row {
        shows: "check sequence that ends in five ones",
        more: "raw 41 7e8838f8fc00\n",
        lines: "ok 88",
        ..SHOW
    },
    Row {
        shows: "their inserted zero is missing",
        more: "raw 40 7e8838f87e\n",
        lines: "error 2 abort 32",
        ..SHOW
    },
    Row {
        shows: "one bit is wrong",
        more: "raw 49 7edf110ee1fd00\n",
        lines: "error 6 check found 0xf087 wanted 0x7ccf",
        ..SHOW
    },
    Row {
        shows: "frame that is cut",
        more: "raw 45 7edf010ee11d\n",
        lines: "error 3 no close 45",
        ..SHOW
    },
    Row {
        shows: "no line",
        ..SHOW
    },
    Row {
        shows: "second line of no form",
        more: "raw 49 7edf010ee1fd00\nraw x 7e\n",
        status: Status::Refused,
        lines: "refused line 2 column 5",
        ..SHOW
    },
    Row {
        shows: "no bits",
        more: "raw 0 -",
        lines: "error 1 no open",
        ..SHOW
    },
    Row {
        shows: "telegram of an MST",
        more: "mst 49 7edf010ee1fd00\n",
        lines: "mst phase 0",
        ..SHOW
    },
    Row {
        shows: "MDT to one drive",
        more: "single 72 7e010f000300a25c7e\n",
        lines: "single 1 mhs 1 write 1 last 1 element 1 info 0x0003 cyclic 0x0000",
        ..SHOW
    },
    Row {
        shows: "AT",
        more: "at 72 7e010100000088d87e\n",
        lines: "at 1 ahs 1 busy 0 error 0 change 0 info 0x0000 cyclic 0x0000 data -",
        ..SHOW
    },
    Row {
        shows: "MST of phase 8",
        more: "mst 50 7edf119ef9f801\n",
        lines: "layout 3 field 1",
        ..SHOW
    },
    Row {
        shows: "MDT to one drive of two bytes",
        more: "single 49 7edf010ee1fd00\n",
        lines: "layout 1 length found 2 wanted 5",
        ..SHOW
    },
    Row {
        shows: "MST of one byte",
        more: "mst 41 7e8838f8fc00\n",
        lines: "layout 1 length found 1 wanted 2",
        ..SHOW
    },
    Row {
        shows: "two lines, and digits in capitals",
        more: "raw 49 7EDF010EE1FD00\nmst 49 7edf010ee1fd00",
        lines: "ok ff00
mst phase 0",
        ..SHOW
    },
    Row {
        shows: "line without anything",
        more: "\n",
        status: Status::Refused,
        lines: "refused line 1 column 1",
        ..SHOW
    },
    Row {
        shows: "byte too many between the flags",
        texts: &["raw 16424 7e"],
        fill: "00",
        room: 4114,
        more: "7e\n",
        lines: "error 8 long 2051",
        ..SHOW
    },
];

#[test]
fn frames(rt: HostRuntime) -> Result<(), Fail> {
    check(rt.alloc(), ROWS, "")
}
