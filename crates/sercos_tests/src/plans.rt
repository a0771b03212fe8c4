// Plans: `plan` and `margin`.
use crate::texts::{ONE_DRIVE, THREE_DRIVES, TWO_DRIVES};
use sercos_io::Status;
use sercos_rows::{PLAIN, Row, check};
use std::test::Fail;

const PLAN: Row = Row {
    words: "sercos plan",
    texts: TWO_DRIVES,
    ..PLAIN
};

const ROWS: &[Row] = &[
    Row {
        shows: "two drives",
        lines: "plan t2 83 t3 153 t4 230 mdt 16
slot 1 t1 10 position 1
slot 2 t1 46 position 9",
        ..PLAN
    },
    Row {
        shows: "two drives in too short a cycle",
        edits: "cycle = 250 => cycle = 125",
        status: Status::No,
        lines: "no plan
rule 1 drive 1 at 40
rule 3 drive 2 at 184
rule 6 drive 2 at 332
rule 9 drive 1 sum 570 bound 446",
        ..PLAN
    },
    Row {
        shows: "third drive of the first one's slave, which recovers slowly",
        more: "
[[drive]]
address = 3
slave = 1
t1min = 10
tatmt = 6
t4min = 20
tatat = 60
tmtsy = 10
tmtsg = 20
at = ['S-0-0051']
mdt = ['S-0-0047']

[[drive.block]]
idn = 'S-0-0047'
attribute = 0x00220001

[[drive.block]]
idn = 'S-0-0051'
attribute = 0x00220001
data = 64500
step = 10
",
        lines: "plan t2 138 t3 227 t4 230 mdt 24
slot 1 t1 10 position 1
slot 2 t1 46 position 9
slot 3 t1 101 position 17",
        ..PLAN
    },
    Row {
        shows: "turn of a drive that just fits",
        edits: "tmtsy = 10 => tmtsy = 104",
        lines: "plan t2 83 t3 153 t4 230 mdt 16
slot 1 t1 10 position 1
slot 2 t1 46 position 9",
        ..PLAN
    },
    Row {
        shows: "turn of a drive a microsecond too long",
        edits: "tmtsy = 10 => tmtsy = 105",
        status: Status::No,
        lines: "no plan
rule 1 drive 1 at 40
rule 3 drive 2 at 184
rule 6 drive 2 at 332
rule 9 drive 1 sum 950 bound 946",
        ..PLAN
    },
    Row {
        shows: "three drives",
        texts: THREE_DRIVES,
        lines: "plan t2 175 t3 323 t4 900 mdt 36
slot 1 t1 20 position 1
slot 2 t1 70 position 13
slot 3 t1 120 position 25",
        ..PLAN
    },
    Row {
        shows: "rate of 16",
        edits: "rate = 4 => rate = 16",
        lines: "plan t2 37 t3 70 t4 230 mdt 16
slot 1 t1 10 position 1
slot 2 t1 23 position 9",
        ..PLAN
    },
    Row {
        shows: "neighbours of one slave need no gap",
        edits: "address = 2\nt1min = 12\ntatmt = 6\nt4min = 20\ntatat = 5 => address = 2\nslave = 1\nt1min = 12\ntatmt = 6\nt4min = 20\ntatat = 2",
        lines: "plan t2 80 t3 150 t4 230 mdt 16
slot 1 t1 10 position 1
slot 2 t1 43 position 9",
        ..PLAN
    },
    Row {
        shows: "gap that is longer than the first drive's time",
        texts: ONE_DRIVE,
        edits: "gap = 5 => gap = 20",
        lines: "plan t2 71 t3 122 t4 230 mdt 8
slot 1 t1 20 position 1",
        ..PLAN
    },
    Row {
        shows: "longest time from an AT to the MDT",
        texts: ONE_DRIVE,
        edits: "tatmt = 6 => tatmt = 155",
        lines: "plan t2 196 t3 247 t4 230 mdt 8
slot 1 t1 10 position 1",
        ..PLAN
    },
    Row {
        shows: "a microsecond more",
        texts: ONE_DRIVE,
        edits: "tatmt = 6 => tatmt = 156",
        status: Status::No,
        lines: "no plan
rule 1 drive 1 at 40
rule 6 drive 1 at 788
rule 9 drive 1 sum 949 bound 946",
        ..PLAN
    },
    Row {
        shows: "one drive",
        words: "sercos margin",
        texts: ONE_DRIVE,
        lines: "cycle 125
margin 1 t1min 159 tatmt 155 t4min 250 tatat 64000 tmtsy 159 tmtsg 172",
        ..PLAN
    },
    Row {
        shows: "two drives in too short a cycle",
        words: "sercos margin",
        edits: "cycle = 250 => cycle = 125",
        status: Status::No,
        lines: "cycle 250
no plan
rule 1 drive 1 at 40
rule 3 drive 2 at 184
rule 6 drive 2 at 332
rule 9 drive 1 sum 570 bound 446",
        ..PLAN
    },
    Row {
        shows: "only the longest cycle is long enough",
        words: "sercos margin",
        texts: ONE_DRIVE,
        edits: "cycle = 250 => cycle = 64000\ncontrol = 64000 & t4min = 20 => t4min = 64000",
        lines: "cycle 64000
margin 1 t1min 300 tatmt 300 t4min 64000 tatat 64000 tmtsy 250 tmtsg 63922",
        ..PLAN
    },
];

#[test]
fn plans(rt: HostRuntime) -> Result<(), Fail> {
    check(rt.alloc(), ROWS, "")
}
