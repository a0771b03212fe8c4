// `run` and `gen`: whole runs of a ring.
use crate::texts::{ONE_DRIVE, READ, SHORT, THREE_DRIVES};
use sercos_rows::{PLAIN, Row, check, failed, input_of, output};
use std::alloc::Global;
use std::test::Fail;

const RUN: Row = Row {
    words: "sercos run",
    texts: ONE_DRIVE,
    ..PLAIN
};

// Two rows whose scripts are handed in too. Here an MST of phase 1 arrives in cycle 5, though the master sent one of phase 0.
const FLIPPED_ROW: Row = Row {
    shows: "six flips that make the MST of phase 1",
    more: "
[[fault]]
kind = 'flip'
cycle = 5
telegram = 'mst'
link = 0
bit = 17

[[fault]]
kind = 'flip'
cycle = 5
telegram = 'mst'
link = 0
bit = 25

[[fault]]
kind = 'flip'
cycle = 5
telegram = 'mst'
link = 0
bit = 28

[[fault]]
kind = 'flip'
cycle = 5
telegram = 'mst'
link = 0
bit = 32

[[fault]]
kind = 'flip'
cycle = 5
telegram = 'mst'
link = 0
bit = 33

[[fault]]
kind = 'flip'
cycle = 5
telegram = 'mst'
link = 0
bit = 37
",
    lines: "m 5 -49 49 ff00
p 5 1 1
p 6 1 0
m 15 -49 49 ff00
m 16 -49 49 ff01
p 16 1 1
m 105 -50 50 ff03
m 106 -49 49 ff04
p 106 1 4
end 300 phase 4 complete 0 refused 0 broken 0 falls 0 unseen 2",
    only: "p 5 *|p 6 *|p 106 *|stop *|fall *|end *",
    ..RUN
};

// Here the AT is lost in one cycle less than ends a step.
const LOST_ROW: Row = Row {
    shows: "step that is answered in the last cycle",
    more: "
[[fault]]
kind = 'lose'
cycle = 13
last = 75
telegram = 'at'
from = 1
link = 1
",
    lines: "p 10 1 1
p 12 1 2
m 162 -50 50 ff03
m 163 -49 49 ff04
p 163 1 4
end 300 phase 4 complete 0 refused 0 broken 0 falls 0 unseen 0",
    only: "p 163 *|stop *|fall *|end *",
    ..RUN
};

const START_UP_ROWS: &[Row] = &[
    Row {
        shows: "first thirteen cycles, whole",
        edits: "cycles = 300 => cycles = 13",
        lines: SHORT,
        ..RUN
    },
    Row {
        shows: "start-up, and a read of a value that grows while it is read",
        more: READ,
        lines: "sercos 1
ring 4 250 250 5 1
drive 1 1 10 6 20 5 10 20 8 8
order 1
m 0 -49 49 ff00
m 9 -49 49 ff00
m 10 -49 49 ff01
p 10 1 1
d 10 2600 72 0100000000
m 11 -49 49 ff01
a 11 1200 72 0100000000
m 12 -49 49 ff02
p 12 1 2
d 12 2600 72 010f000300
a 13 1200 72 0101000000
plan 42 t2 47 t3 98 t4 230 mdt 8
slot 42 1 t1 10 position 1
m 94 -49 49 ff02
m 95 -50 50 ff03
p 95 1 3
m 99 -50 50 ff03
m 100 -49 49 ff04
p 100 1 4
r 105 1 complete faff0000
m 299 -49 49 ff04
end 300 phase 4 complete 1 refused 0 broken 0 falls 0 unseen 0",
        only: "p *|r *|plan *|slot *|stop *|fall *|end *",
        ..RUN
    },
    Row {
        shows: "three drives that answer late",
        texts: THREE_DRIVES,
        lines: "m 9 -49 49 ff00
m 10 -49 49 ff01
p 10 1 1
p 10 2 1
p 10 3 1
m 13 -49 49 ff01
m 14 -49 49 ff02
p 14 1 2
p 14 2 2
p 14 3 2
m 824 -49 49 ff02
m 825 -50 50 ff03
p 825 1 3
p 825 2 3
p 825 3 3
m 837 -50 50 ff03
m 838 -49 49 ff04
p 838 1 4
p 838 2 4
p 838 3 4
end 900 phase 4 complete 0 refused 0 broken 0 falls 0 unseen 0",
        only: "p *|stop *|fall *|end *",
        ..RUN
    },
    Row {
        shows: "longest busy time",
        edits: "cycles = 300 => cycles = 2000 & address = 1 => address = 1\nbusy = 20",
        lines: "p 10 1 1
p 12 1 2
m 1734 -49 49 ff02
m 1735 -50 50 ff03
p 1735 1 3
m 1819 -50 50 ff03
m 1820 -49 49 ff04
p 1820 1 4
end 2000 phase 4 complete 0 refused 0 broken 0 falls 0 unseen 0",
        only: "p *|stop *|fall *|end *",
        ..RUN
    },
    Row {
        shows: "number above its maximum at opening",
        more: "
[[drive.block]]
idn = 'P-0-0010'
attribute = 0x00110001
min = 10
max = 100
data = 200

[[drive.block]]
idn = 'P-0-0011'
attribute = 0x00150001
max_len = 8
",
        lines: "stop 105 check128 1 P-0-0010
end 300 phase 3 complete 0 refused 0 broken 0 falls 0 unseen 0",
        only: "r *|stop *|fall *|end *",
        ..RUN
    },
    Row {
        shows: "cycle time below the drive's minimum",
        edits: "address = 1 => address = 1\ncycle_min = 500",
        lines: "p 10 1 1
p 12 1 2
stop 50 refused 1 S-0-0002 0x7006
end 300 phase 2 complete 0 refused 0 broken 0 falls 0 unseen 0",
        only: "p *|r *|stop *|fall *|end *",
        ..RUN
    },
    Row {
        shows: "rate of 16",
        edits: "rate = 4 => rate = 16",
        lines: "d 10 10400 72 0100000000
a 11 4800 72 0100000000
plan 42 t2 24 t3 52 t4 230 mdt 8
p 95 1 3
p 100 1 4",
        only: "p 9? *|p 1?? *|plan *|stop *|fall *",
        ..RUN
    },
];

const REQUEST_ROWS: &[Row] = &[
    Row {
        shows: "writes of a protected number, of one below its minimum and of too long a list",
        more: "
[[drive.block]]
idn = 'P-0-0010'
attribute = 0x00110001
min = 10
max = 100
data = 50

[[drive.block]]
idn = 'P-0-0011'
attribute = 0x00150001
max_len = 8

[[request]]
drive = 1
kind = 'write'
idn = 'S-0-0006'
data = '0a00'

[[request]]
drive = 1
kind = 'write'
idn = 'P-0-0010'
data = '0500'

[[request]]
drive = 1
kind = 'write'
idn = 'P-0-0011'
data = '00010002000300040005'
",
        lines: "r 104 1 refused 0x7005
r 108 2 refused 0x7006
r 112 3 refused 0x7003
end 300 phase 4 complete 0 refused 3 broken 0 falls 0 unseen 0",
        only: "r *|stop *|fall *|end *",
        ..RUN
    },
    Row {
        shows: "procedure commands of five cycles, and the ATs of phases 3 and 4 that show their ends",
        edits: "address = 1 => address = 1\ncommand = 5",
        more: "
[[drive.block]]
idn = 'P-0-0020'
attribute = 0x00090001

[[request]]
drive = 1
kind = 'command'
idn = 'P-0-0020'
",
        lines: "p 10 1 1
p 12 1 2
m 98 -49 49 ff02
m 99 -50 50 ff03
p 99 1 3
a 105 40 ??? 012*
a 106 40 ??? 012*
m 107 -50 50 ff03
m 108 -49 49 ff04
p 108 1 4
a 114 40 ??? 012*
a 115 40 ??? 012*
r 116 1 complete 0300
end 300 phase 4 complete 1 refused 0 broken 0 falls 0 unseen 0",
        only: "p *|r *|stop *|fall *|end *|a ?? 40 ??? 012*|a 1?? 40 ??? 012*|a 2?? 40 ??? 012*",
        ..RUN
    },
    Row {
        shows: "procedure command that ends with an error",
        edits: "address = 1 => address = 1\ncommand = 5",
        more: "
[[drive.block]]
idn = 'P-0-0020'
attribute = 0x00090001
fails = true

[[request]]
drive = 1
kind = 'command'
idn = 'P-0-0020'
",
        lines: "p 10 1 1
p 12 1 2
m 98 -49 49 ff02
m 99 -50 50 ff03
p 99 1 3
a 105 40 ??? 012*
a 106 40 ??? 012*
m 107 -50 50 ff03
m 108 -49 49 ff04
p 108 1 4
a 114 40 ??? 012*
a 115 40 ??? 012*
r 116 1 complete 0f00
end 300 phase 4 complete 1 refused 0 broken 0 falls 0 unseen 0",
        only: "p *|r *|stop *|fall *|end *|a ?? 40 ??? 012*|a 1?? 40 ??? 012*|a 2?? 40 ??? 012*",
        ..RUN
    },
    Row {
        shows: "reads of a block and of a unit that the drive hasn't",
        more: "
[[request]]
drive = 1
kind = 'read'
idn = 'P-0-0099'

[[request]]
drive = 1
kind = 'read'
idn = 'S-0-0051'
element = 4
",
        lines: "r 101 1 refused 0x1001
r 103 2 refused 0x4001
end 300 phase 4 complete 0 refused 2 broken 0 falls 0 unseen 0",
        only: "r *|stop *|fall *|end *",
        ..RUN
    },
];

const DAMAGED_ROWS: &[Row] = &[
    Row {
        shows: "name of sixty letters, with each second AT lost",
        edits: "idn = \"S-0-0051\" => idn = \"S-0-0051\"\nname = \"AAAAAAAAAAAAAAAAAAAAAAAAAAAAAAAAAAAAAAAAAAAAAAAAAAAAAAAAAAAA\"",
        more: "
[[request]]
drive = 1
kind = 'read'
idn = 'S-0-0051'
element = 2

[[fault]]
kind = 'lose'
cycle = 101
last = 299
every = 2
telegram = 'at'
from = 1
link = 1
",
        lines: "r 166 1 complete 414141414141414141414141414141414141414141414141414141414141414141414141414141414141414141414141414141414141414141414141
end 300 phase 4 complete 1 refused 0 broken 0 falls 0 unseen 0",
        only: "r *|stop *|fall *|end *",
        ..RUN
    },
    Row {
        shows: "write whose answer is lost",
        more: "
[[request]]
drive = 1
kind = 'write'
idn = 'S-0-0047'
data = '01000000'

[[fault]]
kind = 'lose'
cycle = 105
telegram = 'at'
from = 1
link = 1
",
        lines: "r 106 1 complete -
end 300 phase 4 complete 1 refused 0 broken 0 falls 0 unseen 0",
        only: "r *|stop *|fall *|end *",
        ..RUN
    },
    Row {
        shows: "write that a fall ends, and a read after it",
        more: "
[[request]]
drive = 1
kind = 'write'
idn = 'S-0-0047'
data = '01000000'

[[request]]
drive = 1
kind = 'read'
idn = 'S-0-0047'

[[fault]]
kind = 'lose'
cycle = 105
last = 106
telegram = 'at'
from = 1
link = 1
",
        lines: "p 10 1 1
p 12 1 2
p 95 1 3
p 100 1 4
r 106 1 broken
fall 106 at 1
p 107 1 0
p 117 1 1
p 119 1 2
p 202 1 3
p 207 1 4
r 212 2 complete 01000000
end 300 phase 4 complete 1 refused 0 broken 1 falls 1 unseen 0",
        only: "p *|r *|stop *|fall *|end *",
        ..RUN
    },
    Row {
        shows: "drive that misses two MSTs after its ATs were lost",
        more: "
[[fault]]
kind = 'lose'
cycle = 120
last = 121
telegram = 'at'
from = 1
link = 1

[[fault]]
kind = 'deaf'
cycle = 122
last = 123
telegram = 'mst'
station = 1
",
        lines: "p 10 1 1
p 12 1 2
p 95 1 3
p 100 1 4
fall 121 at 1
m 122 -49 49 ff00
p 123 1 0
p 132 1 1
p 134 1 2
p 217 1 3
p 222 1 4
end 300 phase 4 complete 0 refused 0 broken 0 falls 1 unseen 0",
        only: "p *|stop *|fall *|end *",
        ..RUN
    },
    FLIPPED_ROW,
];

const RECOVERY_ROWS: &[Row] = &[
    LOST_ROW,
    Row {
        shows: "step that isn't",
        more: "
[[fault]]
kind = 'lose'
cycle = 13
last = 76
telegram = 'at'
from = 1
link = 1
",
        lines: "p 10 1 1
p 12 1 2
m 76 -49 49 ff02
fall 76 step 1
m 77 -49 49 ff00
m 176 -50 50 ff03
m 177 -49 49 ff04
p 177 1 4
end 300 phase 4 complete 0 refused 0 broken 0 falls 1 unseen 0",
        only: "stop *|fall *|end *",
        ..RUN
    },
    Row {
        shows: "start-up after a hundred lost MSTs",
        edits: "cycles = 300 => cycles = 1100",
        more: "
[[fault]]
kind = 'lose'
cycle = 300
last = 400
telegram = 'mst'
link = 0
",
        lines: "p 10 1 1
p 12 1 2
p 95 1 3
p 100 1 4
p 301 1 0
fall 301 mst
m 410 -49 49 ff00
m 411 -49 49 ff01
p 411 1 1
p 413 1 2
p 496 1 3
p 501 1 4
m 1004 -49 49 ff04
end 1100 phase 4 complete 0 refused 0 broken 0 falls 1 unseen 0",
        only: "p *|fall *|stop *|end *",
        ..RUN
    },
    Row {
        shows: "same stop after a hundred lost MSTs",
        edits: "cycles = 300 => cycles = 1100",
        more: "
[[drive.block]]
idn = 'P-0-0010'
attribute = 0x00110001
min = 10
max = 100
data = 200

[[drive.block]]
idn = 'P-0-0011'
attribute = 0x00150001
max_len = 8

[[fault]]
kind = 'lose'
cycle = 300
last = 400
telegram = 'mst'
link = 0
",
        lines: "stop 105 check128 1 P-0-0010
fall 301 mst
stop 506 check128 1 P-0-0010
end 1100 phase 3 complete 0 refused 0 broken 0 falls 1 unseen 0",
        only: "fall *|stop *|end *",
        ..RUN
    },
    Row {
        shows: "drive that restarts",
        more: "
[[fault]]
kind = 'restart'
cycle = 120
station = 1
",
        lines: "p 10 1 1
p 12 1 2
p 95 1 3
p 100 1 4
p 120 1 0
fall 121 at 1
p 132 1 1
p 134 1 2
p 217 1 3
p 222 1 4
end 300 phase 4 complete 0 refused 0 broken 0 falls 1 unseen 0",
        only: "p *|stop *|fall *|end *",
        ..RUN
    },
    Row {
        shows: "master that restarts",
        more: "
[[fault]]
kind = 'restart'
cycle = 120
station = 0
",
        lines: "p 10 1 1
p 12 1 2
p 95 1 3
p 100 1 4
m 120 -49 49 ff00
p 120 1 0
fall 120 restart
p 130 1 1
p 132 1 2
p 215 1 3
p 220 1 4
end 300 phase 4 complete 0 refused 0 broken 0 falls 1 unseen 0",
        only: "p *|stop *|fall *|end *",
        ..RUN
    },
    Row {
        shows: "master that restarts within a write",
        more: "
[[request]]
drive = 1
kind = 'write'
idn = 'S-0-0047'
data = '01000000'

[[request]]
drive = 1
kind = 'read'
idn = 'S-0-0047'

[[fault]]
kind = 'restart'
cycle = 105
station = 0
",
        lines: "p 10 1 1
p 12 1 2
p 95 1 3
p 100 1 4
p 105 1 0
r 105 1 broken
fall 105 restart
p 205 1 4
r 210 2 complete 01000000
end 300 phase 4 complete 1 refused 0 broken 1 falls 1 unseen 0",
        only: "p 105 *|p 205 *|r *|stop *|fall *|end *",
        ..RUN
    },
];

const GENERATED_ROWS: &[Row] = &[
    Row {
        shows: "one drive",
        words: "sercos gen 1",
        lines: "gen 1 cycles 398 phase4 186 complete 1 refused 0 broken 0 falls 0 unseen 0",
        ..PLAIN
    },
    Row {
        shows: "sixty-four drives",
        words: "sercos gen 64",
        lines: "gen 64 cycles 18102 phase4 10612 complete 64 refused 0 broken 0 falls 0 unseen 0",
        ..PLAIN
    },
];

#[test]
fn runs(rt: HostRuntime) -> Result<(), Fail> {
    check(rt.alloc(), START_UP_ROWS, "")?;
    check(rt.alloc(), REQUEST_ROWS, "")?;
    check(rt.alloc(), DAMAGED_ROWS, "")?;
    check(rt.alloc(), RECOVERY_ROWS, "")?;
    check(rt.alloc(), GENERATED_ROWS, "")
}

// Compares the run of a row, over the script of its document, with the run over links under the same script.
fn check_handed(alloc: Global, written: &Row) -> Result<(), Fail> {
    let document = input_of(alloc, written, "")?;
    let handed = Row {
        more: "",
        ..*written
    };
    let by_links = output(alloc, &handed, "", Some(document.as_str()))?;
    let by_document = output(alloc, written, "", None)?;
    if by_links.as_str() == by_document.as_str() {
        Ok(())
    } else {
        Err(failed(written, "another run if the script is handed in"))
    }
}

#[test]
fn scripts_handed_in(rt: HostRuntime) -> Result<(), Fail> {
    check_handed(rt.alloc(), &FLIPPED_ROW)?;
    check_handed(rt.alloc(), &LOST_ROW)
}
