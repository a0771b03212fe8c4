// The texts that the rows are made from.

// The ring, and its first drive up to its T1min.
pub const FIRST: &str = "[ring]
rate = 4
cycle = 250
gap = 5
cycles = 300

[[drive]]
address = 1
t1min = 10
";

// Another drive, with a slave of its own and a later AT.
pub const SECOND: &str = "
[[drive]]
address = 2
t1min = 12
";

// What follows in each drive. Its AT has the feedback value S-0-0051, which grows by 10 in each cycle, and its data record the command
// value S-0-0047.
pub const REST: &str = r#"tatmt = 6
t4min = 20
tatat = 5
tmtsy = 10
tmtsg = 20
at = ["S-0-0051"]
mdt = ["S-0-0047"]

[[drive.block]]
idn = "S-0-0047"
attribute = 0x00220001

[[drive.block]]
idn = "S-0-0051"
attribute = 0x00220001
data = 64500
step = 10
"#;

// A ring of one drive, and of two.
pub const ONE_DRIVE: &[&str] = &[FIRST, REST];

pub const TWO_DRIVES: &[&str] = &[FIRST, REST, SECOND, REST];

const RING_OF_THREE: &str = "[ring]
rate = 4
cycle = 1000
gap = 10
cycles = 900
";

// What follows the address of each drive of three: two values in each AT and in each data record. A step of the service channel is
// answered two cycles later than it could be, and a procedure command takes three cycles.
const ONE_OF_THREE: &str = r#"busy = 2
command = 3
t1min = 20
tatmt = 15
t4min = 100
tatat = 20
tmtsy = 20
tmtsg = 50
at = ["S-0-0051", "S-0-0040"]
mdt = ["S-0-0047", "S-0-0036"]

[[drive.block]]
idn = "S-0-0036"
attribute = 0x00220001

[[drive.block]]
idn = "S-0-0040"
attribute = 0x00220001

[[drive.block]]
idn = "S-0-0047"
attribute = 0x00220001

[[drive.block]]
idn = "S-0-0051"
attribute = 0x00220001
"#;

pub const THREE_DRIVES: &[&str] = &[
    RING_OF_THREE,
    "\n[[drive]]\naddress = 1\n",
    ONE_OF_THREE,
    "\n[[drive]]\naddress = 2\n",
    ONE_OF_THREE,
    "\n[[drive]]\naddress = 3\n",
    ONE_OF_THREE,
];

// A request and a fault of a ring of one drive.
pub const READ: &str = r#"
[[request]]
drive = 1
kind = "read"
idn = "S-0-0051"
"#;

// A cycle of phase 3 of two drives, up to their ATs.
pub const CAPTURE: &str = "sercos 1
ring 4 250 250 5 2
drive 1 1 10 6 20 5 10 20 8 8
drive 2 2 12 6 20 5 10 20 8 8
order 1 2
m 0 -50 50 ff03
a 0 40 105 010000000000000000
a 0 184 104 020000000000000000
";

// The trace of the first thirteen cycles of the ring of one drive. The drive is identified in cycle 10, and its AT shows that in
// 11; in 12 the master opens the first identifier number.
pub const SHORT: &str = "sercos 1
ring 4 250 250 5 1
drive 1 1 10 6 20 5 10 20 8 8
order 1
m 0 -49 49 ff00
m 1 -49 49 ff00
m 2 -49 49 ff00
m 3 -49 49 ff00
m 4 -49 49 ff00
m 5 -49 49 ff00
m 6 -49 49 ff00
m 7 -49 49 ff00
m 8 -49 49 ff00
m 9 -49 49 ff00
m 10 -49 49 ff01
p 10 1 1
d 10 2600 72 0100000000
m 11 -49 49 ff01
a 11 1200 72 0100000000
m 12 -49 49 ff02
p 12 1 2
d 12 2600 72 010f000300
end 13 phase 2 complete 0 refused 0 broken 0 falls 0 unseen 0
";
