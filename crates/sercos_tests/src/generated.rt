// The document that is generated for 64 drives, written out as a text.
use sercos_rows::{PLAIN, Row, check, is_generated, output, push_number};
use std::alloc::{AllocError, Global};
use std::test::Fail;

const RING: &str = "[ring]
rate = 4
cycle = 4000
cycles = 10613
";

// What all drives have, and the head of a request.
const DRIVE: &str = "tatmt = 6
t4min = 20
tatat = 5
tmtsy = 10
tmtsg = 20
at = ['S-0-0051']
mdt = ['S-0-0047']
[[drive.block]]
idn = 'S-0-0047'
attribute = 0x00220001
[[drive.block]]
idn = 'S-0-0051'
attribute = 0x00220001
data = 64500
step = 10
[[request]]
kind = 'read'
idn = 'S-0-0051'
";

// A fault.
const FAULT: &str = "[[fault]]
kind = 'lose'
telegram = 'at'
link = 64
";

// Drive k, with its request and its fault.
fn push_drive(text: &mut String, k: u8) -> Result<(), AllocError> {
    let k = u32::from(k);
    text.push_str("[[drive]]\n")?;
    push_number(text, "address", k)?;
    push_number(text, "slave", k.div_ceil(2))?;
    push_number(text, "busy", k % 3)?;
    push_number(text, "command", k % 4)?;
    push_number(text, "t1min", 20 + k % 7)?;
    text.push_str(DRIVE)?;
    push_number(text, "drive", k)?;
    text.push_str(FAULT)?;
    push_number(text, "from", k)?;
    push_number(text, "cycle", 37 * k)
}

// The text of the document, with as many cycles as come to the first one that is commanded phase 4.
fn written(alloc: Global) -> Result<String, AllocError> {
    let mut text = String::from_str(alloc, RING)?;
    for k in 1..65 {
        push_drive(&mut text, k)?;
    }
    Ok(text)
}

// The generator makes the document of this text.
#[test]
fn generated_document(rt: HostRuntime) -> Result<(), Fail> {
    let text = written(rt.alloc())?;
    if is_generated(rt.alloc(), text.as_str())? {
        Ok(())
    } else {
        Err(Fail::new("another document"))
    }
}

const DRIVES_64_ROWS: &[Row] = &[
    Row {
        shows: "plan of sixty-four drives",
        words: "sercos plan",
        lines: "plan t2 2326 t3 3586 t4 3980 mdt 512
slot 64 t1 2289 position 505",
        only: "plan *|slot 64 *",
        ..PLAIN
    },
    Row {
        shows: "start-up of sixty-four drives",
        words: "sercos run",
        lines: "sercos 1
ring 4 4000 4000 5 64
drive 1 1 21 6 20 5 10 20 8 8
drive 64 32 21 6 20 5 10 20 8 8
m 0 -49 49 ff00
m 74 -49 49 ff01
m 75 -49 49 ff02
m 10598 -49 49 ff02
m 10599 -50 50 ff03
m 10611 -50 50 ff03
m 10612 -49 49 ff04
end 10613 phase 4 complete 0 refused 0 broken 0 falls 0 unseen 0",
        only: "stop *|fall *|end *",
        ..PLAIN
    },
];

const STARTED: Row = Row {
    shows: "trace of sixty-four drives",
    words: "sercos run",
    ..PLAIN
};

// Over the document and the trace of its start-up: no AT that is lost hits a drive that sends.
const REPLAYED_64_ROWS: &[Row] = &[
    Row {
        shows: "last of sixty-four drives in its own run",
        words: "sercos replay 64",
        lines: "agrees 10613",
        ..PLAIN
    },
    Row {
        shows: "master of sixty-four drives in its own run",
        words: "sercos replay 0",
        lines: "agrees 10613",
        ..PLAIN
    },
];

#[test]
fn sixty_four_drives(rt: HostRuntime) -> Result<(), Fail> {
    let alloc = rt.alloc();
    let mut text = written(alloc)?;
    check(alloc, DRIVES_64_ROWS, text.as_str())?;
    let trace = output(alloc, &STARTED, text.as_str(), None)?;
    text.push_str("capture\n")?;
    text.push_str(trace.as_str())?;
    check(alloc, REPLAYED_64_ROWS, text.as_str())
}
