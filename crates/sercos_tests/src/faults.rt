// What a program answers if its source or its sink fails, and if memory does.
use crate::texts::{CAPTURE, FIRST, ONE_DRIVE, READ, REST, TWO_DRIVES};
use sercos_io::Status;
use sercos_rows::{
    PLAIN, Row, SOUND_READS, SOUND_WRITES, answer_by, answer_in_memory, failed, input_of,
};
use std::alloc::Global;
use std::test::Fail;

const LINE: &str = "raw 49 7edf010ee1fd00\n";

// A row whose source or sink fails.
#[derive(Clone, Copy)]
struct Faulty {
    row: Row,
    // the most bytes of a read and of a write
    piece: u32,
    // whether it is reads that fail, and not writes
    reads: bool,
    // the first call that fails, and the last; one fails in each run, and the call 0 is never made
    first: u32,
    last: u32,
    // the room of the sink
    room: usize,
}

const READ_RUN: Row = Row {
    words: "sercos run",
    texts: &[FIRST, REST, READ],
    ..PLAIN
};

const FAULTY: Faulty = Faulty {
    row: PLAIN,
    piece: 1,
    reads: false,
    first: 0,
    last: 0,
    room: 65536,
};

const ROWS: &[Faulty] = &[
    // Each of the four reads of an input in three pieces fails in turn: nothing is written.
    Faulty {
        row: Row {
            shows: "failing reads of `show`",
            words: "sercos show",
            texts: &[LINE],
            status: Status::ReadFault,
            ..PLAIN
        },
        piece: 8,
        reads: true,
        first: 1,
        last: 4,
        ..FAULTY
    },
    Faulty {
        row: Row {
            shows: "failing reads of `plan`",
            words: "sercos plan",
            texts: TWO_DRIVES,
            status: Status::ReadFault,
            ..PLAIN
        },
        piece: 200,
        reads: true,
        first: 1,
        last: 4,
        ..FAULTY
    },
    Faulty {
        row: Row {
            shows: "failing reads of `check`",
            words: "sercos check",
            texts: &[CAPTURE],
            status: Status::ReadFault,
            ..PLAIN
        },
        piece: 60,
        reads: true,
        first: 1,
        last: 4,
        ..FAULTY
    },
    Faulty {
        row: Row {
            shows: "failing reads of `run`",
            status: Status::ReadFault,
            ..READ_RUN
        },
        piece: 150,
        reads: true,
        first: 1,
        last: 4,
        ..FAULTY
    },
    // All writes of a plan and of a verdict fail in turn, and the first two hundred of a run, which writes each line by one call: no
    // more is held than the writes before took.
    Faulty {
        row: Row {
            shows: "failing writes of `plan`",
            words: "sercos plan",
            texts: TWO_DRIVES,
            status: Status::WriteFault,
            ..PLAIN
        },
        piece: 8,
        first: 1,
        last: 10,
        ..FAULTY
    },
    Faulty {
        row: Row {
            shows: "failing writes of `check`",
            words: "sercos check",
            texts: &[CAPTURE],
            status: Status::WriteFault,
            ..PLAIN
        },
        piece: 3,
        first: 1,
        last: 3,
        ..FAULTY
    },
    Faulty {
        row: Row {
            shows: "failing writes of `run`",
            status: Status::WriteFault,
            ..READ_RUN
        },
        piece: 1000,
        first: 1,
        last: 200,
        ..FAULTY
    },
    // A source that returns a byte a call, and a sink that accepts one: the answer is written whole.
    Faulty {
        row: Row {
            shows: "single bytes",
            ..READ_RUN
        },
        ..FAULTY
    },
    // Sinks without room, and a first write that fails; a refusal stays one if its line can't be written.
    Faulty {
        row: Row {
            shows: "`show` into seven bytes",
            words: "sercos show",
            texts: &[LINE],
            status: Status::WriteFault,
            ..PLAIN
        },
        piece: 5,
        room: 7,
        ..FAULTY
    },
    Faulty {
        row: Row {
            shows: "refusal into seven bytes",
            words: "sercos show",
            texts: &["raw x\n"],
            status: Status::Refused,
            ..PLAIN
        },
        piece: 5,
        room: 7,
        ..FAULTY
    },
    Faulty {
        row: Row {
            shows: "refusal into no byte",
            words: "sercos plan",
            texts: &["drive = [{}]\n[ring]\nspeed = 3\n"],
            status: Status::Refused,
            ..PLAIN
        },
        piece: 9,
        first: 1,
        last: 1,
        room: 0,
        ..FAULTY
    },
    Faulty {
        row: Row {
            shows: "`run` into forty bytes",
            words: "sercos run",
            texts: ONE_DRIVE,
            status: Status::WriteFault,
            ..PLAIN
        },
        piece: 100,
        room: 40,
        ..FAULTY
    },
];

// The most bytes that the sink may hold if a call fails.
fn most_held(faulty: &Faulty, call: u32) -> usize {
    if faulty.reads {
        0
    } else if call == 0 {
        faulty.room
    } else {
        faulty.piece.saturating_mul(call - 1) as usize
    }
}

// Runs a row of which a call fails: a prefix of the whole answer is held, and all of it if the status is Done.
fn check_call(
    alloc: Global,
    faulty: &Faulty,
    input: &[u8],
    whole: &[u8],
    call: u32,
) -> Result<(), Fail> {
    let (read, write) = if faulty.reads { (call, 0) } else { (0, call) };
    let piece = faulty.piece.max(1);
    let (status, sink) = answer_by(
        alloc,
        faulty.row.words,
        input,
        (piece, read),
        (piece, write, faulty.room),
        None,
    )?;
    let held = sink.as_slice();
    let is_held = held.len() <= most_held(faulty, call) && whole.starts_with(held);
    if status == faulty.row.status
        && is_held
        && (status != Status::Done || held.len() == whole.len())
    {
        Ok(())
    } else {
        Err(failed(&faulty.row, status.name()))
    }
}

fn check_calls(alloc: Global, faulty: &Faulty) -> Result<(), Fail> {
    let input = input_of(alloc, &faulty.row, "")?;
    let input = input.as_str().as_bytes();
    let words = faulty.row.words;
    let (_sound, whole) = answer_by(alloc, words, input, SOUND_READS, SOUND_WRITES, None)?;
    for call in faulty.first..faulty.last.saturating_add(1) {
        check_call(alloc, faulty, input, whole.as_slice(), call)?;
    }
    Ok(())
}

#[test]
fn faults(rt: HostRuntime) -> Result<(), Fail> {
    for faulty in ROWS {
        check_calls(rt.alloc(), faulty)?;
    }
    Ok(())
}

// Over a source that never fails and a sink with room, with ample memory, the answer is written whole.
#[test]
fn answered_in_memory(rt: HostRuntime) -> Result<(), Fail> {
    let (status, sink) = answer_in_memory(rt.alloc(), "show", LINE.as_bytes(), 128)?;
    if status == Status::Done && sink.as_slice() == b"ok ff00\n".as_slice() {
        Ok(())
    } else {
        Err(Fail::new(status.name()))
    }
}

// If the words and the input are there and an allocation then fails, the status is Memory and nothing is written.
// With ample memory the other tests compare the answer; this one is for runs in which each allocation fails in turn.
#[test]
fn memory(rt: HostRuntime) -> Result<(), Fail> {
    let input = LINE.as_bytes();
    let answered = answer_by(rt.alloc(), "sercos show", input, (7, 0), (5, 0, 4096), None);
    if let Ok((status, sink)) = answered {
        let is_done = status == Status::Done;
        let is_memory = status == Status::Memory;
        if !is_done && !is_memory || is_done == sink.as_slice().is_empty() {
            return Err(Fail::new(status.name()));
        }
    }
    Ok(())
}
