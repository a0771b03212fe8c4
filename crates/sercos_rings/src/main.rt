//! The program of several rings: the top call over standard input and standard output.
#![tactic(auto)]

use sercos_io::{Status, StdSink, StdSource, Words};
use sercos_multi::rings;
use sercos_program::{exit, given_words, unwritten};
use std::io;
use std::io::{BufWriter, Write};
use std::process::ExitCode;

/// The bytes of output that are written at a time.
const PIECE: usize = 32768;

// Runs the command of the words over standard input and standard output, and returns its status. If there is no memory for the buffer of
// the output, the status is `Memory`. If what is left in the buffer can't be written at the end, `Done` and `No` become `WriteFault`.
fn run(rt: &HostRuntime, words: &Words) -> Status {
    let Ok(mut writer) = BufWriter::with_capacity(rt.alloc(), PIECE, io::writer(rt)) else {
        return Status::Memory;
    };
    let mut source = StdSource::new(rt.reader());
    let mut sink = StdSink::new(&mut writer);
    let status = rings(rt.alloc(), words, &mut source, &mut sink);
    match writer.flush() {
        Ok(()) => status,
        Err(_) => unwritten(status),
    }
}

// Exits with the status of `run`; with `BadWords` or `Memory` if the words can't be read.
fn main(rt: HostRuntime) -> ExitCode {
    let status = match given_words(&rt) {
        Ok(words) => run(&rt, &words),
        Err(status) => status,
    };
    exit(&rt, status)
}
