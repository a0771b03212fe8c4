// The answers of the programs.
ghost use Rattle.std.specs.Prelude.{◌≤◌};

use sercos_app::{Clean, sercos};
use sercos_config::{generate, read_ring};
use sercos_io::{MemorySink, MemorySource, PlainSource, Status, Words};
use sercos_multi::rings;
use sercos_script::Scripted;
use std::alloc::{AllocError, Global};

/// Reads of which none fails: the most bytes of a read, and the read that fails. The read 0 is never made.
pub const SOUND_READS: (u32, u32) = (4096, 0);

/// Writes of which none fails, with room for any output of these tests: the most bytes of a write, the write that fails, and the room.
pub const SOUND_WRITES: (u32, u32, usize) = (1000, 0, 2_097_152);

// The words of a line.
fn words_of(alloc: Global, line: &str) -> Result<Words, AllocError> {
    let mut words = Words::new(alloc);
    for word in line.split_whitespace() {
        words.push(word)?;
    }
    Ok(words)
}

/// Why a program isn't run.
#[derive(Clone, Copy, Debug)]
pub enum NotRun {
    Memory,
    /// The document of the script is none of a ring.
    Script,
}

impl From<AllocError> for NotRun {
    fn from(_error: AllocError) -> NotRun {
        NotRun::Memory
    }
}

// The links of a ring of one drive under the script of a document.
fn links_of(alloc: Global, document: &str) -> Result<Scripted, NotRun> {
    match read_ring(alloc, document.as_bytes()) {
        Ok(read) => Ok(Scripted::new(read.faults, 1)),
        Err(_) => Err(NotRun::Script),
    }
}

// Runs `sercos_rings`, or `sercos` with links handed in: those without faults, or those under the script of a document.
fn status_of(
    alloc: Global,
    program: &str,
    words: &Words,
    source: &mut MemorySource,
    sink: &mut MemorySink,
    script: Option<&str>,
) -> Result<Status, NotRun> {
    if program == "sercos_rings" {
        return Ok(rings(alloc, words, source, sink));
    }
    let Some(document) = script else {
        return Ok(sercos(alloc, words, source, sink, Clean));
    };
    let links = links_of(alloc, document)?;
    Ok(sercos(alloc, words, source, sink, links))
}

/// Runs a program, whose name is the first of the words, over an input; `sercos` over links under the script of a document, if one is
/// handed in. Returns its status and what it wrote.
pub fn answer_by(
    alloc: Global,
    words: &str,
    input: &[u8],
    read: (u32, u32),
    write: (u32, u32, usize),
    script: Option<&str>,
) -> Result<(Status, MemorySink), NotRun>
    requires { (1 ≤ read.0) × (1 ≤ write.0) }
{
    let (program, line) = words.split_once(" ").unwrap_or((words, ""));
    let words = words_of(alloc, line)?;
    let failing = Vec::from_slice(alloc, &[read.1])?;
    let mut source = MemorySource::new(Vec::from_slice(alloc, input)?, read.0, failing);
    let failing = Vec::from_slice(alloc, &[write.1])?;
    let mut sink = MemorySink::new(Vec::with_capacity(alloc, write.2)?, write.0, failing);
    let status = status_of(alloc, program, &words, &mut source, &mut sink, script)?;
    Ok((status, sink))
}

/// Runs `sercos` over an input that is read without faults, and a sink with room for a number of bytes.
pub fn answer_in_memory(
    alloc: Global,
    line: &str,
    input: &[u8],
    room: usize,
) -> Result<(Status, MemorySink), AllocError> {
    let words = words_of(alloc, line)?;
    let mut source = PlainSource::new(Vec::from_slice(alloc, input)?);
    let mut sink = MemorySink::new(Vec::with_capacity(alloc, room)?, 128, Vec::new(alloc));
    let status = sercos_app::answer_in_memory(alloc, &words, &mut source, &mut sink, Clean);
    Ok((status, sink))
}

/// Returns whether a text is the document that is generated for 64 drives.
pub fn is_generated(alloc: Global, text: &str) -> Result<bool, AllocError> {
    let Ok(read) = read_ring(alloc, text.as_bytes()) else {
        return Ok(false);
    };
    let made = generate(alloc, 64)?;
    Ok(
        read.jobs.as_slice() == made.jobs.as_slice()
            && read.faults.as_slice() == made.faults.as_slice()
            && read.setup.wishes() == made.setup.wishes(),
    )
}
