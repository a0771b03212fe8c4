//! Sources and sinks over std's readers and writers.
ghost use Rattle.std.specs.Prelude.{◌≡◌, ◌<◌, ◌≤◌, length, IfErr, IfOk, OnErr};
ghost use Rattle.sercos_io.specs.Clauses.{ReadsAtMost, WritesAtMost, ReadConsumes, WriteAppends, error_kind, HasCause, HasRoom, AdapterState, raised};

use crate::calls::one_more;
use crate::sink::{Sink, WriteFailed};
use crate::source::{ReadFailed, Source};
use std::io;
use std::io::{ErrorKind, Read, Write};
use std::marker::Model;

/// The number of interrupted calls in a row that makes a read or a write fail.
const MOST_INTERRUPTED: u32 = 1000;

// Reads until a call isn't interrupted, with at most 1,000 calls. Returns the number of interrupted calls, and the result of the last one.
// After 1,000 interrupted calls this is the error `Interrupted`. An error has consumed no byte; then `piece` is unspecified.
fn read_again<R: Read>(reader: &mut R, piece: &mut [u8]) -> (u32, io::Result<usize>)
    ensures bound { ReadsAtMost result.1 piece.new }
    ensures bytes { ReadConsumes (R.remaining reader.old) (R.remaining reader.new) result.1 piece.new }
    ensures most { result.0 ≤ 1000 }
    ensures tries { IfErr result.1 (λ error. error_kind error ≡ ErrorKind.Interrupted → result.0 ≡ 1000) }
{
    'tries: for interrupted in 0..MOST_INTERRUPTED {
        match reader.read(piece) {
            Err(error) if error.kind() == ErrorKind::Interrupted => {}
            answer => return (interrupted, answer),
        }
    }
    (
        MOST_INTERRUPTED,
        Err(io::Error::from(ErrorKind::Interrupted)),
    )
}

// Writes until a call isn't interrupted, with at most 1,000 calls. Returns the number of interrupted calls, and the result of the last one.
// After 1,000 interrupted calls this is the error `Interrupted`. An error has written no byte.
fn write_again<W: Write>(writer: &mut W, piece: &[u8]) -> (u32, io::Result<usize>)
    ensures bound { WritesAtMost result.1 piece.now }
    ensures bytes { WriteAppends (W.contents writer.old) (W.contents writer.new) result.1 piece.now }
    ensures most { result.0 ≤ 1000 }
    ensures tries { IfErr result.1 (λ error. error_kind error ≡ ErrorKind.Interrupted → result.0 ≡ 1000) }
{
    'tries: for interrupted in 0..MOST_INTERRUPTED {
        match writer.write(piece) {
            Err(error) if error.kind() == ErrorKind::Interrupted => {}
            answer => return (interrupted, answer),
        }
    }
    (
        MOST_INTERRUPTED,
        Err(io::Error::from(ErrorKind::Interrupted)),
    )
}

/// A source over a reader of std.
///
/// Contracts see the bytes that the reader has left, if they are known, and the number of reads that failed. This number stops at 2^64 - 1.
#[derive(Drop)]
pub struct StdSource<R: Read> {
    reader: R,
    faults: u64,
}

impl<R: Read> Model for StdSource<R> {
    ghost use Rattle.sercos_io.specs.Adapters.{AdapterState};

    ghost Value = { AdapterState };

    ghost view = { λ s. record { bytes = R.remaining s.reader; faults = s.faults } };
}

impl<R: Read> StdSource<R> {
    /// Returns a source over this reader, with no failed read so far.
    pub fn new(reader: R) -> StdSource<R>
        ensures { result ≡ record { bytes = R.remaining reader; faults = 0 } }
    {
        StdSource { reader, faults: 0 }
    }
}

impl<R: Read> Source for StdSource<R> {
    ghost left = { λ s. s.bytes };

    ghost faults = { λ s. s.faults };

    /// Reads from the reader. A call that was interrupted is repeated, and the 1,000th interruption in a row is a failure. No byte is lost
    /// or read twice. A failure adds 1 to the number of failed reads. Bytes of `piece` after those read are unspecified, and after an error
    /// all of them are. This contract doesn't bound the number of calls of the reader, since std counts none; that of `read_again` does.
    fn read(&mut self, piece: &mut [u8]) -> Result<usize, ReadFailed>
        ensures bound { ReadsAtMost result piece.new }
        ensures bytes { ReadConsumes self.old.bytes self.new.bytes result piece.new }
        ensures cause { HasCause self.old.faults self.new.faults result }
        ensures counted { OnErr result (self.new.faults ≡ raised self.old.faults) }
    {
        let (_interrupted, answer) = read_again(&mut self.reader, piece);
        match answer {
            Ok(count) => Ok(count),
            Err(_) => {
                self.faults = one_more(self.faults);
                Err(ReadFailed)
            }
        }
    }
}

/// A sink over a writer of std. Bytes in a writer's own buffer count as written, so a writer with a buffer is passed as a `&mut` and
/// flushed afterwards.
///
/// Contracts see the bytes that the writer holds, if they are known, and the number of writes that failed. This number stops at 2^64 - 1.
#[derive(Drop)]
pub struct StdSink<W: Write> {
    writer: W,
    faults: u64,
}

impl<W: Write> Model for StdSink<W> {
    ghost use Rattle.sercos_io.specs.Adapters.{AdapterState};

    ghost Value = { AdapterState };

    ghost view = { λ s. record { bytes = W.contents s.writer; faults = s.faults } };
}

impl<W: Write> StdSink<W> {
    /// Returns a sink over this writer, with no failed write so far.
    pub fn new(writer: W) -> StdSink<W>
        ensures { result ≡ record { bytes = W.contents writer; faults = 0 } }
    {
        StdSink { writer, faults: 0 }
    }
}

impl<W: Write> Sink for StdSink<W> {
    ghost held = { λ s. s.bytes };

    ghost faults = { λ s. s.faults };

    /// Writes to the writer. A call that was interrupted is repeated, and the 1,000th interruption in a row is a failure. If the writer
    /// accepts no byte of a piece that isn't empty, that is a failure, too. No byte is lost or written twice. A failure adds 1 to the
    /// number of failed writes. This contract doesn't bound the number of calls of the writer, since std counts none; that of `write_again`
    /// does.
    fn write(&mut self, piece: &[u8]) -> Result<usize, WriteFailed>
        ensures bound { WritesAtMost result piece.now }
        ensures some { IfOk result (λ count. 0 < length piece.now → 0 < count) }
        ensures bytes { WriteAppends self.old.bytes self.new.bytes result piece.now }
        ensures cause { HasCause self.old.faults self.new.faults result }
        ensures room { HasRoom 0 0 result }
        ensures counted { OnErr result (self.new.faults ≡ raised self.old.faults) }
    {
        let (_interrupted, answer) = write_again(&mut self.writer, piece);
        match answer {
            Ok(count) if count > 0 || piece.is_empty() => Ok(count),
            _ => {
                self.faults = one_more(self.faults);
                Err(WriteFailed)
            }
        }
    }
}
