//! A whole input, read from a source, and a whole text, written to a sink.
ghost use Rattle.std.specs.Prelude.{◌≡◌, ℕ, ◌+◌, ◌<◌, ◌≤◌, List, length, take, IfOk, OnOk, OnErr, IfErr, IsOk, IsErrOf};
ghost use Rattle.sercos_io.specs.Clauses.{Appends, Consumes, IsAtEnd, HasCause, HasTaken, ReadAllHasCause};

use crate::sink::{Sink, WriteFailed};
use crate::source::Source;
use std::alloc::Global;
use thiserror::Error;

/// The most bytes of an input.
const MOST_BYTES: usize = 1_048_576;

/// The most bytes that are requested at once.
const PIECE_BYTES: usize = 8192;

/// Why an input could not be read to its end.
#[derive(Clone, Copy, Debug, PartialEq, Eq, Error)]
pub enum ReadAll {
    /// A read failed. The source's count of faults has risen, or is 2^64 - 1.
    #[error("the source could not be read")]
    ReadFault,
    /// The source has more than 1,048,576 bytes. Exactly 1,048,577 were taken from it.
    #[error("the source has more than 1048576 bytes")]
    TooLong,
    /// Out of memory for the bytes.
    #[error("out of memory")]
    Memory,
}

/// Returns the bytes of a source up to its end, at most 1,048,576 of them (this profile).
///
/// - The error is `TooLong` if the source has more bytes. Exactly 1,048,577 were taken from it.
/// - It is `ReadFault` if a read failed. At most 1,048,576 bytes were taken, and the source's count of faults has risen or is 2^64 - 1.
/// - It is `Memory` if `alloc` has no memory for the bytes. At most 1,048,576 were taken.
///
/// After any error the bytes that were taken are lost. The count of faults is unchanged unless the error is `ReadFault`.
pub fn read_all<S: Source>(alloc: Global, source: &mut S) -> Result<Vec<u8>, ReadAll>
    ensures ok { IfOk result (λ bytes. Consumes (S.left source.old) (S.left source.new) bytes.items
        × IsAtEnd (S.left source.new) × (length bytes.items ≤ 1048576)) }
    ensures too_long { IsErrOf result ReadAll.TooLong → (taken : List ℕ)
        × Consumes (S.left source.old) (S.left source.new) taken × (length taken ≡ 1048577) }
    ensures lost { IfErr result (λ why. (taken : List ℕ)
        × Consumes (S.left source.old) (S.left source.new) taken × HasTaken why taken) }
    ensures cause { ReadAllHasCause (S.faults source.old) (S.faults source.new) result }
{
    let mut bytes = Vec::new(alloc);
    let mut piece = [0u8; PIECE_BYTES];
    'pieces: loop {
        // One byte more than the limit is requested, so that a longer input is detected.
        let wanted = (MOST_BYTES + 1 - bytes.len()).min(PIECE_BYTES);
        let Ok(count) = source.read(&mut piece[..wanted]) else {
            return Err(ReadAll::ReadFault);
        };
        if count == 0 {
            return Ok(bytes);
        }
        if bytes.len() + count > MOST_BYTES {
            return Err(ReadAll::TooLong);
        }
        if bytes.extend_from_slice(&piece[..count]).is_err() {
            return Err(ReadAll::Memory);
        }
    }
}

/// Writes all the bytes to a sink. After an error the sink has accepted a proper prefix of them. The sink's count of faults is unchanged if
/// the result is `Ok`; otherwise it has risen or is 2^64 - 1. There is no error if the sink's room is at least the number of bytes. The
/// room falls by at most this number.
pub fn write_all<K: Sink>(sink: &mut K, bytes: &[u8]) -> Result<(), WriteFailed>
    ensures ok { OnOk result (Appends (K.held sink.old) (K.held sink.new) bytes.now) }
    ensures err { OnErr result ((count : ℕ) × (count < length bytes.now)
        × Appends (K.held sink.old) (K.held sink.new) (take count bytes.now)) }
    ensures cause { HasCause (K.faults sink.old) (K.faults sink.new) result }
    ensures room { length bytes.now ≤ K.room sink.old → IsOk result }
    ensures room_left { K.room sink.old ≤ K.room sink.new + length bytes.now }
{
    let mut place = 0;
    while place < bytes.len() {
        place += sink.write(&bytes[place..])?;
    }
    Ok(())
}
