//! The interface of the sources of bytes.
ghost use Rattle.std.specs.Prelude.{ℕ, List, Option};
ghost use Rattle.std.specs.Io.{ReadsAtMost};
ghost use Rattle.std.specs.Io.KnownBytes.{ReadConsumes};
ghost use Rattle.sercos_model.specs.Streams.{HasCause};

use thiserror::Error;

/// The error of a read that failed. The source's count of faults has risen, or is 2^64 - 1.
#[derive(Clone, Copy, Debug, PartialEq, Eq, Error)]
#[error("the source could not be read")]
pub struct ReadFailed;

/// A source of bytes: it returns them in pieces, and counts the reads that fail.
///
/// `left` are the bytes not read yet, or `None` if the source doesn't expose them. `faults` is a count that never falls, and stops at
/// 2^64 - 1.
pub trait Source {
    ghost left: { Self → Option (List ℕ) };

    ghost faults: { Self → ℕ };

    /// Reads bytes into the front of `piece`, and returns how many. A 0 for a piece that isn't empty means that the source is at its end.
    /// After `Ok` the count of faults is unchanged, and the bytes of `piece` after those read are unspecified. After an error nothing has
    /// been taken from the source, its count of faults has risen or is 2^64 - 1, and `piece` is unspecified.
    fn read(&mut self, piece: &mut [u8]) -> Result<usize, ReadFailed>
        ensures bound { ReadsAtMost result piece.new }
        ensures bytes { ReadConsumes (left self.old) (left self.new) result piece.new }
        ensures cause { HasCause (faults self.old) (faults self.new) result };
}
