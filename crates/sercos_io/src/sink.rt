//! The interface of the sinks of bytes.
ghost use Rattle.std.specs.Prelude.{ℕ, ◌<◌, List, Option, length, IfOk};
ghost use Rattle.std.specs.Io.{WritesAtMost};
ghost use Rattle.std.specs.Io.KnownBytes.{WriteAppends};
ghost use Rattle.sercos_model.specs.Streams.{HasCause, HasRoom};

use thiserror::Error;

/// The error of a write that failed. The sink's count of faults has risen, or is 2^64 - 1.
#[derive(Clone, Copy, Debug, PartialEq, Eq, Error)]
#[error("the sink could not be written")]
pub struct WriteFailed;

/// A sink of bytes: it accepts them in pieces, and counts the writes that fail.
///
/// `held` are the bytes accepted so far, or `None` if the sink doesn't expose them. `faults` is a count that never falls, and stops at
/// 2^64 - 1. `room` is the number of bytes that the sink is sure to accept without a failure, in any pieces.
pub trait Sink {
    ghost held: { Self → Option (List ℕ) };

    ghost faults: { Self → ℕ };

    ghost room: { Self → ℕ } = { λ _. 0 };

    /// Accepts bytes from the front of `piece`, and returns how many: at least one if `piece` isn't empty, and at most its length. After
    /// `Ok` the count of faults is unchanged. After an error the sink has accepted nothing, and its count of faults has risen or is
    /// 2^64 - 1. While the room isn't 0, a write returns `Ok`, and the room falls by at most the number of bytes accepted.
    fn write(&mut self, piece: &[u8]) -> Result<usize, WriteFailed>
        ensures bound { WritesAtMost result piece.now }
        ensures some { IfOk result (λ count. 0 < length piece.now → 0 < count) }
        ensures bytes { WriteAppends (held self.old) (held self.new) result piece.now }
        ensures cause { HasCause (faults self.old) (faults self.new) result }
        ensures room { HasRoom (room self.old) (room self.new) result };
}
