//! A text, written in pieces to a sink.
ghost use Rattle.std.specs.Prelude.{ℕ, ◌+◌, ◌<◌, ◌≤◌, length, take, map, OnOk, OnErr, IsOk};
ghost use Rattle.sercos_io.specs.Clauses.{Appends, concat, HasCause};

use crate::sink::{Sink, WriteFailed};
use crate::whole::write_all;

/// Writes all the pieces of a text to a sink, one after the other. After an error the sink has accepted a proper prefix of the text. The
/// sink's count of faults is unchanged if the result is `Ok`; otherwise it has risen or is 2^64 - 1. There is no error if the sink's room
/// is at least the length of the text. The room falls by at most this length.
pub fn write_pieces<K: Sink>(sink: &mut K, pieces: &[&[u8]]) -> Result<(), WriteFailed>
    ensures ok { OnOk result (Appends (K.held sink.old) (K.held sink.new)
        (concat (map (λ p. p.now) pieces.now))) }
    ensures err { OnErr result ((count : ℕ) × (count < length (concat (map (λ p. p.now) pieces.now)))
        × Appends (K.held sink.old) (K.held sink.new) (take count (concat (map (λ p. p.now) pieces.now)))) }
    ensures cause { HasCause (K.faults sink.old) (K.faults sink.new) result }
    ensures room { length (concat (map (λ p. p.now) pieces.now)) ≤ K.room sink.old → IsOk result }
    ensures room_left { K.room sink.old ≤ K.room sink.new + length (concat (map (λ p. p.now) pieces.now)) }
{
    for piece in pieces {
        write_all(sink, *piece)?;
    }
    Ok(())
}
