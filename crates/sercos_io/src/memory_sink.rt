//! A sink into memory.
ghost use Rattle.std.specs.Prelude.{◌≡◌, ◌↔◌, ◌+◌, ◌-◌, ◌<◌, ◌≤◌, ◌⊎◌, ◌++◌, Some, min, length, take, vec_len, vec_capacity, Contains, IfOk, OnErr, IsErr};
ghost use Rattle.sercos_io.specs.Clauses.{WritesAtMost, WriteAppends, HasCause, HasRoom, raised, room_of};

use crate::calls::{is_listed, one_more};
use crate::sink::{Sink, WriteFailed};
use std::marker::Model;

/// A sink that appends bytes to a `Vec` up to its capacity, in pieces of bounded size, and fails the calls with the listed numbers.
///
/// Contracts see a record: the bytes `held`; the number of bytes that still fit, `spare`; the most bytes of a call, `piece`; the numbers of
/// the calls that fail, `failing`; and the numbers of all calls and of failed calls so far, `calls` and `faults`, which stop at 2^64 - 1.
/// The sink's room is the number of spare bytes if no call is listed and `faults` is below 2^64 - 1, otherwise 0.
#[derive(Drop)]
pub struct MemorySink {
    bytes: Vec<u8>,
    spare: usize,
    piece: u32,
    failing: Vec<u32>,
    calls: u64,
    faults: u64,
}

impl Model for MemorySink {
    ghost use Rattle.std.specs.Prelude.{◌+◌, ◌≤◌, vec_len, vec_capacity};
    ghost use Rattle.sercos_io.specs.Memory.{SinkState};

    ghost Value = { SinkState };

    ghost view = { λ s. record {
      held = s.bytes.items;
      spare = s.spare;
      piece = s.piece;
      failing = s.failing.items;
      calls = s.calls;
      faults = s.faults;
    } };

    ghost invariant = { λ s. (vec_len s.bytes + s.spare ≤ vec_capacity s.bytes) × (1 ≤ s.piece) };
}

impl MemorySink {
    /// Returns a sink that appends to `room` up to its capacity. It accepts at most `piece` bytes a call, which is at least 1, and fails
    /// the calls whose numbers, counted from 1, are in `failing`.
    pub fn new(room: Vec<u8>, piece: u32, failing: Vec<u32>) -> MemorySink
        requires { 1 ≤ piece }
        ensures { result ≡ record {
          held = room.items;
          spare = vec_capacity room - vec_len room;
          piece = piece;
          failing = failing.items;
          calls = 0;
          faults = 0;
        } }
    {
        MemorySink {
            spare: room.capacity() - room.len(),
            bytes: room,
            piece,
            failing,
            calls: 0,
            faults: 0,
        }
    }

    /// Returns the bytes held: those that the `Vec` had first, and those accepted since.
    pub fn as_slice(&self) -> &[u8]
        ensures { result.now ≡ self.now.held }
    {
        self.bytes.as_slice()
    }
}

impl Sink for MemorySink {
    ghost held = { λ s. Some s.held };

    ghost faults = { λ s. s.faults };

    ghost room = { room_of };

    /// Accepts bytes from the front of `piece`, and returns how many: the least of the most bytes of a call, the length of `piece` and the
    /// spare bytes. A call fails iff its number is listed, or no byte is spare and `piece` isn't empty. Then no byte is accepted, and
    /// `faults` rises by 1. Each call raises `calls` by 1.
    fn write(&mut self, piece: &[u8]) -> Result<usize, WriteFailed>
        ensures bound { WritesAtMost result piece.now }
        ensures some { IfOk result (λ count. 0 < length piece.now → 0 < count) }
        ensures bytes { WriteAppends (Some self.old.held) (Some self.new.held) result piece.now }
        ensures cause { HasCause self.old.faults self.new.faults result }
        ensures room { HasRoom (room_of self.old) (room_of self.new) result }
        ensures fails { IsErr result ↔ (Contains self.old.failing (raised self.old.calls)
            ⊎ ((self.old.spare ≡ 0) × (0 < length piece.now))) }
        ensures count { IfOk result (λ count.
            count ≡ min self.old.piece (min (length piece.now) self.old.spare)) }
        ensures ok { IfOk result (λ count. self.new ≡ record self.old {
          held = self.old.held ++ take count piece.now;
          spare = self.old.spare - count;
          calls = raised self.old.calls;
        }) }
        ensures err { OnErr result (self.new ≡ record self.old {
          calls = raised self.old.calls;
          faults = raised self.old.faults;
        }) }
    {
        self.calls = one_more(self.calls);
        let is_full = self.spare == 0 && !piece.is_empty();
        if is_full || is_listed(&self.failing, self.calls) {
            self.faults = one_more(self.faults);
            return Err(WriteFailed);
        }
        let count = (self.piece as usize).min(piece.len().min(self.spare));
        self.bytes.extend_from_slice(&piece[..count]).unwrap();
        self.spare -= count;
        Ok(count)
    }
}
