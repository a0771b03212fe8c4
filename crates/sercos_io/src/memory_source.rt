//! A source over bytes in memory, with calls that fail.
ghost use Rattle.std.specs.Prelude.{◌≡◌, ◌↔◌, ◌≤◌, ◌++◌, Some, min, length, take, drop, Contains, IfOk, OnErr, IsErr};
ghost use Rattle.sercos_io.specs.Clauses.{ReadsAtMost, ReadConsumes, HasCause, raised};

use crate::calls::{copy_front, is_listed, one_more};
use crate::source::{ReadFailed, Source};
use std::marker::Model;

/// A source that returns the bytes of a `Vec` in pieces of bounded size, and fails the calls with the listed numbers.
///
/// Contracts see a record: the bytes not read yet, `left`; the most bytes of a call, `piece`; the numbers of the calls that fail,
/// `failing`; and the numbers of all calls and of failed calls so far, `calls` and `faults`, which stop at 2^64 - 1.
#[derive(Drop)]
pub struct MemorySource {
    bytes: Vec<u8>,
    place: usize,
    piece: u32,
    failing: Vec<u32>,
    calls: u64,
    faults: u64,
}

impl Model for MemorySource {
    ghost use Rattle.std.specs.Prelude.{◌≤◌, length, drop};
    ghost use Rattle.sercos_io.specs.Memory.{SourceState};

    ghost Value = { SourceState };

    ghost view = { λ s. record {
      left = drop s.place s.bytes.items;
      piece = s.piece;
      failing = s.failing.items;
      calls = s.calls;
      faults = s.faults;
    } };

    ghost invariant = { λ s. (s.place ≤ length s.bytes.items) × (1 ≤ s.piece) };
}

impl MemorySource {
    /// Returns a source of these bytes. It returns at most `piece` bytes a call, which is at least 1, and fails the calls whose numbers,
    /// counted from 1, are in `failing`.
    pub fn new(bytes: Vec<u8>, piece: u32, failing: Vec<u32>) -> MemorySource
        requires { 1 ≤ piece }
        ensures { result ≡ record {
          left = bytes.items;
          piece = piece;
          failing = failing.items;
          calls = 0;
          faults = 0;
        } }
    {
        MemorySource {
            bytes,
            place: 0,
            piece,
            failing,
            calls: 0,
            faults: 0,
        }
    }
}

impl Source for MemorySource {
    ghost left = { λ s. Some s.left };

    ghost faults = { λ s. s.faults };

    /// Reads the next bytes into the front of `piece`, and returns how many: the least of the most bytes of a call, the length of `piece`
    /// and the bytes left. The other bytes of `piece` are unchanged. A call fails iff its number is listed. Then nothing is read, `piece`
    /// is unchanged, and `faults` rises by 1. Each call raises `calls` by 1.
    fn read(&mut self, piece: &mut [u8]) -> Result<usize, ReadFailed>
        ensures bound { ReadsAtMost result piece.new }
        ensures bytes { ReadConsumes (Some self.old.left) (Some self.new.left) result piece.new }
        ensures cause { HasCause self.old.faults self.new.faults result }
        ensures fails { IsErr result ↔ Contains self.old.failing (raised self.old.calls) }
        ensures count { IfOk result (λ count.
            count ≡ min self.old.piece (min (length piece.old) (length self.old.left))) }
        ensures copied { IfOk result (λ count.
            piece.new ≡ take count self.old.left ++ drop count piece.old) }
        ensures ok { IfOk result (λ count. self.new ≡ record self.old {
          left = drop count self.old.left;
          calls = raised self.old.calls;
        }) }
        ensures err { OnErr result (self.new ≡ record self.old {
          calls = raised self.old.calls;
          faults = raised self.old.faults;
        }) }
        ensures err_piece { OnErr result (piece.new ≡ piece.old) }
    {
        self.calls = one_more(self.calls);
        if is_listed(&self.failing, self.calls) {
            self.faults = one_more(self.faults);
            return Err(ReadFailed);
        }
        let count = copy_front(&self.bytes[self.place..], self.piece as usize, piece);
        self.place += count;
        Ok(count)
    }
}
