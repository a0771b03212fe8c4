//! A source over bytes in memory that never fails.
ghost use Rattle.std.specs.Prelude.{◌≡◌, ◌++◌, Some, min, length, take, drop, IfOk, IsOk};
ghost use Rattle.sercos_io.specs.Clauses.{ReadsAtMost, ReadConsumes, HasCause};

use crate::calls::copy_front;
use crate::source::{ReadFailed, Source};
use std::marker::Model;

/// A source that returns the bytes of a `Vec`, and never fails.
///
/// Contracts see the list of the bytes not read yet.
#[derive(Drop)]
pub struct PlainSource {
    bytes: Vec<u8>,
    place: usize,
}

impl Model for PlainSource {
    ghost use Rattle.std.specs.Prelude.{ℕ, ◌≤◌, List, length, drop};

    ghost Value = { List ℕ };

    ghost view = { λ s. drop s.place s.bytes.items };

    ghost invariant = { λ s. s.place ≤ length s.bytes.items };
}

impl PlainSource {
    /// Returns a source of these bytes.
    pub fn new(bytes: Vec<u8>) -> PlainSource
        ensures { result ≡ bytes.items }
    {
        PlainSource { bytes, place: 0 }
    }
}

impl Source for PlainSource {
    ghost left = { λ s. Some s };

    ghost faults = { λ _. 0 };

    /// Reads the next bytes into the front of `piece`, and returns how many: as many as fit and are left. The other bytes of `piece` are
    /// unchanged. It never fails.
    fn read(&mut self, piece: &mut [u8]) -> Result<usize, ReadFailed>
        ensures bound { ReadsAtMost result piece.new }
        ensures bytes { ReadConsumes (Some self.old) (Some self.new) result piece.new }
        ensures cause { HasCause 0 0 result }
        ensures never { IsOk result }
        ensures count { IfOk result (λ count. count ≡ min (length piece.old) (length self.old)) }
        ensures copied { IfOk result (λ count. piece.new ≡ take count self.old ++ drop count piece.old) }
        ensures ok { IfOk result (λ count. self.new ≡ drop count self.old) }
    {
        let most = piece.len();
        let count = copy_front(&self.bytes[self.place..], most, piece);
        self.place += count;
        Ok(count)
    }
}
