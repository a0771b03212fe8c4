// Lists of the values of a line. Their memory is used again for each line, and emptying them writes nothing.
ghost use Rattle.std.specs.Prelude.{◌≡◌, ◌<◌, ◌≤◌, ◌+◌, ◌++◌, ◌∷◌, [], length};

use std::marker::Model;

/// The most numbers of a line.
pub const MOST_NUMBERS: usize = 64;

/// The most bytes that the hexadecimal digits of a line spell.
pub const MOST_BYTES: usize = 2048;

/// A list of at most [`MOST_NUMBERS`] numbers. Contracts see it as `items`.
#[derive(Drop)]
pub struct Numbers {
    room: [u32; MOST_NUMBERS],
    count: usize,
}

impl Model for Numbers {
    ghost use Rattle.std.specs.Prelude.{◌≡◌, ◌≤◌, ℕ, length, take};
    ghost use Rattle.arrayvec.specs.ArrayVec.{ArrayVec};

    ghost Value = { ArrayVec ℕ };

    ghost view = { λ n. record { items = take n.count n.room } };

    ghost invariant = { λ n. (n.count ≤ 64) × (length n.room ≡ 64) };
}

impl Numbers {
    // Returns an empty list.
    pub(crate) fn new() -> Numbers
        ensures { result.items ≡ [] }
    {
        Numbers {
            room: [0; MOST_NUMBERS],
            count: 0,
        }
    }

    /// Returns the numbers as a slice.
    pub fn as_slice(&self) -> &[u32]
        ensures value { result.now ≡ self.now.items }
        ensures bound { length result.now ≤ 64 }
    {
        &self.room[..self.count]
    }

    // Appends a number. There must be fewer than 64.
    pub(crate) fn push(&mut self, number: u32)
        requires { length self.old.items < 64 }
        ensures { self.new.items ≡ self.old.items ++ number ∷ [] }
    {
        self.room[self.count] = number;
        self.count += 1;
    }

    // Removes all numbers.
    pub(crate) fn clear(&mut self)
        ensures { self.new.items ≡ [] }
    {
        self.count = 0;
    }
}

/// A list of at most [`MOST_BYTES`] bytes. Contracts see the list.
#[derive(Drop)]
pub struct Room {
    room: [u8; MOST_BYTES],
    count: usize,
}

impl Model for Room {
    ghost use Rattle.std.specs.Prelude.{◌≡◌, ◌≤◌, ℕ, List, length, take};

    ghost Value = { List ℕ };

    ghost view = { λ b. take b.count b.room };

    ghost invariant = { λ b. (b.count ≤ 2048) × (length b.room ≡ 2048) };
}

impl Room {
    // Returns an empty list.
    pub(crate) fn new() -> Room
        ensures { result ≡ [] }
    {
        Room {
            room: [0; MOST_BYTES],
            count: 0,
        }
    }

    /// Returns the bytes as a slice.
    pub fn as_slice(&self) -> &[u8]
        ensures value { result.now ≡ self.now }
        ensures bound { length result.now ≤ 2048 }
    {
        &self.room[..self.count]
    }

    // Appends a byte. There must be fewer than 2048. Its index, the number of bytes so far, is passed in, since it is known at the call and
    // slow to read here.
    pub(crate) fn put(&mut self, place: usize, byte: u8)
        requires place { place ≡ length self.old }
        requires room { place < 2048 }
        ensures { self.new ≡ self.old ++ byte ∷ [] }
    {
        self.room[place] = byte;
        self.count = place + 1;
    }

    // Removes all bytes.
    pub(crate) fn clear(&mut self)
        ensures { self.new ≡ [] }
    {
        self.count = 0;
    }
}
