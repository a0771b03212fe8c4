// A list of the whole bytes between two flags.
ghost use Rattle.std.specs.Prelude.{◌≡◌, ◌+◌, ◌*◌, ◌≤◌, ◌++◌, [], min, length, take};
ghost use Rattle.sercos_hdlc.specs.Clauses.{w64, to_le_bytes, low_bits, bits_of};

use std::marker::Model;

/// The most bytes between two flags: 2048 of content, and 2 of the check sequence.
pub const MOST_BYTES: usize = 2050;

// The length of the array. Each append writes eight bytes, so up to eight after the most bytes.
const ROOM: usize = 2058;

/// A list of at most [`MOST_BYTES`] bytes.
#[derive(Debug, Drop)]
pub struct PlainBytes {
    room: [u8; ROOM],
    len: usize,
}

// Clauses see the list of its bytes.
impl Model for PlainBytes {
    ghost use Rattle.std.specs.Prelude.{List, ℕ, take, ◌≤◌};

    ghost Value = { List ℕ };

    ghost view = { λ bytes. take bytes.len bytes.room };

    ghost invariant = { λ bytes. bytes.len ≤ 2050 };
}

// Writes the eight bytes of a number from index `place` on, the least significant first. The array must have them. The bytes before `place`
// are unchanged, and those after the eight are unspecified.
fn put_word(room: &mut [u8], place: usize, word: u64)
    requires { place + 8 ≤ length room.old }
    ensures written { take (place + 8) room.new ≡ take place room.old ++ to_le_bytes w64 word }
    ensures len { length room.new ≡ length room.old }
{
    room[place..place + 8].copy_from_slice(&word.to_le_bytes());
}

impl PlainBytes {
    /// Returns an empty list.
    pub fn new() -> Self
        ensures { result ≡ [] }
    {
        PlainBytes {
            room: [0; ROOM],
            len: 0,
        }
    }

    /// Returns the number of bytes, at most 2050.
    pub fn len(&self) -> usize
        ensures value { result ≡ length self.now }
        ensures bound { result ≤ 2050 }
    {
        self.len
    }

    /// Returns the bytes as a slice.
    pub fn as_slice(&self) -> &[u8]
        ensures value { result.now ≡ self.now }
        ensures bound { length result.now ≤ 2050 }
    {
        &self.room[..self.len]
    }

    /// Appends the `count` lowest bytes of a number, at most 8, the least significant first. If they don't all fit, the list has 2050
    /// bytes, and these are unspecified.
    pub fn append_lowest(&mut self, word: u64, count: usize)
        requires { count ≤ 8 }
        ensures bits { length self.old + count ≤ 2050 →
            bits_of self.new ≡ bits_of self.old ++ low_bits (8 * count) word }
        ensures len { length self.new ≡ min (length self.old + count) 2050 }
    {
        put_word(&mut self.room, self.len, word);
        self.len = (self.len + count).min(MOST_BYTES);
    }

    /// Removes all bytes.
    pub fn clear(&mut self)
        ensures { self.new ≡ [] }
    {
        self.len = 0;
    }
}
