// A list of bits of bounded length.
ghost use Rattle.std.specs.Prelude.{◌≡◌, ◌+◌, ◌%◌, ◌^◌, ◌<◌, ◌≤◌, ◌↔◌, Bool, true, false, not, List, [], ◌∷◌, ◌++◌, length, take, drop, IsErr, OnOk, OnErr, slice_index_or, slice_set};
ghost use Rattle.sercos_bits.specs.Clauses.{low_bits, number_of};

use crate::byte_list::Full;
use crate::words::{
    WORD_BITS, are_same_words, bit_in, byte_at, clear_from, copy_words, flip_in, put_number,
};
use std::marker::Model;

/// The most bits that a [`BitBuf`] holds: those of the longest frame (ISO/IEC 3309). It has 16 bits of flags, 16,400 bits of content and
/// check sequence (2,050 bytes), and an inserted zero for each five bits of these.
pub const MAX_BITS: usize = 19696;

// The number of words of 64 bits that hold [`MAX_BITS`] bits.
const WORDS: usize = (MAX_BITS + WORD_BITS - 1) / WORD_BITS;

// Returns the lowest `len` bits of a number, with zeros above them.
fn lowest(number: u16, len: usize) -> u16
    ensures value { result ≡ number % 2 ^ len }
    ensures few { result < 2 ^ len }
{
    if len < 16 {
        number % (1 << len)
    } else {
        number
    }
}

/// A list of at most [`MAX_BITS`] bits, in the order in which they are sent.
#[derive(Debug, Drop)]
pub struct BitBuf {
    // Bit n of the list is bit n % 64 of word n / 64. All bits from `len` on are zeros.
    words: [u64; WORDS],
    len: usize,
}

// Contracts see the list of the bits.
impl Model for BitBuf {
    ghost use Rattle.std.specs.Prelude.{List, Bool};
    ghost use Rattle.sercos_bits.specs.Packed.{packed, IsPacked};

    ghost Value = { List Bool };

    ghost view = { λ buf. packed buf.words buf.len };

    ghost invariant = { λ buf. IsPacked buf.words buf.len };
}

impl BitBuf {
    /// Returns an empty list.
    pub fn new() -> Self
        ensures { result ≡ [] }
    {
        BitBuf {
            words: [0; WORDS],
            len: 0,
        }
    }

    /// Returns the number of bits, at most 19,696.
    pub fn len(&self) -> usize
        ensures value { result ≡ length self.now }
        ensures bound { result ≤ 19696 }
    {
        self.len
    }

    /// Returns the bit at an index, counted from 0. The index must be below `len`.
    pub fn get(&self, place: usize) -> bool
        requires { place < length self.now }
        ensures { result ≡ slice_index_or self.now place false }
    {
        bit_in(&self.words, place)
    }

    /// Returns the byte spelled by the eight bits from index `place` on, the least significant first. All eight bits must exist. `place`
    /// need not be a multiple of eight.
    pub fn byte_at(&self, place: usize) -> u8
        requires within { place + 8 ≤ length self.now }
        ensures bits { low_bits 8 result ≡ take 8 (drop place self.now) }
        ensures value { result ≡ number_of (take 8 (drop place self.now)) }
    {
        byte_at(&self.words, place)
    }

    /// Returns whether another list has the same bits.
    pub fn is_same(&self, other: &BitBuf) -> bool
        ensures { result ≡ true ↔ self.now ≡ other.now }
    {
        self.len == other.len
            && are_same_words(&self.words, &other.words, self.len.div_ceil(WORD_BITS))
    }

    /// Appends a bit. Returns `Full` and leaves the list unchanged iff it has [`MAX_BITS`] bits already.
    pub fn push(&mut self, bit: bool) -> Result<(), Full>
        ensures full { IsErr result ↔ (length self.old ≡ 19696) }
        ensures ok { OnOk result (self.new ≡ self.old ++ bit ∷ []) }
        ensures err { OnErr result (self.new ≡ self.old) }
    {
        if self.len() == MAX_BITS {
            return Err(Full);
        }
        self.push_lowest(u16::from(bit), 1);
        Ok(())
    }

    // Appends the lowest `len` bits of a number, the least significant first. Bits from the seventeenth on are zeros. There must be room
    // for them.
    pub(crate) fn push_lowest(&mut self, number: u16, len: usize)
        requires { length self.old + len ≤ 19696 }
        ensures { self.new ≡ self.old ++ low_bits len number }
    {
        put_number(&mut self.words, self.len, lowest(number, len), len);
        self.len += len;
    }

    /// Complements the bit at an index, counted from 0. The index must be below `len`.
    pub fn flip(&mut self, place: usize)
        requires { place < length self.old }
        ensures { self.new ≡ slice_set self.old place (not (slice_index_or self.old place false)) }
    {
        flip_in(&mut self.words, place);
    }

    /// Keeps the first `len` bits, or all if there are fewer.
    pub fn cut(&mut self, len: usize)
        ensures { self.new ≡ take len self.old }
    {
        if len < self.len {
            clear_from(&mut self.words, len, self.len);
            self.len = len;
        }
    }

    /// Removes all bits.
    pub fn clear(&mut self)
        ensures { self.new ≡ [] }
    {
        self.cut(0);
    }

    /// Replaces all bits by those of another list.
    pub fn assign(&mut self, other: &BitBuf)
        ensures { self.new ≡ other.now }
    {
        clear_from(&mut self.words, other.len, self.len);
        copy_words(&mut self.words, &other.words, other.len.div_ceil(WORD_BITS));
        self.len = other.len;
    }
}
