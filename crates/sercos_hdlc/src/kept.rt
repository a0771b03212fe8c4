// The plain bits that a reader keeps between two flags.
ghost use Rattle.std.specs.Prelude.{◌≡◌, ◌+◌, ◌-◌, ◌*◌, ◌/◌, ◌%◌, ◌^◌, ◌<◌, ◌≤◌, Bool, List, [], ◌∷◌, ◌++◌, length};
ghost use Rattle.sercos_model.specs.Bits.{low_bits};

use crate::plain_bytes::PlainBytes;

/// The plain bits that a reader has so far: their first whole bytes, at most 2050, and the bits after the last whole byte.
#[derive(Debug, Drop)]
pub struct Kept {
    /// The whole bytes.
    pub bytes: PlainBytes,
    /// The number that the bits after the whole bytes spell.
    pub rest: u64,
    /// The number of those bits, at most seven.
    pub rest_len: u8,
    ghost few: { rest_len ≤ 7 },
    ghost below: { rest < 2 ^ rest_len },
}

/// Returns the number that spells `rest_len` bits of `rest` and then `count` bits of `bits`, at most 63 together, the first bit as the
/// least significant. Neither number has further bits.
pub(crate) fn joined(rest: u64, rest_len: u8, bits: u64, count: u8) -> u64
    requires few { rest_len + count ≤ 63 }
    requires below { rest < 2 ^ rest_len }
    requires bits { bits < 2 ^ count }
    ensures bits { low_bits (rest_len + count) result ≡ low_bits rest_len rest ++ low_bits count bits }
    ensures below { result < 2 ^ (rest_len + count) }
{
    rest + (bits << rest_len)
}

// Returns the number that spells the bits after the first `whole` bytes of `bits`, which has `len` bits, at most 63, and these bytes.
fn bits_after(bits: u64, len: u8, whole: u8) -> u64
    requires long { 8 * whole ≤ len }
    requires few { len ≤ 63 }
    requires below { bits < 2 ^ len }
    ensures bits { low_bits len bits ≡ low_bits (8 * whole) bits ++ low_bits (len - 8 * whole) result }
    ensures below { result < 2 ^ (len - 8 * whole) }
{
    bits >> (8 * whole)
}

impl Kept {
    ghost use Rattle.sercos_hdlc.specs.Held.{IsKept};

    /// Returns a store without bits.
    pub fn new() -> Kept
        ensures { IsKept [] result }
    {
        Kept {
            bytes: PlainBytes::new(),
            rest: 0,
            rest_len: 0,
        }
    }

    /// Removes all bits.
    pub fn clear(&mut self)
        ensures { IsKept [] self.new }
    {
        self.bytes.clear();
        self.rest = 0;
        self.rest_len = 0;
    }

    /// Appends `count` bits, at most 56, the first as the least significant. `bits` is below 2^`count`. Once there are 16,408 bits or more,
    /// what is stored is unspecified: they are no frame's.
    #[inline(always)]
    pub fn push(&mut self, bits: u64, count: u8)
        requires few { count ≤ 56 }
        requires below { bits < 2 ^ count }
        ensures { (plain : List Bool) → IsKept plain self.old → IsKept (plain ++ low_bits count bits) self.new }
    {
        let sum = joined(self.rest, self.rest_len, bits, count);
        let len = self.rest_len + count;
        let whole = len / 8;
        self.bytes.append_lowest(sum, usize::from(whole));
        self.rest = bits_after(sum, len, whole);
        self.rest_len = len % 8;
    }
}
