// What up to seven bytes add to a reader of the bits between two flags.
ghost use Rattle.std.specs.Prelude.{◌≡◌, ℕ, ◌+◌, ◌++◌, ◌*◌, ◌^◌, ◌<◌, ◌≤◌, Bool, length, take};
ghost use Rattle.sercos_model.specs.Bits.{low_bits, bits_of};
ghost use Rattle.sercos_hdlc.specs.Given.{IsGiven};

use crate::given::{Given, ending, given_by};
use crate::kept::joined;

/// What the bits of at most seven bytes without a sixth one in a row add to a reader: plain bits, and the state after them.
#[derive(Clone, Copy, Debug)]
pub struct Group {
    /// The number of bytes.
    pub len: usize,
    /// The plain bits, the first as the least significant.
    pub bits: u64,
    /// The number of plain bits, at most eight for each byte.
    pub count: u8,
    /// The ones in a row that the bits end in.
    pub ones: u8,
    /// Whether the last zero is an inserted one.
    pub dropped: bool,
    ghost few: { ones ≤ 5 },
    ghost below: { bits < 2 ^ count },
}

impl Group {
    ghost use Rattle.std.specs.Prelude.{List, []};
    ghost use Rattle.sercos_hdlc.specs.Grouped.{IsGroup};

    // Returns the group of no bytes after `ones` ones in a row, 0 to 5; `dropped` is whether the last zero is an inserted one.
    fn none(ones: u8, dropped: bool) -> Group
        requires { ones ≤ 5 }
        ensures group { IsGroup ones dropped [] result }
        ensures len { result.len ≡ 0 }
        ensures count { result.count ≡ 0 }
    {
        Group {
            len: 0,
            bits: 0,
            count: 0,
            ones,
            dropped,
        }
    }

    // Appends a byte to a group of at most six bytes and 48 plain bits. `given` is the result of `given_by` for the group's `ones` and this
    // byte, without a sixth one in a row.
    #[inline(always)]
    fn add(&mut self, byte: u8, given: Given)
        requires few { self.old.count ≤ 48 }
        requires len { self.old.len < 7 }
        requires given { IsGiven self.old.ones (low_bits 8 byte) given }
        requires count { given.count ≤ 8 }
        requires below { given.bits < 2 ^ given.count }
        ensures group { (k : ℕ) (before : Bool) (bits : List Bool) → IsGroup k before bits self.old
            → IsGroup k before (bits ++ low_bits 8 byte) self.new }
        ensures len { self.new.len ≡ self.old.len + 1 }
        ensures count { self.new.count ≤ self.old.count + 8 }
    {
        self.len += 1;
        self.bits = joined(self.bits, self.count, u64::from(given.bits), given.count);
        self.count += given.count;
        self.dropped = given.dropped;
        self.ones = ending(byte);
    }

    /// Returns the group of those of at most seven bytes that come before the first with a sixth one in a row, or of all if none has it.
    /// The clauses don't say how far it goes: its user takes the next byte itself. `ones` is the number of ones in a row before the bytes,
    /// 0 to 5, and `dropped` whether the last zero before them is an inserted one.
    #[inline(always)]
    pub fn after(ones: u8, dropped: bool, bytes: &[u8]) -> Group
        requires few { ones ≤ 5 }
        requires short { length bytes.now ≤ 7 }
        ensures group { IsGroup ones dropped (bits_of (take result.len bytes.now)) result }
        ensures len { result.len ≤ length bytes.now }
        ensures count { result.count ≤ 8 * result.len }
    {
        let mut group = Group::none(ones, dropped);
        for byte in bytes {
            let given = given_by(group.ones, *byte);
            if given.ones > 5 {
                return group;
            }
            group.add(*byte, given);
        }
        group
    }
}
