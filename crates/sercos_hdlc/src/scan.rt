// The state of a reader of a frame. A function that takes bits requires that at most 2^31 are then taken. If the state is that after some
// bits, it is afterwards that after these and the new ones.
ghost use Rattle.std.specs.Prelude.{◌≡◌, ℕ, ◌+◌, ◌<◌, ◌≤◌, Bool, true, false, ◌&&◌, ◌||◌, ◌==◌, nat_le, Some, IfOk, IfErr, List, [], ◌∷◌, ◌++◌, length, slice_index_or};
ghost use Rattle.std.specs.Result.{result_err};

use crate::bad_frame::BadFrame;
use crate::flags::{FLAG, FLAG_BYTE};

/// The state of a reader of a frame, without the plain bits themselves.
#[derive(Clone, Copy, Debug)]
pub struct Scan {
    /// The number of bits taken.
    pub taken: u32,
    /// Whether the first eight bits, or the fewer taken so far, agree with the flag.
    pub agrees: bool,
    /// The ones in a row at the end of the bits after the first eight; 6 from the first six ones on.
    pub ones: u8,
    /// Whether the last zero before the six ones was an inserted one.
    pub dropped: bool,
    /// The number of plain bits: those after the first eight, up to the fifth of the first six ones, without the inserted zeros.
    pub plain_len: u32,
    /// From the first six ones on, the offset of the bit before them, which begins the closing flag.
    pub closing: u32,
    /// Whether a seventh one follows the six.
    pub seventh: bool,
    ghost few: { ones ≤ 6 },
    ghost fits: { taken ≤ 2147483648 },
    ghost plain_within: { plain_len ≤ taken },
    ghost closing_within: { closing ≤ taken },
}

impl Scan {
    ghost use Rattle.sercos_model.specs.Bits.{low_bits};
    ghost use Rattle.sercos_hdlc.specs.Scanned.{IsScan};
    ghost use Rattle.sercos_hdlc.specs.Sought.{has_six, ones_after, dropped_after};
    ghost use Rattle.sercos_hdlc.specs.Enclosed.{IsEnclosed};
    ghost use Rattle.sercos_hdlc.specs.Reason.{unstuffed, after, reason_of};

    /// Returns the state before the first bit.
    pub fn new() -> Scan
        ensures { IsScan [] [] result }
    {
        Scan {
            taken: 0,
            agrees: true,
            ones: 0,
            dropped: false,
            plain_len: 0,
            closing: 0,
            seventh: false,
        }
    }

    /// Takes one of the first eight bits.
    pub fn take_first(&mut self, bit: bool)
        requires { self.old.taken < 8 }
        ensures taken { self.new.taken ≡ self.old.taken + 1 }
        ensures scan { (bits plain : List Bool) → IsScan bits plain self.old → IsScan (bits ++ bit ∷ []) plain self.new }
    {
        self.agrees &= bit == FLAG[self.taken as usize];
        self.taken += 1;
    }

    /// Takes the first eight bits, those of a byte. No bit was taken before.
    pub fn take_first_byte(&mut self, byte: u8)
        requires { self.old.taken ≡ 0 }
        ensures taken { self.new.taken ≡ self.old.taken + 8 }
        ensures scan { (bits plain : List Bool) → IsScan bits plain self.old
            → IsScan (bits ++ low_bits 8 byte) plain self.new }
    {
        self.agrees = byte == FLAG_BYTE;
        self.taken = 8;
    }

    /// Takes a plain bit: the first eight bits were taken, and fewer than five ones in a row precede it.
    pub fn take_plain(&mut self, bit: bool)
        requires fits { self.old.taken < 2147483648 }
        requires behind { 8 ≤ self.old.taken }
        requires few { self.old.ones < 5 }
        ensures taken { self.new.taken ≡ self.old.taken + 1 }
        ensures scan { (bits plain : List Bool) → IsScan bits plain self.old
            → IsScan (bits ++ bit ∷ []) (plain ++ bit ∷ []) self.new }
    {
        self.ones = (self.ones + 1) * u8::from(bit);
        self.dropped &= bit;
        self.plain_len += 1;
        self.taken += 1;
    }

    /// Takes the inserted zero after five ones in a row. The first eight bits were taken.
    pub fn take_inserted(&mut self)
        requires fits { self.old.taken < 2147483648 }
        requires behind { 8 ≤ self.old.taken }
        requires five { self.old.ones ≡ 5 }
        ensures taken { self.new.taken ≡ self.old.taken + 1 }
        ensures scan { (bits plain : List Bool) → IsScan bits plain self.old
            → IsScan (bits ++ false ∷ []) plain self.new }
    {
        self.ones = 0;
        self.dropped = true;
        self.taken += 1;
    }

    /// Takes a one after five ones in a row. The first eight bits were taken. The bit before the six ones begins the closing flag.
    pub fn take_sixth(&mut self)
        requires fits { self.old.taken < 2147483648 }
        requires behind { 8 ≤ self.old.taken }
        requires five { self.old.ones ≡ 5 }
        ensures taken { self.new.taken ≡ self.old.taken + 1 }
        ensures scan { (bits plain : List Bool) → IsScan bits plain self.old
            → IsScan (bits ++ true ∷ []) plain self.new }
    {
        self.ones = 6;
        self.closing = self.taken - 6;
        self.seventh = false;
        self.taken += 1;
    }

    /// Takes `len` bits, at least one, after the first six ones, directly or later. Of these only the first, `bit`, matters, and only if it
    /// directly follows the six: then it may be a seventh one.
    #[inline(always)]
    pub fn take_later(&mut self, bit: bool, len: u32)
        requires some { 1 ≤ len }
        requires fits { self.old.taken + len ≤ 2147483648 }
        requires behind { 8 ≤ self.old.taken }
        requires six { 5 < self.old.ones }
        ensures taken { self.new.taken ≡ self.old.taken + len }
        ensures scan { (bits plain others : List Bool) → length others + 1 ≡ len → IsScan bits plain self.old
            → IsScan (bits ++ bit ∷ others) plain self.new }
    {
        self.seventh |= bit & (self.taken == self.closing + 7);
        self.taken += len;
    }

    /// Takes `len` bits after the first eight, without a sixth one in a row among them or before them. Of these `count` are plain. `ones`,
    /// 0 to 5, is then the number of ones in a row at the end, with those before the new bits if none of these is a zero, and `dropped` is
    /// whether the last zero is then an inserted one.
    #[inline(always)]
    pub fn take_clear(&mut self, ones: u8, dropped: bool, count: u8, len: u32)
        requires fits { self.old.taken + len ≤ 2147483648 }
        requires behind { 8 ≤ self.old.taken }
        requires few { ones ≤ 5 }
        requires count { count ≤ len }
        ensures taken { self.new.taken ≡ self.old.taken + len }
        ensures scan { (bits plain more : List Bool) → IsScan bits plain self.old → self.old.ones ≤ 5 → length more ≡ len
            → has_six self.old.ones more ≡ false
            → ones ≡ ones_after self.old.ones more
            → dropped ≡ dropped_after self.old.ones self.old.dropped more
            → count ≡ length (unstuffed self.old.ones more)
            → IsScan (bits ++ more) (plain ++ unstuffed self.old.ones more) self.new }
    {
        self.ones = ones;
        self.dropped = dropped;
        self.plain_len += u32::from(count);
        self.taken += len;
    }

    /// Takes `len` bits after the first eight, with the first sixth one in a row at offset `place` among them. Of the `place` new bits
    /// before it, `count` are plain. `dropped` is whether the last zero before it is an inserted one, and `seventh` whether the bit right
    /// after it is among the new bits and is a one.
    #[inline(always)]
    pub fn take_end(&mut self, place: u8, dropped: bool, count: u8, seventh: bool, len: u32)
        requires within { place < len }
        requires fits { self.old.taken + len ≤ 2147483648 }
        requires behind { 8 ≤ self.old.taken }
        requires count { count ≤ place }
        ensures taken { self.new.taken ≡ self.old.taken + len }
        ensures scan { (bits plain before rest : List Bool) → IsScan bits plain self.old → self.old.ones ≤ 5
            → length before ≡ place
            → length rest + 1 + place ≡ len
            → has_six self.old.ones before ≡ false
            → ones_after self.old.ones before ≡ 5
            → dropped ≡ dropped_after self.old.ones self.old.dropped before
            → count ≡ length (unstuffed self.old.ones before)
            → seventh ≡ slice_index_or rest 0 false
            → IsScan (bits ++ (before ++ true ∷ rest)) (plain ++ unstuffed self.old.ones before) self.new }
    {
        self.ones = 6;
        self.closing = self.taken + u32::from(place) - 6;
        self.dropped = dropped;
        self.seventh = seventh;
        self.plain_len += u32::from(count);
        self.taken += len;
    }

    // Returns whether the bits begin with the flag.
    fn opens(&self) -> bool
        ensures value { result ≡ (nat_le 8 self.now.taken && self.now.agrees) }
    {
        self.taken >= 8 && self.agrees
    }

    // Returns whether the first six ones follow the opening flag at once, or a seventh follows them. Called once six ones were found.
    fn runs_on(&self) -> bool
        ensures value { result ≡ ((self.now.closing == 7) || self.now.seventh) }
    {
        self.closing == 7 || self.seventh
    }

    /// Returns the number of plain bits between the flags. The error is the first of `NoOpen`, `NoClose` and `Abort` that applies.
    pub fn between(&self) -> Result<u32, BadFrame>
        ensures reason { (bits plain : List Bool) → IsScan bits plain self.now
            → IfErr result (λ reason. reason_of bits ≡ Some reason) }
        ensures plain { (bits plain : List Bool) → IsScan bits plain self.now
            → IfOk result (λ len. IsEnclosed bits plain self.now.closing len) }
    {
        if !self.opens() {
            return Err(BadFrame::NoOpen);
        }
        if self.ones < 6 {
            return Err(BadFrame::NoClose(self.taken));
        }
        if self.taken < self.closing + 8 {
            return Err(BadFrame::NoClose(self.taken));
        }
        if self.runs_on() {
            return Err(BadFrame::Abort(self.closing + 1));
        }
        if self.dropped {
            return Err(BadFrame::Abort(self.closing));
        }
        Ok(self.plain_len.saturating_sub(6))
    }

    /// Tests, after `between` returned `Ok`, that no bit follows the closing flag. Otherwise the error is `After`.
    pub fn test_end(&self) -> Result<(), BadFrame>
        ensures { (bits plain : List Bool) (len : ℕ) → IsScan bits plain self.now → IsEnclosed bits plain self.now.closing len
            → result_err result ≡ after bits }
    {
        let end = self.closing + 8;
        if end < self.taken {
            return Err(BadFrame::After(end));
        }
        Ok(())
    }
}
