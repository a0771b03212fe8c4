// The check sequence's register, for callers that pass the bytes one by one.
ghost use Rattle.std.specs.Prelude.{◌≡◌, ℕ, List, fold};
ghost use Rattle.sercos_bits.specs.Clauses.{low_bits, bits_of, fcs_of, sixteen_ones, fed};

use crate::check_sequence::{START, with_byte, with_two};
use std::marker::Model;

/// The register in which a frame check sequence (ISO/IEC 3309) is computed, for a caller that passes the bytes itself.
#[derive(Debug, Drop)]
pub struct Register {
    register: u16,
}

// Contracts see the sixteen coefficients, that of x^15 first.
impl Model for Register {
    ghost use Rattle.std.specs.Prelude.{List, Bool};
    ghost use Rattle.sercos_model.specs.Bits.{low_bits};

    ghost Value = { List Bool };

    ghost view = { λ r. low_bits 16 r.register };
}

impl Register {
    /// Returns the register before the first byte.
    pub fn new() -> Self
        ensures { result ≡ sixteen_ones }
    {
        Register { register: START }
    }

    /// Takes the next byte, its least significant bit first.
    pub fn take(&mut self, byte: u8)
        ensures { self.new ≡ fold fed self.old (low_bits 8 byte) }
    {
        self.register = with_byte(self.register, byte);
    }

    /// Takes the next two bytes, each with its least significant bit first.
    pub fn take_two(&mut self, first: u8, second: u8)
        ensures { self.new ≡ fold fed (fold fed self.old (low_bits 8 first)) (low_bits 8 second) }
    {
        self.register = with_two(self.register, first, second);
    }

    /// Returns the frame check sequence of the bytes taken since `new`, as [`fcs`](crate::fcs) does for all of them.
    pub fn fcs(&self) -> u16
        ensures { (bytes : List ℕ) → self.now ≡ fold fed sixteen_ones (bits_of bytes) → result ≡ fcs_of bytes }
    {
        !self.register
    }
}
