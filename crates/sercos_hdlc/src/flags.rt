/// The flag of ISO/IEC 3309, 01111110, as its bits are sent.
pub const FLAG: [bool; 8] = [false, true, true, true, true, true, true, false];

/// The flag as a byte.
pub const FLAG_BYTE: u8 = 0x7e;
