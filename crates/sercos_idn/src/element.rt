//! The elements of a data block (IEC 61491:1995), by their numbers in a control word.
/// The identifier number. A write of it opens the block; a read of it returns the data status.
pub const IDENTIFIER: u8 = 1;

/// The name, a list of characters.
pub const NAME: u8 = 2;

/// The attribute, a word of 32 bits: how the operation data is read, shown and protected.
pub const ATTRIBUTE: u8 = 3;

/// The unit, a list of characters.
pub const UNIT: u8 = 4;

/// The minimum of the operation data.
pub const MINIMUM: u8 = 5;

/// The maximum of the operation data.
pub const MAXIMUM: u8 = 6;

/// The operation data: the value itself.
pub const DATA: u8 = 7;
