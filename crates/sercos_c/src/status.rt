//! The statuses that the exports return beside those of the program.

/// The call did its work.
pub(crate) const DONE: u8 = 0;

/// The answer is no.
pub(crate) const NO: u8 = 1;

/// An argument is refused.
pub(crate) const REFUSED: u8 = 3;

/// The output has too little room.
pub(crate) const WRITE_FAULT: u8 = 5;

/// No memory was found.
pub(crate) const MEMORY: u8 = 6;

/// The input is too long.
pub(crate) const TOO_LONG: u8 = 7;

/// The handle holds nothing of this kind.
pub(crate) const CLOSED: u8 = 8;
