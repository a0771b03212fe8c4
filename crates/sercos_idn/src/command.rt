//! The operation data of a procedure command, and its data status (IEC 61491:1995).
/// The operation data that cancels a procedure command.
pub const CANCEL: u16 = 0;

/// The operation data that sets a procedure command.
pub const SET: u16 = 3;

/// The data status of a procedure command that was never set, or that was cancelled.
pub const NOT_SET: u16 = 0;

/// The data status of a procedure command that has ended well.
pub const ENDED_WELL: u16 = 3;

/// The data status of a procedure command that is running.
pub const RUNNING: u16 = 7;

/// The data status of a procedure command that has ended with an error.
pub const ENDED_WITH_ERROR: u16 = 15;
