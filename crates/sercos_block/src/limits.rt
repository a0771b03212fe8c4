//! The limits of this profile for a drive's setup, its data blocks and a run. Those of the ring and of the times that drives declare are in
//! [`sercos_timing::limits`].

/// The most data blocks that a drive has beside the built-in ones.
pub const MOST_BLOCKS: usize = 36;

/// The most cycles for which a drive is busy with a step of the service channel.
pub const MOST_BUSY: u8 = 20;

/// The most cycles for which a procedure command runs.
pub const MOST_COMMAND: u16 = 200;

/// The most identifier numbers that an AT or a data record of the MDT carries.
pub const MOST_CARRIED: usize = 16;

/// The most cycles of a run. The fewest is one.
pub const MOST_CYCLES: u32 = 50_000;

/// The most bytes of a name. The fewest is one.
pub const MOST_NAME: usize = 60;

/// The most bytes of a unit. The fewest is one.
pub const MOST_UNIT: usize = 12;

/// The most bytes of a list, the longest operation data.
pub const MOST_DATA: u16 = 1_024;
