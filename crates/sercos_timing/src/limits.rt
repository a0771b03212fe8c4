//! The limits of this profile for a ring, its drives and the times that they declare, and the starts in phases 1 and 2, in which no plan
//! applies yet. Times are in microseconds.

/// The most drives of a ring. It has at least one.
pub const MOST_DRIVES: usize = 64;

/// The greatest address of a drive or a slave. The least is 1.
pub const MOST_ADDRESS: u8 = 254;

/// The most bytes of all data records of an MDT together: they and the address are the content of one frame.
pub const MOST_RECORDS: u32 = 2_047;

/// The shortest cycle time. Any other is a multiple of [`CYCLE_UNIT`].
pub const LEAST_CYCLE: u16 = 125;

/// The unit of which each cycle time is a multiple, except the shortest.
pub const CYCLE_UNIT: u16 = 250;

/// The longest cycle time.
pub const MOST_CYCLE: u16 = 64_000;

/// The longest gap between telegrams.
pub const MOST_GAP: u16 = 1_000;

/// The greatest T1min that a drive declares.
pub const MOST_T1MIN: u16 = 300;

/// The greatest TATMT that a drive declares.
pub const MOST_TATMT: u16 = 300;

/// The greatest T4min that a drive declares.
pub const MOST_T4MIN: u16 = 64_000;

/// The greatest TATAT that a drive declares.
pub const MOST_TATAT: u16 = 64_000;

/// The greatest TMTSY that a drive declares.
pub const MOST_TMTSY: u16 = 250;

/// The greatest TMTSG that a drive declares.
pub const MOST_TMTSG: u16 = 64_000;

/// The start of an AT in phases 1 and 2, after the end of the MST.
pub const EARLY_AT: u16 = 300;

/// The start of an MDT in phases 1 and 2, after the end of the MST.
pub const EARLY_MDT: u16 = 650;
