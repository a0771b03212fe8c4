//! The identifier numbers of the data blocks that every drive has (IEC 61491:1995). The short titles are this profile's own.
use sercos_idn::Idn;

/// S-0-0001: control unit cycle time.
pub const CONTROL_CYCLE_TIME: Idn = Idn { raw: 1 };

/// S-0-0002: SERCOS cycle time.
pub const CYCLE_TIME: Idn = Idn { raw: 2 };

/// S-0-0003: shortest AT starting time, T1min.
pub const T1MIN: Idn = Idn { raw: 3 };

/// S-0-0004: transmit/receive transition time, TATMT.
pub const TATMT: Idn = Idn { raw: 4 };

/// S-0-0005: minimum feedback processing time, T4min.
pub const T4MIN: Idn = Idn { raw: 5 };

/// S-0-0006: AT starting time, T1.
pub const T1: Idn = Idn { raw: 6 };

/// S-0-0007: feedback capture point, T4.
pub const T4: Idn = Idn { raw: 7 };

/// S-0-0008: command valid time, T3.
pub const T3: Idn = Idn { raw: 8 };

/// S-0-0009: position of the data record in the MDT.
pub const POSITION: Idn = Idn { raw: 9 };

/// S-0-0010: length of the MDT.
pub const MDT_LENGTH: Idn = Idn { raw: 10 };

/// S-0-0015: telegram type.
pub const TELEGRAM_TYPE: Idn = Idn { raw: 15 };

/// S-0-0016: configuration list of the AT.
pub const AT_LIST: Idn = Idn { raw: 16 };

/// S-0-0021: invalid operation data for phase 2.
pub const INVALID_FOR_PHASE_2: Idn = Idn { raw: 21 };

/// S-0-0022: invalid operation data for phase 3.
pub const INVALID_FOR_PHASE_3: Idn = Idn { raw: 22 };

/// S-0-0024: configuration list of the MDT.
pub const MDT_LIST: Idn = Idn { raw: 24 };

/// S-0-0087: transmit to transmit recovery time, TATAT.
pub const TATAT: Idn = Idn { raw: 87 };

/// S-0-0088: receive to receive recovery time, TMTSY.
pub const TMTSY: Idn = Idn { raw: 88 };

/// S-0-0089: MDT starting time, T2.
pub const T2: Idn = Idn { raw: 89 };

/// S-0-0090: command processing time, TMTSG.
pub const TMTSG: Idn = Idn { raw: 90 };

/// S-0-0127: phase 3 transition check.
pub const PHASE_3_CHECK: Idn = Idn { raw: 127 };

/// S-0-0128: phase 4 transition check.
pub const PHASE_4_CHECK: Idn = Idn { raw: 128 };
