// The data blocks that every drive has.
ghost use Rattle.std.specs.Prelude.{◌≡◌, None};
ghost use Rattle.sercos_block.specs.Clauses.{w16, to_le_bytes, attribute_fault, is_built_in, opening_value, opening_max_len, opening_limit, built_in_block};

use crate::block::Block;
use crate::numbers::{
    AT_LIST, CONTROL_CYCLE_TIME, CYCLE_TIME, INVALID_FOR_PHASE_2, INVALID_FOR_PHASE_3, MDT_LENGTH,
    MDT_LIST, PHASE_3_CHECK, PHASE_4_CHECK, POSITION, T1, T1MIN, T2, T3, T4, T4MIN, TATAT, TATMT,
    TELEGRAM_TYPE, TMTSG, TMTSY,
};
use crate::setup::DriveSetup;
use sercos_bits::Text;
use sercos_idn::{Attribute, Idn};
/// The operation data of a built-in block when the drive's store is opened.
#[derive(Clone, Copy, Debug, PartialEq, Eq)]
pub enum Opening {
    /// The number 0.
    Zero,
    /// The number 0. The block's limits are the shortest and the longest cycle time of the drive, in microseconds.
    CycleTime,
    /// The shortest AT starting time that the drive declares, in microseconds.
    T1min,
    /// The transmit/receive transition time that the drive declares, in microseconds.
    Tatmt,
    /// The minimum feedback processing time that the drive declares, in microseconds.
    T4min,
    /// The transmit to transmit recovery time that the drive declares, in microseconds.
    Tatat,
    /// The receive to receive recovery time that the drive declares, in microseconds.
    Tmtsy,
    /// The command processing time that the drive declares, in microseconds.
    Tmtsg,
    /// An empty list. The value is the most bytes of the list.
    Empty(u16),
}

/// A row of the table of built-in blocks.
#[derive(Clone, Copy, Debug, PartialEq, Eq)]
pub struct BuiltIn {
    /// The identifier number.
    pub idn: Idn,
    /// The attribute, as the 32 bits of element 3.
    pub attribute: u32,
    /// Whether the master can never write the operation data.
    pub fixed: bool,
    /// The operation data when the store is opened.
    pub opening: Opening,
}

// The attribute of a number that the master writes in phase 2, write protected in the phases 3 and 4.
const WRITTEN: u32 = 0x6011_0001;

// The attribute of a number that the drive declares, write protected in all phases.
const DECLARED: u32 = 0x7011_0001;

// The attribute of a list of identifier numbers that the master writes in phase 2.
const WRITTEN_LIST: u32 = 0x6055_0001;

// The attribute of a list of identifier numbers that the drive itself writes.
const GIVEN_LIST: u32 = 0x7055_0001;

// The attribute of a procedure command that is written in phase 2 alone.
const FOR_PHASE_2: u32 = 0x6009_0001;

// The attribute of a procedure command that is written in phase 3 alone.
const FOR_PHASE_3: u32 = 0x5009_0001;

/// The blocks that every drive of this profile has, ascending by identifier number. The numbers are those of IEC 61491:1995.
pub const BUILT_IN: [BuiltIn; 21] = [
    BuiltIn {
        idn: CONTROL_CYCLE_TIME,
        attribute: WRITTEN,
        fixed: false,
        opening: Opening::Zero,
    },
    BuiltIn {
        idn: CYCLE_TIME,
        attribute: WRITTEN,
        fixed: false,
        opening: Opening::CycleTime,
    },
    BuiltIn {
        idn: T1MIN,
        attribute: DECLARED,
        fixed: true,
        opening: Opening::T1min,
    },
    BuiltIn {
        idn: TATMT,
        attribute: DECLARED,
        fixed: true,
        opening: Opening::Tatmt,
    },
    BuiltIn {
        idn: T4MIN,
        attribute: DECLARED,
        fixed: true,
        opening: Opening::T4min,
    },
    BuiltIn {
        idn: T1,
        attribute: WRITTEN,
        fixed: false,
        opening: Opening::Zero,
    },
    BuiltIn {
        idn: T4,
        attribute: WRITTEN,
        fixed: false,
        opening: Opening::Zero,
    },
    BuiltIn {
        idn: T3,
        attribute: WRITTEN,
        fixed: false,
        opening: Opening::Zero,
    },
    BuiltIn {
        idn: POSITION,
        attribute: WRITTEN,
        fixed: false,
        opening: Opening::Zero,
    },
    BuiltIn {
        idn: MDT_LENGTH,
        attribute: WRITTEN,
        fixed: false,
        opening: Opening::Zero,
    },
    BuiltIn {
        idn: TELEGRAM_TYPE,
        attribute: WRITTEN,
        fixed: false,
        opening: Opening::Zero,
    },
    BuiltIn {
        idn: AT_LIST,
        attribute: WRITTEN_LIST,
        fixed: false,
        opening: Opening::Empty(32),
    },
    BuiltIn {
        idn: INVALID_FOR_PHASE_2,
        attribute: GIVEN_LIST,
        fixed: true,
        opening: Opening::Empty(128),
    },
    BuiltIn {
        idn: INVALID_FOR_PHASE_3,
        attribute: GIVEN_LIST,
        fixed: true,
        opening: Opening::Empty(128),
    },
    BuiltIn {
        idn: MDT_LIST,
        attribute: WRITTEN_LIST,
        fixed: false,
        opening: Opening::Empty(32),
    },
    BuiltIn {
        idn: TATAT,
        attribute: DECLARED,
        fixed: true,
        opening: Opening::Tatat,
    },
    BuiltIn {
        idn: TMTSY,
        attribute: DECLARED,
        fixed: true,
        opening: Opening::Tmtsy,
    },
    BuiltIn {
        idn: T2,
        attribute: WRITTEN,
        fixed: false,
        opening: Opening::Zero,
    },
    BuiltIn {
        idn: TMTSG,
        attribute: DECLARED,
        fixed: true,
        opening: Opening::Tmtsg,
    },
    BuiltIn {
        idn: PHASE_3_CHECK,
        attribute: FOR_PHASE_2,
        fixed: false,
        opening: Opening::Zero,
    },
    BuiltIn {
        idn: PHASE_4_CHECK,
        attribute: FOR_PHASE_3,
        fixed: false,
        opening: Opening::Zero,
    },
];

// Returns the two bytes of a number, the low byte first.
fn number_text(number: u16) -> Text
    ensures { result ≡ to_le_bytes w16 number }
{
    let mut text = Text::new();
    text.assign(&number.to_le_bytes());
    text
}

// Returns the operation data of a built-in block when the store is opened: an empty list, a time that the drive declares, or the number 0.
// A number has two bytes, the low byte first.
fn opening_value(setup: &DriveSetup, opening: Opening) -> Text
    ensures { result ≡ opening_value setup.now opening }
{
    match opening {
        Opening::Zero | Opening::CycleTime => number_text(0),
        Opening::T1min => number_text(setup.times.t1min),
        Opening::Tatmt => number_text(setup.times.tatmt),
        Opening::T4min => number_text(setup.times.t4min),
        Opening::Tatat => number_text(setup.times.tatat),
        Opening::Tmtsy => number_text(setup.times.tmtsy),
        Opening::Tmtsg => number_text(setup.times.tmtsg),
        Opening::Empty(_) => Text::new(),
    }
}

// Returns the most bytes of the list of a built-in block with this opening; 0 if its operation data is not a list.
fn opening_max_len(opening: Opening) -> u16
    ensures { result ≡ opening_max_len opening }
{
    match opening {
        Opening::Empty(most) => most,
        _ => 0,
    }
}

// Returns `limit` as a minimum or a maximum if the opening is that of the cycle time; otherwise `None`.
fn opening_limit(opening: Opening, limit: u16) -> Option<u32>
    ensures { result ≡ opening_limit opening limit }
{
    match opening {
        Opening::CycleTime => Some(u32::from(limit)),
        _ => None,
    }
}

// Returns the built-in block of a row of the table. The row's attribute is a valid one. The block has no name, no unit and no step, and
// never fails. Only that of the cycle time has a minimum and a maximum: those that the drive accepts.
pub(crate) fn built_in_block(setup: &DriveSetup, row: &BuiltIn) -> Block
    requires { attribute_fault row.now.attribute ≡ None }
    ensures { result ≡ built_in_block setup.now row.now }
{
    let Ok(attribute) = Attribute::read(row.attribute) else {
        unreachable!()
    };
    Block {
        idn: row.idn,
        attribute,
        name: None,
        unit: None,
        min: opening_limit(row.opening, setup.cycle_min),
        max: opening_limit(row.opening, setup.cycle_max),
        value: opening_value(setup, row.opening),
        max_len: opening_max_len(row.opening),
        fixed: row.fixed,
        step: 0,
        fails: false,
    }
}

/// Returns whether one of the 21 blocks that every drive has (this profile) has this identifier number.
pub fn is_built_in(idn: Idn) -> bool
    ensures { result ≡ is_built_in idn.raw }
{
    BUILT_IN.iter().any(|row| row.idn == idn)
}
