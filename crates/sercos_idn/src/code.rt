// The codes of the service channel's errors.
ghost use Rattle.std.specs.Prelude.{◌≡◌, ◌+◌, ◌*◌, ◌<◌};

// The factor of the element in a code: bits 15 to 12.
const ELEMENT: u16 = 4096;

// Bits 11 to 0 of the code of a missing element.
const MISSING: u16 = 1;

// Bits 11 to 0 of the code of an element that can't be changed.
const PROTECTED: u16 = 4;

/// The code of an error, which a drive sends as information word if it refuses a step of the service channel. Their meanings
/// are taken after IEC 61491:1995; which cause gives which code is this profile's.
#[derive(Clone, Copy, Debug, PartialEq, Eq)]
pub struct Code {
    /// The sixteen bits of the information word. Bits 15 to 12 are the [`element`](crate::element) that the code refers to.
    pub raw: u16,
}

impl Code {
    /// The service channel isn't open: no identifier number was opened.
    pub const NOT_OPEN: Code = Code { raw: 0x0001 };
    /// The drive has no such identifier number.
    pub const NO_IDN: Code = Code { raw: 0x1001 };
    /// The operation data was transmitted too short.
    pub const TOO_SHORT: Code = Code { raw: 0x7002 };
    /// The operation data was transmitted too long.
    pub const TOO_LONG: Code = Code { raw: 0x7003 };
    /// The operation data can't be changed.
    pub const FIXED: Code = Code { raw: 0x7004 };
    /// The operation data is write protected at this time.
    pub const PROTECTED_NOW: Code = Code { raw: 0x7005 };
    /// The operation data is smaller than the minimum.
    pub const BELOW_MINIMUM: Code = Code { raw: 0x7006 };
    /// The operation data is greater than the maximum.
    pub const ABOVE_MAXIMUM: Code = Code { raw: 0x7007 };
    /// The operation data is invalid.
    pub const INVALID: Code = Code { raw: 0x7008 };

    /// Returns the code of a missing element, 0 to 7: 0x2001 for the name, 0x4001 for the unit, 0x5001 for the minimum, 0x6001 for the
    /// maximum. For element 0 it is `NOT_OPEN`, for the identifier number `NO_IDN`.
    pub fn missing(element: u8) -> Code
        requires { element < 8 }
        ensures { result.raw ≡ 4096 * element + 1 }
    {
        Code {
            raw: ELEMENT * u16::from(element) + MISSING,
        }
    }

    /// Returns the code of an element, 0 to 7, that can't be changed, the element in bits 15 to 12 and 4 below them: 0x2004 for the name,
    /// up to 0x6004 for the maximum. For the operation data it is `FIXED`.
    pub fn protected(element: u8) -> Code
        requires { element < 8 }
        ensures { result.raw ≡ 4096 * element + 4 }
    {
        Code {
            raw: ELEMENT * u16::from(element) + PROTECTED,
        }
    }
}
