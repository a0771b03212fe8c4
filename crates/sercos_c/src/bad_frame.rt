//! Why bits are not a frame, as it is handed over.
ghost use Rattle.std.specs.Prelude.{◌≡◌};
ghost use Rattle.sercos_c.specs.Clauses.{bad_frame_of, no_bad_frame};

use sercos_hdlc::BadFrame;

/// Why bits are not a frame: the number of the rule that they break, 1 to 8, and what it reports. All fields are 0 if they are a frame.
#[repr(C)]
#[derive(Clone, Copy)]
pub struct SercosBadFrame {
    /// 1: no opening flag; 2: no closing flag; 3: six ones where no flag may be; 4: not whole bytes; 5: too few bytes; 6: too
    /// many; 7: another check sequence; 8: bits after the closing flag.
    pub kind: u8,
    /// For kind 1: 0. 2: the number of all bits. 3 and 8: the place of a bit, from 0. 4: the number of bits between the flags, without the
    /// inserted zeros. 5 and 6: the number of bytes between the flags. 7: the check sequence that was found.
    pub found: u32,
    /// For kind 7 the check sequence that was wanted; otherwise 0.
    pub wanted: u32,
}

// Returns the struct of a rule that reports one number.
fn of_number(kind: u8, found: u32) -> SercosBadFrame
    ensures { result ≡ record { kind = kind; found = found; wanted = 0 } }
{
    SercosBadFrame {
        kind,
        found,
        wanted: 0,
    }
}

/// Returns the struct for bits that are a frame: all fields are 0.
pub(crate) fn no_bad_frame() -> SercosBadFrame
    ensures { result ≡ no_bad_frame }
{
    of_number(0, 0)
}

/// Returns the struct of the reason for which bits are not a frame.
pub(crate) fn bad_frame_of(reason: BadFrame) -> SercosBadFrame
    ensures { result ≡ bad_frame_of reason }
{
    match reason {
        BadFrame::NoOpen => of_number(1, 0),
        BadFrame::NoClose(bits) => of_number(2, bits),
        BadFrame::Abort(place) => of_number(3, place),
        BadFrame::Ragged(bits) => of_number(4, bits),
        BadFrame::Short(bytes) => of_number(5, bytes),
        BadFrame::Long(bytes) => of_number(6, bytes),
        BadFrame::Check(found, wanted) => SercosBadFrame {
            kind: 7,
            found: u32::from(found),
            wanted: u32::from(wanted),
        },
        BadFrame::After(place) => of_number(8, place),
    }
}
