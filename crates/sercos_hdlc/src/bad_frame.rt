/// Why a list of bits is not a frame of ISO/IEC 3309. If several rules apply, the error is the first in the order NoOpen, NoClose, Abort,
/// Ragged, Short, Long, Check, After. Offsets count bits from 0 at the list's first bit.
#[derive(Clone, Copy, Debug, PartialEq, Eq)]
pub enum BadFrame {
    /// The list doesn't begin with the flag 01111110.
    NoOpen,
    /// Six ones that are no part of a closing flag: they follow the opening flag at once, or a seventh one follows them. The value is the
    /// offset of the first of the six. Also five ones at the end of the body without their inserted zero; then the value is the offset of
    /// the closing flag.
    Abort(u32),
    /// There is no closing flag. The value is the list's length in bits.
    NoClose(u32),
    /// The number of bits between the flags, without the inserted zeros, is no multiple of eight. The value is that number.
    Ragged(u32),
    /// Fewer than three bytes are between the flags. The value is their number.
    Short(u32),
    /// The check sequence is wrong. The values are the one received and the one computed.
    Check(u16, u16),
    /// Bits follow the closing flag. The value is the offset of the first of them.
    After(u32),
    /// More than 2050 bytes are between the flags. The value is their number.
    Long(u32),
}
