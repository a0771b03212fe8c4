// Numbers and bytes as bits, and bits as bytes.
ghost use Rattle.std.specs.Prelude.{◌≡◌, ◌+◌, ◌*◌, ◌<◌, ◌≤◌, ◌↔◌, ◌++◌, length, IsErr, OnOk, OnErr, IfOk, IfErr, Some, None};
ghost use Rattle.sercos_bits.specs.Clauses.{low_bits, bits_of, bytes_of, AreBytes, bad_bits_of};

use crate::bit_buf::{BitBuf, MAX_BITS};
use crate::byte_list::{Content, Full, MAX_CONTENT};

// The number of bits of a byte.
const BYTE_BITS: usize = 8;

/// Why bits are not a frame's content.
#[derive(Clone, Copy, Debug, PartialEq, Eq)]
pub enum BadBits {
    /// The number of bits is not a multiple of eight. The value is the number of bits after the last whole byte, 1 to 7.
    Ragged(usize),
    /// There are more than 2048 bytes.
    Long,
}

/// Appends the lowest `len` bits of a number, the least significant first. Bits from the seventeenth on are zeros. There must be room for
/// them.
pub fn push_number(number: u16, len: usize, out: &mut BitBuf)
    requires { length out.old + len ≤ 19696 }
    ensures bits { out.new ≡ out.old ++ low_bits len number }
    ensures len { length out.new ≡ length out.old + len }
{
    out.push_lowest(number, len);
}

/// Appends the bits of bytes, the least significant of each byte first. Returns `Full` iff there is no room for all of them. Then nothing
/// is appended.
pub fn bits_of(bytes: &[u8], out: &mut BitBuf) -> Result<(), Full>
    ensures full { IsErr result ↔ (19696 < length out.old + 8 * length bytes.now) }
    ensures ok { OnOk result (out.new ≡ out.old ++ bits_of bytes.now) }
    ensures len { OnOk result (length out.new ≡ length out.old + 8 * length bytes.now) }
    ensures err { OnErr result (out.new ≡ out.old) }
{
    if bytes.len() > (MAX_BITS - out.len()) / 8 {
        return Err(Full);
    }
    for byte in bytes {
        push_number(u16::from(*byte), BYTE_BITS, out);
    }
    Ok(())
}

/// Replaces the content by the bytes that the bits spell, eight bits each, the least significant first. Returns the number of bytes. The
/// error is `Ragged` if the number of bits is not a multiple of eight, otherwise `Long` if there are more than 2048 bytes. After an error
/// the content is unchanged.
pub fn bytes_of(bits: &BitBuf, out: &mut Content) -> Result<usize, BadBits>
    ensures ok { OnOk result (out.new ≡ bytes_of bits.now) }
    ensures count { IfOk result (λ count. count ≡ length out.new) }
    ensures inverse { OnOk result (bits_of out.new ≡ bits.now) }
    ensures bytes { OnOk result (AreBytes out.new) }
    ensures none { OnOk result (bad_bits_of bits.now ≡ None) }
    ensures bad { IfErr result (λ bad. bad_bits_of bits.now ≡ Some bad) }
    ensures err { OnErr result (out.new ≡ out.old) }
{
    let rest = bits.len() % 8;
    if rest != 0 {
        return Err(BadBits::Ragged(rest));
    }
    let count = bits.len() / 8;
    if count > MAX_CONTENT {
        return Err(BadBits::Long);
    }
    out.clear();
    for place in 0..count {
        out.push_within(bits.byte_at(8 * place));
    }
    Ok(count)
}
