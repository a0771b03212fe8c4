// Operation data in a cycle: numbers that grow.
ghost use Rattle.std.specs.Prelude.{◌≡◌, ◌≤◌, ◌<◌, ◌+◌, ◌*◌, ◌%◌, ◌++◌, length};
ghost use Rattle.sercos_service_drive.specs.Clauses.{Block, to_le_bytes, number_end, width_of, data_in};

use sercos_bits::ByteList;
use sercos_block::bits_in;
use sercos_idn::{Attribute, Length};

// Returns the bits of a number in a cycle: `bits` plus the step times the cycle, modulo 2 to the power of its bits.
#[inline]
fn grown(kind: Length, bits: u32, step: u32, cycle: u32) -> u32
    ensures value { result ≡ (bits + step * cycle) % number_end kind }
    ensures bound { result < number_end kind }
{
    let sum = u64::from(bits) + u64::from(step) * u64::from(cycle);
    if kind == Length::Two {
        (sum % 65_536) as u32
    } else {
        (sum % 4_294_967_296) as u32
    }
}

// Appends the bytes of a number, two or four, the low byte first. `bits` is below 2 to the power of its bits. `out` has room for four
// bytes.
#[inline]
fn push_number<const CAPACITY: usize>(out: &mut ByteList<CAPACITY>, kind: Length, bits: u32)
    requires room { length out.old + 4 ≤ CAPACITY }
    requires bound { bits < number_end kind }
    ensures value { out.new ≡ out.old ++ to_le_bytes (width_of kind) bits }
    ensures bound { length out.new ≤ length out.old + 4 }
{
    if kind == Length::Two {
        out.append_within(&(bits as u16).to_le_bytes());
    } else {
        out.append_within(&bits.to_le_bytes());
    }
}

/// Appends a number as it is in a cycle: `bits` plus the step times the cycle, modulo 2 to the power of its bits (this profile). It takes
/// two or four bytes, the low byte first. With a step of 0 it is the number itself. `out` has room for four bytes.
#[inline]
pub fn push_grown<const CAPACITY: usize>(
    out: &mut ByteList<CAPACITY>,
    kind: Length,
    bits: u32,
    step: u32,
    cycle: u32,
)
    requires room { length out.old + 4 ≤ CAPACITY }
    ensures value { out.new ≡ out.old ++ to_le_bytes (width_of kind) ((bits + step * cycle) % number_end kind) }
    ensures bound { length out.new ≤ length out.old + 4 }
{
    push_number(out, kind, grown(kind, bits, step, cycle));
}

/// Appends the operation data of a block with this attribute and step, as it is in a cycle (this profile). If the step is 0, these are the
/// bytes themselves. Otherwise it is the number plus the step times the cycle, modulo 2 to the power of its bits, the low byte first. `out`
/// has room for four bytes, and for `bytes`. If these are at most four, at most four are appended.
#[tactic(auto, unfolding(crate::specs::Replies::data_in))]
pub fn push_data<const CAPACITY: usize>(
    out: &mut ByteList<CAPACITY>,
    attribute: &Attribute,
    step: u32,
    cycle: u32,
    bytes: &[u8],
)
    requires room { length out.old + 4 ≤ CAPACITY }
    requires fits { length out.old + length bytes.now ≤ CAPACITY }
    ensures value { (b : Block) → b.attribute ≡ attribute.now → b.step ≡ step → b.value ≡ bytes.now → out.new ≡ out.old ++ data_in cycle b }
    ensures bound { length bytes.now ≤ 4 → length out.new ≤ length out.old + 4 }
{
    if step == 0 {
        out.append_within(bytes);
    } else {
        push_grown(
            out,
            attribute.length,
            bits_in(attribute, bytes),
            step,
            cycle,
        );
    }
}
