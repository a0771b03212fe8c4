// A data block of a drive.
ghost use Rattle.std.specs.Prelude.{◌≡◌, IsOk, IfOk};

use sercos_bits::Text;
use sercos_idn::{Attribute, Idn};
use std::alloc::AllocError;

/// A data block of a drive (IEC 61491:1995): its seven elements, and how this profile's drive treats them. All parts are in the block
/// itself, so a clone takes no memory and never fails.
#[derive(Debug, PartialEq, Eq, Drop)]
pub struct Block {
    /// The identifier number, element 1.
    pub idn: Idn,
    /// The attribute, element 3.
    pub attribute: Attribute,
    /// The name, element 2, if present: 1 to 60 printable bytes.
    pub name: Option<Text>,
    /// The unit, element 4, if present: 1 to 12 printable bytes.
    pub unit: Option<Text>,
    /// The bits of the minimum, element 5, if present: as many as the number has, in two's complement if the display form is signed. For
    /// example, -10 is 0xfff6 in two bytes.
    pub min: Option<u32>,
    /// The bits of the maximum, element 6, if present.
    pub max: Option<u32>,
    /// The operation data, element 7: the bytes of a number, low byte first, or of a list.
    pub value: Text,
    /// The most bytes of the list; 0 if the operation data is not a list.
    pub max_len: u16,
    /// Whether the master can never write the operation data. It can't write those of a block with a step either.
    pub fixed: bool,
    /// What is added to the number in each cycle, modulo 2 to the power of its bits; 0 is no step.
    pub step: u32,
    /// Whether the block is a procedure command that ends with an error.
    pub fails: bool,
}

// Returns a copy of a name or a unit. It never fails.
fn text_copy(text: &Option<Text>) -> Result<Option<Text>, AllocError>
    ensures value { IfOk result (λ copy. copy ≡ text.now) }
    ensures ok { IsOk result }
{
    match text {
        None => Ok(None),
        Some(text) => Ok(Some(text.clone()?)),
    }
}

// A clone has the same parts. Cloning never fails.
impl Clone for Block {
    ghost use Rattle.std.specs.Prelude.{◌≡◌};

    ghost is_clone = { λ block clone. clone ≡ block };

    ghost is_infallible = { λ _. Unit {0} };

    fn clone(&self) -> Result<Block, AllocError> {
        Ok(Block {
            idn: self.idn,
            attribute: self.attribute,
            name: text_copy(&self.name)?,
            unit: text_copy(&self.unit)?,
            min: self.min,
            max: self.max,
            value: self.value.clone()?,
            max_len: self.max_len,
            fixed: self.fixed,
            step: self.step,
            fails: self.fails,
        })
    }
}
