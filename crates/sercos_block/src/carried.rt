// The lengths of a drive's telegrams: what each identifier number adds.
ghost use Rattle.std.specs.Prelude.{◌≡◌, ◌≤◌, length, unwrap_or, IfSome};
ghost use Rattle.sercos_block.specs.Clauses.{attribute_in, row_in, built_in_attribute, own_attribute, block_attribute, number_len, cyclic_len, listed_len, at_len, record_len, mdt_len, are_cyclic};

use crate::block::Block;
use crate::built_in::{BUILT_IN, BuiltIn};
use crate::setup::DriveSetup;
use crate::value::is_number;
use sercos_idn::{Attribute, Idn};

/// Returns the attribute that the 32 bits of element 3 spell; `None` if they are no attribute.
#[tactic(auto, unfolding(crate::specs::Rings::attribute_in))]
pub fn attribute_in(word: u32) -> Option<Attribute>
    ensures { result ≡ attribute_in word }
{
    match Attribute::read(word) {
        Ok(attribute) => Some(attribute),
        Err(_) => None,
    }
}

// Returns the first of these rows with the identifier number. `None` if there is none.
#[tactic(auto, unfolding(crate::specs::Rings::row_in))]
fn row_in(rows: &[BuiltIn], idn: Idn) -> Option<BuiltIn>
    ensures { result ≡ row_in rows.now idn.raw }
{
    for row in rows {
        if row.idn == idn {
            return Some(*row);
        }
    }
    None
}

// Returns the attribute of the built-in block with the identifier number. `None` if there is none.
fn built_in_attribute(idn: Idn) -> Option<Attribute>
    ensures { result ≡ built_in_attribute idn.raw }
{
    match row_in(&BUILT_IN, idn) {
        Some(row) => attribute_in(row.attribute),
        None => None,
    }
}

// Returns the attribute of the first of these blocks with the identifier number. `None` if there is none.
#[tactic(auto, unfolding(crate::specs::Rings::own_attribute))]
fn own_attribute(blocks: &[Block], idn: Idn) -> Option<Attribute>
    ensures { result ≡ own_attribute blocks.now idn.raw }
{
    match blocks.iter().find(|block| block.idn == idn) {
        Some(block) => Some(block.attribute),
        None => None,
    }
}

/// Returns the attribute of a drive's block with the identifier number: a built-in block, otherwise one of the drive's own `blocks`. `None`
/// if there is no such block.
#[tactic(auto, unfolding(crate::specs::Rings::block_attribute))]
pub fn block_attribute(blocks: &[Block], idn: Idn) -> Option<Attribute>
    ensures { result ≡ block_attribute blocks.now idn.raw }
{
    match built_in_attribute(idn) {
        Some(attribute) => Some(attribute),
        None => own_attribute(blocks, idn),
    }
}

/// Returns the number of bytes that a block's operation data adds to a telegram: two or four for a number, `None` for a list or a procedure
/// command, which no telegram carries.
pub fn number_len(attribute: Attribute) -> Option<usize>
    ensures value { result ≡ number_len attribute }
    ensures bound { IfSome result (λ len. len ≤ 4) }
{
    if is_number(&attribute) {
        Some(attribute.length.item_len())
    } else {
        None
    }
}

/// Returns the number of bytes that an identifier number adds to a telegram: two or four if its block, built-in or one of `blocks`, is a
/// number. `None` otherwise: a telegram carries nothing else.
#[tactic(auto, unfolding(crate::specs::Rings::cyclic_len))]
pub fn cyclic_len(blocks: &[Block], idn: Idn) -> Option<usize>
    ensures value { result ≡ cyclic_len blocks.now idn.raw }
    ensures bound { IfSome result (λ len. len ≤ 4) }
{
    match block_attribute(blocks, idn) {
        Some(attribute) => number_len(attribute),
        None => None,
    }
}

/// Returns the number of bytes that a value adds to a telegram: its length, at most 4, or 0 for one that no telegram can carry.
pub fn added_len(len: Option<usize>) -> u16
    requires { IfSome len (λ n. n ≤ 4) }
    ensures value { result ≡ unwrap_or len 0 }
    ensures bound { result ≤ 4 }
{
    match len {
        Some(len) => len as u16,
        None => 0,
    }
}

// Returns the number of bytes of two words and of the values of a list of at most 16 identifier numbers: 4 to 68. An identifier number that
// no telegram can carry adds nothing.
#[tactic(auto, unfolding(crate::specs::Rings::listed_len))]
fn listed_len(blocks: &[Block], idns: &[Idn]) -> u16
    requires { length idns.now ≤ 16 }
    ensures value { result ≡ listed_len blocks.now idns.now }
    ensures bounds { (4 ≤ result) × (result ≤ 68) }
{
    let mut len = 4;
    for idn in idns {
        len += added_len(cyclic_len(blocks, *idn));
    }
    len
}

// Returns whether a telegram of a drive with these own blocks can carry every identifier number of a list.
#[tactic(auto, unfolding(crate::specs::Rings::are_cyclic))]
pub(crate) fn are_cyclic(blocks: &[Block], idns: &[Idn]) -> bool
    ensures { result ≡ are_cyclic blocks.now idns.now }
{
    idns.iter().all(|idn| cyclic_len(blocks, *idn).is_some())
}

/// Returns the number of bytes of the MDT after its address: the sum of the lengths of the data records. There are at most 64 drives, and
/// the result is at most 4,352.
#[tactic(auto, unfolding(crate::specs::Rings::mdt_len))]
pub fn mdt_len(drives: &[DriveSetup]) -> u32
    requires { length drives.now ≤ 64 }
    ensures value { result ≡ mdt_len drives.now }
    ensures bound { result ≤ 4352 }
{
    let mut len = 0;
    for drive in drives {
        len += u32::from(drive.record_len());
    }
    len
}

impl DriveSetup {
    // Returns the number of bytes of the drive's AT after its address: the status word, the information word and the configured feedback
    // values. There are 4 to 68.
    pub(crate) fn at_len(&self) -> u16
        ensures value { result ≡ at_len self.now }
        ensures bounds { (4 ≤ result) × (result ≤ 68) }
    {
        listed_len(self.blocks.as_slice(), self.at.as_slice())
    }

    // Returns the number of bytes of the drive's data record in the MDT: the control word, the information word and the configured command
    // values. There are 4 to 68.
    pub(crate) fn record_len(&self) -> u16
        ensures value { result ≡ record_len self.now }
        ensures bounds { (4 ≤ result) × (result ≤ 68) }
    {
        listed_len(self.blocks.as_slice(), self.mdt.as_slice())
    }
}
