// A data block whose bytes are in the region of a store.
ghost use Rattle.std.specs.Prelude.{◌≡◌, ◌+◌, ◌≤◌, length, option_map, Some, None, IfSome, MatchResult};
ghost use Rattle.sercos_block.specs.Clauses.{bytes_for, element_of, write_fault, part_of, limit_bits, block_of, IsWithin};

use crate::entry::{Entry, Limit, Part};
use crate::write::write_fault;
use sercos_idn::element::{ATTRIBUTE, MAXIMUM, MINIMUM, NAME, UNIT};
use sercos_idn::{Attribute, Code, Idn};
use std::marker::Model;

/// A data block in a store: its entry, and the region in which its bytes are. Contracts see the block.
#[derive(Drop)]
pub struct Stored<'a> {
    region: &'a [u8],
    entry: &'a Entry,
}

impl<'a> Model for Stored<'a> {
    ghost use Rattle.std.specs.Prelude.{length};
    ghost use Rattle.sercos_block.specs.declared.block.Block.{Block};
    ghost use Rattle.sercos_block.specs.Regions.{block_of, IsWithin};

    ghost Value = { Block };

    ghost view = { λ s. block_of s.region.now s.entry.now };

    ghost invariant = { λ s. IsWithin s.region.now s.entry.now };
}

// Returns the bytes of a part that is within the region and has at most 1024 bytes.
fn bytes_of<'a>(region: &'a [u8], part: &Part) -> &'a [u8]
    requires inside { part.now.place + part.now.len ≤ length region.now }
    requires few { part.now.len ≤ 1024 }
    ensures value { result.now ≡ part_of region.now part.now }
    ensures bound { length result.now ≤ 1024 }
{
    let start = usize::from(part.place);
    &region[start..start + usize::from(part.len)]
}

// Returns the bytes of a name or a unit; `None` if absent. The part is within the region and has at most 1024 bytes.
fn text_of<'a>(region: &'a [u8], part: &Option<Part>) -> Option<&'a [u8]>
    requires { IfSome part.now (λ p. (p.place + p.len ≤ length region.now) × (p.len ≤ 1024)) }
    ensures value { option_map (λ b. b.now) result ≡ option_map (part_of region.now) part.now }
    ensures bound { IfSome result (λ b. length b.now ≤ 1024) }
{
    match part {
        None => None,
        Some(part) => Some(bytes_of(region, part)),
    }
}

// Returns the bytes of a minimum or a maximum; `None` if absent. Its part is within the region, has at most 1024 bytes, and has there the
// bytes that `bytes_for` makes of the limit's bits. `attribute` only serves the contract.
fn limit_of<'a>(region: &'a [u8], attribute: &Attribute, limit: &Option<Limit>) -> Option<&'a [u8]>
    requires inside { IfSome limit.now (λ l. (l.bytes.place + l.bytes.len ≤ length region.now) × (l.bytes.len ≤ 1024)) }
    requires bytes { IfSome limit.now (λ l. part_of region.now l.bytes ≡ bytes_for attribute.now l.bits) }
    ensures value { option_map (λ b. b.now) result ≡ option_map (bytes_for attribute.now) (option_map limit_bits limit.now) }
    ensures bound { IfSome result (λ b. length b.now ≤ 1024) }
{
    match limit {
        None => None,
        Some(limit) => Some(bytes_of(region, &limit.bytes)),
    }
}

impl<'a> Stored<'a> {
    // Returns the block of an entry whose bytes are all in the region (`IsWithin`): each part has at most 1024 bytes, that of the operation
    // data comes after the others, with room for its most bytes, and those of the attribute and the limits have the bytes of their values.
    pub(crate) fn new(region: &'a [u8], entry: &'a Entry) -> Stored<'a>
        requires { IsWithin region.now entry.now }
        ensures { result ≡ block_of region.now entry.now }
    {
        Stored { region, entry }
    }

    // Returns the identifier number, element 1.
    pub(crate) fn idn(&self) -> Idn
        ensures { result ≡ self.now.idn }
    {
        self.entry.idn
    }

    /// Returns the attribute, element 3.
    pub fn attribute(&self) -> Attribute
        ensures { result ≡ self.now.attribute }
    {
        self.entry.attribute
    }

    // Returns the bits of the minimum, if present; otherwise `None`.
    pub(crate) fn min(&self) -> Option<u32>
        ensures { result ≡ self.now.min }
    {
        self.entry.min.map(|limit| limit.bits)
    }

    // Returns the bits of the maximum, if present; otherwise `None`.
    pub(crate) fn max(&self) -> Option<u32>
        ensures { result ≡ self.now.max }
    {
        self.entry.max.map(|limit| limit.bits)
    }

    /// Returns the most bytes of the list; 0 if the operation data is not a list.
    pub fn max_len(&self) -> u16
        ensures { result ≡ self.now.max_len }
    {
        self.entry.max_len
    }

    // Returns whether the block is set up so that the master can never write the operation data. It can't write those of a block with a
    // step either.
    pub(crate) fn fixed(&self) -> bool
        ensures { result ≡ self.now.fixed }
    {
        self.entry.fixed
    }

    /// Returns what is added to the number in each cycle; 0 if there is no step.
    pub fn step(&self) -> u32
        ensures { result ≡ self.now.step }
    {
        self.entry.step
    }

    // Returns whether the block is a procedure command that ends with an error.
    pub(crate) fn fails(&self) -> bool
        ensures { result ≡ self.now.fails }
    {
        self.entry.fails
    }

    /// Returns the operation data, element 7, at most 1024 bytes.
    pub fn value(&self) -> &'a [u8]
        ensures value { result.now ≡ self.now.value }
        ensures bound { length result.now ≤ 1024 }
    {
        bytes_of(self.region, &self.entry.value)
    }

    /// Tests that the operation data can be written in a phase, 2 to 4. The error is the first that applies (the codes are taken
    /// after IEC 61491:1995, their order is this profile's): 0x7004, the block is fixed or has a step; 0x7005, it is write protected in this phase.
    pub fn may_write(&self, phase: u8) -> Result<(), Code>
        requires { (2 ≤ phase) × (phase ≤ 4) }
        ensures { MatchResult result
            (λ _. write_fault (Some self.now) phase ≡ None)
            (λ code. write_fault (Some self.now) phase ≡ Some code.raw) }
    {
        match write_fault(self, phase) {
            Some(code) => Err(code),
            None => Ok(()),
        }
    }

    /// Returns the bytes of an element, 2 to 7, at most 1024; `None` if the block doesn't have it. Any other number than 2 to 6 counts as
    /// 7.
    #[tactic(auto, unfolding(crate::specs::Blocks::element_of))]
    pub fn element(&self, element: u8) -> Option<&'a [u8]>
        ensures value { option_map (λ b. b.now) result ≡ element_of self.now element }
        ensures bound { IfSome result (λ b. length b.now ≤ 1024) }
    {
        if element == NAME {
            text_of(self.region, &self.entry.name)
        } else if element == ATTRIBUTE {
            Some(bytes_of(self.region, &self.entry.word))
        } else if element == UNIT {
            text_of(self.region, &self.entry.unit)
        } else if element == MINIMUM {
            limit_of(self.region, &self.entry.attribute, &self.entry.min)
        } else if element == MAXIMUM {
            limit_of(self.region, &self.entry.attribute, &self.entry.max)
        } else {
            Some(self.value())
        }
    }
}
