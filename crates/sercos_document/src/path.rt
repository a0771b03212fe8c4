// The paths of the keys of a document.
ghost use Rattle.std.specs.Prelude.{◌≡◌, ◌++◌, OnOk, IfOk, string_bytes};
ghost use Rattle.sercos_document.specs.Clauses.{listed, before_keys, path, item_path};

use std::alloc::{AllocError, Global};
use std::marker::Model;

/// Where a table is in a document (this profile). Indices in lists are counted from 0.
#[derive(Clone, Copy, Debug, PartialEq, Eq)]
pub enum Place {
    /// The document itself.
    Top,
    /// The table `ring`.
    Ring,
    /// A table of the list `drive`.
    Drive(usize),
    /// A table of the list `block` of a drive: the drive's index, then the block's.
    Block(usize, usize),
    /// A table of the list `request`.
    Request(usize),
    /// A table of the list `fault`.
    Fault(usize),
}

/// The path of a key of a document, or of an item of its list: `drive[0].block[2].idn`, `ring.order[1]` (this profile). Keys aren't quoted
/// or escaped. Contracts see the list of the bytes.
#[derive(Drop)]
pub struct Path {
    text: String,
}

impl Model for Path {
    ghost use Rattle.std.specs.Prelude.{List, ℕ, string_bytes};

    ghost Value = { List ℕ };

    ghost view = { λ p. string_bytes p.text };
}

impl Path {
    /// Returns the bytes of the path.
    pub fn as_slice(&self) -> &[u8]
        ensures { result.now ≡ self.now }
    {
        self.text.as_bytes()
    }

    /// Returns the path of a key in the table at a place. The error is `AllocError` if there is no memory for it.
    #[tactic(auto, unfolding(crate::specs::Paths::path))]
    pub(crate) fn to_key(alloc: Global, place: Place, key: &str) -> Result<Path, AllocError>
        ensures { IfOk result (λ p. p ≡ path place key.now) }
    {
        let mut text = String::new(alloc);
        push_place(&mut text, place)?;
        text.push_str(key)?;
        Ok(Path { text })
    }

    /// Returns the path of an item in the list under a key. `item` is its index, counted from 0. The error is `AllocError` if there is no
    /// memory for the path.
    #[tactic(auto, unfolding(crate::specs::Paths::item_path))]
    pub(crate) fn to_item(
        alloc: Global,
        place: Place,
        key: &str,
        item: usize,
    ) -> Result<Path, AllocError>
        ensures { IfOk result (λ p. p ≡ item_path place key.now item) }
    {
        let mut text = String::new(alloc);
        push_place(&mut text, place)?;
        push_listed(&mut text, key, item)?;
        Ok(Path { text })
    }
}

// Appends the part of a path before a key of the table at a place. The error is `AllocError`. Then `text` is unspecified.
#[tactic(auto, unfolding(crate::specs::Paths::before_keys))]
fn push_place(text: &mut String, place: Place) -> Result<(), AllocError>
    ensures { OnOk result (string_bytes text.new ≡ string_bytes text.old ++ before_keys place) }
{
    match place {
        Place::Top => Ok(()),
        Place::Ring => text.push_str("ring."),
        Place::Drive(drive) => {
            push_listed(text, "drive", drive)?;
            text.push_str(".")
        }
        Place::Block(drive, block) => {
            push_listed(text, "drive", drive)?;
            text.push_str(".")?;
            push_listed(text, "block", block)?;
            text.push_str(".")
        }
        Place::Request(request) => {
            push_listed(text, "request", request)?;
            text.push_str(".")
        }
        Place::Fault(fault) => {
            push_listed(text, "fault", fault)?;
            text.push_str(".")
        }
    }
}

// Appends the key of a list and an index in it: in decimal, in square brackets. The error is `AllocError`. Then `text` is unspecified.
#[tactic(auto, unfolding(crate::specs::Paths::listed))]
fn push_listed(text: &mut String, key: &str, place: usize) -> Result<(), AllocError>
    ensures { OnOk result (string_bytes text.new ≡ string_bytes text.old ++ listed key.now place) }
{
    text.push_str(key)?;
    text.push_str("[")?;
    write!(text, "{place}")?;
    text.push_str("]")
}
