// Why a document is refused.
ghost use Rattle.std.specs.Prelude.{◌≡◌};

use crate::path::Path;
use std::alloc::AllocFailed;

/// The first reason for which a document is refused, with the path of the key (this profile); or `Memory` if it is out of memory.
#[derive(Drop)]
pub enum BadDocument {
    /// The bytes are not a TOML document.
    Toml,
    /// A required key is absent.
    Missing(Path),
    /// A value has another TOML type than its key requires. For a list the path is that of the item, or that of the list if its items are
    /// tables.
    Kind(Path),
    /// A value isn't allowed. The number is
    /// - the value itself for a number,
    /// - 1 for a boolean,
    /// - the number of bytes of a text, or of items of a list,
    /// - the sixteen bits of an identifier number that a text spells, if it isn't allowed there.
    Range(Path, i64),
    /// A value occurs for the second time, but may occur only once.
    Twice(Path),
    /// A key has no meaning in its table.
    Unknown(Path),
    /// Out of memory. This is not a refusal.
    Memory,
}

impl<T: Drop> From<AllocFailed<T>> for BadDocument {
    ghost use Rattle.sercos_document.specs.declared.refusal.BadDocument.TheVariants.{Memory};

    ghost from_gives = { λ _ e. e ≡ Memory };

    // Returns `Memory` for any failed allocation.
    fn from(_e: AllocFailed<T>) -> BadDocument {
        BadDocument::Memory
    }
}
