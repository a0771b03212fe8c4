//! Why a content is not a telegram, as it is handed over.
ghost use Rattle.std.specs.Prelude.{◌≡◌, Some, None};
ghost use Rattle.sercos_c.specs.Clauses.{layout_of};

use sercos_telegram::Layout;

/// Why a content is not the telegram. All fields are 0 if it is.
#[repr(C)]
#[derive(Clone, Copy)]
pub struct SercosLayout {
    /// 1: its length; 2: its address; 3: a byte that has no meaning.
    pub kind: u8,
    /// The length in bytes or the address that was found, or the place of the byte.
    pub found: usize,
    /// The length in bytes or the address that was wanted.
    pub wanted: usize,
}

/// Returns the struct for a content that is the telegram: all fields are 0.
pub(crate) fn no_fault() -> SercosLayout
    ensures { result ≡ layout_of None }
{
    SercosLayout {
        kind: 0,
        found: 0,
        wanted: 0,
    }
}

/// Returns the struct of the fault for which a content is not the telegram.
pub(crate) fn layout_of(fault: Layout) -> SercosLayout
    ensures { result ≡ layout_of (Some fault) }
{
    match fault {
        Layout::Length(found, wanted) => SercosLayout {
            kind: 1,
            found,
            wanted,
        },
        Layout::Address(found, wanted) => SercosLayout {
            kind: 2,
            found,
            wanted,
        },
        Layout::BadField(place) => SercosLayout {
            kind: 3,
            found: place,
            wanted: 0,
        },
    }
}
