// An entry of the index of a store.
ghost use Rattle.std.specs.Prelude.{◌≡◌};

use sercos_idn::{Attribute, Idn};

// A part of the region: the index of its first byte, and its number of bytes.
#[derive(Clone, Copy)]
pub(crate) struct Part {
    pub place: u16,
    pub len: u16,
}

// A minimum or a maximum: its bits, and the part with its bytes.
#[derive(Clone, Copy)]
pub(crate) struct Limit {
    pub bits: u32,
    pub bytes: Part,
}

// A data block whose bytes are in the region. `word` has those of the attribute, `value` those of the operation data.
#[derive(Clone, Copy)]
pub(crate) struct Entry {
    pub idn: Idn,
    pub attribute: Attribute,
    pub word: Part,
    pub name: Option<Part>,
    pub unit: Option<Part>,
    pub min: Option<Limit>,
    pub max: Option<Limit>,
    pub value: Part,
    pub max_len: u16,
    pub fixed: bool,
    pub step: u32,
    pub fails: bool,
}

impl Entry {
    // Sets the number of bytes of the operation data. All else is unchanged.
    pub(crate) fn set_len(&mut self, len: u16)
        ensures { self.new ≡ record self.old { value = record self.old.value { len = len } } }
    {
        self.value.len = len;
    }
}
