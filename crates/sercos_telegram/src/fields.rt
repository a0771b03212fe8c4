// What follows the address of an AT or a single MDT, or is in a record: two words and values.
ghost use Rattle.std.specs.Prelude.{◌≡◌, ◌+◌, ◌^◌, ◌<◌, ◌≤◌, ◌++◌, length, drop};
ghost use Rattle.sercos_telegram.specs.Clauses.{word_bytes, word_at, fields};

use sercos_bits::Content;

/// A control or status word, an information word, and values.
#[derive(Clone, Copy)]
pub struct Fields<'a> {
    /// The control or status word.
    pub word: u16,
    /// The information word of the service channel.
    pub info: u16,
    /// The bytes of the values.
    pub values: &'a [u8],
}

/// Returns the two words and the values that bytes spell, each word with its low byte first. There are at least four bytes.
#[tactic(auto, unfolding(crate::specs::Spells::fields, crate::specs::Spells::word_bytes, crate::specs::Spells::word_at))]
pub fn read_fields(bytes: &[u8]) -> Fields<'_>
    requires { 4 ≤ length bytes.now }
    ensures spells { bytes.now ≡ fields result.word result.info result.values.now }
    ensures word { result.word ≡ word_at bytes.now 0 }
    ensures info { result.info ≡ word_at bytes.now 2 }
    ensures values { result.values.now ≡ drop 4 bytes.now }
    ensures words { (result.word < 2 ^ 16) × (result.info < 2 ^ 16) }
{
    Fields {
        word: u16::from_le_bytes([bytes[0], bytes[1]]),
        info: u16::from_le_bytes([bytes[2], bytes[3]]),
        values: &bytes[4..],
    }
}

/// Appends two words, each with its low byte first, and values. There must be room for them, 4 bytes plus the values: the content has at
/// most 2048 bytes.
#[tactic(auto, unfolding(crate::specs::Spells::fields, crate::specs::Spells::word_bytes))]
pub fn push_fields(word: u16, info: u16, values: &[u8], out: &mut Content)
    requires { length out.old + 4 + length values.now ≤ 2048 }
    ensures { out.new ≡ out.old ++ fields word info values.now }
{
    out.push_word_within(word);
    out.push_word_within(info);
    out.append_within(values);
}
