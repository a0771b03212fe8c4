//! What a drive sends: the AT.
ghost use Rattle.std.specs.Prelude.{◌≡◌, ℕ, ◌+◌, ◌^◌, ◌<◌, ◌≤◌, List, length, drop, IfOk, IsOkAnd};
ghost use Rattle.sercos_telegram.specs.Clauses.{result_err, at_fault, status_word, status_of, at_content, word_at, SpellsAt};

use crate::fields::{push_fields, read_fields};
use crate::layout::{Layout, test_head};
use crate::words::Status;
use sercos_bits::Content;

/// An AT, the telegram of a drive (IEC 61491:1995). In phases 3 and 4 its values are the configured feedback values.
#[derive(Clone, Copy, Debug, PartialEq, Eq)]
pub struct At<'a> {
    /// The drive's address.
    pub address: u8,
    /// The status word.
    pub status: Status,
    /// The information word of the service channel.
    pub info: u16,
    /// The bytes of the values.
    pub values: &'a [u8],
}

/// Reads the AT of the drive with an address, which has `len` bytes after the address, at least 4: the status word and the information
/// word, each with its low byte first, and the values. Every such AT is accepted. The error is `Length` if the content doesn't have 1 +
/// `len` bytes, otherwise `Address` if its first byte isn't the address. The values of the result borrow from the content.
pub fn read_at(address: u8, len: u16, content: &[u8]) -> Result<At<'_>, Layout>
    requires { 4 ≤ len }
    ensures address { IfOk result (λ at. at.address ≡ address) }
    ensures status { IfOk result (λ at. at.status ≡ status_of (word_at content.now 1)) }
    ensures info { IfOk result (λ at. at.info ≡ word_at content.now 3) }
    ensures values { IfOk result (λ at. at.values.now ≡ drop 5 content.now) }
    ensures spells { IfOk result (λ at. SpellsAt address len at.status at.info at.values.now content.now) }
    ensures only { (status : Status) (info : ℕ) (values : List ℕ) → status_word status < 2 ^ 16 → info < 2 ^ 16
        → SpellsAt address len status info values content.now
        → IsOkAnd result (λ at. (at.status ≡ status) × (at.info ≡ info) × (at.values.now ≡ values)) }
    ensures fault { result_err result ≡ at_fault address len content.now }
{
    test_head(1 + usize::from(len), address, content)?;
    let fields = read_fields(&content[1..]);
    Ok(At {
        address,
        status: Status::read(fields.word),
        info: fields.info,
        values: fields.values,
    })
}

/// Replaces the content by an AT: its address, its status word and its information word, each with the low byte first, and its values,
/// which are at most 64 bytes.
pub fn write_at(at: &At<'_>, out: &mut Content)
    requires { length at.now.values.now ≤ 64 }
    ensures content { out.new ≡ at_content at.now.address at.now.status at.now.info at.now.values.now }
    ensures spells { SpellsAt at.now.address (4 + length at.now.values.now) at.now.status at.now.info at.now.values.now out.new }
    ensures words { (status_word at.now.status < 2 ^ 16) × (at.now.info < 2 ^ 16) }
{
    out.clear();
    out.push_within(at.address);
    push_fields(at.status.write(), at.info, at.values, out);
}
