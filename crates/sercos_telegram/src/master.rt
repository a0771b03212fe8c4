//! What the master sends: the MST and the MDT.
ghost use Rattle.std.specs.Prelude.{◌≡◌, ℕ, ◌+◌, ◌^◌, ◌<◌, ◌≤◌, ◌↔◌, [], ◌∷◌, ◌++◌, List, length, slice_index, slice_range, IfOk, IsOkAnd, IsErr, OnOk, OnErr};
ghost use Rattle.sercos_telegram.specs.Clauses.{result_err, mst_fault, single_fault, joint_fault, control_word, control_of, all_drives, word_at, mst_content, single_content, record_bytes, SpellsRecord};

use crate::fields::{push_fields, read_fields};
use crate::layout::{Layout, test_head};
use crate::words::Control;
use sercos_bits::{Content, Full, MAX_CONTENT};

/// The address of the telegrams that go to all drives.
const ALL_DRIVES: u8 = 255;

/// The greatest phase.
const LAST_PHASE: u8 = 4;

/// An MST, the master's synchronisation telegram (IEC 61491:1995).
#[derive(Clone, Copy, Debug, PartialEq, Eq)]
pub struct Mst {
    /// The phase that is commanded, 0 to 4. It is the whole byte after the address. So bits 7 to 3 of this byte are sent as 0, and another
    /// value is refused (this profile).
    pub phase: u8,
    ghost phase_in_range: { phase ≤ 4 },
}

/// A record of an MDT, the master's part for one drive (IEC 61491:1995). In phases 3 and 4 its values are the configured command values.
#[derive(Clone, Copy, Debug, PartialEq, Eq)]
pub struct Record<'a> {
    /// The control word.
    pub control: Control,
    /// The information word of the service channel.
    pub info: u16,
    /// The bytes of the values.
    pub values: &'a [u8],
}

/// Reads an MST. Every MST of a phase from 0 to 4 is accepted. The error is `Length` unless the content has two bytes, otherwise `Address`
/// unless the first is 255, otherwise `BadField(1)` if the second is above 4.
#[tactic(auto, unfolding(crate::specs::Faults::mst_fault))]
pub fn read_mst(content: &[u8]) -> Result<Mst, Layout>
    ensures phase { IfOk result (λ mst. mst.phase ≡ slice_index content.now 1) }
    ensures spells { IfOk result (λ mst. content.now ≡ mst_content mst.phase) }
    ensures only { (phase : ℕ) → phase ≤ 4 → content.now ≡ mst_content phase
        → IsOkAnd result (λ mst. mst.phase ≡ phase) }
    ensures fault { result_err result ≡ mst_fault content.now }
{
    test_head(2, ALL_DRIVES, content)?;
    let phase = content[1];
    if phase > LAST_PHASE {
        return Err(Layout::BadField(1));
    }
    Ok(Mst { phase })
}

/// Replaces the content by the two bytes of an MST: 255, the address of all drives, and the phase.
pub fn write_mst(m: &Mst, out: &mut Content)
    ensures { out.new ≡ mst_content m.now.phase }
{
    out.clear();
    out.push_within(ALL_DRIVES);
    out.push_within(m.phase);
}

/// Reads the MDT of phases 1 and 2 for the drive with an address, and returns its control word and information word. Every such MDT is
/// accepted. The error is `Length` unless the content has five bytes, otherwise `Address` if its first byte isn't the address.
pub fn read_single(address: u8, content: &[u8]) -> Result<(Control, u16), Layout>
    ensures control { IfOk result (λ words. words.0 ≡ control_of (word_at content.now 1)) }
    ensures info { IfOk result (λ words. words.1 ≡ word_at content.now 3) }
    ensures spells { IfOk result (λ words. content.now ≡ single_content address words.0 words.1) }
    ensures only { (control : Control) (info : ℕ) → control_word control < 2 ^ 16 → info < 2 ^ 16
        → content.now ≡ single_content address control info
        → IsOkAnd result (λ words. (words.0 ≡ control) × (words.1 ≡ info)) }
    ensures fault { result_err result ≡ single_fault address content.now }
{
    test_head(5, address, content)?;
    let fields = read_fields(&content[1..]);
    Ok((Control::read(fields.word), fields.info))
}

/// Replaces the content by the five bytes of the MDT of phases 1 and 2 for the drive with an address: the address, the control word and the
/// information word, each word with its low byte first.
pub fn write_single(address: u8, control: &Control, info: u16, out: &mut Content)
    ensures content { out.new ≡ single_content address control.now info }
    ensures words { (control_word control.now < 2 ^ 16) × (info < 2 ^ 16) }
{
    out.clear();
    out.push_within(address);
    push_fields(control.write(), info, &[], out);
}

/// Reads one record of an MDT of phases 3 and 4. The MDT has `mdt_len` bytes after its address. The record has `len` bytes, at least the 4
/// of its two words, from `position` on, at least 1; position 1 is the first byte after the address. The record must end within these
/// `mdt_len` bytes. Every such MDT is accepted. The error is `Length` if the content doesn't have 1 + `mdt_len` bytes, otherwise `Address`
/// if it doesn't begin with 255. The values of the result borrow from the content.
pub fn read_joint(
    mdt_len: u16,
    position: u16,
    len: u16,
    content: &[u8],
) -> Result<Record<'_>, Layout>
    requires behind_address { 1 ≤ position }
    requires words { 4 ≤ len }
    requires within { position + len ≤ mdt_len + 1 }
    ensures control { IfOk result (λ r. r.control ≡ control_of (word_at content.now position)) }
    ensures info { IfOk result (λ r. r.info ≡ word_at content.now (position + 2)) }
    ensures values { IfOk result (λ r. r.values.now ≡ slice_range content.now (position + 4) (position + len)) }
    ensures spells { IfOk result (λ r. SpellsRecord mdt_len position len r.control r.info r.values.now content.now) }
    ensures only { (control : Control) (info : ℕ) (values : List ℕ) → control_word control < 2 ^ 16 → info < 2 ^ 16
        → SpellsRecord mdt_len position len control info values content.now
        → IsOkAnd result (λ r. (r.control ≡ control) × (r.info ≡ info) × (r.values.now ≡ values)) }
    ensures fault { result_err result ≡ joint_fault mdt_len content.now }
{
    test_head(1 + usize::from(mdt_len), ALL_DRIVES, content)?;
    let begin = usize::from(position);
    let fields = read_fields(&content[begin..begin + usize::from(len)]);
    Ok(Record {
        control: Control::read(fields.word),
        info: fields.info,
        values: fields.values,
    })
}

/// Replaces the content by the beginning of an MDT of phases 3 and 4: one byte, 255, which is the address of all drives. Records are then
/// appended by `joint_record`.
pub fn joint_begin(out: &mut Content)
    ensures { out.new ≡ all_drives ∷ [] }
{
    out.clear();
    out.push_within(ALL_DRIVES);
}

/// Appends a record to an MDT of phases 3 and 4: its control word and its information word, each with the low byte first, and its values.
/// Of what `out` already has, only the length is looked at. The error is `Full` iff the MDT would be longer than 2048 bytes, its address
/// included. Then nothing is appended.
pub fn joint_record(r: &Record<'_>, out: &mut Content) -> Result<(), Full>
    ensures full { IsErr result ↔ (2048 < length out.old + 4 + length r.now.values.now) }
    ensures ok { OnOk result (out.new ≡ out.old ++ record_bytes r.now.control r.now.info r.now.values.now) }
    ensures words { OnOk result ((control_word r.now.control < 2 ^ 16) × (r.now.info < 2 ^ 16)) }
    ensures err { OnErr result (out.new ≡ out.old) }
{
    if out.len() + 4 > MAX_CONTENT || r.values.len() > MAX_CONTENT - 4 - out.len() {
        return Err(Full);
    }
    push_fields(r.control.write(), r.info, r.values, out);
    Ok(())
}
