//! The telegrams of a ring: MST, MDT and AT (IEC 61491:1995).
ghost use Rattle.std.specs.Prelude.{◌≡◌, ◌≢◌, ℕ, ◌+◌, ◌*◌, ◌%◌, ◌^◌, ◌<◌, ◌≤◌, true, false, List, ◌∷◌, length, drop, slice_index, slice_range, None};
ghost use Rattle.sercos_c.specs.Clauses.{mst_fault, single_fault, joint_fault, at_fault, control_word, control_of, status_word, status_of, word_at, mst_content, single_content, at_content, record_bytes, SpellsAt, SpellsRecord, Control, Status, done, refused, IsPut, IsNothing, read_status, layout_of, record_of, at_of, is_record, is_at, can_have, record_content, single_of, at_content_of};

use crate::layouts::{SercosLayout, layout_of, no_fault};
use crate::room::put;
use crate::status::{DONE, NO, REFUSED};
use sercos_bits::Content;
use sercos_telegram::{
    At, Control, Mst, Record, Status, joint_begin, joint_record, read_at, read_joint, read_mst,
    read_single, write_at, write_mst, write_single,
};

// The greatest phase, and the bytes of the two words that an AT, after its address, or a record begins with.
const LAST_PHASE: u8 = 4;

const WORDS: u16 = 4;

// The most bytes of values of an AT, and of a record that is alone in its MDT.
const MOST_AT_VALUES: usize = 64;

const MOST_RECORD_VALUES: usize = 2043;

/// An MST.
#[repr(C)]
#[derive(Clone, Copy)]
pub struct SercosMst {
    /// The phase that the master commands, 0 to 4.
    pub phase: u8,
}

/// The record of an MDT: its control word and its information word. The command values follow them in the content.
#[repr(C)]
#[derive(Clone, Copy)]
pub struct SercosRecord {
    /// The master's handshake bit of the service channel.
    pub mhs: bool,
    /// Whether the step writes.
    pub write: bool,
    /// Whether its word is the last of the element.
    pub last: bool,
    /// The element of the data block, 0 to 7.
    pub element: u8,
    /// Bits 15 to 6 of the control word, at their places.
    pub cyclic: u16,
    /// The information word.
    pub info: u16,
}

/// An AT: its address, its status word and its information word. The feedback values follow them in the content.
#[repr(C)]
#[derive(Clone, Copy)]
pub struct SercosAt {
    /// The drive's address.
    pub address: u8,
    /// The drive's handshake bit of the service channel.
    pub ahs: bool,
    /// Whether the drive is busy with the step.
    pub busy: bool,
    /// Whether the information word is the code of an error.
    pub error: bool,
    /// Whether a procedure command has ended.
    pub change: bool,
    /// Bits 3, 4 and 15 to 6 of the status word, at their places.
    pub cyclic: u16,
    /// The information word.
    pub info: u16,
}

/// Reads an MST into `mst`, and returns `DONE`. Returns `NO`, with the reason in `why`, unless the content has two bytes, the first 255 and
/// the second at most 4; then `mst` stays as it was. Unless the result is `NO`, all fields of `why` are 0.
#[unsafe(no_mangle)]
pub extern "C" fn sercos_mst_read(content: &[u8], mst: &mut SercosMst, why: &mut SercosLayout) -> u8
    ensures status { result ≡ read_status (mst_fault content.now) }
    ensures why { why.new ≡ layout_of (mst_fault content.now) }
    ensures phase { result ≡ done → mst.new.phase ≡ slice_index content.now 1 }
    ensures spells { result ≡ done → content.now ≡ mst_content mst.new.phase }
    ensures only { (phase : ℕ) → phase ≤ 4 → content.now ≡ mst_content phase → (result ≡ done) × (mst.new.phase ≡ phase) }
    ensures kept { result ≢ done → mst.new ≡ mst.old }
{
    match read_mst(content) {
        Ok(found) => {
            mst.phase = found.phase;
            *why = no_fault();
            DONE
        }
        Err(fault) => {
            *why = layout_of(fault);
            NO
        }
    }
}

// Returns the struct of an AT.
fn at_of(at: &At<'_>) -> SercosAt
    ensures { result ≡ at_of at.now.address at.now.status at.now.info }
{
    SercosAt {
        address: at.address,
        ahs: at.status.ahs,
        busy: at.status.busy,
        error: at.status.error,
        change: at.status.change,
        cyclic: at.status.cyclic,
        info: at.info,
    }
}

/// Reads the AT of an address with `at_len` bytes after the address into `at`, and returns `DONE`. Its values are the bytes of the content
/// from offset 5 on. Returns `REFUSED` if `at_len` is below 4; otherwise `NO`, with the reason in `why`, unless the content has `at_len` +
/// 1 bytes, the first of which is the address. After both `at` stays as it was. Unless the result is `NO`, all fields of `why` are 0.
#[unsafe(no_mangle)]
pub extern "C" fn sercos_at_read(
    address: u8,
    at_len: u16,
    content: &[u8],
    at: &mut SercosAt,
    why: &mut SercosLayout,
) -> u8
    ensures refused { at_len < 4 → (result ≡ refused) × (why.new ≡ layout_of None) }
    ensures status { 4 ≤ at_len → result ≡ read_status (at_fault address at_len content.now) }
    ensures why { 4 ≤ at_len → why.new ≡ layout_of (at_fault address at_len content.now) }
    ensures at { result ≡ done → at.new ≡ at_of address (status_of (word_at content.now 1)) (word_at content.now 3) }
    ensures spells { result ≡ done → SpellsAt address at_len (status_of (word_at content.now 1)) (word_at content.now 3) (drop 5 content.now) content.now }
    ensures only { (status : Status) (info : ℕ) (values : List ℕ) → status_word status < 2 ^ 16 → info < 2 ^ 16 → 4 ≤ at_len
        → SpellsAt address at_len status info values content.now → (result ≡ done) × (at.new ≡ at_of address status info) }
    ensures kept { result ≢ done → at.new ≡ at.old }
{
    *why = no_fault();
    if at_len < WORDS {
        return REFUSED;
    }
    match read_at(address, at_len, content) {
        Ok(found) => {
            *at = at_of(&found);
            DONE
        }
        Err(fault) => {
            *why = layout_of(fault);
            NO
        }
    }
}

// Returns the struct of a control word and an information word.
fn record_of(control: &Control, info: u16) -> SercosRecord
    ensures { result ≡ record_of control.now info }
{
    SercosRecord {
        mhs: control.mhs,
        write: control.write,
        last: control.last,
        element: control.element,
        cyclic: control.cyclic,
        info,
    }
}

/// Reads the MDT of phases 1 and 2 to the drive with this address into `part`, and returns `DONE`. Returns `NO`, with the reason in `why`,
/// unless the content has five bytes, the first of which is the address; then `part` stays as it was. Unless the result is `NO`, all fields
/// of `why` are 0.
#[unsafe(no_mangle)]
pub extern "C" fn sercos_single_read(
    address: u8,
    content: &[u8],
    part: &mut SercosRecord,
    why: &mut SercosLayout,
) -> u8
    ensures status { result ≡ read_status (single_fault address content.now) }
    ensures why { why.new ≡ layout_of (single_fault address content.now) }
    ensures words { result ≡ done → part.new ≡ record_of (control_of (word_at content.now 1)) (word_at content.now 3) }
    ensures spells { result ≡ done → content.now ≡ single_content address (control_of (word_at content.now 1)) (word_at content.now 3) }
    ensures only { (control : Control) (info : ℕ) → control_word control < 2 ^ 16 → info < 2 ^ 16 → content.now ≡ single_content address control info
        → (result ≡ done) × (part.new ≡ record_of control info) }
    ensures kept { result ≢ done → part.new ≡ part.old }
{
    *why = no_fault();
    match read_single(address, content) {
        Ok((control, info)) => {
            *part = record_of(&control, info);
            DONE
        }
        Err(fault) => {
            *why = layout_of(fault);
            NO
        }
    }
}

// Returns whether an MDT with `mdt_len` bytes after its address can have a record of `record_len` bytes at a position: the position is 1 or
// more, the record has at least 4 bytes, and it ends within the MDT.
fn has_record(mdt_len: u16, position: u16, record_len: u16) -> bool
    ensures { result ≡ can_have mdt_len position record_len }
{
    let end = u32::from(position) + u32::from(record_len);
    1 <= position && WORDS <= record_len && end <= u32::from(mdt_len) + 1
}

/// Reads the record of `record_len` bytes at a position of the MDT of phases 3 and 4, which has `mdt_len` bytes after its address, into
/// `part`, and returns `DONE`. The first position is 1, and the values are at the offsets position + 4 to position + `record_len` - 1 of
/// the content. Returns `REFUSED` if the position is 0, the record has fewer than 4 bytes, or it ends after the MDT; otherwise `NO`, with
/// the reason in `why`, unless the content has `mdt_len` + 1 bytes, the first of which is 255. After both `part` stays as it was. Unless
/// the result is `NO`, all fields of `why` are 0.
#[unsafe(no_mangle)]
pub extern "C" fn sercos_joint_read(
    mdt_len: u16,
    position: u16,
    record_len: u16,
    content: &[u8],
    part: &mut SercosRecord,
    why: &mut SercosLayout,
) -> u8
    ensures refused { can_have mdt_len position record_len ≡ false → (result ≡ refused) × (why.new ≡ layout_of None) }
    ensures status { can_have mdt_len position record_len ≡ true → result ≡ read_status (joint_fault mdt_len content.now) }
    ensures why { can_have mdt_len position record_len ≡ true → why.new ≡ layout_of (joint_fault mdt_len content.now) }
    ensures words { result ≡ done → part.new ≡ record_of (control_of (word_at content.now position)) (word_at content.now (position + 2)) }
    ensures spells { result ≡ done → SpellsRecord mdt_len position record_len (control_of (word_at content.now position)) (word_at content.now (position + 2))
        (slice_range content.now (position + 4) (position + record_len)) content.now }
    ensures only { (control : Control) (info : ℕ) (values : List ℕ) → control_word control < 2 ^ 16 → info < 2 ^ 16
        → can_have mdt_len position record_len ≡ true → SpellsRecord mdt_len position record_len control info values content.now
        → (result ≡ done) × (part.new ≡ record_of control info) }
    ensures kept { result ≢ done → part.new ≡ part.old }
{
    *why = no_fault();
    if !has_record(mdt_len, position, record_len) {
        return REFUSED;
    }
    match read_joint(mdt_len, position, record_len, content) {
        Ok(found) => {
            *part = record_of(&found.control, found.info);
            DONE
        }
        Err(fault) => {
            *why = layout_of(fault);
            NO
        }
    }
}

/// Writes an MST to the front of `out`, and the number of its bytes to `written`, and returns `DONE`. Returns `REFUSED` if the phase is
/// above 4; otherwise `WRITE_FAULT` if there is too little room. After both `out` stays as it was, and `written` is 0.
#[unsafe(no_mangle)]
pub extern "C" fn sercos_mst_write(mst: &SercosMst, out: &mut [u8], written: &mut usize) -> u8
    ensures put { mst.now.phase ≤ 4 → IsPut (mst_content mst.now.phase) out.old out.new written.new result }
    ensures refused { 4 < mst.now.phase → IsNothing refused out.old out.new written.new result }
{
    if mst.phase > LAST_PHASE {
        *written = 0;
        return REFUSED;
    }
    let mut content = Content::new();
    write_mst(&Mst { phase: mst.phase }, &mut content);
    put(content.as_slice(), out, written)
}

// Returns whether the cyclic bits of an AT are at their places: 3, 4 and 15 to 6.
fn is_at(at: &SercosAt) -> bool
    ensures { result ≡ is_at at.now }
{
    at.cyclic % 8 == 0 && at.cyclic % 64 < 32
}

// Replaces a content by that of an AT with at most 64 bytes of values. The cyclic bits must be at their places, 3, 4 and 15 to 6.
fn spell_at(at: &SercosAt, values: &[u8], content: &mut Content)
    requires fields { is_at at.now ≡ true }
    requires few { length values.now ≤ 64 }
    ensures { content.new ≡ at_content_of at.now values.now }
{
    let status = Status {
        ahs: at.ahs,
        busy: at.busy,
        error: at.error,
        change: at.change,
        cyclic: at.cyclic,
    };
    let at = At {
        address: at.address,
        status,
        info: at.info,
        values,
    };
    write_at(&at, content);
}

/// Writes an AT with its values to the front of `out`, and the number of its bytes to `written`, and returns `DONE`. Returns `REFUSED` if
/// the cyclic bits are not at their places, 3, 4 and 15 to 6, or if there are more than 64 bytes of values; otherwise `WRITE_FAULT` if
/// there is too little room. After both `out` stays as it was, and `written` is 0.
#[unsafe(no_mangle)]
pub extern "C" fn sercos_at_write(
    at: &SercosAt,
    values: &[u8],
    out: &mut [u8],
    written: &mut usize,
) -> u8
    ensures put { is_at at.now ≡ true → length values.now ≤ 64 → IsPut (at_content_of at.now values.now) out.old out.new written.new result }
    ensures spelling { (status : Status) → at.now ≡ at_of at.now.address status at.now.info
        → at_content_of at.now values.now ≡ at_content at.now.address status at.now.info values.now }
    ensures range { is_at at.now ≡ false → IsNothing refused out.old out.new written.new result }
    ensures long { 64 < length values.now → IsNothing refused out.old out.new written.new result }
{
    if !is_at(at) || values.len() > MOST_AT_VALUES {
        *written = 0;
        return REFUSED;
    }
    let mut content = Content::new();
    spell_at(at, values, &mut content);
    put(content.as_slice(), out, written)
}

// Returns whether the element of a record is at most 7, and its cyclic bits are at their places, 15 to 6.
fn is_record(part: &SercosRecord) -> bool
    ensures { result ≡ is_record part.now }
{
    part.element < 8 && part.cyclic % 64 == 0
}

// Returns the control word of a record. The element must be at most 7, and the cyclic bits at their places, 15 to 6.
fn control_of(part: &SercosRecord) -> Control
    requires { is_record part.now ≡ true }
    ensures { part.now ≡ record_of result part.now.info }
{
    Control {
        mhs: part.mhs,
        write: part.write,
        last: part.last,
        element: part.element,
        cyclic: part.cyclic,
    }
}

/// Writes the MDT of phases 1 and 2 to the drive with this address to the front of `out`, and the number of its bytes to `written`, and
/// returns `DONE`. Returns `REFUSED` if the element is above 7, or if the cyclic bits are not at their places, 15 to 6; otherwise
/// `WRITE_FAULT` if there is too little room. After both `out` stays as it was, and `written` is 0.
#[unsafe(no_mangle)]
pub extern "C" fn sercos_single_write(
    address: u8,
    part: &SercosRecord,
    out: &mut [u8],
    written: &mut usize,
) -> u8
    ensures put { is_record part.now ≡ true → IsPut (single_of address part.now) out.old out.new written.new result }
    ensures spelling { (control : Control) → part.now ≡ record_of control part.now.info
        → single_of address part.now ≡ single_content address control part.now.info }
    ensures refused { is_record part.now ≡ false → IsNothing refused out.old out.new written.new result }
{
    if !is_record(part) {
        *written = 0;
        return REFUSED;
    }
    let mut content = Content::new();
    write_single(address, &control_of(part), part.info, &mut content);
    put(content.as_slice(), out, written)
}

// Replaces a content by the address of all drives, 255, and the bytes of a record with at most 2,043 bytes of values. The element must be
// at most 7, and the cyclic bits at their places, 15 to 6.
fn spell_record(part: &SercosRecord, values: &[u8], content: &mut Content)
    requires fields { is_record part.now ≡ true }
    requires few { length values.now ≤ 2043 }
    ensures { content.new ≡ 255 ∷ record_content part.now values.now }
{
    joint_begin(content);
    let record = Record {
        control: control_of(part),
        info: part.info,
        values,
    };
    let _fits = joint_record(&record, content);
}

/// Writes the bytes of one record of the MDT of phases 3 and 4 to the front of `out`: the control word and the information word, each with
/// its low byte first, and its values. Writes their number to `written`, and returns `DONE`. Returns `REFUSED` if the element is above 7,
/// if the cyclic bits are not at their places, 15 to 6, or if the record has more than 2,047 bytes; otherwise `WRITE_FAULT` if there is too
/// little room. After both `out` stays as it was, and `written` is 0.
#[unsafe(no_mangle)]
pub extern "C" fn sercos_record_write(
    part: &SercosRecord,
    values: &[u8],
    out: &mut [u8],
    written: &mut usize,
) -> u8
    ensures put { is_record part.now ≡ true → length values.now ≤ 2043
        → IsPut (record_content part.now values.now) out.old out.new written.new result }
    ensures spelling { (control : Control) → part.now ≡ record_of control part.now.info
        → record_content part.now values.now ≡ record_bytes control part.now.info values.now }
    ensures range { is_record part.now ≡ false → IsNothing refused out.old out.new written.new result }
    ensures long { 2043 < length values.now → IsNothing refused out.old out.new written.new result }
{
    if !is_record(part) || values.len() > MOST_RECORD_VALUES {
        *written = 0;
        return REFUSED;
    }
    let mut content = Content::new();
    spell_record(part, values, &mut content);
    put(&content.as_slice()[1..], out, written)
}
