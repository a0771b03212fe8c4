// What a drive reads of the contents that arrive.
ghost use Rattle.std.specs.Prelude.{◌≡◌, ◌≤◌, IfSome, List};
ghost use Rattle.sercos_drive.specs.Clauses.{option_copied, Block, slot_of, mst_in, mst_got, single_in, record_in, joint_in, mdt_got};

use crate::slot::Slot;
use sercos_telegram::{Control, read_joint, read_mst, read_single};

/// What the drive reads of an MDT: its record's two words.
#[derive(Clone, Copy, Debug, PartialEq, Eq)]
pub struct Told {
    /// The control word.
    pub control: Control,
    /// The information word of the service channel.
    pub info: u16,
}

// Returns the phase that an MST commands, 0 to 4; `None` if the content is not an MST.
#[tactic(auto, unfolding(crate::specs::Heard::mst_in))]
fn mst_in(content: &[u8]) -> Option<u8>
    ensures value { result ≡ mst_in content.now }
    ensures bound { IfSome result (λ phase. phase ≤ 4) }
{
    match read_mst(content) {
        Ok(mst) => Some(mst.phase),
        Err(_) => None,
    }
}

// Returns the phase, 0 to 4, that is commanded by what arrived in the MST's time slot; `None` if there is no content, or if it is not an
// MST.
pub(crate) fn mst_got(content: Option<&[u8]>) -> Option<u8>
    ensures value { result ≡ mst_got (option_copied content.entry) }
    ensures bound { IfSome result (λ phase. phase ≤ 4) }
{
    match content {
        Some(content) => mst_in(content),
        None => None,
    }
}

// Returns the record of an MDT to the one drive with this address; `None` if the content is not such an MDT.
#[tactic(auto, unfolding(crate::specs::Heard::single_in))]
fn single_in(address: u8, content: &[u8]) -> Option<Told>
    ensures { result ≡ single_in address content.now }
{
    match read_single(address, content) {
        Ok((control, info)) => Some(Told { control, info }),
        Err(_) => None,
    }
}

// Returns the record of `len` bytes, at least 4, at a position of an MDT to all drives with `mdt_len` bytes after its address; `None` if
// the content is not such an MDT, or the record isn't within it. Position 1 is the first byte after the address.
fn record_in(mdt_len: u16, position: u16, len: u16, content: &[u8]) -> Option<Told>
    requires { 4 ≤ len }
    ensures { result ≡ record_in mdt_len position len content.now }
{
    if position < 1 || u32::from(mdt_len) + 1 < u32::from(position) + u32::from(len) {
        return None;
    }
    match read_joint(mdt_len, position, len, content) {
        Ok(record) => Some(Told {
            control: record.control,
            info: record.info,
        }),
        Err(_) => None,
    }
}

// Returns the drive's own record of an MDT to all drives, by its slot, whose record has at least 4 bytes; `None` as for `record_in`.
fn joint_in(slot: &Slot, content: &[u8]) -> Option<Told>
    requires { 4 ≤ slot.now.record_len }
    ensures { (blocks : List Block) → slot.now ≡ slot_of blocks → result ≡ joint_in blocks content.now }
{
    record_in(slot.mdt_len, slot.position, slot.record_len, content)
}

// Returns the record that the drive reads in the MDT's time slot: in phases 3 and 4 its own of an MDT to all drives, otherwise that of an
// MDT to its address. `None` if there is no content, if it is not such an MDT, or if in phases 3 and 4 the drive's record isn't within
// the MDT by S-0-0009 and S-0-0010. The record of the slot has at least 4 bytes.
pub(crate) fn mdt_got(address: u8, phase: u8, slot: &Slot, content: Option<&[u8]>) -> Option<Told>
    requires { 4 ≤ slot.now.record_len }
    ensures { (blocks : List Block) → slot.now ≡ slot_of blocks → result ≡ mdt_got address phase blocks (option_copied content.entry) }
{
    match content {
        Some(content) => {
            if 3 <= phase {
                joint_in(slot, content)
            } else {
                single_in(address, content)
            }
        }
        None => None,
    }
}
