// The data blocks that configure a drive's telegrams in phases 3 and 4, as last read.
ghost use Rattle.std.specs.Prelude.{◌≤◌};
ghost use Rattle.sercos_drive.specs.Clauses.{IsSlot};

use crate::feedback::{FeedbackValue, feedback_all};
use arrayvec::ArrayVec;
use sercos_block::Store;
use sercos_block::numbers::{AT_LIST, MDT_LENGTH, MDT_LIST, POSITION, T1};
use sercos_command::{carried_len, idns_at, number_at};

/// The start and the values of a drive's AT, and the place of its record in the MDT, in phases 3 and 4.
#[derive(Drop)]
pub(crate) struct Slot {
    /// The start of the AT, S-0-0006, in microseconds after the MST's end.
    pub start: u16,
    /// The number of bytes of the MDT after its address, S-0-0010.
    pub mdt_len: u16,
    /// The position of the record in the MDT, S-0-0009; 1 is the first byte after the address.
    pub position: u16,
    /// The number of bytes of the record: two words, and the command values in S-0-0024.
    pub record_len: u16,
    /// The values that the AT carries after its two words, those in S-0-0016.
    pub feedback: ArrayVec<FeedbackValue, 16>,
}

/// Returns the slot that the data blocks define. Its record has at least 4 bytes.
pub(crate) fn slot_of(store: &Store) -> Slot
    ensures slot { IsSlot result store.now }
    ensures bound { 4 ≤ result.record_len }
{
    Slot {
        start: number_at(store, T1) as u16,
        mdt_len: number_at(store, MDT_LENGTH) as u16,
        position: number_at(store, POSITION) as u16,
        record_len: carried_len(store, MDT_LIST) as u16,
        feedback: feedback_all(store, idns_at(store, AT_LIST).as_slice()),
    }
}
