// The planner's input of drives, looked up by address.
ghost use Rattle.std.specs.Prelude.{◌≡◌, ◌*◌, if◌then◌else◌, Some, None};
ghost use Rattle.sercos_check.specs.Clauses.{drive_with, is_at, address_of, mark_of, found_for};

use crate::marks::{Mark, Note};
use sercos_bits::byte_at;
use sercos_telegram::Kind;
use sercos_timing::{Wish, Wishes};
use sercos_trace::Sent;

// Returns the address of a telegram, the first byte of its content; 0 for an empty content.
pub fn address_of(sent: &Sent) -> u8
    ensures { result ≡ address_of sent.now }
{
    byte_at(sent.content.as_slice(), 0)
}

// Returns the first drive with an address; `None` if there is none.
fn drive_with(drives: &[Wish], address: u8) -> Option<Wish>
    ensures { result ≡ drive_with drives.now address }
{
    for drive in drives {
        if drive.address == address {
            return Some(*drive);
        }
    }
    None
}

// Returns microseconds in bit times, by the rate of the ring in bits per microsecond.
pub fn bit_times(w: &Wishes, micros: u16) -> u32
    ensures { result ≡ w.now.rate * micros }
{
    u32::from(w.rate) * u32::from(micros)
}

// Returns when a telegram is sent: its start and its length.
pub fn mark_of(sent: &Sent) -> Mark
    ensures { result ≡ mark_of sent.now }
{
    Mark {
        start: sent.start,
        bits: sent.bits,
    }
}

// Returns the slave that sends a telegram; `None` if it isn't an AT. `slave` is the slave of the first drive with the telegram's address, 0
// if there is none.
fn sender_of(kind: Kind, slave: u8) -> Option<u8>
    ensures { result ≡ (if is_at kind then Some slave else None) }
{
    match kind {
        Kind::At => Some(slave),
        _ => None,
    }
}

/// What the rules need of a telegram and its drive, looked up once.
#[derive(Clone, Copy)]
pub struct Found {
    /// Whether the telegram's address is that of a drive.
    pub is_drive: bool,
    /// The planner's input of the drive; all zeros if there is none.
    pub wish: Wish,
    /// What the rules for the next telegram need of this one.
    pub note: Note,
}

/// Looks up what the rules need of a telegram: of the first drive with its address, and its start, length and sender. `w` is the planner's
/// input of the ring.
#[tactic(auto, using(crate::proofs::FoundLemmas::is_found))]
pub fn found_for(w: &Wishes, sent: &Sent) -> Found
    ensures { result ≡ found_for w.now sent.now }
{
    let drive = drive_with(w.drives(), address_of(sent));
    let wish = drive.unwrap_or_default();
    Found {
        is_drive: drive.is_some(),
        wish,
        note: Note {
            mark: mark_of(sent),
            sender: sender_of(sent.kind, wish.slave),
        },
    }
}
