// Planner's input for which a plan may be requested.
ghost use Rattle.std.specs.Prelude.{◌≡◌, ℕ, ◌<◌, ◌≤◌, ◌↔◌, length, slice_index_or, IsTrue};
ghost use Rattle.sercos_timing.specs.Clauses.{no_wish, AreDistinct, AreBelow, addresses, is_address, IsWish, AreDrives, is_rate, is_cycle, is_control, IsValid};

use crate::limits::{CYCLE_UNIT, LEAST_CYCLE, MOST_ADDRESS, MOST_CYCLE, MOST_GAP, MOST_RECORDS};
use crate::wishes::{Wish, Wishes};
use arrayvec::ArrayVec;

/// Returns whether a drive or a slave can have the address: 1 to 254 (this profile).
pub fn is_address(address: u8) -> bool
    ensures { result ≡ is_address address }
{
    1 <= address && address <= MOST_ADDRESS
}

// Returns whether a drive's input has an address from 1 to 254, 4 to 68 bytes in the AT after its address, and 4 to 68 bytes in the data
// record. The slave and the times aren't looked at.
fn is_wish(wish: &Wish) -> bool
    ensures { IsTrue result ↔ IsWish wish.now }
{
    let address = is_address(wish.address);
    let at_len = 4 <= wish.at_len && wish.at_len <= 68;
    let record_len = 4 <= wish.record_len && wish.record_len <= 68;
    address && at_len && record_len
}

// Returns whether `is_wish` accepts the input of each drive.
fn are_wishes(drives: &[Wish]) -> bool
    ensures { IsTrue result ↔ ((k : ℕ) → k < length drives.now → IsWish (slice_index_or drives.now k no_wish)) }
{
    for k in 0..drives.len() {
        if !is_wish(&drives[k]) {
            return false;
        }
    }
    true
}

// Returns whether no number occurs twice.
fn are_distinct(numbers: &[u8]) -> bool
    ensures { IsTrue result ↔ AreDistinct numbers.now }
{
    for end in 0..numbers.len() {
        if numbers[..end].contains(&numbers[end]) {
            return false;
        }
    }
    true
}

// Returns whether all numbers are below a limit.
fn are_below(numbers: &[u8], limit: usize) -> bool
    ensures { IsTrue result ↔ AreBelow numbers.now limit }
{
    for i in 0..numbers.len() {
        if usize::from(numbers[i]) >= limit {
            return false;
        }
    }
    true
}

// Returns the addresses of at most 64 drives, in their order.
fn addresses(drives: &[Wish]) -> ArrayVec<u8, 64>
    requires { length drives.now ≤ 64 }
    ensures { result.items ≡ addresses drives.now }
{
    let mut addresses = ArrayVec::new();
    for drive in drives {
        addresses.push(drive.address);
    }
    addresses
}

/// Returns whether a ring can have the cycle time, in microseconds: 125, or a multiple of 250 from 250 to 64,000 (this profile).
#[tactic(auto, unfolding(crate::specs::Valid::is_cycle))]
pub fn is_cycle(cycle: u16) -> bool
    ensures { result ≡ is_cycle cycle }
{
    cycle == LEAST_CYCLE || CYCLE_UNIT <= cycle && cycle <= MOST_CYCLE && cycle % CYCLE_UNIT == 0
}

/// Returns whether a control unit cycle time fits a cycle time, which isn't 0: it is a positive multiple of it (this profile).
#[tactic(auto, unfolding(crate::specs::Valid::is_control))]
pub fn is_control(cycle: u16, control: u16) -> bool
    requires { 0 < cycle }
    ensures { result ≡ is_control cycle control }
{
    1 <= control && control % cycle == 0
}

// Returns whether there is a drive, each has valid input and an address of its own, and their data records are at most 2,047 bytes
// together.
fn are_drives(w: &Wishes) -> bool
    ensures { IsTrue result ↔ AreDrives w.now }
{
    let drives = w.drives();
    let some = 1 <= drives.len();
    let wishes = are_wishes(drives);
    let apart = are_distinct(addresses(drives).as_slice());
    let fit = w.record_bytes() <= MOST_RECORDS;
    some && wishes && apart && fit
}

/// Returns whether a ring can have the rate, in bits per microsecond: 2, 4, 8 or 16: 8 and 16 are of SERCOS II.
#[tactic(auto, unfolding(crate::specs::Valid::is_rate))]
pub fn is_rate(rate: u8) -> bool
    ensures { result ≡ is_rate rate }
{
    rate == 2 || rate == 4 || rate == 8 || rate == 16
}

/// Returns whether a plan may be requested for planner's input (this profile):
/// - There are 1 to 64 drives with distinct addresses from 1 to 254.
/// - The order lists the index of each drive once.
/// - The rate is 2, 4, 8 or 16 bits per microsecond.
/// - The cycle time is 125 microseconds, or a multiple of 250 from 250 to 64,000.
/// - The control unit cycle time is a positive multiple of the cycle time.
/// - The gap is at most 1,000 microseconds.
/// - Each AT has 4 to 68 bytes after its address, each data record has 4 to 68 bytes, and all records together have at most 2,047.
#[tactic(auto, unfolding(crate::specs::Valid::is_rate, crate::specs::Valid::is_cycle, crate::specs::Valid::is_control))]
pub fn valid(w: &Wishes) -> bool
    ensures { IsTrue result ↔ IsValid w.now }
{
    let drives = w.drives().len();
    let order = w.order();
    let in_order = order.len() == drives && are_below(order, drives) && are_distinct(order);
    let cycles = is_cycle(w.cycle) && is_control(w.cycle, w.control);
    are_drives(w) && in_order && is_rate(w.rate) && w.gap <= MOST_GAP && cycles
}
