// The rules for a ring and its drives.
ghost use Rattle.std.specs.Prelude.{◌≡◌, ◌==◌, ◌≤◌, [], length, true};
ghost use Rattle.sercos_block.specs.Clauses.{has_ring_numbers, are_times, has_drive_numbers, has_address, is_no_command, has_other_data, is_drive, are_drives, is_turn, are_turns, has_drives, is_ring};

use crate::carried::{are_cyclic, block_attribute, mdt_len};
use crate::check::check_blocks;
use crate::law::ring_law;
use crate::limits::{MOST_BLOCKS, MOST_BUSY, MOST_COMMAND, MOST_CYCLES};
use crate::setup::{DriveSetup, RingSetup};
use sercos_idn::{Attribute, Idn};
use sercos_timing::limits::{
    MOST_CYCLE, MOST_DRIVES, MOST_GAP, MOST_RECORDS, MOST_T1MIN, MOST_T4MIN, MOST_TATAT,
    MOST_TATMT, MOST_TMTSG, MOST_TMTSY,
};
use sercos_timing::{Times, is_address, is_control, is_cycle, is_rate};

// Returns whether a drive can declare these times, in microseconds: t1min and tatmt up to 300, t4min, tatat and tmtsg up to 64,000, and
// tmtsy up to 250.
#[tactic(auto, unfolding(crate::specs::Rings::are_times))]
fn are_times(times: &Times) -> bool
    ensures { result ≡ are_times times.now }
{
    times.t1min <= MOST_T1MIN
        && times.tatmt <= MOST_TATMT
        && times.t4min <= MOST_T4MIN
        && times.tatat <= MOST_TATAT
        && times.tmtsy <= MOST_TMTSY
        && times.tmtsg <= MOST_TMTSG
}

/// Returns whether one of the drives has the address.
#[tactic(auto, unfolding(crate::specs::Rings::has_address))]
pub fn has_address(address: u8, drives: &[DriveSetup]) -> bool
    ensures { result ≡ has_address address drives.now }
{
    drives.iter().any(|drive| drive.address == address)
}

// Returns whether there is an attribute and it isn't that of a procedure command.
fn is_no_command(attribute: Option<Attribute>) -> bool
    ensures { result ≡ is_no_command attribute }
{
    match attribute {
        Some(attribute) => !attribute.command,
        None => false,
    }
}

/// Returns whether a drive with the address has a block with the identifier number, built-in or own, that is no procedure command. Such a
/// number can't be requested as a command; a number that the drive lacks can.
#[tactic(auto, unfolding(crate::specs::Rings::has_other_data))]
pub fn has_other_data(address: u8, idn: Idn, drives: &[DriveSetup]) -> bool
    ensures { result ≡ has_other_data address idn.raw drives.now }
{
    drives.iter().any(|drive| {
        drive.address == address && is_no_command(block_attribute(drive.blocks.as_slice(), idn))
    })
}

// Returns whether `is_drive` accepts each drive after those before it in the ring. The first follows none.
#[tactic(auto, unfolding(crate::specs::Rings::are_drives))]
fn are_drives(drives: &[DriveSetup]) -> bool
    ensures { result ≡ are_drives [] drives.now }
{
    for index in 0..drives.len() {
        if !drives[index].is_drive(&drives[..index]) {
            return false;
        }
    }
    true
}

// Returns whether index `place` is below the number of drives and not among those before it in the order.
#[tactic(auto, unfolding(crate::specs::Rings::is_turn))]
fn is_turn(drives: usize, before: &[u8], place: u8) -> bool
    ensures { result ≡ is_turn drives before.now place }
{
    usize::from(place) < drives && !before.contains(&place)
}

// Returns whether the indices in the order are distinct and below the number of drives.
#[tactic(auto, unfolding(crate::specs::Rings::are_turns))]
fn are_turns(drives: usize, order: &[u8]) -> bool
    ensures { result ≡ are_turns drives [] order.now }
{
    for index in 0..order.len() {
        if !is_turn(drives, &order[..index], order[index]) {
            return false;
        }
    }
    true
}

impl DriveSetup {
    // Returns whether the drive's own numbers are in their ranges: both addresses from 1 to 254, at most 20 busy cycles, at most 200
    // command cycles, the times that it declares, and at most 64,000 microseconds for its shortest and its longest cycle time.
    #[tactic(auto, unfolding(crate::specs::Rings::are_drive_numbers))]
    fn has_numbers(&self) -> bool
        ensures { result ≡ has_drive_numbers self.now }
    {
        is_address(self.address)
            && is_address(self.slave)
            && self.busy <= MOST_BUSY
            && self.command <= MOST_COMMAND
            && are_times(&self.times)
            && self.cycle_min <= MOST_CYCLE
            && self.cycle_max <= MOST_CYCLE
    }

    // Returns whether the drive may follow these in the ring. Its address is not one of theirs, and its own numbers are in their ranges. It
    // has at most 36 blocks of its own, which `check_blocks` accepts. A telegram can carry every identifier number that its AT and its data
    // record are configured with.
    #[tactic(auto, unfolding(crate::specs::Rings::is_drive, crate::specs::Rings::has_blocks))]
    fn is_drive(&self, before: &[DriveSetup]) -> bool
        ensures { result ≡ is_drive before.now self.now }
    {
        !has_address(self.address, before)
            && self.has_numbers()
            && self.blocks.len() <= MOST_BLOCKS
            && check_blocks(self).is_ok()
            && are_cyclic(self.blocks.as_slice(), self.at.as_slice())
            && are_cyclic(self.blocks.as_slice(), self.mdt.as_slice())
    }
}

impl RingSetup {
    // Returns whether the ring's own numbers are in their ranges: a rate of 2, 4, 8 or 16, a cycle time of 125 or a multiple of 250 up to
    // 64,000 microseconds, a control unit cycle time that is a positive multiple of the cycle time and at most 64,000 microseconds, a gap
    // of at most 1000 microseconds, and 1 to 50,000 cycles.
    #[tactic(auto, unfolding(crate::specs::Rings::are_ring_numbers, sercos_timing::specs::Valid::is_cycle))]
    fn has_numbers(&self) -> bool
        ensures { result ≡ has_ring_numbers self.now }
    {
        is_rate(self.rate)
            && is_cycle(self.cycle)
            && is_control(self.cycle, self.control)
            && self.control <= MOST_CYCLE
            && self.gap <= MOST_GAP
            && 1 <= self.cycles
            && self.cycles <= MOST_CYCLES
    }

    // Returns whether the ring has 1 to 64 drives, each may follow those before it, and their data records together have at most 2047
    // bytes.
    #[tactic(auto, unfolding(crate::specs::Rings::has_drives))]
    fn has_drives(&self) -> bool
        ensures { result ≡ has_drives self.now }
    {
        let drives = self.drives.as_slice();
        1 <= drives.len()
            && drives.len() <= MOST_DRIVES
            && are_drives(drives)
            && mdt_len(drives) <= MOST_RECORDS
    }

    /// Returns whether the ring keeps all rules of this profile:
    /// - [`valid`](sercos_timing::valid) accepts its rate, cycle time, control unit cycle time and gap. The control unit cycle time is at
    ///   most 64,000 microseconds. The ring runs 1 to 50,000 cycles.
    /// - It has 1 to 64 drives with distinct addresses. Each has both addresses from 1 to 254, at most 20 busy cycles, at most 200 command
    ///   cycles, times within [`sercos_timing::limits`], and at most 64,000 microseconds for its shortest and its longest cycle time.
    ///   [`check_blocks`](crate::check_blocks) accepts its at most 36 own data blocks, and its telegrams can carry what they are configured
    ///   with. The data records have at most 2,047 bytes together.
    /// - Its order has the index of each drive once.
    #[tactic(auto, unfolding(crate::specs::Rings::is_ring, crate::specs::Rings::is_order))]
    pub fn valid(&self) -> bool
        ensures { result ≡ is_ring self.now }
    {
        self.has_numbers()
            && self.has_drives()
            && self.order.len() == self.drives.len()
            && are_turns(self.drives.len(), self.order.as_slice())
    }
}

/// Returns the number of cycles that a valid ring runs: 1 to 50,000.
#[tactic(auto, unfolding(crate::specs::Rings::is_ring, crate::specs::Rings::are_ring_numbers))]
pub fn cycles_of(setup: &RingSetup) -> u32
    requires { is_ring setup.now ≡ true }
    ensures value { result ≡ setup.now.cycles }
    ensures some { 1 ≤ result }
    ensures few { result ≤ 50000 }
{
    setup.cycles
}

/// Returns the number of drives of a valid ring, at most 64.
pub fn drives_of(setup: &RingSetup) -> u8
    requires { is_ring setup.now ≡ true }
    ensures { result ≡ length setup.now.drives }
{
    ring_law();
    setup.drives.len() as u8
}
