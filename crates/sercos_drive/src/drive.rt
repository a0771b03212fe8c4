// A drive of the ring.
ghost use Rattle.std.specs.Prelude.{◌≡◌, ℕ, ◌+◌, ◌<◌, ◌≤◌, ◌==◌, nat_le, not, ◌&&◌, ◌||◌, List, [], ◌∷◌, ◌++◌, length, Option, Some, None, is_some, option_map, true, IfOk, IfSome};
ghost use Rattle.sercos_drive.specs.Clauses.{option_copied, DriveView, blocks_fault, at_content, CommandHistory, newest_cycle, AreInOrder, CommandsStandFor, Processed, AreThose, ChannelStandsFor, DriveCall, Mst, Mdt, Restart, mdt_got, cycle_at, phase_at, writes_at, store_at, start_in, values_in, drive_says, IsSlot, counted, DriveStandsFor, may_rise_by, goes_to, record_by, processed_by, ends_with, IsEntered, IsProcessed};

use crate::feedback::push_feedback;
use crate::hearing::{Told, mdt_got, mst_got};
use crate::slot::{Slot, slot_of};
use sercos_bits::Content;
use sercos_block::{DriveSetup, Store};
use sercos_command::Commands;
use sercos_service_drive::{DriveChannel, writes_law};
use sercos_telegram::{At, Status, write_at};
use sercos_timing::limits::EARLY_AT;
use std::alloc::{AllocError, Global};
use std::marker::Model;

/// A drive of a ring (IEC 61491:1995; the rules for its falls to phase 0 and for the transition checks are taken after it). Contracts state
/// what it does by the calls of [`hear_mst`](Drive::hear_mst), [`hear_mdt`](Drive::hear_mdt) and [`restart`](Drive::restart) since it was
/// opened, and hold for every list of them.
///
/// In each cycle `hear_mst` is called first, then [`at`](Drive::at), then `hear_mdt`; `restart` is called between two cycles. After opening
/// no call takes memory.
#[derive(Drop)]
pub struct Drive {
    address: u8,
    phase: u8,
    // the cycle of the newest MST's time slot, and whether the MST was received in it
    cycle: u32,
    got: bool,
    // whether an MDT was accepted in the newest MDT's time slot, and whether it was missing in phase 3 or 4
    took: bool,
    missed: bool,
    writes: u32,
    channel: DriveChannel,
    commands: Commands,
    store: Store,
    // what the store configures of the telegrams of phases 3 and 4
    slot: Slot,
}

impl Model for Drive {
    ghost use Rattle.std.specs.Prelude.{◌≡◌, ◌≤◌, true};
    ghost use Rattle.sercos_command.specs.Kept.{are_commands_of};
    ghost use Rattle.sercos_drive.specs.Kept.{DriveState};

    ghost Value = { DriveState };

    ghost view = { λ d. record {
      address = d.address;
      phase = d.phase;
      cycle = d.cycle;
      got = d.got;
      took = d.took;
      missed = d.missed;
      writes = d.writes;
      channel = d.channel;
      commands = d.commands;
      blocks = d.store;
      slot = d.slot;
    } };

    ghost invariant = { λ d. (d.phase ≤ 4) × (are_commands_of d.store d.commands ≡ true) × (4 ≤ d.slot.record_len) };
}

// Replaces the content by the front of an AT, five bytes: its address, status word and information word. With any values behind them it is
// the AT of these values.
fn begin_at(address: u8, status: Status, info: u16, out: &mut Content)
    ensures begun { (values : List ℕ) → out.new ++ values ≡ at_content address status info values }
    ensures len { length out.new ≡ 5 }
{
    let at = At {
        address,
        status,
        info,
        values: &[],
    };
    write_at(&at, out);
}

impl Drive {
    /// Opens a drive in phase 0, in a ring with a rate in bits per microsecond. Its own data blocks are at most 36 that
    /// [`check_blocks`](sercos_block::check_blocks) accepts. The error is `AllocError`.
    pub fn open(alloc: Global, setup: &DriveSetup, rate: u8) -> Result<Drive, AllocError>
        requires blocks { blocks_fault [] setup.now.blocks ≡ None }
        requires few { length setup.now.blocks ≤ 36 }
        ensures { IfOk result (λ drive. DriveStandsFor drive setup.now rate []) }
    {
        let store = Store::open(alloc, setup)?;
        let slot = slot_of(&store);
        Ok(Drive {
            address: setup.address,
            phase: 0,
            cycle: 0,
            got: false,
            took: false,
            missed: false,
            writes: 0,
            channel: DriveChannel::new(setup.busy),
            commands: Commands::new(rate, setup.command),
            store,
            slot,
        })
    }

    // Returns whether the drive may rise to this phase in a cycle: the phase is at most 2, or its transition check counts as passed. The
    // calls on the procedure commands are in the order of their cycles, and `cycle` isn't before the newest. Any phase above 3 counts as 4.
    fn may_rise_to(&self, cycle: u32, phase: u8) -> bool
        ensures { (c : CommandHistory) → CommandsStandFor self.now.commands c → AreInOrder c.calls → newest_cycle c.calls ≤ cycle → result ≡ may_rise_by c cycle phase }
    {
        phase <= 2
            || if phase == 3 {
                self.commands.passed127(cycle)
            } else {
                self.commands.passed128(cycle)
            }
    }

    // Returns the phase of the drive after the MST's time slot of a cycle. `commanded` is the phase, 0 to 4, that the MST commands, `None`
    // without an MST. The result is that phase if it is the drive's, or the next higher one and the drive may rise to it; otherwise 0.
    // Without an MST it is the drive's phase if the MST before it was received, otherwise 0. The calls on the procedure commands are in the
    // order of their cycles, and `cycle` isn't before the newest.
    fn stands_in(&self, cycle: u32, commanded: Option<u8>) -> u8
        requires { IfSome commanded (λ phase. phase ≤ 4) }
        ensures value { (c : CommandHistory) → CommandsStandFor self.now.commands c → AreInOrder c.calls → newest_cycle c.calls ≤ cycle → result ≡ goes_to self.now c cycle commanded }
        ensures bound { result ≤ 4 }
    {
        match commanded {
            Some(phase) => {
                if phase == self.phase
                    || phase == self.phase + 1 && self.may_rise_to(cycle, phase)
                {
                    phase
                } else {
                    0
                }
            }
            None => { if self.got { self.phase } else { 0 } }
        }
    }

    // Moves to a phase, 0 to 4. Phase 0 resets the service channel and the procedure commands. All else is unchanged.
    fn enter(&mut self, phase: u8)
        requires { phase ≤ 4 }
        ensures { IsEntered self.old self.new phase }
    {
        self.phase = phase;
        if phase == 0 {
            self.channel.reset();
            self.commands.reset();
        }
    }

    /// Processes what arrived in the MST's time slot of a cycle: the content of a frame, `None` if there was no frame. The phase then is
    /// the commanded one if that is the drive's or the next higher one (3 and 4 only with the check passed), otherwise 0. A content that is
    /// no MST counts as none. Without an MST the phase is unchanged, but 0 after the second missing MST in a row. Phase 0 resets the
    /// service channel and the procedure commands, passed checks too; the data blocks stay. `cycle` isn't below that of an earlier call.
    pub fn hear_mst(&mut self, cycle: u32, content: Option<&[u8]>)
        ensures { (d : DriveView) (rate : ℕ) (h : List DriveCall) → DriveStandsFor self.old d rate h → cycle_at d rate h ≤ cycle →
            DriveStandsFor self.new d rate (Mst cycle (option_copied content.entry) ∷ h) }
    {
        let commanded = mst_got(content);
        let phase = self.stands_in(cycle, commanded);
        self.cycle = cycle;
        self.got = commanded.is_some();
        self.enter(phase);
    }

    // Returns the start of the AT, in microseconds after the MST's end: in phases 3 and 4 S-0-0006, if the slot is that of the data blocks,
    // otherwise 300.
    fn start(&self) -> u16
        ensures { IsSlot self.now.slot self.now.blocks → result ≡ start_in self.now.phase self.now.blocks }
    {
        if 3 <= self.phase {
            self.slot.start
        } else {
            EARLY_AT
        }
    }

    // Appends the feedback values of the AT to `out`, which has at most its first five bytes; in phases 0 to 2 there are none. The values
    // are those of the data blocks if the slot is.
    fn push_values(&self, out: &mut Content)
        requires { length out.old ≤ 5 }
        ensures value { IsSlot self.now.slot self.now.blocks → out.new ≡ out.old ++ values_in self.now.cycle self.now.phase self.now.blocks }
        ensures longer { length out.old ≤ length out.new }
    {
        if 3 <= self.phase {
            push_feedback(out, self.slot.feedback.as_slice(), self.cycle);
        }
    }

    // Returns whether the drive sends an AT in this cycle: the MST was received, and the phase is 3 or 4, or it is 1 or 2 and an MDT was
    // accepted in the newest MDT's time slot.
    fn sends(&self) -> bool
        ensures { result ≡ (self.now.got && (nat_le 3 self.now.phase || (nat_le 1 self.now.phase && self.now.took))) }
    {
        self.got && (3 <= self.phase || 1 <= self.phase && self.took)
    }

    /// Returns the start of this cycle's AT, in microseconds after the MST's end; `None` if the drive sends none. It is called after the
    /// cycle's `hear_mst`. The result is that of [`at`](Drive::at), without the content.
    pub fn at_start(&self) -> Option<u16>
        ensures { (d : DriveView) (rate : ℕ) (h : List DriveCall) → DriveStandsFor self.now d rate h →
            result ≡ option_map (λ s. s.start) (drive_says d rate h) }
    {
        if self.sends() {
            Some(self.start())
        } else {
            None
        }
    }

    /// Replaces `out` by the content of this cycle's AT, and returns its start in microseconds after the MST's end. It is called after the
    /// cycle's `hear_mst`. With an AT, `out` is not empty. If the drive sends no AT, the result is `None`, and `out` is unchanged: without
    /// this cycle's MST, in phase 0, and in phases 1 and 2 if it accepted no MDT in the cycle before.
    pub fn at(&self, out: &mut Content) -> Option<u16>
        ensures said { (d : DriveView) (rate : ℕ) (h : List DriveCall) → DriveStandsFor self.now d rate h →
            option_map (λ start. record { start = start; content = out.new }) result ≡ drive_says d rate h }
        ensures none { result ≡ None → out.new ≡ out.old }
        ensures some { is_some result ≡ true → 0 < length out.new }
    {
        if !self.sends() {
            return None;
        }
        let (status, info) = self.channel.say(self.cycle, &self.commands);
        begin_at(self.address, status, info, out);
        self.push_values(out);
        Some(self.start())
    }

    // Returns whether the drive accepts an MDT of which it read this: it read a record, this cycle's MST was received, and the phase isn't
    // 0.
    fn takes(&self, told: Option<Told>) -> bool
        ensures { result ≡ (self.now.got && (nat_le 1 self.now.phase && is_some told)) }
    {
        self.got && 1 <= self.phase && told.is_some()
    }

    // Passes a record to the service channel. The drive must be in phase 2 or above. If the record completes a write of operation data, the
    // store and the procedure commands change too, the slot is read anew from the store, and the count of writes, which stops at 2^32 - 1,
    // rises by one. Otherwise only the service channel changes.
    fn process(&mut self, told: &Told)
        requires { 2 ≤ self.old.phase }
        ensures { (busy : ℕ) (h : List Processed) (c : CommandHistory) → ChannelStandsFor self.old.channel busy h → AreThose self.old.blocks h →
            CommandsStandFor self.old.commands c → IsProcessed self.old self.new busy c (Some (record_by self.old c told.now)) h }
    {
        let added = self.channel.take(
            self.cycle,
            &told.control,
            told.info,
            self.phase,
            &mut self.store,
            &mut self.commands,
        );
        if added {
            self.slot = slot_of(&self.store);
            self.writes = self.writes.saturating_add(1);
        }
    }

    // Returns whether a record of this cycle is passed to the service channel: the MST was received, and the phase is 2 to 4.
    fn processes(&self) -> bool
        ensures { result ≡ (self.now.got && nat_le 2 self.now.phase) }
    {
        self.got && 2 <= self.phase
    }

    // Processes the record of an MDT as `process` does, if there is one, this cycle's MST was received, and the phase is 2 to 4. Otherwise
    // nothing changes.
    fn process_if(&mut self, told: Option<Told>)
        ensures { (busy : ℕ) (h : List Processed) (c : CommandHistory) → ChannelStandsFor self.old.channel busy h → AreThose self.old.blocks h →
            CommandsStandFor self.old.commands c → IsProcessed self.old self.new busy c (processed_by self.old c told) h }
    {
        if let Some(told) = told {
            if self.processes() {
                self.process(&told);
            }
        }
    }

    // Ends the MDT's time slot: stores whether an MDT was accepted, and whether it was missing in phase 3 or 4. After the second missing
    // MDT in a row in these phases the drive falls to phase 0. In phase 0, with and without a fall, the service channel and the procedure
    // commands are reset.
    fn end(&mut self, took: bool)
        ensures { IsEntered (record self.old { took = took; missed = nat_le 3 self.old.phase && not took }) self.new (ends_with self.old took) }
    {
        let missed = 3 <= self.phase && !took;
        let falls = missed && self.missed;
        self.took = took;
        self.missed = missed;
        let phase = if falls { 0 } else { self.phase };
        self.enter(phase);
    }

    /// Processes what arrived in the MDT's time slot of this cycle: the content of a frame, `None` if there was no frame. An MDT is
    /// accepted if this cycle's MST was received and the phase isn't 0: in phases 1 and 2 the MDT to the drive's address, in phases 3 and 4
    /// the drive's record at position S-0-0009. From phase 2 on the record is passed to the service channel. After two cycles in a row in
    /// phases 3 and 4 without an accepted MDT the drive falls to phase 0, which resets as in [`hear_mst`](Drive::hear_mst).
    pub fn hear_mdt(&mut self, content: Option<&[u8]>)
        ensures { (d : DriveView) (rate : ℕ) (h : List DriveCall) → DriveStandsFor self.old d rate h →
            DriveStandsFor self.new d rate (Mdt (option_copied content.entry) ∷ h) }
    {
        // by this law the blocks differ in their operation data alone, as the channel requires
        writes_law();
        let told = mdt_got(self.address, self.phase, &self.slot, content);
        let took = self.takes(told);
        self.process_if(told);
        self.end(took);
    }

    /// Restarts the drive between two cycles: it is in phase 0, and its channel, procedure commands, passed checks, and the MST and MDTs
    /// received are cleared. The data blocks and the number of writes are unchanged.
    pub fn restart(&mut self)
        ensures { (d : DriveView) (rate : ℕ) (h : List DriveCall) → DriveStandsFor self.old d rate h → DriveStandsFor self.new d rate (Restart ∷ h) }
    {
        self.got = false;
        self.took = false;
        self.missed = false;
        self.enter(0);
    }

    /// Returns the communication phase, 0 to 4: after `hear_mst` that of this cycle, after `hear_mdt` that with which the next cycle
    /// begins.
    pub fn phase(&self) -> u8
        ensures stands { (d : DriveView) (rate : ℕ) (h : List DriveCall) → DriveStandsFor self.now d rate h → result ≡ phase_at d rate h }
        ensures bound { result ≤ 4 }
    {
        self.phase
    }

    /// Returns the data blocks: the built-in ones and the drive's own, with all that was written.
    pub fn store(&self) -> &Store
        ensures { (d : DriveView) (rate : ℕ) (h : List DriveCall) → DriveStandsFor self.now d rate h → result.now ≡ store_at d rate h }
    {
        &self.store
    }

    /// Returns the number of writes of operation data that took effect since the drive was opened, with those to procedure commands. The
    /// count stops at 2^32 - 1.
    pub fn writes(&self) -> u32
        ensures { (d : DriveView) (rate : ℕ) (h : List DriveCall) → DriveStandsFor self.now d rate h → result ≡ counted (length (writes_at d rate h)) }
    {
        self.writes
    }
}
