// The drive's end of a service channel.
ghost use Rattle.std.specs.Prelude.{◌≡◌, ℕ, ◌≤◌, ◌-◌, nat_le, List, [], ◌∷◌, ◌<◌, ◌==◌, ◌&&◌, not, true, is_some};
ghost use Rattle.sercos_service_drive.specs.Clauses.{data_element, CommandHistory, are_commands_of, CommandsStandFor, Processed, processed_record, AreThose, added_on, blocks_with, commands_with, channel_says, shown_by, ChannelStandsFor};

use crate::session::Session;
use sercos_block::Store;
use sercos_command::Commands;
use sercos_idn::element::DATA;
use sercos_step::{Answer, Step};
use sercos_telegram::{Control, Status};
use std::marker::Model;

/// The last step that was accepted, and the reply to it.
#[derive(Clone, Copy, Debug, PartialEq, Eq)]
pub(crate) struct Last {
    /// The cycle in which it was accepted.
    pub cycle: u32,
    /// The reply to it.
    pub answer: Answer,
}

/// The drive's end of a service channel (IEC 61491:1995). Contracts state it by the records that it processed since its reset. A record
/// whose handshake bit differs from that of the record before it is a step, which takes effect at once. Any other record is ignored.
///
/// No call takes memory.
#[derive(Drop)]
pub struct DriveChannel {
    busy: u8,
    ahs: bool,
    last: Option<Last>,
    session: Session,
}

impl Model for DriveChannel {
    ghost use Rattle.sercos_service_drive.specs.Kept.{ChannelView};

    ghost Value = { ChannelView };

    ghost view = { λ c. record { busy = c.busy; ahs = c.ahs; last = c.last; session = c.session } };
}

// Returns the step of a record: the bits of its control word and its information word. The element is below 8.
fn step_of(control: &Control, info: u16) -> Step
    ensures step { result ≡ record { write = control.now.write; last = control.now.last; element = control.now.element; word = info } }
    ensures element { result.element < 8 }
{
    Step {
        write: control.write,
        last: control.last,
        element: control.element,
        word: info,
    }
}

// Returns whether a step with this reply completes a write of operation data.
fn adds(step: Step, answer: Answer) -> bool
    ensures { result ≡ (step.write && ((step.element == data_element) && (step.last && not answer.error))) }
{
    step.write && step.element == DATA && step.last && !answer.error
}

// Returns whether the drive is busy in a cycle with the step accepted in cycle `since`: at most `busy` cycles have passed.
fn is_busy(cycle: u32, since: u32, busy: u8) -> bool
    ensures { result ≡ nat_le (cycle - since) busy }
{
    cycle.saturating_sub(since) <= u32::from(busy)
}

impl DriveChannel {
    /// Returns a channel that has processed no record. The drive is busy with each step up to `busy` cycles after the one in which it was
    /// accepted.
    pub fn new(busy: u8) -> DriveChannel
        ensures { ChannelStandsFor result busy [] }
    {
        DriveChannel {
            busy,
            ahs: false,
            last: None,
            session: Session::new(),
        }
    }

    /// Processes a record in a cycle and in a phase from 2 to 4, and returns whether a step was accepted that completed a write of
    /// operation data. Such a step changes the block in the store, and informs the procedure commands; if it newly sets a check, the
    /// check's list of invalid operation data (S-0-0021 or S-0-0022) is written too. Otherwise the store and the procedure commands are
    /// unchanged. `store` is always the drive's store: except for their operation data, its blocks are those of each earlier record since
    /// the reset. All commands that are set are procedure commands of the store, before and after.
    pub fn take(
        &mut self,
        cycle: u32,
        control: &Control,
        info: u16,
        phase: u8,
        store: &mut Store,
        commands: &mut Commands,
    ) -> bool
        requires phase { (2 ≤ phase) × (phase ≤ 4) }
        requires set { are_commands_of store.old commands.old ≡ true }
        ensures stands { (busy : ℕ) (h : List Processed) (c : CommandHistory) → ChannelStandsFor self.old busy h → AreThose store.old h → CommandsStandFor commands.old c →
            ChannelStandsFor self.new busy (processed_record cycle phase control.now info store.old c ∷ h) }
        ensures those { (busy : ℕ) (h : List Processed) (c : CommandHistory) → ChannelStandsFor self.old busy h → AreThose store.old h → CommandsStandFor commands.old c →
            AreThose store.new (processed_record cycle phase control.now info store.old c ∷ h) }
        ensures added { (busy : ℕ) (h : List Processed) (c : CommandHistory) → ChannelStandsFor self.old busy h → AreThose store.old h → CommandsStandFor commands.old c →
            result ≡ is_some (added_on (processed_record cycle phase control.now info store.old c) h) }
        ensures blocks { (busy : ℕ) (h : List Processed) (c : CommandHistory) → ChannelStandsFor self.old busy h → AreThose store.old h → CommandsStandFor commands.old c →
            store.new ≡ blocks_with (added_on (processed_record cycle phase control.now info store.old c) h) c store.old }
        ensures commands { (busy : ℕ) (h : List Processed) (c : CommandHistory) → ChannelStandsFor self.old busy h → AreThose store.old h → CommandsStandFor commands.old c →
            CommandsStandFor commands.new (commands_with (added_on (processed_record cycle phase control.now info store.old c) h) store.old c) }
        ensures set { are_commands_of store.new commands.new ≡ true }
    {
        if control.mhs == self.ahs {
            return false;
        }
        let step = step_of(control, info);
        let answer = self.session.answer(cycle, phase, step, store, commands);
        self.ahs = control.mhs;
        self.last = Some(Last { cycle, answer });
        adds(step, answer)
    }

    /// Returns what the AT of a cycle shows: the service channel's bits of the status word, and the information word. In the cycle in which
    /// the last step was accepted, and in as many cycles after it as the busy time has, the busy bit is set, and the error bit and the
    /// information word are 0. After that the busy bit is 0, and the other two are those of the reply to that step. Before the first step
    /// all three are 0. The bits for cyclic data are always 0. In each case the handshake bit is that of the last step, 0 before the first,
    /// and the change bit is that of the procedure commands.
    pub fn say(&self, cycle: u32, commands: &Commands) -> (Status, u16)
        ensures shown { (busy : ℕ) (h : List Processed) (c : CommandHistory) → ChannelStandsFor self.now busy h → CommandsStandFor commands.now c →
            shown_by result.0 result.1 ≡ channel_says busy cycle c h }
        ensures cyclic { result.0.cyclic ≡ 0 }
    {
        let change = commands.change(cycle);
        match self.last {
            None => (status(self.ahs, false, false, change), 0),
            Some(last) => {
                if is_busy(cycle, last.cycle, self.busy) {
                    (status(self.ahs, true, false, change), 0)
                } else {
                    (
                        status(self.ahs, false, last.answer.error, change),
                        last.answer.word,
                    )
                }
            }
        }
    }

    /// Processes phase 0: the channel has processed no record. The busy time is unchanged.
    pub fn reset(&mut self)
        ensures { ChannelStandsFor self.new self.old.busy [] }
    {
        self.ahs = false;
        self.last = None;
        self.session.close();
    }
}

// Returns a status word with these bits; its other bits are 0.
fn status(ahs: bool, busy: bool, error: bool, change: bool) -> Status
    ensures { (result.ahs ≡ ahs) × (result.busy ≡ busy) × (result.error ≡ error) × (result.change ≡ change) × (result.cyclic ≡ 0) }
{
    Status {
        ahs,
        busy,
        error,
        change,
        cyclic: 0,
    }
}
