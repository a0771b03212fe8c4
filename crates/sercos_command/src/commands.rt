// The procedure commands of a drive.
ghost use Rattle.std.specs.Prelude.{◌≡◌, ◌==◌, ◌<◌, ◌≤◌, ◌⊎◌, List, [], length, None, true};
ghost use Rattle.sercos_command.specs.Clauses.{to_cancel, to_set, Block, is_command, ends_well, Wrote, Other, Reset, CommandHistory, with_call, is_passed, status_in, change_in, with_check_list, newest_cycle, AreInOrder, first_passed_in, find_set, is_from, with_write, without_checks, without_settings, status_kept, change_kept, with_check_list_kept, are_commands_of, CommandsStandFor};

use crate::passed::{after_cancel, after_setting, is_from};
use crate::run::run;
use crate::set::{any_ended, find_set, remove_setting, status_by};
use arrayvec::ArrayVec;
use sercos_block::Store;
use sercos_block::numbers::{PHASE_3_CHECK, PHASE_4_CHECK};
use sercos_idn::Idn;
use sercos_idn::command::CANCEL;
use std::marker::Model;

/// A procedure command that is set.
#[derive(Clone, Copy, Debug, Default, PartialEq, Eq)]
pub struct SetCommand {
    /// Its identifier number.
    pub idn: Idn,
    /// The cycle in which it was set.
    pub cycle: u32,
    /// Whether it ends well.
    pub well: bool,
}

/// The procedure commands of a drive (IEC 61491:1995): which are set, and since when a transition check counts as passed. Contracts state
/// what it returns by the calls on it (writes to commands, writes to other operation data, and phase 0), and, as `view`, by what is seen of
/// it: the commands that are set, and the first cycle in which each check counts as passed.
#[derive(Drop)]
pub struct Commands {
    rate: u8,
    time: u16,
    set: ArrayVec<SetCommand, 64>,
    passed_127: Option<u64>,
    passed_128: Option<u64>,
}

impl Model for Commands {
    ghost use Rattle.std.specs.Prelude.{◌≡◌, true};
    ghost use Rattle.sercos_command.specs.Kept.{CommandsView, are_distinct};

    ghost Value = { CommandsView };

    ghost view = { λ c. record { rate = c.rate; time = c.time; set = c.set.items; passed_127 = c.passed_127; passed_128 = c.passed_128 } };

    ghost invariant = { λ c. are_distinct c.set.items ≡ true };
}

impl Commands {
    /// Returns the commands of a drive in a ring with a rate in bits per microsecond. Each command runs for `time` cycles. No command is
    /// set, and no check counts as passed.
    #[tactic(auto, unfolding(crate::specs::Kept::are_distinct))]
    pub fn new(rate: u8, time: u16) -> Commands
        ensures stands { CommandsStandFor result (record { rate = rate; time = time; calls = [] }) }
        ensures view { result ≡ record { rate = rate; time = time; set = []; passed_127 = None; passed_128 = None } }
        ensures none { result.set ≡ [] }
    {
        Commands {
            rate,
            time,
            set: ArrayVec::new(),
            passed_127: None,
            passed_128: None,
        }
    }

    // Processes the cancel of a command, in a cycle: it isn't set any more. If it is a check that doesn't count as passed in that cycle
    // yet, its setting no longer makes it so. `blocks` in the contract is any list.
    #[tactic(auto, using(crate::proofs::SetLemmas::distinct_without), unfolding(crate::specs::Kept::with_write))]
    fn cancel(&mut self, idn: Idn, cycle: u32)
        ensures { (blocks : List Block) → self.new ≡ with_write idn.raw to_cancel cycle blocks self.old }
    {
        self.passed_127 = after_cancel(self.passed_127, PHASE_3_CHECK, idn, cycle);
        self.passed_128 = after_cancel(self.passed_128, PHASE_4_CHECK, idn, cycle);
        remove_setting(&mut self.set, idn);
    }

    // Processes the setting of a command that isn't set, in a cycle. Fewer than 64 are set before. `well` is whether it ends well. A check
    // that does counts as passed from the cycle of its end on, or from an earlier one on if it did so before.
    #[tactic(auto, using(crate::proofs::SetLemmas::distinct_appended), unfolding(crate::specs::Kept::with_write))]
    fn set(&mut self, idn: Idn, cycle: u32, well: bool)
        requires new { find_set idn.raw self.old.set ≡ None }
        requires room { length self.old.set < 64 }
        ensures { (blocks : List Block) → well ≡ ends_well self.old.rate idn.raw blocks → self.new ≡ with_write idn.raw to_set cycle blocks self.old }
    {
        let end = u64::from(cycle) + u64::from(self.time);
        self.passed_127 = after_setting(self.passed_127, PHASE_3_CHECK, idn, end, well);
        self.passed_128 = after_setting(self.passed_128, PHASE_4_CHECK, idn, end, well);
        self.set.push(SetCommand { idn, cycle, well });
    }

    // Processes a write of 0 (cancel) or 3 (set) to a command, in a cycle. A 3 to a command that is set changes nothing. A check that is
    // newly set writes its list to the store, which has the new value already; otherwise the store is unchanged. All commands that are set
    // are procedure commands of the store.
    #[tactic(auto, using(crate::proofs::SetLemmas::has_room), unfolding(crate::specs::Kept::with_write, crate::specs::Kept::with_check_list_kept))]
    fn take(&mut self, idn: Idn, value: u16, cycle: u32, store: &mut Store)
        requires value { (value ≡ to_cancel) ⊎ (value ≡ to_set) }
        requires set { are_commands_of store.old self.old ≡ true }
        ensures view { self.new ≡ with_write idn.raw value cycle store.old self.old }
        ensures blocks { store.new ≡ with_check_list_kept self.old idn.raw value store.old }
    {
        if value == CANCEL {
            self.cancel(idn, cycle);
            return;
        }
        if find_set(idn, self.set.as_slice()).is_some() {
            return;
        }
        let well = run(self.rate, idn, store);
        self.set(idn, cycle, well);
    }

    /// Processes a write of 0 (cancel) or 3 (set) to a procedure command of the drive, in a cycle. After a 0 the command isn't set; if it
    /// is a check that doesn't count as passed in that cycle yet, its setting no longer makes it so. A 3 sets the command in that cycle; if
    /// it is set already, nothing changes. When it is newly set, the check for phase 3 writes what it finds unfit into S-0-0021, that for
    /// phase 4 into S-0-0022. A check ends well iff it finds nothing, any other command iff its block isn't set up to fail. `store` has the
    /// new value already. All commands that are set are procedure commands of the store, before and after. Apart from the check's list the
    /// store is unchanged.
    pub fn write(&mut self, idn: Idn, value: u16, cycle: u32, store: &mut Store)
        requires command { is_command store.old idn.raw ≡ true }
        requires value { (value ≡ to_cancel) ⊎ (value ≡ to_set) }
        requires set { are_commands_of store.old self.old ≡ true }
        ensures stands { (c : CommandHistory) → CommandsStandFor self.old c → CommandsStandFor self.new (with_call (Wrote idn.raw value cycle store.old) c) }
        ensures view { self.new ≡ with_write idn.raw value cycle store.old self.old }
        ensures blocks { (c : CommandHistory) → CommandsStandFor self.old c → store.new ≡ with_check_list c idn.raw value store.old }
        ensures blocks_by_view { store.new ≡ with_check_list_kept self.old idn.raw value store.old }
        ensures set { are_commands_of store.new self.new ≡ true }
    {
        self.take(idn, value, cycle, store);
    }

    /// Processes a write to operation data other than a command's: no check counts as passed any more, and one that is set and hasn't ended
    /// won't count at its end. Only a new setting makes it so. `cycle` only serves the contract. The commands that are set remain.
    pub fn written(&mut self, cycle: u32)
        ensures stands { (c : CommandHistory) → CommandsStandFor self.old c → CommandsStandFor self.new (with_call (Other cycle) c) }
        ensures view { self.new ≡ without_checks self.old }
        ensures same { self.new.set ≡ self.old.set }
    {
        self.forget_checks();
    }

    // Makes no check count as passed, neither now nor at the end of one that is set. All else is unchanged.
    fn forget_checks(&mut self)
        ensures { self.new ≡ without_checks self.old }
    {
        self.passed_127 = None;
        self.passed_128 = None;
    }

    /// Processes phase 0 or a restart: no command is set any more, and no check counts as passed.
    #[tactic(auto, unfolding(crate::specs::Kept::are_distinct))]
    pub fn reset(&mut self)
        ensures stands { (c : CommandHistory) → CommandsStandFor self.old c → CommandsStandFor self.new (with_call Reset c) }
        ensures view { self.new ≡ without_settings self.old }
        ensures none { self.new.set ≡ [] }
    {
        self.set.clear();
        self.forget_checks();
    }

    /// Returns the data status of a command in a cycle (IEC 61491:1995): 0 not set, 7 running, 3 ended well, 15 ended with an error. A
    /// command that is set has ended from the cycle of its setting plus the drive's command time on; in any cycle before that, the status
    /// is 7.
    #[tactic(auto, using(crate::proofs::CallLemmas::status_stands))]
    pub fn status(&self, idn: Idn, cycle: u32) -> u16
        ensures stands { (c : CommandHistory) → CommandsStandFor self.now c → result ≡ status_in c idn.raw cycle }
        ensures view { result ≡ status_kept self.now idn.raw cycle }
    {
        status_by(self.time, find_set(idn, self.set.as_slice()), cycle)
    }

    /// Returns the change bit of procedure commands in a cycle (IEC 61491:1995): whether some command that is set has ended.
    #[tactic(auto, using(crate::proofs::CallLemmas::change_stands))]
    pub fn change(&self, cycle: u32) -> bool
        ensures stands { (c : CommandHistory) → CommandsStandFor self.now c → result ≡ change_in c cycle }
        ensures view { result ≡ change_kept self.now cycle }
    {
        any_ended(self.set.as_slice(), self.time, cycle)
    }

    /// Returns whether the check for phase 3, S-0-0127, counts as passed in a cycle. `rule` holds if the calls are in the order of their
    /// cycles, and `cycle` isn't before the newest: some write set the check, which wasn't set, its end is reached, and it found nothing;
    /// since that write the check wasn't cancelled before its end, no other operation data was written, and there was no `reset` (phase 0
    /// or a restart). `kept` holds for any calls: it counts as passed from the first such cycle on that was stored, or never if none was.
    pub fn passed127(&self, cycle: u32) -> bool
        ensures rule { (c : CommandHistory) → CommandsStandFor self.now c → AreInOrder c.calls → newest_cycle c.calls ≤ cycle →
            result ≡ is_passed c.rate c.time 127 c.calls cycle }
        ensures kept { (c : CommandHistory) → CommandsStandFor self.now c → result ≡ is_from (first_passed_in 127 c) cycle }
        ensures view { result ≡ is_from self.now.passed_127 cycle }
    {
        is_from(self.passed_127, cycle)
    }

    /// Returns whether the check for phase 4, S-0-0128, counts as passed in a cycle. `rule` holds if the calls are in the order of their
    /// cycles, and `cycle` isn't before the newest: some write set the check, which wasn't set, its end is reached, and it found nothing;
    /// since that write the check wasn't cancelled before its end, no other operation data was written, and there was no `reset` (phase 0
    /// or a restart). `kept` holds for any calls: it counts as passed from the first such cycle on that was stored, or never if none was.
    pub fn passed128(&self, cycle: u32) -> bool
        ensures rule { (c : CommandHistory) → CommandsStandFor self.now c → AreInOrder c.calls → newest_cycle c.calls ≤ cycle →
            result ≡ is_passed c.rate c.time 128 c.calls cycle }
        ensures kept { (c : CommandHistory) → CommandsStandFor self.now c → result ≡ is_from (first_passed_in 128 c) cycle }
        ensures view { result ≡ is_from self.now.passed_128 cycle }
    {
        is_from(self.passed_128, cycle)
    }
}
