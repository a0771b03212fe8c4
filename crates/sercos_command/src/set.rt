// The procedure commands that are set.
ghost use Rattle.std.specs.Prelude.{◌≡◌, ◌<◌, None};
ghost use Rattle.sercos_command.specs.Clauses.{list_any, has_ended, status_by, find_set, without};

use crate::commands::SetCommand;
use arrayvec::ArrayVec;
use sercos_idn::Idn;
use sercos_idn::command::{ENDED_WELL, ENDED_WITH_ERROR, NOT_SET, RUNNING};

// Returns the setting of a command; `None` if it isn't set.
pub(crate) fn find_set(idn: Idn, set: &[SetCommand]) -> Option<SetCommand>
    ensures { result ≡ find_set idn.raw set.now }
{
    for command in set {
        if command.idn == idn {
            return Some(*command);
        }
    }
    None
}

// Removes the setting of a command, if it is set. All others remain.
pub(crate) fn remove_setting(set: &mut ArrayVec<SetCommand, 64>, idn: Idn)
    ensures { set.new.items ≡ without idn.raw set.old.items }
{
    set.retain(|command| command.idn != idn);
}

// Returns whether a set command has ended in a cycle: it runs for `time` cycles from the one in which it was set.
fn has_ended(time: u16, cycle: u32, command: &SetCommand) -> bool
    ensures { result ≡ has_ended time cycle command.now }
{
    u64::from(command.cycle) + u64::from(time) <= u64::from(cycle)
}

// Returns the data status in a cycle of a command with this setting: 0 without one, 7 while it runs, then 3 if it ends well, otherwise 15.
pub(crate) fn status_by(time: u16, command: Option<SetCommand>, cycle: u32) -> u16
    ensures { result ≡ status_by time command cycle }
{
    match command {
        None => NOT_SET,
        Some(command) => {
            if !has_ended(time, cycle, &command) {
                RUNNING
            } else if command.well {
                ENDED_WELL
            } else {
                ENDED_WITH_ERROR
            }
        }
    }
}

// Returns whether some set command has ended in a cycle.
pub(crate) fn any_ended(set: &[SetCommand], time: u16, cycle: u32) -> bool
    ensures { result ≡ list_any (has_ended time cycle) set.now }
{
    set.iter().any(|command| has_ended(time, cycle, command))
}
