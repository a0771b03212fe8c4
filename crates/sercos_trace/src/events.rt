// What the master reports in a cycle.
ghost use Rattle.std.specs.Prelude.{◌≡◌, [], None};

use arrayvec::ArrayVec;
use sercos_idn::{Code, Idn};
use sercos_plan::Chain;
use sercos_step::Outcome;
use sercos_timing::Plan;
use std::marker::Model;

/// Why the master stays in its phase and begins no more jobs until the next fall (this profile).
#[derive(Debug, PartialEq, Eq, Drop)]
pub enum Stop {
    /// No plan fits the answers read. The chain shows why.
    NoFit(Chain),
    /// A drive refused a job of the start-up.
    Refused {
        /// The drive's address.
        drive: u8,
        /// The identifier number of the data block.
        idn: Idn,
        /// The drive's code.
        code: Code,
    },
    /// The attribute of a configured data block is invalid, or is that of a list or a procedure command. Or the data records are too long
    /// for the MDT: then this is the last configured value of four bytes.
    BadConfig {
        /// The drive's address.
        drive: u8,
        /// The identifier number of the data block.
        idn: Idn,
        /// The attribute as it was read.
        attribute: u32,
    },
    /// The drive's check for phase 3, the procedure command S-0-0127, failed.
    Check127 {
        /// The drive's address.
        drive: u8,
        /// The drive's list of invalid data, S-0-0021: its first 64 identifier numbers.
        list: ArrayVec<Idn, 64>,
    },
    /// The drive's check for phase 4, the procedure command S-0-0128, failed.
    Check128 {
        /// The drive's address.
        drive: u8,
        /// The drive's list of invalid data, S-0-0022: its first 64 identifier numbers.
        list: ArrayVec<Idn, 64>,
    },
}

/// Why the ring falls to phase 0 (this profile).
#[derive(Clone, Copy, Debug, PartialEq, Eq)]
pub enum Fall {
    /// The master's own MST didn't return intact in two cycles in a row of phases 1 to 4.
    MstLost,
    /// No intact AT of the drive with this address arrived in two cycles in a row of phases 3 and 4.
    AtLost(u8),
    /// A step or an identification sent to the drive with this address had no answer up to the 64th cycle after the one in which it was
    /// first sent.
    StepLimit(u8),
    /// The master restarted.
    Restart,
}

/// The number of a request, counted from 1 in the order of the requests, and how it ended.
pub type Reported = (u16, Outcome);

/// What the master reports in a cycle. Contracts see the record of its fields, its vectors as lists.
#[derive(Debug, Drop)]
pub struct Events {
    /// The requests that ended in this cycle, at most two per drive, by ascending number.
    pub outcomes: ArrayVec<Reported, 128>,
    /// The plan, in the cycle in which it was made.
    pub plan: Option<Plan>,
    /// The stop, in the cycle in which it was found.
    pub stop: Option<Stop>,
    /// The fall, in its cycle.
    pub fall: Option<Fall>,
}

impl Model for Events {
    ghost use Rattle.sercos_trace.specs.Views.{EventsView};

    ghost Value = { EventsView };

    ghost view = { λ e. record { outcomes = e.outcomes.items; plan = e.plan; stop = e.stop; fall = e.fall } };
}

// Sets an option to `None`. It is written only if it is `Some`, since the value is large.
fn forget<T: Drop>(event: &mut Option<T>)
    ensures { event.new ≡ None }
{
    if event.is_some() {
        *event = None;
    }
}

impl Events {
    /// Removes all events.
    pub fn clear(&mut self)
        ensures { self.new ≡ record { outcomes = []; plan = None; stop = None; fall = None } }
    {
        self.outcomes.clear();
        forget(&mut self.plan);
        forget(&mut self.stop);
        self.fall = None;
    }
}
