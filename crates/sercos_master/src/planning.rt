// Processing the answers of a cycle: the first stop, and the plan once everything is read. `wishes`, `make_plan`, `make_due_plan` and
// `settle` require a ring of a valid setup: 1 to 64 drives with distinct addresses, an order of these, and cycle times of this profile.
ghost use Rattle.std.specs.Prelude.{◌≡◌, ◌<◌, ◌≤◌, true, length, Option, Some, None};
ghost use Rattle.sercos_master.specs.Clauses.{IsKnown, Known, wishes_given, last_long_stop, with_plan, planned_by, with_due_plan, settled, outcomes, Past, with_stop, first_trouble, CoreStandsFor};

use crate::opening::copied;
use crate::ring::Ring;
use crate::seats::{first_troubled, first_unread, last_long_stop, wish_list};
use sercos_plan::{Chain, plan};
use sercos_timing::{Plan, Wishes, valid};
use sercos_trace::Stop;

impl Ring {
    // Keeps the first stop, in ring order, that a drive's task that was begun last has caused by its outcome, if there is no stop yet; then
    // the drive's seat has none any more.
    fn look_for_stop(&mut self)
        ensures { (s : Known) (p : Past) → CoreStandsFor self.old s p → CoreStandsFor self.new s (with_stop (first_trouble s p) p) }
    {
        if self.stopped {
            return;
        }
        if let Some(place) = first_troubled(self.seats.as_slice()) {
            let seat = &mut self.seats[place];
            self.stop = seat.take_trouble();
            self.stopped = true;
        }
    }

    // Returns the planner's input: the ring's settings, and for each drive, in ring order, its times and the lengths of its AT and data
    // record, from its answers to the reads of phase 2. A time that wasn't read is 0, and an attribute that wasn't read adds nothing to a
    // length.
    fn wishes(&self) -> Wishes
        ensures { (s : Known) (p : Past) → IsKnown s → CoreStandsFor self.now s p → result ≡ wishes_given s (outcomes p) }
    {
        Wishes {
            rate: self.rate,
            cycle: self.cycle,
            control: self.control,
            gap: self.gap,
            order: copied(self.order.as_slice()),
            drives: wish_list(self.seats.as_slice()),
        }
    }

    // Keeps a stop, if there is one. There must be no stop yet.
    fn keep_stop(&mut self, stop: Option<Stop>)
        ensures { (s : Known) (p : Past) → p.stop ≡ None → CoreStandsFor self.old s p → CoreStandsFor self.new s (with_stop stop p) }
    {
        if let Some(found) = stop {
            self.stop = Some(found);
            self.stopped = true;
        }
    }

    // Keeps a plan, as one made in this cycle, or the stop that no plan fits. There must be no stop yet.
    fn keep_plan(&mut self, planned: Result<Plan, Chain>)
        ensures { (s : Known) (p : Past) → p.stop ≡ None → CoreStandsFor self.old s p → CoreStandsFor self.new s (with_plan planned p) }
    {
        match planned {
            Ok(plan) => {
                self.plan = Some(plan);
                self.plans = true;
            }
            Err(chain) => self.keep_stop(Some(Stop::NoFit(chain))),
        }
    }

    // Makes the plan from the answers to the reads, or keeps the stop that none fits. If the data records have more than 2047 bytes
    // together, too many for an MDT, it keeps the stop for the last value of four bytes instead; without such a value nothing changes.
    // There must be no stop yet.
    fn make_plan(&mut self)
        ensures { (s : Known) (p : Past) → IsKnown s → p.stop ≡ None → CoreStandsFor self.old s p → CoreStandsFor self.new s (planned_by s p) }
    {
        let wishes = self.wishes();
        if valid(&wishes) {
            let planned = plan(&wishes);
            self.keep_plan(planned);
        } else {
            let stop = last_long_stop(self.seats.as_slice());
            self.keep_stop(stop);
        }
    }

    // Makes the plan if it is due: in phase 2, after all reads, and without a plan or a stop.
    fn make_due_plan(&mut self)
        ensures { (s : Known) (p : Past) → IsKnown s → CoreStandsFor self.old s p → CoreStandsFor self.new s (with_due_plan s p) }
    {
        if self.phase != 2 {
            return;
        }
        if self.stopped {
            return;
        }
        if self.plan.is_some() {
            return;
        }
        if first_unread(self.seats.as_slice()).is_some() {
            return;
        }
        self.make_plan();
    }

    // Processes the answers of the cycle: keeps a stop, and makes the plan if it is due.
    pub fn settle(&mut self)
        ensures { (s : Known) (p : Past) → IsKnown s → CoreStandsFor self.old s p → CoreStandsFor self.new s (settled s p) }
    {
        self.look_for_stop();
        self.make_due_plan();
    }
}
