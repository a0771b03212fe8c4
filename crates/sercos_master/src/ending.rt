// The end of a cycle: a fall or the next phase; and the start of an epoch.
ghost use Rattle.std.specs.Prelude.{◌≡◌, ◌+◌, ◌<◌, ◌≤◌, ◌==◌, ◌&&◌, false, ◌∷◌, length, Option, Some, None, IfSome, if◌then◌else◌};
ghost use Rattle.sercos_master.specs.Clauses.{position, option_or, with_reports, with_broken, Known, member, Past, is_done, has_lost_mst, fall_of, first_place, is_at_limit, goes_on, new_epoch, still_waiting, is_place, waited_with, CoreStandsFor};

use crate::counts::{is_place, lost_with, row_with, waited_with};
use crate::opening::copied;
use crate::ring::Ring;
use crate::seats::{
    end_seats, first_lost, first_stuck, first_unchecked, first_unidentified, first_unready,
    reset_seats,
};
use arrayvec::ArrayVec;
use sercos_timing::Plan;
use sercos_trace::{Fall, Reported, Stop};

impl Ring {
    // Returns whether everything required to leave the phase is done. Phase 0 is left once the last ten MSTs, that of this cycle included,
    // returned intact, phase 1 once each drive is identified, phase 2 once each check for phase 3 has ended well, and phase 3 once each
    // check for phase 4 has. Phase 4 is left only by a fall.
    pub fn is_done(&self) -> bool
        ensures { (s : Known) (p : Past) → CoreStandsFor self.now s p → result ≡ is_done s p }
    {
        match self.phase {
            0 => self.whole && self.row >= 9,
            1 => first_unidentified(self.seats.as_slice()).is_none(),
            2 => first_unchecked(self.seats.as_slice()).is_none(),
            3 => first_unready(self.seats.as_slice()).is_none(),
            _ => false,
        }
    }

    // Closes the cycle, which was of the phase `closed`. The ring's own phase is already that of the next cycle, which is commanded now: so
    // the contract sees the ring before the call with `closed` as its phase. The count of cycles is one higher, modulo 2^32. The requests that ended are added to `reports`, which must have room for one more per drive, of 128. The stop found in
    // this cycle is put into `told`; without one `told` is unchanged.
    pub fn close(
        &mut self,
        closed: u8,
        reports: &mut ArrayVec<Reported, 128>,
        told: &mut Option<Stop>,
    )
        ensures stop { told.new ≡ option_or self.old.stop told.old }
        ensures told { (s : Known) (p : Past) → CoreStandsFor (record self.old { phase = closed }) s p →
            length reports.old.items + length s.drives ≤ 128 →
            reports.new.items ≡ with_reports p.now.report (length s.drives) reports.old.items }
        ensures stands { (s : Known) (p : Past) → CoreStandsFor (record self.old { phase = closed }) s p →
            CoreStandsFor self.new s (goes_on self.old.phase p) }
    {
        end_seats(closed, &mut self.seats, reports);
        self.row = row_with(self.whole, self.row);
        self.lost = lost_with(closed, self.whole);
        self.waited = waited_with(closed, self.addressed, self.before, self.waited);
        self.before = self.addressed;
        self.addressed = None;
        self.whole = false;
        self.plans = false;
        self.count = self.count.wrapping_add(1);
        tell_stop(&mut self.stop, told);
    }

    // Begins an epoch, in phase 0: all that was received in the epoch before is forgotten. The current requests are added to `reports` as
    // broken; it must have room for one more per drive, of 128. The requests that weren't begun still wait.
    pub fn begin_epoch(&mut self, reports: &mut ArrayVec<Reported, 128>)
        ensures told { (s : Known) (p : Past) → CoreStandsFor self.old s p → length reports.old.items + length s.drives ≤ 128 →
            reports.new.items ≡ with_broken s p reports.old.items }
        ensures stands { (s : Known) (p : Past) → CoreStandsFor self.old s p → CoreStandsFor self.new s (new_epoch p.cycle (still_waiting p)) }
    {
        reset_seats(&mut self.seats, reports);
        self.phase = 0;
        self.whole = false;
        self.row = 0;
        self.lost = false;
        self.addressed = None;
        self.before = None;
        self.waited = 0;
        self.plan = None;
        self.plans = false;
        self.stopped = false;
        self.stop = None;
    }

    // Puts a copy of the plan into `told`, if it was made in this cycle; otherwise `told` is unchanged.
    pub fn tell_plan(&self, told: &mut Option<Plan>)
        ensures { told.new ≡ option_or (if self.now.plans then self.now.plan else None) told.old }
    {
        if !self.plans {
            return;
        }
        if let Some(plan) = &self.plan {
            *told = Some(plan_copy(plan));
        }
    }

    // Returns the fall at the end of the cycle, the first of these: `MstLost`, the own MST was lost in this cycle and in the one before, of
    // phase 1 or above; `AtLost`, so was the AT of a drive, the one before being of phase 3 or above; `StepLimit`, a step or identification
    // has no answer up to the 64th cycle after the one in which it was first sent. Otherwise `None`. The last two name the first such drive
    // in ring order.
    pub fn fall(&self) -> Option<Fall>
        ensures { (s : Known) (p : Past) → CoreStandsFor self.now s p → result ≡ fall_of s p }
    {
        if self.is_mst_lost() {
            return Some(Fall::MstLost);
        }
        if let Some(place) = first_lost(self.seats.as_slice()) {
            return Some(Fall::AtLost(self.address_at(place)));
        }
        match self.first_at_limit() {
            Some(place) => Some(Fall::StepLimit(self.address_at(place))),
            None => None,
        }
    }

    // Returns the address of the drive at an index, which must be that of a drive.
    fn address_at(&self, place: usize) -> u8
        requires { place < length self.now.seats }
        ensures { (s : Known) (p : Past) → CoreStandsFor self.now s p → result ≡ (member s place).address }
    {
        self.seats[place].member().address()
    }

    // Returns the index of the first drive whose identification in phase 1, or whose open step in any other phase, has no answer up to the
    // 64th cycle after the one in which it was first sent; `None` if there is none.
    fn first_at_limit(&self) -> Option<usize>
        ensures value { (s : Known) (p : Past) → CoreStandsFor self.now s p → result ≡ first_place s (is_at_limit p) }
        ensures bound { IfSome result (λ k. k < length self.now.seats) }
    {
        if self.phase == 1 {
            return self.waited_too_long();
        }
        first_stuck(self.seats.as_slice())
    }

    // Returns the index of the drive that the MDT of phase 1 addresses now and addressed in the 64 cycles before; `None` if there is none.
    // The phase must be 1.
    fn waited_too_long(&self) -> Option<usize>
        ensures value { (s : Known) (p : Past) → CoreStandsFor self.now s p → p.now.phase ≡ 1 → result ≡ first_place s (is_at_limit p) }
        ensures bound { IfSome result (λ k. k < length self.now.seats) }
    {
        let Some(place) = self.addressed else {
            return None;
        };
        if place >= self.seats.len() {
            return None;
        }
        if !is_place(place, self.before) {
            return None;
        }
        if self.waited < 64 {
            return None;
        }
        Some(place)
    }

    // Returns whether the own MST was lost in this cycle and in the one before, which was of phase 1 or above.
    fn is_mst_lost(&self) -> bool
        ensures { (s : Known) (p : Past) → CoreStandsFor self.now s p → result ≡ has_lost_mst (p.now ∷ p.turns) }
    {
        self.lost && !self.whole
    }
}

// Returns a copy of a plan.
fn plan_copy(plan: &Plan) -> Plan
    ensures { result ≡ plan.now }
{
    Plan {
        t1: copied(plan.t1()),
        t2: plan.t2,
        t3: plan.t3,
        t4: plan.t4,
        position: copied(plan.position()),
        mdt_len: plan.mdt_len,
    }
}

// Moves a stop into `told`, if there is one, and leaves `None` behind; otherwise both are unchanged. It is moved only then, since it is
// large.
fn tell_stop(stop: &mut Option<Stop>, told: &mut Option<Stop>)
    ensures told { told.new ≡ option_or stop.old told.old }
    ensures none { stop.new ≡ None }
{
    if stop.is_some() {
        *told = stop.take();
    }
}
