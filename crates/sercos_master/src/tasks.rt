// Beginning tasks: for one drive at a time in phase 2, for each drive in phases 3 and 4. Each function that begins tasks requires that
// those that wait are of phase 4.
ghost use Rattle.std.specs.Prelude.{◌≡◌, ℕ, ◌<◌, ◌≤◌, length, Option, Some, None, IfSome, is_none};
ghost use Rattle.sercos_master.specs.Clauses.{Known, Past, in_turn, begun, AreWaiting, CoreStandsFor};

use crate::ring::Ring;
use crate::seats::{begin_requests, begin_seats, first_unchecked, first_unread};
use sercos_seat::Numbers;

impl Ring {
    // Returns the index of the drive whose turn it is in phase 2: the first of which not all reads of the start-up have ended, begun or
    // not, otherwise the first whose check for phase 3 hasn't ended well; `None` if there is none.
    fn in_turn(&self) -> Option<usize>
        ensures value { (s : Known) (p : Past) → CoreStandsFor self.now s p → result ≡ in_turn s p }
        ensures bound { IfSome result (λ k. k < length self.now.seats) }
    {
        match first_unread(self.seats.as_slice()) {
            Some(place) => Some(place),
            None => first_unchecked(self.seats.as_slice()),
        }
    }

    // Begins the next task of phase 2 of the drive whose turn it is, if its channel is idle and it has one. The phase must be 2, and there
    // must be no stop.
    fn begin_in_2(&mut self)
        ensures { (s : Known) (p : Past) → ((k : ℕ) → AreWaiting (p.waiting k)) → p.now.phase ≡ 2 → p.stop ≡ None →
            CoreStandsFor self.old s p → CoreStandsFor self.new s (begun s p) }
    {
        let numbers = Numbers {
            control: self.control,
            cycle: self.cycle,
        };
        if let Some(place) = self.in_turn() {
            let plan = &self.plan;
            let seat = &mut self.seats[place];
            seat.begin_in_2(place, &numbers, plan);
        }
    }

    // Begins the next task of phase 3 on each idle channel, if there is one. The phase must be 3, and there must be no stop.
    fn begin_in_3(&mut self)
        ensures { (s : Known) (p : Past) → ((k : ℕ) → AreWaiting (p.waiting k)) → p.now.phase ≡ 3 → p.stop ≡ None →
            CoreStandsFor self.old s p → CoreStandsFor self.new s (begun s p) }
    {
        begin_seats(self.plan.is_some(), &mut self.seats);
    }

    // Begins the next request on each idle channel, if there is one, if there is a plan, and if the drive's checks for phases 3 and 4 ended
    // well. The phase must be 4, and there must be no stop.
    fn begin_in_4(&mut self)
        ensures { (s : Known) (p : Past) → ((k : ℕ) → AreWaiting (p.waiting k)) → p.now.phase ≡ 4 → p.stop ≡ None →
            CoreStandsFor self.old s p → CoreStandsFor self.new s (begun s p) }
    {
        begin_requests(self.plan.is_some(), &mut self.seats);
    }

    // Begins tasks of the phase, 0 to 4, on idle channels, unless there is a stop.
    pub fn begin(&mut self)
        ensures { (s : Known) (p : Past) → ((k : ℕ) → AreWaiting (p.waiting k)) → p.now.phase ≤ 4 → CoreStandsFor self.old s p → CoreStandsFor self.new s (begun s p) }
    {
        if self.may_begin() {
            self.begin_next();
        }
    }

    // Returns whether there is no stop.
    fn may_begin(&self) -> bool
        ensures { (s : Known) (p : Past) → CoreStandsFor self.now s p → result ≡ is_none p.stop }
    {
        !self.stopped
    }

    // Begins tasks of the phase on idle channels: in phase 2 only that of the drive whose turn it is, in phases 3 and 4 the next one of
    // each drive, and in phases 0 and 1 none. The phase must be 0 to 4, and there must be no stop.
    fn begin_next(&mut self)
        ensures { (s : Known) (p : Past) → ((k : ℕ) → AreWaiting (p.waiting k)) → p.now.phase ≤ 4 → p.stop ≡ None → CoreStandsFor self.old s p → CoreStandsFor self.new s (begun s p) }
    {
        match self.phase {
            2 => self.begin_in_2(),
            3 => self.begin_in_3(),
            4 => self.begin_in_4(),
            _ => {}
        }
    }
}
