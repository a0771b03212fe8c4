// The faults of a script that act in one cycle. All calls have the same script. It is sorted by its keys if faults are searched by their
// lanes.
ghost use Rattle.std.specs.Prelude.{◌≡◌, ◌+◌, true, ℕ, Bool, List, []};
ghost use Rattle.sercos_script.specs.Clauses.{filter, IsNonDecreasingBy, key_of, is_in, telegram_lane, AreByReach, IsGathered, candidates, carried, restarts_at, AreAhead};

use crate::fault::Fault;
use crate::lanes::{in_lane, restart_lane, telegram_lane};
use crate::link::Passage;
use crate::stretches::{ROOM, STRETCHES, gather, nothing_known};
use arrayvec::ArrayVec;
use sercos_telegram::Kind;
use std::marker::Model;

// If there was no room for all faults, they are gathered again in the next cycle that is a multiple of this number.
const AGAIN: u32 = 64;

// The faults of a script that act in a cycle, in the order of the script, and whether there was room for all of them. For each stretch of
// the script, `soonest` has the number of a cycle before which none of its faults acts after this cycle.
#[derive(Drop)]
pub(crate) struct Gathered {
    cycle: u32,
    faults: ArrayVec<Fault, ROOM>,
    complete: bool,
    soonest: [u32; STRETCHES],
}

impl Model for Gathered {
    ghost use Rattle.sercos_script.specs.Lanes.{GatheredView};

    ghost Value = { GatheredView };

    ghost use Rattle.std.specs.Prelude.{◌≡◌, length};

    ghost view = { λ g. record { cycle = g.cycle; faults = g.faults.items; complete = g.complete; soonest = g.soonest } };

    ghost invariant = { λ g. length g.soonest ≡ 512 };
}

impl Gathered {
    // Returns the faults of a script that act in a cycle, with `soonest` for the cycles after it.
    pub(crate) fn new(script: &[Fault], cycle: u32) -> Gathered
        ensures cycle { result.cycle ≡ cycle }
        ensures gathered { IsGathered script.now result }
        ensures ahead { AreAhead script.now (cycle + 1) result.soonest }
    {
        let mut gathered = Gathered {
            cycle,
            faults: ArrayVec::new(),
            complete: false,
            soonest: nothing_known(),
        };
        gathered.gather(script, cycle);
        gathered
    }

    // Gathers the faults that act in a cycle. From this cycle on, no fault of a stretch may act before the cycle that `soonest` has for it;
    // afterwards this holds from the next cycle on.
    fn gather(&mut self, script: &[Fault], cycle: u32)
        requires { AreAhead script.now cycle self.old.soonest }
        ensures cycle { self.new.cycle ≡ cycle }
        ensures gathered { IsGathered script.now self.new }
        ensures ahead { AreAhead script.now (cycle + 1) self.new.soonest }
    {
        self.complete = gather(script, cycle, &mut self.soonest, &mut self.faults);
        self.cycle = cycle;
    }

    // Turns to a cycle. In a later cycle only the stretches are searched in which a fault may act by then, in an earlier one all. If there
    // was no room, nothing is searched in later cycles until one that is a multiple of `AGAIN`. Before and afterwards, no fault of a
    // stretch acts after the cycle turned to and before the one that `soonest` has for it.
    pub(crate) fn turn(&mut self, script: &[Fault], cycle: u32)
        requires gathered { IsGathered script.now self.old }
        requires ahead { AreAhead script.now (self.old.cycle + 1) self.old.soonest }
        ensures cycle { self.new.cycle ≡ cycle }
        ensures gathered { IsGathered script.now self.new }
        ensures ahead { AreAhead script.now (cycle + 1) self.new.soonest }
    {
        if cycle == self.cycle {
            return;
        }
        if self.cycle < cycle && !self.complete && cycle % AGAIN != 0 {
            self.cycle = cycle;
            return;
        }
        if cycle < self.cycle {
            self.soonest = nothing_known();
        }
        self.gather(script, cycle);
    }

    // Returns the faults among which those of this cycle are searched: the gathered ones if they are complete, otherwise the script.
    fn candidates<'a>(&'a self, script: &'a [Fault]) -> &'a [Fault]
        ensures { result.now ≡ candidates script.now self.now }
    {
        if self.complete {
            self.faults.as_slice()
        } else {
            script
        }
    }

    // Returns the faults of a lane among the candidates, in their order.
    fn in_lane<'a>(&'a self, script: &'a [Fault], lane: u16) -> &'a [Fault]
        requires gathered { IsGathered script.now self.now }
        requires sorted { IsNonDecreasingBy key_of script.now }
        ensures { result.now ≡ filter (is_in lane) (candidates script.now self.now) }
    {
        in_lane(self.candidates(script), lane)
    }

    // Returns whether it is known that no fault acts in this cycle on the telegram of a kind from a sender. The result may be false
    // although no fault acts.
    pub(crate) fn is_quiet(&self, script: &[Fault], kind: Kind, from: u8) -> bool
        requires gathered { IsGathered script.now self.now }
        requires sorted { IsNonDecreasingBy key_of script.now }
        ensures { result ≡ true → filter (is_in (telegram_lane kind from)) (candidates script.now self.now) ≡ [] }
    {
        self.in_lane(script, telegram_lane(kind, from)).is_empty()
    }

    // Returns faults that have the same effect on a passage as the script. Its cycle must be the one turned to. They are sorted by the
    // number of bits that a frame needs to be affected.
    pub(crate) fn on_passage<'a>(&'a self, script: &'a [Fault], p: &Passage) -> &'a [Fault]
        requires gathered { IsGathered script.now self.now }
        requires sorted { IsNonDecreasingBy key_of script.now }
        requires cycle { p.now.cycle ≡ self.now.cycle }
        ensures same { (stations : ℕ) (bits : List Bool) → carried stations result.now p.now bits ≡ carried stations script.now p.now bits }
        ensures sorted { AreByReach result.now }
    {
        self.in_lane(script, telegram_lane(p.kind, p.from))
    }

    // Returns faults that restart a station in this cycle iff those of the script do.
    pub(crate) fn on_station<'a>(&'a self, script: &'a [Fault], station: u8) -> &'a [Fault]
        requires gathered { IsGathered script.now self.now }
        requires sorted { IsNonDecreasingBy key_of script.now }
        ensures { restarts_at result.now self.now.cycle station ≡ restarts_at script.now self.now.cycle station }
    {
        self.in_lane(script, restart_lane(station))
    }
}
