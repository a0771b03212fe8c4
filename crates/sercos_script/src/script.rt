// The links of a ring under a script of faults.
ghost use Rattle.sercos_script.specs.Clauses.{IsNonDecreasingBy, IsPermutation, key_of};

use crate::fault::Fault;
use crate::gathered::Gathered;
use crate::lanes::sort;
use crate::link::{BitLink, Passage};
use crate::path::{any_restart, carry};
use sercos_bits::BitBuf;
use sercos_telegram::Kind;
use std::marker::Model;

/// The links of a ring under a script of faults (this profile). On each link the faults act in the order of the script.
///
/// The effect of the faults on a telegram doesn't depend on their order. So they are kept sorted by the telegrams that they concern, and
/// then by the index of the bit that they affect. In each cycle the faults that act are gathered once, at most 512 of them, from those
/// stretches of the script in which one may act by then. A passage goes once through those of its kind and sender, up to the end of its
/// frame. If more than 512 act, it goes through all faults of its kind and sender. No call takes memory.
#[derive(Drop)]
pub struct Scripted {
    faults: Vec<Fault>,
    stations: u8,
    gathered: Gathered,
}

impl Model for Scripted {
    ghost use Rattle.std.specs.List.Sorted.{IsNonDecreasingBy};
    ghost use Rattle.sercos_script.specs.Lanes.{key_of, IsGathered};
    ghost use Rattle.sercos_script.specs.Scripts.{ScriptView};
    ghost use Rattle.sercos_script.specs.Stretches.{AreAhead};
    ghost use Rattle.std.specs.Prelude.{◌+◌};

    ghost Value = { ScriptView };

    ghost view = { λ s. record { faults = s.faults.items; stations = s.stations } };

    ghost invariant = { λ s. IsNonDecreasingBy key_of s.faults.items × IsGathered s.faults.items s.gathered × AreAhead s.faults.items (s.gathered.cycle + 1) s.gathered.soonest };
}

// Returns the faults sorted by their keys.
fn sorted(faults: Vec<Fault>) -> Vec<Fault>
    ensures sorted { IsNonDecreasingBy key_of result.items }
    ensures same { IsPermutation faults.items result.items }
{
    let mut faults = faults;
    sort(faults.as_mut_slice());
    faults
}

impl Scripted {
    ghost use Rattle.std.specs.Prelude.{◌≡◌};
    ghost use Rattle.sercos_script.specs.Scripts.{carried, restarts_at};

    /// Returns the links of a ring of `stations` drives under a script of faults. Which bits arrive and which stations restart is a
    /// function of the script in the order given.
    pub fn new(faults: Vec<Fault>, stations: u8) -> Scripted
        ensures carry { carried result.stations result.faults ≡ carried stations faults.items }
        ensures restart { restarts_at result.faults ≡ restarts_at faults.items }
    {
        let faults = sorted(faults);
        let gathered = Gathered::new(faults.as_slice(), 0);
        Scripted {
            faults,
            stations,
            gathered,
        }
    }
}

impl BitLink for Scripted {
    ghost use Rattle.sercos_script.specs.Scripts.{carried, restarts_at};

    ghost carry = { λ link. carried link.stations link.faults };

    ghost restart = { λ link. restarts_at link.faults };

    // The faults of the passage's kind and sender are applied, in the cycle of the passage.
    fn pass(&mut self, p: Passage, bits: &mut BitBuf) -> bool {
        let script = self.faults.as_slice();
        self.gathered.turn(script, p.cycle);
        let faults = self.gathered.on_passage(script, &p);
        carry(faults, self.stations, &p, bits)
    }

    // A station restarts if one of its restarts acts in the cycle.
    fn restarts(&mut self, cycle: u32, station: u8) -> bool {
        let script = self.faults.as_slice();
        self.gathered.turn(script, cycle);
        let faults = self.gathered.on_station(script, station);
        any_restart(faults, cycle, station)
    }

    // A telegram is quiet if there is no candidate on it in its cycle.
    fn is_quiet(&mut self, cycle: u32, kind: Kind, from: u8) -> bool {
        let script = self.faults.as_slice();
        self.gathered.turn(script, cycle);
        self.gathered.is_quiet(script, kind, from)
    }
}
