// The totals of a run whose cycles are made but not written.
ghost use Rattle.std.specs.Prelude.{◌≡◌, ◌<◌, ◌≤◌, ◌^◌, List, [], reverse};
ghost use Rattle.sercos_app.specs.Clauses.{WishesView, CycleView, AfterCycle, RingStandsFor, cycles_made, newest, totals_of, HasRoom, IsFew, with_cycle, IsRingOf, OfRun};

use sercos_law_run::run_law;
use sercos_ring::{Ring, count_made, no_totals, standing_law};
use sercos_script::BitLink;
use sercos_trace::Totals;

// Makes the next cycle of a ring, and adds it to the totals. The setup of the ring must be valid, and the ring must have made fewer than
// 2^31 cycles. The totals must have room for one more cycle: after it, with at most 128 requests of each outcome, one fall and 195
// undetected arrivals, each count must be below 2^32. The cycle has at most 128 requests of each outcome, and at most 195 undetected
// arrivals.
fn count_next<L: BitLink>(ring: &mut Ring<L>, totals: &mut Totals)
    requires ring { (w : WishesView) × (j : List CycleView) × IsRingOf (RingStandsFor L.carry L.restart) ring.old w j }
    requires made { cycles_made ring.old < 2 ^ 31 }
    requires room { HasRoom totals.old }
    ensures after { AfterCycle L.carry L.restart ring.old ring.new }
    ensures counted { totals.new ≡ with_cycle totals.old (newest ring.new) }
    ensures few { IsFew (newest ring.new) }
{
    let made = ring.cycle();
    count_made(totals, made);
}

/// Makes the first `cycles` cycles, at most 50,000, of a ring of a valid setup that has made none, and returns their totals. It takes no
/// memory. Afterwards the ring is unspecified.
pub fn count_cycles<L: BitLink>(ring: &mut Ring<L>, cycles: u32) -> Totals
    requires ring { (w : WishesView) × IsRingOf (RingStandsFor L.carry L.restart) ring.old w [] }
    requires few { cycles ≤ 50000 }
    ensures { OfRun (RingStandsFor L.carry L.restart) ring.old cycles (λ run. result ≡ totals_of (reverse run)) }
{
    run_law();
    standing_law::<L>();
    let mut totals = no_totals();
    for _k in 0..cycles {
        count_next(ring, &mut totals);
    }
    totals
}
