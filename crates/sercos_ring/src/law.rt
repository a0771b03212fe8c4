// A law on the cycles that a ring has made.
ghost use Rattle.std.specs.Prelude.{◌≡◌, true, List, length};
ghost use Rattle.sercos_ring.specs.Clauses.{Job, RingView, is_ring, CycleView, Carry, Restarts, IsRun, RingStandsFor, cycles_made, Ring};

use sercos_script::BitLink;

/// A law on a ring that stands for a journal: the journal is a run of the ring's setup, the setup is valid, and the journal has as many
/// cycles as the ring has made.
pub fn standing_law<L: BitLink>()
    ensures run { (ring : Ring L) (r : RingView) (jobs : List Job) (carry : Carry) (restarts : Restarts) (j : List CycleView) →
        RingStandsFor L.carry L.restart ring r jobs carry restarts j → IsRun r jobs carry restarts j }
    ensures valid { (ring : Ring L) (r : RingView) (jobs : List Job) (carry : Carry) (restarts : Restarts) (j : List CycleView) →
        RingStandsFor L.carry L.restart ring r jobs carry restarts j → is_ring r ≡ true }
    ensures count { (ring : Ring L) (r : RingView) (jobs : List Job) (carry : Carry) (restarts : Restarts) (j : List CycleView) →
        RingStandsFor L.carry L.restart ring r jobs carry restarts j → cycles_made ring ≡ length j }
{}
