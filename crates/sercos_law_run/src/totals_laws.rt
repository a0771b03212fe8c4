// How the totals of a run are counted.
ghost use Rattle.std.specs.Prelude.{◌≡◌, ℕ, ◌+◌, ◌<◌, List, [], ◌∷◌, ◌++◌, length, IfSome};
ghost use Rattle.sercos_law_run.specs.Clauses.{Job, RingView, wishes_of, Carry, Restarts, CycleView, Totals, IsNext, AreFew, HasRoom, IsFew, none_made, with_cycle, totals_of};

use sercos_master::master_law;

/// A law: the plan that is reported in a cycle of a run has a T1 and a position for each drive.
pub fn plan_law()
    ensures starts { (r : RingView) (jobs : List Job) (carry : Carry) (restarts : Restarts) (t : CycleView) (j : List CycleView) → IsNext r jobs carry restarts t j →
        IfSome t.events.plan (λ p. length p.t1 ≡ length (wishes_of r).drives) }
    ensures positions { (r : RingView) (jobs : List Job) (carry : Carry) (restarts : Restarts) (t : CycleView) (j : List CycleView) → IsNext r jobs carry restarts t j →
        IfSome t.events.plan (λ p. length p.position ≡ length (wishes_of r).drives) }
{
    master_law();
}

/// A law on the totals of cycles:
/// - Before the first cycle they are those of no cycle.
/// - With one more cycle they are those of the cycles and it.
/// - Before the first cycle all counts are 0.
/// - After n cycles and one more, of at most 128 requests of each outcome and 195 undetected arrivals, no count is above that of n + 1 such
///   cycles.
/// - So after fewer than 50,000 such cycles there is room for one more.
pub fn totals_law()
    ensures none { none_made ≡ totals_of [] }
    ensures more { (cycles : List CycleView) (made : CycleView) → totals_of (cycles ++ made ∷ []) ≡ with_cycle (totals_of cycles) made }
    ensures few_none { AreFew none_made 0 }
    ensures few_more { (t : Totals) (made : CycleView) (n : ℕ) → AreFew t n → IsFew made → AreFew (with_cycle t made) (n + 1) }
    ensures room { (t : Totals) (n : ℕ) → n < 50000 → AreFew t n → HasRoom t }
{}
