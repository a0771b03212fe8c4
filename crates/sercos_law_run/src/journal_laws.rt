// What a run of a ring is.
ghost use Rattle.std.specs.Prelude.{◌≡◌, ℕ, List, length};
ghost use Rattle.sercos_law_run.specs.Clauses.{Job, RingView, CycleView, Carry, Restarts, IsNext, IsRun, next_record, run_of};

/// A law on the runs of a ring:
/// - The next cycle of a run is the value of a function of those before.
/// - That value is the next cycle.
/// - So a run is the one of its length.
/// - There is a run of each length.
/// - It has that length.
pub fn run_law()
    ensures next { (r : RingView) (jobs : List Job) (carry : Carry) (restarts : Restarts) (j : List CycleView) (t : CycleView) → IsNext r jobs carry restarts t j →
        t ≡ next_record r jobs carry restarts j }
    ensures is_next { (r : RingView) (jobs : List Job) (carry : Carry) (restarts : Restarts) (j : List CycleView) → IsNext r jobs carry restarts (next_record r jobs carry restarts j) j }
    ensures one { (r : RingView) (jobs : List Job) (carry : Carry) (restarts : Restarts) (j : List CycleView) → IsRun r jobs carry restarts j →
        j ≡ run_of r jobs carry restarts (length j) }
    ensures made { (r : RingView) (jobs : List Job) (carry : Carry) (restarts : Restarts) (n : ℕ) → IsRun r jobs carry restarts (run_of r jobs carry restarts n) }
    ensures count { (r : RingView) (jobs : List Job) (carry : Carry) (restarts : Restarts) (n : ℕ) → length (run_of r jobs carry restarts n) ≡ n }
{}
