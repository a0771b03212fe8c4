// Laws on planner's input with other times.
ghost use Rattle.std.specs.Prelude.{ℕ, ◌<◌, ◌≤◌};
ghost use Rattle.sercos_margin.specs.Clauses.{WishesView, PlanView, Fits, IsValid, greatest, declared, with_time, with_cycle, margin_of, HasPlan, IsMargin, Time};

/// States how the times of drives and the cycle time affect whether a plan fits:
/// - A plan that fits with a value of one time of a drive also fits with a lesser value.
/// - A plan that fits with a positive cycle time, which is also the control unit cycle time, also fits with a longer one.
/// - The margin that is found by trying one value after another is the margin by definition. This holds for valid input that a plan fits,
///   and for a time that is at most the greatest that a drive may declare.
pub fn margin_law()
    ensures time { (w : WishesView) (p : PlanView) (k : ℕ) (t : Time) (u v : ℕ) → u ≤ v → Fits (with_time w k t v) p → Fits (with_time w k t u) p }
    ensures cycle { (w : WishesView) (p : PlanView) (c d : ℕ) → 0 < c → c ≤ d → Fits (with_cycle w c) p → Fits (with_cycle w d) p }
    ensures margin { (w : WishesView) (k : ℕ) (t : Time) → IsValid w → declared w k t ≤ greatest t → HasPlan w → IsMargin w k t (margin_of w k t) }
{}
