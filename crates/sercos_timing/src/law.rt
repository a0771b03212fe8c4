// Laws on the first inequality that a plan breaks, and on valid planner's input.
ghost use Rattle.std.specs.Prelude.{◌≡◌, Some, length};
ghost use Rattle.sercos_timing.specs.Clauses.{WishesView, PlanView, IsValid, first_broken, IsFirstBroken, TellsValid, Broken};

/// States what the error of [`fits`](crate::fits) means, for valid input and a plan with as many T1 and positions as drives:
/// - Each inequality with a smaller number is kept.
/// - If it is 1 to 4, 6, 7 or 10, it fails for its drive, and each AT sent earlier keeps it.
/// - If it is 5, 8 or 9, it fails, and the drive is 0.
/// - If it is 12 with a drive, the position of this drive is wrong, and those of all drives before it in the ring are right.
/// - If it is 12 with drive 0, all positions are right, and the length of the MDT is wrong.
pub fn first_broken_law()
    ensures { (w : WishesView) (p : PlanView) (b : Broken) → IsValid w → length p.t1 ≡ length w.drives → length p.position ≡ length w.drives
        → first_broken w p ≡ Some b → IsFirstBroken w p b }
{}

/// States that `is_valid` of `specs/Tests.antt`, a test that can be computed, is true exactly for valid planner's input (`IsValid`), so for
/// that for which a plan may be requested.
pub fn valid_law()
    ensures { TellsValid }
{}
