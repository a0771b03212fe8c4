// What a replay reports.
ghost use Rattle.std.specs.Prelude.{◌≡◌, ℕ, ◌<◌, true, List, ◌∷◌, length, None};
ghost use Rattle.sercos_replay.specs.Clauses.{Job, DriveView, RingView, is_ring, CycleView, Line, Known, known_of, Carry, Restarts, drive_at, IsRun, AreTypedJobs, AreTyped, IsClean, cycles_of, GoesOn, drive_differs, drive_tells, master_differs, master_tells, if_given, telegrams, NeverDisturbed, Replays};
ghost use Rattle.sercos_replay.specs.Captured.{lines_of};

use sercos_law_run::typed_law;

/// A law on captures and what a replay reports of them:
/// - In a clean capture the number of the cycle never decreases from one MST to the next.
/// - Over the lines of a clean capture so far, the replay of a drive reports the first place that differs, once the capture has its
///   telegram or one of a later place.
/// - So does the replay of the master.
/// - Lines that are not telegrams don't affect a replay.
pub fn capture_law()
    ensures clean { (before : List Line) (line : Line) → IsClean (line ∷ before) → GoesOn before line }
    ensures drive_tells { (d : DriveView) (rate : ℕ) (lines : List Line) → IsClean lines → drive_tells d rate (cycles_of lines) ≡ if_given lines (drive_differs d rate (cycles_of lines)) }
    ensures master_tells { (s : Known) (jobs : List Job) (lines : List Line) → IsClean lines → master_tells s jobs (cycles_of lines) ≡ if_given lines (master_differs s jobs (cycles_of lines)) }
    ensures telegrams { (lines : List Line) → cycles_of lines ≡ cycles_of (telegrams lines) }
{}

/// A law: the capture of a run in which nothing is disturbed agrees. No drive of it deviates from its rules, and neither does the master.
/// The setup must be valid, and the numbers of ring and requests in their types' ranges, so that each telegram is the content of its frame.
pub fn agreement_law()
    ensures drive { (r : RingView) (jobs : List Job) (carry : Carry) (restarts : Restarts) (j : List CycleView) (index : ℕ) → is_ring r ≡ true →
        AreTyped r → AreTypedJobs jobs → IsRun r jobs carry restarts j → NeverDisturbed r carry restarts j → index < length r.drives →
        drive_differs (drive_at r index) r.rate (cycles_of (lines_of j)) ≡ None }
    ensures master { (r : RingView) (jobs : List Job) (carry : Carry) (restarts : Restarts) (j : List CycleView) → is_ring r ≡ true →
        AreTyped r → AreTypedJobs jobs → IsRun r jobs carry restarts j → NeverDisturbed r carry restarts j →
        master_differs (known_of r) jobs (cycles_of (lines_of j)) ≡ None }
{
    typed_law();
}

/// If the document of an input isn't refused and has the station, and its capture is clean and begins with cycle 0 or has no MST, the
/// answer is `No` with the first place that differs, or `Done` with the number of cycles if there is none. The status is `Done` for no
/// other input. It is `No` for no other input either, unless the capture breaks a rule instead of being clean; the answer is then that of
/// `check`.
#[tactic(auto, using(crate::proofs::AskingLemmas::replays))]
pub fn asking_law()
    ensures { (address : ℕ) (bytes : List ℕ) → Replays address bytes }
{}
