// Laws on the master's past, after any calls.
ghost use Rattle.std.specs.Prelude.{◌≡◌, ◌≤◌, ◌<◌, ℕ, true, nat_le, length, drop, slice_get, is_some, Some, List};
ghost use Rattle.sercos_master.specs.Clauses.{Job, Known, Task, tasks_for, Call, past, settled, begins, still_waiting, all_checked, all_ready, IsPlanned, AreWritten};

use sercos_step::steps_law;

/// Laws that hold after any sequence of calls:
/// - A plan is the least one for the values that were read in this epoch. All reads of the epoch have ended then, and the data records fit
///   into an MDT.
/// - If phase 3 or 4 is commanded, and the ring has a drive, there is a plan, and each drive has answered the eleven writes of phase 2
///   without error in this epoch. These write the ring's two cycle times, the six values of this plan for the drive (T1 to T4, the position
///   of its data record, and the length of the MDT), the telegram type 7, and the drive's two lists.
/// - If phase 3 or 4 is commanded, each drive's check for phase 3 ended well in this epoch.
/// - If phase 4 is commanded, each drive's check for phase 4 ended well, too.
/// - The requests that wait for a drive at the start of an epoch are the rest of its requests, in order.
/// - A request that begins is the first one that waits.
pub fn master_law()
    ensures left { (s : Known) (jobs : List Job) (h : List Call) (k : ℕ) → (n : ℕ) × ((past s (tasks_for s jobs) h).waiting k ≡ drop n (tasks_for s jobs k)) }
    ensures first { (s : Known) (jobs : List Job) (h : List Call) (k : ℕ) (t : Task) → k < length s.drives → begins s (settled s (past s (tasks_for s jobs) h)) k ≡ Some t → is_some t.number ≡ true →
        slice_get (still_waiting (past s (tasks_for s jobs) h) k) 0 ≡ Some t }
    ensures planned { (s : Known) (requests : ℕ → List Task) (h : List Call) → IsPlanned s (past s requests h) }
    ensures written { (s : Known) (requests : ℕ → List Task) (h : List Call) → 1 ≤ length s.drives → nat_le 3 (past s requests h).now.phase ≡ true → AreWritten s (past s requests h) }
    ensures checked { (s : Known) (requests : ℕ → List Task) (h : List Call) → nat_le 3 (past s requests h).now.phase ≡ true → all_checked s (past s requests h) ≡ true }
    ensures ready { (s : Known) (requests : ℕ → List Task) (h : List Call) → nat_le 4 (past s requests h).now.phase ≡ true → all_ready s (past s requests h) ≡ true }
{
    steps_law();
}
