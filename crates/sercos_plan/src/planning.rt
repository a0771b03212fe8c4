// The least plan, or the chain that proves that none fits.
ghost use Rattle.std.specs.Prelude.{◌≡◌, ℕ, ◌+◌, ◌<◌, ◌≤◌, length, slice_index, true, IfOk, IfErr, OnErr, Ok};
ghost use Rattle.sercos_plan.specs.Clauses.{PlanView, most_drives, most_records, sent, record_bytes, positions, IsValid, IsLeast, NoneFits, least_t1, least_t2, least_t3, is_roomy, least_plan, IsChain, chain_of, planned};

use crate::chain::Chain;
use crate::chaining::chain_of;
use crate::least::{greatest_t4min, is_mst_roomy, least_t2, least_t3, starts};
use arrayvec::ArrayVec;
use sercos_timing::{Plan, Wish, Wishes};

// Returns the positions of the data records in the MDT, in the order of the ring. The first is 1. There are at most 64 drives, and their
// records have at most 2,047 bytes together.
fn positions(drives: &[Wish]) -> ArrayVec<u16, 64>
    requires count { length drives.now ≤ most_drives }
    requires sum { record_bytes drives.now ≤ most_records }
    ensures { result.items ≡ positions 1 drives.now }
{
    let mut places = ArrayVec::new();
    let mut next = 1u16;
    for drive in drives {
        places.push(next);
        next += drive.record_len;
    }
    places
}

// Returns at most 64 numbers, each below 65,536, as numbers of 16 bits.
fn narrowed(times: &[u32]) -> ArrayVec<u16, 64>
    requires count { length times.now ≤ most_drives }
    requires limit { (k : ℕ) → slice_index times.now k < 65536 }
    ensures { result.items ≡ times.now }
{
    let mut narrow = ArrayVec::new();
    for &time in times {
        narrow.push(time as u16);
    }
    narrow
}

// Returns the plan of the least times, which must keep their bounds: 9 holds at T2, and T3 and the greatest T4min are at most the cycle
// time. Its T4 is the cycle time less the greatest T4min.
#[tactic(auto, unfolding(crate::specs::LeastTimes::least_plan))]
fn least_plan(w: &Wishes, t1: &[u32], t2: u32, t3: u32) -> Plan
    requires valid { IsValid w.now }
    requires count { length t1.now ≡ length w.now.drives }
    requires t1 { (j : ℕ) → slice_index t1.now j ≡ least_t1 w.now (sent w.now) j }
    requires t2 { t2 ≡ least_t2 w.now }
    requires t3 { t3 ≡ least_t3 w.now }
    requires room { is_roomy w.now ≡ true }
    ensures { result ≡ least_plan w.now }
{
    Plan {
        t1: narrowed(t1),
        t2: t2 as u16,
        t3: t3 as u16,
        t4: (w.cycle() - greatest_t4min(w)) as u16,
        position: positions(w.drives()),
        mdt_len: w.record_bytes() as u16,
    }
}

// Returns the plan of the least times if they keep the bounds of 9, 8 and 10; otherwise the chain to the first of these that they break.
fn planned(w: &Wishes) -> Result<Plan, Chain>
    requires { IsValid w.now }
    ensures { result ≡ planned w.now }
{
    let starts = starts(w);
    let t1 = starts.as_slice();
    let t2 = least_t2(w, t1);
    let t3 = least_t3(w, t2);
    // These are the inequalities 9, 8 and 10.
    if is_mst_roomy(w, t2) && t3 <= w.cycle() && greatest_t4min(w) <= w.cycle() {
        Ok(least_plan(w, t1, t2, t3))
    } else {
        Err(chain_of(w, t1, t2, t3))
    }
}

/// Returns the least plan for valid input (this profile), which is the only one. It keeps the twelve inequalities. Every plan that keeps
/// them has each T1, T2 and T3 at least as late, and T4 at most as late. The error, if and only if no plan keeps them, is a chain of
/// inequalities that proves this, and that [`check_chain`](crate::check_chain) accepts. It leads from an inequality 1 or 2 along the least
/// times to the first of the bounds 9, 8 and 10 that these break. To the bound 10 there are no links.
pub fn plan(w: &Wishes) -> Result<Plan, Chain>
    requires { IsValid w.now }
    ensures least { IfOk result (IsLeast w.now) }
    ensures only { (p : PlanView) → IsLeast w.now p → result ≡ Ok p }
    ensures none { OnErr result (NoneFits w.now) }
    // the plan of the least times if they keep their bounds, otherwise their chain
    ensures answer { result ≡ planned w.now }
    ensures chain { IfErr result (λ chain. chain ≡ chain_of w.now) }
    // which `check_chain` accepts
    ensures proof { IfErr result (IsChain w.now) }
{
    planned(w)
}
