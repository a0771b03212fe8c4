// The faults of a script in stretches. Each has the number of a cycle before which none of its faults acts, so that in a cycle only those
// stretches are searched in which a fault may act.
ghost use Rattle.std.specs.Prelude.{◌≡◌, ◌≤◌, ◌<◌, ◌+◌, ◌*◌, ◌++◌, true, false, ℕ, [], length, replicate, slice_index_or};
ghost use Rattle.sercos_script.specs.Clauses.{filter, acts, edge, stretch, AreAhead, AreDone};

use crate::fault::Fault;
use arrayvec::ArrayVec;

// The most faults that are gathered (14 kB). If more act, the whole script is searched, a good part of which then acts.
pub(crate) const ROOM: usize = 512;

// The greatest number of stretches.
pub(crate) const STRETCHES: usize = 512;

// The number of faults in a stretch. Only the last one has fewer, or more if the script is longer than all stretches.
const STRETCH: usize = 8;

// Returns the numbers of the stretches if nothing is known of them: zeros.
pub(crate) fn nothing_known() -> [u32; STRETCHES]
    ensures { result ≡ replicate 512 0 }
{
    [0; STRETCHES]
}

// The number of stretches in a group, whose numbers are looked at together.
const GROUP: usize = 16;

// Returns the index at which stretch `k` begins in a script of `len` faults; `len` from stretch 512 on.
fn edge(len: usize, k: usize) -> usize
    ensures { result ≡ edge len k }
{
    if k < STRETCHES {
        (STRETCH * k).min(len)
    } else {
        len
    }
}

// Returns the faults of the stretch at index `k`, which must be below 512: eight faults, fewer or none at the end of the script; at index
// 511 all that remain.
fn stretch(script: &[Fault], k: usize) -> &[Fault]
    requires { k < 512 }
    ensures { result.now ≡ stretch k script.now }
{
    let start = edge(script.len(), k);
    let end = edge(script.len(), k + 1);
    &script[start..end]
}

// Whether a fault acts in a cycle, and the number of a cycle before which it doesn't act again.
#[derive(Clone, Copy)]
struct Turn {
    acts: bool,
    next: u32,
}

// Returns whether a fault acts in a cycle, and when it may act again. It divides only if the cycle is in the fault's range.
#[tactic(auto, unfolding(crate::specs::Scripts::acts))]
fn turn_of(fault: &Fault, cycle: u32) -> Turn
    ensures acts { result.acts ≡ acts cycle fault.now }
    ensures next { (c : ℕ) → cycle + 1 ≤ c → c < result.next → acts c fault.now ≡ false }
{
    if cycle < fault.cycle {
        return Turn {
            acts: false,
            next: fault.cycle,
        };
    }
    if fault.last < cycle {
        return Turn {
            acts: false,
            next: u32::MAX,
        };
    }
    if fault.every == 0 {
        return Turn {
            acts: cycle == fault.cycle,
            next: u32::MAX,
        };
    }
    let rest = (cycle - fault.cycle) % fault.every;
    Turn {
        acts: rest == 0,
        next: cycle.saturating_add(fault.every - rest),
    }
}

// The result of the search of a stretch: whether there was room for all faults that act, and the number of a cycle before which none acts
// again.
#[derive(Clone, Copy)]
struct Found {
    room: bool,
    soonest: u32,
}

// Appends those of the faults that act in a cycle. If there is no room for all of them, what is appended is unspecified.
fn look_into(faults: &[Fault], cycle: u32, acting: &mut ArrayVec<Fault, ROOM>) -> Found
    ensures acting { result.room ≡ true → acting.new.items ≡ acting.old.items ++ filter (acts cycle) faults.now }
    ensures soonest { (c : ℕ) → cycle + 1 ≤ c → c < result.soonest → filter (acts c) faults.now ≡ [] }
{
    let mut soonest = u32::MAX;
    for fault in faults {
        let turn = turn_of(fault, cycle);
        soonest = soonest.min(turn.next);
        if !turn.acts {
            continue;
        }
        if acting.len() == ROOM {
            return Found {
                room: false,
                soonest: 0,
            };
        }
        acting.push(*fault);
    }
    Found {
        room: true,
        soonest,
    }
}

// Returns true only if a cycle is before each of these.
#[inline(always)]
fn is_before_all(cycle: u32, soonest: &[u32]) -> bool
    ensures { result ≡ true → (k : ℕ) → k < length soonest.now → cycle < slice_index_or soonest.now k 0 }
{
    let mut least = u32::MAX;
    for other in soonest {
        least = least.min(*other);
    }
    cycle < least
}

// Appends the faults that act in a cycle from those stretches of a group, 0 to 31, in which one may act by then, and keeps for each of
// these stretches when it may act next. Returns whether there was room for all of them. If not, `acting` is unspecified. `soonest` has 512
// numbers. The groups before it must have been searched: `acting` has their faults that act, and no fault of their stretches acts after
// this cycle and before the one that `soonest` has for the stretch. From this cycle on, no fault of any other stretch may act before the
// one that it has for it; afterwards no fault acts after this cycle and before that one, in each case.
fn gather_group(
    script: &[Fault],
    cycle: u32,
    group: usize,
    soonest: &mut [u32],
    acting: &mut ArrayVec<Fault, ROOM>,
) -> bool
    requires group { group < 32 }
    requires len { length soonest.old ≡ 512 }
    requires done { AreDone script.now cycle soonest.old (16 * group) acting.old.items }
    ensures ahead { AreAhead script.now (cycle + 1) soonest.new }
    ensures len { length soonest.new ≡ 512 }
    ensures done { result ≡ true → AreDone script.now cycle soonest.new (16 * group + 16) acting.new.items }
{
    let first = GROUP * group;
    if is_before_all(cycle, &soonest[first..first + GROUP]) {
        return true;
    }
    for k in first..first + GROUP {
        if cycle < soonest[k] {
            continue;
        }
        let faults = stretch(script, k);
        let found = look_into(faults, cycle, acting);
        soonest[k] = found.soonest;
        if !found.room {
            return false;
        }
    }
    true
}

// Replaces `acting` by the faults that act in a cycle, and keeps for each stretch when it may act next. Returns whether there was room for
// all of them. If not, `acting` is unspecified. `soonest` has 512 numbers. From this cycle on, no fault of a stretch may act before the
// cycle that it has for it; afterwards this holds from the next cycle on, in each case.
pub(crate) fn gather(
    script: &[Fault],
    cycle: u32,
    soonest: &mut [u32],
    acting: &mut ArrayVec<Fault, ROOM>,
) -> bool
    requires len { length soonest.old ≡ 512 }
    requires ahead { AreAhead script.now cycle soonest.old }
    ensures ahead { AreAhead script.now (cycle + 1) soonest.new }
    ensures len { length soonest.new ≡ 512 }
    ensures acting { result ≡ true → acting.new.items ≡ filter (acts cycle) script.now }
{
    acting.clear();
    let groups = script
        .len()
        .div_ceil(STRETCH * GROUP)
        .min(STRETCHES / GROUP);
    for group in 0..groups {
        if !gather_group(script, cycle, group, soonest, acting) {
            return false;
        }
    }
    true
}
