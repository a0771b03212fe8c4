// Whether a plan keeps the inequalities, and which one it breaks first. The planner's input is valid. The plan has a T1 for each drive,
// which `t1` repeats, and for inequality 12 a position for each drive. Each index is within its list.
ghost use Rattle.std.specs.Prelude.{◌≡◌, ◌+◌, ◌*◌, ◌<◌, ◌≤◌, ◌↔◌, length, slice_index, IsOk, IfSome, IfErr, Some, nat_le};
ghost use Rattle.sercos_timing.specs.Clauses.{first_sent, sent, bits_of, asked_5, sum_9, bound_9, greatest_tmtsy, Fits, asked_by, has_by, is_met, first_unmet, first_misplaced, broken_by, broken_unless, broken_position, first_broken, IsValid};

use crate::asked::{asked_of_start, bits_after};
use crate::inequality::Inequality;
use crate::plan::Plan;
use crate::wishes::Wishes;
use arrayvec::ArrayVec;

/// An inequality that a plan breaks (this profile).
#[derive(Clone, Copy, Debug, PartialEq, Eq)]
pub struct Broken {
    /// Its number, 1 to 12.
    pub rule: u8,
    /// The address of the drive for which it is broken; 0 if no single drive is meant.
    pub drive: u8,
}

// Returns what an inequality requires for the AT at index `at` of the order: the least value that the time returned by `has` may have, in
// bit times after the MST's end, for 10 in microseconds. `None` means that it requires nothing for this AT. It is the result for 5, 8, 9,
// 11 and 12, and for 2 to 4 where `asked_of_start` returns it.
fn asked(w: &Wishes, p: &Plan, t1: &[u32], rule: Inequality, at: usize) -> Option<u64>
    requires valid { IsValid w.now }
    requires count { length p.now.t1 ≡ length w.now.drives }
    requires t1 { t1.now ≡ p.now.t1 }
    requires within { at < length w.now.order }
    ensures { result ≡ asked_by w.now p.now rule (slice_index w.now.order at) (first_sent w.now.order at) }
{
    let place = usize::from(w.order()[at]);
    let times = w.wish(place).times;
    match rule {
        Inequality::Master => Some(bits_after(w, t1, place, u32::from(times.tatmt))),
        Inequality::Records => Some(
            w.bits(p.t2()) + (w.mdt_bits() + w.bits(u32::from(times.tmtsg))),
        ),
        Inequality::Capture => Some(u64::from(p.t4()) + u64::from(times.t4min)),
        _ => asked_of_start(w, t1, rule, at),
    }
}

// Returns the plan's time that an inequality bounds from below, in the unit of `asked`: for 6 T2, for 7 T3, for 10 the cycle time, and for
// all others the start of the AT at index `at` of the order.
fn has(w: &Wishes, p: &Plan, rule: Inequality, at: usize) -> u64
    requires valid { IsValid w.now }
    requires count { length p.now.t1 ≡ length w.now.drives }
    requires within { at < length w.now.order }
    ensures { result ≡ has_by w.now p.now rule (slice_index w.now.order at) }
{
    match rule {
        Inequality::Master => w.bits(p.t2()),
        Inequality::Records => w.bits(p.t3()),
        Inequality::Capture => u64::from(w.cycle()),
        _ => w.bits(u32::from(p.t1()[usize::from(w.order()[at])])),
    }
}

// Returns whether a value meets a requirement. `None`, which requires nothing, is always met.
fn is_met(asked: Option<u64>, has: u64) -> bool
    ensures { result ≡ is_met asked has }
{
    match asked {
        Some(least) => least <= has,
        None => true,
    }
}

// Returns the T1 of a plan, of which there are at most 64, as numbers of 32 bits.
fn widened(times: &[u16]) -> ArrayVec<u32, 64>
    requires { length times.now ≤ 64 }
    ensures { result.items ≡ times.now }
{
    let mut wide = ArrayVec::new();
    for &time in times {
        wide.push(u32::from(time));
    }
    wide
}

// Returns the index in the ring of the drive of the first AT in the order that breaks an inequality, 1 to 4, 6, 7 or 10; `None` if each AT
// keeps it. For any other inequality the result is `None`, whether it is kept or not.
fn unmet(w: &Wishes, p: &Plan, t1: &[u32], rule: Inequality) -> Option<usize>
    requires valid { IsValid w.now }
    requires count { length p.now.t1 ≡ length w.now.drives }
    requires t1 { t1.now ≡ p.now.t1 }
    ensures within { IfSome result (λ place. place < length w.now.drives) }
    ensures value { result ≡ first_unmet (asked_by w.now p.now rule) (has_by w.now p.now rule) (sent w.now) }
{
    let order = w.order();
    for at in 0..order.len() {
        if !is_met(asked(w, p, t1, rule, at), has(w, p, rule, at)) {
            return Some(usize::from(order[at]));
        }
    }
    None
}

// Returns an inequality, 1 to 4, 6, 7 or 10, with the address of the drive whose AT is the first in the order to break it; `None` if each
// AT keeps it. For any other inequality the result is `None`, whether it is kept or not.
#[tactic(auto, unfolding(crate::specs::FirstBroken::broken_by))]
fn broken_by(w: &Wishes, p: &Plan, t1: &[u32], rule: Inequality) -> Option<Broken>
    requires valid { IsValid w.now }
    requires count { length p.now.t1 ≡ length w.now.drives }
    requires t1 { t1.now ≡ p.now.t1 }
    ensures { result ≡ broken_by w.now p.now rule }
{
    match unmet(w, p, t1, rule) {
        Some(place) => Some(Broken {
            rule: rule.number(),
            drive: w.wish(place).address,
        }),
        None => None,
    }
}

// Returns an inequality that concerns no single drive, with 0 as the drive; `None` if it is kept.
fn broken_unless(rule: Inequality, kept: bool) -> Option<Broken>
    ensures { result ≡ broken_unless rule kept }
{
    if kept {
        None
    } else {
        Some(Broken {
            rule: rule.number(),
            drive: 0,
        })
    }
}

// Returns whether 5 is kept: the MDT begins at least the gap after the end of the last AT.
fn is_last_kept(w: &Wishes, p: &Plan, t1: &[u32]) -> bool
    requires valid { IsValid w.now }
    requires count { length p.now.t1 ≡ length w.now.drives }
    requires t1 { t1.now ≡ p.now.t1 }
    ensures { result ≡ is_met (asked_5 w.now (bits_of w.now p.now.t1) (sent w.now)) (w.now.rate * p.now.t2) }
{
    let order = w.order();
    let last = usize::from(order[order.len() - 1]);
    bits_after(w, t1, last, w.gap()) <= w.bits(p.t2())
}

// Returns whether 9 is kept: from the end of the MDT to the next MST there is at least the gap, and at least the TMTSY of each drive.
fn is_mst_kept(w: &Wishes, p: &Plan) -> bool
    requires valid { IsValid w.now }
    ensures { result ≡ nat_le (sum_9 w.now (w.now.rate * p.now.t2) (greatest_tmtsy w.now)) (bound_9 w.now) }
{
    let pause = w.gap().max(w.greatest_tmtsy());
    w.bits(p.t2()) + (w.mdt_bits() + w.bits(pause)) <= w.recovered_by()
}

// Returns the address of the first drive of the ring whose data record doesn't directly follow the record before it; `None` if all do. The
// first record is at position 1.
fn misplaced(w: &Wishes, p: &Plan) -> Option<u8>
    requires valid { IsValid w.now }
    requires count { length p.now.position ≡ length w.now.drives }
    ensures { result ≡ first_misplaced 1 w.now.drives p.now.position }
{
    let drives = w.drives();
    let places = p.position();
    let mut next = 1u16;
    for i in 0..drives.len() {
        if places[i] != next {
            return Some(drives[i].address);
        }
        next += drives[i].record_len;
    }
    None
}

// Returns inequality 12 with the address of the first drive whose position is wrong; `None` if all positions are right.
#[tactic(auto, unfolding(crate::specs::FirstBroken::broken_position))]
fn broken_position(w: &Wishes, p: &Plan) -> Option<Broken>
    requires valid { IsValid w.now }
    requires count { length p.now.position ≡ length w.now.drives }
    ensures { result ≡ broken_position w.now p.now }
{
    match misplaced(w, p) {
        Some(address) => Some(Broken {
            rule: Inequality::Positions.number(),
            drive: address,
        }),
        None => None,
    }
}

// Returns the first inequality that the plan breaks, in the order that `fits` states; `None` if it keeps all. Valid input keeps 11.
#[tactic(auto, unfolding(crate::specs::FirstBroken::first_broken))]
fn first_broken(w: &Wishes, p: &Plan) -> Option<Broken>
    requires valid { IsValid w.now }
    requires times { length p.now.t1 ≡ length w.now.drives }
    requires places { length p.now.position ≡ length w.now.drives }
    ensures { result ≡ first_broken w.now p.now }
{
    let starts = widened(p.t1());
    let t1 = starts.as_slice();
    let own = broken_by(w, p, t1, Inequality::Own);
    let gap = broken_by(w, p, t1, Inequality::Gap);
    let neighbor = broken_by(w, p, t1, Inequality::Neighbor);
    let slave = broken_by(w, p, t1, Inequality::Slave);
    let last = broken_unless(Inequality::Last, is_last_kept(w, p, t1));
    let master = broken_by(w, p, t1, Inequality::Master);
    let records = broken_by(w, p, t1, Inequality::Records);
    let cycle = broken_unless(Inequality::Cycle, p.t3() <= w.cycle());
    let next = broken_unless(Inequality::NextMst, is_mst_kept(w, p));
    let capture = broken_by(w, p, t1, Inequality::Capture);
    let position = broken_position(w, p);
    let length = broken_unless(Inequality::Positions, p.mdt_len() == w.record_bytes());
    let of_cycle = cycle.or(next.or(capture.or(position.or(length))));
    own.or(gap.or(neighbor.or(slave.or(last.or(master.or(records.or(of_cycle)))))))
}

/// Returns `Ok` iff a plan keeps the twelve inequalities (this profile). The input must be valid, and the plan must have a T1 and a
/// position for each drive. The error is the first that it breaks: the least in number, and of that the first AT in the order. In 12 the
/// drive is the first of the ring whose position is wrong. The drive is 0 in 5, 8 and 9, and in 12 if only the length of the MDT is wrong.
/// 11 is never the error, since valid input keeps it.
pub fn fits(w: &Wishes, p: &Plan) -> Result<(), Broken>
    requires valid { IsValid w.now }
    requires times { length p.now.t1 ≡ length w.now.drives }
    requires places { length p.now.position ≡ length w.now.drives }
    ensures fits { IsOk result ↔ Fits w.now p.now }
    ensures first { IfErr result (λ broken. first_broken w.now p.now ≡ Some broken) }
{
    match first_broken(w, p) {
        Some(broken) => Err(broken),
        None => Ok(()),
    }
}
