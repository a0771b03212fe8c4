// The margins, found by bisection.
ghost use Rattle.std.specs.Prelude.{◌≡◌, ◌<◌, ◌≤◌, length, true, false};
ghost use Rattle.sercos_margin.specs.Clauses.{shortest, most_cycle, IsCycle, IsValid, NoneFits, greatest, declared, with_time, with_cycle, HasPlan, IsMargin, IsBetween, IsLeastOf, IsLeastCycle, margin_of, least_cycle_of};

use crate::changes::{Time, declared, greatest, with_cycle, with_time};
use sercos_plan::plan;
use sercos_timing::Wishes;
use sercos_timing::limits::{CYCLE_UNIT, LEAST_CYCLE, MOST_CYCLE};

// Returns whether some plan fits valid input.
#[tactic(auto, using(crate::proofs::EasierLemmas::some_plan))]
fn has_plan(w: &Wishes) -> bool
    requires { IsValid w.now }
    ensures has { result ≡ true → HasPlan w.now }
    ensures none { result ≡ false → NoneFits w.now }
{
    match plan(w) {
        Ok(_) => true,
        Err(_) => false,
    }
}

// Returns whether some plan fits valid input with another value, in microseconds, of one time of the drive at an index of the ring, which
// is below their number.
fn has_with_time(w: &Wishes, index: usize, t: Time, value: u16) -> bool
    requires valid { IsValid w.now }
    requires within { index < length w.now.drives }
    ensures has { result ≡ true → HasPlan (with_time w.now index t value) }
    ensures none { result ≡ false → NoneFits (with_time w.now index t value) }
{
    let new = with_time(w, index, t, value);
    has_plan(&new)
}

// Returns whether some plan fits valid input with another cycle time, which is also the control unit cycle time: 125 microseconds, or a
// multiple of 250 from 250 to 64,000.
#[tactic(auto, using(crate::proofs::EasierLemmas::valid_cycle))]
fn has_with_cycle(w: &Wishes, cycle: u16) -> bool
    requires valid { IsValid w.now }
    requires cycle { IsCycle cycle }
    ensures has { result ≡ true → HasPlan (with_cycle w.now cycle) }
    ensures none { result ≡ false → NoneFits (with_cycle w.now cycle) }
{
    let new = with_cycle(w, cycle);
    has_plan(&new)
}

// Returns the margin of a time of the drive at an index of the ring, in microseconds, if a plan fits with `least`, and none with a value
// above `most` that a drive may declare. The index must be below the number of drives. `least` is at least the declared time and at most
// `most`, which a drive may declare. The input is valid.
fn margin_between(w: &Wishes, index: usize, t: Time, least: u16, most: u16) -> u16
    requires valid { IsValid w.now }
    requires within { index < length w.now.drives }
    requires between { IsBetween w.now index t least most }
    ensures { IsMargin w.now index t result }
{
    let mut low = least;
    let mut high = most;
    while low < high {
        let middle = high - (high - low) / 2;
        if has_with_time(w, index, t, middle) {
            low = middle;
        } else {
            high = middle - 1;
        }
    }
    low
}

/// Returns the margin of one time of the drive at an index of the ring, in microseconds (this profile): the greatest value that the drive
/// may declare instead of its own so that a plan still fits. A plan fits with each value from the declared one up to the margin, and with
/// no greater one that a drive may declare. The input must be valid, and a plan must fit it as it is. The declared time must be at most
/// [`greatest`], and the index below the number of drives.
#[tactic(auto, using(crate::proofs::MarginLemmas::between_all))]
pub fn margin(w: &Wishes, index: usize, t: Time) -> u16
    requires valid { IsValid w.now }
    requires within { index < length w.now.drives }
    requires limit { declared w.now index t ≤ greatest t }
    requires fits { HasPlan w.now }
    ensures margin { IsMargin w.now index t result }
    ensures value { result ≡ margin_of w.now index t }
{
    margin_between(w, index, t, declared(w, index, t), greatest(t))
}

// Returns the least multiple of 250 microseconds that is a cycle time with which a plan fits valid input. A plan fits with each longer
// cycle time of this profile, and with no shorter one. One must fit with the longest cycle time, and none with 125 microseconds.
fn least_multiple(w: &Wishes) -> u16
    requires valid { IsValid w.now }
    requires short { NoneFits (with_cycle w.now shortest) }
    requires long { HasPlan (with_cycle w.now most_cycle) }
    ensures { IsLeastOf w.now result }
{
    let mut low = 1u16;
    let mut high = MOST_CYCLE / CYCLE_UNIT;
    while low < high {
        let middle = (low + high) / 2;
        if has_with_cycle(w, CYCLE_UNIT * middle) {
            high = middle;
        } else {
            low = middle + 1;
        }
    }
    CYCLE_UNIT * low
}

/// Returns the least cycle time, in microseconds, with which a plan fits valid input if it is also the control unit cycle time: 125, or a
/// multiple of 250 up to 64,000 (this profile). A plan fits with each longer one of these, and with no shorter one. `None` means that no
/// plan fits with any of them.
pub fn least_cycle(w: &Wishes) -> Option<u16>
    requires { IsValid w.now }
    ensures cycle { IsLeastCycle w.now result }
    ensures value { result ≡ least_cycle_of w.now }
{
    if has_with_cycle(w, LEAST_CYCLE) {
        return Some(LEAST_CYCLE);
    }
    if has_with_cycle(w, MOST_CYCLE) {
        Some(least_multiple(w))
    } else {
        None
    }
}
