// The totals of a run, counted cycle by cycle.
ghost use Rattle.std.specs.Prelude.{◌≡◌, ◌<◌, ◌≤◌, ◌==◌, if◌then◌else◌, Some, None, is_some, length};
ghost use Rattle.sercos_ring.specs.Clauses.{option_or, ended, is_complete, is_refused, is_broken, HasRoom, IsFew, IsMade, none_made, with_cycle};

use sercos_block::ring_law;
use sercos_step::Outcome;
use sercos_trace::{CycleRecord, Reported, Totals};

// Returns the number of requests that ended complete, at most that of the outcomes.
fn complete_in(outcomes: &[Reported]) -> usize
    ensures value { result ≡ ended is_complete outcomes.now }
    ensures few { result ≤ length outcomes.now }
{
    outcomes
        .iter()
        .filter(|(_, outcome)| matches!(outcome, Outcome::Complete(_)))
        .count()
}

// Returns the number of requests that were refused, at most that of the outcomes.
fn refused_in(outcomes: &[Reported]) -> usize
    ensures value { result ≡ ended is_refused outcomes.now }
    ensures few { result ≤ length outcomes.now }
{
    outcomes
        .iter()
        .filter(|(_, outcome)| matches!(outcome, Outcome::Refused(_)))
        .count()
}

// Returns the number of requests that were broken, at most that of the outcomes.
fn broken_in(outcomes: &[Reported]) -> usize
    ensures value { result ≡ ended is_broken outcomes.now }
    ensures few { result ≤ length outcomes.now }
{
    outcomes
        .iter()
        .filter(|(_, outcome)| matches!(outcome, Outcome::Broken))
        .count()
}

/// Returns the totals before the first cycle.
pub fn no_totals() -> Totals
    ensures { result ≡ none_made }
{
    Totals {
        cycles: 0,
        phase: 0,
        complete: 0,
        refused: 0,
        broken: 0,
        falls: 0,
        unseen: 0,
        phase4: None,
    }
}

/// Adds a cycle to the totals. Their phase becomes that of the cycle, and their first cycle in phase 4 this one, if there was none and its
/// phase is 4. The cycle must have at most 195 undetected arrivals. Each count of the totals must have room below 2^32: for one more cycle
/// and fall, 128 more requests of each outcome, and 195 more undetected arrivals. The cycle has at most 128 requests of each outcome.
/// [`count_made`] does the same for a cycle that a ring has made.
pub fn count_cycle(totals: &mut Totals, made: &CycleRecord)
    requires room { HasRoom totals.old }
    requires unseen { made.now.unseen ≤ 195 }
    ensures counted { totals.new ≡ with_cycle totals.old made.now }
    ensures few { IsFew made.now }
{
    let outcomes = made.events.outcomes.as_slice();
    totals.cycles += 1;
    totals.phase = made.phase;
    totals.complete += complete_in(outcomes) as u32;
    totals.refused += refused_in(outcomes) as u32;
    totals.broken += broken_in(outcomes) as u32;
    totals.falls += u32::from(made.events.fall.is_some());
    totals.unseen += made.unseen;
    totals.phase4 = totals.phase4.or((made.phase == 4).then_some(made.cycle));
}

/// Adds a cycle to the totals, as [`count_cycle`] does. It must be the next one of a run of a valid ring. Each count of the totals must
/// have room below 2^32: for one more cycle and fall, 128 more requests of each outcome, and 195 more undetected arrivals. The cycle has at
/// most 128 requests of each outcome, and at most 195 undetected arrivals.
pub fn count_made(totals: &mut Totals, made: &CycleRecord)
    requires made { IsMade made.now }
    requires room { HasRoom totals.old }
    ensures counted { totals.new ≡ with_cycle totals.old made.now }
    ensures few { IsFew made.now }
{
    ring_law();
    prove!(made.sent.len() <= 66);
    count_cycle(totals, made);
}
