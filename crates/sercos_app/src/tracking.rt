// The run of a ring, with the reported outcomes of its requests.
ghost use Rattle.std.specs.Prelude.{◌≡◌, ℕ, ◌<◌, ◌≤◌, ◌^◌, ◌++◌, true, List, [], length, IfOk};
ghost use Rattle.sercos_app.specs.Clauses.{All, Job, Outcome, IsRequest, is_ring, run_of, AfterCycle, RingStandsFor, cycles_made, newest, tracked, HasMade, OfRun, told_in, run_tracked};

use sercos_backup::{Tracked, note, track};
use sercos_block::{RingSetup, cycles_of};
use sercos_law_run::run_law;
use sercos_ring::{Ring, standing_law};
use sercos_script::BitLink;
use sercos_step::Job;
use std::alloc::{AllocError, Global};

/// A ring that has made its cycles, and its requests, each with its reported outcome.
#[derive(Drop)]
pub struct Run<L: BitLink> {
    /// The requests, in their order.
    pub list: Vec<Tracked>,
    /// The ring.
    pub ring: Ring<L>,
}

// Makes the next cycle of a ring, which must have made fewer than 2^31, and notes the outcomes that are reported in it in `list`. Before,
// `list` must have the requests in their order, each with its outcome if it was reported already.
fn note_next<L: BitLink>(ring: &mut Ring<L>, list: &mut [Tracked])
    requires made { cycles_made ring.old < 2 ^ 31 }
    ensures after { AfterCycle L.carry L.restart ring.old ring.new }
    ensures noted { (told : List (ℕ × Outcome)) (jobs : List Job) → list.old ≡ tracked told jobs → list.new ≡ tracked (told ++ (newest ring.new).events.outcomes) jobs }
{
    let made = ring.cycle();
    note(made.events.outcomes.as_slice(), list);
}

// Makes the first `cycles` cycles, at most 50,000, of a ring that has made none, and notes all outcomes that are reported in `list`.
// Before, `list` must have the requests in their order, each without an outcome.
fn note_cycles<L: BitLink>(ring: &mut Ring<L>, cycles: u32, list: &mut [Tracked])
    requires made { cycles_made ring.old ≡ 0 }
    requires few { cycles ≤ 50000 }
    ensures noted { OfRun (RingStandsFor L.carry L.restart) ring.old cycles (λ run. (jobs : List Job) → list.old ≡ tracked [] jobs → list.new ≡ tracked (told_in run) jobs) }
    ensures made { HasMade (RingStandsFor L.carry L.restart) ring.old ring.new cycles true }
{
    run_law();
    standing_law::<L>();
    for _k in 0..cycles {
        note_next(ring, list);
    }
}

/// Runs a ring of a valid setup over a link, for its number of cycles, with at most 4,096 requests, each a read of an element from 1 to 7,
/// a write of one from 2 to 7, or a command. Returns the ring, and its requests with their outcomes. All memory is taken before the first
/// cycle. The error is `AllocError`.
#[inline(never)]
pub fn run_tracked<L: BitLink>(
    alloc: Global,
    setup: &RingSetup,
    jobs: Vec<Job>,
    link: L,
) -> Result<Run<L>, AllocError>
    requires ring { is_ring setup.now ≡ true }
    requires few { length jobs.items ≤ 4096 }
    requires requests { All (λ job. IsRequest job.request) jobs.items }
    ensures list { IfOk result (λ run. run.list.items ≡ run_tracked setup.now jobs.items (L.carry link) (L.restart link)) }
    ensures ring { IfOk result (λ run. RingStandsFor L.carry L.restart run.ring setup.now jobs.items (L.carry link) (L.restart link)
        (run_of setup.now jobs.items (L.carry link) (L.restart link) setup.now.cycles)) }
{
    let mut list = track(alloc, jobs.as_slice())?;
    let mut ring = Ring::open(alloc, setup, jobs, link)?;
    note_cycles(&mut ring, cycles_of(setup), list.as_mut_slice());
    Ok(Run { list, ring })
}
