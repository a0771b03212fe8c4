// What the master keeps of the ring.
ghost use Rattle.std.specs.Prelude.{◌≡◌, ℕ, ◌<◌, ◌≤◌, true, false, length, Option, None, IfOk, is_some};
ghost use Rattle.sercos_master.specs.Clauses.{All, IsRequest, is_ring, mdt_said, sent_as, known_of, IsKnown, Known, tasks_for, IsPlanned, after_mdt, Past, new_epoch, AreWaiting, IsIn, CoreStandsFor};

use crate::lookup::Places;
use crate::opening::{copied, deal, open_seats};
use arrayvec::ArrayVec;
use sercos_bits::Content;
use sercos_block::{RingSetup, ring_law};
use sercos_seat::Seat;
use sercos_step::Job;
use sercos_timing::Plan;
use sercos_trace::Stop;
use std::alloc::{AllocError, Global};
use std::marker::Model;

// The ring as the master keeps it. The cycle times and the gap are in microseconds, the rate is in bits per microsecond, and drives are
// indices in ring order. `whole` is whether the MST of this cycle returned intact, `row` for how many cycles in a row before it did, up to
// 10, and `lost` whether it didn't in the cycle before, in phases 1 to 4. `addressed` and `before` are the drives that the MDT addresses
// and addressed in the cycle before, and `waited` is for how many cycles of phase 1 in a row it was the latter. `plans` is whether the plan
// was made in this cycle, `stopped` whether there is a stop, and `stop` is a stop of this cycle.
#[derive(Drop)]
pub struct Ring {
    pub rate: u8,
    pub cycle: u16,
    pub control: u16,
    pub gap: u16,
    pub order: ArrayVec<u8, 64>,
    pub places: Places,
    pub seats: Vec<Seat>,
    pub count: u32,
    pub phase: u8,
    pub whole: bool,
    pub row: u8,
    pub lost: bool,
    pub addressed: Option<usize>,
    pub before: Option<usize>,
    pub waited: u8,
    pub plan: Option<Plan>,
    pub plans: bool,
    pub stopped: bool,
    pub stop: Option<Stop>,
}

impl Model for Ring {
    ghost use Rattle.sercos_master.specs.Kept.{CoreView};

    ghost Value = { CoreView };

    ghost view = { λ r. record {
      rate = r.rate;
      cycle = r.cycle;
      control = r.control;
      gap = r.gap;
      order = r.order.items;
      places = r.places;
      seats = r.seats.items;
      count = r.count;
      phase = r.phase;
      whole = r.whole;
      row = r.row;
      lost = r.lost;
      addressed = r.addressed;
      before = r.before;
      waited = r.waited;
      plan = r.plan;
      plans = r.plans;
      stopped = r.stopped;
      stop = r.stop;
    } };
}

impl Ring {
    // Opens a ring in phase 0 that has received nothing. The setup must be valid. There must be at most 4,096 requests, each for an element
    // that a transfer takes: 1 to 7 of a read, 2 to 7 of a write. The error is `AllocError`.
    pub fn open(alloc: Global, setup: &RingSetup, jobs: Vec<Job>) -> Result<Ring, AllocError>
        requires ring { is_ring setup.now ≡ true }
        requires few { length jobs.items ≤ 4096 }
        requires requests { All (λ job. IsRequest job.request) jobs.items }
        ensures { IfOk result (λ r. IsIn 0 r (known_of setup.now) (new_epoch 0 (tasks_for (known_of setup.now) jobs.items))) }
    {
        ring_law();
        let mut seats = open_seats(alloc, setup.drives.as_slice())?;
        deal(jobs, &mut seats)?;
        Ok(Ring {
            rate: setup.rate,
            cycle: setup.cycle,
            control: setup.control,
            gap: setup.gap,
            order: copied(setup.order.as_slice()),
            places: Places::of_all(seats.as_slice()),
            seats,
            count: 0,
            phase: 0,
            whole: false,
            row: 0,
            lost: false,
            addressed: None,
            before: None,
            waited: 0,
            plan: None,
            plans: false,
            stopped: false,
            stop: None,
        })
    }

    // Processes the answers of the cycle, begins the next tasks if there is no stop, and sends the MDT. Replaces `out` by its content, and
    // returns its start in microseconds after the MST's end. In the cases that `send` lists the result is `None`, and `out` unspecified.
    // The ring must be one of a valid setup, the phase 0 to 4, and the tasks that wait of phase 4. For the result, a plan must be the least
    // one for the values that were read in this epoch, with all reads ended and with data records that fit into an MDT.
    pub fn mdt(&mut self, out: &mut Content) -> Option<u16>
        ensures stands { (s : Known) (p : Past) → IsKnown s → ((k : ℕ) → AreWaiting (p.waiting k)) → p.now.phase ≤ 4 →
            CoreStandsFor self.old s p → CoreStandsFor self.new s (after_mdt s p) }
        ensures said { (s : Known) (p : Past) → IsKnown s → ((k : ℕ) → AreWaiting (p.waiting k)) → p.now.phase ≤ 4 → IsPlanned s p →
            CoreStandsFor self.old s p → sent_as result out.new ≡ mdt_said s (after_mdt s p) }
        ensures some { is_some result ≡ true → 0 < length out.new }
    {
        self.settle();
        self.begin();
        self.send(out)
    }
}
