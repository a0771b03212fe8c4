// The ring.
ghost use Rattle.std.specs.Prelude.{◌≡◌, ℕ, ◌+◌, ◌^◌, ◌<◌, ◌≤◌, true, IfOk, Bool, List, [], ◌∷◌, Option, Some, None, if◌then◌else◌, is_some, length, vec_len};
ghost use Rattle.sercos_step.specs.declared.request.Job.{Job};
ghost use Rattle.sercos_block.specs.Views.{RingView};
ghost use Rattle.sercos_trace.specs.Views.{CycleView};
ghost use Rattle.sercos_script.specs.Links.{Carry, Restarts};
ghost use Rattle.sercos_law_run.specs.Journal.Runs.{no_events};
ghost use Rattle.sercos_ring.specs.Parts.{PartsStandFor};
ghost use Rattle.sercos_seat.specs.Ring.{Known, tasks_for};
ghost use Rattle.sercos_master.specs.Any.{AnyStandsFor};
ghost use Rattle.sercos_master.specs.Annals.{Call, Restart, past};
ghost use Rattle.sercos_master.specs.Reports.{restart_told};

use crate::moves::{phases_of, push_moves};
use crate::opening::{addresses_of, open_drives};
use crate::receiving::{Buffers, frame_said};
use crate::sending::{pass_own, push_mst, send_ats, send_mdt};
use crate::stations::{hear_msts, restart_drives};
use crate::turns::turns_of;
use arrayvec::ArrayVec;
use sercos_block::RingSetup;
use sercos_drive::Drive;
use sercos_law_run::{
    fall_law, headline_law, once_law, recovery_law, station_law, tolerance_law, undisturbed_law,
};
use sercos_master::AnyMaster;
use sercos_script::BitLink;
use sercos_step::Job;
use sercos_telegram::Kind;
use sercos_trace::{CycleRecord, Events, Move, Sent};
use std::alloc::{AllocError, Global};

/// A ring: its drives, its master, and the link between them.
#[derive(Drop)]
pub struct Ring<L: Drop> {
    link: L,
    drives: Vec<Drive>,
    addresses: ArrayVec<u8, 64>,
    // `None` only while a cycle is made
    master: Option<AnyMaster>,
    rate: u8,
    cycle: u32,
    made: Box<CycleRecord>,
    buffers: Box<Buffers>,
    ghost few: { length drives.items ≤ 64 },
    ghost addressed: { length addresses.items ≡ length drives.items },
    ghost there: { is_some master ≡ true },
}

// Returns the master, restarted if `restarts`. The events must have no outcomes. After a restart they have what the master reports of it;
// otherwise they are unchanged.
fn restart_master(master: AnyMaster, restarts: bool, events: &mut Events) -> AnyMaster
    ensures goes { (s : Known) (jobs : List Job) (h : List Call) → AnyStandsFor master s jobs h → AnyStandsFor result s jobs (if restarts then Restart ∷ h else h) }
    ensures told { (s : Known) (jobs : List Job) (h : List Call) → AnyStandsFor master s jobs h → events.old.outcomes ≡ [] →
        events.new ≡ (if restarts then restart_told s (past s (tasks_for s jobs) h) events.old else events.old) }
{
    if restarts {
        return master.restart(events);
    }
    master
}

// The master after a cycle, the phase that was commanded in it, and the number of undetected arrivals.
#[derive(Drop)]
struct CycleEnd {
    master: AnyMaster,
    phase: u8,
    unseen: u32,
}

// Makes a cycle of a valid ring, and returns its end. `cycle` must be the number of cycles made before, 0 for the first, and link, drives
// and master as these left them. The telegrams sent replace those in `list`. The moves and the events are added to `moves` and `events`,
// which must be empty. `addresses` must be those of the drives, in ring order; there are at most 64. `rate` is the ring's, in bits per
// microsecond. Afterwards `buffers` is unspecified.
fn run_cycle<L: BitLink>(
    link: &mut L,
    drives: &mut Vec<Drive>,
    master: AnyMaster,
    addresses: &[u8],
    cycle: u32,
    rate: u8,
    list: &mut ArrayVec<Sent, 66>,
    moves: &mut ArrayVec<Move, 128>,
    events: &mut Events,
    buffers: &mut Buffers,
) -> CycleEnd
    requires few { length drives.old.items ≤ 64 }
    requires addresses { length addresses.now ≡ length drives.old.items }
    requires moves { moves.old.items ≡ [] }
    requires events { events.old ≡ no_events }
    ensures count { length drives.new.items ≡ length drives.old.items }
    ensures after { (r : RingView) (jobs : List Job) (carry : Carry) (restarts : Restarts) (j : List CycleView) →
        PartsStandFor (L.carry link.old) (L.restart link.old) cycle rate addresses.now drives.old.items master r jobs carry restarts j →
        PartsStandFor (L.carry link.new) (L.restart link.new) (cycle + 1) rate addresses.now drives.new.items result.master r jobs carry restarts
        ((record { cycle = cycle; phase = result.phase; sent = list.new.items; moves = moves.new.items; events = events.new; unseen = result.unseen }) ∷ j) }
{
    let restarts = link.restarts(cycle, 0);
    let mut master = restart_master(master, restarts, events);
    let before = phases_of(drives.as_slice());
    restart_drives(link, drives, cycle);
    let phase = master.command();
    master.mst(&mut buffers.said);
    frame_said(link, cycle, Kind::Mst, 0, &buffers.said, &mut buffers.sent);
    let mut count = 0;
    push_mst(list, &mut count, &buffers.said, buffers.sent.len);
    let mst = hear_msts(
        link,
        drives,
        cycle,
        &buffers.said,
        &buffers.sent,
        &mut buffers.receiver,
    );
    let own = pass_own(link, &mut master, cycle, buffers);
    push_moves(
        moves,
        false,
        addresses,
        before.as_slice(),
        drives.as_slice(),
    );
    let turns = turns_of(drives.as_slice());
    let ats = send_ats(
        link,
        &mut master,
        drives.as_slice(),
        turns.as_slice(),
        cycle,
        rate,
        list,
        &mut count,
        buffers,
    );
    let middle = phases_of(drives.as_slice());
    let start = master.mdt(&mut buffers.said);
    let mdt = send_mdt(link, drives, start, cycle, rate, list, &mut count, buffers);
    list.truncate(count);
    push_moves(moves, true, addresses, middle.as_slice(), drives.as_slice());
    let master = master.end_cycle(events);
    CycleEnd {
        master,
        phase,
        unseen: mst + own + ats + mdt,
    }
}

impl<L: BitLink> Ring<L> {
    ghost use Rattle.std.specs.Prelude.{⊤};
    ghost use Rattle.std.specs.Borrow.{follows_so, sem};
    ghost use Rattle.sercos_ring.specs.Clauses.{All, IsRequest, is_ring, drive_at, given_before, DriveStandsFor};
    ghost use mathlib.Core.Option.{none};
    ghost use Rattle.sercos_ring.specs.contracts.ring.Ring.{the_row};
    ghost use Rattle.sercos_ring.specs.Kept.{AfterCycle, BearsOf, IsNextOf, KeepsAllOf, OnceOf, PredictsOf, RecoversOf, ReturnsOf, RingStandsFor, StartsUpOf, StationsOf, cycles_made, drives_in, newest};

    /// Opens a ring of a valid setup, over a link, with at most 4,096 requests, each for an element that a transfer takes: 1 to 7 of a
    /// read, 2 to 7 of a write. The ring has made no cycle. A request to an address without a drive in the setup is never begun. The error
    /// is `AllocError`. No other call of a ring takes memory.
    pub fn open(
        alloc: Global,
        setup: &RingSetup,
        jobs: Vec<Job>,
        link: L,
    ) -> Result<Ring<L>, AllocError>
        requires ring { is_ring setup.now ≡ true }
        requires few { length jobs.items ≤ 4096 }
        requires requests { All (λ job. IsRequest job.request) jobs.items }
        ensures stands { IfOk result (λ ring. RingStandsFor L.carry L.restart ring setup.now jobs.items (L.carry link) (L.restart link) []) }
        ensures count { IfOk result (λ ring. cycles_made ring ≡ 0) }
        ensures drives { IfOk result (λ ring. drives_in ring ≡ length setup.now.drives) }
    {
        let drives = open_drives(alloc, setup)?;
        let master = AnyMaster::open(alloc, setup, jobs)?;
        let made = CycleRecord::new_boxed(alloc)?;
        let buffers = Box::new(alloc, Buffers::new())?;
        Ok(Ring {
            link,
            drives,
            addresses: addresses_of(setup),
            master: Some(master),
            rate: setup.rate,
            cycle: 0,
            made,
            buffers,
        })
    }

    // Makes the next cycle, and keeps its record. The ring must have made fewer than 2^31 cycles.
    fn make_cycle(&mut self)
        requires room { cycles_made self.old < 2 ^ 31 }
        ensures after { AfterCycle L.carry L.restart self.old self.new }
        ensures next { IsNextOf L.carry L.restart self.old (newest self.new) }
    {
        let master = self.master.take().unwrap();
        let made = &mut *self.made;
        made.reuse(self.cycle);
        let end = run_cycle(
            &mut self.link,
            &mut self.drives,
            master,
            self.addresses.as_slice(),
            self.cycle,
            self.rate,
            &mut made.sent,
            &mut made.moves,
            &mut made.events,
            &mut self.buffers,
        );
        made.phase = end.phase;
        made.unseen = end.unseen;
        self.cycle += 1;
        self.master = Some(end.master);
    }

    /// Makes the next cycle, and lends its record: the telegrams, the moves of the drives, what the master reports, and the number of
    /// undetected arrivals. The ring must have made fewer than 2^31 cycles. The order within a cycle is that of IEC 61491:1995, the rest is
    /// this profile's.
    ///
    /// All that follows is for a ring opened with a setup and requests within the ranges of their types. What a request sets must be a
    /// procedure command of its drive, or a block that the drive lacks.
    ///
    /// Over any link, as long as nothing was undetected:
    /// - If phase 3 or 4 is commanded, the telegrams are apart and keep the times that the drives declare. They start by the plan that the
    ///   planner makes of the ring, which each drive in phase 3 or 4 holds. It is the plan that is reported, and the chain of a reported
    ///   `NoFit` is the planner's, too.
    /// - No drive is in a higher phase than the later one commanded in this cycle or the one before.
    /// - All transfers so far are exact, and reported once and in order.
    ///
    /// As long as no cycle was disturbed:
    /// - No fall is reported, and no request as broken.
    /// - Phase 4 is commanded from the cycle `startup_bound` on at the latest, and stays, iff a plan fits, the cycle time is within each
    ///   drive's limits, and no own block of a drive was outside its limits at opening.
    /// - Otherwise a stop for its cause is reported at most 41 steps of the slowest drive later, each of busy time and two cycles.
    ///
    /// Regardless of earlier losses and damage, as long as nothing was undetected: after a fall, a restart of the master included, after
    /// which no cycle is disturbed, the ring starts up again as it does from its opening. From `recovery_bound` cycles after the last
    /// disturbed one on, twice the bound of a start-up and 200, phase 4 is commanded, or the master is at a stop for its cause.
    ///
    /// While faults go on, as long as nothing was undetected, no station restarts, and since the opening or a fall the disturbed cycles are
    /// sparse: in phases 1 and 2 neither of the two cycles before a disturbed one is disturbed, in phases 3 and 4 not the one before. Then:
    /// - No fall is reported, and no request as broken.
    /// - From the second cycle on each drive is in the commanded phase, or one below it in that phase's first cycle.
    /// - A step is answered at most busy time and four cycles after it was first sent.
    /// - If nothing prevents it, phase 4 is commanded within `startup_bound` and the costs of the disturbed cycles, and stays.
    ///
    /// After faults that aren't sparse, as long as nothing was undetected, at most one fall follows while sparse ones go on. From
    /// `recovery_bound` and these costs on, phase 4 is commanded, or the master is at a stop for its cause.
    ///
    /// Regardless of what arrives, undetected damage included:
    /// - In phases 3 and 4 each drive's data keep its T1min, TATMT and T4min, and its data record is within the MDT. In phase 4 the data
    ///   keep their limits, too.
    /// - Each drive rises, and goes to phase 0, only for its causes.
    /// - A fall that is reported has its cause.
    /// - The numbers of the requests that end in the cycle ascend in its record, and none of them ended in an earlier cycle.
    ///
    /// As long as nothing was undetected, at most one AT is sent with phase 0, 1 or 2 commanded, by the drive that the MDT before was
    /// addressed to.
    pub fn cycle(&mut self) -> &CycleRecord
        requires room { cycles_made self.old < 2 ^ 31 }
        ensures* after { sem 𝓛 (follows_so (the_row L.row) (the_row L.row) self.entry.ghost_name none (λ _ _. ⊤) (λ new. AfterCycle L.carry L.restart self.old new × (result.now ≡ newest new))) }
        ensures next { IsNextOf L.carry L.restart self.old result.now }
        ensures headline { KeepsAllOf L.carry L.restart self.old result.now }
        ensures predicts { PredictsOf L.carry L.restart self.old result.now }
        ensures once { OnceOf L.carry L.restart self.old result.now }
        ensures undisturbed { StartsUpOf L.carry L.restart self.old result.now }
        ensures recovers { RecoversOf L.carry L.restart self.old result.now }
        ensures bears { BearsOf L.carry L.restart self.old result.now }
        ensures returns { ReturnsOf L.carry L.restart self.old result.now }
        ensures stations { StationsOf L.carry L.restart self.old result.now }
    {
        headline_law();
        once_law();
        undisturbed_law();
        recovery_law();
        tolerance_law();
        station_law();
        fall_law();
        self.make_cycle();
        &self.made
    }

    /// Returns the record of the newest cycle, which [`cycle`](Ring::cycle) lent. Before the first cycle it is unspecified.
    pub fn newest(&self) -> &CycleRecord
        ensures { result.now ≡ newest self.now }
    {
        &self.made
    }

    /// Returns the drive at an index in ring order, counted from 0. The index must be that of a drive.
    pub fn drive(&self, index: usize) -> &Drive
        requires { index < drives_in self.now }
        ensures { (r : RingView) (jobs : List Job) (carry : Carry) (restarts : Restarts) (j : List CycleView) → RingStandsFor L.carry L.restart self.now r jobs carry restarts j →
            DriveStandsFor result.now (drive_at r index) r.rate (given_before carry restarts j index) }
    {
        &self.drives[index]
    }

    /// Returns the link, for another ring. It carries and restarts the same as at the opening.
    pub fn into_link(self) -> L
        ensures { (r : RingView) (jobs : List Job) (carry : Carry) (restarts : Restarts) (j : List CycleView) → RingStandsFor L.carry L.restart self r jobs carry restarts j →
            (L.carry result ≡ carry) × (L.restart result ≡ restarts) }
    {
        let Ring { link, .. } = self;
        link
    }
}
