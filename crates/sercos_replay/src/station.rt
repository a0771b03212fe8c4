// The replay of the master or of a drive.
ghost use Rattle.std.specs.Prelude.{◌≡◌, ◌≤◌, ◌<◌, true, List, [], ◌∷◌, length, IfOk, IfSome};
ghost use Rattle.sercos_replay.specs.Clauses.{All, position, Job, IsRequest, is_ring, Line, known_of, drive_at, cycles_of, GoesOn, Station, ReplayStandsFor, station_differs, has, master, drive, place_answer, Says};

use crate::drive_replay::DriveReplay;
use crate::master_replay::MasterReplay;
use crate::place_text::place_reply;
use sercos_answer::Reply;
use sercos_block::RingSetup;
use sercos_step::Job;
use sercos_trace::Line;
use std::alloc::{AllocError, Global};

/// The replay of one station.
#[derive(Drop)]
pub enum Replay {
    Master(MasterReplay),
    Drive(DriveReplay),
}

/// Returns the index, from 0, of the ring's first drive with an address; `None` if none has it.
pub fn drive_place(address: u8, setup: &RingSetup) -> Option<usize>
    ensures value { result ≡ position (has address) setup.now.drives }
    ensures bound { IfSome result (λ place. place < length setup.now.drives) }
{
    let drives = setup.drives.as_slice();
    drives.iter().position(|drive| drive.address == address)
}

/// Opens the replay of the master of a valid setup with at most 4,096 requests, each a read of an element from 1 to 7, a write of one from
/// 2 to 7, or a command. A request to an address that no drive of the setup has is never begun. The error is `AllocError`.
pub fn open_master(alloc: Global, setup: &RingSetup, jobs: Vec<Job>) -> Result<Replay, AllocError>
    requires ring { is_ring setup.now ≡ true }
    requires few { length jobs.items ≤ 4096 }
    requires requests { All (λ job. IsRequest job.request) jobs.items }
    ensures { IfOk result (λ replay. ReplayStandsFor replay (master (known_of setup.now) jobs.items) []) }
{
    Ok(Replay::Master(MasterReplay::open(alloc, setup, jobs)?))
}

/// Opens the replay of the drive with this index, from 0, in a valid setup, which must have that drive. The error is `AllocError`.
pub fn open_drive(alloc: Global, setup: &RingSetup, index: usize) -> Result<Replay, AllocError>
    requires ring { is_ring setup.now ≡ true }
    requires index { index < length setup.now.drives }
    ensures { IfOk result (λ replay. ReplayStandsFor replay (drive (drive_at setup.now index) setup.now.rate) []) }
{
    Ok(Replay::Drive(DriveReplay::open(alloc, setup, index)?))
}

impl Replay {
    /// Takes the next line of a capture. It is ignored after a difference. The cycle of an MST must not be below that of an earlier one.
    pub fn give(&mut self, line: &Line)
        ensures { (s : Station) (before : List Line) → ReplayStandsFor self.old s before → GoesOn before line.now → ReplayStandsFor self.new s (line.now ∷ before) }
    {
        match self {
            Replay::Master(replay) => replay.give(line),
            Replay::Drive(replay) => replay.give(line),
        }
    }

    /// Ends the capture, and returns the reply: `No` with the first place that differs in all lines so far, or `Done` with `cycles`, the
    /// number of their cycles, if there is none. Afterwards the replay is unspecified. The error is `AllocError`.
    pub fn reply(&mut self, alloc: Global, cycles: u64) -> Result<Reply, AllocError>
        ensures { (s : Station) (lines : List Line) → ReplayStandsFor self.old s lines → IfOk result (λ reply. Says reply (place_answer (station_differs s (cycles_of lines)) cycles)) }
    {
        match self {
            Replay::Master(replay) => place_reply(alloc, replay.finish(), cycles),
            Replay::Drive(replay) => place_reply(alloc, replay.finish(), cycles),
        }
    }
}
