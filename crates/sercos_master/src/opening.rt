// Opening a master.
ghost use Rattle.std.specs.Prelude.{◌≡◌, ◌+◌, ◌≤◌, ◌<◌, ℕ, List, [], length, map, IfOk, OnOk};
ghost use Rattle.sercos_master.specs.Clauses.{All, AreDistinct, IsRequest, Known, Task, HasLists, member, member_of, tasks_for, with_job, nothing_seen, AreFresh, SeatsStandFor};

use crate::lookup::place_of;
use arrayvec::ArrayVec;
use sercos_block::DriveSetup;
use sercos_seat::{Member, Seat};
use sercos_step::Job;
use std::alloc::{AllocError, Global};

// Returns a copy of a list, which must fit.
pub fn copied<T: Copy + Default, const N: usize>(items: &[T]) -> ArrayVec<T, N>
    requires { length items.now ≤ N }
    ensures { result.items ≡ items.now }
{
    let mut copy = ArrayVec::new();
    let _fits = copy.try_extend_from_slice(items);
    copy
}

// Returns what the master knows of a drive from the setup: its address, its slave, and the lists of what its telegrams carry.
fn member_of(drive: &DriveSetup) -> Member
    ensures value { result ≡ member_of drive.now }
    ensures lists { HasLists result }
{
    Member::new(
        drive.address,
        drive.slave,
        copied(drive.at.as_slice()),
        copied(drive.mdt.as_slice()),
    )
}

// Opens a seat for each drive, in ring order. The error is `AllocError`.
pub fn open_seats(alloc: Global, drives: &[DriveSetup]) -> Result<Vec<Seat>, AllocError>
    ensures seats { IfOk result (λ seats. (length seats.items ≡ length drives.now) × AreFresh seats.items (map member_of drives.now)) }
    ensures lists { IfOk result (λ seats. All HasLists (map member_of drives.now)) }
{
    let mut seats = Vec::new(alloc);
    for place in 0..drives.len() {
        seats.push(Seat::open(alloc, member_of(&drives[place])))?;
    }
    Ok(seats)
}

// Gives each drive its requests, numbered from 1 in the order of `jobs`; one to an address without a drive is dropped. There must be at
// most 4,096, each for an element that a transfer takes: 1 to 7 of a read, 2 to 7 of a write. There must be a seat for each drive, without
// a request, with nothing received or sent and no task begun, and no two drives may have the same address. The requests are given from the
// last one on, since a seat takes each before the others. The error is `AllocError`; then the seats are unspecified.
pub fn deal(mut jobs: Vec<Job>, seats: &mut Vec<Seat>) -> Result<(), AllocError>
    requires few { length jobs.items ≤ 4096 }
    requires requests { All (λ job. IsRequest job.request) jobs.items }
    ensures count { OnOk result (length seats.new.items ≡ length seats.old.items) }
    ensures stand { OnOk result ((s : Known) → AreDistinct (map (λ d. d.address) s.drives) → length seats.old.items ≡ length s.drives →
        SeatsStandFor seats.old.items s (λ k. nothing_seen []) → SeatsStandFor seats.new.items s (λ k. nothing_seen (tasks_for s jobs.items k))) }
{
    let count = jobs.len();
    for done in 0..count {
        if let Some(job) = jobs.pop() {
            give(jobs.len() as u16 + 1, job, seats)?;
        }
    }
    Ok(())
}

// Gives a request to the drive with its address, before the requests that wait there; without such a drive it is dropped. `number` is its
// number among all requests, counted from 1. The request must be for an element that a transfer takes: 1 to 7 of a read, 2 to 7 of a write.
// There must be a seat for each drive, with nothing received or sent and no task begun, and no two drives may have the same address. The
// error is `AllocError`; then the seats are unspecified.
fn give(number: u16, job: Job, seats: &mut Vec<Seat>) -> Result<(), AllocError>
    requires { IsRequest job.request }
    ensures count { OnOk result (length seats.new.items ≡ length seats.old.items) }
    ensures stand { OnOk result ((s : Known) (tasks : ℕ → List Task) → AreDistinct (map (λ d. d.address) s.drives) → length seats.old.items ≡ length s.drives →
        SeatsStandFor seats.old.items s (λ k. nothing_seen (tasks k)) →
        SeatsStandFor seats.new.items s (λ k. nothing_seen (with_job (member s k).address number job (tasks k)))) }
{
    let Some(place) = place_of(seats.as_slice(), job.drive) else {
        return Ok(());
    };
    let seat = &mut seats[place];
    seat.wait(number, job.request)?;
    Ok(())
}
