// The requests of a backup, and the check of those of a restore.
ghost use Rattle.std.specs.Prelude.{◌≡◌, ◌+◌, ◌*◌, ◌/◌, ◌<◌, ◌≤◌, true, ◌++◌, length, map, slice_index, IfOk, OnOk, IfSome, MatchResult};
ghost use Rattle.sercos_backup.specs.Clauses.{All, IsRequest, AreTypedJobs, IsTypedRequest, is_ring, reads_data, list_jobs, numbers_in, data_jobs, IsFault, writes_data, place_of_other};

use sercos_bits::Bytes;
use sercos_block::RingSetup;
use sercos_idn::{Idn, element};
use sercos_step::{Job, Request};
use std::alloc::{AllocError, Global};
use thiserror::Error;

// S-0-0192, the list of backup operation data (IEC 61491:1995).
const LIST_NUMBER: u16 = 192;

// The most requests of a run.
const MOST_JOBS: u32 = 4096;

/// Why the blocks on some lists can't be read in one run.
#[derive(Clone, Copy, Debug, PartialEq, Eq, Error)]
pub enum DataJobs {
    /// There are this many of them, more than 4096.
    #[error("there are {0} data blocks")]
    TooMany(u32),
    /// No memory was found.
    #[error("out of memory")]
    Memory,
}

// Returns the request that reads the operation data of the block with the identifier number `raw` from the drive with an address. Its
// numbers are in the ranges of their types.
fn reads_data(address: u8, raw: u16) -> Job
    ensures value { result ≡ reads_data address raw }
    ensures typed { IsTypedRequest result.request }
{
    Job {
        drive: address,
        request: Request::Read {
            idn: Idn { raw },
            element: element::DATA,
        },
    }
}

/// Returns the requests that read the list of backup operation data, S-0-0192, of each drive of a valid setup, in the order of the ring.
/// Each names an element that a read may have, 1 to 7. The error is `AllocError`.
pub fn list_jobs(alloc: Global, setup: &RingSetup) -> Result<Vec<Job>, AllocError>
    requires { is_ring setup.now ≡ true }
    ensures value { IfOk result (λ jobs. jobs.items ≡ list_jobs setup.now) }
    ensures requests { IfOk result (λ jobs. All (λ job. IsRequest job.request) jobs.items) }
{
    let mut jobs = Vec::with_capacity(alloc, setup.drives.len())?;
    for drive in setup.drives.as_slice() {
        jobs.push(reads_data(drive.address, LIST_NUMBER))?;
    }
    Ok(jobs)
}

// Returns how many blocks are on a list: one for each whole pair of bytes. An odd last byte is ignored.
#[tactic(auto, using(crate::proofs::ListLemmas::numbers_count))]
fn count_on(bytes: &[u8]) -> usize
    ensures value { result ≡ length (numbers_in bytes.now) }
    ensures bound { 2 * result ≤ length bytes.now }
{
    bytes.len() / 2
}

// Returns how many blocks all of these lists have together, one for each whole pair of bytes of a list. There are at most 64 lists.
fn count_all(lists: &[(u8, Bytes)]) -> u32
    requires { length lists.now ≤ 64 }
    ensures { result ≡ length (data_jobs lists.now) }
{
    let mut count = 0;
    for list in lists {
        count += count_on(list.1.as_slice()) as u32;
    }
    count
}

// Returns the identifier number of the pair of bytes at a place, the low byte first. Places count pairs from 0 on; both bytes are in the
// list.
fn number_at(bytes: &[u8], place: usize) -> u16
    requires { 2 * place + 1 < length bytes.now }
    ensures { result ≡ slice_index bytes.now (2 * place) + 256 * slice_index bytes.now (2 * place + 1) }
{
    u16::from_le_bytes([bytes[2 * place], bytes[2 * place + 1]])
}

// Appends the requests that read the operation data of the blocks on a list of the drive with an address. `bytes` is the list, at most 1024
// bytes. If the numbers of all requests are in the ranges of their types before, they are afterwards. The error is `AllocError`, after
// which `jobs` is unspecified.
fn push_listed(address: u8, bytes: &[u8], jobs: &mut Vec<Job>) -> Result<(), AllocError>
    requires { length bytes.now ≤ 1024 }
    ensures pushed { OnOk result (jobs.new.items ≡ jobs.old.items ++ map (reads_data address) (numbers_in bytes.now)) }
    ensures typed { AreTypedJobs jobs.old.items → OnOk result (AreTypedJobs jobs.new.items) }
{
    for place in 0..count_on(bytes) {
        jobs.push(reads_data(address, number_at(bytes, place)))?;
    }
    Ok(())
}

// Returns the requests that read the operation data of the blocks on some lists, in order. Each list has the address of its drive. Each
// request names an element that a read may have, and its numbers are in the ranges of their types. The error is `AllocError`.
fn all_listed(alloc: Global, lists: &[(u8, Bytes)]) -> Result<Vec<Job>, AllocError>
    ensures value { IfOk result (λ jobs. jobs.items ≡ data_jobs lists.now) }
    ensures requests { IfOk result (λ jobs. All (λ job. IsRequest job.request) jobs.items) }
    ensures typed { IfOk result (λ jobs. AreTypedJobs jobs.items) }
{
    let mut jobs = Vec::new(alloc);
    for list in lists {
        push_listed(list.0, list.1.as_slice(), &mut jobs)?;
    }
    Ok(jobs)
}

/// Returns the requests that read the operation data of each block on some lists, at most 64, each with the address of its drive: one for
/// each whole pair of bytes, the low byte first, in order. The error is `TooMany` iff there are more than 4096 of them, with their number;
/// otherwise `Memory`. Each request names an element that a read may have, and its numbers are in the ranges of their types.
pub fn data_jobs(alloc: Global, lists: &[(u8, Bytes)]) -> Result<Vec<Job>, DataJobs>
    requires { length lists.now ≤ 64 }
    ensures value { MatchResult result
        (λ jobs. (jobs.items ≡ data_jobs lists.now) × (length jobs.items ≤ 4096))
        (λ why. IsFault (data_jobs lists.now) why) }
    ensures requests { IfOk result (λ jobs. All (λ job. IsRequest job.request) jobs.items) }
    ensures typed { IfOk result (λ jobs. AreTypedJobs jobs.items) }
{
    let count = count_all(lists);
    if count > MOST_JOBS {
        return Err(DataJobs::TooMany(count));
    }
    match all_listed(alloc, lists) {
        Ok(jobs) => Ok(jobs),
        Err(_) => Err(DataJobs::Memory),
    }
}

// Returns whether a request writes operation data.
fn writes_data(request: &Request) -> bool
    ensures { result ≡ writes_data request.now }
{
    match request {
        Request::Write { element, .. } => *element == element::DATA,
        _ => false,
    }
}

/// Returns the place, from 0 on, of the first request that doesn't write operation data; `None` if all do.
pub fn place_of_other(jobs: &[Job]) -> Option<usize>
    ensures value { result ≡ place_of_other jobs.now }
    ensures bound { IfSome result (λ place. place < length jobs.now) }
{
    jobs.iter().position(|job| !writes_data(&job.request))
}
