// The document that this profile generates for a number of drives.
ghost use Rattle.std.specs.Prelude.{◌≡◌, ◌≤◌, ◌+◌, ◌*◌, ◌^◌, true, false, [], ◌∷◌, length, map, IfOk};
ghost use Rattle.sercos_config.specs.Clauses.{All, range_with_len, sum_by, attribute_of, is_list, number_end, has_address, has_other_data, is_ring, start_steps_of, startup_of, IsTyped, AreJobs, AreTypedJobs, position_command, position_feedback, position_block, generated_times, generated_drive, generated_job, generated_fault, generated_ring, generated_cycles, generated};

use crate::document::Document;
use crate::ring::all_drives;
use arrayvec::ArrayVec;
use sercos_block::{Block, DriveSetup, RingSetup, attribute_in, bytes_for};
use sercos_idn::Idn;
use sercos_idn::element::DATA;
use sercos_script::{Damage, Fault};
use sercos_step::{Job, Request};
use sercos_telegram::Kind;
use sercos_timing::Times;
use sercos_timing::limits::{LEAST_CYCLE, MOST_CYCLE};
use std::alloc::{AllocError, Global};

// S-0-0047, the position command, and S-0-0051, the position feedback.
const POSITION_COMMAND: Idn = Idn { raw: 47 };

const POSITION_FEEDBACK: Idn = Idn { raw: 51 };

// The steps that are counted for a start-up, and those that each identifier number of a telegram adds.
const START_STEPS: u32 = 82;

const LISTED_STEPS: u32 = 4;

// The number of cycles that a generated ring runs beyond its start-up.
const CYCLES_AFTER_STARTUP: u32 = 100;

// Returns the block of a position. It is `value` at first, and grows by `step` in each cycle.
#[tactic(auto, using(crate::proofs::GeneratedLemmas::position_read, crate::proofs::GeneratedLemmas::position_is_four, crate::proofs::GeneratedLemmas::position_is_number))]
fn position_block(idn: Idn, value: u32, step: u32) -> Block
    ensures { result ≡ position_block idn value step }
{
    // A number of four bytes with sign, which the master may write in each phase.
    let attribute = attribute_in(0x0022_0001).unwrap();
    Block {
        idn,
        attribute,
        name: None,
        unit: None,
        min: None,
        max: None,
        value: bytes_for(attribute, value),
        max_len: 0,
        fixed: false,
        step,
        fails: false,
    }
}

// Returns a list of this one identifier number.
fn one(idn: Idn) -> ArrayVec<Idn, 16>
    ensures { result.items ≡ idn ∷ [] }
{
    let mut idns = ArrayVec::new();
    idns.push(idn);
    idns
}

// Returns drive k, counted from 1. Its address is k, and two drives in turn share a slave. It is busy for k % 3 cycles, and its procedure
// commands take k % 4. Its t1min is 20 + k % 7 microseconds; its other times don't depend on k. Its blocks are the position command, which
// is 0 and which its record in the MDT carries, and the position feedback, which begins at 64,500, grows by 10 in each cycle, and is
// carried by its AT. The error is `AllocError`.
#[tactic(auto, unfolding(crate::specs::Generated::generated_drive))]
fn generated_drive(alloc: Global, k: u8) -> Result<DriveSetup, AllocError>
    requires { 1 ≤ k }
    ensures { IfOk result (λ d. d ≡ generated_drive k) }
{
    let mut blocks = Vec::with_capacity(alloc, 2)?;
    blocks.push(position_block(POSITION_COMMAND, 0, 0))?;
    blocks.push(position_block(POSITION_FEEDBACK, 64500, 10))?;
    Ok(DriveSetup {
        address: k,
        slave: 1 + (k - 1) / 2,
        busy: k % 3,
        command: u16::from(k % 4),
        times: Times {
            t1min: u16::from(20 + k % 7),
            tatmt: 6,
            t4min: 20,
            tatat: 5,
            tmtsy: 10,
            tmtsg: 20,
        },
        cycle_min: LEAST_CYCLE,
        cycle_max: MOST_CYCLE,
        at: one(POSITION_FEEDBACK),
        mdt: one(POSITION_COMMAND),
        blocks,
    })
}

// Returns the drives 1 to n, in this order. n is at most 64. The error is `AllocError`.
#[tactic(auto, using(crate::proofs::GeneratedLemmas::made_more, crate::proofs::GeneratedLemmas::made_count))]
fn generated_drives(alloc: Global, n: u8) -> Result<Vec<DriveSetup>, AllocError>
    requires { n ≤ 64 }
    ensures value { IfOk result (λ v. v.items ≡ map generated_drive (range_with_len 1 n)) }
    ensures count { IfOk result (λ v. length v.items ≡ n) }
{
    let mut drives = Vec::with_capacity(alloc, usize::from(n))?;
    for place in 0..n {
        drives.push(generated_drive(alloc, place + 1)?)?;
    }
    Ok(drives)
}

// Returns the request of drive k, which reads the operation data of its position feedback.
#[tactic(auto, unfolding(crate::specs::Generated::generated_job))]
fn generated_job(k: u8) -> Job
    ensures { result ≡ generated_job k }
{
    Job {
        drive: k,
        request: Request::Read {
            idn: POSITION_FEEDBACK,
            element: DATA,
        },
    }
}

// Returns one request for each of the drives 1 to n, in this order. n is at most 64. The error is `AllocError`.
#[tactic(auto, using(crate::proofs::GeneratedLemmas::made_more))]
fn generated_jobs(alloc: Global, n: u8) -> Result<Vec<Job>, AllocError>
    requires { n ≤ 64 }
    ensures { IfOk result (λ v. v.items ≡ map generated_job (range_with_len 1 n)) }
{
    let mut jobs = Vec::with_capacity(alloc, usize::from(n))?;
    for place in 0..n {
        jobs.push(generated_job(place + 1))?;
    }
    Ok(jobs)
}

// Returns the fault that loses the AT of drive k on link n, once, in cycle 37 * k. n is the number of drives, so the link is the one to the
// master.
#[tactic(auto, unfolding(crate::specs::Generated::generated_fault))]
fn generated_fault(n: u8, k: u8) -> Fault
    ensures { result ≡ generated_fault n k }
{
    let cycle = 37 * u32::from(k);
    Fault {
        cycle,
        last: cycle,
        every: 1,
        kind: Kind::At,
        from: k,
        damage: Damage::Lose { link: n },
    }
}

// Returns one fault for each of the drives 1 to n, in this order. n is at most 64. The error is `AllocError`.
#[tactic(auto, using(crate::proofs::GeneratedLemmas::made_more))]
fn generated_faults(alloc: Global, n: u8) -> Result<Vec<Fault>, AllocError>
    requires { n ≤ 64 }
    ensures { IfOk result (λ v. v.items ≡ map (generated_fault n) (range_with_len 1 n)) }
{
    let mut faults = Vec::with_capacity(alloc, usize::from(n))?;
    for place in 0..n {
        faults.push(generated_fault(n, place + 1))?;
    }
    Ok(faults)
}

// Returns the steps that are counted for the start-up of a drive: those of its reads, writes and checks, four for each identifier number
// that its AT and its record in the MDT carry, and two for each cycle that its procedure commands take.
fn steps_of(drive: &DriveSetup) -> u32
    ensures value { result ≡ start_steps_of drive.now }
    ensures bound { result ≤ 131280 }
{
    let command = u32::from(drive.command);
    let lists = drive.at.as_slice().len() + drive.mdt.as_slice().len();
    START_STEPS + LISTED_STEPS * lists as u32 + 2 * command
}

// Returns the cycles that are counted for the start-up of a drive: for each step its busy cycles and two more. The result is at most
// 33,738,960.
#[tactic(auto, using(crate::proofs::GeneratedLemmas::startup_fits))]
fn startup_of(drive: &DriveSetup) -> u32
    ensures value { result ≡ startup_of drive.now }
    ensures bound { result ≤ 33738960 }
{
    let cycles = u32::from(drive.busy) + 2;
    cycles * steps_of(drive)
}

// Returns the sum of the cycles that are counted for the start-up of each drive. There are at most 64 drives, and the sum is at most
// 2,159,293,440.
fn startup_of_all(drives: &[DriveSetup]) -> u32
    requires { length drives.now ≤ 64 }
    ensures value { result ≡ sum_by startup_of drives.now }
    ensures bound { result ≤ 2159293440 }
{
    let mut cycles = 0;
    for drive in drives {
        cycles += startup_of(drive);
    }
    cycles
}

// Returns the ring of the drives 1 to n, whose ATs are in the order of the ring: at 4 Mbit/s, with a cycle time of 4,000 microseconds, a
// gap of 5, and 100 cycles more than the bound of its start-up. n is at most 64. The error is `AllocError`.
#[tactic(auto, unfolding(crate::specs::Generated::generated_ring, crate::specs::Generated::generated_cycles))]
fn generated_ring(alloc: Global, n: u8) -> Result<RingSetup, AllocError>
    requires { n ≤ 64 }
    ensures { IfOk result (λ r. r ≡ generated_ring n (generated_cycles n)) }
{
    let drives = generated_drives(alloc, n)?;
    let startup = 20 + 2 * u32::from(n) + startup_of_all(drives.as_slice());
    Ok(RingSetup {
        rate: 4,
        cycle: 4000,
        control: 4000,
        gap: 5,
        cycles: startup + CYCLES_AFTER_STARTUP,
        order: all_drives(usize::from(n)),
        drives,
    })
}

// Returns the document of the drives 1 to n. n is at most 64. The error is `AllocError`.
#[tactic(auto, unfolding(crate::specs::Generated::generated))]
fn document_for(alloc: Global, n: u8) -> Result<Document, AllocError>
    requires { n ≤ 64 }
    ensures { IfOk result (λ d. d ≡ generated n) }
{
    Ok(Document {
        setup: generated_ring(alloc, n)?,
        jobs: generated_jobs(alloc, n)?,
        faults: generated_faults(alloc, n)?,
    })
}

/// Returns the document of `n` drives, 1 to 64, that this profile generates. Its drives are busy for 0 to 2 cycles, and their procedure
/// commands take 0 to 3. It has a read of S-0-0051 for each drive, and for each drive a fault that loses one of its ATs on the link to the
/// master. The ring runs for 100 cycles more than the bound of its start-up.
///
/// The ring is a valid one, a master of it may be opened with the jobs, and the `every` of each fault is at least 1. The numbers of the
/// drives and the jobs are in the ranges of their types. The error is `AllocError` if memory runs out.
pub fn generate(alloc: Global, n: u8) -> Result<Document, AllocError>
    requires some { 1 ≤ n }
    requires few { n ≤ 64 }
    ensures value { IfOk result (λ d. d ≡ generated n) }
    ensures setup { IfOk result (λ d. is_ring d.setup ≡ true) }
    ensures jobs { IfOk result (λ d.
        AreJobs (λ address. has_address address d.setup.drives) (λ address raw. has_other_data address raw d.setup.drives) d.jobs) }
    ensures faults { IfOk result (λ d. All (λ f. 1 ≤ f.every) d.faults) }
    ensures typed { IfOk result (λ d. All IsTyped d.setup.drives × AreTypedJobs d.jobs) }
{
    document_for(alloc, n)
}
