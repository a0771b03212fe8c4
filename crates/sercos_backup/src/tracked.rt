// Requests with their outcomes.
ghost use Rattle.std.specs.Prelude.{◌≡◌, ℕ, ◌≤◌, List, [], ◌∷◌, ◌++◌, length, Some, None, IfOk};
ghost use Rattle.sercos_backup.specs.Clauses.{option_or, option_copied, Job, Outcome, idn_in, tracked, noted, is_well, are_well, bytes_told, lists_told, with_outcome};

use sercos_bits::Bytes;
use sercos_idn::{Code, Idn};
use sercos_step::{Job, Outcome, Request};
use std::alloc::{AllocError, Global};

/// A request to a drive, with the outcome that was reported of it, if there is one.
#[derive(Debug, PartialEq, Eq, Drop)]
pub struct Tracked {
    /// The drive's address.
    pub drive: u8,
    /// The identifier number of the data block.
    pub idn: Idn,
    /// How it ended; `None` while it hasn't.
    pub outcome: Option<Outcome>,
}

// Returns the identifier number of the block that a request names.
fn idn_in(request: &Request) -> Idn
    ensures { result ≡ idn_in request.now }
{
    match request {
        Request::Read { idn, .. } => *idn,
        Request::Write { idn, .. } => *idn,
        Request::Command { idn } => *idn,
    }
}

/// Returns the requests of these jobs, in their order, without outcomes. The error is `AllocError`.
#[tactic(auto, using(crate::proofs::TrackLemmas::none_told))]
pub fn track(alloc: Global, jobs: &[Job]) -> Result<Vec<Tracked>, AllocError>
    ensures { IfOk result (λ list. list.items ≡ tracked [] jobs.now) }
{
    let mut list = Vec::with_capacity(alloc, jobs.len())?;
    for job in jobs {
        list.push(Tracked {
            drive: job.drive,
            idn: idn_in(&job.request),
            outcome: None,
        })?;
    }
    Ok(list)
}

// Returns a copy of an outcome.
fn copied(outcome: &Outcome) -> Outcome
    ensures { result ≡ outcome.now }
{
    match outcome {
        Outcome::Complete(bytes) => {
            let mut copy = Bytes::new();
            copy.assign(bytes.as_slice());
            Outcome::Complete(copy)
        }
        Outcome::Refused(code) => Outcome::Refused(*code),
        Outcome::Broken => Outcome::Broken,
    }
}

// Notes an outcome as that of a request, if it has none yet.
fn note_in(request: &mut Tracked, outcome: &Outcome)
    ensures { request.new ≡ noted outcome.now request.old }
{
    if request.outcome.is_none() {
        request.outcome = Some(copied(outcome));
    }
}

// Notes an outcome as that of the request with a number, from 1 on, if it has none yet. A number without a request is ignored. The list is
// that of some jobs with the outcomes noted before.
fn note_one(number: u16, outcome: &Outcome, list: &mut [Tracked])
    ensures { (told : List (ℕ × Outcome)) (jobs : List Job) → list.old ≡ tracked told jobs → list.new ≡ tracked (told ++ (number, outcome.now) ∷ []) jobs }
{
    if number == 0 {
        return;
    }
    let place = usize::from(number) - 1;
    if place >= list.len() {
        return;
    }
    note_in(&mut list[place], outcome);
}

/// Notes outcomes, each with the number of its request, from 1 on. Of each request the first outcome counts; a number without a request is
/// ignored. The list is that of some jobs with the outcomes noted before. It takes no memory.
pub fn note(outcomes: &[(u16, Outcome)], list: &mut [Tracked])
    ensures { (told : List (ℕ × Outcome)) (jobs : List Job) → list.old ≡ tracked told jobs → list.new ≡ tracked (told ++ outcomes.now) jobs }
{
    for told in outcomes {
        note_one(told.0, &told.1, list);
    }
}

/// Returns whether a request with this outcome ended well: it was complete, or, if `absent` is true, it was refused because the drive has
/// no such block. Any other outcome, or none, isn't well.
pub fn is_well(absent: bool, outcome: Option<&Outcome>) -> bool
    ensures { result ≡ is_well absent (option_copied outcome.entry) }
{
    match outcome {
        Some(Outcome::Complete(_)) => true,
        Some(Outcome::Refused(code)) => absent && *code == Code::NO_IDN,
        _ => false,
    }
}

/// Returns whether all requests ended well. If `absent` is true, a request that was refused because the drive has no such block did.
pub fn all_well(absent: bool, list: &[Tracked]) -> bool
    ensures { result ≡ are_well absent list.now }
{
    list.iter()
        .all(|request| is_well(absent, request.outcome.as_ref()))
}

/// Returns the bytes of a complete outcome, at most 1024; no bytes of any other, or of `None`.
pub(crate) fn bytes_in(outcome: Option<&Outcome>) -> &[u8]
    ensures value { result.now ≡ bytes_told (option_copied outcome.entry) }
    ensures bound { length result.now ≤ 1024 }
{
    match outcome {
        Some(Outcome::Complete(bytes)) => bytes.as_slice(),
        _ => &[],
    }
}

/// Returns the bytes of each request's outcome, in order, each with the address of its drive; no bytes for a request that wasn't complete.
/// The error is `AllocError`.
pub fn lists_told(alloc: Global, list: &[Tracked]) -> Result<Vec<(u8, Bytes)>, AllocError>
    ensures { IfOk result (λ lists. lists.items ≡ lists_told list.now) }
{
    let mut lists = Vec::with_capacity(alloc, list.len())?;
    for request in list {
        let mut told = Bytes::new();
        told.assign(bytes_in(request.outcome.as_ref()));
        lists.push((request.drive, told))?;
    }
    Ok(lists)
}
