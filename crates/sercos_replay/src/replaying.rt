// `replay A`: where one end of a ring first deviated from its rules.
ghost use Rattle.std.specs.Prelude.{◌≡◌, ◌<◌, ◌≤◌, ◌==◌, true, [], length, Some, None, IfOk, ◌++◌, codes};
ghost use Rattle.sercos_replay.specs.Clauses.{AreJobs, known_of, drive_at, line_feed, has_address, has_other_data, is_ring, Clean, Station, ReplayStandsFor, drive_of, station_of, Says, refused, station_answer, verdict_answer, started_answer, ruled_answer, judged_answer, capture_answer, found_answer};

use crate::lines::{give_all, late_start};
use crate::place_text::{number_reply, reply_with};
use crate::station::{Replay, drive_place, open_drive, open_master};
use sercos_answer::Reply;
use sercos_block::RingSetup;
use sercos_checking::capture::verdict;
use sercos_checking::{Verdict, verdict_line, verdict_status};
use sercos_config::Document;
use sercos_io::Status;
use std::alloc::{AllocError, Global};

// Returns the reply to a verdict, as `check` does. The error is `AllocError`.
#[tactic(auto, unfolding(crate::specs::Replaying::verdict_answer))]
fn verdict_reply(alloc: Global, verdict: Verdict) -> Result<Reply, AllocError>
    ensures { IfOk result (λ reply. Says reply (verdict_answer verdict)) }
{
    reply_with(
        alloc,
        verdict_status(verdict),
        verdict_line(verdict).as_slice(),
    )
}

// Replies to a capture of at most 1,048,576 bytes, given a replay before its first line: as `check` does if it is refused or breaks a rule;
// refused if its first MST isn't of cycle 0, which is tested before the rules; and otherwise with the first place that differs, or with the
// number of cycles. Afterwards `replay` is unspecified. The error is `AllocError`.
#[tactic(auto, unfolding(crate::specs::Replaying::capture_answer, crate::specs::Replaying::judged_answer, crate::specs::Replaying::started_answer, crate::specs::Replaying::ruled_answer, crate::specs::Replaying::station_answer))]
fn reply_capture(alloc: Global, replay: &mut Replay, capture: &[u8]) -> Result<Reply, AllocError>
    requires { length capture.now ≤ 1048576 }
    ensures { (s : Station) → ReplayStandsFor replay.old s [] → IfOk result (λ reply. Says reply (capture_answer s capture.now)) }
{
    let verdict = verdict(capture);
    match verdict {
        Verdict::Refused { .. } => verdict_reply(alloc, verdict),
        _ => match late_start(capture) {
            Some(cycle) => {
                let number = u64::from(cycle);
                number_reply(alloc, Status::Refused, "refused 13 cycle ", number)
            },
            None => match verdict {
                Verdict::Clean { .. } => {
                    let cycles = give_all(replay, capture);
                    replay.reply(alloc, cycles)
                },
                _ => verdict_reply(alloc, verdict),
            },
        },
    }
}

// Replies with the replay of the document's master. The setup must be valid. There are at most 4,096 requests, each to a drive of the
// setup: a read of an element from 1 to 7, a write of one from 2 to 7, or a command whose identifier number isn't that of a block of the
// drive with other operation data. The capture must have at most 1,048,576 bytes. The error is `AllocError`.
#[inline(never)]
fn reply_master(alloc: Global, document: Document, capture: &[u8]) -> Result<Reply, AllocError>
    requires ring { is_ring document.setup ≡ true }
    requires jobs { AreJobs (λ address. has_address address document.setup.drives)
        (λ address raw. has_other_data address raw document.setup.drives) document.jobs }
    requires few { length capture.now ≤ 1048576 }
    ensures { IfOk result (λ reply. Says reply (capture_answer (Station.master (known_of document.setup) document.jobs) capture.now)) }
{
    let Document { setup, jobs, .. } = document;
    let mut replay = open_master(alloc, &setup, jobs)?;
    reply_capture(alloc, &mut replay, capture)
}

// Replies with the replay of the drive with this index, from 0, in the ring. The setup must be valid and have that drive, and the capture
// must have at most 1,048,576 bytes. The error is `AllocError`.
#[inline(never)]
fn reply_drive(
    alloc: Global,
    setup: &RingSetup,
    index: usize,
    capture: &[u8],
) -> Result<Reply, AllocError>
    requires ring { is_ring setup.now ≡ true }
    requires index { index < length setup.now.drives }
    requires few { length capture.now ≤ 1048576 }
    ensures { IfOk result (λ reply. Says reply (capture_answer (Station.drive (drive_at setup.now index) setup.now.rate) capture.now)) }
{
    let mut replay = open_drive(alloc, setup, index)?;
    reply_capture(alloc, &mut replay, capture)
}

// Replies with the replay of the drive with this address. If no drive has it, the reply is `Refused` and has the address. The setup must be
// valid, and the capture have at most 1,048,576 bytes. The error is `AllocError`.
#[tactic(auto, unfolding(crate::specs::Replaying::found_answer, crate::specs::Stations::drive_of))]
fn reply_addressed(
    alloc: Global,
    address: u8,
    setup: &RingSetup,
    capture: &[u8],
) -> Result<Reply, AllocError>
    requires ring { is_ring setup.now ≡ true }
    requires few { length capture.now ≤ 1048576 }
    ensures { IfOk result (λ reply. Says reply (found_answer (drive_of address setup.now) address capture.now)) }
{
    match drive_place(address, setup) {
        Some(index) => reply_drive(alloc, setup, index, capture),
        None => number_reply(
            alloc,
            Status::Refused,
            "refused 10 drive ",
            u64::from(address),
        ),
    }
}

/// Replies to the contents of a ring document and a capture. The setup must be valid. There are at most 4,096 requests, each to a drive of
/// the setup: a read of an element from 1 to 7, a write of one from 2 to 7, or a command whose identifier number isn't that of a block of
/// the drive with other operation data. The capture must have at most 1,048,576 bytes. The replayed station is the one with this address;
/// that of the master is 0. The reply is, in this order:
///
/// - refused, if no drive has the address;
/// - refused, if a line of the capture is refused, and then if the capture begins with a cycle other than 0;
/// - that of `check`, if the capture breaks a rule;
/// - `No` and the first place at which the station deviated from its rules, given all that the capture has before that place;
/// - `Done` and the number of cycles, if there is no such place.
///
/// The error is `AllocError`.
#[tactic(auto, unfolding(crate::specs::Replaying::found_answer, crate::specs::Stations::station_of))]
pub fn replay_document(
    alloc: Global,
    address: u8,
    document: Document,
    capture: &[u8],
) -> Result<Reply, AllocError>
    requires ring { is_ring document.setup ≡ true }
    requires jobs { AreJobs (λ address. has_address address document.setup.drives)
        (λ address raw. has_other_data address raw document.setup.drives) document.jobs }
    requires few { length capture.now ≤ 1048576 }
    ensures { IfOk result (λ reply. Says reply (found_answer (station_of address document) address capture.now)) }
{
    if address == 0 {
        return reply_master(alloc, document, capture);
    }
    reply_addressed(alloc, address, &document.setup, capture)
}

/// Returns the reply that refuses an input without a capture. The error is `AllocError`.
pub fn undivided_reply(alloc: Global) -> Result<Reply, AllocError>
    ensures { IfOk result (λ reply. Says reply (refused (codes "refused 9 capture" ++ line_feed))) }
{
    reply_with(alloc, Status::Refused, b"refused 9 capture\n")
}
