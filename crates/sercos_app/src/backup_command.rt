// `backup`: the data of all blocks on the drives' lists of backup operation data.
ghost use Rattle.std.specs.Prelude.{◌≡◌, ◌≤◌, true, List, length, IfOk};
ghost use Rattle.sercos_app.specs.Clauses.{Job, is_ring, data_jobs, Replies, changed, script_carry, script_restarts, IsReply, backup_answer, data_answer, ring_saved, AreTypedIfFew, ReadsTyped, SavesItsRing};

use crate::tracking::{Run, run_tracked};
use sercos_answer::Reply;
use sercos_backup::{
    DataJobs, all_well, data_jobs, failed_reply, list_jobs, lists_told, many_reply, saved_reply,
};
use sercos_bits::Bytes;
use sercos_block::{RingSetup, drives_of, ring_law};
use sercos_call::{give_if_made, refuse};
use sercos_config::{Document, read_ring};
use sercos_io::{Sink, Status};
use sercos_law_trace::told_law;
use sercos_opened::kept_law;
use sercos_script::{BitLink, Scripted};
use std::alloc::{AllocError, Global};

// Returns the reply of the run of a ring that reads the operation data of the blocks on `lists`, at most 64, each of which has the address
// of its drive: the saved data of all, or the requests that failed. The setup must be valid. More than 4096 blocks aren't read: then the
// reply is `too many` with their number. Up to 4096 requests for them keep their types' ranges. The error is `AllocError`.
#[inline(never)]
fn data_reply<L: BitLink>(
    alloc: Global,
    setup: &RingSetup,
    lists: &[(u8, Bytes)],
    link: L,
) -> Result<Reply, AllocError>
    requires ring { is_ring setup.now ≡ true }
    requires few { length lists.now ≤ 64 }
    ensures reply { IfOk result (λ reply. IsReply reply (data_answer setup.now (L.carry link) (L.restart link) (data_jobs lists.now))) }
    ensures typed { IfOk result (λ _. AreTypedIfFew (data_jobs lists.now)) }
{
    match data_jobs(alloc, lists) {
        Ok(jobs) => {
            let run = run_tracked(alloc, setup, jobs, link)?;
            saved_reply(alloc, run.list.as_slice())
        }
        Err(DataJobs::TooMany(count)) => many_reply(alloc, count),
        Err(DataJobs::Memory) => Err(AllocError),
    }
}

// Returns the reply of a backup of a ring over a link. The setup must be valid. A first run reads the drives' lists of backup operation
// data; a drive without one has an empty list. If another list can't be read, the reply has the requests that failed. Otherwise it is that
// of a second run over the same link, which reads the blocks on the lists. Up to 4096 requests of the second run keep their types' ranges.
// The error is `AllocError`.
fn backup_reply<L: BitLink>(alloc: Global, setup: &RingSetup, link: L) -> Result<Reply, AllocError>
    requires { is_ring setup.now ≡ true }
    ensures reply { (jobs : List Job) → IfOk result (λ reply. IsReply reply (ring_saved setup.now jobs (L.carry link) (L.restart link))) }
    ensures typed { IfOk result (λ _. ReadsTyped setup.now (L.carry link) (L.restart link)) }
{
    ring_law();
    let jobs = list_jobs(alloc, setup)?;
    let Run { list, ring } = run_tracked(alloc, setup, jobs, link)?;
    if !all_well(true, list.as_slice()) {
        return failed_reply(alloc, true, list.as_slice());
    }
    let lists = lists_told(alloc, list.as_slice())?;
    data_reply(alloc, setup, lists.as_slice(), ring.into_link())
}

// Writes the backup of a document, whose setup must be valid, over its script, and returns the status: `Done`, or `No` if requests failed
// or blocks are too many. The requests of the document are ignored. If memory runs out, the status is `Memory`, and nothing is written. If
// the write fails, it is `WriteFault`, and the sink has accepted a proper prefix of the reply.
fn back_up<K: Sink>(alloc: Global, document: Document, sink: &mut K) -> Status
    requires ring { is_ring document.setup ≡ true }
    ensures { Replies (ring_saved document.setup document.jobs (script_carry document) (script_restarts document))
        (ReadsTyped document.setup (script_carry document) (script_restarts document))
        (changed K.held K.faults K.room sink.old sink.new) (sink.new ≡ sink.old) result }
{
    let Document { setup, faults, .. } = document;
    let script = Scripted::new(faults, drives_of(&setup));
    give_if_made(&backup_reply(alloc, &setup, script), sink)
}

/// Writes the answer to a ring document, and returns its status: `Done` and the saved data of the blocks on its drives' lists of backup
/// operation data, `No` and the requests that failed or that the blocks are too many, or `Refused` and the document's first refusal. The
/// ring is run over its script, from its first cycle, to read the lists, and once more in the same way to read the blocks on them. Each run
/// has the properties of `kept_law`. If nothing is undetected in it, the bytes read are those of `told_law`. If a run is long enough, the
/// ring right, and no cycle disturbed, each request is complete or refused by its drive (`EndsWell`). The requests of the document are
/// ignored. All memory is taken before anything is written: if it runs out, the status is `Memory`, and the sink is as it was. If a write
/// fails, the status is `Refused` for a refused document, otherwise `WriteFault`; then the sink has accepted a proper prefix of the answer,
/// and its count of faults has risen or is 2^64 - 1. A sink with room for the whole answer doesn't fail. The stack is apart from that of
/// the other commands.
#[inline(never)]
pub fn answer_backup<K: Sink>(alloc: Global, bytes: &[u8], sink: &mut K) -> Status
    ensures { Replies (backup_answer bytes.now) (SavesItsRing bytes.now)
        (changed K.held K.faults K.room sink.old sink.new) (sink.new ≡ sink.old) result }
{
    kept_law();
    told_law();
    match read_ring(alloc, bytes) {
        Ok(document) => back_up(alloc, document, sink),
        Err(bad) => refuse(&bad, sink),
    }
}
