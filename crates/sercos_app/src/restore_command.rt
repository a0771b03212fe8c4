// `restore`: the writes of a document, and what the drives then have.
ghost use Rattle.std.specs.Prelude.{◌≡◌, ◌+◌, ◌-◌, ◌<◌, ◌≤◌, ◌++◌, true, false, if◌then◌else◌, List, [], length, None, IfOk, IfSome, OnOk};
ghost use Rattle.sercos_app.specs.Clauses.{All, flat_map, Job, IsRequest, find_block, is_ring, Carry, Restarts, CycleView, RingStandsFor, drives_in, are_well, restored_line, Replies, changed, script_carry, script_restarts, IsReply, data_of, last_data, place_of, restore_answer, ring_restored, writes_answer, RestoresItsRing};

use crate::tracking::{Run, run_tracked};
use sercos_answer::Reply;
use sercos_backup::{Tracked, all_well, other_reply, place_of_other, push_restored};
use sercos_bits::Bytes;
use sercos_block::{RingSetup, Store, cycles_of, drives_of};
use sercos_call::{give_if_made, refuse};
use sercos_config::{Document, read_ring};
use sercos_idn::Idn;
use sercos_io::{Sink, Status};
use sercos_law_trace::write_law;
use sercos_opened::kept_law;
use sercos_ring::Ring;
use sercos_script::{BitLink, Scripted};
use sercos_service_drive::push_data;
use sercos_step::Job;
use std::alloc::{AllocError, Global};

// Returns the index in the ring, from 0 on, of the first drive with an address; `None` if there is none.
fn place_of(setup: &RingSetup, address: u8) -> Option<usize>
    ensures value { result ≡ place_of setup.now address }
    ensures bound { IfSome result (λ place. place < length setup.now.drives) }
{
    setup
        .drives
        .iter()
        .position(|drive| drive.address == address)
}

// Puts the operation data that a block of a store has in a cycle into `out`, which must be empty. Without the block, `out` stays empty.
fn put_shown(store: &Store, idn: Idn, cycle: u32, out: &mut Bytes)
    requires { out.old ≡ [] }
    ensures { out.new ≡ data_of cycle (find_block idn.raw store.now) }
{
    if let Some(block) = store.find(idn) {
        let attribute = block.attribute();
        push_data(out, &attribute, block.step(), cycle, block.value());
    }
}

// Returns the operation data that a block of the drive with an address has after the cycles that the ring has made; a number with a step is
// that of the last cycle of `setup`. There are no bytes if there is no such drive or block. `setup` must be that of the ring, and valid.
fn last_data<L: BitLink>(ring: &Ring<L>, setup: &RingSetup, address: u8, idn: Idn) -> Bytes
    requires drives { drives_in ring.now ≡ length setup.now.drives }
    requires ring { is_ring setup.now ≡ true }
    ensures { (jobs : List Job) (carry : Carry) (restarts : Restarts) (j : List CycleView) → RingStandsFor L.carry L.restart ring.now setup.now jobs carry restarts j →
        result ≡ last_data setup.now carry restarts j address idn.raw }
{
    let mut shown = Bytes::new();
    if let Some(place) = place_of(setup, address) {
        put_shown(
            ring.drive(place).store(),
            idn,
            cycles_of(setup) - 1,
            &mut shown,
        );
    }
    shown
}

// Appends the lines of all writes, in order: the operation data that the drive then has, as `last_data` returns it, or how the request
// failed. `setup` must be that of the ring, and valid. The error is `AllocError`; then `out` is unspecified.
fn push_lines<L: BitLink>(
    ring: &Ring<L>,
    setup: &RingSetup,
    list: &[Tracked],
    out: &mut Vec<u8>,
) -> Result<(), AllocError>
    requires drives { drives_in ring.now ≡ length setup.now.drives }
    requires ring { is_ring setup.now ≡ true }
    ensures { OnOk result ((jobs : List Job) (carry : Carry) (restarts : Restarts) (j : List CycleView) → RingStandsFor L.carry L.restart ring.now setup.now jobs carry restarts j →
        out.new.items ≡ out.old.items ++ flat_map (restored_line (last_data setup.now carry restarts j)) list.now) }
{
    for request in list {
        let shown = last_data(ring, setup, request.drive, request.idn);
        push_restored(request, shown.as_slice(), out)?;
    }
    Ok(())
}

// Returns `Done` if all requests were complete, otherwise `No`.
fn restored_status(list: &[Tracked]) -> Status
    ensures { result ≡ (if are_well false list.now then Status.Done else Status.No) }
{
    if all_well(false, list) {
        Status::Done
    } else {
        Status::No
    }
}

// Returns the reply of the run of a ring over a link with requests, which are to write operation data: the line of each, and `Done` if all
// were complete, otherwise `No`. The setup must be valid, and there must be at most 4,096 requests, each a read of an element from 1 to 7,
// a write of one from 2 to 7, or a command. The error is `AllocError`.
fn restored_reply<L: BitLink>(
    alloc: Global,
    setup: &RingSetup,
    jobs: Vec<Job>,
    link: L,
) -> Result<Reply, AllocError>
    requires ring { is_ring setup.now ≡ true }
    requires few { length jobs.items ≤ 4096 }
    requires requests { All (λ job. IsRequest job.request) jobs.items }
    ensures { IfOk result (λ reply. IsReply reply (writes_answer setup.now jobs.items (L.carry link) (L.restart link) None)) }
{
    let Run { list, ring } = run_tracked(alloc, setup, jobs, link)?;
    let mut text = Vec::new(alloc);
    push_lines(&ring, setup, list.as_slice(), &mut text)?;
    Ok(Reply {
        status: restored_status(list.as_slice()),
        text,
    })
}

// Returns the reply of a restore of a ring over a link: the refusal of the first request that doesn't write operation data, otherwise the
// reply of the run. The setup must be valid. There must be at most 4,096 requests, each a read of an element from 1 to 7, a write of one
// from 2 to 7, or a command. The error is `AllocError`.
fn restore_reply<L: BitLink>(
    alloc: Global,
    setup: &RingSetup,
    jobs: Vec<Job>,
    link: L,
) -> Result<Reply, AllocError>
    requires ring { is_ring setup.now ≡ true }
    requires few { length jobs.items ≤ 4096 }
    requires requests { All (λ job. IsRequest job.request) jobs.items }
    ensures { IfOk result (λ reply. IsReply reply (ring_restored setup.now jobs.items (L.carry link) (L.restart link))) }
{
    match place_of_other(jobs.as_slice()) {
        Some(place) => other_reply(alloc, place),
        None => restored_reply(alloc, setup, jobs, link),
    }
}

// Writes the answer of a restore of a document, over its script, and returns the status: `Done`, `No` if a request failed, or `Refused` if
// one doesn't write operation data. The setup must be valid, and there must be at most 4,096 requests, each a read of an element from 1 to
// 7, a write of one from 2 to 7, or a command. If memory runs out, the status is `Memory`, and nothing is written. If the write fails, it
// is `Refused` for a refusal, otherwise `WriteFault`, and the sink has accepted a proper prefix of the answer.
fn restore_document<K: Sink>(alloc: Global, document: Document, sink: &mut K) -> Status
    requires ring { is_ring document.setup ≡ true }
    requires few { length document.jobs ≤ 4096 }
    requires requests { All (λ job. IsRequest job.request) document.jobs }
    ensures { Replies (ring_restored document.setup document.jobs (script_carry document) (script_restarts document))
        (Unit {0}) (changed K.held K.faults K.room sink.old sink.new) (sink.new ≡ sink.old) result }
{
    let Document {
        setup,
        jobs,
        faults,
    } = document;
    let script = Scripted::new(faults, drives_of(&setup));
    give_if_made(&restore_reply(alloc, &setup, jobs, script), sink)
}

/// Writes the answer to a ring document whose requests all write operation data, and returns its status: runs the ring with them, over its
/// script, and writes a line for each: what the drive has in the end, or how the request failed. The run has the properties of `kept_law`.
/// If nothing is undetected in it, a complete write stays in the drive's block as `write_law` has it, unless a later request writes to the
/// block. If a run is long enough, the ring right, and no cycle disturbed, each request is complete or refused by its drive (`EndsWell`).
/// The status is `Done` if none failed, otherwise `No`. Any other document is `Refused`: by its first refusal, or by the number of the
/// first request that doesn't write operation data. All memory is taken before anything is written: if it runs out, the status is `Memory`,
/// and the sink is as it was. If a write fails, the status is `Refused` for a refused document, otherwise `WriteFault`; then the sink has
/// accepted a proper prefix of the answer, and its count of faults has risen or is 2^64 - 1. A sink with room for the whole answer doesn't
/// fail. The stack is apart from that of the other commands.
#[inline(never)]
pub fn answer_restore<K: Sink>(alloc: Global, bytes: &[u8], sink: &mut K) -> Status
    ensures { Replies (restore_answer bytes.now) (RestoresItsRing bytes.now)
        (changed K.held K.faults K.room sink.old sink.new) (sink.new ≡ sink.old) result }
{
    kept_law();
    write_law();
    match read_ring(alloc, bytes) {
        Ok(document) => restore_document(alloc, document, sink),
        Err(bad) => refuse(&bad, sink),
    }
}
