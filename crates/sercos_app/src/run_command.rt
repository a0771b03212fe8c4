// `run`: the trace of a ring's run.
ghost use Rattle.std.specs.Prelude.{◌≡◌, ◌≤◌, true, [], length};
ghost use Rattle.sercos_app.specs.Clauses.{All, Job, IsRequest, is_ring, RingStandsFor, IsRingOf, OfRun, journal_text, Replies, changed, carry_under, restarts_under, RunsItsRing, run_answer, run_traced};
ghost use Rattle.sercos_call.specs.Outcome.{Writes};

use crate::running::write_run;
use sercos_block::{cycles_of, drives_of};
use sercos_call::{fault_status, refuse};
use sercos_config::{Document, read_ring};
use sercos_io::{Sink, Status};
use sercos_law_trace::clean_law;
use sercos_opened::kept_law;
use sercos_ring::Ring;
use sercos_script::{BitLink, Both, Scripted};
use sercos_timing::Wishes;
use std::alloc::Global;

// Makes the first `cycles` cycles, 1 to 50,000, of a ring that has made none, and writes their trace. Returns `Done`, or `WriteFault` if a
// write failed; then the sink has accepted a proper prefix of the trace. `w` must be the planner's input of the ring's setup, which must be
// valid. Afterwards the ring is unspecified.
fn give_run<L: BitLink, K: Sink>(
    ring: &mut Ring<L>,
    w: &Wishes,
    cycles: u32,
    sink: &mut K,
) -> Status
    requires ring { IsRingOf (RingStandsFor L.carry L.restart) ring.old w.now [] }
    requires some { 1 ≤ cycles }
    requires few { cycles ≤ 50000 }
    ensures { OfRun (RingStandsFor L.carry L.restart) ring.old cycles (λ run.
        Writes Status.Done (journal_text w.now run) (changed K.held K.faults K.room sink.old sink.new) result) }
{
    match write_run(ring, w, cycles, sink) {
        Ok(_) => Status::Done,
        Err(_) => fault_status(Status::Done),
    }
}

// Runs the ring of a document under its script followed by the link handed in, and writes the trace. The setup must be valid, and there
// must be at most 4,096 requests, each a read of an element from 1 to 7, a write of one from 2 to 7, or a command. Returns `Done`, or
// `WriteFault` if a write failed; then the sink has accepted a proper prefix of the trace. All memory is taken before anything is written:
// if it runs out, the status is `Memory`, and nothing is written.
fn run_document<L: BitLink, K: Sink>(
    alloc: Global,
    document: Document,
    link: L,
    sink: &mut K,
) -> Status
    requires ring { is_ring document.setup ≡ true }
    requires few { length document.jobs ≤ 4096 }
    requires requests { All (λ job. IsRequest job.request) document.jobs }
    ensures { Replies (run_traced document.setup document.jobs (carry_under document (L.carry link)) (restarts_under document (L.restart link)))
        (Unit {0}) (changed K.held K.faults K.room sink.old sink.new) (sink.new ≡ sink.old) result }
{
    let Document {
        setup,
        jobs,
        faults,
    } = document;
    let script = Scripted::new(faults, drives_of(&setup));
    match Ring::open(alloc, &setup, jobs, Both::new(script, link)) {
        Ok(mut ring) => give_run(&mut ring, &setup.wishes(), cycles_of(&setup), sink),
        Err(_) => Status::Memory,
    }
}

/// Writes the answer to a ring document, and returns its status: `Done` and the trace of its run, under its script followed by the link
/// handed in, or `Refused` and its first refusal. The run has the properties of `kept_law`; if nothing is undetected in it, its trace is a
/// clean capture. If memory runs out, the status is `Memory`, and the sink is as it was. If a write fails, the status is `Refused` for a
/// refused document, otherwise `WriteFault`; then the sink has accepted a proper prefix of the answer, and its count of faults has risen or
/// is 2^64 - 1. A sink with room for the whole answer doesn't fail.
pub fn answer_run<L: BitLink, K: Sink>(alloc: Global, bytes: &[u8], link: L, sink: &mut K) -> Status
    ensures { Replies (run_answer (L.carry link) (L.restart link) bytes.now) (RunsItsRing (L.carry link) (L.restart link) bytes.now)
        (changed K.held K.faults K.room sink.old sink.new) (sink.new ≡ sink.old) result }
{
    kept_law();
    clean_law();
    match read_ring(alloc, bytes) {
        Ok(document) => run_document(alloc, document, link, sink),
        Err(bad) => refuse(&bad, sink),
    }
}
