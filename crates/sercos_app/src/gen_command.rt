// `gen`: the summary of the run of a generated document.
ghost use Rattle.std.specs.Prelude.{◌≡◌, ◌≤◌, ◌++◌, true, length};
ghost use Rattle.sercos_app.specs.Clauses.{All, IsRequest, is_ring, Replies, changed, carry_under, restarts_under, RunsGenerated, counts_text, first_text, gen_answer, gen_line, head_text, run_summed};
ghost use Rattle.sercos_call.specs.Outcome.{Writes};

use crate::counting::count_cycles;
use sercos_block::{cycles_of, drives_of};
use sercos_call::fault_status;
use sercos_config::{Document, generate};
use sercos_io::{Sink, Status, write_all};
use sercos_opened::kept_law;
use sercos_ring::Ring;
use sercos_script::{BitLink, Both, Scripted};
use sercos_text::{Given, Line, push_line};
use sercos_trace::Totals;
use std::alloc::Global;

// Appends the number of the first cycle that was commanded phase 4, or `none` if there was none. The line must have at most 50 bytes;
// afterwards it has at most 70.
#[tactic(auto, unfolding(crate::specs::Generating::first_text))]
fn push_first(first: Option<u32>, line: &mut Line)
    requires { length line.old ≤ 50 }
    ensures value { line.new ≡ line.old ++ first_text first }
    ensures bound { length line.new ≤ 70 }
{
    match first {
        Some(cycle) => push_line(b"D", &[Given::Number(cycle)], line),
        None => push_line(b"none", &[], line),
    }
}

// Returns the summary line of a run of `n` drives, with its line feed: the numbers of drives and of cycles, the first cycle that was
// commanded phase 4, and the counts of requests that were complete, refused and broken, of falls, and of undetected damages.
#[tactic(auto, unfolding(crate::specs::Generating::gen_line))]
fn summary(n: u8, totals: &Totals) -> Line
    ensures { result ≡ gen_line n totals.now }
{
    let mut line = Line::new();
    let head = [Given::Number(u32::from(n)), Given::Number(totals.cycles)];
    push_line(b"gen D cycles D phase4 ", &head, &mut line);
    push_first(totals.phase4, &mut line);
    let counts = [
        Given::Number(totals.complete),
        Given::Number(totals.refused),
        Given::Number(totals.broken),
        Given::Number(totals.falls),
        Given::Number(totals.unseen),
    ];
    push_line(
        b" complete D refused D broken D falls D unseen D",
        &counts,
        &mut line,
    );
    line.push_within(b'\n');
    line
}

// Writes the summary line of a run of `n` drives. Returns `Done`, or `WriteFault` if the write failed; then the sink has accepted a proper
// prefix of the line.
fn give_summary<K: Sink>(n: u8, totals: &Totals, sink: &mut K) -> Status
    ensures { Writes Status.Done (gen_line n totals.now) (changed K.held K.faults K.room sink.old sink.new) result }
{
    let line = summary(n, totals);
    match write_all(sink, line.as_slice()) {
        Ok(()) => Status::Done,
        Err(_) => fault_status(Status::Done),
    }
}

// Runs the ring of a document under its script followed by the link handed in, writes the summary line, and returns `Done`. The setup must
// be valid, and there must be at most 4,096 requests, each a read of an element from 1 to 7, a write of one from 2 to 7, or a command. `n`
// is the number of drives that is written. All memory is taken before the line is written: if it runs out, the status is `Memory`, and
// nothing is written. If the write fails, it is `WriteFault`, and the sink has accepted a proper prefix of the line.
fn sum_document<L: BitLink, K: Sink>(
    alloc: Global,
    n: u8,
    document: Document,
    link: L,
    sink: &mut K,
) -> Status
    requires ring { is_ring document.setup ≡ true }
    requires few { length document.jobs ≤ 4096 }
    requires requests { All (λ job. IsRequest job.request) document.jobs }
    ensures { Replies (run_summed n document.setup document.jobs (carry_under document (L.carry link)) (restarts_under document (L.restart link)))
        (Unit {0}) (changed K.held K.faults K.room sink.old sink.new) (sink.new ≡ sink.old) result }
{
    let Document {
        setup,
        jobs,
        faults,
    } = document;
    let script = Scripted::new(faults, drives_of(&setup));
    match Ring::open(alloc, &setup, jobs, Both::new(script, link)) {
        Ok(mut ring) => {
            let totals = count_cycles(&mut ring, cycles_of(&setup));
            give_summary(n, &totals, sink)
        }
        Err(_) => Status::Memory,
    }
}

/// Answers `gen N`: runs the document that is generated for `n` drives, 1 to 64, under its script followed by the link handed in, writes
/// one line, the summary of the run, and returns `Done`. The run has the properties of `kept_law`. All memory is taken before the line is
/// written: if it runs out, the status is `Memory`, and the sink is as it was. If writing fails, the status is `WriteFault`, the sink has
/// accepted a proper prefix of the line, and its count of faults has risen or is 2^64 - 1. A sink with room for the whole line doesn't
/// fail.
pub fn answer_gen<L: BitLink, K: Sink>(alloc: Global, n: u8, link: L, sink: &mut K) -> Status
    requires some { 1 ≤ n }
    requires few { n ≤ 64 }
    ensures { Replies (gen_answer (L.carry link) (L.restart link) n) (RunsGenerated (L.carry link) (L.restart link) n)
        (changed K.held K.faults K.room sink.old sink.new) (sink.new ≡ sink.old) result }
{
    kept_law();
    match generate(alloc, n) {
        Ok(document) => sum_document(alloc, n, document, link, sink),
        Err(_) => Status::Memory,
    }
}
