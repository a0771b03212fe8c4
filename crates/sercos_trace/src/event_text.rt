// The lines of what the master reports. Each is made in `line`, regardless of its contents, and is written after the bytes of `mark`.
// Afterwards `line` is unspecified. The sink's room shrinks by at most the bytes of the lines with their marks. Without an error its count
// of faults is unchanged. A write fails only if the sink has less room than them. After an error the sink has taken a proper prefix of
// them, and its count of faults has risen or is 2^64 - 1. `wishes` is the planner's input of the ring. A plan must have exactly one T1 and
// one position for each of its drives.
ghost use Rattle.std.specs.Prelude.{◌≡◌, ◌<◌, ◌++◌, length, Some, IfSome};
ghost use Rattle.sercos_trace.specs.Clauses.{flat_map, big_endian, ended_text, outcome_text, plan_line, slot_text, slots_text, plan_text, link_text, bound_text, chain_text, stopped_text, stop_text, fell_text, fall_text, events_text};
ghost use Rattle.sercos_trace.specs.MarkedWritten.{seen, Writes};

use crate::events::{Events, Fall, Reported, Stop};
use crate::kind::LineKind;
use crate::line::{write_line, write_listed};
use sercos_io::{Sink, WriteFailed};
use sercos_plan::{Chain, Link};
use sercos_step::Outcome;
use sercos_text::{Given, Line};
use sercos_timing::{Plan, Wishes};

// Returns the two bytes of a word, the high byte first.
fn big_endian(word: u16) -> [u8; 2]
    ensures { result ≡ big_endian word }
{
    word.to_be_bytes()
}

// Writes the line on how a request ended. `number` is that of the request, counted from 1. A refusal's code is written with its high byte
// first.
fn write_ended<K: Sink>(
    cycle: u32,
    number: u16,
    outcome: &Outcome,
    mark: &[u8],
    line: &mut Line,
    sink: &mut K,
) -> Result<(), WriteFailed>
    ensures { Writes (seen mark.now K.held K.faults K.room sink.old) (seen mark.now K.held K.faults K.room sink.new) result (ended_text cycle number outcome.now) }
{
    let number = u32::from(number);
    match outcome {
        Outcome::Complete(bytes) => {
            let values = [
                Given::Number(cycle),
                Given::Number(number),
                Given::Bytes(bytes.as_slice()),
            ];
            write_line(LineKind::Complete, &values, mark, line, sink)
        }
        Outcome::Refused(code) => {
            let code = big_endian(code.raw);
            let values = [
                Given::Number(cycle),
                Given::Number(number),
                Given::Bytes(&code),
            ];
            write_line(LineKind::Refused, &values, mark, line, sink)
        }
        Outcome::Broken => {
            let values = [Given::Number(cycle), Given::Number(number)];
            write_line(LineKind::Broken, &values, mark, line, sink)
        }
    }
}

// Writes the lines on how requests ended, in the order of the list.
fn write_outcomes<K: Sink>(
    cycle: u32,
    outcomes: &[Reported],
    mark: &[u8],
    line: &mut Line,
    sink: &mut K,
) -> Result<(), WriteFailed>
    ensures { Writes (seen mark.now K.held K.faults K.room sink.old) (seen mark.now K.held K.faults K.room sink.new) result (flat_map (outcome_text cycle) outcomes.now) }
{
    for outcome in outcomes {
        write_ended(cycle, outcome.0, &outcome.1, mark, line, sink)?;
    }
    Ok(())
}

// Writes the line of a link of a chain.
fn write_link<K: Sink>(
    cycle: u32,
    link: &Link,
    mark: &[u8],
    line: &mut Line,
    sink: &mut K,
) -> Result<(), WriteFailed>
    ensures { Writes (seen mark.now K.held K.faults K.room sink.old) (seen mark.now K.held K.faults K.room sink.new) result (link_text cycle link.now) }
{
    let values = [
        Given::Number(cycle),
        Given::Number(u32::from(link.rule)),
        Given::Number(u32::from(link.drive)),
        Given::Number(link.at),
    ];
    write_line(LineKind::RuleAt, &values, mark, line, sink)
}

// Writes the lines of links of a chain, in the order of the list.
fn write_links<K: Sink>(
    cycle: u32,
    links: &[Link],
    mark: &[u8],
    line: &mut Line,
    sink: &mut K,
) -> Result<(), WriteFailed>
    ensures { Writes (seen mark.now K.held K.faults K.room sink.old) (seen mark.now K.held K.faults K.room sink.new) result (flat_map (link_text cycle) links.now) }
{
    for link in links {
        write_link(cycle, link, mark, line, sink)?;
    }
    Ok(())
}

// Writes the line of the bound that a chain breaks: the chain's sum, and the bound.
fn write_bound<K: Sink>(
    cycle: u32,
    chain: &Chain,
    mark: &[u8],
    line: &mut Line,
    sink: &mut K,
) -> Result<(), WriteFailed>
    ensures { Writes (seen mark.now K.held K.faults K.room sink.old) (seen mark.now K.held K.faults K.room sink.new) result (bound_text cycle chain.now) }
{
    let values = [
        Given::Number(cycle),
        Given::Number(u32::from(chain.rule)),
        Given::Number(u32::from(chain.drive)),
        Given::Number(chain.sum),
        Given::Number(chain.bound),
    ];
    write_line(LineKind::RuleSum, &values, mark, line, sink)
}

// Writes the lines of the stop that no plan fits: the stop, the links of its chain, and the bound that the chain breaks.
fn write_chain<K: Sink>(
    cycle: u32,
    chain: &Chain,
    mark: &[u8],
    line: &mut Line,
    sink: &mut K,
) -> Result<(), WriteFailed>
    ensures { Writes (seen mark.now K.held K.faults K.room sink.old) (seen mark.now K.held K.faults K.room sink.new) result (chain_text cycle chain.now) }
{
    write_line(LineKind::NoFit, &[Given::Number(cycle)], mark, line, sink)?;
    write_links(cycle, chain.links.as_slice(), mark, line, sink)?;
    write_bound(cycle, chain, mark, line, sink)
}

// Writes the line of a plan: T2, T3 and T4 in microseconds, and the length of the MDT in bytes after its address.
fn write_plan_line<K: Sink>(
    cycle: u32,
    plan: &Plan,
    mark: &[u8],
    line: &mut Line,
    sink: &mut K,
) -> Result<(), WriteFailed>
    ensures { Writes (seen mark.now K.held K.faults K.room sink.old) (seen mark.now K.held K.faults K.room sink.new) result (plan_line cycle plan.now) }
{
    let values = [
        Given::Number(cycle),
        Given::Number(u32::from(plan.t2)),
        Given::Number(u32::from(plan.t3)),
        Given::Number(u32::from(plan.t4)),
        Given::Number(u32::from(plan.mdt_len)),
    ];
    write_line(LineKind::Plan, &values, mark, line, sink)
}

// Writes the line of a drive's time slot: its address, its T1 in microseconds, and the position of its data record in the MDT, 1 for the
// first byte after the address. `place` is the drive's index in ring order. The drive, its T1 and its position must be present.
fn write_slot<K: Sink>(
    cycle: u32,
    wishes: &Wishes,
    plan: &Plan,
    place: usize,
    mark: &[u8],
    line: &mut Line,
    sink: &mut K,
) -> Result<(), WriteFailed>
    requires drive { place < length wishes.now.drives }
    requires start { place < length plan.now.t1 }
    requires position { place < length plan.now.position }
    ensures { Writes (seen mark.now K.held K.faults K.room sink.old) (seen mark.now K.held K.faults K.room sink.new) result (slot_text cycle wishes.now plan.now place) }
{
    let values = [
        Given::Number(cycle),
        Given::Number(u32::from(wishes.wish(place).address)),
        Given::Number(u32::from(plan.t1()[place])),
        Given::Number(u32::from(plan.position()[place])),
    ];
    write_line(LineKind::Slot, &values, mark, line, sink)
}

// Writes the lines of the time slots of all drives, in ring order. The plan must have a T1 and a position for each drive.
fn write_slots<K: Sink>(
    cycle: u32,
    wishes: &Wishes,
    plan: &Plan,
    mark: &[u8],
    line: &mut Line,
    sink: &mut K,
) -> Result<(), WriteFailed>
    requires starts { length plan.now.t1 ≡ length wishes.now.drives }
    requires positions { length plan.now.position ≡ length wishes.now.drives }
    ensures { Writes (seen mark.now K.held K.faults K.room sink.old) (seen mark.now K.held K.faults K.room sink.new) result (slots_text cycle wishes.now plan.now (length wishes.now.drives)) }
{
    for place in 0..wishes.drives().len() {
        write_slot(cycle, wishes, plan, place, mark, line, sink)?;
    }
    Ok(())
}

// Writes the lines of a plan: its times, then the time slots of all drives in ring order. The plan must have a T1 and a position for each
// drive.
fn write_whole_plan<K: Sink>(
    cycle: u32,
    wishes: &Wishes,
    plan: &Plan,
    mark: &[u8],
    line: &mut Line,
    sink: &mut K,
) -> Result<(), WriteFailed>
    requires starts { length plan.now.t1 ≡ length wishes.now.drives }
    requires positions { length plan.now.position ≡ length wishes.now.drives }
    ensures { Writes (seen mark.now K.held K.faults K.room sink.old) (seen mark.now K.held K.faults K.room sink.new) result (plan_line cycle plan.now ++ slots_text cycle wishes.now plan.now (length wishes.now.drives)) }
{
    write_plan_line(cycle, plan, mark, line, sink)?;
    write_slots(cycle, wishes, plan, mark, line, sink)
}

// Writes the lines of a plan, or nothing for `None`. A plan must have a T1 and a position for each drive.
#[tactic(auto, unfolding(crate::specs::Texts::plan_text), using(crate::proofs::WriteLemmas::taken_none))]
fn write_plan<K: Sink>(
    cycle: u32,
    wishes: &Wishes,
    plan: &Option<Plan>,
    mark: &[u8],
    line: &mut Line,
    sink: &mut K,
) -> Result<(), WriteFailed>
    requires starts { IfSome plan.now (λ p. length p.t1 ≡ length wishes.now.drives) }
    requires positions { IfSome plan.now (λ p. length p.position ≡ length wishes.now.drives) }
    ensures { Writes (seen mark.now K.held K.faults K.room sink.old) (seen mark.now K.held K.faults K.room sink.new) result (plan_text cycle wishes.now plan.now) }
{
    match plan {
        Some(plan) => write_whole_plan(cycle, wishes, plan, mark, line, sink),
        None => Ok(()),
    }
}

// Writes the lines of a stop. A drive's code and an attribute are written with their high byte first.
#[tactic(auto, unfolding(crate::specs::Kinds::tail_for))]
fn write_stopped<K: Sink>(
    cycle: u32,
    stop: &Stop,
    mark: &[u8],
    line: &mut Line,
    sink: &mut K,
) -> Result<(), WriteFailed>
    ensures { Writes (seen mark.now K.held K.faults K.room sink.old) (seen mark.now K.held K.faults K.room sink.new) result (stopped_text cycle stop.now) }
{
    match stop {
        Stop::NoFit(chain) => write_chain(cycle, chain, mark, line, sink),
        Stop::Refused { drive, idn, code } => {
            let code = big_endian(code.raw);
            let values = [
                Given::Number(cycle),
                Given::Number(u32::from(*drive)),
                Given::Ident(*idn),
                Given::Bytes(&code),
            ];
            write_line(LineKind::StopRefused, &values, mark, line, sink)
        }
        Stop::BadConfig {
            drive,
            idn,
            attribute,
        } => {
            let attribute = attribute.to_be_bytes();
            let values = [
                Given::Number(cycle),
                Given::Number(u32::from(*drive)),
                Given::Ident(*idn),
                Given::Bytes(&attribute),
            ];
            write_line(LineKind::StopConfig, &values, mark, line, sink)
        }
        Stop::Check127 { drive, list } => {
            let values = [Given::Number(cycle), Given::Number(u32::from(*drive))];
            write_listed(
                LineKind::Check127,
                &values,
                list.as_slice(),
                mark,
                line,
                sink,
            )
        }
        Stop::Check128 { drive, list } => {
            let values = [Given::Number(cycle), Given::Number(u32::from(*drive))];
            write_listed(
                LineKind::Check128,
                &values,
                list.as_slice(),
                mark,
                line,
                sink,
            )
        }
    }
}

// Writes the lines of a stop, or nothing for `None`.
#[tactic(auto, unfolding(crate::specs::Texts::stop_text), using(crate::proofs::WriteLemmas::taken_none))]
fn write_stop<K: Sink>(
    cycle: u32,
    stop: &Option<Stop>,
    mark: &[u8],
    line: &mut Line,
    sink: &mut K,
) -> Result<(), WriteFailed>
    ensures { Writes (seen mark.now K.held K.faults K.room sink.old) (seen mark.now K.held K.faults K.room sink.new) result (stop_text cycle stop.now) }
{
    match stop {
        Some(stop) => write_stopped(cycle, stop, mark, line, sink),
        None => Ok(()),
    }
}

// Writes the line of a fall.
fn write_fell<K: Sink>(
    cycle: u32,
    fall: Fall,
    mark: &[u8],
    line: &mut Line,
    sink: &mut K,
) -> Result<(), WriteFailed>
    ensures { Writes (seen mark.now K.held K.faults K.room sink.old) (seen mark.now K.held K.faults K.room sink.new) result (fell_text cycle fall) }
{
    match fall {
        Fall::MstLost => write_line(LineKind::FallMst, &[Given::Number(cycle)], mark, line, sink),
        Fall::AtLost(drive) => {
            let values = [Given::Number(cycle), Given::Number(u32::from(drive))];
            write_line(LineKind::FallAt, &values, mark, line, sink)
        }
        Fall::StepLimit(drive) => {
            let values = [Given::Number(cycle), Given::Number(u32::from(drive))];
            write_line(LineKind::FallStep, &values, mark, line, sink)
        }
        Fall::Restart => write_line(
            LineKind::FallRestart,
            &[Given::Number(cycle)],
            mark,
            line,
            sink,
        ),
    }
}

// Writes the line of a fall, or nothing for `None`.
#[tactic(auto, unfolding(crate::specs::Texts::fall_text), using(crate::proofs::WriteLemmas::taken_none))]
fn write_fall<K: Sink>(
    cycle: u32,
    fall: Option<Fall>,
    mark: &[u8],
    line: &mut Line,
    sink: &mut K,
) -> Result<(), WriteFailed>
    ensures { Writes (seen mark.now K.held K.faults K.room sink.old) (seen mark.now K.held K.faults K.room sink.new) result (fall_text cycle fall) }
{
    match fall {
        Some(fall) => write_fell(cycle, fall, mark, line, sink),
        None => Ok(()),
    }
}

// Writes the lines of the events of a cycle: outcomes, plan, stop, fall. A plan must have a T1 and a position for each drive.
pub(crate) fn write_events<K: Sink>(
    cycle: u32,
    wishes: &Wishes,
    events: &Events,
    mark: &[u8],
    line: &mut Line,
    sink: &mut K,
) -> Result<(), WriteFailed>
    requires starts { IfSome events.now.plan (λ p. length p.t1 ≡ length wishes.now.drives) }
    requires positions { IfSome events.now.plan (λ p. length p.position ≡ length wishes.now.drives) }
    ensures { Writes (seen mark.now K.held K.faults K.room sink.old) (seen mark.now K.held K.faults K.room sink.new) result (events_text wishes.now cycle events.now) }
{
    write_outcomes(cycle, events.outcomes.as_slice(), mark, line, sink)?;
    write_plan(cycle, wishes, &events.plan, mark, line, sink)?;
    write_stop(cycle, &events.stop, mark, line, sink)?;
    write_fall(cycle, events.fall, mark, line, sink)
}
