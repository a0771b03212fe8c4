// `margin`: how far each time of each drive can go, and the least cycle time. The planner's input is valid, and each drive declares times
// within their limits. After an error `out` is unspecified.
ghost use Rattle.std.specs.Prelude.{◌≡◌, ◌⊎◌, ◌<◌, ◌++◌, OnOk, IfOk, MatchResult, length};
ghost use Rattle.sercos_planning.specs.Clauses.{wish, IsValid, planned, margin_of, HasPlan, line_of, cycle_line, margin_line, margin_lines, wishes_margins, margin_answer, AreLimited, AreMargins, MeasuresItsRing, Refused};

use crate::plan_text::{push_chain, push_last};
use sercos_answer::{Reply, push_text, push_two_numbers};
use sercos_block::ring_law;
use sercos_config::{BadDocument, read_ring};
use sercos_io::Status;
use sercos_margin::{Time, least_cycle, margin, margin_law};
use sercos_timing::Wishes;
use std::alloc::{AllocError, Global};

// Appends the line of the least cycle time, in microseconds, which is `cycle none` for `None`. The error is `AllocError`.
#[tactic(auto, unfolding(crate::specs::Margins::cycle_line))]
fn push_cycle(cycle: Option<u16>, out: &mut Vec<u8>) -> Result<(), AllocError>
    ensures { OnOk result (out.new.items ≡ out.old.items ++ cycle_line cycle) }
{
    match cycle {
        Some(cycle) => push_last("cycle ", u64::from(cycle), out),
        None => push_text("cycle none\n", out),
    }
}

// Returns the greatest value, in microseconds, that the drive at a place of the ring can declare for the time `t` so that a plan still
// fits. A plan must fit the declared times.
fn margin_at(wishes: &Wishes, place: usize, t: Time) -> u64
    requires valid { IsValid wishes.now }
    requires limits { AreLimited wishes.now }
    requires fits { HasPlan wishes.now }
    requires drive { place < length wishes.now.drives }
    ensures { result ≡ margin_of wishes.now place t }
{
    u64::from(margin(wishes, place, t))
}

// Appends the line of the drive at a place of the ring: its address, and the greatest value of each of its six times, in microseconds, with
// which a plan fits. A plan must fit the declared times. The error is `AllocError`.
#[tactic(auto, unfolding(crate::specs::Margins::margin_line))]
fn push_margin(wishes: &Wishes, place: usize, out: &mut Vec<u8>) -> Result<(), AllocError>
    requires valid { IsValid wishes.now }
    requires limits { AreLimited wishes.now }
    requires fits { HasPlan wishes.now }
    requires drive { place < length wishes.now.drives }
    ensures { OnOk result (out.new.items ≡ out.old.items ++ margin_line (wish wishes.now place).address (margin_of wishes.now place)) }
{
    let address = u64::from(wishes.wish(place).address);
    let t1min = margin_at(wishes, place, Time::T1min);
    let tatmt = margin_at(wishes, place, Time::Tatmt);
    let t4min = margin_at(wishes, place, Time::T4min);
    let tatat = margin_at(wishes, place, Time::Tatat);
    let tmtsy = margin_at(wishes, place, Time::Tmtsy);
    let tmtsg = margin_at(wishes, place, Time::Tmtsg);
    push_two_numbers("margin ", address, " t1min ", t1min, out)?;
    push_two_numbers(" tatmt ", tatmt, " t4min ", t4min, out)?;
    push_two_numbers(" tatat ", tatat, " tmtsy ", tmtsy, out)?;
    push_last(" tmtsg ", tmtsg, out)
}

// Appends these lines of all drives, in the order of the ring. A plan must fit the declared times. The error is `AllocError`.
#[tactic(auto, unfolding(crate::specs::Margins::margin_lines))]
fn push_margins(wishes: &Wishes, out: &mut Vec<u8>) -> Result<(), AllocError>
    requires valid { IsValid wishes.now }
    requires limits { AreLimited wishes.now }
    requires fits { HasPlan wishes.now }
    ensures { OnOk result (out.new.items ≡ out.old.items ++ margin_lines wishes.now (margin_of wishes.now) (length wishes.now.drives)) }
{
    for place in 0..wishes.drives().len() {
        push_margin(wishes, place, out)?;
    }
    Ok(())
}

// Returns the reply of `margin` to the planner's input: the least cycle time, and either `Done` and the greatest value of each time of each
// drive, or `No` and the chain that proves that no plan fits. The error is `AllocError`. By `margins` the reply is right about the
// planner's input: `No` only if no plan fits, with a chain along the least times that proves it, and `Done` only if one fits, with the
// greatest values with which one still does. In both cases the cycle time is the least.
#[tactic(auto, unfolding(crate::specs::Margins::wishes_margins))]
fn answer_wishes(alloc: Global, wishes: &Wishes) -> Result<Reply, AllocError>
    requires valid { IsValid wishes.now }
    requires limits { AreLimited wishes.now }
    ensures status { IfOk result (λ reply. reply.status ≡ (wishes_margins wishes.now (planned wishes.now)).status) }
    ensures text { IfOk result (λ reply. reply.text.items ≡ (wishes_margins wishes.now (planned wishes.now)).output) }
    ensures margins { AreMargins wishes.now (wishes_margins wishes.now (planned wishes.now)) }
{
    margin_law();
    let cycle = least_cycle(wishes);
    let plan = sercos_plan::plan(wishes);
    let mut text = Vec::new(alloc);
    push_cycle(cycle, &mut text)?;
    let status = match plan {
        Ok(_) => {
            push_margins(wishes, &mut text)?;
            Status::Done
        }
        Err(chain) => {
            push_chain(&chain, &mut text)?;
            Status::No
        }
    };
    Ok(Reply { status, text })
}

/// Returns the reply of `margin` to a ring document: `Done`, the least cycle time with which a plan fits, and the greatest value of each
/// time of each drive, in microseconds; or `No`, that cycle time or `none`, and the chain that proves that no plan fits with the ring's
/// own. The error is the document's first refusal, or `Memory`. By `ring` the reply is right about the ring that the document describes.
#[tactic(auto, unfolding(crate::specs::Margins::margin_answer, crate::specs::Margins::document_margins), using(crate::proofs::MarginLemmas::limited_wishes))]
pub fn margins(alloc: Global, bytes: &[u8]) -> Result<Reply, BadDocument>
    ensures answer { MatchResult result
        (λ reply. (reply.status ≡ (margin_answer bytes.now).status) × (reply.text.items ≡ (margin_answer bytes.now).output))
        (λ bad. (bad ≡ BadDocument.Memory)
        ⊎ ((margin_answer bytes.now).status ≡ Refused) × ((margin_answer bytes.now).output ≡ line_of bad)) }
    ensures ring { MatchResult result
        (λ _. MeasuresItsRing bytes.now)
        (λ bad. (bad ≡ BadDocument.Memory) ⊎ MeasuresItsRing bytes.now) }
{
    ring_law();
    let document = read_ring(alloc, bytes)?;
    match answer_wishes(alloc, &document.setup.wishes()) {
        Ok(reply) => Ok(reply),
        Err(_) => Err(BadDocument::Memory),
    }
}
