// `plan`: the least plan of a ring's time slots.
ghost use Rattle.std.specs.Prelude.{◌≡◌, ◌⊎◌, IfOk, MatchResult};
ghost use Rattle.sercos_planning.specs.Clauses.{IsValid, planned, line_of, wishes_answer, plan_answer, IsPlanned, PlansItsRing, Refused};

use crate::plan_text::{push_chain, push_plan};
use sercos_answer::Reply;
use sercos_config::{BadDocument, read_ring};
use sercos_io::Status;
use sercos_timing::Wishes;
use std::alloc::{AllocError, Global};

// Returns the reply of `plan` to the planner's input: `Done` and the least plan, or `No` and the chain that proves that none fits. The
// error is `AllocError`. The planner's input is valid. By `planned` the reply is right about it: `No` only if no plan fits, with a chain
// along the least times that proves it, and `Done` only with the least plan.
#[tactic(auto, unfolding(crate::specs::Planning::wishes_answer))]
fn answer_wishes(alloc: Global, wishes: &Wishes) -> Result<Reply, AllocError>
    requires { IsValid wishes.now }
    ensures status { IfOk result (λ reply. reply.status ≡ (wishes_answer wishes.now (planned wishes.now)).status) }
    ensures text { IfOk result (λ reply. reply.text.items ≡ (wishes_answer wishes.now (planned wishes.now)).output) }
    ensures planned { IsPlanned wishes.now (wishes_answer wishes.now (planned wishes.now)) }
{
    let mut text = Vec::new(alloc);
    let status = match sercos_plan::plan(wishes) {
        Ok(plan) => {
            push_plan(wishes, &plan, &mut text)?;
            Status::Done
        }
        Err(chain) => {
            push_chain(&chain, &mut text)?;
            Status::No
        }
    };
    Ok(Reply { status, text })
}

/// Returns the reply of `plan` to a ring document: `Done` and the least plan, or `No` and the chain that proves that none fits. The error
/// is the document's first refusal, or `Memory`. By `ring` the reply is right about the ring that the document describes.
#[tactic(auto, unfolding(crate::specs::Planning::plan_answer, crate::specs::Planning::document_answer))]
pub fn plan(alloc: Global, bytes: &[u8]) -> Result<Reply, BadDocument>
    ensures answer { MatchResult result
        (λ reply. (reply.status ≡ (plan_answer bytes.now).status) × (reply.text.items ≡ (plan_answer bytes.now).output))
        (λ bad. (bad ≡ BadDocument.Memory)
        ⊎ ((plan_answer bytes.now).status ≡ Refused) × ((plan_answer bytes.now).output ≡ line_of bad)) }
    ensures ring { MatchResult result
        (λ _. PlansItsRing bytes.now)
        (λ bad. (bad ≡ BadDocument.Memory) ⊎ PlansItsRing bytes.now) }
{
    let document = read_ring(alloc, bytes)?;
    match answer_wishes(alloc, &document.setup.wishes()) {
        Ok(reply) => Ok(reply),
        Err(_) => Err(BadDocument::Memory),
    }
}
