// `replay`: the document is read, and one station of its ring is replayed against the capture.
ghost use Rattle.std.specs.Prelude.{◌≡◌, ◌⊎◌, ◌≤◌, length, None, MatchResult};
ghost use Rattle.sercos_app.specs.Clauses.{Refused, line_of, document_of, Says, document_answer, parts_answer, replay_answer, OpensIfRead, OpensItsRing};

use sercos_answer::Reply;
use sercos_config::{BadDocument, read_ring};
use sercos_opened::kept_law;
use sercos_replay::{capture_part, capture_place, document_part, replay_document, undivided_reply};
use std::alloc::Global;

// Returns the reply of `replay` to the two parts of an input, for the station with an address; the master has the address 0. The capture
// must have at most 1,048,576 bytes. The error is the document's first refusal, or `Memory`. If the result isn't `Memory` and the
// document isn't refused, a ring may be opened with its setup and its requests, which are at most 4,096.
#[tactic(auto, unfolding(sercos_replay::specs::Replaying::document_answer))]
fn reply_parts(
    alloc: Global,
    address: u8,
    document: &[u8],
    capture: &[u8],
) -> Result<Reply, BadDocument>
    requires { length capture.now ≤ 1048576 }
    ensures answer { MatchResult result
        (λ reply. Says reply (document_answer (document_of document.now) address capture.now))
        (λ bad. (bad ≡ BadDocument.Memory)
        ⊎ ((document_answer (document_of document.now) address capture.now).status ≡ Refused) × ((document_answer (document_of document.now) address capture.now).output ≡ line_of bad)) }
    ensures opens { MatchResult result
        (λ _. OpensIfRead document.now)
        (λ bad. (bad ≡ BadDocument.Memory) ⊎ OpensIfRead document.now) }
{
    kept_law();
    let document = read_ring(alloc, document)?;
    match replay_document(alloc, address, document, capture) {
        Ok(reply) => Ok(reply),
        Err(_) => Err(BadDocument::Memory),
    }
}

// Returns the reply that refuses an input without a line `capture`. The error is `Memory`.
#[tactic(auto, unfolding(sercos_replay::specs::Replaying::parts_answer))]
fn reply_undivided(alloc: Global, address: u8) -> Result<Reply, BadDocument>
    ensures { MatchResult result
        (λ reply. Says reply (parts_answer None address))
        (λ bad. bad ≡ BadDocument.Memory) }
{
    match undivided_reply(alloc) {
        Ok(reply) => Ok(reply),
        Err(_) => Err(BadDocument::Memory),
    }
}

/// Returns the reply of `replay` to an input of at most 1,048,576 bytes: a ring document, a line that is exactly `capture`, and a capture.
/// It is `No` and the first place at which the station with an address deviated from its rules, given all that the capture has before that
/// place; or `Done` and the number of cycles, if there is none. The master has the address 0.
///
/// These are refused, in this order: an input without such a line, an invalid document, an address without a drive, an invalid capture, and
/// a capture whose first MST isn't of cycle 0. A capture that breaks a rule is answered as `check` does. The error is the document's first
/// refusal, or `Memory`. Unless it is `Memory`, the document of the input may be opened with its requests, if there is one that isn't
/// refused.
#[tactic(auto, unfolding(sercos_replay::specs::Replaying::replay_answer, sercos_replay::specs::Replaying::parts_answer, sercos_replay::specs::Divided::divided))]
pub fn replay(alloc: Global, address: u8, bytes: &[u8]) -> Result<Reply, BadDocument>
    requires few { length bytes.now ≤ 1048576 }
    ensures answer { MatchResult result
        (λ reply. (reply.status ≡ (replay_answer address bytes.now).status) × (reply.text.items ≡ (replay_answer address bytes.now).output))
        (λ bad. (bad ≡ BadDocument.Memory)
        ⊎ ((replay_answer address bytes.now).status ≡ Refused) × ((replay_answer address bytes.now).output ≡ line_of bad)) }
    ensures opens { MatchResult result
        (λ _. OpensItsRing bytes.now)
        (λ bad. (bad ≡ BadDocument.Memory) ⊎ OpensItsRing bytes.now) }
{
    match capture_place(bytes) {
        Some(place) => reply_parts(
            alloc,
            address,
            document_part(bytes, place),
            capture_part(bytes, place),
        ),
        None => reply_undivided(alloc, address),
    }
}
