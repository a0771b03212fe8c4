// What a command writes. If a write fails, the sink has accepted a proper prefix of the text, and its count of faults has risen or is
// 2^64 - 1; otherwise it has accepted the whole, and the count is unchanged. A sink with room for the whole doesn't fail.
ghost use Rattle.std.specs.Prelude.{◌≡◌, ◌≢◌, ◌⊎◌};
ghost use Rattle.sercos_call.specs.Clauses.{line_of, GivesOrRefuses, GivesReply, Writes, changed, fault_status};

use sercos_answer::Reply;
use sercos_config::{BadDocument, write_refusal};
use sercos_io::{Sink, Status, write_all};
use std::alloc::AllocError;

/// Returns the status of a call that fails to write a reply of this status: `Refused` for a refusal, otherwise `WriteFault`.
#[tactic(auto, unfolding(crate::specs::TopCall::fault_status))]
pub fn fault_status(status: Status) -> Status
    ensures { result ≡ fault_status status }
{
    match status {
        Status::Refused => Status::Refused,
        _ => Status::WriteFault,
    }
}

// Writes a reply, and returns its status. If the write fails, the status is `Refused` for a reply with this status, otherwise `WriteFault`.
fn give_reply<K: Sink>(reply: &Reply, sink: &mut K) -> Status
    ensures { Writes reply.now.status reply.now.text.items
        (changed K.held K.faults K.room sink.old sink.new) result }
{
    match write_all(sink, reply.text.as_slice()) {
        Ok(()) => reply.status,
        Err(_) => fault_status(reply.status),
    }
}

/// Writes a reply, and returns its status. If the write fails, the status is `Refused` for a reply with this status, otherwise
/// `WriteFault`. If there was no memory to make the reply, the status is `Memory`, and the sink is unchanged.
pub fn give_if_made<K: Sink>(made: &Result<Reply, AllocError>, sink: &mut K) -> Status
    ensures { GivesReply made.now (changed K.held K.faults K.room sink.old sink.new) (sink.new ≡ sink.old) result }
{
    match made {
        Ok(reply) => give_reply(reply, sink),
        Err(_) => Status::Memory,
    }
}

/// Writes the refusal of a document, and returns `Refused`, also if the write fails. If the cause is `Memory`, the status is `Memory`, and
/// the sink is unchanged.
pub fn refuse<K: Sink>(bad: &BadDocument, sink: &mut K) -> Status
    ensures { ((bad.now ≡ BadDocument.Memory) × (result ≡ Status.Memory) × (sink.new ≡ sink.old))
        ⊎ ((bad.now ≢ BadDocument.Memory) × Writes Status.Refused (line_of bad.now) (changed K.held K.faults K.room sink.old sink.new) result) }
{
    if matches!(bad, BadDocument::Memory) {
        return Status::Memory;
    }
    match write_refusal(bad, sink) {
        Ok(()) => Status::Refused,
        Err(_) => fault_status(Status::Refused),
    }
}

/// Writes a reply, and returns its status. If that write fails, the status is `Refused` for a reply with this status, otherwise
/// `WriteFault`. If the document was refused instead, writes the refusal, and returns `Refused`, also if the write fails. If the cause is
/// `Memory`, the status is `Memory`, and the sink is unchanged.
pub fn give_or_refuse<K: Sink>(made: &Result<Reply, BadDocument>, sink: &mut K) -> Status
    ensures { GivesOrRefuses made.now (changed K.held K.faults K.room sink.old sink.new) (sink.new ≡ sink.old) result }
{
    match made {
        Ok(reply) => give_reply(reply, sink),
        Err(bad) => refuse(bad, sink),
    }
}
