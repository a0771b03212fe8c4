// The texts of what a replay finds. After an error `out` is unspecified.
ghost use Rattle.std.specs.Prelude.{◌≡◌, ◌++◌, OnOk, IfOk};
ghost use Rattle.sercos_replay.specs.Clauses.{kind_name, place_line, sent_text, sent_line, place_text, number_line, place_answer, Says};

use crate::difference::Difference;
use itoa::Buffer;
use sercos_answer::{Reply, push_number, push_text};
use sercos_io::Status;
use sercos_telegram::Kind;
use sercos_trace::Sent;
use std::alloc::{AllocError, Global};

// Returns the word for a kind of telegram: `mst`, `at` or `mdt`.
#[tactic(auto, unfolding(crate::specs::Replaying::kind_name))]
fn kind_name(kind: Kind) -> &'static str
    ensures { result.now ≡ kind_name kind }
{
    match kind {
        Kind::Mst => "mst",
        Kind::At => "at",
        Kind::Mdt => "mdt",
    }
}

// Appends the line that reports the place of a telegram: `differs cycle`, the number of the cycle, and the word for the kind. The error is
// `AllocError`.
#[tactic(auto, unfolding(crate::specs::Replaying::place_line))]
fn push_place(cycle: u32, kind: Kind, out: &mut Vec<u8>) -> Result<(), AllocError>
    ensures { OnOk result (out.new.items ≡ out.old.items ++ place_line cycle kind) }
{
    push_text("differs cycle ", out)?;
    push_number(u64::from(cycle), out)?;
    push_text(" ", out)?;
    push_text(kind_name(kind), out)?;
    push_text("\n", out)
}

// Appends the start of a telegram, in bit times after the MST's end, a space, and its content, two hexadecimal digits in lower case for
// each byte; `none` if there is no telegram. The error is `AllocError`.
#[tactic(auto, unfolding(crate::specs::Replaying::sent_text))]
fn push_sent(alloc: Global, sent: &Option<Sent>, out: &mut Vec<u8>) -> Result<(), AllocError>
    ensures { OnOk result (out.new.items ≡ out.old.items ++ sent_text sent.now) }
{
    match sent {
        Some(sent) => {
            let mut start = Buffer::new();
            out.extend_from_slice(start.format(sent.start).as_bytes())?;
            push_text(" ", out)?;
            let digits = hex::encode(alloc, sent.content.as_slice())?;
            out.extend_from_slice(digits.as_bytes())
        }
        None => push_text("none", out),
    }
}

// Appends the line of `name` and a telegram, or `none`, with its line feed. The error is `AllocError`.
#[tactic(auto, unfolding(crate::specs::Replaying::sent_line))]
fn push_sent_line(
    alloc: Global,
    name: &str,
    sent: &Option<Sent>,
    out: &mut Vec<u8>,
) -> Result<(), AllocError>
    ensures { OnOk result (out.new.items ≡ out.old.items ++ sent_line name.now sent.now) }
{
    push_text(name, out)?;
    push_sent(alloc, sent, out)?;
    push_text("\n", out)
}

/// Returns the reply with this status and text. The error is `AllocError`.
pub fn reply_with(alloc: Global, status: Status, text: &[u8]) -> Result<Reply, AllocError>
    ensures { IfOk result (λ reply. (reply.status ≡ status) × (reply.text.items ≡ text.now)) }
{
    let text = Vec::from_slice(alloc, text)?;
    Ok(Reply { status, text })
}

/// Returns the reply with this status and the line of a text and a number, with its line feed. The error is `AllocError`.
#[tactic(auto, unfolding(crate::specs::Replaying::number_line))]
pub fn number_reply(
    alloc: Global,
    status: Status,
    name: &str,
    number: u64,
) -> Result<Reply, AllocError>
    ensures { IfOk result (λ reply. (reply.status ≡ status) × (reply.text.items ≡ number_line name.now number)) }
{
    let mut text = Vec::new(alloc);
    push_text(name, &mut text)?;
    push_number(number, &mut text)?;
    push_text("\n", &mut text)?;
    Ok(Reply { status, text })
}

// Returns the reply `No` with the three lines of a place that differs: the place, what was expected, and what was found. The error is
// `AllocError`.
#[tactic(auto, unfolding(crate::specs::Replaying::place_text))]
fn difference_reply(alloc: Global, difference: &Difference) -> Result<Reply, AllocError>
    ensures { IfOk result (λ reply. (reply.status ≡ Status.No) × (reply.text.items ≡ place_text difference.now)) }
{
    let mut text = Vec::new(alloc);
    push_place(difference.cycle, difference.kind, &mut text)?;
    push_sent_line(alloc, "expected ", &difference.expected, &mut text)?;
    push_sent_line(alloc, "found ", &difference.found, &mut text)?;
    Ok(Reply {
        status: Status::No,
        text,
    })
}

/// Returns the reply of a replay: `No` with the place that differs, if there is one, and otherwise `Done` with the line `agrees N`, where N
/// is `cycles`, the number of cycles. The error is `AllocError`.
#[tactic(auto, unfolding(crate::specs::Replaying::place_answer))]
pub fn place_reply(
    alloc: Global,
    difference: Option<Difference>,
    cycles: u64,
) -> Result<Reply, AllocError>
    ensures { IfOk result (λ reply. Says reply (place_answer difference cycles)) }
{
    match difference {
        Some(difference) => difference_reply(alloc, &difference),
        None => number_reply(alloc, Status::Done, "agrees ", cycles),
    }
}
