// `show`: the telegrams in lines of frames. After an error `out` is unspecified.
ghost use Rattle.std.specs.Prelude.{◌≡◌, ◌≤◌, Bool, List, [], ◌++◌, length, slice_index, drop, IfOk, OnOk, codes};
ghost use Rattle.sercos_show.specs.Clauses.{layout_text, layout_or, mst_text, single_text, at_text, wanted_address, wanted_len, content_text, frame_text, show_answer, refused_text, mst_fault, single_fault, at_fault, word_at, control_of, status_of, reason_of, taken_of, IsFed};

use crate::digits::MOST_BYTES;
use crate::line::{LineKind, read_line};
use crate::text::{push_at, push_hex, push_layout, push_mst, push_refusal, push_single};
use sercos_answer::{Reply, cut_line, push_number, push_text};
use sercos_hdlc::Deframer;
use sercos_io::Status;
use sercos_telegram::{Layout, read_at, read_mst, read_single};
use std::alloc::{AllocError, Global};

// Returns the reply that refuses the input at a line and a column. The error is `AllocError`.
fn refusal(alloc: Global, line: u64, column: u64) -> Result<Reply, AllocError>
    ensures status { IfOk result (λ reply. reply.status ≡ Status.Refused) }
    ensures text { IfOk result (λ reply. reply.text.items ≡ refused_text line column) }
{
    let mut text = Vec::new(alloc);
    push_text("refused line ", &mut text)?;
    push_number(line, &mut text)?;
    push_text(" column ", &mut text)?;
    push_number(column, &mut text)?;
    push_text("\n", &mut text)?;
    Ok(Reply {
        status: Status::Refused,
        text,
    })
}

// Appends `layout` and a fault of layout. The error is `AllocError`.
#[tactic(auto, unfolding(crate::specs::Show::layout_or))]
fn push_fault(fault: Layout, out: &mut Vec<u8>) -> Result<(), AllocError>
    ensures { OnOk result (out.new.items ≡ out.old.items ++ (codes "layout " ++ layout_text fault)) }
{
    push_text("layout ", out)?;
    push_layout(fault, out)
}

// Returns the address for which a content is read: its first byte if that is the address of a drive, 1 to 254, otherwise 1.
#[tactic(auto, unfolding(crate::specs::Show::wanted_address))]
fn wanted_address(content: &[u8]) -> u8
    ensures { result ≡ wanted_address content.now }
{
    match content.first() {
        Some(&found) if 0 < found && found < 255 => found,
        _ => 1,
    }
}

// Returns how many bytes an AT should have after its address: as many as were found, but at least 4. The content has at most 2048.
#[tactic(auto, unfolding(crate::specs::Show::wanted_len))]
fn wanted_len(content: &[u8]) -> u16
    requires { length content.now ≤ 2048 }
    ensures value { result ≡ wanted_len content.now }
    ensures least { 4 ≤ result }
{
    content.len().saturating_sub(1).max(4) as u16
}

// Appends the text of a content of at most 2048 bytes, read as the kind of its line requires: its bytes, the fields of its telegram, or the
// fault of layout. The error is `AllocError`.
#[tactic(auto, unfolding(crate::specs::Show::content_text, crate::specs::Show::layout_or))]
fn push_content(kind: LineKind, content: &[u8], out: &mut Vec<u8>) -> Result<(), AllocError>
    requires { length content.now ≤ 2048 }
    ensures { OnOk result (out.new.items ≡ out.old.items ++ content_text kind content.now) }
{
    match kind {
        LineKind::Raw => {
            push_text("ok ", out)?;
            push_hex(content, out)
        },
        LineKind::Mst => match read_mst(content) {
            Ok(mst) => push_mst(mst.phase, out),
            Err(fault) => push_fault(fault, out),
        },
        LineKind::Single => {
            let address = wanted_address(content);
            match read_single(address, content) {
                Ok((control, info)) => push_single(address, &control, info, out),
                Err(fault) => push_fault(fault, out),
            }
        },
        LineKind::At => match read_at(wanted_address(content), wanted_len(content), content) {
            Ok(at) => push_at(&at, out),
            Err(fault) => push_fault(fault, out),
        },
    }
}

// Appends the answer to a line of a kind whose bits the deframer has taken, with a line feed: the text of the content if the bits are a
// frame, otherwise `error` and the reason why they are not. The error is `AllocError`.
#[tactic(auto, unfolding(crate::specs::Show::frame_text))]
fn push_answer(kind: LineKind, deframer: &Deframer, out: &mut Vec<u8>) -> Result<(), AllocError>
    ensures { (bits : List Bool) → IsFed bits deframer.now
        → OnOk result (out.new.items ≡ out.old.items ++ frame_text kind bits (reason_of bits)) }
{
    match deframer.content() {
        Ok(content) => push_content(kind, content, out)?,
        Err(bad) => {
            push_text("error ", out)?;
            push_refusal(bad, out)?;
        },
    }
    push_text("\n", out)
}

/// Returns the reply of `show` to a text: `Refused`, with `refused line L column C` and a line feed for the first line that has a fault,
/// both numbers from 1 on; otherwise `Done`, with the answer to each line and a line feed, in order. The error is `AllocError`.
pub fn show(alloc: Global, text: &[u8]) -> Result<Reply, AllocError>
    ensures status { IfOk result (λ reply. reply.status ≡ (show_answer text.now).status) }
    ensures text { IfOk result (λ reply. reply.text.items ≡ (show_answer text.now).output) }
{
    let mut room = [0; MOST_BYTES];
    let mut deframer = Deframer::new();
    let mut answers = Vec::new(alloc);
    let mut rest = text;
    let mut number = 1u64;
    while !rest.is_empty() {
        let (line, others) = cut_line(rest);
        match read_line(line, &mut room, &mut deframer) {
            Ok(kind) => {
                push_answer(kind, &deframer, &mut answers)?;
                deframer.restart();
            },
            Err(place) => return refusal(alloc, number, place as u64 + 1),
        }
        rest = others;
        number += 1;
    }
    Ok(Reply {
        status: Status::Done,
        text: answers,
    })
}
