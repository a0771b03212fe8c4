// The replies of a backup and of a restore.
ghost use Rattle.std.specs.Prelude.{◌≡◌, ◌<◌, ◌+◌, IfOk};
ghost use Rattle.sercos_backup.specs.Clauses.{failed_answer, many_answer, other_answer, saved_answer, saved_lines};

use crate::texts::{push_all_failed, push_all_saved};
use crate::tracked::{Tracked, all_well};
use sercos_answer::Reply;
use sercos_io::Status;
use sercos_text::{Given, Line, push_line};
use std::alloc::{AllocError, Global};

/// Returns the reply of a run in which requests failed: `No`, with the line of each that did, as `push_all_failed` appends it. If `absent`
/// is true, a request that was refused because the drive has no such block didn't fail. The error is `AllocError`.
pub fn failed_reply(alloc: Global, absent: bool, list: &[Tracked]) -> Result<Reply, AllocError>
    ensures status { IfOk result (λ reply. reply.status ≡ (failed_answer absent list.now).status) }
    ensures text { IfOk result (λ reply. reply.text.items ≡ (failed_answer absent list.now).output) }
{
    let mut text = Vec::new(alloc);
    push_all_failed(absent, list, &mut text)?;
    Ok(Reply {
        status: Status::No,
        text,
    })
}

/// Returns the reply of the run that reads the blocks: `Done`, with the saved data of all; or, if some couldn't be read, `No`, with the
/// line of each of these. The error is `AllocError`.
pub fn saved_reply(alloc: Global, list: &[Tracked]) -> Result<Reply, AllocError>
    ensures status { IfOk result (λ reply. reply.status ≡ (saved_answer list.now).status) }
    ensures text { IfOk result (λ reply. reply.text.items ≡ (saved_answer list.now).output) }
{
    if all_well(false, list) {
        let mut text = Vec::new(alloc);
        push_all_saved(list, &mut text)?;
        return Ok(Reply {
            status: Status::Done,
            text,
        });
    }
    failed_reply(alloc, false, list)
}

/// Returns the reply to lists with too many blocks: `No`, with the line `too many N`, where N is `count`, the number of blocks. The error
/// is `AllocError`.
pub fn many_reply(alloc: Global, count: u32) -> Result<Reply, AllocError>
    ensures status { IfOk result (λ reply. reply.status ≡ (many_answer count).status) }
    ensures text { IfOk result (λ reply. reply.text.items ≡ (many_answer count).output) }
{
    let mut line = Line::new();
    push_line(b"too many D\n", &[Given::Number(count)], &mut line);
    let mut text = Vec::new(alloc);
    text.extend_from_slice(line.as_slice())?;
    Ok(Reply {
        status: Status::No,
        text,
    })
}

/// Returns the reply to requests of which one, at a place from 0 to 4095, doesn't write operation data. It is `Refused`, with the line
/// `refused 8 request N`, where N is the number of the request, from 1 on. The error is `AllocError`.
pub fn other_reply(alloc: Global, place: usize) -> Result<Reply, AllocError>
    requires { place < 4096 }
    ensures status { IfOk result (λ reply. reply.status ≡ (other_answer place).status) }
    ensures text { IfOk result (λ reply. reply.text.items ≡ (other_answer place).output) }
{
    let mut line = Line::new();
    push_line(
        b"refused 8 request D\n",
        &[Given::Number(place as u32 + 1)],
        &mut line,
    );
    let mut text = Vec::new(alloc);
    text.extend_from_slice(line.as_slice())?;
    Ok(Reply {
        status: Status::Refused,
        text,
    })
}
