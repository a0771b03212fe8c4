// `check`: the verdict on a capture, written to a sink.
ghost use Rattle.std.specs.Prelude.{◌≤◌, length};
ghost use Rattle.sercos_app.specs.Clauses.{verdict_status, verdict_text, check_answer, changed};
ghost use Rattle.sercos_call.specs.Outcome.{Writes};

use sercos_call::fault_status;
use sercos_checking::capture::verdict;
use sercos_checking::{verdict_line, verdict_status};
use sercos_io::{Sink, Status, write_all};

/// Writes the verdict on a capture of at most 1,048,576 bytes: the first fault of grammar or shape, otherwise the first violation,
/// otherwise the number of lines. Returns `Refused`, `No` or `Done`; if the write fails, `Refused` for a refused capture, otherwise
/// `WriteFault`. Then the sink has accepted a proper prefix of the line, and its count of faults has risen or is 2^64 - 1; otherwise this
/// count is unchanged. A sink with room for the whole line doesn't fail. It takes no memory.
pub fn write_verdict<K: Sink>(text: &[u8], sink: &mut K) -> Status
    requires { length text.now ≤ 1048576 }
    ensures { Writes (check_answer text.now).status (check_answer text.now).output (changed K.held K.faults K.room sink.old sink.new) result }
{
    let verdict = verdict(text);
    match write_all(sink, verdict_line(verdict).as_slice()) {
        Ok(()) => verdict_status(verdict),
        Err(_) => fault_status(verdict_status(verdict)),
    }
}
