//! The top call over slices.
ghost use Rattle.std.specs.Prelude.{◌≡◌, ◌≤◌, false, length, take};
ghost use Rattle.sercos_c.specs.Clauses.{IsCalled};

use crate::slices::{SliceSink, SliceSource};
use sercos_app::{Clean, sercos};
use sercos_io::{Status, Words};
use std::alloc::Global;

// Runs the command of these words over an input, and writes its output to a sink. The sink must have taken nothing, and no write to it may
// have failed. Returns the status of the command; if the output doesn't fit, `Refused` for a refusal, and otherwise `WriteFault`. The sink
// stays over the same slice.
fn answer_into(alloc: Global, words: &Words, input: &[u8], sink: &mut SliceSink<'_>) -> Status
    requires fresh { sink.old.is_full ≡ false }
    requires empty { sink.old.place ≡ 0 }
    ensures same_reference { sink.new.room.ghost_name ≡ sink.old.room.ghost_name }
    ensures called { IsCalled words.now input.now (length sink.old.room.now) result (take sink.new.place sink.new.room.now) }
{
    let mut source = SliceSource { bytes: input };
    sercos(alloc, words, &mut source, sink, Clean)
}

/// Runs the command of these words over an input, and writes its output to the front of `output`. Returns its status, and the number of
/// bytes of the output that were written. The bytes of `output` after these are unspecified. An output longer than `output` is cut at its
/// end, and the status is then `Refused` for a refusal, otherwise `WriteFault`.
pub(crate) fn answer(
    alloc: Global,
    words: &Words,
    input: &[u8],
    output: &mut [u8],
) -> (Status, usize)
    ensures within { result.1 ≤ length output.new }
    ensures called { IsCalled words.now input.now (length output.old) result.0 (take result.1 output.new) }
{
    let mut sink = SliceSink::new(output);
    let status = answer_into(alloc, words, input, &mut sink);
    (status, sink.place)
}
