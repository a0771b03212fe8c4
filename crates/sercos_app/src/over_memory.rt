// The top call over memory.
ghost use Rattle.std.specs.Prelude.{◌≡◌, ◌≢◌, ◌≤◌, ◌<◌, ◌⊎◌, length, Some, None};
ghost use Rattle.sercos_app.specs.Clauses.{last_count, answer_of, form_of, IsAnswer};

use crate::top_call::sercos;
use sercos_io::{MemorySink, PlainSource, Status, Words};
use sercos_script::BitLink;
use std::alloc::Global;

/// The top call over a source that never fails and a sink in memory. If the words are a command's, the input has at most 1,048,576 bytes,
/// and the sink fails no call, has room for the whole output, and counts fewer than 2^64 - 1 faults, nothing outside can fail: the answer
/// is written whole, and its status returned, or `Memory` is returned. If `Memory` is returned, with any words, input and sink, nothing is
/// written.
pub fn answer_in_memory<L: BitLink>(
    alloc: Global,
    words: &Words,
    source: &mut PlainSource,
    sink: &mut MemorySink,
    link: L,
) -> Status
    ensures answers { form_of words.now ≢ None
        → length source.old ≤ 1048576
        → length sink.old.failing ≡ 0
        → sink.old.faults < last_count
        → length (answer_of (L.carry link) (L.restart link) words.now source.old).output ≤ sink.old.spare
        → (result ≡ Status.Memory)
        ⊎ IsAnswer (answer_of (L.carry link) (L.restart link) words.now source.old) result (Some sink.old.held) (Some sink.new.held) }
    ensures unwritten { result ≡ Status.Memory → sink.new ≡ sink.old }
{
    sercos(alloc, words, source, sink, link)
}
