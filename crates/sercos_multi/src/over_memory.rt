// The top call of several rings over memory.
ghost use Rattle.std.specs.Prelude.{◌≡◌, ◌≢◌, ◌≤◌, ◌<◌, ◌⊎◌, length, Some, None};
ghost use Rattle.sercos_multi.specs.Clauses.{last_count, IsAnswer, rings_answer, form_of};

use crate::top_call::rings;
use sercos_io::{MemorySink, PlainSource, Status, Words};
use std::alloc::Global;

/// The top call of several rings over a source that never fails and a sink in memory. If the words are `run`, the input has at most
/// 1,048,576 bytes, and the sink fails no call, has room for the whole output, and counts fewer than 2^64 - 1 faults, nothing outside can
/// fail: the answer is written whole, or `Memory` is returned and nothing is written. The program doesn't call it: it states what holds
/// of `rings` if nothing outside fails.
pub fn rings_in_memory(
    alloc: Global,
    words: &Words,
    source: &mut PlainSource,
    sink: &mut MemorySink,
) -> Status
    ensures answers { form_of words.now ≢ None
        → length source.old ≤ 1048576
        → length sink.old.failing ≡ 0
        → sink.old.faults < last_count
        → length (rings_answer source.old).output ≤ sink.old.spare
        → (result ≡ Status.Memory)
        ⊎ IsAnswer (rings_answer source.old) result (Some sink.old.held) (Some sink.new.held) }
    ensures unwritten { result ≡ Status.Memory → sink.new ≡ sink.old }
{
    rings(alloc, words, source, sink)
}
