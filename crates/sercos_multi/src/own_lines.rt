// What the lines of one of several rings are.
ghost use Rattle.sercos_multi.specs.Clauses.{LinesAreTraces};

/// States that in the merged text of the rings of at most 8 documents, the lines of one ring, without their number, are the trace of the
/// run of its document alone: its head, its cycles in their order, and its end line. The number of the first document's ring is 1. The
/// common cycle time is at least 1 microsecond, and each ring runs at least one cycle. The function does nothing.
pub fn lines_law()
    ensures traces { LinesAreTraces }
{}
