// What stays of a complete write.
ghost use Rattle.sercos_law_trace.specs.Clauses.{WritesAreKept};

/// A law over every run, without undetected damage, of a ring that may be opened with its requests, regardless of losses and restarts. If a
/// write of operation data is reported as complete, and no request to the drive with a higher number writes to the same block or sets it,
/// then the drive has the block, and after the last cycle its store has the bytes of this write there. The bytes of a write that is not a
/// list are filled up with zeros to whole words, at least one. No start-up changes them: the blocks that it writes are write protected in
/// phase 4, in which all requests are made.
pub fn write_law()
    ensures { WritesAreKept }
{}
