// The next line of a capture.

/// The kind of line that must be next in a capture.
#[derive(Clone, Copy, Debug, PartialEq, Eq)]
pub(crate) enum Awaited {
    /// The version, the first line.
    Version,
    /// The numbers of the ring, the second line.
    Ring,
    /// The line of a drive.
    Drive,
    /// The order of the ATs, the last line of the head.
    Order,
    /// A line of a cycle, or the totals.
    Cycle,
    /// Nothing, after the totals.
    Nothing,
}
