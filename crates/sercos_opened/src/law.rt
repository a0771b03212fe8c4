// What is kept in the run of a ring that may be opened.
ghost use Rattle.sercos_opened.specs.Kept.{OpensIfTyped, OpenedIsKept};

use sercos_law_run::{
    fall_law, harmless_law, headline_law, once_law, recovery_law, run_law, station_law,
    tolerance_law, undisturbed_law,
};

/// A law on a ring that may be opened with its requests, over any link and for each number of cycles. It may be opened with them if it is
/// valid, a master of it may be opened with them, and the numbers of both are those of their types, as `read_ring` and `generate` of
/// `sercos_config` promise.
///
/// The cycles of such a ring are a run:
/// - If the link is harmless, no arrival is undetected.
/// - The requests that end in a cycle are reported in order, and none a second time.
/// - In each cycle up to the first undetected arrival, its telegrams are apart, no drive is in too high a phase, and transfers are exact.
///   The planner's answer to the ring's requirements predicts it. The ring recovers in time, it bears sparse faults without a fall, and it
///   returns after others while sparse ones go on. With phase 0, 1 or 2 commanded at most one drive sends.
/// - In each cycle up to the first that is disturbed, the start-up goes as it should.
/// - Whatever arrives, each drive's data are fit for its phase, it rises and goes to phase 0 for its causes alone, and each fall that the
///   ring reports has its cause.
pub fn kept_law()
    ensures kept { OpenedIsKept }
    ensures opened { OpensIfTyped }
{
    run_law();
    harmless_law();
    once_law();
    headline_law();
    undisturbed_law();
    recovery_law();
    station_law();
    fall_law();
    tolerance_law();
}
