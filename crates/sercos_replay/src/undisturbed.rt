// Where the telegrams of a run differ from what its stations say.
ghost use Rattle.sercos_replay.specs.Clauses.{ReadsTraces, TracesDiffer, CapturesDiffer};

use crate::law::{agreement_law, capture_law};
use sercos_trace::reading_law;

/// A law on the captures of runs. The document must be valid, its numbers within their types, and the station one of it:
/// - If the telegrams of a capture are those of a run of the document, over any link, the first place at which the station differs is in no
///   cycle before the first disturbed one. So nothing differs if nothing is disturbed.
/// - The trace of cycles whose numbers fit their fields is read back as their telegrams.
/// - So the first statement also holds if the capture is the trace of such a run, and the numbers fit their fields.
pub fn undisturbed_law()
    ensures captured { CapturesDiffer }
    ensures reads { ReadsTraces }
    ensures traces { TracesDiffer }
{
    agreement_law();
    capture_law();
    reading_law();
}
