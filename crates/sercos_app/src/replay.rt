// What holds of the replay of a trace that `run` wrote of the same document.
ghost use Rattle.sercos_app.specs.Clauses.{OwnRunsHold};

use sercos_law_run::run_law;
use sercos_law_trace::clean_law;
use sercos_replay::{asking_law, undisturbed_law};

/// A law on an input that has a document that may be opened with its requests, at most 4,096, and, as its capture, what `run` writes of
/// this document over any link. The first place at which `replay` finds a difference is in no cycle before the first disturbed one, for the
/// master and for each drive. If nothing is undetected in that run, `check` finds what is written clean. So if nothing is disturbed, the
/// answer is the number of its cycles.
pub fn replay_law()
    ensures { OwnRunsHold }
{
    run_law();
    asking_law();
    undisturbed_law();
    clean_law();
}
