// Which rules of a capture the trace of a run keeps.
ghost use Rattle.sercos_law_trace.specs.Clauses.{RunsFitLines, RunsKeepRules, RunsAreClean, RunsFitOthers, RunsFitReports, TracesAreClean};

use sercos_check::test_law;
use sercos_law_run::totals_law;
use sercos_step::counts_law;
use sercos_trace::reading_law;

/// A law over every run of a ring that may be opened with its requests, over every link and with every restart:
/// - If nothing was undetected, its telegrams keep the nine rules of a capture.
/// - The numbers of its telegrams fit the fields of the lines of a trace, whatever arrives, if it has at most 2^32 cycles.
/// - If nothing was undetected, and it has at most 50,000 cycles, so do the numbers of its moves, of its other events and of its totals, if
///   those of the outcomes and of the stops do.
/// - These do if nothing was undetected, and there are at most 65,535 requests and 2^32 cycles.
/// - If nothing was undetected, all these numbers fit, and it has at most 2^32 cycles, its trace is a clean capture, with each line in its
///   place and no rule broken, which begins with cycle 0.
/// - So it is in each such run of at most 50,000 cycles and 65,535 requests.
pub fn clean_law()
    ensures rules { RunsKeepRules }
    ensures fit { RunsFitLines }
    ensures others { RunsFitOthers }
    ensures reports { RunsFitReports }
    ensures traces { TracesAreClean }
    ensures clean { RunsAreClean }
{
    test_law();
    reading_law();
    totals_law();
    counts_law();
}
