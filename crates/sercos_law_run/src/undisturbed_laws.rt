// The laws of an epoch in which nothing is disturbed.
ghost use Rattle.sercos_law_run.specs.Clauses.{StartsAtFall, StartsAtOpening, StartsAtRestart, ComesToAnEnd, ComesToPhaseFour, StaysAtItsEnd, FitsInThree, OwnFitsInFour, ReportsInTime, NoneIdleInThree, NoneIdleInTwo, AgesUndisturbed, AnswersUndisturbed, ComesToPhaseTwo, CostsUndisturbed, StaysUpUndisturbed, TellsNoFallUndisturbed, StopsInTwo, EndsStartUp, NoStopInFour, RisesIfRight, StopsInThree, StaysClear, QuietIsUndisturbed, StartsUndisturbed};

/// A law over every run, without undetected damage, of a ring that may be opened with its requests, over every link and with every restart.
/// An undisturbed epoch begins where phase 0 is commanded next, regardless of losses before, and goes on as long as every telegram that is
/// sent arrives as it was sent and no station restarts:
/// - In it nothing is undetected.
/// - Over links that change nothing no cycle is disturbed, if no station restarts.
/// - An epoch begins at the opening, without an own MST that came back.
/// - So it does after a fall.
/// - In a cycle in which the master restarts, an epoch begins, too, and phase 0 is commanded after it.
/// - In an undisturbed epoch the ring doesn't fall; each drive is in the commanded phase in every cycle, and the master hears it in phases
///   3 and 4.
/// - No record has a fall or reports a request as broken.
/// - No step is open for longer than the busy time of its drive and one cycle.
/// - An answer arrives exactly then after the cycle in which its step was first sent.
/// - The cycles in which a step to a drive is open are at most the cost of its requests, if no list of the drive is longer than its bound
///   in this cost.
/// - As long as the master goes on with phase 2, a step to some drive is open in each cycle, so the cycles are at most the sum of those of
///   the drives.
/// - In phase 3 a step is open to each drive until its check has ended.
/// - Phase 0 is commanded until ten MSTs in a row came back, from the opening or a fall on in ten cycles, then phase 1 in one cycle more
///   than there are drives, and then phase 2.
/// - After the cycles of a start-up phase 4 is commanded, or there is a stop, or one is to follow, since a check for phase 4 hasn't ended
///   well.
/// - After 41 steps more of the slowest drive, each of busy time and two cycles, phase 4 is commanded, or there is a stop.
/// - Both stay.
/// - In every run phases 3 and 4 are commanded only if a plan fits the ring's requirements, and the cycle time is within each drive's
///   limits.
/// - Phase 4 is commanded only if no own block of a drive was outside its limits at opening.
/// - A stop in phase 2 occurs because no plan fits; or a plan fits, and it names the first drive of the ring whose limits the cycle time is
///   outside of.
/// - A stop in phase 3 is caused by a drive's check for phase 4, since an own block of it was outside its limits at opening, and lists the
///   numbers of exactly these blocks.
/// - In phase 4 there is no stop.
/// - So an undisturbed start-up ends in phase 4, iff none of these is in its way, or with one of these stops.
/// - If none is in its way, phase 4 is commanded after the cycles of the bound of a start-up.
/// - If it ends in phase 4, the requests to a drive that waited then are reported one after the other: the first within the cycles of a
///   start-up and of one request, and each further one within those of one request more.
/// - The records of a run from its opening on in which no cycle is disturbed show all of this.
pub fn undisturbed_law()
    ensures clear { StaysClear }
    ensures quiet { QuietIsUndisturbed }
    ensures opening { StartsAtOpening }
    ensures fall { StartsAtFall }
    ensures restart { StartsAtRestart }
    ensures stays { StaysUpUndisturbed }
    ensures tells { TellsNoFallUndisturbed }
    ensures ages { AgesUndisturbed }
    ensures answers { AnswersUndisturbed }
    ensures costs { CostsUndisturbed }
    ensures two { NoneIdleInTwo }
    ensures three { NoneIdleInThree }
    ensures phases { ComesToPhaseTwo }
    ensures four { ComesToPhaseFour }
    ensures ends { ComesToAnEnd }
    ensures at_end { StaysAtItsEnd }
    ensures fit { FitsInThree }
    ensures own { OwnFitsInFour }
    ensures stops_two { StopsInTwo }
    ensures stops_three { StopsInThree }
    ensures none_four { NoStopInFour }
    ensures outcome { EndsStartUp }
    ensures rises { RisesIfRight }
    ensures reports { ReportsInTime }
    ensures starts { StartsUndisturbed }
{}
