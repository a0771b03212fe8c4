// The laws of what a ring bears while faults go on.
ghost use Rattle.std.specs.Prelude.{ℕ};
ghost use Rattle.sercos_law_run.specs.Clauses.{BearsSparse, Tolerates, EarlySparse, EndsSparse, CostsShared, CostsSparse, TakesTimeAndLosses, EndsAnyway, RisesAnyway, ReportsSparse, ReturnsWhileSparse, RisesSparse, CalmIsSparse, OneOfThreeIsSparse, TwoSparse};

/// A law over every run, without undetected damage, of a ring that may be opened with its requests, over every link. Take any point at
/// which phase 0 is commanded next: the opening, a fall, a restart of the master. Losses and restarts before it don't matter. The cycles
/// after it are sparse if no station restarts, neither of the two cycles before a disturbed one is disturbed where phase 1 or 2 is
/// commanded in it, and the one before it isn't where phase 3 or 4 is; in phase 0 any cycle may be disturbed. A disturbed cycle may lose
/// any number of telegrams, at any stations:
/// - Cycles in which nothing is disturbed are sparse.
/// - So are those without a restart of which at most one of any three in a row is disturbed.
/// - As long as the disturbed cycles are sparse, the ring bears them, however many they are. No record has a fall or reports a request as
///   broken. From the second cycle on each drive is in the commanded phase, or one below it, in the first cycle commanded this phase, if it
///   missed the MST of it. No step is open for longer than the busy time of its drive and four cycles, or three in phases 3 and 4, and its
///   answer arrives at most that long after the cycle in which it was first sent.
/// - So it is in each cycle of a run, from its opening on or since one whose record has a fall.
/// - In any cycles without a fall and without a restart of the master, a step costs busy time and one, and each cycle in which its record
///   or its answer is lost one more.
/// - The cycles of such an epoch in which a step to a drive is open are at most the cost of the requests to it, if no list of the drive is
///   longer than its bound in this cost, and what the disturbed cycles cost: two cycles each in phase 2, one in 3 and 4.
/// - Up to phase 2, where one channel works after the other, a disturbed cycle counts once for all of them.
/// - Phases 0 and 1 last for eleven cycles and one for each drive at most, and ten for each cycle of phase 0 in which the own MST was lost,
///   and two for each disturbed one of phase 1.
/// - Phases 0 to 2 together last for that and one, the reads and the writes of each drive, and two cycles for each disturbed one of phase 2
///   at most, unless there is a stop.
/// - The ring is right if a plan fits its requirements, the cycle time is within each drive's limits, and no own block of a drive was
///   outside its limits at opening. Then phase 4 is commanded within the bound of a start-up and these costs, with one cycle for each
///   disturbed one of phase 3; and once commanded, it stays.
/// - In phase 4 the requests to a drive that waited when the epoch began are reported one after the other, each within the cycles that this
///   profile gives a request: as many as without faults.
/// - From 41 steps of the slowest drive, each of busy time and two cycles, after that bound and these costs on, phase 4 is commanded, or a
///   stop for its cause has been reported.
/// - If the ring is right, phase 4 is commanded, however many cycles are disturbed, within the bound of a start-up with each drive busy for
///   one cycle more, and ten cycles for each own MST that was lost in phase 0.
/// - From 41 steps of the slowest drive after this bound on, phase 4 is commanded, or a stop for its cause has been reported.
/// - After faults that aren't sparse, at most one fall comes after the last cycle that isn't, and no request is reported as broken after
///   that fall. From twice the bound of a start-up and 200 cycles after that last cycle on, and what the disturbed cycles since cost a
///   start-up, phase 4 is commanded, or the master is at a stop for its cause, and no fall is reported any more, nor a request as broken.
pub fn tolerance_law()
    ensures calm { CalmIsSparse }
    ensures spaced { OneOfThreeIsSparse }
    ensures bears { BearsSparse }
    ensures tolerates { Tolerates }
    ensures losses { (busy : ℕ) → TakesTimeAndLosses busy }
    ensures costs { CostsSparse }
    ensures shared { CostsShared }
    ensures early { EarlySparse }
    ensures two { TwoSparse }
    ensures rises { RisesSparse }
    ensures reports { ReportsSparse }
    ensures ends { EndsSparse }
    ensures rises_anyway { RisesAnyway }
    ensures ends_anyway { EndsAnyway }
    ensures returns { ReturnsWhileSparse }
{}
