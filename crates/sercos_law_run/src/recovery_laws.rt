// The laws of the recovery after faults.
ghost use Rattle.sercos_law_run.specs.Clauses.{AfterFall, ComesBack, FallsInTime, FallsSoon, Predicts, Recovers, AgesDown, AgesToLimit, FallsIfDown, StaysDown, UpOrDown};

/// A law over every run, without undetected damage, of a ring that may be opened with its requests, over every link and with every restart:
/// - In cycles in which nothing is disturbed and the ring doesn't fall, regardless of losses before them, each drive is in the commanded
///   phase and nothing of its channel is lost, or it is in phase 0.
/// - A drive in phase 0 stays there while 2 to 4 is commanded: the master receives nothing of it and takes no answer.
/// - Then an open step gets older with each cycle without a fall or a restart of the master.
/// - No step is open at the ends of more than 64 cycles.
/// - The ring falls as well in the second cycle of phase 3 or 4 in which a drive is in phase 0, if the master doesn't restart.
/// - If a drive is in phase 0 after an undisturbed cycle of phase 2 or later, and the ring falls in an undisturbed one after it, the cycles
///   in between, if they are undisturbed and without a fall, are at most the reads or the writes of each other drive and 65.
/// - If the ring falls in an undisturbed cycle of phase 2 or later, after undisturbed ones without a fall, and no drive is in phase 0
///   before it, the cycles between the first of these and it are at most the busy time of the slowest drive and one.
/// - If it doesn't fall in undisturbed cycles after a first one of phase 2 or later at whose end no drive is in phase 0, phase 4 is
///   commanded, or the master has a stop, once the cycles of a start-up and 41 steps more of the slowest drive, each of busy time and two
///   cycles, have passed.
/// - If a record has a fall, a restart of the master included, and no cycle after it is disturbed, the ring starts up again as after its
///   opening.
/// - In each cycle, of a fall too, a plan that is reported is the planner's for the ring's requirements, and so is the chain of a reported
///   `NoFit`; each stop that is reported has its cause.
/// - From twice the bound of a start-up and 200 cycles after the last disturbed cycle on, phase 4 is commanded, or the master is at a stop
///   for its cause. No fall is reported, nor a request as broken. In phase 4 the requests to a drive that were left then are reported one
///   after the other, each further one within the cycles of one request more. The ring returns sooner, by the numbers of its drives: it
///   falls within 68 cycles and a section of phase 2 of each drive but the one with the least, or not at all. From a start-up later on
///   phase 4 is commanded if the ring is right, and from 41 steps more of the slowest drive on the ring is back anyway.
pub fn recovery_law()
    ensures up_or_down { UpOrDown }
    ensures down { StaysDown }
    ensures ages { AgesDown }
    ensures to_limit { AgesToLimit }
    ensures falls { FallsIfDown }
    ensures in_time { FallsInTime }
    ensures soon { FallsSoon }
    ensures comes_back { ComesBack }
    ensures after_fall { AfterFall }
    ensures predicts { Predicts }
    ensures recovers { Recovers }
{}
