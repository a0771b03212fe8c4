// Laws on what the master does on the channel of one drive, after any calls.
ghost use Rattle.sercos_law_run.specs.Clauses.{CallsAreMoves, BeginsTasks, EndsTasks, BeginsNoneEarly, WorkInTurn, WorksInFour, WorksInThree, WorksInTwo, ReadsWell, WritesData, ConfiguresFromCheck, ConfiguresAtRise, NoFitHasCause, RefusedHasCause, BadConfigHasCause, Check127HasCause, Check128HasCause, AreRequests, TellsInOrder, TellsOnce, TellsRight, AreTold, AreToldAtRestart};

/// A law: at each call of the master, regardless of those before, the channel of each drive goes through moves. A move within a cycle
/// changes nothing, or the drive is identified, its first status of the cycle is received, the plan is made, or the next task begins. The
/// other moves end the cycle, after which the phase is the same or the next one, or end the epoch, after which only the requests that
/// weren't begun wait.
pub fn channel_law()
    ensures moves { CallsAreMoves }
{}

/// A law on the channel of each drive after any calls. The requests that wait must be of phase 4, except in the first two statements, in
/// that on the reads and in that on what the eleven writes write. The statements on the MDT's place in phases 2 and 3 require that the
/// lists of each drive for its AT and its data record have at most 16 entries each. That on phase 4 requires that the requests to the
/// drives have numbers:
/// - The requests that were begun on a channel in an epoch are those of its agenda, each at its place.
/// - Each outcome is that of one of them.
/// - Nothing is begun in phases 0 and 1.
/// - In phase 2 only the channel of the drive whose turn it is has an open transfer.
/// - After the MDT's place of a cycle of phase 2 some channel has one, unless each check for phase 3 has ended well, there is a stop, or
///   all reads have ended without a plan.
/// - After that of phase 3, with a plan and without a stop, each channel has one whose check for phase 4 hasn't ended well.
/// - After that of phase 4, with a plan and without a stop, each channel has one as long as requests to its drive wait.
/// - If there is a plan, each drive has answered all reads without error.
/// - Each of the eleven writes of phase 2 writes operation data, to a fixed identifier number by its place among them. They write the
///   ring's two cycle times, the six values of a plan for the drive, the telegram type 7, and the drive's two lists.
/// - From where the check for phase 3 has been begun, and up to phase 3, each of these writes was answered without error, and nothing newer
///   writes to its identifier number.
/// - The same holds where that check has ended well, up to phase 3.
pub fn agenda_law()
    ensures tasks { BeginsTasks }
    ensures ended { EndsTasks }
    ensures none { BeginsNoneEarly }
    ensures turn { WorkInTurn }
    ensures two { WorksInTwo }
    ensures three { WorksInThree }
    ensures four { WorksInFour }
    ensures reads { ReadsWell }
    ensures data { WritesData }
    ensures check { ConfiguresFromCheck }
    ensures rise { ConfiguresAtRise }
{}

/// A law: each stop has its cause.
/// - With `NoFit` all reads have ended, and no plan fits what they gave.
/// - With `Refused` the drive has refused a request of the start-up with this code.
/// - With `BadConfig` an attribute was read that isn't that of a number; or by the attributes the data records are too long for an MDT, and
///   this is the last value of four bytes.
/// - With `Check127` that check is complete without having ended well, and the list has the first 64 identifier numbers that the drive gave
///   then. The requests to the drives must have numbers. Its check is the request after the reads and eleven writes.
/// - The same holds of `Check128` and the request after that.
pub fn stop_law()
    ensures no_fit { NoFitHasCause }
    ensures refused { RefusedHasCause }
    ensures bad_config { BadConfigHasCause }
    ensures check127 { Check127HasCause }
    ensures check128 { Check128HasCause }
{}

/// A law on the requests to one drive, through all falls and restarts. The second and the third statement require that the master is
/// restarted only at the start of a cycle, and the second one that the requests have numbers:
/// - The requests to a drive are of phase 4, and their numbers ascend.
/// - Those that were reported, then the one at work, then those that wait, are the requests to the drive in their order. So what is broken
///   isn't begun again.
/// - The numbers of what was reported rise, so each is reported at most once.
/// - A request that is reported as ended has ended so in this epoch.
/// - Exactly what is reported of the drives at the end of a cycle joins its events.
/// - So it is at a restart.
pub fn report_law()
    ensures requests { AreRequests }
    ensures in_order { TellsInOrder }
    ensures once { TellsOnce }
    ensures right { TellsRight }
    ensures events { AreTold }
    ensures restart { AreToldAtRestart }
{}
