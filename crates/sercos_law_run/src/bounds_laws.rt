// The bounds on the cycles of a start-up, a refusal, requests and a recovery.
ghost use Rattle.sercos_law_run.specs.Clauses.{FewWrites, FewStatuses, IsStarted, IsRefusedEarly, IsRefusedLate, IsReported, IsBackAtOnce, IsBackLater, AreSections, IsBelowGreatest};

/// A law on the bounds of this profile, in cycles: `startup_bound` of `sercos_block`, and the others of `Bounds.antt`. The premises are
/// bounds on each part:
/// - If a procedure command is read at most once more than while it runs, the writes of phase 2 and their command fit into `write_cycles`.
/// - So does the command of phase 3 into `command_cycles`.
/// - If no part of a start-up takes longer than the answers of its requests, phase 4 begins within `startup_bound`.
/// - A stop in phase 2 is within that bound, too.
/// - A stop in phase 3 is at most 41 answers of the slowest drive later, of busy time and two cycles each.
/// - Each request from phase 4 on, of at most 517 answers or those of a command, adds the cycles that this profile allows it: busy time and
///   two for each of 520 steps and each cycle of the drive's command time.
/// - After the last disturbed cycle a ring with a drive is back, or refused, within `recovery_bound`, if no fall follows.
/// - So it is if a fall follows because a drive was in phase 0. No drive may be busy for more than 20 cycles.
/// - The reads and the writes of a drive each fit into the longer of its two sections of phase 2.
/// - Commands that run side by side take as long as the longest.
pub fn bound_law()
    ensures writes { FewWrites }
    ensures statuses { FewStatuses }
    ensures started { IsStarted }
    ensures refused_early { IsRefusedEarly }
    ensures refused_late { IsRefusedLate }
    ensures reported { IsReported }
    ensures at_once { IsBackAtOnce }
    ensures later { IsBackLater }
    ensures sections { AreSections }
    ensures greatest { IsBelowGreatest }
{}
