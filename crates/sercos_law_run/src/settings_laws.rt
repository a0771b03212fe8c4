// Laws on the procedure commands that a drive was set to.
ghost use Rattle.std.specs.Prelude.{ℕ};
ghost use Rattle.sercos_law_run.specs.Clauses.{IsSetByWrites, SetByKept, StayWell, ChecksGive3};

/// A law on the settings of a drive's procedure commands in a run:
/// - If at each MST's place the settings are those that the cycle before left, or none after phase 0 or a restart, they are what the
///   records since the drive was last in phase 0 left.
/// - Then a block is set if the newest write to it by these records isn't 0, and it was a procedure command at each of them.
/// - If at each MST's place no command is set, or those are that the cycle before left, and each check for phase 3 finds nothing in the
///   blocks as the write that sets it leaves them, each that is set ends well.
/// - Then each complete check for phase 3 of the epoch returns 3. The settings must be as in the first statement, the drive's blocks the
///   same in each cycle but for their operation data, the requests sound for them, and the check a procedure command in each cycle.
pub fn settings_law()
    ensures kept { SetByKept }
    ensures set { IsSetByWrites }
    ensures well { StayWell }
    ensures three { (busy : ℕ) → ChecksGive3 busy }
{}
