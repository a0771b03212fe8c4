// Laws on what a drive is and does, by what arrived at it.
ghost use Rattle.sercos_law_run.specs.Clauses.{FallsHaveCause, MstComesFirst, EmptyKeepsTimes, FitInThree, AlwaysLies, FitInFour, ListsAreFound, StandsByMst, RisesByOne, DropsByCause, AlwaysPlain, SendsAlone};

use crate::typed_laws::typed_law;

/// A law on the store of a drive whose own blocks are valid, and whose blocks at opening keep the rules of a store, whatever the drive was
/// handed and whatever was written to it:
/// - A store in which the check for phase 3 finds nothing keeps these times: T1 is at least T1min; from the end of the drive's AT, as long
///   as it can be, to T2 there is TATMT; T3 lies in the cycle, and T4 with T4min; the data record lies within the MDT.
/// - In phases 3 and 4 that check finds nothing in the drive's store.
/// - So there a drive gets its record of each MDT to all drives that has the right address and the length in S-0-0010.
/// - In phase 4 no block has operation data outside its limits.
/// - S-0-0021 and S-0-0022 contain what their check found when it was last set while it wasn't, and nothing before.
pub fn fit_law()
    ensures times { EmptyKeepsTimes }
    ensures three { FitInThree }
    ensures lies { AlwaysLies }
    ensures four { FitInFour }
    ensures lists { ListsAreFound }
{}

/// A law on the phase of a drive, whatever the drive was handed:
/// - If it isn't 0, it is that of the MST that the drive got in this cycle, or of the one in the cycle before if it got none in this one.
/// - A call leaves it as it is, or takes the drive to phase 0, or lets it rise by one: by an MST of the next phase, and into 3 and 4 only
///   if the check for that phase counts as passed.
/// - It goes to 0 exactly for these causes: an MST of a phase that the drive can't take; no MST for the second time in a row; in phases 3
///   and 4 no MDT taken for the second time in a row, as none is taken in a cycle without an MST; a restart.
pub fn phase_law()
    ensures stands { StandsByMst }
    ensures rises { RisesByOne }
    ensures drops { DropsByCause }
{}

/// A law on each cycle of a ring that may be opened with its requests, over every link:
/// - The statements of `fit_law` on times and limits, and of `phase_law` on the phase, hold of each drive before the MST's place, where it
///   may restart, after it, and after the MDT's place, whatever arrives, undetected damage too.
/// - As long as nothing was undetected, in a cycle commanded 0, 1 or 2 at most one AT is sent: by the drive that the MDT of the cycle
///   before was addressed to, and none with phase 0.
pub fn station_law()
    ensures plain { AlwaysPlain }
    ensures alone { SendsAlone }
{
    typed_law();
}

/// A law over every run of a ring that may be opened with its requests, over every link and whatever arrives. Each reported fall has its
/// cause. `MstLost`: the own MST didn't come back as it was sent in this cycle, nor in the one before, both of phase 1 to 4. `AtLost`: in
/// this cycle and in the one before, both of phase 3 or 4, no AT that arrived reads as that drive's. `StepLimit`: in phase 1 the MDT was to
/// that drive in this cycle and in the 64 before it, and no longer; later a step to it was first sent 64 cycles ago, and no answer has been
/// taken since. `Restart`: the master restarts in this cycle. And the cause of `MstLost` makes the ring fall, and is the one that is
/// reported; that the other causes do, in which order, is how a master is defined (`fall_of`).
pub fn fall_law()
    ensures causes { FallsHaveCause }
    ensures first { MstComesFirst }
{}
