// Laws on the values that the master writes to the drives in phase 2, and on what no write changes.
ghost use Rattle.sercos_law_run.specs.Clauses.{CarryAlike, AreAsLong, PlanPassesCheck, WritesKeep, BlocksKeep, WritesHold, RefuseAlike, RefusesCycle, TakesStartUp, NamesOwn, PassesForPhase4, BuiltInIsSteady, StayHeld, HoldsNext, ListsStay, StartUpIsProtected, ChecksAreProtected, StoresStartUpWhole, OwnStay, OwnAtOpening, CausesAlike, ChecksEndWell, CycleCause, ListHasNoCause, NumberHasNoCause, StopsWithList, RingIsValid, AsksAsRing, SaysLength, NoAttributeStops, TypedHaveFactors, WritesStartUp, HoldsPlan, RingKeepsApart, RingSendsApart};

/// A law on a drive whose own blocks are valid, and its store, regardless of what was written:
/// - What an identifier number adds to a telegram is the same by the store and by the drive's description.
/// - So are the lengths of AT and data record, if the store has the drive's lists.
/// - If the drive, of a valid ring with a valid planner's input, holds the start-up values of a plan that fits, its check for phase 3 finds
///   nothing.
pub fn start_up_law()
    ensures carry_alike { CarryAlike }
    ensures as_long { AreAsLong }
    ensures passes { PlanPassesCheck }
{}

/// A law on the store of a drive whose own blocks are valid. In the first two statements its blocks must ascend by identifier number, and
/// in those on the check for phase 4 they must keep the rules of a store:
/// - A write that isn't refused leaves the store that of the drive. So does a check that writes its list.
/// - So does all that a step on the service channel makes of the store.
/// - After a write, its block has the bytes, and each other block has what it had.
/// - Regardless of what was written, the same writes are refused as at opening, with the same codes.
/// - In phase 2 the cycle time is refused iff it is outside the drive's limits: with 0x7006 if it is below them, with 0x7007 if it is
///   above.
/// - None of the other start-up values is refused in phase 2, if no list has more than 16 entries.
/// - With a cycle time within the limits, the check for phase 4 names exactly those of the drive's own blocks that are outside their
///   limits.
/// - So it finds nothing iff there is none.
/// - The operation data of a built-in block are the same in every cycle until they are written.
pub fn store_of_law()
    ensures keep { WritesKeep }
    ensures blocks { BlocksKeep }
    ensures hold { WritesHold }
    ensures alike { RefuseAlike }
    ensures cycle { RefusesCycle }
    ensures taken { TakesStartUp }
    ensures names { NamesOwn }
    ensures passes { PassesForPhase4 }
    ensures steady { BuiltInIsSteady }
{}

/// A law on the start-up values and the store of a drive whose own blocks are valid. In the third statement its blocks must ascend by
/// identifier number:
/// - If the store holds the first n values, and the next one is written, it holds the first n + 1.
/// - A write to another block leaves the values as they are.
/// - A list of a check leaves the store that of the drive, and the values, none of which is S-0-0021 or S-0-0022.
/// - The blocks of the values are write protected in phases 3 and 4, and not in phase 2.
/// - The check for phase 3 can be set in phase 2 alone, and that for phase 4 in phase 3 alone.
/// - What a write of a value leaves in its block is the value itself.
pub fn held_values_law()
    ensures next { HoldsNext }
    ensures stay { StayHeld }
    ensures lists { ListsStay }
    ensures protected { StartUpIsProtected }
    ensures checks { ChecksAreProtected }
    ensures whole { StoresStartUpWhole }
{}

/// A law on which of a drive's own blocks are outside their limits. In the second statement they must be valid:
/// - A write to a built-in block, and a list of a check, leave them the same. So they are the same during the whole start-up.
/// - At opening there is one iff a block of the drive's description is outside its limits.
pub fn own_block_law()
    ensures stay { OwnStay }
    ensures opening { OwnAtOpening }
{}

/// A law on refusals and checks at a drive whose own blocks are valid. In the last two statements its blocks must keep the rules of a
/// store:
/// - Regardless of what was written, each word of a write on the service channel is refused as at opening, with the same code.
/// - In phase 2 the word of the cycle time is refused iff it is outside the drive's limits: with 0x7006 if it is below them, with 0x7007 if
///   it is above.
/// - In phase 2 the one word of any other start-up value isn't refused.
/// - Nor is a word of its lists, of at most 16 identifier numbers.
/// - A valid ring's planner input is valid, if no list of a drive has more than 16 entries.
/// - If a drive of a valid ring with a valid planner's input holds the start-up values of a plan that fits, its check for phase 3 ends
///   well. With a cycle time within its limits, its check for phase 4 ends well iff none of its own blocks is outside its limits.
/// - The stop after a failed check has the drive's whole list.
pub fn cause_law()
    ensures alike { CausesAlike }
    ensures cycle { CycleCause }
    ensures number { NumberHasNoCause }
    ensures list { ListHasNoCause }
    ensures valid { RingIsValid }
    ensures ends { ChecksEndWell }
    ensures whole { StopsWithList }
{}

/// A law on a valid ring. If each drive has answered the first reads, the master's planner input is the ring's. The attribute that was read
/// determines how many bytes a block adds to a telegram, so no configured attribute stops the master. This holds if the conversion factors
/// of all the drives' blocks are below 65,536, as they are in blocks that keep their types' ranges. If the planner's input is valid and a
/// plan fits, what the master writes by it are the start-up values, and a drive that holds them holds the plan.
pub fn answer_law()
    ensures asks { AsksAsRing }
    ensures says { SaysLength }
    ensures stops { NoAttributeStops }
    ensures factors { TypedHaveFactors }
    ensures writes { WritesStartUp }
    ensures holds { HoldsPlan }
{}

/// A law on a valid ring with a valid planner's input and one plan that fits. Each drive that takes part, in phase 3 or 4, holds the plan's
/// start-up values for it. It sends an AT by them or none, and the master sends the MDT at the plan's T2, with a record for each drive:
/// - The slots in which it sends are apart, and keep the times that the drives declare, even if ATs are missing.
/// - So are the telegrams that are sent in these slots.
pub fn ring_slot_law()
    ensures apart { RingKeepsApart }
    ensures sends { RingSendsApart }
{}
