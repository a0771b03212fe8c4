// Laws on the two ends of a service channel.
ghost use Rattle.std.specs.Prelude.{◌≡◌, ℕ, List, ◌∷◌};
ghost use Rattle.sercos_law_channel.specs.Clauses.{Block, Processed, ahs, reply_of, log_of, is_odd, Hears, Begins, Takes, with_processed, ComeInTurn, FallIntoParts, HaveReplies, MakeTransfers, WritesOnce, WritesNothing, SetsAndCancels, RefusedAddsNothing, EndsWithStatus, RefusesUnknown, WritesNowhere, ReadsOnce, IsRun, Choice, run_by, AreSoundChoices, AreSound, StandsNoLater, StandsAsCommanded, StaysDown, ComesUp, KeepsUp, AcceptsInOrder, ProcessesInPhase, ComesToZero, BeginsEmpty, AreInStepInEpoch, AreInStepInCycle, IsOfEpoch, Handshake, RunsAreExact, HoldsNewest, StaysProtected, StaysQuiet, StaysFixed, StaysWritten};

/// A law on the moves of the two ends of a channel. If both are in step, each of these moves keeps them so:
/// - The master receives a status and an information word that show the drive's accepted steps.
/// - The master begins a request while no step is open.
/// - The drive processes a record that has what the master sends, whatever its answer is.
///
/// The drive's handshake bit is whether the number of steps that it accepted is odd. A record joins them, with the drive's reply to it, iff
/// its bit differs from that.
pub fn handshake_law()
    ensures hears { Hears }
    ensures begins { Begins }
    ensures takes { Takes }
    ensures bits { (h : List Processed) → ahs h ≡ is_odd (log_of h) }
    ensures joins { (t : Processed) (h : List Processed) → log_of (t ∷ h) ≡ with_processed t (reply_of t (log_of h)) (log_of h) }
{}

/// A law on the requests of a channel and the steps that the drive accepted:
/// - If the master's calls are allowed, so that it begins each request while no step is open, what it took for a request are answers to it.
/// - Then, if both ends are in step, what the drive has accepted falls into the parts of the requests, one after the other. Each part has
///   the steps of one request, as far as it got, with the answers that the master took.
/// - Each step of a part has the drive's reply to it, after the steps before it.
/// - Steps of a request with these replies, on blocks that stay except for their operation data, are a transfer. So the laws on transfers
///   hold of each part.
pub fn parts_law()
    ensures turn { ComeInTurn }
    ensures parts { FallIntoParts }
    ensures replies { HaveReplies }
    ensures transfers { MakeTransfers }
{}

/// A law on the transfer of a request, at a drive with these data blocks:
/// - A write of operation data adds one entry to the drive's writes, with its bytes, those of a number filled up with zeros to whole words,
///   and only with the step that completes it. The drive must have the block, with a factor of 16 bits.
/// - A read, and a write of another element, add none.
/// - A transfer to a data block that the drive lacks adds none.
/// - Such a transfer is refused at its opening, with the code 0x1001.
/// - A transfer that sets a procedure command adds the setting with its second step, if that isn't refused, and the cancel with the step
///   that completes it; nothing else.
/// - If such a transfer is refused, it adds nothing, if the block is a procedure command that isn't write protected at the refusal, or was
///   so at each step before.
/// - If it is complete, it returns the data status of the last step that reads it.
/// - A complete read of an element, 1 to 7, of a block that the drive has, with a factor of 16 bits, returns the element's bytes of the one
///   cycle in which the drive accepted the selection of the element. For 2 to 7 its blocks must keep the rules of a store then.
pub fn transfer_law()
    ensures writes_once { WritesOnce }
    ensures writes_nothing { WritesNothing }
    ensures writes_nowhere { WritesNowhere }
    ensures refuses_unknown { RefusesUnknown }
    ensures sets_and_cancels { SetsAndCancels }
    ensures refused_adds_nothing { RefusedAddsNothing }
    ensures ends_with_status { EndsWithStatus }
    ensures reads_once { ReadsOnce }
{}

/// A law, without code, over a whole run of one drive and the master: regardless of losses, through all falls, epochs, resets and restarts
/// of either end:
/// - The drive is in no higher phase than the later one commanded in a cycle or the one before.
/// - A drive that gets the MST is then in the commanded phase, or in phase 0.
/// - A record is processed in the cycle in which it arrives, in the phase commanded in it, which is 2 or above.
/// - While 2 to 4 is commanded, a drive in phase 0 stays there.
/// - While 0 or 1 is commanded, a drive that gets the MST is in that phase.
/// - A drive in the commanded phase or in the one below, with the check for the commanded one passed if that is 3 or 4, is in the commanded
///   phase from the MST to the end of a cycle in which it doesn't restart, gets the MST, and in phases 3 and 4 its record.
/// - The drive accepts at most one step in a cycle.
/// - From the second cycle in a row commanded 0 on it is in phase 0.
/// - While 0 or 1 is commanded next, nothing was begun or accepted in the epoch.
/// - After every cycle both ends are in step over the epoch, also if the drive has fallen since.
/// - So they are in a cycle at whose end the master falls.
/// - In a cycle commanded 1 or later, a drive that isn't in phase 0 at its end has since its reset accepted what it accepted in the epoch.
/// - In a cycle commanded 2 to 4, at whose end the drive is in phase 2 or above, both ends are in step over that, too: no step is accepted
///   twice, and no answer is taken for that to another step.
/// - There is a run for any choices.
/// - If in each cycle chosen the drive has the same blocks, except for their operation data, and each request chosen is sound for them, the
///   run is so.
pub fn run_law()
    ensures no_later { StandsNoLater }
    ensures commanded { StandsAsCommanded }
    ensures in_phase { ProcessesInPhase }
    ensures down { StaysDown }
    ensures up { (busy : ℕ) → ComesUp busy }
    ensures keeps_up { KeepsUp }
    ensures order { AcceptsInOrder }
    ensures zero { (busy : ℕ) → ComesToZero busy }
    ensures empty { (busy : ℕ) → BeginsEmpty busy }
    ensures epoch { (busy : ℕ) → AreInStepInEpoch busy }
    ensures cycle { (busy : ℕ) → AreInStepInCycle busy }
    ensures of_epoch { (busy : ℕ) → IsOfEpoch busy }
    ensures handshake { (busy : ℕ) → Handshake busy }
    ensures made { (busy : ℕ) (choices : List Choice) → IsRun busy (run_by busy choices) }
    ensures sound { (busy : ℕ) (blocks : List Block) (choices : List Choice) → AreSoundChoices blocks choices → AreSound blocks (run_by busy choices) }
{}

/// A law over a whole run, through all epochs: the requests in the order begun, the steps that the drive accepted, and its writes go side
/// by side, transfer by transfer. The drive must have the same blocks in each cycle, except for their operation data, with factors of 16
/// bits, and each request must be sound for them. The steps of a transfer are accepted in one phase. Its writes are whole if it is
/// complete, none if it is refused, and the first of them if it is open or was broken. A complete read returns the element's bytes of the
/// one cycle in which the drive accepted the selection, if its blocks, but for a read of the data status, keep the rules of a store then. A
/// complete setting of a procedure command returns the data status of the last step that read it.
pub fn exact_law()
    ensures { (busy : ℕ) → RunsAreExact busy }
{}

/// A law over a whole run. The last two statements require that the drive has the same blocks in each cycle, except for their operation
/// data, and that each request is sound for them; the last one also that their factors have 16 bits:
/// - A block other than S-0-0021 and S-0-0022 holds what was written to it last, and its first value if nothing was.
/// - In a cycle commanded a phase in which a block is write protected, nothing is written to it. The drive must have the same blocks,
///   except for their operation data.
/// - Nothing is written in a cycle commanded 0 or 1.
/// - Nothing is ever written to a fixed block.
/// - What a complete write of the epoch wrote stays the newest write to its block as long as no later request writes to it, whether or not
///   the drive has fallen or restarted since.
pub fn values_law()
    ensures newest { HoldsNewest }
    ensures protected { StaysProtected }
    ensures quiet { StaysQuiet }
    ensures fixed { StaysFixed }
    ensures written { (busy : ℕ) → StaysWritten busy }
{}
