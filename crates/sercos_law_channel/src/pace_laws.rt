// Laws on how long a service channel takes.
ghost use Rattle.std.specs.Prelude.{ℕ};
ghost use Rattle.sercos_law_channel.specs.Clauses.{AreOnTime, AnswersOnTime, TakesTime, ComesInTime, TakesTimeSince, StandsThroughout, StaysClean, HearsThroughout, IsCleanOrDown, RecoversInTime, StaysDead, SpacesSteps, StaysInCost, OpensInCost, ComesTimed, CostsRequests, WordReadCosts, AttributeCosts, ListReadCosts, WordWriteCosts, ListWriteCosts, ReadsCost, WritesCost, RequestCosts, AgesInTime, AgesWhereDead, AnswersAtAge, OpensAlways, KeepsTime, StartsInCost, RecoversInCost, RecoversSince, StaysARun, CallsBegin, AgesAreThose, AgesBeforeEnd, NoneLate, PassesBySetting, PassesLast, StaysPassed, StaysPassedLast};

/// A law, without code, over an epoch in which nothing is lost: if a step is open at the start of a cycle, the master hears the drive's AT,
/// and if one is open at its end, the drive processes the record:
/// - The cycles in which a step was open are the busy time and one for each answer, and those since the open step was accepted.
/// - An answer arrives busy time and one cycle after the cycle in which the drive accepted its step.
/// - So the cycles in which a step was open are at most busy time and one for each step that was begun.
pub fn time_law()
    ensures on_time { (busy : ℕ) → AreOnTime busy }
    ensures answers { (busy : ℕ) → AnswersOnTime busy }
    ensures time { (busy : ℕ) → TakesTime busy }
{}

/// A law, without code, over a stretch of cycles in which nothing is lost, as in [`time_law`], and the master neither falls nor restarts,
/// regardless of the cycles before:
/// - After one cycle or more the cycles in which a step was open are at most busy time and one for each answer, and those since the open
///   step was accepted. A step that was open before the stretch counts as one of it.
/// - So they are at most busy time and one for each step begun that had no answer before the stretch.
/// - No step gets older than busy time and one cycle. A step that was open before the stretch adds its age then.
/// - From phase 0 of an epoch on, an answer arrives exactly busy time and one cycle after the cycle in which its step was begun, if the
///   master doesn't restart in the cycle of the answer.
/// - Also if something is lost: if a step is open at the end of each cycle of a stretch, the cycles with an open step are all of it.
/// - In an epoch in which nothing is lost, after a cycle at whose end no step is open, such a channel keeps time to the cycle: the cycles
///   of the stretch are busy time and one for each answer, and those since the open step was accepted.
pub fn stretch_law()
    ensures in_time { (busy : ℕ) → ComesInTime busy }
    ensures since { (busy : ℕ) → TakesTimeSince busy }
    ensures ages { (busy : ℕ) → AgesInTime busy }
    ensures answers { (busy : ℕ) → AnswersAtAge busy }
    ensures always { OpensAlways }
    ensures keeps { (busy : ℕ) → KeepsTime busy }
{}

/// A law, without code, over whole cycles: nothing restarts, the master doesn't fall at the end, it sends the drive a record if a step is
/// open, in phases 3 and 4 always, and every telegram that is sent arrives. In phases 3 and 4, and before if a step is open and a record
/// arrived in the cycle before, the master hears the drive, unless it is in phase 0. The first three statements hold from phase 0 of an
/// epoch on, if the check for a commanded phase 3 or 4 counts as passed while the drive is in the phase below. The last two hold in any
/// cycle of a run:
/// - The drive is in the commanded phase in every cycle.
/// - Nothing is lost.
/// - The master hears the drive in every cycle of phases 3 and 4.
/// - After any losses, a first whole cycle and only whole ones since, the drive is in phase 0 by now, or nothing was lost since the first.
/// - If it isn't in phase 0, the cycles with an open step since the first are at most busy time and one for each step begun that had no
///   answer by then.
/// - A drive in phase 0 stays there while 2 to 4 is commanded: the master receives nothing of it and takes no answer, and an open step
///   stays open.
/// - Then the open step gets older with each cycle without a fall or a restart of the master.
pub fn passage_law()
    ensures throughout { (busy : ℕ) → StandsThroughout busy }
    ensures clean { (busy : ℕ) → StaysClean busy }
    ensures hears { (busy : ℕ) → HearsThroughout busy }
    ensures down { (busy : ℕ) → IsCleanOrDown busy }
    ensures recovers { (busy : ℕ) → RecoversInTime busy }
    ensures dead { (busy : ℕ) → StaysDead busy }
    ensures ages { (busy : ℕ) → AgesWhereDead busy }
{}

/// A law on the cost of requests, in cycles. The drive must have the same blocks in each cycle, except for their operation data, with
/// factors of 16 bits, each request must be sound for them, no list may be longer than its bound, and a procedure command that runs must
/// have been set by the newest write to it, less than the time of a command ago. Cycles are whole as in [`passage_law`]:
/// - The steps that a drive accepts in an epoch are at least busy time and one apart. This holds in every run.
/// - A procedure command that runs was set so, if what is set when an MDT arrives was set at the end of the cycle before, and the drive's
///   commands have that time. So its status is read only a bounded number of times.
/// - The steps of an epoch cost no more than its requests.
/// - In a stretch as in [`stretch_law`], neither do the cycles with an open step, together with busy time and one for each answer before
///   the stretch.
/// - In whole cycles from phase 0 of an epoch on, with the checks passed, neither do the cycles with an open step, and no step gets older
///   than busy time and one cycle.
/// - After any losses, a first whole cycle and only whole ones since, the drive is in phase 0 by now, or the same holds since the first. A
///   step that was open at its end adds its age then.
/// - Then the cost of the recent requests is enough, if those before them had all their answers in that first cycle.
pub fn cost_law()
    ensures spaced { (busy : ℕ) → SpacesSteps busy }
    ensures timed { ComesTimed }
    ensures in_cost { (busy : ℕ) → StaysInCost busy }
    ensures opens { (busy : ℕ) → OpensInCost busy }
    ensures starts { (busy : ℕ) → StartsInCost busy }
    ensures recovers { (busy : ℕ) → RecoversInCost busy }
    ensures since { (busy : ℕ) → RecoversSince busy }
{}

/// A law on the cost of requests. A step costs busy time and one cycle:
/// - The cost of all requests begun is the sum over the requests.
/// - A read of operation data of one word costs four steps.
/// - A read of an attribute costs at most three.
/// - A read of a list costs five, and one for each word that it can have.
/// - A write of operation data of one word costs at most four.
/// - A write of a list of k words costs at most five and k.
/// - The reads of a start-up, six values of one word and the attributes of n identifier numbers, cost at most 24 and 3 n.
/// - The writes of a start-up, nine of one word and two lists of k and m words, and its procedure command cost at most 50, k and m, and the
///   time of a command.
/// - Any request costs at most busy time and two cycles for each of 520 steps and each cycle of the time of a command, if a write has at
///   most 1,024 bytes, and no list can have more than 512 words.
pub fn jobs_law()
    ensures requests { CostsRequests }
    ensures word_read { (busy : ℕ) → WordReadCosts busy }
    ensures attribute { (busy : ℕ) → AttributeCosts busy }
    ensures list_read { (busy : ℕ) → ListReadCosts busy }
    ensures word_write { (busy : ℕ) → WordWriteCosts busy }
    ensures list_write { (busy : ℕ) → ListWriteCosts busy }
    ensures reads { (busy : ℕ) → ReadsCost busy }
    ensures writes { (busy : ℕ) → WritesCost busy }
    ensures request { (busy : ℕ) → RequestCosts busy }
{}

/// A law on the calls of the master's channel in a run:
/// - A run's newest cycle without its fall makes a run too.
/// - The calls are allowed, and yield the requests that were begun in the epoch.
/// - If each open step is sent, the channel counts the age of the open step at the end of a cycle.
/// - Before the end of the cycle it counts one less.
/// - From phase 0 of an epoch on, in cycles that are whole as in [`passage_law`], but for a fall of the newest, with the checks passed, the
///   channel counts no more than the busy time before a cycle's end, and the drive is heard in phases 3 and 4. So no fall is caused by it.
pub fn calls_law()
    ensures stays { (busy : ℕ) → StaysARun busy }
    ensures begin { (busy : ℕ) → CallsBegin busy }
    ensures ages { (busy : ℕ) → AgesAreThose busy }
    ensures before { (busy : ℕ) → AgesBeforeEnd busy }
    ensures late { (busy : ℕ) → NoneLate busy }
{}

/// A law on the checks for phases 3 and 4, S-0-0127 and S-0-0128, each of which is a procedure command of the drive:
/// - The check for phase 3 that isn't set and would end well counts as passed from its end on, if it is set; that is at most the time of a
///   command later.
/// - So does the check for phase 4, under the same premises.
/// - A cancel of the check for phase 3, once it counts as passed, leaves it so.
/// - So does a cancel of the check for phase 4.
pub fn passes_law()
    ensures setting { PassesBySetting }
    ensures last { PassesLast }
    ensures stays { StaysPassed }
    ensures stays_last { StaysPassedLast }
{}
