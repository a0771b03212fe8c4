// A law on the telegrams of a cycle.
ghost use Rattle.sercos_law_run.specs.Clauses.{PlanKeepsApart, SendsSlots};

/// A law on the slots of a cycle, for a valid planner's input:
/// - If the drives hold the values of one plan that fits, and they and the master send by it, the slots are apart, and keep the times that
///   the drives declare, even if ATs are missing.
/// - If the slots are apart, so are the telegrams that are sent in them.
pub fn slot_law()
    ensures apart { PlanKeepsApart }
    ensures sends { SendsSlots }
{}
