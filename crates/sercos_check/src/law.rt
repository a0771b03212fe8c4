// How the shape of a capture and its rules are related.
ghost use Rattle.sercos_check.specs.Clauses.{TellsValid, TellsFollowing, ArePlainClean, ArePlainFaults, IsPlainHead, BreakRules, NumberRules};

use sercos_timing::valid_law;

/// A law on a checker that gets each telegram as [`Line::Other`](sercos_trace::Line::Other). Its verdict is that on the shape of the
/// capture alone:
/// - Such lines are clean iff each line of the capture can follow those before it.
/// - Their first trouble is the first line of the capture that can't follow those before it.
/// - Their head is complete iff that of the capture is.
/// - Lines of the right shape have no `Grammar` as their first trouble, so that they can only break rules.
///
/// So a first pass can find the first fault of shape, and a second one the first broken rule.
#[tactic(auto, using(crate::proofs::LawLemmas::plain_head))]
pub fn shape_law()
    ensures clean { ArePlainClean }
    ensures fault { ArePlainFaults }
    ensures head { IsPlainHead }
    ensures rules { BreakRules }
{}

/// A law: the computed tests agree with the relations of the contracts. The first one decides whether the planner's input is valid, the
/// second one whether a line can follow those before it. So the shape of a capture can be computed.
pub fn test_law()
    ensures valid { TellsValid }
    ensures follows { TellsFollowing }
{
    valid_law();
}

/// A law: the rule of a `Violation` that is the first trouble of a capture is the number of a [`Rule`](crate::Rule).
pub fn rule_law()
    ensures { NumberRules }
{}
