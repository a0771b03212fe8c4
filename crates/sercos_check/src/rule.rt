// The nine rules for the telegrams of a capture, by number and by name.
ghost use Rattle.std.specs.Prelude.{◌≡◌, ◌≤◌, length, Some};
ghost use Rattle.sercos_check.specs.Clauses.{rule_number, rule_with, rule_name};

/// A rule for the telegrams of a capture (this profile).
#[derive(Clone, Copy, Debug, PartialEq, Eq)]
pub enum Rule {
    /// 1: the telegrams of a cycle, and the cycles, follow one another.
    Order,
    /// 2: the length is that of the frame of the content.
    Frame,
    /// 3: the content has the layout of its kind in this phase.
    Layout,
    /// 4: an MST commands the phase of the MST before, the next one, or phase 0.
    Phase,
    /// 5: a telegram starts when its kind may in this phase.
    Start,
    /// 6: an AT or MDT starts at least the gap after the telegram before it.
    Gap,
    /// 7: an AT starts at least its drive's TATAT after the last AT of the same slave.
    Recovery,
    /// 8: an MDT starts at least a drive's TATMT after its AT.
    Transition,
    /// 9: between an MDT and the next MST there is at least the gap, and at least each drive's TMTSY.
    End,
}

impl Rule {
    /// Returns the number of the rule, by which the lowest of several is reported.
    pub fn number(self) -> u8
        ensures value { result ≡ rule_number self }
        ensures back { rule_with result ≡ Some self }
    {
        match self {
            Rule::Order => 1,
            Rule::Frame => 2,
            Rule::Layout => 3,
            Rule::Phase => 4,
            Rule::Start => 5,
            Rule::Gap => 6,
            Rule::Recovery => 7,
            Rule::Transition => 8,
            Rule::End => 9,
        }
    }

    /// Returns the rule with a number; `None` if no rule has it.
    pub fn of_number(number: u8) -> Option<Rule>
        ensures { result ≡ rule_with number }
    {
        match number {
            1 => Some(Rule::Order),
            2 => Some(Rule::Frame),
            3 => Some(Rule::Layout),
            4 => Some(Rule::Phase),
            5 => Some(Rule::Start),
            6 => Some(Rule::Gap),
            7 => Some(Rule::Recovery),
            8 => Some(Rule::Transition),
            9 => Some(Rule::End),
            _ => None,
        }
    }

    /// Returns the name of the rule, as the line of a verdict has it: at most 10 bytes.
    #[tactic(auto, unfolding(crate::specs::Names::rule_name))]
    pub fn name(self) -> &'static str
        ensures value { result.now ≡ rule_name self }
        ensures bound { length result.now ≤ 10 }
    {
        match self {
            Rule::Order => "order",
            Rule::Frame => "frame",
            Rule::Layout => "layout",
            Rule::Phase => "phase",
            Rule::Start => "start",
            Rule::Gap => "gap",
            Rule::Recovery => "recovery",
            Rule::Transition => "transition",
            Rule::End => "end",
        }
    }
}
