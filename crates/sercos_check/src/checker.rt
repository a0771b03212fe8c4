// The checker of captures.
ghost use Rattle.std.specs.Prelude.{◌≡◌, ℕ, ◌+◌, ◌^◌, ◌<◌, ◌↔◌, List, [], ◌∷◌, length, Some, option_map, IsOk, IfOk, IfErr, IfSome, IfNone};
ghost use Rattle.sercos_check.specs.Clauses.{result_ok, result_err, Line, Trouble, CanFollow, HeadStandsFor, IsReady, rule_number, rule_broken, IsClean, IsFault, IsTrouble, IsWhole, IsRefused, IsNext, AreSeen, CheckerStandsFor};

use crate::drives::found_for;
use crate::rule::Rule;
use crate::seen::Seen;
use crate::shape::Head;
use crate::trouble::Trouble;
use sercos_trace::Line;
use std::marker::Model;

/// Checks the lines of a capture one by one, without taking memory. Contracts relate it to the list of the lines checked since it was made,
/// the newest first.
#[derive(Drop)]
pub struct Checker {
    head: Head,
    seen: Seen,
    // the number of lines checked
    lines: u32,
    // the first trouble among them
    trouble: Option<Trouble>,
}

impl Model for Checker {
    ghost use Rattle.std.specs.Prelude.{◌≤◌};
    ghost use Rattle.sercos_check.specs.Verdicts.{CheckerState};

    ghost Value = { CheckerState };

    ghost view = { λ c. record { head = c.head; seen = c.seen; lines = c.lines; trouble = c.trouble } };

    ghost invariant = { λ c. c.lines ≤ 2147483648 };
}

// Notes a line that can follow the lines so far. `head` has this line already; if it is a telegram, the head must be complete and the
// totals not read. Returns the lowest rule that it breaks; `None` if it breaks none, or isn't a telegram. Afterwards `seen` is that of the
// lines with it.
fn keep(head: &Head, seen: &mut Seen, line: &Line) -> Option<Rule>
    requires { IsReady head.now line.now }
    ensures rule { (lines : List Line) → HeadStandsFor head.now (line.now ∷ lines) → CanFollow lines line.now → AreSeen seen.old lines → option_map rule_number result ≡ rule_broken lines line.now }
    ensures seen { (lines : List Line) → HeadStandsFor head.now (line.now ∷ lines) → CanFollow lines line.now → AreSeen seen.old lines → AreSeen seen.new (line.now ∷ lines) }
{
    match line {
        Line::Telegram { cycle, sent } => {
            let wishes = head.wishes();
            let found = found_for(wishes, sent);
            let rule = seen.broken(wishes, *cycle, sent, &found);
            seen.note(wishes, *cycle, sent, &found);
            rule
        }
        _ => None,
    }
}

// Checks and notes a line. `number` is that of the line, counted from 1. Returns the trouble with it: `Grammar` if it can't follow the
// lines so far, otherwise `Violation` if it breaks a rule. If the result is `None`, `head` and `seen` are those of the lines with it,
// otherwise they are unspecified.
fn take(head: &mut Head, seen: &mut Seen, line: &Line, number: u32) -> Option<Trouble>
    ensures fault { (lines : List Line) → HeadStandsFor head.old lines → AreSeen seen.old lines → number ≡ length lines + 1 → IfSome result (IsFault lines line.now) }
    ensures clean { (lines : List Line) → HeadStandsFor head.old lines → AreSeen seen.old lines → IfNone result (IsNext lines line.now head.new seen.new) }
{
    if !head.next(line) {
        return Some(Trouble::Grammar { line: number });
    }
    match keep(head, seen, line) {
        Some(rule) => {
            let rule = rule.number();
            Some(Trouble::Violation { line: number, rule })
        }
        None => None,
    }
}

impl Checker {
    /// Returns a checker that has checked no line.
    pub fn new() -> Checker
        ensures lines { result.lines ≡ 0 }
        ensures stands { CheckerStandsFor result [] }
    {
        Checker {
            head: Head::new(),
            seen: Seen::new(),
            lines: 0,
            trouble: None,
        }
    }

    /// Checks the next line of a capture, of at most 2^31 lines. The error is the first trouble among the lines so far: a line that can't
    /// follow those before it, or a telegram that breaks a rule (this profile). An incomplete head is not an error yet. After an error each
    /// further call returns the same one.
    pub fn line(&mut self, line: &Line) -> Result<(), Trouble>
        requires { self.old.lines < 2 ^ 31 }
        ensures lines { self.new.lines ≡ self.old.lines + 1 }
        ensures stands { (lines : List Line) → CheckerStandsFor self.old lines → CheckerStandsFor self.new (line.now ∷ lines) }
        ensures ok { (lines : List Line) → CheckerStandsFor self.old lines → (IsOk result ↔ IsClean (line.now ∷ lines)) }
        ensures err { (lines : List Line) → CheckerStandsFor self.old lines → IfErr result (IsTrouble (line.now ∷ lines)) }
        ensures trouble { (lines : List Line) → CheckerStandsFor self.old lines → (t : Trouble) → IsTrouble (line.now ∷ lines) t → result_err result ≡ Some t }
    {
        self.lines += 1;
        if let Some(trouble) = self.trouble {
            return Err(trouble);
        }
        match take(&mut self.head, &mut self.seen, line, self.lines) {
            Some(trouble) => {
                self.trouble = Some(trouble);
                Err(trouble)
            }
            None => Ok(()),
        }
    }

    /// Returns the number of lines of a capture that ends here. The error is the first trouble among them. If there is none but the head is
    /// incomplete, it is `Grammar` at one past the last line.
    pub fn finish(&self) -> Result<u32, Trouble>
        ensures ok { (lines : List Line) → CheckerStandsFor self.now lines → IfOk result (IsWhole lines) }
        ensures whole { (lines : List Line) → CheckerStandsFor self.now lines → (n : ℕ) → IsWhole lines n → result_ok result ≡ Some n }
        ensures err { (lines : List Line) → CheckerStandsFor self.now lines → IfErr result (IsRefused lines) }
        ensures refused { (lines : List Line) → CheckerStandsFor self.now lines → (t : Trouble) → IsRefused lines t → result_err result ≡ Some t }
    {
        if let Some(trouble) = self.trouble {
            return Err(trouble);
        }
        if !self.head.is_whole() {
            return Err(Trouble::Grammar {
                line: self.lines + 1,
            });
        }
        Ok(self.lines)
    }
}
