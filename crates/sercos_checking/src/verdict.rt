// The verdict on a capture, and its line.
ghost use Rattle.std.specs.Prelude.{◌≡◌, ◌≤◌, ◌+◌, ◌++◌, length, decimal};
ghost use Rattle.sercos_checking.specs.Clauses.{name_with, violation_text, clean_text, verdict_text, verdict_status, verdict_on};

use itoa::Buffer;
use sercos_bits::ByteList;
use sercos_check::{Rule, Trouble};
use sercos_io::Status;

/// The verdict of `check` on a capture. Lines are counted from 1.
#[derive(Clone, Copy, Debug, PartialEq, Eq)]
pub enum Verdict {
    /// A text is not a line of a trace, or a line can't follow those before it, or the head ends early.
    Refused {
        /// The line; one past the last line if the head ends early.
        line: u32,
        /// The column as `BadLine` of `sercos_trace` has it; 1 if the line can't follow.
        column: usize,
    },
    /// A telegram breaks a rule.
    Violation {
        /// Its line.
        line: u32,
        /// The number of the lowest [`Rule`] that it breaks.
        rule: u8,
    },
    /// Each line can follow and breaks no rule.
    Clean {
        /// The number of lines.
        lines: u32,
    },
}

/// Returns a checker's trouble as a verdict. The column is 1 because no single byte is at fault: the line has the form of a line but can't
/// follow those before it, or it is missing because the head ends early.
#[tactic(auto, unfolding(crate::specs::Taken::verdict_on))]
pub fn verdict_on(trouble: Trouble) -> Verdict
    ensures { result ≡ verdict_on trouble }
{
    match trouble {
        Trouble::Grammar { line } => Verdict::Refused { line, column: 1 },
        Trouble::Violation { line, rule } => Verdict::Violation { line, rule },
    }
}

/// Returns the status with which `check` ends: `Refused` for a refused capture, `No` for a violation, and `Done` for a clean capture.
#[tactic(auto, unfolding(crate::specs::Checking::verdict_status))]
pub fn verdict_status(verdict: Verdict) -> Status
    ensures { result ≡ verdict_status verdict }
{
    match verdict {
        Verdict::Refused { .. } => Status::Refused,
        Verdict::Violation { .. } => Status::No,
        Verdict::Clean { .. } => Status::Done,
    }
}

/// The line of a verdict: its texts have at most 33 bytes, its numbers at most 40.
pub type VerdictLine = ByteList<96>;

// Appends a text and a number in decimal, at most 20 bytes more than the text. The line has room for as many.
fn push_place(text: &str, number: u64, line: &mut VerdictLine)
    requires { length line.old + length text.now + 20 ≤ 96 }
    ensures value { line.new ≡ line.old ++ text.now ++ decimal number }
    ensures bound { length line.new ≤ length line.old + length text.now + 20 }
{
    let mut buffer = Buffer::new();
    line.append_within(text.as_bytes());
    line.append_within(buffer.format(number).as_bytes());
}

// Returns the name of the rule with a number, at most 10 bytes; an empty text if no rule has it.
#[tactic(auto, unfolding(crate::specs::Checking::name_with))]
fn name_with(number: u8) -> &'static str
    ensures value { result.now ≡ name_with number }
    ensures bound { length result.now ≤ 10 }
{
    match Rule::of_number(number) {
        Some(rule) => rule.name(),
        None => "",
    }
}

// Appends to an empty line `violation line N rule R NAME` and a line feed, where N is the number of the line, counted from 1, and R the
// rule.
#[tactic(auto, unfolding(crate::specs::Checking::violation_text))]
fn push_violation(number: u32, rule: u8, line: &mut VerdictLine)
    requires { length line.old ≡ 0 }
    ensures { line.new ≡ line.old ++ violation_text number rule }
{
    push_place("violation line ", u64::from(number), line);
    push_place(" rule ", u64::from(rule), line);
    line.push_within(b' ');
    line.append_within(name_with(rule).as_bytes());
    line.push_within(b'\n');
}

/// Returns the line of a verdict, with its line feed: `refused line N column C`, `violation line N rule R NAME`, or `clean N` with the
/// number of lines.
#[tactic(auto, unfolding(crate::specs::Checking::verdict_text, crate::specs::Checking::clean_text))]
pub fn verdict_line(verdict: Verdict) -> VerdictLine
    ensures { result ≡ verdict_text verdict }
{
    let mut line = VerdictLine::new();
    match verdict {
        Verdict::Refused {
            line: number,
            column,
        } => {
            push_place("refused line ", u64::from(number), &mut line);
            push_place(" column ", column as u64, &mut line);
            line.push_within(b'\n');
        },
        Verdict::Violation { line: number, rule } => push_violation(number, rule, &mut line),
        Verdict::Clean { lines } => {
            push_place("clean ", u64::from(lines), &mut line);
            line.push_within(b'\n');
        },
    }
    line
}
