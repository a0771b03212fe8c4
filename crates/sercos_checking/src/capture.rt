// The verdict on a capture.
ghost use Rattle.std.specs.Prelude.{◌≡◌, ◌<◌, ◌≤◌, ◌+◌, ◌^◌, List, ◌∷◌, length, map, IfNone};
ghost use Rattle.sercos_checking.specs.Clauses.{Line, Other, HasShape, can_follow, plain, CheckerStandsFor, read_as, column_of, verdict_of, HasTaken, verdict_after};

use crate::verdict::{Verdict, verdict_on};
use sercos_answer::cut_line;
use sercos_check::{Checker, shape_law, test_law};
use sercos_trace::{Line, Reader};

// Returns whether a line can follow those that the checker `shape` has taken, if each of these can follow those before it. The checker
// takes the line in any case. `shape` checks the shape alone: it takes a telegram as the line `other`, which is `Line::Other`, since a line
// is large and slow to make. It has taken fewer than 2^31 lines.
fn follows(shape: &mut Checker, line: &Line, other: &Line) -> bool
    requires lines { shape.old.lines < 2 ^ 31 }
    requires other { other.now ≡ Other }
    ensures value { (before : List Line) → CheckerStandsFor shape.old (map plain before) → HasShape before → result ≡ can_follow before line.now }
    ensures stands { (before : List Line) → CheckerStandsFor shape.old (map plain before) → CheckerStandsFor shape.new (map plain (line.now ∷ before)) }
{
    shape_law();
    test_law();
    match line {
        Line::Telegram { .. } => shape.line(other).is_ok(),
        _ => shape.line(line).is_ok(),
    }
}

// Gives the next line of a capture, `text`, without its line feed, to both checkers. Both must have taken the same lines before, fewer than
// 2^31, each of which can follow those before it, but `shape` each telegram among them as `other`, which is `Line::Other`. Returns the
// column, from 1 on, at which the line is refused: that of `read_line` of `sercos_trace` if it is no line of a trace, otherwise 1 if it
// can't follow those before it; `None` if it isn't refused. If it is refused, the checkers are unspecified. `reader` is used to read the
// line, and is unspecified afterwards.
fn take(
    shape: &mut Checker,
    rules: &mut Checker,
    reader: &mut Reader,
    other: &Line,
    text: &[u8],
) -> Option<usize>
    requires shape { shape.old.lines < 2 ^ 31 }
    requires rules { rules.old.lines < 2 ^ 31 }
    requires other { other.now ≡ Other }
    ensures column { (before : List Line) → HasTaken shape.old rules.old before → result ≡ column_of before text.now }
    ensures taken { (before : List Line) → HasTaken shape.old rules.old before → IfNone result (HasTaken shape.new rules.new (read_as text.now ∷ before)) }
{
    test_law();
    if let Err(bad) = reader.read(text) {
        return Some(bad.column);
    }
    let line = reader.line();
    if !follows(shape, line, other) {
        return Some(1);
    }
    // The checker keeps its first trouble.
    let _trouble = rules.line(line);
    None
}

// Returns the verdict after the last line, if no line was refused: `Refused`, one line past the last, at column 1, if the head ends early;
// otherwise `Violation` for the first line that breaks a rule; otherwise `Clean`. Both checkers must have taken all lines, but `shape` each
// telegram as `Line::Other`.
fn ended(shape: &Checker, rules: &Checker) -> Verdict
    ensures { (lines : List Line) → HasTaken shape.now rules.now lines → result ≡ verdict_after lines }
{
    shape_law();
    if let Err(trouble) = shape.finish() {
        return verdict_on(trouble);
    }
    match rules.finish() {
        Ok(lines) => Verdict::Clean { lines },
        Err(trouble) => verdict_on(trouble),
    }
}

/// Returns the verdict on a capture of at most 1,048,576 bytes. Two checkers take its lines together, and no line is kept: a fault of
/// grammar or shape is returned at once, a violation only after all lines were read.
pub fn verdict(text: &[u8]) -> Verdict
    requires { length text.now ≤ 1048576 }
    ensures { result ≡ verdict_of text.now }
{
    let mut shape = Checker::new();
    let mut rules = Checker::new();
    let mut reader = Reader::new();
    let other = Line::Other;
    let mut rest = text;
    let mut number = 1u32;
    while !rest.is_empty() {
        let (line, others) = cut_line(rest);
        if let Some(column) = take(&mut shape, &mut rules, &mut reader, &other, line) {
            return Verdict::Refused {
                line: number,
                column,
            };
        }
        rest = others;
        number += 1;
    }
    ended(&shape, &rules)
}
