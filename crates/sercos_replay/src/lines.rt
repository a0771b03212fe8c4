// The lines of a capture.
ghost use Rattle.std.specs.Prelude.{◌≡◌, ℕ, ◌≤◌, ◌+◌, List, [], ◌∷◌, length, Option, Some, None};
ghost use Rattle.sercos_replay.specs.Clauses.{Kind, Line, rule_broken, IsClean, Clean, read_as, column_of, verdict_of, cycles_of, Station, ReplayStandsFor, IsGiven, kind_cycle, mst_cycle, lines_read, first_cycle, late, late_start};
ghost use Rattle.sercos_answer.specs.Lines.{lines_of};

use crate::law::capture_law;
use crate::station::Replay;
use sercos_answer::cut_line;
use sercos_check::test_law;
use sercos_telegram::Kind;
use sercos_trace::{Line, Reader, read_line};

// Returns `cycle` if the kind is that of an MST; `None` otherwise.
#[tactic(auto, unfolding(crate::specs::Stations::kind_cycle))]
fn kind_cycle(kind: Kind, cycle: u32) -> Option<u32>
    ensures { result ≡ kind_cycle kind cycle }
{
    match kind {
        Kind::Mst => Some(cycle),
        _ => None,
    }
}

// Returns the number of the cycle if the line is that of an MST; `None` otherwise.
fn mst_cycle(line: &Line) -> Option<u32>
    ensures { result ≡ mst_cycle line.now }
{
    match line {
        Line::Telegram { cycle, sent } => kind_cycle(sent.kind, *cycle),
        _ => None,
    }
}

// Returns the number of the cycle if the text is the line of an MST; `None` otherwise.
fn text_cycle(text: &[u8]) -> Option<u32>
    ensures { result ≡ mst_cycle (read_as text.now) }
{
    match read_line(text) {
        Ok(line) => mst_cycle(&line),
        Err(_) => None,
    }
}

// Returns the number of the cycle of a capture's first MST; `None` if the capture has no MST.
fn first_cycle(text: &[u8]) -> Option<u32>
    ensures { result ≡ first_cycle (lines_of text.now) }
{
    let mut rest = text;
    while !rest.is_empty() {
        let (line, others) = cut_line(rest);
        if let Some(cycle) = text_cycle(line) {
            return Some(cycle);
        }
        rest = others;
    }
    None
}

/// Returns the number of the cycle of a capture's first MST if it isn't 0; `None` if it is 0, or if the capture has no MST.
#[tactic(auto, unfolding(crate::specs::Replaying::late_start, crate::specs::Replaying::late))]
pub fn late_start(text: &[u8]) -> Option<u32>
    ensures { result ≡ late_start text.now }
{
    match first_cycle(text) {
        Some(cycle) => { if cycle == 0 { None } else { Some(cycle) } }
        None => None,
    }
}

// Reads the text of a clean line with `reader`, passes the line to a replay, and returns how many cycles begin with it, 0 or 1. The lines
// before must be clean. The line must have no fault of grammar or shape after them, and break no rule. Afterwards `reader` is unspecified.
fn give_text(replay: &mut Replay, reader: &mut Reader, text: &[u8]) -> u64
    ensures given { (before : List Line) → IsClean before → column_of before text.now ≡ None → rule_broken before (read_as text.now) ≡ None →
        IsGiven replay.old replay.new before (read_as text.now) result }
    ensures bound { result ≤ 1 }
{
    test_law();
    capture_law();
    match reader.read(text) {
        Ok(()) => {
            let line = reader.line();
            replay.give(line);
            u64::from(mst_cycle(line).is_some())
        }
        Err(_) => 0,
    }
}

/// Passes all lines of a capture, which must be clean, to a replay that was given none, and returns how many cycles they have. No line is
/// kept.
pub fn give_all(replay: &mut Replay, text: &[u8]) -> u64
    requires { (count : ℕ) × (verdict_of text.now ≡ Clean count) }
    ensures stands { (s : Station) → ReplayStandsFor replay.old s [] → ReplayStandsFor replay.new s (lines_read text.now) }
    ensures count { result ≡ length (cycles_of (lines_read text.now)) }
{
    let mut reader = Reader::new();
    let mut cycles = 0u64;
    let mut rest = text;
    while !rest.is_empty() {
        let (line, others) = cut_line(rest);
        cycles += give_text(replay, &mut reader, line);
        rest = others;
    }
    cycles
}
