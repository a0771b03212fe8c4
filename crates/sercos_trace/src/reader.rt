// A reader that keeps the newest line.
ghost use Rattle.std.specs.Prelude.{◌≡◌, ◌+◌, [], ◌∷◌, slice_index, option_map, Some, None, OnOk, OnErr, if◌then◌else◌};
ghost use Rattle.sercos_trace.specs.Clauses.{result_err, template_of, all_kinds, kinds_fault, line_by, line_in, telegram_kind, AreWithin, bounds_of};
ghost use Rattle.sercos_trace.specs.declared.reading.Line.TheVariants as line;

use crate::kind::{LineKind, read_kind};
use crate::reading::{BadLine, Line, line_of, number_at, telegram_line};
use sercos_telegram::Kind;
use sercos_text::Told;
use std::marker::Model;

/// Reads the lines of a trace one after the other, as [`read_line`](crate::read_line) does, and keeps the newest one. Its memory is reused
/// for each line, so that a telegram is copied once and never moved. Contracts see the newest line.
#[derive(Drop)]
pub struct Reader {
    told: Told,
    // the memory for telegrams, that for other lines, and which of them has the newest line
    telegram: Line,
    other: Line,
    is_telegram: bool,
}

impl Model for Reader {
    ghost use Rattle.std.specs.Prelude.{if◌then◌else◌};
    ghost use Rattle.sercos_trace.specs.declared.reading.Line.{Line};

    ghost Value = { Line };

    ghost view = { λ r. if r.is_telegram then r.telegram else r.other };
}

// Returns the kind of telegram that a line of this kind has; `None` for a line other than those of MSTs, ATs and MDTs.
#[tactic(auto, unfolding(crate::specs::Lines::telegram_kind))]
fn telegram_kind(kind: LineKind) -> Option<Kind>
    ensures { result ≡ telegram_kind kind }
{
    match kind {
        LineKind::Mst => Some(Kind::Mst),
        LineKind::At => Some(Kind::At),
        LineKind::Mdt => Some(Kind::Mdt),
        _ => None,
    }
}

// Makes `room` the line of a telegram of this kind, from its fields. If it is a telegram's already, only the bytes of the content are
// copied. `told` must have two unsigned numbers, of 32 bits.
fn put_telegram(room: &mut Line, kind: Kind, told: &Told)
    requires { AreWithin told.now.numbers.items (4294967295 ∷ 4294967295 ∷ []) }
    ensures { room.new ≡ line.Telegram (slice_index told.now.numbers.items 0) (record { kind = kind; start = told.now.signed; bits = slice_index told.now.numbers.items 1; content = told.now.bytes }) }
{
    match room {
        Line::Telegram { cycle, sent } => {
            *cycle = number_at(told, 0);
            sent.fill(kind, told.signed, number_at(told, 1), told.bytes.as_slice());
        }
        other => *other = telegram_line(kind, told),
    }
}

// Puts the line of a kind, from its fields, into `telegram` if it is a telegram's, otherwise into `other`. Returns whether it is a
// telegram's. Afterwards the one that is not used is unspecified. `told` must have the numbers of the kind's template, each within the
// range of its field.
#[tactic(auto, unfolding(crate::specs::Lines::telegram_kind, crate::specs::Lines::line_by, crate::specs::Lines::bounds_of, crate::specs::Lines::bound_by, crate::specs::Kinds::template_of, sercos_text::specs::Templates::field_of))]
fn keep(kind: LineKind, told: &Told, telegram: &mut Line, other: &mut Line) -> bool
    requires { AreWithin told.now.numbers.items (bounds_of (template_of kind)) }
    ensures { (if result then telegram.new else other.new) ≡ line_by kind told.now.numbers.items told.now.signed told.now.bytes told.now.addresses.items }
{
    match telegram_kind(kind) {
        Some(kind) => {
            put_telegram(telegram, kind, told);
            true
        }
        None => {
            *other = line_of(kind, told);
            false
        }
    }
}

impl Reader {
    /// Returns a reader that has read no line.
    pub fn new() -> Reader
        ensures { result ≡ line.Other }
    {
        Reader {
            told: Told::new(),
            telegram: Line::Other,
            other: Line::Other,
            is_telegram: false,
        }
    }

    /// Reads a line of a trace, without its line feed, and keeps it. The error is that of [`read_line`](crate::read_line); then the newest
    /// line is unchanged.
    pub fn read(&mut self, line: &[u8]) -> Result<(), BadLine>
        ensures ok { OnOk result (Some self.new ≡ line_in line.now) }
        ensures err { result_err result ≡ option_map (λ place. record { column = place + 1 }) (kinds_fault all_kinds line.now) }
        ensures stays { OnErr result (self.new ≡ self.old) }
    {
        match read_kind(line, &mut self.told) {
            Ok(kind) => {
                self.is_telegram = keep(kind, &self.told, &mut self.telegram, &mut self.other);
                Ok(())
            }
            Err(place) => Err(BadLine { column: place + 1 }),
        }
    }

    /// Returns the newest line; [`Line::Other`] if no line was read.
    pub fn line(&self) -> &Line
        ensures { result.now ≡ self.now }
    {
        if self.is_telegram {
            &self.telegram
        } else {
            &self.other
        }
    }
}
