// Reading one line of a trace. Where a function takes the fields read, `told` must have the numbers of the kind's template, each within the
// range of its field.
ghost use Rattle.std.specs.Prelude.{◌≡◌, ◌+◌, [], ◌∷◌, slice_index, option_map};
ghost use Rattle.sercos_trace.specs.Clauses.{result_ok, result_err, template_of, all_kinds, kinds_fault, wish_by, line_by, line_in, AreWithin, IsNumber, bounds_of, HasOneKind, ReadsBack};
ghost use Rattle.sercos_trace.specs.declared.kind.LineKind.TheVariants as kind;
ghost use Rattle.sercos_trace.specs.declared.reading.Line.TheVariants as line;

use crate::kind::{LineKind, read_kind};
use crate::record::Sent;
use sercos_bits::Content;
use sercos_telegram::Kind;
use sercos_text::{Addresses, Told, line_law};
use sercos_timing::{Times, Wish};

/// A line of a trace, as it is read. Lines of a cycle other than its telegrams have no fields here.
#[derive(Debug, Drop)]
pub enum Line {
    /// The version, the first line.
    Version,
    /// The numbers of the ring, the second line.
    Ring {
        /// The rate, in bits per microsecond.
        rate: u8,
        /// The cycle time, in microseconds.
        cycle: u16,
        /// The control unit cycle time, in microseconds.
        control: u16,
        /// The gap between telegrams, in microseconds.
        gap: u16,
        /// The number of drives.
        drives: u8,
    },
    /// The planner's input of a drive.
    Drive(Wish),
    /// The addresses in the order of the ATs.
    Order(Addresses),
    /// A telegram.
    Telegram {
        /// The cycle in which it was sent.
        cycle: u32,
        /// Its kind, start, length and content.
        sent: Sent,
    },
    /// Another line of a cycle.
    Other,
    /// The totals, the last line.
    End,
}

/// A text that is not a line of a trace.
#[derive(Clone, Copy, Debug, PartialEq, Eq)]
pub struct BadLine {
    /// The column of the first byte that doesn't fit, counted from 1; one past the end if a byte is missing, and for a number out of its
    /// range, or a byte or an address too many, that of its first digit.
    pub column: usize,
}

// Returns the number at an index of the fields read, for a field of 32 bits. There must be a number at the index.
pub(crate) fn number_at(told: &Told, index: usize) -> u32
    requires { IsNumber told.now.numbers.items index 4294967295 }
    ensures { result ≡ slice_index told.now.numbers.items index }
{
    told.numbers.as_slice()[index]
}

// Returns the number at an index of the fields read, for a field of 16 bits. There must be a number at the index, of at most 65535.
fn word_at(told: &Told, index: usize) -> u16
    requires { IsNumber told.now.numbers.items index 65535 }
    ensures { result ≡ slice_index told.now.numbers.items index }
{
    told.numbers.as_slice()[index] as u16
}

// Returns the number at an index of the fields read, for a field of 8 bits. There must be a number at the index, of at most 255.
fn byte_at(told: &Told, index: usize) -> u8
    requires { IsNumber told.now.numbers.items index 255 }
    ensures { result ≡ slice_index told.now.numbers.items index }
{
    told.numbers.as_slice()[index] as u8
}

// Returns the line of the ring's numbers, from its fields: five numbers, each within its field's range.
#[tactic(auto, unfolding(crate::specs::Lines::line_by))]
fn ring_line(told: &Told) -> Line
    requires { AreWithin told.now.numbers.items (255 ∷ 65535 ∷ 65535 ∷ 65535 ∷ 255 ∷ []) }
    ensures { result ≡ line_by kind.Ring told.now.numbers.items told.now.signed told.now.bytes told.now.addresses.items }
{
    Line::Ring {
        rate: byte_at(told, 0),
        cycle: word_at(told, 1),
        control: word_at(told, 2),
        gap: word_at(told, 3),
        drives: byte_at(told, 4),
    }
}

// Returns the times of a drive, in microseconds, from the fields of its line: ten numbers, each within its field's range.
fn times(told: &Told) -> Times
    requires { AreWithin told.now.numbers.items (255 ∷ 255 ∷ 65535 ∷ 65535 ∷ 65535 ∷ 65535 ∷ 65535 ∷ 65535 ∷ 65535 ∷ 65535 ∷ []) }
    ensures { result ≡ (wish_by told.now.numbers.items).times }
{
    Times {
        t1min: word_at(told, 2),
        tatmt: word_at(told, 3),
        t4min: word_at(told, 4),
        tatat: word_at(told, 5),
        tmtsy: word_at(told, 6),
        tmtsg: word_at(told, 7),
    }
}

// Returns the line of a drive, from its fields: ten numbers, each within its field's range.
#[tactic(auto, unfolding(crate::specs::Lines::line_by))]
fn drive_line(told: &Told) -> Line
    requires { AreWithin told.now.numbers.items (255 ∷ 255 ∷ 65535 ∷ 65535 ∷ 65535 ∷ 65535 ∷ 65535 ∷ 65535 ∷ 65535 ∷ 65535 ∷ []) }
    ensures { result ≡ line_by kind.Drive told.now.numbers.items told.now.signed told.now.bytes told.now.addresses.items }
{
    Line::Drive(Wish {
        address: byte_at(told, 0),
        slave: byte_at(told, 1),
        times: times(told),
        at_len: word_at(told, 8),
        record_len: word_at(told, 9),
    })
}

// Returns a telegram of this kind, from the fields of its line: two unsigned numbers, the start and the bytes. The first number, the cycle,
// is ignored.
fn telegram(kind: Kind, told: &Told) -> Sent
    requires { AreWithin told.now.numbers.items (4294967295 ∷ 4294967295 ∷ []) }
    ensures { result ≡ record { kind = kind; start = told.now.signed; bits = slice_index told.now.numbers.items 1; content = told.now.bytes } }
{
    let mut content = Content::new();
    content.assign(told.bytes.as_slice());
    Sent {
        kind,
        start: told.signed,
        bits: number_at(told, 1),
        content,
    }
}

// Returns the line of a telegram of this kind, from its fields: two unsigned numbers, the start and the bytes.
pub(crate) fn telegram_line(kind: Kind, told: &Told) -> Line
    requires { AreWithin told.now.numbers.items (4294967295 ∷ 4294967295 ∷ []) }
    ensures { result ≡ line.Telegram (slice_index told.now.numbers.items 0) (record { kind = kind; start = told.now.signed; bits = slice_index told.now.numbers.items 1; content = told.now.bytes }) }
{
    Line::Telegram {
        cycle: number_at(told, 0),
        sent: telegram(kind, told),
    }
}

// Returns the line of a kind, from its fields. `told` must have the numbers of the kind's template, each within the range of its field.
#[tactic(auto, unfolding(crate::specs::Lines::line_by, crate::specs::Lines::bounds_of, crate::specs::Lines::bound_by, crate::specs::Kinds::template_of, sercos_text::specs::Templates::field_of))]
pub(crate) fn line_of(kind: LineKind, told: &Told) -> Line
    requires { AreWithin told.now.numbers.items (bounds_of (template_of kind)) }
    ensures { result ≡ line_by kind told.now.numbers.items told.now.signed told.now.bytes told.now.addresses.items }
{
    match kind {
        LineKind::Version => Line::Version,
        LineKind::Ring => ring_line(told),
        LineKind::Drive => drive_line(told),
        LineKind::Order => {
            let mut addresses = Addresses::new();
            let _fits = addresses.try_extend_from_slice(told.addresses.as_slice());
            Line::Order(addresses)
        }
        LineKind::Mst => telegram_line(Kind::Mst, told),
        LineKind::At => telegram_line(Kind::At, told),
        LineKind::Mdt => telegram_line(Kind::Mdt, told),
        LineKind::End => Line::End,
        _ => Line::Other,
    }
}

/// Reads a line of a trace, without its line feed. The error has the column, counted from 1, of the first byte at which the text can't
/// continue any line of a trace:
/// - for a number beyond its field's type, and for a byte or an address too many, its first digit;
/// - for an identifier number above 4095, the first of its four digits;
/// - for a missing byte, one past the end.
pub fn read_line(line: &[u8]) -> Result<Line, BadLine>
    ensures ok { result_ok result ≡ line_in line.now }
    ensures err { result_err result ≡ option_map (λ place. record { column = place + 1 }) (kinds_fault all_kinds line.now) }
{
    let mut told = Told::new();
    match read_kind(line, &mut told) {
        Ok(kind) => Ok(line_of(kind, &told)),
        Err(place) => Err(BadLine { column: place + 1 }),
    }
}

/// A law with two statements:
/// - A line written from values of its kind's fields, and from items that may follow its template, is read back as a line of that kind with
///   these values and items.
/// - A text that fits the template of a kind and what follows it is a line of that kind, and of no other.
pub fn reading_law()
    ensures back { ReadsBack }
    ensures kind { HasOneKind }
{
    line_law();
}
