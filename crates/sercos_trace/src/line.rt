// Writing one line of a trace. It is made in `line` and written after the bytes of `mark`. Afterwards `line` is unspecified. The sink's
// room shrinks by at most the bytes of both. Without an error its count of faults is unchanged. A write fails only if the sink has less
// room than both. After an error the sink has taken a proper prefix of both, and its count of faults has risen or is 2^64 - 1.
ghost use Rattle.std.specs.Prelude.{◌≡◌, ◌≤◌, ◌+◌, ◌++◌, ◌∷◌, [], length, map, sum_by};
ghost use Rattle.sercos_trace.specs.Clauses.{value_of, most_bytes, Idents, tail_for, line_of, line_with, raws, NoFeed};
ghost use Rattle.sercos_trace.specs.declared.kind.LineKind.TheVariants as kind;
ghost use Rattle.sercos_trace.specs.Written as plain;
ghost use Rattle.sercos_trace.specs.MarkedWritten.{seen, Writes};

use crate::kind::{LineKind, template_for};
use sercos_idn::Idn;
use sercos_io::{Sink, WriteFailed, write_all};
use sercos_text::{Given, Line, push_addresses, push_idents, push_line};

// Writes bytes, as `write_all` does. Only the form of the contract differs.
#[tactic(auto, using(crate::proofs::WriteLemmas::writes_all))]
fn write_bytes<K: Sink>(bytes: &[u8], sink: &mut K) -> Result<(), WriteFailed>
    ensures { plain.Writes (plain.seen K.held K.faults K.room sink.old) (plain.seen K.held K.faults K.room sink.new) result bytes.now }
{
    write_all(sink, bytes)
}

// Writes the mark, then a line with its line feed.
fn write_both<K: Sink>(mark: &[u8], line: &[u8], sink: &mut K) -> Result<(), WriteFailed>
    ensures { plain.Writes (plain.seen K.held K.faults K.room sink.old) (plain.seen K.held K.faults K.room sink.new) result (mark.now ++ line.now) }
{
    write_bytes(mark, sink)?;
    write_bytes(line, sink)
}

// Appends the line feed to a line of at most 4351 bytes, which has none within it, and writes it after the mark.
fn end_line<K: Sink>(mark: &[u8], line: &mut Line, sink: &mut K) -> Result<(), WriteFailed>
    requires room { length line.old + 1 ≤ 4352 }
    requires one { NoFeed line.old }
    ensures { Writes (seen mark.now K.held K.faults K.room sink.old) (seen mark.now K.held K.faults K.room sink.new) result (line.old ++ 10 ∷ []) }
{
    line.push_within(b'\n');
    write_both(mark, line.as_slice(), sink)
}

// Writes the line of a kind with these values as its fields, and nothing after its template. The old contents of `line` are ignored. The
// values must have at most 4200 characters, counted at their widest: a number 10, a signed one 11, an identifier number 8, and bytes two
// each, but at least 1.
pub(crate) fn write_line<K: Sink>(
    kind: LineKind,
    values: &[Given<'_>],
    mark: &[u8],
    line: &mut Line,
    sink: &mut K,
) -> Result<(), WriteFailed>
    requires { sum_by most_bytes (map value_of values.now) ≤ 4200 }
    ensures { Writes (seen mark.now K.held K.faults K.room sink.old) (seen mark.now K.held K.faults K.room sink.new) result (line_of kind (map value_of values.now)) }
{
    line.clear();
    push_line(template_for(kind), values, line);
    end_line(mark, line, sink)
}

// Writes the line of a failed check: its template with these values, then the identifier numbers of the drive's list of invalid data, at
// most 64. `kind` must be one whose template is followed by identifier numbers. The values must have at most 100 characters, counted as for
// `write_line`. The old contents of `line` are ignored.
#[tactic(auto, unfolding(sercos_text::specs::Tails::tail_text))]
pub(crate) fn write_listed<K: Sink>(
    kind: LineKind,
    values: &[Given<'_>],
    idns: &[Idn],
    mark: &[u8],
    line: &mut Line,
    sink: &mut K,
) -> Result<(), WriteFailed>
    requires kind { tail_for kind ≡ Idents }
    requires few { (sum_by most_bytes (map value_of values.now) ≤ 100) × (length idns.now ≤ 64) }
    ensures { Writes (seen mark.now K.held K.faults K.room sink.old) (seen mark.now K.held K.faults K.room sink.new) result (line_with kind (map value_of values.now) (raws idns.now)) }
{
    line.clear();
    push_line(template_for(kind), values, line);
    push_idents(idns, line);
    end_line(mark, line, sink)
}

// Writes the line of the order: the addresses in the order of the ATs, at most 64. The old contents of `line` are ignored.
#[tactic(auto, unfolding(sercos_text::specs::Tails::tail_text, crate::specs::Kinds::tail_for))]
pub(crate) fn write_order<K: Sink>(
    addresses: &[u8],
    mark: &[u8],
    line: &mut Line,
    sink: &mut K,
) -> Result<(), WriteFailed>
    requires { length addresses.now ≤ 64 }
    ensures { Writes (seen mark.now K.held K.faults K.room sink.old) (seen mark.now K.held K.faults K.room sink.new) result (line_with kind.Order [] addresses.now) }
{
    line.clear();
    push_line(template_for(LineKind::Order), &[], line);
    push_addresses(addresses, line);
    end_line(mark, line, sink)
}
