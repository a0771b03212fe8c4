// The lines of the telegrams and moves of a cycle. Each is made in `line`, regardless of its contents, and is written after the bytes of
// `mark`. Afterwards `line` is unspecified. The sink's room shrinks by at most the bytes of the lines with their marks. Without an error
// its count of faults is unchanged. A write fails only if the sink has less room than them. After an error the sink has taken a proper
// prefix of them, and its count of faults has risen or is 2^64 - 1.
ghost use Rattle.std.specs.Prelude.{◌≡◌, ◌<◌, [], if◌then◌else◌};
ghost use Rattle.sercos_trace.specs.Clauses.{flat_map, sent_kind, sent_text, move_text, moves_text};
ghost use mathlib.Core.Bool.{beq};
ghost use Rattle.sercos_trace.specs.MarkedWritten.{seen, Writes};

use crate::kind::LineKind;
use crate::line::write_line;
use crate::record::{Move, Sent};
use sercos_io::{Sink, WriteFailed};
use sercos_telegram::Kind;
use sercos_text::{Given, Line};

// Returns the kind of line of a telegram of this kind.
fn sent_kind(kind: Kind) -> LineKind
    ensures { result ≡ sent_kind kind }
{
    match kind {
        Kind::Mst => LineKind::Mst,
        Kind::At => LineKind::At,
        Kind::Mdt => LineKind::Mdt,
    }
}

// Writes the line of a telegram that was sent in this cycle.
fn write_sent<K: Sink>(
    cycle: u32,
    sent: &Sent,
    mark: &[u8],
    line: &mut Line,
    sink: &mut K,
) -> Result<(), WriteFailed>
    ensures { Writes (seen mark.now K.held K.faults K.room sink.old) (seen mark.now K.held K.faults K.room sink.new) result (sent_text cycle sent.now) }
{
    let values = [
        Given::Number(cycle),
        Given::Signed(sent.start),
        Given::Number(sent.bits),
        Given::Bytes(sent.content.as_slice()),
    ];
    write_line(sent_kind(sent.kind), &values, mark, line, sink)
}

// Writes the lines of telegrams, in the order of the list.
pub(crate) fn write_all_sent<K: Sink>(
    cycle: u32,
    sent: &[Sent],
    mark: &[u8],
    line: &mut Line,
    sink: &mut K,
) -> Result<(), WriteFailed>
    ensures { Writes (seen mark.now K.held K.faults K.room sink.old) (seen mark.now K.held K.faults K.room sink.new) result (flat_map (sent_text cycle) sent.now) }
{
    for telegram in sent {
        write_sent(cycle, telegram, mark, line, sink)?;
    }
    Ok(())
}

// Writes the line of a move if its `late` is the one required, otherwise nothing.
#[tactic(auto, using(crate::proofs::WriteLemmas::taken_none))]
fn write_move<K: Sink>(
    cycle: u32,
    late: bool,
    moved: &Move,
    mark: &[u8],
    line: &mut Line,
    sink: &mut K,
) -> Result<(), WriteFailed>
    ensures { Writes (seen mark.now K.held K.faults K.room sink.old) (seen mark.now K.held K.faults K.room sink.new) result (if beq moved.now.late late then move_text cycle moved.now else []) }
{
    if moved.late != late {
        return Ok(());
    }
    let values = [
        Given::Number(cycle),
        Given::Number(u32::from(moved.drive)),
        Given::Number(u32::from(moved.phase)),
    ];
    write_line(LineKind::Phase, &values, mark, line, sink)
}

// Writes the lines of the moves at the MST, or with `late` those after the MDT, in the order of the list.
pub(crate) fn write_moves<K: Sink>(
    cycle: u32,
    late: bool,
    moves: &[Move],
    mark: &[u8],
    line: &mut Line,
    sink: &mut K,
) -> Result<(), WriteFailed>
    ensures { Writes (seen mark.now K.held K.faults K.room sink.old) (seen mark.now K.held K.faults K.room sink.new) result (moves_text cycle late moves.now) }
{
    for moved in moves {
        write_move(cycle, late, moved, mark, line, sink)?;
    }
    Ok(())
}
