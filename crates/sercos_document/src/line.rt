// The line of a refusal. The results of all writers are as those of `write_all`: after an error the sink has accepted a proper prefix of
// the line, and its count of faults has risen or is 2^64 - 1. After `Ok` this count is unchanged. There is no error if the sink's room is
// at least the length of the line.
ghost use Rattle.std.specs.Prelude.{ℕ, ◌≢◌, ◌<◌, ◌≤◌, length, take, OnOk, OnErr, IsOk};
ghost use Rattle.sercos_document.specs.Clauses.{Appends, HasCause, path_line, range_line, line_of};

use crate::refusal::BadDocument;
use itoa::Buffer;
use sercos_io::{Sink, WriteFailed, write_all, write_pieces};

/// Writes the line of a refusal to a sink, with its line feed: `refused 4 range ring.gap 1001` (this profile). `Memory` is not a refusal,
/// and must not be passed. After an error the sink has accepted a proper prefix of the line. There is no error if the sink's room is at
/// least the length of the line.
#[tactic(auto, unfolding(crate::specs::Lines::line_of))]
pub fn write_refusal<K: Sink>(bad: &BadDocument, sink: &mut K) -> Result<(), WriteFailed>
    requires { bad.now ≢ BadDocument.Memory }
    ensures ok { OnOk result (Appends (K.held sink.old) (K.held sink.new) (line_of bad.now)) }
    ensures err { OnErr result ((count : ℕ) × (count < length (line_of bad.now))
        × Appends (K.held sink.old) (K.held sink.new) (take count (line_of bad.now))) }
    ensures cause { HasCause (K.faults sink.old) (K.faults sink.new) result }
    ensures room { length (line_of bad.now) ≤ K.room sink.old → IsOk result }
{
    match bad {
        BadDocument::Toml => write_all(sink, b"refused 1 toml\n"),
        BadDocument::Missing(path) => write_path(sink, b"refused 2 missing ", path.as_slice()),
        BadDocument::Kind(path) => write_path(sink, b"refused 3 kind ", path.as_slice()),
        BadDocument::Range(path, value) => {
            let mut digits = Buffer::new();
            write_range(sink, path.as_slice(), digits.format(*value).as_bytes())
        }
        BadDocument::Twice(path) => write_path(sink, b"refused 5 twice ", path.as_slice()),
        BadDocument::Unknown(path) => write_path(sink, b"refused 6 unknown ", path.as_slice()),
        BadDocument::Memory => unreachable!(),
    }
}

// Writes a line that ends with a path: `head`, the path and a line feed.
#[tactic(auto, unfolding(crate::specs::Lines::path_line))]
fn write_path<'a, K: Sink>(sink: &mut K, head: &'a [u8], path: &'a [u8]) -> Result<(), WriteFailed>
    ensures ok { OnOk result (Appends (K.held sink.old) (K.held sink.new) (path_line head.now path.now)) }
    ensures err { OnErr result ((count : ℕ) × (count < length (path_line head.now path.now))
        × Appends (K.held sink.old) (K.held sink.new) (take count (path_line head.now path.now))) }
    ensures cause { HasCause (K.faults sink.old) (K.faults sink.new) result }
    ensures room { length (path_line head.now path.now) ≤ K.room sink.old → IsOk result }
{
    write_pieces(sink, &[head, path, b"\n".as_slice()])
}

// Writes the line of a value that isn't allowed: `refused 4 range`, its path, and the digits of its number, each after a space, and a line
// feed.
#[tactic(auto, unfolding(crate::specs::Lines::range_line))]
fn write_range<'a, K: Sink>(
    sink: &mut K,
    path: &'a [u8],
    digits: &'a [u8],
) -> Result<(), WriteFailed>
    ensures ok { OnOk result (Appends (K.held sink.old) (K.held sink.new) (range_line path.now digits.now)) }
    ensures err { OnErr result ((count : ℕ) × (count < length (range_line path.now digits.now))
        × Appends (K.held sink.old) (K.held sink.new) (take count (range_line path.now digits.now))) }
    ensures cause { HasCause (K.faults sink.old) (K.faults sink.new) result }
    ensures room { length (range_line path.now digits.now) ≤ K.room sink.old → IsOk result }
{
    write_pieces(
        sink,
        &[
            b"refused 4 range ".as_slice(),
            path,
            b" ".as_slice(),
            digits,
            b"\n".as_slice(),
        ],
    )
}
