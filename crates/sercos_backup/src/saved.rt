// The saved data of a block.
ghost use Rattle.std.specs.Prelude.{◌≡◌, ℕ, ◌<◌, ◌≤◌, length, take, OnOk, OnErr, IsOk};
ghost use Rattle.sercos_backup.specs.Clauses.{Appends, HasCause, saved_text};

use sercos_idn::Idn;
use sercos_io::{Sink, WriteFailed, write_all};
use sercos_text::{Given, Line, push_line};

/// Replaces a line by the saved data of a block of the drive with an address, at most 1024 bytes: the five lines of a ring document that
/// request these bytes to be written. `data` has two hexadecimal digits in lower case for each byte; for no bytes the last line is
/// `data = ""`.
#[tactic(auto, unfolding(crate::specs::Texts::saved_text))]
pub(crate) fn put_saved(address: u8, idn: Idn, bytes: &[u8], line: &mut Line)
    requires { length bytes.now ≤ 1024 }
    ensures { line.new ≡ saved_text address idn.raw bytes.now }
{
    line.clear();
    if bytes.is_empty() {
        push_line(
            b"[[request]]\ndrive = D\nkind = \"write\"\nidn = \"I\"\ndata = \"\"\n",
            &[Given::Number(u32::from(address)), Given::Ident(idn)],
            line,
        );
    } else {
        push_line(
            b"[[request]]\ndrive = D\nkind = \"write\"\nidn = \"I\"\ndata = \"H\"\n",
            &[
                Given::Number(u32::from(address)),
                Given::Ident(idn),
                Given::Bytes(bytes),
            ],
            line,
        );
    }
}

/// Writes the saved data of a block of the drive with an address, at most 1024 bytes: the five lines of a ring document that request these
/// bytes to be written. `data` has two hexadecimal digits in lower case for each byte; for no bytes the last line is `data = ""`. After an
/// error the sink has accepted a proper prefix of them, and its count of faults has risen or is 2^64 - 1. Without an error that count is
/// unchanged. A sink with room for all of them doesn't fail.
pub fn write_saved<K: Sink>(
    address: u8,
    idn: Idn,
    bytes: &[u8],
    sink: &mut K,
) -> Result<(), WriteFailed>
    requires { length bytes.now ≤ 1024 }
    ensures ok { OnOk result (Appends (K.held sink.old) (K.held sink.new) (saved_text address idn.raw bytes.now)) }
    ensures err { OnErr result ((count : ℕ) × (count < length (saved_text address idn.raw bytes.now))
        × Appends (K.held sink.old) (K.held sink.new) (take count (saved_text address idn.raw bytes.now))) }
    ensures cause { HasCause (K.faults sink.old) (K.faults sink.new) result }
    ensures room { length (saved_text address idn.raw bytes.now) ≤ K.room sink.old → IsOk result }
{
    let mut line = Line::new();
    put_saved(address, idn, bytes, &mut line);
    write_all(sink, line.as_slice())
}
