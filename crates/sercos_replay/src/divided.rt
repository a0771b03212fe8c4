// An input with a document and a capture.
ghost use Rattle.std.specs.Prelude.{◌≡◌, ◌≤◌, true, length, IfSome};
ghost use Rattle.sercos_replay.specs.Clauses.{capture_place, document_part, capture_part};

use sercos_answer::cut_line;

/// Returns the offset, in bytes, of the first line that is exactly `capture`, with a line feed or as the last line without one; `None` if
/// there is no such line. The offset is at most the number of bytes.
pub fn capture_place(text: &[u8]) -> Option<usize>
    ensures value { result ≡ capture_place true text.now }
    ensures bound { IfSome result (λ place. place ≤ length text.now) }
{
    let mut rest = text;
    while !rest.is_empty() {
        let (line, others) = cut_line(rest);
        if line == b"capture".as_slice() {
            return Some(text.len() - rest.len());
        }
        rest = others;
    }
    None
}

/// Returns the bytes before the offset `place` of a line: the document. The offset must be at most the number of bytes.
pub fn document_part(bytes: &[u8], place: usize) -> &[u8]
    requires { place ≤ length bytes.now }
    ensures { result.now ≡ document_part bytes.now place }
{
    &bytes[..place]
}

/// Returns the bytes after the line at the offset `place` and its line feed: the capture. The offset must be at most the number of bytes.
/// If no line feed follows it, there are none.
pub fn capture_part(bytes: &[u8], place: usize) -> &[u8]
    requires { place ≤ length bytes.now }
    ensures value { result.now ≡ capture_part bytes.now place }
    ensures bound { length result.now ≤ length bytes.now }
{
    let (_line, rest) = cut_line(&bytes[place..]);
    rest
}
