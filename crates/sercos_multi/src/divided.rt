// An input with several documents.
ghost use Rattle.std.specs.Prelude.{◌≡◌, ◌+◌, ◌^◌, if◌then◌else◌, ◌-◌, ◌<◌, ◌≤◌, ◌==◌, ◌∷◌, length, take, drop};
ghost use Rattle.sercos_multi.specs.Clauses.{after_first, is_feed, is_next, parts_of, parts_after};

use sercos_answer::cut_line;

// Returns how many bytes the first line of a text, which is not empty, has, with its line feed.
fn line_len(text: &[u8]) -> usize
    requires { 0 < length text.now }
    ensures value { result ≡ length text.now - length (after_first is_feed text.now) }
    ensures some { 0 < result }
    ensures bound { result ≤ length text.now }
{
    let (_line, rest) = cut_line(text);
    text.len() - rest.len()
}

// Returns the first `len` bytes of a text, which has no fewer.
fn front_of(text: &[u8], len: usize) -> &[u8]
    requires { len ≤ length text.now }
    ensures { result.now ≡ take len text.now }
{
    &text[..len]
}

// Returns the bytes of a text after the first `len`; it has no fewer.
fn rest_of(text: &[u8], len: usize) -> &[u8]
    requires { len ≤ length text.now }
    ensures { result.now ≡ drop len text.now }
{
    &text[len..]
}

// Returns whether a line divides documents: it is `next`, with its line feed or without.
fn is_next(line: &[u8]) -> bool
    ensures { result ≡ is_next line.now }
{
    line == b"next".as_slice() || line == b"next\n".as_slice()
}

// Returns `count`, which is below 2^62, plus 1 if `next` is true.
fn more_by(count: usize, next: bool) -> usize
    requires { count < 2 ^ 62 }
    ensures { result ≡ (if next then count + 1 else count) }
{
    if next {
        return count + 1;
    }
    count
}

/// Returns the number of parts of an input of at most 1,048,576 bytes: one more than the number of its lines `next`, so at most one more
/// than the number of its bytes.
pub fn count_parts(text: &[u8]) -> usize
    requires { length text.now ≤ 1048576 }
    ensures value { result ≡ length (parts_of text.now) }
    ensures bound { result ≤ length text.now + 1 }
{
    let mut count = 1;
    let mut at = 0;
    while at < text.len() {
        let rest = rest_of(text, at);
        let len = line_len(rest);
        count = more_by(count, is_next(front_of(rest, len)));
        at += len;
    }
    count
}

/// Returns the first part of an input, the bytes after the line `next` that ends it, and whether there is such a line. Without one the
/// first part is the whole input, and the bytes after it are unspecified.
pub fn cut_part(text: &[u8]) -> (&[u8], &[u8], bool)
    ensures { parts_of text.now ≡ result.0.now ∷ parts_after result.2 result.1.now }
{
    let mut at = 0;
    while at < text.len() {
        let rest = rest_of(text, at);
        let len = line_len(rest);
        if is_next(front_of(rest, len)) {
            return (front_of(text, at), rest_of(rest, len), true);
        }
        at += len;
    }
    (text, &[], false)
}
