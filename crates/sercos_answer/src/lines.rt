// The lines of a text.
ghost use Rattle.std.specs.Prelude.{◌≡◌, ◌==◌, ◌<◌, ◌≤◌, length};
ghost use Rattle.sercos_answer.specs.Clauses.{before_first, after_first, position_or_len};

use memchr::memchr;

// Returns the number of bytes before the first line feed; the length of a text without one.
fn line_len(text: &[u8]) -> usize
    ensures value { result ≡ position_or_len (λ byte. byte == 10) text.now }
    ensures bound { result ≤ length text.now }
{
    memchr(b'\n', text).unwrap_or(text.len())
}

/// Returns the first line of a text, without its line feed, and the text after this line. A text without a line feed is one line, with
/// nothing after it. The text after the line is shorter than a text that isn't empty.
pub fn cut_line(text: &[u8]) -> (&[u8], &[u8])
    ensures line { result.0.now ≡ before_first (λ byte. byte == 10) text.now }
    ensures rest { result.1.now ≡ after_first (λ byte. byte == 10) text.now }
    ensures shorter { 0 < length text.now → length result.1.now < length text.now }
{
    let len = line_len(text);
    let rest = (len + 1).min(text.len());
    (&text[..len], &text[rest..])
}
