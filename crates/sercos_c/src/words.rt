//! The words of a text.
ghost use Rattle.std.specs.Prelude.{◌≡◌, IfOk, MatchOption};
ghost use Rattle.sercos_c.specs.Clauses.{AreTexts, lines_of};

use sercos_answer::cut_line;
use sercos_io::Words;
use std::alloc::{AllocError, Global};

/// Returns the words of a text, one for each line. `None` if a line isn't UTF-8, and so no word of a command. The error is `AllocError`.
pub(crate) fn read_words(alloc: Global, text: &[u8]) -> Result<Option<Words>, AllocError>
    ensures { IfOk result (λ words. MatchOption words (AreTexts (lines_of text.now) → ⊥) (λ words. words ≡ lines_of text.now)) }
{
    let mut words = Words::new(alloc);
    let mut rest = text;
    while !rest.is_empty() {
        let (line, others) = cut_line(rest);
        let Ok(word) = std::str::from_utf8(line) else {
            return Ok(None);
        };
        words.push(word)?;
        rest = others;
    }
    Ok(Some(words))
}
