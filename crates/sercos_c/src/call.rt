//! The commands.
ghost use Rattle.std.specs.Prelude.{◌≢◌, ◌≤◌, length, take};
ghost use Rattle.sercos_c.specs.Clauses.{lines_of, unreadable, IsCallOf};

use crate::answer::answer;
use crate::words::read_words;
use sercos_io::Status;
use std::alloc::Global;

/// Runs a command over `input`: the lines of `words` are its words. Its output is written to the front of `output`, and `written` is the
/// number of bytes written; the bytes after these are unspecified. Returns the exit status of the program, 0 to 7, but never 4. After
/// status 5 the output was longer than `output`, which has as much of it as fits; the same holds for a refusal, status 3, that was longer.
/// After 2, 6 and 7 `written` is 0. A command that reads an input of more than 1,048,576 bytes has status 7, or 6 if no memory was found.
/// Words that aren't UTF-8 are no command: status 2, or 6 if no memory was found.
#[unsafe(no_mangle)]
pub extern "C" fn sercos_call(
    alloc: Global,
    words: &[u8],
    input: &[u8],
    output: &mut [u8],
    written: &mut usize,
) -> u8
    ensures within { written.new ≤ length output.new }
    ensures called { IsCallOf (lines_of words.now) input.now (length output.old) result (take written.new output.new) }
    ensures readable { result ≢ unreadable }
    ensures bound { result ≤ 7 }
{
    *written = 0;
    let words = match read_words(alloc, words) {
        Ok(Some(words)) => words,
        Ok(None) => return Status::BadWords.code(),
        Err(_) => return Status::Memory.code(),
    };
    let (status, count) = answer(alloc, &words, input, output);
    *written = count;
    status.code()
}
