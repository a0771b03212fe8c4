// The words that write bytes to an element.
ghost use Rattle.std.specs.Prelude.{◌≡◌, ◌+◌, ◌<◌, ◌≤◌, List, length, Some, slice_get, slice_index};
ghost use Rattle.sercos_step.specs.Clauses.{words_of, words_told, writing};

use crate::shape::Shape;
use crate::step::Step;
use sercos_bits::byte_at;

/// Returns the word at an index of bytes taken two by two, the low byte first. A last odd byte is completed with a 0. After the last word
/// the result is 0.
pub fn word_at(bytes: &[u8], place: u16) -> u16
    ensures { result ≡ slice_index (words_of bytes.now) place }
{
    let low = 2 * (place as usize);
    u16::from_le_bytes([byte_at(bytes, low), byte_at(bytes, low + 1)])
}

// Returns the number of words that write at most 1024 bytes to an element: one for each two bytes, a last odd byte included, and two more
// for a list, otherwise at least one.
pub fn told_count(shape: Shape, bytes: &[u8]) -> u16
    requires { length bytes.now ≤ 1024 }
    ensures { result ≡ length (words_told shape bytes.now) }
{
    let words = (bytes.len() as u16 + 1) / 2;
    match shape {
        Shape::List => 2 + words,
        _ => words.max(1),
    }
}

// Returns the word at an index of those that write at most 1024 bytes to an element. The index is below their number. Of a list word 0 is
// the length in bytes, word 1 is 0, and the bytes follow two by two; of anything else there are only the bytes.
fn told_at(shape: Shape, bytes: &[u8], place: u16) -> u16
    requires { length bytes.now ≤ 1024 }
    ensures { place < length (words_told shape bytes.now) → result ≡ slice_index (words_told shape bytes.now) place }
{
    match shape {
        Shape::List => match place {
            0 => bytes.len() as u16,
            1 => 0,
            _ => word_at(bytes, place - 2),
        },
        _ => word_at(bytes, place),
    }
}

// Returns the step that writes the word at an index of those that write at most 1024 bytes. The index is below their number.
pub fn writing_step(shape: Shape, element: u8, bytes: &[u8], place: u16) -> Step
    requires { length bytes.now ≤ 1024 }
    ensures next { place < length (words_told shape bytes.now) → Some result ≡ slice_get (writing shape element bytes.now) place }
    ensures element { result.element ≡ element }
{
    Step {
        write: true,
        last: told_count(shape, bytes) - 1 <= place,
        element,
        word: told_at(shape, bytes, place),
    }
}
