// The words of an element that is read.
ghost use Rattle.std.specs.Prelude.{◌≡◌, ℕ, ◌+◌, ◌%◌, ◌/◌, ◌<◌, ◌≤◌, ◌==◌, List, [], ◌∷◌, ◌++◌, length, take, Some, slice_get, slice_index};
ghost use Rattle.sercos_step.specs.Clauses.{bytes_read, reading, is_last_read, most_kept, kept_with, IsAfterWord};

use crate::shape::{MOST_LIST_BYTES, Shape, words_in};
use crate::step::Step;
use sercos_bits::Bytes;

// Returns whether the word at an index is the last of an element that is read. For a list, `first` must be known, so its first word counts
// as not the last.
fn is_last_read(shape: Shape, place: u16, first: u16) -> bool
    ensures { result ≡ is_last_read shape place first }
{
    match shape {
        Shape::One => true,
        Shape::Two => place >= 1,
        Shape::List => place > 0 && words_in(shape, first) - 1 <= place,
    }
}

// Returns the step that reads the word at an index of an element, which must be below the number of its words. `first` is the element's
// first word, and 0 before that is known.
pub fn reading_step(shape: Shape, element: u8, place: u16, first: u16) -> Step
    ensures next { (words : List ℕ) → place ≡ length words → first ≡ slice_index words 0 → length words < length (reading shape element words) →
        Some result ≡ slice_get (reading shape element words) (length words) }
    ensures element { result.element ≡ element }
{
    Step {
        write: false,
        last: is_last_read(shape, place, first),
        element,
        word: 0,
    }
}

// Appends the bytes of a word, the low byte first, as long as there are fewer bytes than `limit`, which is at most 1024. There must be at
// most `limit` bytes.
fn push_limited(bytes: &mut Bytes, word: u16, limit: usize)
    requires { limit ≤ 1024 }
    ensures { length bytes.old ≤ limit → bytes.new ≡ take limit (bytes.old ++ (word % 256) ∷ (word / 256) ∷ []) }
{
    let pair = word.to_le_bytes();
    if bytes.len() < limit {
        bytes.push_within(pair[0]);
    }
    if bytes.len() < limit {
        bytes.push_within(pair[1]);
    }
}

// Keeps the bytes of the word at an index of an element. In a list the bytes begin at index 2, after its two lengths. At most 1024 bytes
// are kept, and of a list at most its length, `first`. There must not be more before.
fn keep_bytes(bytes: &mut Bytes, shape: Shape, place: u16, first: u16, word: u16)
    ensures { length bytes.old ≤ most_kept shape first → bytes.new ≡ kept_with shape place first word bytes.old }
{
    match shape {
        Shape::List => {
            if place >= 2 {
                push_limited(bytes, word, first.min(MOST_LIST_BYTES) as usize);
            }
        }
        _ => push_limited(bytes, word, MOST_LIST_BYTES as usize),
    }
}

// Keeps the word at an index of an element, and returns whether it was the last one. Before and afterwards, `first` is the element's first
// word, or 0 without one, and `bytes` has the bytes of the words so far. The element must not be complete before.
pub fn keep_word(shape: Shape, place: u16, word: u16, first: &mut u16, bytes: &mut Bytes) -> bool
    ensures { (e : ℕ) (words : List ℕ) → place ≡ length words → first.old ≡ slice_index words 0 → bytes.old ≡ bytes_read shape words → length words < length (reading shape e words) →
        IsAfterWord shape e (words ++ word ∷ []) first.new bytes.new result }
{
    let known = if place == 0 { word } else { *first };
    *first = known;
    keep_bytes(bytes, shape, place, known, word);
    words_in(shape, known) - 1 <= place
}
