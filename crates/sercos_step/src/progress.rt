// What is kept between the steps of a transfer. The clauses on a next step or an answer hold if what is kept is that of the answers so far,
// and the request isn't complete.
ghost use Rattle.std.specs.Prelude.{◌≡◌, ℕ, ◌+◌, ◌*◌, ◌/◌, ◌%◌, ◌<◌, ◌≤◌, ◌==◌, List, [], ◌∷◌, ◌++◌, length, Some, slice_get, true, false};
ghost use Rattle.sercos_step.specs.Clauses.{a_step, steps_before, steps_of, is_whole, IsAtRead, IsAtWrite, IsAtCommand, IsAfterCommand, with_attribute, ends_write, count_with};

use crate::reading::{keep_word, reading_step};
use crate::request::Request;
use crate::shape::shape_of;
use crate::step::Step;
use crate::writing::{told_count, writing_step};
use sercos_bits::Bytes;
use sercos_idn::Idn;
use sercos_idn::command::{CANCEL, RUNNING, SET};
use sercos_idn::element::{ATTRIBUTE, DATA, IDENTIFIER, MINIMUM};
use std::marker::Model;
use std::mem;

// Returns the step that writes the only word of an element.
fn write_of(element: u8, word: u16) -> Step
    ensures { result ≡ a_step true true element word }
{
    Step {
        write: true,
        last: true,
        element,
        word,
    }
}

// Returns the step that reads a word of an element. `last` is whether it is the element's last word.
fn read_of(element: u8, last: bool) -> Step
    ensures { result ≡ a_step false last element 0 }
{
    Step {
        write: false,
        last,
        element,
        word: 0,
    }
}

// Returns the number of steps of a read before the element's own words: 3 for minimum, maximum and operation data, otherwise 1.
fn steps_before(element: u8) -> u16
    ensures { result ≡ steps_before element }
{
    if element >= MINIMUM { 3 } else { 1 }
}

// Returns whether one more answer ends a write of at most 1024 bytes, from the number of answers before it and the word of the attribute.
// Only operation data uses the attribute.
fn ends_write(element: u8, attribute: u32, bytes: &[u8], count: u16) -> bool
    requires { length bytes.now ≤ 1024 }
    ensures { result ≡ ends_write element attribute bytes.now count }
{
    if element == DATA {
        count >= 3 && told_count(shape_of(DATA, attribute), bytes) <= count - 2
    } else {
        told_count(shape_of(element, 0), bytes) <= count
    }
}

// Returns the count of a command after one more answer with this word: 1 after the first, 2 after the second and while the word is that of
// a running command, otherwise 3.
fn count_with(count: u16, word: u16) -> u16
    ensures { result ≡ count_with count word }
{
    if count == 0 {
        1
    } else if count == 1 || word == RUNNING {
        2
    } else {
        3
    }
}

// What a transfer keeps of its answers. Words are kept as received, so the range of their type bounds what is computed from them.
#[derive(Drop)]
pub struct Progress {
    count: u16,
    low: u16,
    high: u16,
    first: u16,
    bytes: Bytes,
    status: u16,
}

impl Model for Progress {
    ghost use Rattle.sercos_step.specs.Kept.{ProgressView};

    ghost Value = { ProgressView };

    ghost view = { λ p. record { count = p.count; low = p.low; high = p.high; first = p.first; bytes = p.bytes; status = p.status } };
}

impl Progress {
    /// Returns the progress before the first answer.
    pub fn new() -> Progress
        ensures { (result.count ≡ 0) × (result.low ≡ 0) × (result.high ≡ 0) × (result.first ≡ 0) × (result.bytes ≡ []) × (result.status ≡ 0) }
    {
        Progress {
            count: 0,
            low: 0,
            high: 0,
            first: 0,
            bytes: Bytes::new(),
            status: 0,
        }
    }

    // Returns the bytes that were read, and leaves none. All else is unchanged.
    pub fn take_bytes(&mut self) -> Bytes
        ensures value { result ≡ self.old.bytes }
        ensures rest { self.new ≡ record self.old { bytes = [] } }
    {
        mem::replace(&mut self.bytes, Bytes::new())
    }

    // Returns the two bytes of the last word kept of a command, the low byte first.
    pub fn status_bytes(&self) -> Bytes
        ensures { result ≡ (self.now.status % 256) ∷ (self.now.status / 256) ∷ [] }
    {
        let mut bytes = Bytes::new();
        bytes.push_word_within(self.status);
        bytes
    }

    // Returns the 32 bits of the attribute, from its two words so far.
    fn attribute(&self) -> u32
        ensures { result ≡ self.now.low + 65536 * self.now.high }
    {
        u32::from(self.low) + 65536 * u32::from(self.high)
    }

    // Keeps the word of the answer to the second step as `low`, and of that to the third as `high`. `count` is still the number of answers
    // before this one. These are the words of the attribute if these steps read it; in a write of anything but operation data they are kept
    // too, and never used. After any other answer nothing changes.
    fn keep_attribute(&mut self, word: u16)
        ensures { self.new ≡ with_attribute self.old word }
    {
        if self.count == 1 {
            self.low = word;
        }
        if self.count == 2 {
            self.high = word;
        }
    }

    // Returns the next step of a read of an element, 0 to 7, that isn't complete. The first step opens the identifier number; for minimum,
    // maximum and operation data two more read the attribute; then each reads a word of the element. The step's element is also 0 to 7.
    pub fn read_step(&self, idn: Idn, element: u8) -> Step
        requires { element < 8 }
        ensures next { (words : List ℕ) → IsAtRead self.now element words → is_whole (Request.Read idn element) words ≡ false →
            Some result ≡ slice_get (steps_of (Request.Read idn element) words) (length words) }
        ensures element { result.element < 8 }
    {
        if self.count == 0 {
            return write_of(IDENTIFIER, idn.raw);
        }
        let before = steps_before(element);
        if self.count < before {
            return read_of(ATTRIBUTE, self.count == 2);
        }
        let shape = shape_of(element, self.attribute());
        reading_step(shape, element, self.count - before, self.first)
    }

    // Returns the next step of a write of an element, 0 to 7, that isn't complete. The first step opens the identifier number; for
    // operation data two more read the attribute; then each writes a word of the element. The step's element is also 0 to 7.
    pub fn write_step(&self, idn: Idn, element: u8, bytes: &Bytes) -> Step
        requires { element < 8 }
        ensures next { (words : List ℕ) → IsAtWrite self.now words → is_whole (Request.Write idn element bytes.now) words ≡ false →
            Some result ≡ slice_get (steps_of (Request.Write idn element bytes.now) words) (length words) }
        ensures element { result.element < 8 }
    {
        if self.count == 0 {
            return write_of(IDENTIFIER, idn.raw);
        }
        if element != DATA {
            return writing_step(
                shape_of(element, 0),
                element,
                bytes.as_slice(),
                self.count - 1,
            );
        }
        if self.count < 3 {
            return read_of(ATTRIBUTE, self.count == 2);
        }
        writing_step(
            shape_of(DATA, self.attribute()),
            DATA,
            bytes.as_slice(),
            self.count - 3,
        )
    }

    // Returns the next step of a command that isn't complete: it opens the identifier number, sets the command, reads the data status while
    // that is the one of a running command, and cancels the command. The step's element is 0 to 7.
    pub fn command_step(&self, idn: Idn) -> Step
        ensures next { (words : List ℕ) → IsAtCommand self.now words → is_whole (Request.Command idn) words ≡ false →
            Some result ≡ slice_get (steps_of (Request.Command idn) words) (length words) }
        ensures element { result.element < 8 }
    {
        if self.count == 0 {
            return write_of(IDENTIFIER, idn.raw);
        }
        if self.count == 1 {
            return write_of(DATA, SET);
        }
        if self.count == 2 {
            return read_of(IDENTIFIER, true);
        }
        write_of(DATA, CANCEL)
    }

    // Keeps an answer to a read, and returns whether it was the last one.
    pub fn read_answer(&mut self, element: u8, word: u16) -> bool
        ensures { (idn : Idn) (words : List ℕ) → IsAtRead self.old element words → is_whole (Request.Read idn element) words ≡ false →
            IsAtRead self.new element (words ++ word ∷ []) × (result ≡ is_whole (Request.Read idn element) (words ++ word ∷ [])) }
    {
        let count = self.count;
        let before = steps_before(element);
        if count < before {
            self.keep_attribute(word);
            self.count = count + 1;
            return false;
        }
        let shape = shape_of(element, self.attribute());
        let whole = keep_word(
            shape,
            count - before,
            word,
            &mut self.first,
            &mut self.bytes,
        );
        self.count = count.saturating_add(1);
        whole
    }

    // Keeps an answer to a write, and returns whether it was the last one.
    pub fn write_answer(&mut self, element: u8, bytes: &Bytes, word: u16) -> bool
        ensures { (idn : Idn) (words : List ℕ) → IsAtWrite self.old words → is_whole (Request.Write idn element bytes.now) words ≡ false →
            IsAtWrite self.new (words ++ word ∷ []) × (result ≡ is_whole (Request.Write idn element bytes.now) (words ++ word ∷ [])) }
    {
        let count = self.count;
        let attribute = self.attribute();
        self.keep_attribute(word);
        self.count = count.saturating_add(1);
        ends_write(element, attribute, bytes.as_slice(), count)
    }

    // Keeps an answer to a command, and returns whether it was the last one, which is that to the cancelling. The word of that one isn't
    // kept.
    pub fn command_answer(&mut self, word: u16) -> bool
        ensures { (idn : Idn) (words : List ℕ) → IsAtCommand self.old words → is_whole (Request.Command idn) words ≡ false →
            IsAfterCommand idn self.new (words ++ word ∷ []) result }
    {
        if self.count > 2 {
            return true;
        }
        self.status = word;
        self.count = count_with(self.count, word);
        false
    }
}
