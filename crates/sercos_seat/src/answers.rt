// The values in the outcomes of requests, and the stops that they cause.
ghost use Rattle.std.specs.Prelude.{map, ◌≡◌, ◌+◌, ◌*◌, ◌<◌, ◌≤◌, ◌==◌, List, [], ◌++◌, length, take, drop, Option, Some, None, IfSome};
ghost use Rattle.sercos_seat.specs.Clauses.{bytes_of, idns_in, ended_well, len_said, attribute_stop, list_stop, asked_by, stop_by_bytes, stop_by, last_long, long_of, low_at, low_and_high, len_of_words, listed_len, value_said, values_said};
ghost use Rattle.sercos_step.specs.declared.request.Outcome.TheVariants as outcome;

use arrayvec::ArrayVec;
use sercos_block::numbers::{INVALID_FOR_PHASE_2, INVALID_FOR_PHASE_3};
use sercos_block::{added_len, attribute_in, number_len};
use sercos_idn::Idn;
use sercos_idn::command::ENDED_WELL;
use sercos_idn::element::{ATTRIBUTE, DATA};
use sercos_step::{Outcome, Request, word_at};
use sercos_trace::Stop;

/// Up to four bytes as two words, each with its low byte first. A missing byte is 0.
#[derive(Clone, Copy, Debug, Default, PartialEq, Eq)]
pub struct Words {
    /// The first and the second byte.
    pub low: u16,
    /// The third and the fourth byte.
    pub high: u16,
}

/// What a request is for: the identifier number, and the element if it is a read.
#[derive(Clone, Copy, Debug, PartialEq, Eq)]
pub struct Asked {
    /// The identifier number.
    pub idn: Idn,
    /// The element that is read.
    pub reads: Option<u8>,
}

/// Returns the identifier number of a request, and the element if it is a read.
pub fn asked_by(request: &Request) -> Asked
    ensures { result ≡ asked_by request.now }
{
    match request {
        Request::Read { idn, element } => Asked {
            idn: *idn,
            reads: Some(*element),
        },
        Request::Write { idn, .. } => Asked {
            idn: *idn,
            reads: None,
        },
        Request::Command { idn } => Asked {
            idn: *idn,
            reads: None,
        },
    }
}

/// Returns the first four bytes as two words, each with its low byte first. A missing byte is 0.
#[tactic(auto, using(crate::proofs::ShortWords::first_short, crate::proofs::ShortWords::second_short))]
pub fn low_and_high(bytes: &[u8]) -> Words
    ensures { result ≡ low_and_high bytes.now }
{
    Words {
        low: word_at(bytes, 0),
        high: word_at(bytes, 1),
    }
}

impl Words {
    /// Returns the 32-bit number of both words, the low word first.
    pub fn long(&self) -> u32
        ensures { result ≡ self.now.low + 65536 * self.now.high }
    {
        u32::from(self.low) + 65536 * u32::from(self.high)
    }
}

/// Returns whether the first two bytes, the low one first, are the data status of a procedure command that ended well. A missing byte
/// counts as 0.
#[tactic(auto, using(crate::proofs::ShortWords::first_short))]
pub fn ended_well(bytes: &[u8]) -> bool
    ensures { result ≡ ended_well bytes.now }
{
    word_at(bytes, 0) == ENDED_WELL
}

/// Returns the bytes of a complete outcome; no bytes for another one.
pub fn outcome_bytes(outcome: &Outcome) -> &[u8]
    ensures { result.now ≡ bytes_of outcome.now }
{
    match outcome {
        Outcome::Complete(bytes) => bytes.as_slice(),
        _ => &[],
    }
}

/// Returns how many bytes, at most 4, a value with this attribute adds to a telegram; `None` if the attribute isn't that of a number.
pub fn len_said(word: u32) -> Option<usize>
    ensures value { result ≡ len_said word }
    ensures bound { IfSome result (λ len. len ≤ 4) }
{
    match attribute_in(word) {
        Some(attribute) => number_len(attribute),
        None => None,
    }
}

/// Returns how many bytes, at most 4, a value with this attribute adds to a telegram; 0 if the attribute isn't that of a number.
pub fn len_of(words: &Words) -> u16
    ensures value { result ≡ len_of_words words.now }
    ensures bound { result ≤ 4 }
{
    added_len(len_said(words.long()))
}

/// Returns how many bytes a value with each of these attributes adds to a telegram, 0 to 4; 0 if the attribute isn't that of a number.
/// There must be at most 16.
pub fn lens_of(words: &[Words]) -> ArrayVec<u8, 16>
    requires { length words.now ≤ 16 }
    ensures value { result.items ≡ map len_of_words words.now }
    ensures few { length result.items ≤ 16 }
{
    let mut lens = ArrayVec::new();
    for word in words {
        lens.push(len_of(word) as u8);
    }
    lens
}

/// Returns the length of a data record, or of an AT after its address, in bytes, 4 to 68: two words, and the values with these attributes,
/// at most 16. An attribute that isn't that of a number adds nothing.
pub fn listed_len(words: &[Words]) -> u16
    requires { length words.now ≤ 16 }
    ensures value { result ≡ listed_len words.now }
    ensures bounds { (4 ≤ result) × (result ≤ 68) }
{
    let mut len = 4;
    for word in words {
        len += len_of(word);
    }
    len
}

/// Returns the words from an index on, at most `count` of them; fewer if the list ends before.
pub fn words_from(words: &[Words], from: usize, count: usize) -> &[Words]
    ensures value { result.now ≡ take count (drop from words.now) }
    ensures bound { length result.now ≤ count }
{
    let begin = from.min(words.len());
    let rest = &words[begin..];
    &rest[..count.min(rest.len())]
}

/// Returns the low word at an index; 0 past the end.
pub fn low_at(words: &[Words], place: usize) -> u16
    ensures { result ≡ low_at words.now place }
{
    if place < words.len() {
        words[place].low
    } else {
        0
    }
}

// Appends a command value of `len` bytes, of four for a `len` above that: the low bytes of the number of the cycle, the lowest first. The
// list must have room for four bytes, of 64. The lengths 2 and 4 have cases of their own, since a constant length makes the copy one store.
fn push_count(count: u32, len: u8, values: &mut ArrayVec<u8, 64>)
    requires { length values.old.items + 4 ≤ 64 }
    ensures { values.new.items ≡ values.old.items ++ value_said count len }
{
    let bytes = count.to_le_bytes();
    let _fits = match len {
        2 => values.try_extend_from_slice(&bytes[..2]),
        4 => values.try_extend_from_slice(&bytes),
        _ => values.try_extend_from_slice(&bytes[..usize::from(len).min(4)]),
    };
}

/// Puts the command values of a data record into an empty list. `count` is the number of the cycle. Each is the low bytes of this number,
/// the lowest first. `lens` has the length of each value in bytes, 0 to 4, as [`lens_of`] returns them, at most 16. They are put in place,
/// since a returned list would be copied.
pub fn put_command_values(count: u32, lens: &[u8], values: &mut ArrayVec<u8, 64>)
    requires few { length lens.now ≤ 16 }
    requires none { values.old.items ≡ [] }
    ensures { (words : List Words) → lens.now ≡ map len_of_words words → values.new.items ≡ values_said count (map long_of words) }
{
    for place in 0..lens.len() {
        push_count(count, lens[place], values);
    }
}

/// Returns the last of these identifier numbers whose value has four bytes, with its attribute; `None` if there is none. `words` are the
/// attributes, in the same order. An identifier number without an attribute is ignored, and so is an attribute without one.
pub fn last_long(idns: &[Idn], words: &[Words]) -> Option<(Idn, u32)>
    ensures { result ≡ last_long idns.now (map long_of words.now) }
{
    let count = words.len().min(idns.len());
    for i in 0..count {
        let place = count - 1 - i;
        if len_of(&words[place]) == 4 {
            return Some((idns[place], words[place].long()));
        }
    }
    None
}

/// Returns the first 64 identifier numbers of a list. Each has two bytes, the low one first; a single last byte is ignored.
#[tactic(auto, using(crate::proofs::Lists::one_idn, crate::proofs::Lists::no_idn, crate::proofs::Lists::idns_length))]
pub fn idns_in(bytes: &[u8]) -> ArrayVec<Idn, 64>
    ensures { result.items ≡ take 64 (idns_in bytes.now) }
{
    let mut idns = ArrayVec::new();
    for place in 0..64usize {
        if 2 * place + 1 < bytes.len() {
            idns.push(Idn {
                raw: u16::from_le_bytes([bytes[2 * place], bytes[2 * place + 1]]),
            });
        }
    }
    idns
}

// Returns the stop for an attribute that isn't that of a number; `None` for one of a number.
fn attribute_stop(address: u8, idn: Idn, word: u32) -> Option<Stop>
    ensures { result ≡ attribute_stop address idn word }
{
    if len_said(word).is_none() {
        Some(Stop::BadConfig {
            drive: address,
            idn,
            attribute: word,
        })
    } else {
        None
    }
}

// Returns the stop for a list of invalid data that was read, with its first 64 identifier numbers; `None` for other operation data.
fn list_stop(address: u8, idn: Idn, bytes: &[u8]) -> Option<Stop>
    ensures { result ≡ list_stop address idn.raw bytes.now }
{
    if idn == INVALID_FOR_PHASE_2 {
        Some(Stop::Check127 {
            drive: address,
            list: idns_in(bytes),
        })
    } else if idn == INVALID_FOR_PHASE_3 {
        Some(Stop::Check128 {
            drive: address,
            list: idns_in(bytes),
        })
    } else {
        None
    }
}

impl Asked {
    // Returns the stop that the bytes of a complete request of the start-up cause: `BadConfig` for a read of an attribute that isn't that
    // of a number, `Check127` or `Check128` for a read of the operation data of S-0-0021 or S-0-0022; otherwise `None`.
    fn stop_by_bytes(&self, address: u8, bytes: &[u8]) -> Option<Stop>
        ensures { result ≡ stop_by_bytes address self.now bytes.now }
    {
        if self.reads == Some(ATTRIBUTE) {
            attribute_stop(address, self.idn, low_and_high(bytes).long())
        } else if self.reads == Some(DATA) {
            list_stop(address, self.idn, bytes)
        } else {
            None
        }
    }

    /// Returns the stop that an outcome of the start-up causes at the drive with this address: a refusal, an attribute that can't be
    /// configured, or the list after a failed check. Any other outcome causes none, and neither does a broken request.
    pub fn stop_by(&self, address: u8, outcome: &Outcome) -> Option<Stop>
        ensures { result ≡ stop_by address self.now outcome.now }
    {
        match outcome {
            Outcome::Complete(bytes) => self.stop_by_bytes(address, bytes.as_slice()),
            Outcome::Refused(code) => Some(Stop::Refused {
                drive: address,
                idn: self.idn,
                code: *code,
            }),
            Outcome::Broken => None,
        }
    }
}
