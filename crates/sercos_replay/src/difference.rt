// Where a station deviated from its rules.
ghost use Rattle.std.specs.Prelude.{◌≡◌, ◌*◌, ◌<◌, pos, true, length, is_some, option_map, Some, None};
ghost use Rattle.sercos_replay.specs.Clauses.{bytes_eq, Kind, agree, expected_as, if_differs, if_told, telegram_at};

use sercos_bits::Content;
use sercos_hdlc::frame_len;
use sercos_telegram::Kind;
use sercos_trace::Sent;
use std::marker::Model;

/// A place of a capture at which a station deviated from its rules. Contracts see the record of its fields.
#[derive(Debug, Drop)]
pub struct Difference {
    /// The number of the cycle.
    pub cycle: u32,
    /// The kind of the telegram.
    pub kind: Kind,
    /// The telegram that the station was to send there, if it was to send one.
    pub expected: Option<Sent>,
    /// The telegram that the capture has, if it has one.
    pub found: Option<Sent>,
}

impl Model for Difference {
    ghost use Rattle.sercos_replay.specs.Places.{PlaceView};

    ghost Value = { PlaceView };

    ghost view = { λ d. record { cycle = d.cycle; kind = d.kind; expected = d.expected; found = d.found } };
}

impl Difference {
    /// Returns a place whose contents are unspecified.
    pub(crate) fn new() -> Difference {
        Difference {
            cycle: 0,
            kind: Kind::Mst,
            expected: None,
            found: None,
        }
    }

    /// Returns a copy.
    pub(crate) fn copy(&self) -> Difference
        ensures { result ≡ self.now }
    {
        Difference {
            cycle: self.cycle,
            kind: self.kind,
            expected: found_copy(self.expected.as_ref()),
            found: found_copy(self.found.as_ref()),
        }
    }
}

// Returns a copy of a content.
fn copy_of(content: &Content) -> Content
    ensures { result ≡ content.now }
{
    let mut copy = Content::new();
    copy.assign(content.as_slice());
    copy
}

// Returns the telegram of a kind with this content, which must not be empty. `start` is in bit times after the MST's end, and the length is
// that of the content's frame, in bits.
fn telegram_at(kind: Kind, content: &Content, start: i32) -> Sent
    requires { 0 < length content.now }
    ensures { result ≡ telegram_at kind content.now start }
{
    Sent {
        kind,
        start,
        bits: frame_len(content.as_slice()),
        content: copy_of(content),
    }
}

// Returns the telegram of a kind with this content and start, in bit times after the MST's end; `None` if it has no start. With a start the
// content must not be empty; without one it is ignored.
fn expected_as(kind: Kind, content: &Content, start: Option<i32>) -> Option<Sent>
    requires { is_some start ≡ true → 0 < length content.now }
    ensures { result ≡ expected_as kind content.now start }
{
    match start {
        Some(start) => Some(telegram_at(kind, content, start)),
        None => None,
    }
}

// Returns a copy of a telegram; `None` if there is none.
fn found_copy(found: Option<&Sent>) -> Option<Sent>
    ensures { result ≡ option_map (λ s. s.now) found.entry }
{
    match found {
        Some(sent) => Some(Sent {
            kind: sent.kind,
            start: sent.start,
            bits: sent.bits,
            content: copy_of(&sent.content),
        }),
        None => None,
    }
}

// Returns whether a telegram has this content.
fn has_content(sent: &Sent, content: &Content) -> bool
    ensures { result ≡ bytes_eq content.now sent.now.content }
{
    content.as_slice() == sent.content.as_slice()
}

// Returns whether `found` is what was to be sent: a telegram with this content and start, in bit times, or none if there is no start. The
// kind and the length of `found` are not compared.
fn agree(content: &Content, start: Option<i32>, found: Option<&Sent>) -> bool
    ensures { (kind : Kind) → result ≡ agree (expected_as kind content.now start) (option_map (λ s. s.now) found.entry) }
{
    match start {
        Some(at) => match found {
            Some(sent) => at == sent.start && has_content(sent, content),
            None => false,
        },
        None => found.is_none(),
    }
}

/// Compares what a station was to send at a place with `found`, the telegram of the capture, and returns whether they differ. The station
/// was to send `content`, which must not be empty, at `start`, in bit times after the MST's end; nothing if there is no start. `cycle` and
/// `kind` are those of the place, and are not compared. If they differ, the place is put into `told`, otherwise `told` is unspecified: in
/// the contract `if_differs` is the place, or `None` where both agree, and `if_told` is `told`, or `None` for the result false.
pub(crate) fn compare(
    told: &mut Difference,
    cycle: u32,
    kind: Kind,
    start: Option<i32>,
    content: &Content,
    found: Option<&Sent>,
) -> bool
    requires { is_some start ≡ true → 0 < length content.now }
    ensures { if_differs (record { cycle = cycle; kind = kind; expected = expected_as kind content.now start; found = option_map (λ s. s.now) found.entry }) ≡ if_told result told.new }
{
    if agree(content, start, found) {
        return false;
    }
    told.cycle = cycle;
    told.kind = kind;
    told.expected = expected_as(kind, content, start);
    told.found = found_copy(found);
    true
}

/// Returns a start in bit times: `start`, in microseconds, times `rate`, in Mbit/s; `None` if there is no start.
pub(crate) fn in_bits(rate: u8, start: Option<u16>) -> Option<i32>
    ensures { result ≡ option_map (λ at. pos (rate * at)) start }
{
    match start {
        Some(at) => Some(i32::from(rate) * i32::from(at)),
        None => None,
    }
}
