// The feedback values of an AT.
ghost use Rattle.std.specs.Prelude.{◌≡◌, ℕ, ◌≤◌, ◌+◌, ◌*◌, ◌++◌, length};
ghost use Rattle.sercos_drive.specs.Clauses.{flat_map, filter_map, feedback_in, feedback_of, bytes_at, feedback_bytes, value_in};

use arrayvec::ArrayVec;
use sercos_bits::Content;
use sercos_block::{Store, Stored, bits_in, is_number};
use sercos_idn::element::DATA;
use sercos_idn::{Idn, Length};
use sercos_service_drive::push_grown;

/// A feedback value: what an AT needs of a block to carry its operation data in any cycle.
#[derive(Clone, Copy)]
pub(crate) struct FeedbackValue {
    /// The length of the number: two or four bytes.
    pub kind: Length,
    /// The bits of the operation data.
    pub bits: u32,
    /// What is added to the number in each cycle.
    pub step: u32,
}

// The number 0 of two bytes, which fills unused places of the list.
impl Default for FeedbackValue {
    ghost is_default = { λ _. Unit {0} };

    fn default() -> Self {
        FeedbackValue {
            kind: Length::Two,
            bits: 0,
            step: 0,
        }
    }
}

// Returns the feedback value of a block; `None` if it isn't a number.
#[tactic(auto, unfolding(sercos_block::specs::Blocks::element_of))]
fn feedback_in(block: &Stored) -> Option<FeedbackValue>
    ensures { result ≡ feedback_in block.now }
{
    let attribute = block.attribute();
    if !is_number(&attribute) {
        return None;
    }
    let bytes = block.element(DATA)?;
    Some(FeedbackValue {
        kind: attribute.length,
        bits: bits_in(&attribute, bytes),
        step: block.step(),
    })
}

// Returns the feedback value of an identifier number; `None` if it isn't that of a number, built-in or the drive's own. By `gives` its
// bytes in any cycle are those that the definitions have for the identifier number.
fn feedback_of(store: &Store, idn: Idn) -> Option<FeedbackValue>
    ensures value { result ≡ feedback_of store.now idn }
    ensures gives { (cycle : ℕ) → feedback_bytes cycle result ≡ value_in cycle store.now idn }
{
    match store.find(idn) {
        Some(block) => feedback_in(&block),
        None => None,
    }
}

/// Returns the feedback values of at most 16 identifier numbers, in order. One that isn't that of a number is left out. By `gives` their
/// bytes in any cycle are those that the definitions have for the identifier numbers.
pub(crate) fn feedback_all(store: &Store, idns: &[Idn]) -> ArrayVec<FeedbackValue, 16>
    requires { length idns.now ≤ 16 }
    ensures value { result.items ≡ filter_map (feedback_of store.now) idns.now }
    ensures gives { (cycle : ℕ) → flat_map (bytes_at cycle) result.items ≡ flat_map (value_in cycle store.now) idns.now }
{
    let mut values = ArrayVec::new();
    for idn in idns {
        if let Some(value) = feedback_of(store, *idn) {
            values.push(value);
        }
    }
    values
}

/// Appends at most sixteen feedback values, as they are in a cycle, to `out`, which has at most five bytes: those with which an AT begins.
pub(crate) fn push_feedback(out: &mut Content, values: &[FeedbackValue], cycle: u32)
    requires few { length values.now ≤ 16 }
    requires begun { length out.old ≤ 5 }
    ensures value { out.new ≡ out.old ++ flat_map (bytes_at cycle) values.now }
    ensures longer { length out.old ≤ length out.new }
{
    for value in values {
        push_grown(out, value.kind, value.bits, value.step, cycle);
    }
}
