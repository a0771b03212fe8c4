// Lists at the front of a text: one or more items, each after a space.
ghost use Rattle.std.specs.Prelude.{◌≡◌, ◌<◌, ◌≤◌, ◌+◌, ◌++◌, ◌∷◌, [], true, length, drop, IfOk, IfErr, OnOk};
ghost use Rattle.sercos_text.specs.Clauses.{result_err, item_fault, item_len, item_of, listed_fault, listed_len, list_fault, list_len, list_of, kept_of, goes_on};
ghost use Rattle.sercos_text.specs.declared.list.Item.TheVariants as kind;

use crate::number::read_number;
use arrayvec::ArrayVec;
use sercos_idn::idn_fault;

/// The kind of the items of a list.
#[derive(Clone, Copy, Debug, PartialEq, Eq)]
pub enum Item {
    /// A decimal number up to 255.
    Address,
    /// An identifier number, such as `S-0-0016`.
    Ident,
}

/// The most addresses of a list.
pub const MOST_ADDRESSES: usize = 64;

/// The addresses of a list.
pub type Addresses = ArrayVec<u8, MOST_ADDRESSES>;

// The number of bytes of an identifier number's text.
const IDENT_LEN: usize = 8;

// Reads an identifier number at the front of a text, and returns the number of bytes that it takes, 8. The error is the index of the first
// byte that doesn't fit, at most the text's length; for a number above 4095 that of its first digit, 4.
#[tactic(auto, unfolding(crate::specs::Lists::item_fault, crate::specs::Lists::item_len))]
pub(crate) fn read_ident(text: &[u8]) -> Result<usize, usize>
    ensures fault { result_err result ≡ item_fault kind.Ident text.now }
    ensures len { IfOk result (λ len. len ≡ item_len kind.Ident text.now) }
    ensures bound { IfOk result (λ len. len ≤ length text.now) }
    ensures place { IfErr result (λ place. place ≤ length text.now) }
{
    match idn_fault(&text[..IDENT_LEN.min(text.len())]) {
        Some(place) => Err(place),
        None => Ok(IDENT_LEN),
    }
}

// Reads an item at the front of a text, and returns the number of bytes that it takes, and its value if it is an address. Of identifier
// numbers no value is kept (`kept_of`), so the value returned for one is unspecified. The error is that of `read_number` with 255, or of `read_ident`, at most the text's length.
#[tactic(auto, unfolding(crate::specs::Lists::item_fault, crate::specs::Lists::item_len, crate::specs::Lists::item_of, crate::specs::Lists::kept_of))]
fn read_item(item: Item, text: &[u8]) -> Result<(usize, u8), usize>
    ensures fault { result_err result ≡ item_fault item text.now }
    ensures len { IfOk result (λ r. r.0 ≡ item_len item text.now) }
    ensures bound { IfOk result (λ r. r.0 ≤ length text.now) }
    ensures value { IfOk result (λ r. kept_of item (r.1 ∷ []) ≡ kept_of item (item_of item text.now ∷ [])) }
    ensures place { IfErr result (λ place. place ≤ length text.now) }
{
    match item {
        Item::Address => match read_number(text, 255) {
            Ok((len, number)) => Ok((len, number as u8)),
            Err(place) => Err(place),
        },
        Item::Ident => match read_ident(text) {
            Ok(len) => Ok((len, 0)),
            Err(place) => Err(place),
        },
    }
}

// Returns whether a text begins with a space.
fn goes_on(text: &[u8]) -> bool
    ensures value { result ≡ goes_on text.now }
    ensures some { result ≡ true → 0 < length text.now }
{
    text.first() == Some(&b' ')
}

// Reads a space and an item at the front of a text, with the results of `read_item`. Numbers of bytes and indices include the space.
// Without the space the error is 0.
#[tactic(auto, unfolding(crate::specs::Lists::listed_fault))]
fn read_listed(item: Item, text: &[u8]) -> Result<(usize, u8), usize>
    ensures fault { result_err result ≡ listed_fault item text.now }
    ensures len { IfOk result (λ r. r.0 ≡ listed_len item text.now) }
    ensures bound { IfOk result (λ r. r.0 ≤ length text.now) }
    ensures value { IfOk result (λ r. kept_of item (r.1 ∷ []) ≡ kept_of item (item_of item (drop 1 text.now) ∷ [])) }
    ensures place { IfErr result (λ place. place ≤ length text.now) }
{
    if !goes_on(text) {
        return Err(0);
    }
    match read_item(item, &text[1..]) {
        Ok((len, value)) => Ok((1 + len, value)),
        Err(place) => Err(1 + place),
    }
}

// Appends the value of an item if it is an address. Then there must be fewer than 64.
#[tactic(auto, unfolding(crate::specs::Lists::kept_of))]
fn keep(item: Item, value: u8, items: &mut Addresses)
    requires { item ≡ kind.Address → length items.old.items < 64 }
    ensures { items.new.items ≡ items.old.items ++ kept_of item (value ∷ []) }
{
    if item == Item::Address {
        items.push(value);
    }
}

/// Reads 1 to `most` items at the front of a text, each after a space, and returns the number of bytes that they take. `most` is at most 64
/// for addresses. `items` is replaced by the addresses read; identifier numbers are only checked, and leave it empty. The error is the
/// index of the first byte that doesn't fit, at most one more than the text's length. Of an item too many and of an address above 255 that
/// is its first byte after the space, of an identifier number above 4095 the first of its four digits; if `most` is 0 it is 1. After an
/// error `items` is unspecified.
pub fn read_list(
    item: Item,
    most: usize,
    text: &[u8],
    items: &mut Addresses,
) -> Result<usize, usize>
    requires { item ≡ kind.Address → most ≤ 64 }
    ensures items { OnOk result (items.new.items ≡ kept_of item (list_of item most text.now)) }
    ensures fault { result_err result ≡ list_fault item most text.now }
    ensures len { IfOk result (λ len. len ≡ list_len item most text.now) }
    ensures bound { IfOk result (λ len. len ≤ length text.now) }
    ensures place { IfErr result (λ place. place ≤ length text.now + 1) }
{
    items.clear();
    let mut at = 0;
    for _ in 0..most {
        match read_listed(item, &text[at..]) {
            Ok((len, value)) => {
                keep(item, value, items);
                at += len;
            }
            Err(place) => return Err(at + place),
        }
        if !goes_on(&text[at..]) {
            return Ok(at);
        }
    }
    Err(at + 1)
}
