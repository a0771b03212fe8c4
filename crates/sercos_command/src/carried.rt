// Numbers and lists of identifier numbers among the operation data of a store.
ghost use Rattle.std.specs.Prelude.{◌≡◌, ◌≤◌, ◌<◌, ◌⊎◌, ◌+◌, length, IfSome};
ghost use Rattle.sercos_command.specs.Clauses.{list_all, telegram_len, number_at, idns_in, idns_at, cyclic_len, is_cyclic, carried_len, breaks_list};

use arrayvec::ArrayVec;
use sercos_bits::byte_at;
use sercos_block::{Store, added_len, number_len};
use sercos_idn::Idn;

// The number of bytes of the two words that a telegram or a data record begins with.
pub(crate) const WORDS: u32 = 4;

/// Returns the first two bytes of the operation data of the block with the identifier number, as a number, the low byte first. A missing
/// byte is 0; so is the number if there is no such block.
#[tactic(auto, unfolding(crate::specs::Checks::number_at))]
pub fn number_at(store: &Store, idn: Idn) -> u32
    ensures value { result ≡ number_at store.now idn.raw }
    ensures bound { result < 65536 }
{
    let data = store.data(idn);
    u32::from(u16::from_le_bytes([byte_at(data, 0), byte_at(data, 1)]))
}

// Returns the identifier numbers that bytes spell, two bytes each, the low byte first. There are at most 32 bytes, and an odd last byte is
// ignored.
fn idns_in(bytes: &[u8]) -> ArrayVec<Idn, 16>
    requires { length bytes.now ≤ 32 }
    ensures { result.items ≡ idns_in bytes.now }
{
    let mut idns = ArrayVec::new();
    for place in 0..bytes.len() / 2 {
        let raw = u16::from_le_bytes([bytes[2 * place], bytes[2 * place + 1]]);
        idns.push(Idn { raw });
    }
    idns
}

/// Returns the identifier numbers in a configuration list (IEC 61491:1995): S-0-0016 for the AT, S-0-0024 for the MDT. There are at most
/// 16. Without the block there are none.
#[tactic(auto, unfolding(crate::specs::Checks::idns_at))]
pub fn idns_at(store: &Store, list: Idn) -> ArrayVec<Idn, 16>
    requires { (list.raw ≡ 16) ⊎ (list.raw ≡ 24) }
    ensures { result.items ≡ idns_at store.now list.raw }
{
    idns_in(store.data(list))
}

// Returns the number of bytes that an identifier number adds to a telegram: two or four for a number. `None` if the drive has no such
// block, or it is a list or a procedure command.
fn cyclic_len(store: &Store, idn: Idn) -> Option<usize>
    ensures value { result ≡ cyclic_len store.now idn.raw }
    ensures bound { IfSome result (λ len. len ≤ 4) }
{
    match store.attribute(idn) {
        Ok(attribute) => number_len(attribute),
        Err(_) => None,
    }
}

// Returns the number of bytes of two words and of the values of a list of at most 16 identifier numbers: 4 to 68. An identifier number that
// no telegram can carry adds nothing.
fn listed_len(store: &Store, idns: &[Idn]) -> u32
    requires { length idns.now ≤ 16 }
    ensures value { result ≡ telegram_len (λ idn. cyclic_len store.now idn.raw) idns.now }
    ensures bounds { (4 ≤ result) × (result ≤ 68) }
{
    let mut len = WORDS;
    for idn in idns {
        len += u32::from(added_len(cyclic_len(store, *idn)));
    }
    len
}

/// Returns the number of bytes of an AT after its address (S-0-0016), or of a data record of the MDT (S-0-0024): two words, and two or four
/// bytes for each number in the list. An entry that isn't the identifier number of a number adds nothing. There are 4 to 68.
#[tactic(auto, unfolding(crate::specs::Checks::carried_len))]
pub fn carried_len(store: &Store, list: Idn) -> u32
    requires { (list.raw ≡ 16) ⊎ (list.raw ≡ 24) }
    ensures value { result ≡ carried_len store.now list.raw }
    ensures bounds { (4 ≤ result) × (result ≤ 68) }
{
    listed_len(store, idns_at(store, list).as_slice())
}

// Returns whether a telegram can carry every entry of a list.
fn are_cyclic(store: &Store, idns: &[Idn]) -> bool
    ensures { result ≡ list_all (is_cyclic store.now) idns.now }
{
    idns.iter().all(|idn| cyclic_len(store, *idn).is_some())
}

// Returns whether a configuration list, S-0-0016 or S-0-0024, has an identifier number that no telegram can carry: the drive has no such
// block, or it is a list or a procedure command.
#[tactic(auto, unfolding(crate::specs::Checks::breaks_list))]
pub(crate) fn breaks_list(list: Idn, store: &Store) -> bool
    requires { (list.raw ≡ 16) ⊎ (list.raw ≡ 24) }
    ensures { result ≡ breaks_list list.raw store.now }
{
    !are_cyclic(store, idns_at(store, list).as_slice())
}
