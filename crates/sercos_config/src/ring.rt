// The ring's own keys, and the order of its drives. Any error may also be `Memory` instead of the refusal, as the path of a refusal takes
// memory. `Missing` means that a required key is absent, and `Kind` that a value has another TOML type.
ghost use Rattle.std.specs.Prelude.{◌≡◌, ◌≤◌, ◌<◌, ◌==◌, true, [], length, IfOk, IfSome};
ghost use Rattle.sercos_config.specs.Clauses.{are_ring_numbers, is_turn, are_turns, is_order, Gives, Shows, known, located, ring_keys, head_of, place_from, turn_of, turns_onto, listed_order, places_below, order_of};

use arrayvec::ArrayVec;
use sercos_block::DriveSetup;
use sercos_block::limits::MOST_CYCLES;
use sercos_document::{BadDocument, Keys};
use sercos_timing::limits::{LEAST_CYCLE, MOST_CYCLE, MOST_GAP};
use sercos_timing::{is_cycle, is_rate};

/// The numbers of a ring: the rate in Mbit/s, times in microseconds, and how many cycles it runs.
#[derive(Clone, Copy, Debug, PartialEq, Eq)]
pub(crate) struct Head {
    pub rate: u8,
    pub cycle: u16,
    pub control: u16,
    pub gap: u16,
    pub cycles: u32,
}

/// Reads the numbers of the ring from its table. A `control` that is absent is the cycle time, and an absent `gap` is 5 microseconds. The
/// error is `Unknown`, `Missing`, `Kind`, or `Range` with the number unless the rate is 2, 4, 8 or 16, the cycle time 125 or a multiple of
/// 250 up to 64,000, `control` a positive multiple of it up to 64,000, the gap at most 1,000, and `cycles` 1 to 50,000.
#[tactic(auto, unfolding(crate::specs::Ring::head_of, sercos_block::specs::Rings::are_ring_numbers, sercos_timing::specs::Valid::is_control))]
pub(crate) fn read_head(keys: &Keys<'_>) -> Result<Head, BadDocument>
    ensures value { Gives result (head_of (located keys.now)) }
    ensures valid { IfOk result (λ h. are_ring_numbers h.rate h.cycle h.control h.gap h.cycles ≡ true) }
{
    known(keys)?;
    let rate = keys.number("rate", 2, 16)?;
    keys.demand(is_rate(rate as u8), "rate", i64::from(rate))?;
    let most_cycle = u32::from(MOST_CYCLE);
    let cycle = keys.number("cycle", u32::from(LEAST_CYCLE), most_cycle)?;
    keys.demand(is_cycle(cycle as u16), "cycle", i64::from(cycle))?;
    let control = keys.number_or("control", 1, most_cycle, cycle)?;
    keys.demand(control % cycle == 0, "control", i64::from(control))?;
    let gap = keys.number_or("gap", 0, u32::from(MOST_GAP), 5)?;
    let cycles = keys.number("cycles", 1, MOST_CYCLES)?;
    Ok(Head {
        rate: rate as u8,
        cycle: cycle as u16,
        control: control as u16,
        gap: gap as u16,
        cycles,
    })
}

// Refuses the least key, in the order of bytes, that the table `ring` may not have, as `Unknown`.
#[tactic(auto, unfolding(crate::specs::Ring::ring_keys))]
fn known(keys: &Keys<'_>) -> Result<(), BadDocument>
    ensures { Gives result (known (located keys.now) ring_keys) }
{
    keys.known(&["rate", "cycle", "control", "gap", "cycles", "order"])
}

/// Returns the indices of the drives in the ring, from 0, in the order of the list of addresses under `order`. If the key is absent, the
/// order is that of the ring. The error is `Kind` at the list or an item; `Range` at the list, with the number of its items, if it doesn't
/// have one for each drive, or at an item, with its number, that is no drive's address; or `Twice` at an item that names a drive again.
/// There are at most 64 drives, and the result has the index of each once.
#[tactic(auto, unfolding(crate::specs::Ring::order_of, crate::specs::Ring::listed_order, sercos_block::specs::Rings::is_order))]
pub(crate) fn read_order(
    keys: &Keys<'_>,
    drives: &[DriveSetup],
) -> Result<ArrayVec<u8, 64>, BadDocument>
    requires { length drives.now ≤ 64 }
    ensures value { Shows (λ v. v.items) result (order_of drives.now (located keys.now)) }
    ensures valid { IfOk result (λ v. is_order (length drives.now) v.items ≡ true) }
{
    match keys.list("order")? {
        None => Ok(all_drives(drives.len())),
        Some(list) => {
            let addresses = keys.numbers("order", list.as_slice())?;
            keys.demand(
                addresses.len() == drives.len(),
                "order",
                addresses.len() as i64,
            )?;
            read_turns(keys, drives, "order", addresses.as_slice())
        },
    }
}

/// Returns the indices 0 to `count` - 1, ascending, of at most 64: all drives in the order of the ring.
#[tactic(auto, using(crate::proofs::OrderLemmas::places_more, crate::proofs::OrderLemmas::is_order_places), unfolding(crate::specs::Ring::places_below))]
pub(crate) fn all_drives(count: usize) -> ArrayVec<u8, 64>
    requires { count ≤ 64 }
    ensures value { result.items ≡ places_below count }
    ensures valid { is_order count result.items ≡ true }
{
    let mut order = ArrayVec::new();
    for place in 0..count {
        order.push(place as u8);
    }
    order
}

// Returns the indices of the drives with these addresses, which are the items of the list under `key`. The error is `Range` at the first
// that no drive has, with the address, or `Twice` at the first whose drive was named before. There are at most 64 drives and at most 64
// addresses. The result has one index for each address, and they are distinct.
#[tactic(auto, using(crate::proofs::OrderLemmas::turns_none, crate::proofs::OrderLemmas::turns_more), unfolding(crate::specs::Ring::turns_onto))]
fn read_turns(
    keys: &Keys<'_>,
    drives: &[DriveSetup],
    key: &str,
    addresses: &[i64],
) -> Result<ArrayVec<u8, 64>, BadDocument>
    requires many { length addresses.now ≤ 64 }
    requires drives { length drives.now ≤ 64 }
    ensures value { Shows (λ v. v.items) result
        (turns_onto drives.now keys.now.place key.now [] addresses.now) }
    ensures valid { IfOk result (λ v. are_turns (length drives.now) [] v.items ≡ true) }
    ensures count { IfOk result (λ v. length v.items ≡ length addresses.now) }
{
    let mut order = ArrayVec::new();
    for address in addresses {
        let place = read_turn(keys, drives, key, order.as_slice(), *address)?;
        order.push(place);
    }
    Ok(order)
}

// Returns the index of the drive with an address, the next item of the list under `key`. `done` has the indices for the items before it.
// The error is `Range` at the item, with the address, if no drive has it; or `Twice` at the item if `done` has its drive. There are at most
// 64 drives.
#[tactic(auto, unfolding(crate::specs::Ring::turn_of, sercos_document::specs::Answers::demand, sercos_block::specs::Rings::is_turn))]
fn read_turn(
    keys: &Keys<'_>,
    drives: &[DriveSetup],
    key: &str,
    done: &[u8],
    address: i64,
) -> Result<u8, BadDocument>
    requires { length drives.now ≤ 64 }
    ensures value { Gives result (turn_of drives.now keys.now.place key.now done.now address) }
    ensures valid { IfOk result (λ place. is_turn (length drives.now) done.now place ≡ true) }
{
    match place_of(address, drives) {
        None => Err(keys.item_range(key, done.len(), address)),
        Some(place) => {
            if done.contains(&(place as u8)) {
                Err(keys.item_twice(key, done.len()))
            } else {
                Ok(place as u8)
            }
        }
    }
}

/// Returns the index, from 0, of the first drive that has this address; `None` if none has it.
#[tactic(auto, unfolding(crate::specs::Ring::place_from))]
pub(crate) fn place_of(address: i64, drives: &[DriveSetup]) -> Option<usize>
    ensures value { result ≡ place_from 0 address drives.now }
    ensures within { IfSome result (λ place. place < length drives.now) }
{
    for (place, drive) in drives.iter().enumerate() {
        if i64::from(drive.address) == address {
            return Some(place);
        }
    }
    None
}
