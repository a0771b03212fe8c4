// The effect of one fault.
ghost use Rattle.std.specs.Prelude.{◌≡◌, ◌%◌, ◌==◌};
ghost use Rattle.sercos_script.specs.Clauses.{arrived, is_kind, acts, concerns, flipped, is_restart, has_link, over_way};

use crate::fault::{Damage, Fault};
use crate::link::Passage;
use sercos_bits::BitBuf;
use sercos_telegram::Kind;

// Returns whether a fault acts in a cycle: it is from `cycle` to `last` of the fault, and its distance from `cycle` is a multiple of
// `every`. If that is 0, the fault acts in `cycle` alone.
#[tactic(auto, unfolding(crate::specs::Scripts::acts))]
pub(crate) fn acts(cycle: u32, fault: &Fault) -> bool
    ensures { result ≡ acts cycle fault.now }
{
    if cycle < fault.cycle || fault.last < cycle {
        return false;
    }
    // The only multiple of 0 is 0.
    let since = cycle - fault.cycle;
    since == 0 || fault.every != 0 && since % fault.every == 0
}

// Returns whether two kinds are the same.
fn is_kind(kind: Kind, other: Kind) -> bool
    ensures { result ≡ is_kind kind other }
{
    match (kind, other) {
        (Kind::Mst, Kind::Mst) | (Kind::At, Kind::At) | (Kind::Mdt, Kind::Mdt) => true,
        _ => false,
    }
}

// Returns whether a fault concerns a passage: it acts in its cycle, on the telegrams of its kind from its sender.
pub(crate) fn concerns(p: &Passage, fault: &Fault) -> bool
    ensures { result ≡ concerns p.now fault.now }
{
    acts(p.cycle, fault) && is_kind(fault.kind, p.kind) && fault.from == p.from
}

// Complements the bit at an index. If there is none, nothing changes.
fn flip(bits: &mut BitBuf, place: u32)
    ensures { bits.new ≡ flipped place bits.old }
{
    if (place as usize) < bits.len() {
        bits.flip(place as usize);
    }
}

// The links of a telegram on its way to one station: `count` links from the number `link` on, and the station `to` at their end.
#[derive(Clone, Copy)]
pub(crate) struct Way {
    pub link: u8,
    pub count: u16,
    pub to: u8,
}

// Returns whether a link is part of a way.
fn has_link(way: Way, link: u8) -> bool
    ensures { result ≡ has_link way link }
{
    way.link <= link && u32::from(link) < u32::from(way.link) + u32::from(way.count)
}

// Applies a damage to the bits that are sent over a way. Returns whether anything arrives. If not, `bits` is unspecified.
pub(crate) fn over_way(damage: Damage, way: Way, bits: &mut BitBuf) -> bool
    ensures { arrived result bits.new ≡ over_way damage way bits.old }
{
    match damage {
        Damage::Lose { link } => !has_link(way, link),
        Damage::Flip { link, bit } => {
            if has_link(way, link) {
                flip(bits, bit);
            }
            true
        }
        Damage::Cut { link, bit } => {
            if has_link(way, link) {
                bits.cut(bit as usize);
            }
            true
        }
        Damage::Deaf { station } => station != way.to,
        Damage::Restart { station: _ } => true,
    }
}

// Returns whether a damage is the restart of this station.
pub(crate) fn is_restart(station: u8, damage: Damage) -> bool
    ensures { result ≡ is_restart station damage }
{
    match damage {
        Damage::Restart { station: at } => at == station,
        _ => false,
    }
}
