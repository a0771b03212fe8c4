// The effect of faults on a passage. If nothing arrives, `bits` is unspecified.
ghost use Rattle.std.specs.Prelude.{◌≡◌};
ghost use Rattle.sercos_script.specs.Clauses.{AreByReach, arrived, links_between, carried, restarts_at, over_passage, over_all};

use crate::effect::{Way, acts, concerns, is_restart, over_way};
use crate::fault::Fault;
use crate::lanes::reach_of;
use crate::link::Passage;
use sercos_bits::BitBuf;

// Applies a fault to the bits of a passage, if it concerns the passage. Returns whether anything arrives.
fn over_passage(p: &Passage, way: Way, fault: &Fault, bits: &mut BitBuf) -> bool
    ensures { arrived result bits.new ≡ over_passage p.now way fault.now bits.old }
{
    if concerns(p, fault) {
        over_way(fault.damage, way, bits)
    } else {
        true
    }
}

// Applies to the bits of a passage the faults that concern it. Returns whether anything arrives. The faults are sorted by the number of
// bits that a frame needs to be affected, so the first that needs a longer frame ends the loop.
fn over_all(p: &Passage, way: Way, faults: &[Fault], bits: &mut BitBuf) -> bool
    requires { AreByReach faults.now }
    ensures { arrived result bits.new ≡ over_all (over_passage p.now way) faults.now bits.old }
{
    for fault in faults {
        if (bits.len() as u32) < reach_of(fault.damage) {
            return true;
        }
        if !over_passage(p, way, fault, bits) {
            return false;
        }
    }
    true
}

// Returns the number of links from one station to another, in a ring of `stations` drives. As a receiver, station 0 is at the end of the
// ring. The result is 0 if the receiver isn't after the sender.
fn links_between(stations: u8, from: u8, to: u8) -> u16
    ensures { result ≡ links_between stations from to }
{
    let end = if to == 0 {
        u16::from(stations) + 1
    } else {
        u16::from(to)
    };
    end.saturating_sub(u16::from(from))
}

// Applies to the bits of a passage those faults that concern it, in a ring of `stations` drives. Returns whether anything arrives. The
// faults are sorted by the number of bits that a frame needs to be affected.
pub(crate) fn carry(faults: &[Fault], stations: u8, p: &Passage, bits: &mut BitBuf) -> bool
    requires { AreByReach faults.now }
    ensures { arrived result bits.new ≡ carried stations faults.now p.now bits.old }
{
    let way = Way {
        link: p.from,
        count: links_between(stations, p.from, p.to),
        to: p.to,
    };
    over_all(p, way, faults, bits)
}

// Returns whether one of the faults restarts a station in a cycle.
#[tactic(auto, unfolding(crate::specs::Scripts::restarts_at))]
pub(crate) fn any_restart(faults: &[Fault], cycle: u32, station: u8) -> bool
    ensures { result ≡ restarts_at faults.now cycle station }
{
    faults.iter().any(|fault| acts(cycle, fault) && is_restart(station, fault.damage))
}
