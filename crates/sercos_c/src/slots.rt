//! The time slots of a ring: the least plan, or why there is none.
ghost use Rattle.std.specs.Prelude.{◌≡◌, ◌≢◌, ◌≤◌, ◌⊎◌, length, map, take, drop};
ghost use Rattle.sercos_c.specs.Clauses.{PlanView, IsValid, IsLeast, NoneFits, IsChain, chain_of, done, answer_no, refused, write_fault, wish_of, plan_of, link_of, chain_from, HaveRoom};
ghost use Rattle.sercos_c.specs.Slots.{wishes_of};

use crate::status::{DONE, NO, REFUSED, WRITE_FAULT};
use arrayvec::ArrayVec;
use sercos_plan::{Link, plan};
use sercos_timing::limits::MOST_DRIVES;
use sercos_timing::{Times, Wish, Wishes, valid};

// The most links of a chain.
const MOST_LINKS: usize = 66;

/// The numbers of a ring.
#[repr(C)]
#[derive(Clone, Copy)]
pub struct SercosRingTimes {
    /// The rate, in Mbit/s.
    pub rate: u8,
    /// The cycle time, in microseconds.
    pub cycle: u16,
    /// The control unit cycle time, in microseconds.
    pub control: u16,
    /// The gap between telegrams, in microseconds.
    pub gap: u16,
}

/// What a drive declares; times are in microseconds.
#[repr(C)]
#[derive(Clone, Copy)]
pub struct SercosWish {
    /// Its address.
    pub address: u8,
    /// The slave that it belongs to.
    pub slave: u8,
    /// The shortest AT starting time.
    pub t1min: u16,
    /// The transmit/receive transition time.
    pub tatmt: u16,
    /// The minimum feedback processing time.
    pub t4min: u16,
    /// The transmit to transmit recovery time.
    pub tatat: u16,
    /// The receive to receive recovery time.
    pub tmtsy: u16,
    /// The command processing time.
    pub tmtsg: u16,
    /// The bytes of its AT after the address.
    pub at_len: u16,
    /// The bytes of its record in the MDT.
    pub record_len: u16,
}

/// A plan without its slots; times are in microseconds after the MST's end.
#[repr(C)]
#[derive(Clone, Copy)]
pub struct SercosPlanTimes {
    /// When the MDT starts.
    pub t2: u16,
    /// From when command values are valid.
    pub t3: u16,
    /// The feedback capture point.
    pub t4: u16,
    /// The bytes of the MDT after its address.
    pub mdt_len: u16,
}

/// The slot of a drive.
#[repr(C)]
#[derive(Clone, Copy)]
pub struct SercosSlot {
    /// When its AT starts, in microseconds after the MST's end.
    pub t1: u16,
    /// The position of its record in the MDT, from 1 on.
    pub position: u16,
}

/// A step of a chain.
#[repr(C)]
#[derive(Clone, Copy)]
pub struct SercosLink {
    /// The number of the inequality.
    pub rule: u8,
    /// The address of its drive.
    pub drive: u8,
    /// The bit time that it requires.
    pub at: u32,
}

/// The inequality that a chain ends at.
#[repr(C)]
#[derive(Clone, Copy)]
pub struct SercosChain {
    /// Its number.
    pub rule: u8,
    /// The address of its drive.
    pub drive: u8,
    /// What it requires, in bit times.
    pub sum: u32,
    /// What there is room for, in bit times.
    pub bound: u32,
    /// The number of links before it.
    pub links: usize,
}

// Returns the planner's input of a drive.
fn wish_of(drive: &SercosWish) -> Wish
    ensures { result ≡ wish_of drive.now }
{
    Wish {
        address: drive.address,
        slave: drive.slave,
        times: Times {
            t1min: drive.t1min,
            tatmt: drive.tatmt,
            t4min: drive.t4min,
            tatat: drive.tatat,
            tmtsy: drive.tmtsy,
            tmtsg: drive.tmtsg,
        },
        at_len: drive.at_len,
        record_len: drive.record_len,
    }
}

// Returns the planner's input of the drives, at most 64, in their order.
fn drives_of(drives: &[SercosWish]) -> ArrayVec<Wish, 64>
    requires { length drives.now ≤ 64 }
    ensures { result.items ≡ map wish_of drives.now }
{
    let mut wishes = ArrayVec::new();
    for drive in drives {
        wishes.push(wish_of(drive));
    }
    wishes
}

// Returns the planner's input of a ring: its numbers, its drives, and the order of the ATs as the drives' indices, from 0. There must be at
// most 64 drives and at most 64 indices.
fn wishes_of(ring: &SercosRingTimes, drives: &[SercosWish], order: &[u8]) -> Wishes
    requires drives { length drives.now ≤ 64 }
    requires order { length order.now ≤ 64 }
    ensures { result ≡ wishes_of ring.now drives.now order.now }
{
    let mut places = ArrayVec::new();
    let _fits = places.try_extend_from_slice(order);
    Wishes {
        rate: ring.rate,
        cycle: ring.cycle,
        control: ring.control,
        gap: ring.gap,
        order: places,
        drives: drives_of(drives),
    }
}

// Writes all of `slots`: for each drive the start of its AT, `t1`, in microseconds, and the position of its record. `t1` and `position`
// must have exactly one entry for each slot.
fn write_slots(t1: &[u16], position: &[u16], slots: &mut [SercosSlot])
    requires t1 { length t1.now ≡ length slots.old }
    requires position { length position.now ≡ length slots.old }
    ensures t1 { map (λ s. s.t1) slots.new ≡ t1.now }
    ensures position { map (λ s. s.position) slots.new ≡ position.now }
{
    for place in 0..slots.len() {
        slots[place] = SercosSlot {
            t1: t1[place],
            position: position[place],
        };
    }
}

// Returns the struct of a link of a chain.
fn of_link(link: &Link) -> SercosLink
    ensures { link_of result ≡ link.now }
{
    SercosLink {
        rule: link.rule,
        drive: link.drive,
        at: link.at,
    }
}

// Writes all of `links`: the links of a chain. `links` must have exactly one entry for each.
fn write_links(from: &[Link], links: &mut [SercosLink])
    requires { length from.now ≡ length links.old }
    ensures { map link_of links.new ≡ from.now }
{
    for place in 0..links.len() {
        links[place] = of_link(&from[place]);
    }
}

// Writes the times and slots of the least plan of a valid ring, and returns `DONE`. If no plan fits, writes the chain of inequalities that
// proves it, with at most 66 links, to `chain` and `links`, and returns `NO`. There must be as many slots as drives, and at least 66 links.
// `times` and `slots` change only if the result is `DONE`, and `chain` and the first `chain.links` of `links` only if it is `NO`. Further
// links stay as they were.
fn write_plan(
    w: &Wishes,
    times: &mut SercosPlanTimes,
    slots: &mut [SercosSlot],
    chain: &mut SercosChain,
    links: &mut [SercosLink],
) -> u8
    requires valid { IsValid w.now }
    requires slots { length slots.old ≡ length w.now.drives }
    requires links { 66 ≤ length links.old }
    ensures either { (result ≡ done) ⊎ (result ≡ answer_no) }
    ensures least { result ≡ done → IsLeast w.now (plan_of times.new slots.new) }
    ensures only { (p : PlanView) → IsLeast w.now p → (result ≡ done) × (plan_of times.new slots.new ≡ p) }
    ensures proof { result ≡ answer_no → IsChain w.now (chain_from chain.new (take chain.new.links links.new)) }
    ensures chain { result ≡ answer_no → chain_from chain.new (take chain.new.links links.new) ≡ chain_of w.now }
    ensures none { result ≡ answer_no → NoneFits w.now }
    ensures within { result ≡ answer_no → chain.new.links ≤ 66 }
    ensures no_plan { result ≡ answer_no → (times.new ≡ times.old) × (slots.new ≡ slots.old) }
    ensures no_chain { result ≡ done → (chain.new ≡ chain.old) × (links.new ≡ links.old) }
    ensures rest { result ≡ answer_no → drop chain.new.links links.new ≡ drop chain.new.links links.old }
{
    match plan(w) {
        Ok(found) => {
            *times = SercosPlanTimes {
                t2: found.t2,
                t3: found.t3,
                t4: found.t4,
                mdt_len: found.mdt_len,
            };
            write_slots(found.t1(), found.position(), slots);
            DONE
        }
        Err(found) => {
            let count = found.links().len();
            *chain = SercosChain {
                rule: found.rule(),
                drive: found.drive(),
                sum: found.sum(),
                bound: found.bound(),
                links: count,
            };
            write_links(found.links(), &mut links[..count]);
            NO
        }
    }
}

/// Writes the least plan of a ring, as its times and a slot for each drive in the order of the ring, and returns `DONE`. `order` has the
/// indices of the drives, from 0, in the order of their ATs. Returns `REFUSED` unless there are 1 to 64 drives with distinct addresses from
/// 1 to 254; `order` has each index once; the rate is 2, 4, 8 or 16; the cycle time is 125, or a multiple of 250 from 250 to 64,000; the
/// control unit cycle time is a positive multiple of it; the gap is at most 1,000; each `at_len` and `record_len` is 4 to 68; and all
/// records together have at most 2,047 bytes. Otherwise it returns `WRITE_FAULT` if there are fewer slots than drives or fewer than 66
/// links. Otherwise it returns `NO` if no plan fits: `chain` and the first `chain.links` of `links`, at most 66, are then the chain of
/// inequalities that proves it. `times` and `slots` change only if the result is `DONE`, and `chain` and `links` only if it is `NO`.
/// Further slots and links stay as they were.
#[unsafe(no_mangle)]
pub extern "C" fn sercos_plan(
    ring: &SercosRingTimes,
    drives: &[SercosWish],
    order: &[u8],
    times: &mut SercosPlanTimes,
    slots: &mut [SercosSlot],
    chain: &mut SercosChain,
    links: &mut [SercosLink],
) -> u8
    ensures refused { (IsValid (wishes_of ring.now drives.now order.now) → ⊥) → result ≡ refused }
    ensures valid { result ≢ refused → IsValid (wishes_of ring.now drives.now order.now) }
    ensures no_room { IsValid (wishes_of ring.now drives.now order.now) → (HaveRoom (length drives.now) (length slots.old) (length links.old) → ⊥) → result ≡ write_fault }
    ensures answers { IsValid (wishes_of ring.now drives.now order.now) → HaveRoom (length drives.now) (length slots.old) (length links.old)
        → (result ≡ done) ⊎ (result ≡ answer_no) }
    ensures least { result ≡ done → IsLeast (wishes_of ring.now drives.now order.now) (plan_of times.new (take (length drives.now) slots.new)) }
    ensures only { (p : PlanView) → IsLeast (wishes_of ring.now drives.now order.now) p → IsValid (wishes_of ring.now drives.now order.now)
        → HaveRoom (length drives.now) (length slots.old) (length links.old)
        → (result ≡ done) × (plan_of times.new (take (length drives.now) slots.new) ≡ p) }
    ensures rest { drop (length drives.now) slots.new ≡ drop (length drives.now) slots.old }
    ensures proof { result ≡ answer_no → IsChain (wishes_of ring.now drives.now order.now) (chain_from chain.new (take chain.new.links links.new)) }
    ensures chain { result ≡ answer_no → chain_from chain.new (take chain.new.links links.new) ≡ chain_of (wishes_of ring.now drives.now order.now) }
    ensures none { result ≡ answer_no → NoneFits (wishes_of ring.now drives.now order.now) }
    ensures within { result ≡ answer_no → chain.new.links ≤ 66 }
    ensures links_after { result ≡ answer_no → drop chain.new.links links.new ≡ drop chain.new.links links.old }
    ensures no_plan { result ≢ done → (times.new ≡ times.old) × (slots.new ≡ slots.old) }
    ensures no_chain { result ≢ answer_no → (chain.new ≡ chain.old) × (links.new ≡ links.old) }
{
    let count = drives.len();
    if count > MOST_DRIVES || order.len() > MOST_DRIVES {
        return REFUSED;
    }
    let w = wishes_of(ring, drives, order);
    if !valid(&w) {
        return REFUSED;
    }
    if slots.len() < count || links.len() < MOST_LINKS {
        return WRITE_FAULT;
    }
    write_plan(&w, times, &mut slots[..count], chain, links)
}
