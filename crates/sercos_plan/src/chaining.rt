// The chain of the least times. In this file `t1` has the least T1 of each drive in microseconds, in the order of the ring, and `t2` and
// `t3` are the least T2 and T3, at most 10,000,000. The planner's input is valid, and each index is within its list.
ghost use Rattle.std.specs.Prelude.{◌≡◌, ◌+◌, ◌*◌, ◌^◌, ◌<◌, ◌≤◌, [], ◌∷◌, ◌++◌, length, slice_index, IfSome};
ghost use Rattle.sercos_plan.specs.Clauses.{first_sent, sent, place_at, at_bits, number_of, asked_of_start, asked_5, asked_6, IsValid, least_t2, least_t3, is_tight, link_of, starts, bits_of_starts, is_tight_at, AreStarts, trail, trail_to, trail_to_some, time_of, greatest_of, first_with, first_greatest, first_tight, trail_t2, trail_t3, chain_of, mst_chain, cycle_chain, capture_chain};

use crate::chain::{Chain, Link};
use crate::least::{greatest_t4min, is_mst_roomy, round_up};
use arrayvec::ArrayVec;
use sercos_timing::{Inequality, Wish, Wishes, asked_of_start, bits_after};

// Returns a number of microseconds, at most 10,000,000, in bit times, at most 160,000,000.
fn bits(w: &Wishes, micros: u32) -> u32
    requires valid { IsValid w.now }
    requires micros { micros ≤ 10_000_000 }
    ensures value { result ≡ w.now.rate * micros }
    ensures limit { result ≤ 160_000_000 }
{
    w.bits(micros) as u32
}

// Returns whether a requirement, in bit times below 2^43, determines this time, in microseconds: rounded up it is this time. `None`
// determines none.
fn is_tight(w: &Wishes, asked: Option<u64>, t: u32) -> bool
    requires valid { IsValid w.now }
    requires limit { IfSome asked (λ bits. bits < 2 ^ 43) }
    ensures { result ≡ is_tight w.now asked t }
{
    match asked {
        Some(bits) => round_up(w, bits) == u64::from(t),
        None => false,
    }
}

// Returns whether an inequality determines the T1 of the AT at index `at` of the order, by `is_tight`. Only 1 to 4 can.
fn is_start_tight(w: &Wishes, t1: &[u32], rule: Inequality, at: usize) -> bool
    requires valid { IsValid w.now }
    requires starts { AreStarts w.now t1.now }
    requires within { at < length w.now.order }
    ensures { result ≡ is_tight_at w.now (asked_of_start w.now rule) at }
{
    is_tight(
        w,
        asked_of_start(w, t1, rule, at),
        t1[usize::from(w.order()[at])],
    )
}

// Returns the link by an inequality to the T1 of the AT at index `at` of the order: with its drive's address, and this T1 in bit times.
fn start_link(w: &Wishes, t1: &[u32], rule: Inequality, at: usize) -> Link
    requires valid { IsValid w.now }
    requires starts { AreStarts w.now t1.now }
    requires within { at < length w.now.order }
    ensures { result
        ≡ link_of w.now (number_of rule) (slice_index w.now.order at) (starts w.now (slice_index w.now.order at)) }
{
    let place = usize::from(w.order()[at]);
    Link {
        rule: rule.number(),
        drive: w.wish(place).address,
        at: bits(w, t1[place]),
    }
}

// Returns two parts of the way to the T1 of the AT at index `at` of the order: the index of the earlier AT whose T1 it depends on, and the
// last link, which is by the first of 1 to 4 that determines this T1. The index is `None` for 1 and 2, which depend on no other AT.
fn step(w: &Wishes, t1: &[u32], at: usize) -> (Option<usize>, Link)
    requires valid { IsValid w.now }
    requires starts { AreStarts w.now t1.now }
    requires within { at < length w.now.order }
    ensures value { trail_to w.now at ≡ trail_to_some w.now result.0 ++ result.1 ∷ [] }
    ensures before { IfSome result.0 (λ earlier. earlier < at) }
{
    let own = is_start_tight(w, t1, Inequality::Own, at);
    let gap = is_start_tight(w, t1, Inequality::Gap, at);
    let neighbor = is_start_tight(w, t1, Inequality::Neighbor, at);
    if own {
        return (None, start_link(w, t1, Inequality::Own, at));
    }
    if gap {
        return (None, start_link(w, t1, Inequality::Gap, at));
    }
    if neighbor {
        return (
            w.neighbor_at(at),
            start_link(w, t1, Inequality::Neighbor, at),
        );
    }
    (w.previous_at(at), start_link(w, t1, Inequality::Slave, at))
}

// Appends the links to the T1 of the AT at index `at` of the order. There must be room for `at` + 1 links.
fn push_trail(w: &Wishes, t1: &[u32], at: usize, links: &mut ArrayVec<Link, 66>)
    requires valid { IsValid w.now }
    requires starts { AreStarts w.now t1.now }
    requires within { at < length w.now.order }
    requires room { length links.old.items + at < 66 }
    ensures links { links.new.items ≡ links.old.items ++ trail_to w.now at }
    ensures room { length links.new.items ≤ length links.old.items + at + 1 }
{
    let (earlier, link) = step(w, t1, at);
    if let Some(start) = earlier {
        push_trail(w, t1, start, links);
    }
    links.push(link);
}

// The times of which an inequality uses the greatest.
#[derive(Clone, Copy, Debug, PartialEq, Eq)]
enum Time {
    Tmtsy,
    Tmtsg,
    T4min,
}

// Returns a time that a drive declares, in microseconds.
fn time_of(time: Time, wish: &Wish) -> u16
    ensures { result ≡ time_of time wish.now }
{
    match time {
        Time::Tmtsy => wish.times.tmtsy,
        Time::Tmtsg => wish.times.tmtsg,
        Time::T4min => wish.times.t4min,
    }
}

// Returns the greatest value of a time, in microseconds; 0 if there is no drive.
fn greatest_of(time: Time, drives: &[Wish]) -> u16
    ensures { result ≡ greatest_of (time_of time) drives.now }
{
    let mut most = 0u16;
    for drive in drives {
        most = most.max(time_of(time, drive));
    }
    most
}

// Returns the address of the first drive of the ring whose time is `value`, in microseconds; 0 if there is none.
fn first_with(time: Time, value: u16, drives: &[Wish]) -> u8
    ensures { result ≡ first_with (time_of time) value drives.now }
{
    for drive in drives {
        if time_of(time, drive) == value {
            return drive.address;
        }
    }
    0
}

// Returns the address of the first drive of the ring whose time is the greatest; 0 if there is no drive.
fn first_greatest(time: Time, drives: &[Wish]) -> u8
    ensures { result ≡ first_greatest (time_of time) drives.now }
{
    first_with(time, greatest_of(time, drives), drives)
}

// Returns the bit time at which the AT of the drive at index `place` of the ring has ended at the latest (with the most inserted zeros), if
// it starts at its least T1, and `micros` microseconds, below 65,536, have passed since. It is below 2^42.
fn after_start(w: &Wishes, t1: &[u32], place: usize, micros: u32) -> u64
    requires valid { IsValid w.now }
    requires starts { AreStarts w.now t1.now }
    requires within { place < length w.now.drives }
    requires micros { micros < 65536 }
    ensures value { result ≡ bits_of_starts w.now place + (at_bits w.now place + w.now.rate * micros) }
    ensures limit { result < 2 ^ 42 }
{
    bits_after(w, t1, place, micros)
}

// Returns whether inequality 5 determines T2, by `is_tight`.
fn is_last_tight(w: &Wishes, t1: &[u32], t2: u32) -> bool
    requires valid { IsValid w.now }
    requires starts { AreStarts w.now t1.now }
    ensures { result ≡ is_tight w.now (asked_5 w.now (bits_of_starts w.now) (sent w.now)) t2 }
{
    let order = w.order();
    let last = usize::from(order[order.len() - 1]);
    is_tight(w, Some(after_start(w, t1, last, w.gap())), t2)
}

// Returns whether inequality 6 for the AT at index `at` of the order determines T2, by `is_tight`.
fn is_master_tight(w: &Wishes, t1: &[u32], t2: u32, at: usize) -> bool
    requires valid { IsValid w.now }
    requires starts { AreStarts w.now t1.now }
    requires within { at < length w.now.order }
    ensures { result
        ≡ is_tight w.now (asked_6 w.now (bits_of_starts w.now) (slice_index w.now.order at) (first_sent w.now.order at)) t2 }
{
    let place = usize::from(w.order()[at]);
    let tatmt = u32::from(w.wish(place).times.tatmt);
    is_tight(w, Some(after_start(w, t1, place, tatmt)), t2)
}

// Returns the index in the order of the first AT for which 6 determines T2; `None` if there is none.
fn first_tight(w: &Wishes, t1: &[u32], t2: u32) -> Option<usize>
    requires valid { IsValid w.now }
    requires starts { AreStarts w.now t1.now }
    ensures within { IfSome result (λ at. at < length w.now.order) }
    ensures value { place_at w.now result ≡ first_tight w.now (bits_of_starts w.now) t2 (sent w.now) }
{
    for at in 0..w.order().len() {
        if is_master_tight(w, t1, t2, at) {
            return Some(at);
        }
    }
    None
}

// Returns the link by an inequality, 5 or 6, to T2 for the AT at index `at` of the order: with its drive's address, and T2 in bit times.
fn t2_link(w: &Wishes, rule: Inequality, at: usize, t2: u32) -> Link
    requires valid { IsValid w.now }
    requires within { at < length w.now.order }
    requires t2 { t2 ≤ 10_000_000 }
    ensures { result ≡ link_of w.now (number_of rule) (slice_index w.now.order at) t2 }
{
    Link {
        rule: rule.number(),
        drive: w.wish(usize::from(w.order()[at])).address,
        at: bits(w, t2),
    }
}

// Returns the links to T2 by way of the T1 of the AT at index `at` of the order, at most 65. The last of them is by `rule`.
fn links_through(w: &Wishes, t1: &[u32], at: usize, rule: Inequality, t2: u32) -> ArrayVec<Link, 66>
    requires valid { IsValid w.now }
    requires starts { AreStarts w.now t1.now }
    requires within { at < length w.now.order }
    requires t2 { t2 ≤ 10_000_000 }
    ensures links { result.items
        ≡ trail w.now (starts w.now) (sent w.now) (slice_index w.now.order at)
        ++ link_of w.now (number_of rule) (slice_index w.now.order at) t2 ∷ [] }
    ensures room { length result.items ≤ 65 }
{
    let mut links = ArrayVec::new();
    push_trail(w, t1, at, &mut links);
    let link = t2_link(w, rule, at, t2);
    links.push(link);
    links
}

// Returns the links to T2, at most 65: by 5 if that determines T2, otherwise by 6 for the first AT for which that does; none if neither
// does.
fn t2_links(w: &Wishes, t1: &[u32], t2: u32) -> ArrayVec<Link, 66>
    requires valid { IsValid w.now }
    requires starts { AreStarts w.now t1.now }
    requires t2 { t2 ≡ least_t2 w.now }
    requires limit { t2 ≤ 10_000_000 }
    ensures links { result.items ≡ trail_t2 w.now }
    ensures room { length result.items ≤ 65 }
{
    if is_last_tight(w, t1, t2) {
        links_through(w, t1, w.order().len() - 1, Inequality::Last, t2)
    } else {
        match first_tight(w, t1, t2) {
            Some(at) => links_through(w, t1, at, Inequality::Master, t2),
            None => ArrayVec::new(),
        }
    }
}

// Returns the links to T3: those to T2, and one by 7 for the first drive of the ring with the greatest TMTSG.
#[tactic(auto, unfolding(crate::specs::ChainOf::trail_t3))]
fn t3_links(w: &Wishes, t1: &[u32], t2: u32, t3: u32) -> ArrayVec<Link, 66>
    requires valid { IsValid w.now }
    requires starts { AreStarts w.now t1.now }
    requires t2 { t2 ≡ least_t2 w.now }
    requires limit { t2 ≤ 10_000_000 }
    requires t3 { t3 ≡ least_t3 w.now }
    requires end { t3 ≤ 10_000_000 }
    ensures { result.items ≡ trail_t3 w.now }
{
    let mut links = t2_links(w, t1, t2);
    let link = Link {
        rule: Inequality::Records.number(),
        drive: first_greatest(Time::Tmtsg, w.drives()),
        at: bits(w, t3),
    };
    links.push(link);
    links
}

// Returns the chain to the bound of 9. `links` are those to T2. The drive is 0 if no TMTSY is above the gap, otherwise the first of the
// ring with the greatest TMTSY.
fn mst_chain(w: &Wishes, links: ArrayVec<Link, 66>, t2: u32) -> Chain
    requires valid { IsValid w.now }
    requires t2 { t2 ≡ least_t2 w.now }
    requires limit { t2 ≤ 10_000_000 }
    requires links { links.items ≡ trail_t2 w.now }
    ensures { result ≡ mst_chain w.now }
{
    let tmtsy = w.greatest_tmtsy();
    let most = w.gap().max(tmtsy);
    let drive = if tmtsy <= w.gap() {
        0
    } else {
        first_greatest(Time::Tmtsy, w.drives())
    };
    Chain {
        links,
        rule: Inequality::NextMst.number(),
        drive,
        sum: bits(w, t2) + (w.mdt_bits() as u32 + bits(w, most)),
        bound: w.recovered_by() as u32,
    }
}

// Returns the chain to the bound of 8. `links` are those to T3. The drive is the first of the ring with the greatest TMTSG.
fn cycle_chain(w: &Wishes, links: ArrayVec<Link, 66>, t3: u32) -> Chain
    requires valid { IsValid w.now }
    requires t3 { t3 ≡ least_t3 w.now }
    requires end { t3 ≤ 10_000_000 }
    requires links { links.items ≡ trail_t3 w.now }
    ensures { result ≡ cycle_chain w.now }
{
    Chain {
        links,
        rule: Inequality::Cycle.number(),
        drive: first_greatest(Time::Tmtsg, w.drives()),
        sum: bits(w, t3),
        bound: bits(w, w.cycle()),
    }
}

// Returns the chain to the bound of 10, which has no links. The drive is the first of the ring with the greatest T4min.
fn capture_chain(w: &Wishes) -> Chain
    requires { IsValid w.now }
    ensures { result ≡ capture_chain w.now }
{
    Chain {
        links: ArrayVec::new(),
        rule: Inequality::Capture.number(),
        drive: first_greatest(Time::T4min, w.drives()),
        sum: bits(w, greatest_t4min(w)),
        bound: bits(w, w.cycle()),
    }
}

// Returns the chain of the least times: to the bound of 9 if they break it, otherwise to that of 8 if they break it, otherwise to that of
// 10. They must break one of these bounds for the result to prove anything.
#[tactic(auto, unfolding(crate::specs::ChainOf::chain_of))]
pub fn chain_of(w: &Wishes, t1: &[u32], t2: u32, t3: u32) -> Chain
    requires valid { IsValid w.now }
    requires starts { AreStarts w.now t1.now }
    requires t2 { t2 ≡ least_t2 w.now }
    requires limit { t2 ≤ 10_000_000 }
    requires t3 { t3 ≡ least_t3 w.now }
    requires end { t3 ≤ 10_000_000 }
    ensures { result ≡ chain_of w.now }
{
    if !is_mst_roomy(w, t2) {
        mst_chain(w, t2_links(w, t1, t2), t2)
    } else if t3 > w.cycle() {
        cycle_chain(w, t3_links(w, t1, t2, t3), t3)
    } else {
        capture_chain(w)
    }
}
