// Whether a chain proves that no plan fits, from the planner's input and the chain alone. The input is valid, and each index is within its
// list. What an inequality requires is in bit times, below 2^42.
ghost use Rattle.std.specs.Prelude.{◌≡◌, ◌+◌, ◌*◌, ◌^◌, ◌<◌, ◌↔◌, length, slice_index, IsTrue, IfSome, Some, None, option_map, ◌&&◌, ◌==◌};
ghost use Rattle.sercos_plan.specs.Clauses.{at_bits, first_sent, sent, place_at, of_number, asked_5, asked_7, IsValid, NoneFits, moment_of, is_t1, is_t2, is_t3, up_to, last_place, is_t1_of, given_if, asked_after, last_link, pause_of, ends, IsChain, gives, are_linked, ats_at, Cycle, NextMst, Capture};

use crate::chain::{Chain, Link};
use sercos_timing::{Inequality, Wishes};

// Returns the index in the order of the AT of the drive with an address; `None` if there is no such drive.
fn find(w: &Wishes, address: u8) -> Option<usize>
    requires { IsValid w.now }
    ensures within { IfSome result (λ at. at < length w.now.order) }
    ensures value { up_to w.now address (sent w.now) ≡ ats_at w.now.order result }
{
    let order = w.order();
    let mut found = None;
    for at in 0..order.len() {
        if w.wish(usize::from(order[at])).address == address {
            found = Some(at);
        }
    }
    found
}

// Returns whether a link by the inequality with this number bounds T1 of its drive, as 1 to 4 do.
fn is_t1(number: u8) -> bool
    ensures { result ≡ is_t1 (moment_of (of_number number)) }
{
    matches!(
        Inequality::of_number(number),
        Some(Inequality::Own | Inequality::Gap | Inequality::Neighbor | Inequality::Slave)
    )
}

// Returns whether a link by the inequality with this number bounds T2, as 5 and 6 do.
fn is_t2(number: u8) -> bool
    ensures { result ≡ is_t2 (moment_of (of_number number)) }
{
    matches!(
        Inequality::of_number(number),
        Some(Inequality::Last | Inequality::Master)
    )
}

// Returns the index in the ring of the drive at an index of the order; `None` for `None`.
fn place(w: &Wishes, at: Option<usize>) -> Option<usize>
    requires valid { IsValid w.now }
    requires within { IfSome at (λ i. i < length w.now.order) }
    ensures within { IfSome result (λ place. place < length w.now.drives) }
    ensures value { result ≡ place_at w.now at }
{
    match at {
        Some(i) => Some(usize::from(w.order()[i])),
        None => None,
    }
}

// Returns whether a link bounds T1 of the drive at an index of the ring; false for `None`.
fn is_t1_of(w: &Wishes, link: Link, place: Option<usize>) -> bool
    requires valid { IsValid w.now }
    requires within { IfSome place (λ j. j < length w.now.drives) }
    ensures { result ≡ is_t1_of w.now link place }
{
    match place {
        Some(j) => is_t1(link.rule) && w.wish(j).address == link.drive,
        None => false,
    }
}

// Returns the bit time at which the AT of the drive at an index of the ring has ended at the latest (with the most inserted zeros), if it
// starts at the bit time of the link, and `micros` microseconds, below 65,536, have passed since. The result is `None` unless the link
// bounds T1 of this drive.
fn after_start(w: &Wishes, link: Link, place: Option<usize>, micros: u32) -> Option<u64>
    requires valid { IsValid w.now }
    requires within { IfSome place (λ j. j < length w.now.drives) }
    requires micros { micros < 65536 }
    ensures value { result
        ≡ given_if (is_t1_of w.now link place) (option_map (λ j. link.at + (at_bits w.now j + w.now.rate * micros)) place) }
    ensures limit { IfSome result (λ asked. asked < 2 ^ 42) }
{
    match place {
        Some(j) => {
            if is_t1_of(w, link, Some(j)) {
                Some(u64::from(link.at) + (w.at_bits(j) + w.bits(micros)))
            } else {
                None
            }
        }
        None => None,
    }
}

// Returns what 5 requires of T2 after a link; `None` unless the link bounds T1 of the drive at index `at` of the order, and its AT is the
// last.
fn after_last(w: &Wishes, link: Link, at: usize) -> Option<u64>
    requires valid { IsValid w.now }
    requires within { at < length w.now.order }
    ensures value { let k = slice_index w.now.order at in
        result
        ≡ given_if (is_t1_of w.now link (Some k) && (k == last_place w.now)) (asked_5 w.now (λ _. link.at) (sent w.now)) }
    ensures limit { IfSome result (λ asked. asked < 2 ^ 42) }
{
    let order = w.order();
    let place = usize::from(order[at]);
    let last = usize::from(order[order.len() - 1]);
    if is_t1_of(w, link, Some(place)) && place == last {
        Some(u64::from(link.at) + (w.at_bits(last) + w.bits(w.gap())))
    } else {
        None
    }
}

// Returns what 7 requires of T3 for the drive at index `at` of the order, after a link; `None` unless the link bounds T2.
fn after_records(w: &Wishes, link: Link, at: usize) -> Option<u64>
    requires valid { IsValid w.now }
    requires within { at < length w.now.order }
    ensures value { result
        ≡ given_if (is_t2 (moment_of (of_number link.rule)))
        (asked_7 w.now link.at (slice_index w.now.order at) (first_sent w.now.order at)) }
    ensures limit { IfSome result (λ asked. asked < 2 ^ 42) }
{
    if is_t2(link.rule) {
        let tmtsg = u32::from(w.wish(usize::from(w.order()[at])).times.tmtsg);
        Some(u64::from(link.at) + (w.mdt_bits() + w.bits(tmtsg)))
    } else {
        None
    }
}

// Returns what the inequality of a first link requires of the T1 of the AT at index `at` of the order, in bit times. `None` means that a
// chain can't begin with it: it is neither 1, nor 2 for the first AT of the order.
fn asked_first(w: &Wishes, rule: Option<Inequality>, at: usize) -> Option<u64>
    requires valid { IsValid w.now }
    requires within { at < length w.now.order }
    ensures value { result ≡ asked_after w.now rule None (ats_at w.now.order (Some at)) }
    ensures limit { IfSome result (λ asked. asked < 2 ^ 42) }
{
    let t1min = u32::from(w.wish(usize::from(w.order()[at])).times.t1min);
    match rule {
        Some(Inequality::Own) => Some(w.bits(t1min)),
        Some(Inequality::Gap) => { if at == 0 { Some(w.bits(w.gap())) } else { None } }
        _ => None,
    }
}

// Returns what the inequality of a later link requires after the link before it, `link`, in bit times. The drive of the later link sends
// the AT at index `at` of the order. `None` means that it can't follow `link`: it isn't one of 3 to 7, or the earlier time in it isn't the
// one that `link` bounds.
fn asked_next(w: &Wishes, rule: Option<Inequality>, link: Link, at: usize) -> Option<u64>
    requires valid { IsValid w.now }
    requires within { at < length w.now.order }
    ensures value { result ≡ asked_after w.now rule (Some link) (ats_at w.now.order (Some at)) }
    ensures limit { IfSome result (λ asked. asked < 2 ^ 42) }
{
    let own = usize::from(w.order()[at]);
    let times = w.wish(own).times;
    match rule {
        Some(Inequality::Neighbor) => after_start(w, link, place(w, w.neighbor_at(at)), w.gap()),
        Some(Inequality::Slave) => after_start(
            w,
            link,
            place(w, w.previous_at(at)),
            u32::from(times.tatat),
        ),
        Some(Inequality::Last) => after_last(w, link, at),
        Some(Inequality::Master) => after_start(w, link, Some(own), u32::from(times.tatmt)),
        Some(Inequality::Records) => after_records(w, link, at),
        _ => None,
    }
}

// Returns whether a bit time equals a requirement, in bit times below 2^42, rounded up to a whole microsecond; false for `None`.
fn gives(w: &Wishes, asked: Option<u64>, time: u32) -> bool
    requires valid { IsValid w.now }
    requires limit { IfSome asked (λ bits. bits < 2 ^ 42) }
    ensures { result ≡ gives w.now asked time }
{
    let rate = w.bits(1);
    match asked {
        Some(bits) => u64::from(time) == rate * ((bits + (rate - 1)) / rate),
        None => false,
    }
}

// Returns whether a link follows from the planner's input and the link before it, if there is one: its bit time is what its inequality then
// requires, rounded up to a whole microsecond. It doesn't if no drive has its address.
fn follows(w: &Wishes, from: Option<Link>, link: Link) -> bool
    requires { IsValid w.now }
    ensures { result
        ≡ gives w.now (asked_after w.now (of_number link.rule) from (up_to w.now link.drive (sent w.now))) link.at }
{
    let rule = Inequality::of_number(link.rule);
    match find(w, link.drive) {
        Some(at) => match from {
            Some(before) => gives(w, asked_next(w, rule, before, at), link.at),
            None => gives(w, asked_first(w, rule, at), link.at),
        },
        None => false,
    }
}

// Returns whether each link follows from the planner's input and the link before it, and the first from the input alone.
fn are_linked(w: &Wishes, links: &[Link]) -> bool
    requires { IsValid w.now }
    ensures { result ≡ are_linked w.now None links.now }
{
    let mut from = None;
    for link in links {
        if !follows(w, from, *link) {
            return false;
        }
        from = Some(*link);
    }
    true
}

// Returns the last link, if there is one.
fn last_link(links: &[Link]) -> Option<Link>
    ensures { result ≡ last_link None links.now }
{
    let mut last = None;
    for link in links {
        last = Some(*link);
    }
    last
}

// Returns the time used as the greatest TMTSY, in microseconds: that of the drive with an address, or the gap for address 0. `None` means
// that there is no such drive.
fn pause(w: &Wishes, drive: u8) -> Option<u32>
    requires { IsValid w.now }
    ensures value { result ≡ pause_of w.now drive }
    ensures limit { IfSome result (λ micros. micros < 65536) }
{
    if drive == 0 {
        Some(w.gap())
    } else {
        match find(w, drive) {
            Some(at) => Some(u32::from(w.wish(usize::from(w.order()[at])).times.tmtsy)),
            None => None,
        }
    }
}

// Returns the sum and the bound of 9 after the last link, in bit times; `None` unless this link bounds T2, and a drive has the address or
// it is 0.
fn end_mst(w: &Wishes, drive: u8, last: Option<Link>) -> Option<(u64, u64)>
    requires { IsValid w.now }
    ensures { result ≡ ends w.now (Some NextMst) drive last }
{
    match last {
        Some(link) => {
            if is_t2(link.rule) {
                match pause(w, drive) {
                    Some(micros) => {
                        let most = w.gap().max(micros);
                        let sum = u64::from(link.at) + (w.mdt_bits() + w.bits(most));
                        Some((sum, w.recovered_by()))
                    }
                    None => None,
                }
            } else {
                None
            }
        }
        None => None,
    }
}

// Returns the sum and the bound of 8 after the last link, in bit times; `None` unless there is one, by 7 and for the same drive.
fn end_cycle(w: &Wishes, drive: u8, last: Option<Link>) -> Option<(u64, u64)>
    requires { IsValid w.now }
    ensures { result ≡ ends w.now (Some Cycle) drive last }
{
    match last {
        Some(link) => {
            let is_t3 = matches!(Inequality::of_number(link.rule), Some(Inequality::Records));
            if is_t3 && drive == link.drive {
                Some((u64::from(link.at), w.bits(w.cycle())))
            } else {
                None
            }
        }
        None => None,
    }
}

// Returns the sum and the bound of 10, in bit times, before which there is no link; `None` if there is one, or no drive with the address.
fn end_capture(w: &Wishes, drive: u8, last: Option<Link>) -> Option<(u64, u64)>
    requires { IsValid w.now }
    ensures { result ≡ ends w.now (Some Capture) drive last }
{
    match last {
        Some(_) => None,
        None => match find(w, drive) {
            Some(at) => {
                let t4min = u32::from(w.wish(usize::from(w.order()[at])).times.t4min);
                Some((w.bits(t4min), w.bits(w.cycle())))
            }
            None => None,
        },
    }
}

// Returns the sum and the bound of an inequality after the last link, in bit times; `None` if it isn't 8, 9 or 10, or if `end_cycle`,
// `end_mst` or `end_capture` returns it.
fn end(w: &Wishes, rule: Option<Inequality>, drive: u8, last: Option<Link>) -> Option<(u64, u64)>
    requires { IsValid w.now }
    ensures { result ≡ ends w.now rule drive last }
{
    match rule {
        Some(Inequality::Cycle) => end_cycle(w, drive, last),
        Some(Inequality::NextMst) => end_mst(w, drive, last),
        Some(Inequality::Capture) => end_capture(w, drive, last),
        _ => None,
    }
}

// Returns whether a chain's sum and bound are those of its inequality after its last link.
fn is_ended(w: &Wishes, c: &Chain) -> bool
    requires { IsValid w.now }
    ensures { IsTrue result
        ↔ (ends w.now (of_number c.now.rule) c.now.drive (last_link None c.now.links) ≡ Some (c.now.sum, c.now.bound)) }
{
    let last = last_link(c.links());
    match end(w, Inequality::of_number(c.rule()), c.drive(), last) {
        Some((sum, bound)) => sum == u64::from(c.sum()) && bound == u64::from(c.bound()),
        None => false,
    }
}

// Returns whether all three hold.
fn are_all(linked: bool, ended: bool, above: bool) -> bool
    ensures { IsTrue result ↔ (IsTrue linked × IsTrue ended × IsTrue above) }
{
    linked && ended && above
}

/// Returns whether a chain proves that no plan fits valid input: each link follows from the planner's input and the link before it, and the
/// chain ends in a sum that is above its bound. This is computed from the planner's input and the chain alone, without a planner. If the
/// result is true, no plan fits.
pub fn check_chain(w: &Wishes, c: &Chain) -> bool
    requires { IsValid w.now }
    ensures exact { IsTrue result ↔ IsChain w.now c.now }
    ensures none { IsTrue result → NoneFits w.now }
{
    let linked = are_linked(w, c.links());
    let ended = is_ended(w, c);
    let above = c.sum() > c.bound();
    are_all(linked, ended, above)
}
