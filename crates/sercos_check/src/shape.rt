// The shape of a capture.
ghost use Rattle.std.specs.Prelude.{◌≡◌, ◌-◌, ◌<◌, ◌≤◌, ◌==◌, ◌↔◌, nat_lt, ◌&&◌, true, false, IsTrue, if◌then◌else◌, List, [], ◌∷◌, ◌++◌, length};
ghost use Rattle.sercos_check.specs.Clauses.{position, most_drives, IsValid, Line, drive_or_order, drive_place, places, no_wishes, wishes_by, has_head, CanFollow, HeadStandsFor, IsReady};
ghost use Rattle.sercos_check.specs.declared.awaited.Awaited.TheVariants as awaited;

use crate::awaited::Awaited;
use arrayvec::ArrayVec;
use sercos_timing::{Wish, Wishes, valid};
use sercos_trace::Line;
use std::marker::Model;
use std::mem;

/// What is kept of the head of a capture.
#[derive(Drop)]
pub(crate) struct Head {
    awaited: Awaited,
    // the number of lines of drives that are still missing
    left: u8,
    // whether the drives so far fit into a ring
    fits: bool,
    wishes: Wishes,
}

impl Model for Head {
    ghost use Rattle.sercos_check.specs.Shape.{HeadView, IsSound};

    ghost Value = { HeadView };

    ghost view = { λ h. record { awaited = h.awaited; left = h.left; fits = h.fits; wishes = h.wishes } };

    ghost invariant = { λ h. IsSound (record { awaited = h.awaited; left = h.left; fits = h.fits; wishes = h.wishes }) };
}

// Returns which line is next if `left` lines of drives are missing.
fn drive_or_order(left: u8) -> Awaited
    ensures { result ≡ drive_or_order left }
{
    if left == 0 {
        Awaited::Order
    } else {
        Awaited::Drive
    }
}

// Returns the index of the first drive with an address; `None` if there is none.
fn place_found(drives: &[Wish], address: u8) -> Option<usize>
    ensures { result ≡ position (λ d. d.address == address) drives.now }
{
    drives.iter().position(|drive| drive.address == address)
}

// Returns the index of the first drive with an address; the number of drives if there is none.
fn place(drives: &[Wish], address: u8) -> usize
    ensures value { result ≡ drive_place drives.now address }
    ensures bound { result ≤ length drives.now }
{
    place_found(drives, address).unwrap_or(drives.len())
}

// Returns the index of the drive with each address; the number of drives for an address without a drive. There must be at most 64 drives
// and at most 64 addresses.
fn places(drives: &[Wish], addresses: &[u8]) -> ArrayVec<u8, 64>
    requires drives { length drives.now ≤ most_drives }
    requires addresses { length addresses.now ≤ most_drives }
    ensures { result.items ≡ places drives.now addresses.now }
{
    let mut order = ArrayVec::new();
    for &address in addresses {
        order.push(place(drives, address) as u8);
    }
    order
}

// Returns the planner's input before any line is read: zeros and no drives.
fn no_wishes() -> Wishes
    ensures { result ≡ no_wishes }
{
    Wishes {
        rate: 0,
        cycle: 0,
        control: 0,
        gap: 0,
        order: ArrayVec::new(),
        drives: ArrayVec::new(),
    }
}

// Sets the order if the planner's input is valid with it, and returns whether it is. Otherwise nothing changes.
fn set_order(wishes: &mut Wishes, order: ArrayVec<u8, 64>) -> bool
    ensures can { IsTrue result ↔ IsValid (record wishes.old { order = order.items }) }
    ensures new { wishes.new ≡ (if result then record wishes.old { order = order.items } else wishes.old) }
{
    let before = mem::replace(&mut wishes.order, order);
    let can = valid(wishes);
    if !can {
        wishes.order = before;
    }
    can
}

impl Head {
    /// Returns the head of a capture without lines.
    pub(crate) fn new() -> Head
        ensures { HeadStandsFor result [] }
    {
        Head {
            awaited: Awaited::Version,
            left: 0,
            fits: true,
            wishes: no_wishes(),
        }
    }

    // Takes the line of the version. Returns whether it is next; otherwise nothing changes. If it is next, the next line is that of the
    // ring's numbers.
    fn version(&mut self) -> bool
        ensures can { IsTrue result ↔ (self.old.awaited ≡ awaited.Version) }
        ensures new { self.new ≡ (if result then record self.old { awaited = awaited.Ring } else self.old) }
    {
        let can = self.awaited == Awaited::Version;
        if can {
            self.awaited = Awaited::Ring;
        }
        can
    }

    // Takes the line of the ring's numbers. Returns whether it is next; otherwise nothing changes. If it is next, the lines of `drives`
    // drives are missing; then the next line is that of a drive, or of the order if `drives` is 0. The order and the drives so far stay.
    // Times are in microseconds.
    fn ring(&mut self, rate: u8, cycle: u16, control: u16, gap: u16, drives: u8) -> bool
        ensures can { IsTrue result ↔ (self.old.awaited ≡ awaited.Ring) }
        ensures new { self.new ≡ (if result then record self.old { awaited = drive_or_order drives; left = drives; wishes = record { rate = rate; cycle = cycle; control = control; gap = gap; order = self.old.wishes.order; drives = self.old.wishes.drives } } else self.old) }
    {
        let can = self.awaited == Awaited::Ring;
        if can {
            self.awaited = drive_or_order(drives);
            self.left = drives;
            self.wishes.rate = rate;
            self.wishes.cycle = cycle;
            self.wishes.control = control;
            self.wishes.gap = gap;
        }
        can
    }

    // Takes the line of a drive. Returns whether it is next; otherwise nothing changes. If it is next, one line of a drive fewer is
    // missing; then the next line is that of the order if none is missing, otherwise that of a drive. A drive that doesn't fit into a ring,
    // after 64 drives, is counted; then `fits` is false, and the planner's input is unspecified.
    fn drive(&mut self, wish: &Wish) -> bool
        ensures can { IsTrue result ↔ (self.old.awaited ≡ awaited.Drive) }
        ensures same { result ≡ false → self.new ≡ self.old }
        ensures awaited { result ≡ true → self.new.awaited ≡ drive_or_order (self.old.left - 1) }
        ensures left { result ≡ true → self.new.left ≡ self.old.left - 1 }
        ensures fits { result ≡ true → self.new.fits ≡ (self.old.fits && nat_lt (length self.old.wishes.drives) most_drives) }
        ensures wishes { result ≡ true → length self.old.wishes.drives < most_drives → self.new.wishes ≡ record self.old.wishes { drives = self.old.wishes.drives ++ wish.now ∷ [] } }
    {
        if self.awaited != Awaited::Drive {
            return false;
        }
        self.left = self.left.saturating_sub(1);
        self.awaited = drive_or_order(self.left);
        if self.wishes.drives.is_full() {
            self.fits = false;
        } else {
            self.wishes.drives.push(*wish);
        }
        true
    }

    // Takes the line of the order, of at most 64 addresses. Returns whether it is next, all drives fit into a ring, and the planner's input
    // is valid with this order; otherwise nothing changes. If all holds, the order is set to the indices of the drives with these
    // addresses, and the next line is one of a cycle, or that of the totals.
    fn order(&mut self, addresses: &[u8]) -> bool
        requires { length addresses.now ≤ most_drives }
        ensures can { IsTrue result ↔ ((self.old.awaited ≡ awaited.Order) × (self.old.fits ≡ true)
            × IsValid (record self.old.wishes { order = places self.old.wishes.drives addresses.now })) }
        ensures new { self.new ≡ (if result then record self.old { awaited = awaited.Cycle; wishes = record self.old.wishes { order = places self.old.wishes.drives addresses.now } } else self.old) }
    {
        if self.awaited != Awaited::Order || !self.fits {
            return false;
        }
        let order = places(self.wishes.drives(), addresses);
        let can = set_order(&mut self.wishes, order);
        if can {
            self.awaited = Awaited::Cycle;
        }
        can
    }

    // Takes the line of the totals. Returns whether it is next; otherwise nothing changes. If it is next, no line can follow.
    fn end(&mut self) -> bool
        ensures can { IsTrue result ↔ (self.old.awaited ≡ awaited.Cycle) }
        ensures new { self.new ≡ (if result then record self.old { awaited = awaited.Nothing } else self.old) }
    {
        let can = self.awaited == Awaited::Cycle;
        if can {
            self.awaited = Awaited::Nothing;
        }
        can
    }

    /// Takes the next line. Returns whether it can follow the lines so far; otherwise nothing changes. If a telegram can follow, the head
    /// is complete and the totals are not read yet.
    pub(crate) fn next(&mut self, line: &Line) -> bool
        ensures can { (lines : List Line) → HeadStandsFor self.old lines → (IsTrue result ↔ CanFollow lines line.now) }
        ensures follows { (lines : List Line) → HeadStandsFor self.old lines → result ≡ true → HeadStandsFor self.new (line.now ∷ lines) }
        ensures same { result ≡ false → self.new ≡ self.old }
        ensures ready { result ≡ true → IsReady self.new line.now }
    {
        match line {
            Line::Version => self.version(),
            Line::Ring {
                rate,
                cycle,
                control,
                gap,
                drives,
            } => self.ring(*rate, *cycle, *control, *gap, *drives),
            Line::Drive(wish) => self.drive(wish),
            Line::Order(addresses) => self.order(addresses.as_slice()),
            Line::Telegram { .. } | Line::Other => self.awaited == Awaited::Cycle,
            Line::End => self.end(),
        }
    }

    /// Returns whether the head is complete: its order was read.
    pub(crate) fn is_whole(&self) -> bool
        ensures { (lines : List Line) → HeadStandsFor self.now lines → result ≡ has_head lines }
    {
        matches!(self.awaited, Awaited::Cycle | Awaited::Nothing)
    }

    /// Returns the planner's input that the lines of the head have. The head must be complete and the totals not read yet.
    pub(crate) fn wishes(&self) -> &Wishes
        requires { self.now.awaited ≡ awaited.Cycle }
        ensures valid { IsValid result.now }
        ensures value { (lines : List Line) → HeadStandsFor self.now lines → result.now ≡ wishes_by lines }
    {
        &self.wishes
    }
}
