// Sending the telegrams of a cycle, and their effect. The first `count` entries of `list` are the telegrams sent so far. `count` must be
// below 66 and at most the length of `list`. Each call appends after these entries. Afterwards the entries from `count` on are unspecified,
// and so are `buffers`. Each call leaves what the link carries, and the restarts, as they are. `rate` is in bits per microsecond. Station 0
// is the master, and station k + 1 the drive at index k of the ring, which has at most 64.
ghost use Rattle.std.specs.Prelude.{◌≡◌, ℕ, ◌+◌, ◌*◌, ◌<◌, ◌≤◌, take, List, [], ◌∷◌, ◌++◌, Option, Some, None, true, is_some, pos, length, slice_index};
ghost use Rattle.sercos_ring.specs.Clauses.{frame_of, Job, DriveView, RingView, DriveCall, Mdt, Said, drive_says, DriveStandsFor, Known, sent_as, AnyStandsFor, Call, heard, passage, sum_below, unseen_at, IsSent, content_of, mdt_heard, own_mst, sent_mdt, sent_mst, start_before, station_of, unseen_mdt, with_at, AllStand, said_by, AreSent, AreTurns};
ghost use Rattle.sercos_telegram.specs.declared.layout.Kind.TheVariants as kinds;

use crate::receiving::{Buffers, content_of, frame_said, receive};
use crate::stations::{as_count, hear_mdts, hear_no_mdts};
use crate::turns::AtTurn;
use arrayvec::ArrayVec;
use sercos_bits::Content;
use sercos_drive::Drive;
use sercos_master::AnyMaster;
use sercos_script::{BitLink, Passage};
use sercos_telegram::Kind;
use sercos_trace::{Sent, put_sent};

/// Passes the MST in `buffers` back to the master, which processes what arrives. `buffers` must have the frame of its content in this
/// cycle, as `frame_said` makes it. Returns the number of undetected arrivals, 0 or 1. Afterwards `buffers` is unspecified.
pub(crate) fn pass_own<L: BitLink>(
    link: &mut L,
    master: &mut AnyMaster,
    cycle: u32,
    buffers: &mut Buffers,
) -> u32
    requires sent { IsSent (L.carry link.old) cycle kinds.Mst 0 buffers.old.said buffers.old.sent }
    ensures carry { L.carry link.new ≡ L.carry link.old }
    ensures restart { L.restart link.new ≡ L.restart link.old }
    ensures unseen { result ≡ unseen_at (L.carry link.old) (passage cycle kinds.Mst 0 0) buffers.old.said }
    ensures bound { result ≤ 1 }
    ensures heard { (s : Known) (jobs : List Job) (h : List Call) → AnyStandsFor master.old s jobs h →
        AnyStandsFor master.new s jobs (own_mst (L.carry link.old) cycle buffers.old.said h) }
{
    let p = Passage {
        cycle,
        kind: Kind::Mst,
        from: 0,
        to: 0,
    };
    let receipt = receive(link, p, &buffers.said, &buffers.sent, &mut buffers.receiver);
    master.hear_mst(content_of(receipt, &buffers.said, &buffers.receiver.content));
    as_count(receipt.unseen)
}

// Passes the AT in `buffers` from its station to the master, which processes the frame that arrives, if one does. `buffers` must have the
// frame of its content in this cycle, as `frame_said` makes it. Returns the number of undetected arrivals, 0 or 1.
fn pass_at<L: BitLink>(
    link: &mut L,
    master: &mut AnyMaster,
    station: u8,
    cycle: u32,
    buffers: &mut Buffers,
) -> u32
    requires sent { IsSent (L.carry link.old) cycle kinds.At station buffers.old.said buffers.old.sent }
    ensures carry { L.carry link.new ≡ L.carry link.old }
    ensures restart { L.restart link.new ≡ L.restart link.old }
    ensures unseen { result ≡ unseen_at (L.carry link.old) (passage cycle kinds.At station 0) buffers.old.said }
    ensures bound { result ≤ 1 }
    ensures heard { (s : Known) (jobs : List Job) (h : List Call) → AnyStandsFor master.old s jobs h →
        AnyStandsFor master.new s jobs (with_at (heard (L.carry link.old) (passage cycle kinds.At station 0) buffers.old.said) h) }
{
    let p = Passage {
        cycle,
        kind: Kind::At,
        from: station,
        to: 0,
    };
    let receipt = receive(link, p, &buffers.said, &buffers.sent, &mut buffers.receiver);
    if let Some(content) = content_of(receipt, &buffers.said, &buffers.receiver.content) {
        master.hear_at(content);
    }
    as_count(receipt.unseen)
}

// Appends a telegram with the content `said` that starts `start` microseconds after the MST's end, which is given in bit times, and adds 1
// to `count`. `bits` must be the length of its frame.
fn push_timed(
    list: &mut ArrayVec<Sent, 66>,
    count: &mut usize,
    kind: Kind,
    rate: u8,
    start: u16,
    said: &Content,
    bits: u32,
)
    requires room { count.old < 66 }
    requires within { count.old ≤ length list.old.items }
    requires bits { bits ≡ length (frame_of said.now) }
    ensures items { take count.new list.new.items ≡ take count.old list.old.items ++ (record { kind = kind; start = pos (rate * start); bits = length (frame_of said.now); content = said.now }) ∷ [] }
    ensures count { count.new ≡ count.old + 1 }
    ensures within { count.new ≤ length list.new.items }
{
    let start = i32::from(rate) * i32::from(start);
    put_sent(list, count, kind, start, bits, said);
}

/// Appends the MST with the content `said`, which ends at 0, and adds 1 to `count`. `bits` must be the length of its frame, at most 19,696.
pub(crate) fn push_mst(list: &mut ArrayVec<Sent, 66>, count: &mut usize, said: &Content, bits: u32)
    requires room { count.old < 66 }
    requires within { count.old ≤ length list.old.items }
    requires bits { bits ≡ length (frame_of said.now) }
    requires bound { bits ≤ 19696 }
    ensures items { take count.new list.new.items ≡ take count.old list.old.items ++ sent_mst said.now ∷ [] }
    ensures count { count.new ≡ count.old + 1 }
    ensures within { count.new ≤ length list.new.items }
{
    put_sent(list, count, Kind::Mst, -(bits as i32), bits, said);
}

// Sends the AT whose content is `buffers.said`, which must not be empty, `start` microseconds after the MST's end: appends it, and passes
// it to the master. `station` must be that of the drive with the address in the content's first byte. Adds 1 to `count`. Returns the number
// of undetected arrivals, 0 or 1.
fn send_content<L: BitLink>(
    link: &mut L,
    master: &mut AnyMaster,
    station: u8,
    cycle: u32,
    rate: u8,
    start: u16,
    list: &mut ArrayVec<Sent, 66>,
    count: &mut usize,
    buffers: &mut Buffers,
) -> u32
    requires room { count.old < 66 }
    requires within { count.old ≤ length list.old.items }
    requires some { 0 < length buffers.old.said }
    ensures carry { L.carry link.new ≡ L.carry link.old }
    ensures restart { L.restart link.new ≡ L.restart link.old }
    ensures bound { result ≤ 1 }
    ensures count { count.new ≡ count.old + 1 }
    ensures within { count.new ≤ length list.new.items }
    ensures sent { (r : RingView) → station_of r (slice_index buffers.old.said 0) ≡ station →
        AreSent r (L.carry link.old) cycle rate ((record { start = start; content = buffers.old.said }) ∷ []) (take count.old list.old.items) (take count.new list.new.items) master.old master.new result }
{
    frame_said(
        link,
        cycle,
        Kind::At,
        station,
        &buffers.said,
        &mut buffers.sent,
    );
    push_timed(
        list,
        count,
        Kind::At,
        rate,
        start,
        &buffers.said,
        buffers.sent.len,
    );
    pass_at(link, master, station, cycle, buffers)
}

// Sends the AT of the drive whose turn it is. The turn's index must be that of a drive that sends an AT in this cycle, with its own
// address. Adds at most 1 to `count`. Returns the number of undetected arrivals, 0 or 1.
fn send_turn<L: BitLink>(
    link: &mut L,
    master: &mut AnyMaster,
    drives: &[Drive],
    turn: AtTurn,
    cycle: u32,
    rate: u8,
    list: &mut ArrayVec<Sent, 66>,
    count: &mut usize,
    buffers: &mut Buffers,
) -> u32
    requires few { length drives.now ≤ 64 }
    requires room { count.old < 66 }
    requires within { count.old ≤ length list.old.items }
    ensures carry { L.carry link.new ≡ L.carry link.old }
    ensures restart { L.restart link.new ≡ L.restart link.old }
    ensures bound { result ≤ 1 }
    ensures count { count.new ≤ count.old + 1 }
    ensures within { count.new ≤ length list.new.items }
    ensures sent { (d : ℕ → DriveView) (speed : ℕ) (h : ℕ → List DriveCall) (s : Said) (r : RingView) → AllStand drives.now d speed h → turn.place < length drives.now →
        drive_says (d turn.place) speed (h turn.place) ≡ Some s → station_of r (slice_index s.content 0) ≡ turn.place + 1 →
        AreSent r (L.carry link.old) cycle rate (s ∷ []) (take count.old list.old.items) (take count.new list.new.items) master.old master.new result }
{
    let place = usize::from(turn.place);
    if place >= drives.len() {
        return 0;
    }
    let station = turn.place + 1;
    match drives[place].at(&mut buffers.said) {
        None => 0,
        Some(start) => send_content(
            link, master, station, cycle, rate, start, list, count, buffers,
        ),
    }
}

/// Sends the ATs of the drives, in the order of their turns. Each turn must have the index of a drive that sends an AT in this cycle, with
/// its own address, and the start of this AT. There must be at most 64 turns, and together with the telegrams sent before at most 65. Adds
/// at most the number of turns to `count`. Returns the number of undetected arrivals, at most the number of turns.
pub(crate) fn send_ats<L: BitLink>(
    link: &mut L,
    master: &mut AnyMaster,
    drives: &[Drive],
    turns: &[AtTurn],
    cycle: u32,
    rate: u8,
    list: &mut ArrayVec<Sent, 66>,
    count: &mut usize,
    buffers: &mut Buffers,
) -> u32
    requires few { length drives.now ≤ 64 }
    requires turns { length turns.now ≤ 64 }
    requires room { count.old + length turns.now ≤ 65 }
    requires within { count.old ≤ length list.old.items }
    ensures carry { L.carry link.new ≡ L.carry link.old }
    ensures restart { L.restart link.new ≡ L.restart link.old }
    ensures bound { result ≤ length turns.now }
    ensures count { count.new ≤ count.old + length turns.now }
    ensures within { count.new ≤ length list.new.items }
    ensures sent { (d : ℕ → DriveView) (speed : ℕ) (h : ℕ → List DriveCall) (r : RingView) → AllStand drives.now d speed h → AreTurns (length drives.now) d speed h r turns.now →
        AreSent r (L.carry link.old) cycle rate (said_by d speed h turns.now) (take count.old list.old.items) (take count.new list.new.items) master.old master.new result }
{
    let mut unseen = 0;
    for k in 0..turns.len() {
        unseen += send_turn(
            link, master, drives, turns[k], cycle, rate, list, count, buffers,
        );
    }
    unseen
}

/// Sends the MDT whose content is `buffers.said`, `start` microseconds after the MST's end: appends it, and lets each drive process what
/// arrives of it. The content must not be empty. If `start` is `None`, no MDT is sent; then the content is ignored, and each drive
/// processes that none arrived. Returns the number of undetected arrivals, at most 64.
pub(crate) fn send_mdt<L: BitLink>(
    link: &mut L,
    drives: &mut Vec<Drive>,
    start: Option<u16>,
    cycle: u32,
    rate: u8,
    list: &mut ArrayVec<Sent, 66>,
    count: &mut usize,
    buffers: &mut Buffers,
) -> u32
    requires few { length drives.old.items ≤ 64 }
    requires room { count.old < 66 }
    requires within { count.old ≤ length list.old.items }
    requires some { is_some start ≡ true → 0 < length buffers.old.said }
    ensures count { length drives.new.items ≡ length drives.old.items }
    ensures carry { L.carry link.new ≡ L.carry link.old }
    ensures restart { L.restart link.new ≡ L.restart link.old }
    ensures bound { result ≤ 64 }
    ensures sent { take count.new list.new.items ≡ take count.old list.old.items ++ sent_mdt rate (sent_as start buffers.old.said) }
    ensures unseen { result ≡ sum_below (length drives.old.items) (unseen_mdt (L.carry link.old) cycle (content_of (sent_as start buffers.old.said))) }
    ensures stand { (d : ℕ → DriveView) (speed : ℕ) (h : ℕ → List DriveCall) → AllStand drives.old.items d speed h →
        AllStand drives.new.items d speed (λ k. Mdt (mdt_heard (L.carry link.old) cycle (k + 1) (content_of (sent_as start buffers.old.said))) ∷ h k) }
{
    match start {
        None => {
            hear_no_mdts(drives);
            0
        }
        Some(start) => {
            frame_said(link, cycle, Kind::Mdt, 0, &buffers.said, &mut buffers.sent);
            push_timed(
                list,
                count,
                Kind::Mdt,
                rate,
                start,
                &buffers.said,
                buffers.sent.len,
            );
            hear_mdts(
                link,
                drives,
                cycle,
                &buffers.said,
                &buffers.sent,
                &mut buffers.receiver,
            )
        }
    }
}
