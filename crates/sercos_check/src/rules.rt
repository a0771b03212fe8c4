// The rules for one telegram. Each is tested with what was kept of the telegrams before it. `w` is the planner's input of the ring, `phase`
// is the phase commanded, `command` is what the newest MST commands, `newest` is the newest telegram of its cycle, and `found` is what
// `found_for` returns for the telegram.
ghost use Rattle.std.specs.Prelude.{◌≡◌};
ghost use Rattle.sercos_check.specs.Clauses.{IsValid, WishesView, phase_of, found_for, is_next_cycle, is_same_cycle, starts_later, goes_on, keeps_frame, is_single, is_joint, keeps_layout, is_next_phase, keeps_phase, start_of, keeps_start, is_cyclic_at, is_cyclic_mdt, is_same_sender, gap_between, is_after_gap, keeps_gap, has_room, keeps_end, first_broken};

use crate::drives::{Found, address_of, bit_times, mark_of};
use crate::marks::{Command, Note};
use crate::rule::Rule;
use sercos_bits::{MAX_CONTENT, byte_at};
use sercos_hdlc::frame_len;
use sercos_telegram::{Kind, read_mst};
use sercos_timing::Wishes;
use sercos_timing::limits::{EARLY_AT, EARLY_MDT};
use sercos_trace::Sent;

// The length of the content of an AT or MDT in phases 1 and 2, in bytes with the address.
const SINGLE_LEN: usize = 5;

// The address of an MDT to all drives.
const ALL_DRIVES: u8 = 255;

// The first phase with cyclic data.
const CYCLIC_PHASE: u8 = 3;

// Returns the phase commanded; 0 before any MST.
pub fn phase_of(command: Option<Command>) -> u8
    ensures { result ≡ phase_of command }
{
    match command {
        Some(command) => command.phase,
        None => 0,
    }
}

// Returns whether an MST's cycle is the one after that of the last MST. The first MST can have any cycle.
pub fn is_next_cycle(command: Option<Command>, cycle: u32) -> bool
    ensures { result ≡ is_next_cycle command cycle }
{
    match command {
        Some(command) => u64::from(cycle) == u64::from(command.cycle) + 1,
        None => true,
    }
}

// Returns whether the cycle is that of the newest MST; false before any MST.
fn is_same_cycle(command: Option<Command>, cycle: u32) -> bool
    ensures { result ≡ is_same_cycle command cycle }
{
    match command {
        Some(command) => cycle == command.cycle,
        None => false,
    }
}

// Returns whether a start isn't before that of the newest telegram. Without one the result is true.
fn starts_no_earlier(newest: Option<Note>, start: i32) -> bool
    ensures { result ≡ starts_later newest start }
{
    match newest {
        Some(note) => note.mark.start <= start,
        None => true,
    }
}

// Returns whether an AT or MDT can follow in the current cycle: it is of the newest MST's cycle, it doesn't start before the newest
// telegram, and no MDT was sent yet. `mdt` is whether one was.
pub fn goes_on(
    command: Option<Command>,
    newest: Option<Note>,
    mdt: bool,
    cycle: u32,
    start: i32,
) -> bool
    ensures { result ≡ goes_on command newest mdt cycle start }
{
    is_same_cycle(command, cycle) && starts_no_earlier(newest, start) && !mdt
}

// Returns whether `Rule::Frame` is kept: the content has 1 to 2048 bytes, and `bits` is the length of its frame.
pub fn keeps_frame(sent: &Sent) -> bool
    ensures { result ≡ keeps_frame sent.now }
{
    let len = sent.content.len();
    0 < len && len <= MAX_CONTENT && sent.bits == frame_len(sent.content.as_slice())
}

// Returns whether the content is that of an AT or MDT of phases 1 and 2: 5 bytes with the address, which is that of a drive.
fn is_single(sent: &Sent, found: &Found) -> bool
    ensures { (w : WishesView) → found.now ≡ found_for w sent.now → result ≡ is_single w sent.now }
{
    sent.content.len() == SINGLE_LEN && found.is_drive
}

// Returns whether the content is that of an MDT of phases 3 and 4: the address of all drives, 255, and after it as many bytes as all data
// records have.
#[tactic(auto, unfolding(sercos_telegram::specs::Faults::head_fault, sercos_telegram::specs::Spells::all_drives))]
fn is_joint(w: &Wishes, sent: &Sent) -> bool
    ensures { result ≡ is_joint w.now sent.now }
{
    let len = u64::from(w.record_bytes()) + 1;
    sent.content.len() as u64 == len && address_of(sent) == ALL_DRIVES
}

// Returns whether `Rule::Layout` is kept: the content has the layout of its kind in this phase. In every phase an MST has two bytes: 255,
// and a phase from 0 to 4. In phase 0 no AT and no MDT keeps the rule. In phases 1 and 2 they are as `is_single` tests. An AT of phases 3
// and 4 has the address and the AT length of a drive, and an MDT is as `is_joint` tests.
pub fn keeps_layout(w: &Wishes, phase: u8, sent: &Sent, found: &Found) -> bool
    requires { found.now ≡ found_for w.now sent.now }
    ensures { result ≡ keeps_layout w.now phase sent.now }
{
    match sent.kind {
        Kind::Mst => read_mst(sent.content.as_slice()).is_ok(),
        Kind::At => 0 < phase
            && if phase < CYCLIC_PHASE {
                is_single(sent, found)
            } else {
                // the drive's AT length, after the address
                sent.content.len() == usize::from(found.wish.at_len) + 1 && found.is_drive
            },
        Kind::Mdt => 0 < phase
            && if phase < CYCLIC_PHASE {
                is_single(sent, found)
            } else {
                is_joint(w, sent)
            },
    }
}

// Returns whether a phase may follow the last one commanded: it is the same, the next one, or phase 0. The first MST can command any phase.
fn is_next_phase(command: Option<Command>, phase: u8) -> bool
    ensures { result ≡ is_next_phase command phase }
{
    match command {
        Some(command) => phase == command.phase
            || u16::from(phase) == u16::from(command.phase) + 1
            || phase == 0,
        None => true,
    }
}

// Returns whether `Rule::Phase` is kept: an MST commands the same phase as the MST before, the next one, or phase 0. The first MST, each AT
// and each MDT keep it.
pub fn keeps_phase(command: Option<Command>, sent: &Sent) -> bool
    ensures { result ≡ keeps_phase command sent.now }
{
    sent.kind != Kind::Mst || is_next_phase(command, byte_at(sent.content.as_slice(), 1))
}

// Returns whether an AT starts when it may, after the MST's end. Before phase 3 this is at 300 microseconds, and from phase 3 on at its
// drive's T1min or later. `sent` must be an AT.
fn starts_at(w: &Wishes, phase: u8, sent: &Sent, found: &Found) -> bool
    requires kind { sent.now.kind ≡ Kind.At }
    requires found { found.now ≡ found_for w.now sent.now }
    ensures { result ≡ start_of sent.now.kind w.now phase sent.now }
{
    if phase < CYCLIC_PHASE {
        i64::from(sent.start) == i64::from(bit_times(w, EARLY_AT))
    } else {
        i64::from(bit_times(w, found.wish.times.t1min)) <= i64::from(sent.start)
    }
}

// Returns whether `Rule::Start` is kept: an MST ends at bit time 0, an AT starts when it may in this phase, and an MDT starts at 650
// microseconds before phase 3. From phase 3 on each MDT keeps it.
pub fn keeps_start(w: &Wishes, phase: u8, sent: &Sent, found: &Found) -> bool
    requires { found.now ≡ found_for w.now sent.now }
    ensures { result ≡ keeps_start w.now phase sent.now }
{
    match sent.kind {
        Kind::Mst => mark_of(sent).ends_at_zero(),
        Kind::At => starts_at(w, phase, sent, found),
        Kind::Mdt => phase >= CYCLIC_PHASE
            || i64::from(sent.start) == i64::from(bit_times(w, EARLY_MDT)),
    }
}

// Returns whether a telegram of this kind is an AT of phases 3 and 4.
pub fn is_cyclic_at(phase: u8, kind: Kind) -> bool
    ensures { result ≡ is_cyclic_at phase kind }
{
    CYCLIC_PHASE <= phase && kind == Kind::At
}

// Returns whether a telegram of this kind is an MDT of phases 3 and 4.
pub fn is_cyclic_mdt(phase: u8, kind: Kind) -> bool
    ensures { result ≡ is_cyclic_mdt phase kind }
{
    CYCLIC_PHASE <= phase && kind == Kind::Mdt
}

// Returns whether both telegrams are ATs of the same slave. Each is given by the slave that sends it; `None` if it isn't an AT.
fn is_same_sender(sender: Option<u8>, next: Option<u8>) -> bool
    ensures { result ≡ is_same_sender sender next }
{
    match (sender, next) {
        (Some(slave), Some(other)) => slave == other,
        _ => false,
    }
}

// Returns the minimum distance between two telegrams, in bit times: 0 between ATs of one slave, otherwise the gap. Each is given by the
// slave that sends it; `None` if it isn't an AT.
fn gap_between(w: &Wishes, sender: Option<u8>, next: Option<u8>) -> u32
    ensures { result ≡ gap_between w.now sender next }
{
    if is_same_sender(sender, next) {
        0
    } else {
        bit_times(w, w.gap)
    }
}

// Returns whether the telegram starts at least the minimum distance, as `gap_between` returns it, after the end of the newest one. Without
// one the result is true.
fn is_after_gap(w: &Wishes, newest: Option<Note>, sent: &Sent, found: &Found) -> bool
    requires { found.now ≡ found_for w.now sent.now }
    ensures { result ≡ is_after_gap w.now newest sent.now }
{
    match newest {
        Some(note) => note.mark.is_after(
            gap_between(w, note.sender, found.note.sender),
            i64::from(sent.start),
        ),
        None => true,
    }
}

// Returns whether `Rule::Gap` is kept: in phases 3 and 4 an AT or MDT keeps the gap after the telegram before it, or no distance if both
// are ATs of one slave. Telegrams of earlier phases, and each MST, keep the rule.
pub fn keeps_gap(w: &Wishes, phase: u8, newest: Option<Note>, sent: &Sent, found: &Found) -> bool
    requires { found.now ≡ found_for w.now sent.now }
    ensures { result ≡ keeps_gap w.now phase newest sent.now }
{
    phase < CYCLIC_PHASE || sent.kind == Kind::Mst || is_after_gap(w, newest, sent, found)
}

// Returns whether the time between the end of an MDT and the next MST is at least the gap, and at least each drive's TMTSY. The planner's
// input must be valid.
fn has_room(w: &Wishes, sent: &Sent) -> bool
    requires { IsValid w.now }
    ensures { result ≡ has_room w.now sent.now }
{
    let pause = w.gap().max(w.greatest_tmtsy()) as u16;
    mark_of(sent).is_after(bit_times(w, pause), i64::from(w.recovered_by() as u32))
}

// Returns whether `Rule::End` is kept: in phases 3 and 4 the time between the end of the MDT and the next MST is at least the gap, and at
// least each drive's TMTSY. Other telegrams keep it. The planner's input must be valid.
pub fn keeps_end(w: &Wishes, phase: u8, sent: &Sent) -> bool
    requires { IsValid w.now }
    ensures { result ≡ keeps_end w.now phase sent.now }
{
    !is_cyclic_mdt(phase, sent.kind) || has_room(w, sent)
}

// Returns the first rule of a list that isn't kept; `None` if all are. With each rule comes whether it is kept.
#[tactic(auto, unfolding(crate::specs::Rules::first_broken))]
pub fn first_broken(tests: &[(Rule, bool)]) -> Option<Rule>
    ensures { result ≡ first_broken tests.now }
{
    tests.iter().find(|(_, kept)| !*kept).map(|(rule, _)| *rule)
}
