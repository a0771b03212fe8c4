// What is kept of the telegrams of a capture so far.
ghost use Rattle.std.specs.Prelude.{◌≡◌, ℕ, ◌<◌, ◌&&◌, List, [], ◌∷◌, length, false, None};
ghost use Rattle.sercos_check.specs.Clauses.{All, IsValid, WishesView, Told, address_of, phase_of, first_broken, broken_rule, is_from, heard_in, mark_in, SeenStandsFor, goes_on_by, order_by, recovery_by, transition_by, kept_by, IsBegun, later, with_address, with_at, is_no_later, was_noted, found_for};
ghost use Rattle.sercos_telegram.specs.declared.layout.Kind.TheVariants as telegram;

use crate::drives::{Found, address_of, bit_times};
use crate::marks::{Command, Mark, Note, Noted, is_after_mark};
use crate::rule::Rule;
use crate::rules::{
    first_broken, goes_on, is_cyclic_at, is_cyclic_mdt, is_next_cycle, keeps_end, keeps_frame,
    keeps_gap, keeps_layout, keeps_phase, keeps_start, phase_of,
};
use sercos_bits::byte_at;
use sercos_telegram::Kind;
use sercos_timing::Wishes;
use sercos_trace::Sent;
use std::marker::Model;

// The number of values of a byte, such as an address or a slave.
const BYTES: usize = 256;

// The entry of a slave before its first AT. Round 0 is never the current one.
const NOTHING: Noted = Noted {
    round: 0,
    mark: Mark { start: 0, bits: 0 },
};

/// What the rules need of the telegrams of a capture so far. Contracts relate it to the list of the telegrams passed to
/// [`note`](Seen::note), the newest first. No call takes memory.
#[derive(Drop)]
pub struct Seen {
    // what the newest MST commands
    command: Option<Command>,
    // the other fields are about its cycle: the newest telegram, and whether an MDT was sent
    newest: Option<Note>,
    mdt: bool,
    // the round, which rises at each MST: entries of an earlier round don't count
    round: u8,
    // the round of the last AT of each address byte
    heard: [u8; BYTES],
    // the newest AT of each slave, and its round
    marks: [Noted; BYTES],
    // the bit time at which the transitions of all ATs have passed
    free_at: Option<i64>,
}

impl Model for Seen {
    ghost use Rattle.std.specs.Prelude.{◌≡◌, length, map};
    ghost use Rattle.std.specs.List.{All};
    ghost use Rattle.sercos_check.specs.Kept.{SeenState};
    ghost use Rattle.sercos_check.specs.Rounds.{is_round, mark_of_round, is_no_later, was_noted};

    ghost Value = { SeenState };

    ghost view = { λ v. record { command = v.command; newest = v.newest; mdt = v.mdt; heard = map (is_round v.round) v.heard; marks = map (mark_of_round v.round) v.marks; free_at = v.free_at } };

    ghost invariant = { λ v. (length v.heard ≡ 256) × (length v.marks ≡ 256) × All (is_no_later v.round) v.heard × All (was_noted v.round) v.marks };
}

// Returns the later of two times; the second one if the first is missing.
fn later(free_at: Option<i64>, time: i64) -> Option<i64>
    ensures { result ≡ later free_at time }
{
    match free_at {
        Some(earlier) => {
            if earlier <= time {
                Some(time)
            } else {
                Some(earlier)
            }
        }
        None => Some(time),
    }
}

// Returns the rounds of all address bytes before any AT.
fn none_heard() -> [u8; BYTES]
    ensures { All (is_no_later 0) result }
{
    [0; BYTES]
}

// Returns the entries of all slaves before any AT.
fn none_marked() -> [Noted; BYTES]
    ensures { All (was_noted 0) result }
{
    [NOTHING; BYTES]
}

impl Seen {
    /// Returns what is kept before any telegram.
    pub fn new() -> Seen
        ensures { (w : WishesView) → SeenStandsFor result w [] }
    {
        Seen {
            command: None,
            newest: None,
            mdt: false,
            round: 1,
            heard: none_heard(),
            marks: none_marked(),
            free_at: None,
        }
    }

    // Returns whether an AT or MDT of this cycle and start can follow in the current cycle.
    fn can_follow(&self, cycle: u32, start: i32) -> bool
        ensures { result ≡ goes_on_by self.now cycle start }
    {
        goes_on(self.command, self.newest, self.mdt, cycle, start)
    }

    // Returns whether `Rule::Order` is kept: an MST has the next cycle, an AT or MDT can follow in its cycle, and an AT is the first one of
    // its address byte in its cycle. An AT without content has no address byte.
    fn keeps_order(&self, cycle: u32, sent: &Sent) -> bool
        ensures { result ≡ order_by sent.now.kind self.now cycle sent.now }
    {
        match sent.kind {
            Kind::Mst => is_next_cycle(self.command, cycle),
            Kind::At => {
                let is_alone = sent.content.is_empty()
                    || self.heard[usize::from(address_of(sent))] != self.round;
                self.can_follow(cycle, sent.start) && is_alone
            }
            Kind::Mdt => self.can_follow(cycle, sent.start),
        }
    }

    // Returns when the newest AT of a slave in this cycle was sent; `None` if there is none.
    fn mark_of(&self, slave: u8) -> Option<Mark>
        ensures { result ≡ mark_in self.now slave }
    {
        let noted = self.marks[usize::from(slave)];
        if noted.round == self.round {
            Some(noted.mark)
        } else {
            None
        }
    }

    // Returns whether `Rule::Recovery` is kept: in phases 3 and 4 an AT starts at least its drive's TATAT after the end of the last AT of
    // the same slave in its cycle. Other telegrams keep it. `phase` must be the phase commanded, and `found` what `found_for` returns for
    // the telegram.
    fn keeps_recovery(&self, w: &Wishes, phase: u8, sent: &Sent, found: &Found) -> bool
        requires phase { phase ≡ phase_of self.now.command }
        requires found { found.now ≡ found_for w.now sent.now }
        ensures { result ≡ recovery_by self.now w.now sent.now }
    {
        let wish = &found.wish;
        let mark = self.mark_of(wish.slave);
        !is_cyclic_at(phase, sent.kind)
            || is_after_mark(mark, bit_times(w, wish.times.tatat), i64::from(sent.start))
    }

    // Returns whether, at a start in bit times, the transitions of all ATs of this cycle have passed. Without an AT the result is true.
    fn is_free(&self, start: i32) -> bool
        ensures { result ≡ is_from self.now.free_at start }
    {
        match self.free_at {
            Some(time) => time <= i64::from(start),
            None => true,
        }
    }

    // Returns whether `Rule::Transition` is kept: in phases 3 and 4 an MDT starts, for each AT of its cycle, at least that drive's TATMT
    // after the AT's end. Other telegrams keep it. `phase` must be the phase commanded.
    fn keeps_transition(&self, phase: u8, sent: &Sent) -> bool
        requires { phase ≡ phase_of self.now.command }
        ensures { result ≡ transition_by self.now sent.now }
    {
        !is_cyclic_mdt(phase, sent.kind) || self.is_free(sent.start)
    }

    // Returns the lowest rule that a telegram breaks; `None` if it keeps all. The premises are those of `broken`.
    fn broken_by(&self, w: &Wishes, cycle: u32, sent: &Sent, found: &Found) -> Option<Rule>
        requires valid { IsValid w.now }
        requires found { found.now ≡ found_for w.now sent.now }
        ensures { result ≡ first_broken (kept_by self.now w.now cycle sent.now) }
    {
        let phase = phase_of(self.command);
        let tests = [
            (Rule::Order, self.keeps_order(cycle, sent)),
            (Rule::Frame, keeps_frame(sent)),
            (Rule::Layout, keeps_layout(w, phase, sent, found)),
            (Rule::Phase, keeps_phase(self.command, sent)),
            (Rule::Start, keeps_start(w, phase, sent, found)),
            (Rule::Gap, keeps_gap(w, phase, self.newest, sent, found)),
            (Rule::Recovery, self.keeps_recovery(w, phase, sent, found)),
            (Rule::Transition, self.keeps_transition(phase, sent)),
            (Rule::End, keeps_end(w, phase, sent)),
        ];
        first_broken(&tests)
    }

    /// Returns the lowest rule that a telegram breaks after those so far; `None` if it keeps all. `w` is the planner's input of the ring,
    /// which must be valid. `cycle` is the telegram's cycle. `found` must be what [`found_for`](crate::found_for) returns for it.
    #[tactic(auto, using(crate::proofs::StandsLemmas::broken_stands))]
    pub fn broken(&self, w: &Wishes, cycle: u32, sent: &Sent, found: &Found) -> Option<Rule>
        requires valid { IsValid w.now }
        requires found { found.now ≡ found_for w.now sent.now }
        ensures { (before : List Told) → SeenStandsFor self.now w.now before → result ≡ broken_rule w.now before (record { cycle = cycle; sent = sent.now }) }
    {
        prove!(address_of(sent) <= 255 && found.wish.slave <= 255);
        self.broken_by(w, cycle, sent, found)
    }

    // Begins a round, so that no entry so far counts. The tables are cleared only after 255 rounds.
    fn begin_round(&mut self)
        ensures heard { (address : ℕ) → heard_in self.new address ≡ false }
        ensures marks { (slave : ℕ) → mark_in self.new slave ≡ None }
        ensures same { self.new ≡ record self.old { heard = self.new.heard; marks = self.new.marks } }
    {
        if self.round < u8::MAX {
            self.round += 1;
        } else {
            self.round = 1;
            self.heard = none_heard();
            self.marks = none_marked();
        }
    }

    // Notes an MST, which begins a cycle: the phase commanded is the second byte of its content, 0 if it has none. It is the newest
    // telegram, and nothing else that was kept counts any more. `found` must be what `found_for` returns for it.
    fn note_mst(&mut self, cycle: u32, sent: &Sent, found: &Found)
        ensures { (w : WishesView) → found.now ≡ found_for w sent.now → IsBegun self.new w cycle sent.now }
    {
        self.command = Some(Command {
            cycle,
            phase: byte_at(sent.content.as_slice(), 1),
        });
        self.newest = Some(found.note);
        self.mdt = false;
        self.begin_round();
        self.free_at = None;
    }

    // Notes that the address byte of an AT has sent in this round. An AT without content has none.
    #[tactic(auto, using(crate::proofs::RoundLemmas::heard_now))]
    fn hear(&mut self, sent: &Sent)
        ensures { self.new ≡ record self.old { heard = with_address self.old.heard sent.now } }
    {
        if !sent.content.is_empty() {
            self.heard[usize::from(address_of(sent))] = self.round;
        }
    }

    // Notes an AT: its address byte, that it is the newest of its slave, and when its transition has passed. `found` must be what
    // `found_for` returns for it. By `heard` and `marks` both tables have 256 entries.
    #[tactic(auto, using(crate::proofs::RoundLemmas::marked_now))]
    fn note_at(&mut self, w: &Wishes, sent: &Sent, found: &Found)
        requires { found.now ≡ found_for w.now sent.now }
        ensures view { self.new ≡ with_at self.old w.now sent.now }
        ensures heard { length self.old.heard ≡ 256 }
        ensures marks { length self.old.marks ≡ 256 }
    {
        let wish = &found.wish;
        let mark = found.note.mark;
        self.hear(sent);
        self.newest = Some(found.note);
        self.marks[usize::from(wish.slave)] = Noted {
            round: self.round,
            mark,
        };
        self.free_at = later(self.free_at, mark.after(bit_times(w, wish.times.tatmt)));
    }

    /// Notes a telegram as the newest one, even if it breaks a rule. The parameters are those of [`broken`](Seen::broken), but `w` need not
    /// be valid.
    pub fn note(&mut self, w: &Wishes, cycle: u32, sent: &Sent, found: &Found)
        requires { found.now ≡ found_for w.now sent.now }
        ensures { (before : List Told) → SeenStandsFor self.old w.now before → SeenStandsFor self.new w.now (record { cycle = cycle; sent = sent.now } ∷ before) }
    {
        prove!(address_of(sent) <= 255 && found.wish.slave <= 255);
        match sent.kind {
            Kind::Mst => self.note_mst(cycle, sent, found),
            Kind::At => self.note_at(w, sent, found),
            Kind::Mdt => {
                self.newest = Some(found.note);
                self.mdt = true;
            }
        }
    }
}
