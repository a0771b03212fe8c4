// The record of a cycle.
ghost use Rattle.std.specs.Prelude.{◌≡◌, ◌++◌, ◌<◌, ◌≤◌, ◌+◌, [], ◌∷◌, None, IfOk, length, take};
ghost use Rattle.sercos_trace.specs.Clauses.{Kind};

use crate::events::Events;
use arrayvec::ArrayVec;
use sercos_bits::Content;
use sercos_telegram::Kind;
use std::alloc::{AllocError, Global};
use std::marker::Model;

/// A telegram that was sent. Contracts see the record of its fields.
#[derive(Debug, Drop)]
pub struct Sent {
    /// Its kind.
    pub kind: Kind,
    /// Its start, in bit times after the MST's end. That of the MST itself is negative.
    pub start: i32,
    /// The length of its frame, in bits.
    pub bits: u32,
    /// Its content: the address and the data field, 1 to 2048 bytes.
    pub content: Content,
}

impl Model for Sent {
    ghost use Rattle.sercos_trace.specs.Views.{SentView};

    ghost Value = { SentView };

    ghost view = { λ s. record { kind = s.kind; start = s.start; bits = s.bits; content = s.content } };
}

// The value of a new element, before `fill` replaces it.
impl Default for Sent {
    fn default() -> Sent {
        Sent {
            kind: Kind::Mst,
            start: 0,
            bits: 0,
            content: Content::new(),
        }
    }
}

impl Sent {
    // Replaces the telegram. The content must have at most 2048 bytes; only these are copied.
    pub(crate) fn fill(&mut self, kind: Kind, start: i32, bits: u32, content: &[u8])
        requires { length content.now ≤ 2048 }
        ensures { self.new ≡ record { kind = kind; start = start; bits = bits; content = content.now } }
    {
        self.kind = kind;
        self.start = start;
        self.bits = bits;
        self.content.assign(content);
    }
}

/// A move of a drive into another phase.
#[derive(Clone, Copy, Debug, Default, PartialEq, Eq)]
pub struct Move {
    /// The drive's address.
    pub drive: u8,
    /// The phase into which it moves, 0 to 4.
    pub phase: u8,
    /// Whether the move is after the MDT's time in the cycle; otherwise it is at the MST.
    pub late: bool,
}

/// What happens in a cycle. Contracts see the record of its fields, its vectors as lists.
#[derive(Debug, Drop)]
pub struct CycleRecord {
    /// The number of the cycle, counted from 0.
    pub cycle: u32,
    /// The phase that the master commands, 0 to 4.
    pub phase: u8,
    /// The MST, then the ATs by ascending start and then in ring order, then the MDT, if one is sent.
    pub sent: ArrayVec<Sent, 66>,
    /// The moves at the MST, in ring order, then the late ones, in ring order.
    pub moves: ArrayVec<Move, 128>,
    /// What the master reports.
    pub events: Events,
    /// How many arrivals differ from what was sent and are a frame anyway: undetected damages.
    pub unseen: u32,
}

impl Model for CycleRecord {
    ghost use Rattle.sercos_trace.specs.Views.{CycleView};

    ghost Value = { CycleView };

    ghost view = { λ r. record { cycle = r.cycle; phase = r.phase; sent = r.sent.items; moves = r.moves.items; events = r.events; unseen = r.unseen } };
}

/// Puts a telegram after the first `count` elements of a list, and adds 1 to `count`. The list must have at least `count` elements, and
/// `count` must be below 66. `start` is in bit times after the MST's end, `bits` is the length of the frame in bits, and the content is
/// copied. An element that is already there is replaced in its place, so that a record that is used again copies only the bytes of the
/// content. The first `count` elements stay; those after the new one are unspecified.
pub fn put_sent(
    sent: &mut ArrayVec<Sent, 66>,
    count: &mut usize,
    kind: Kind,
    start: i32,
    bits: u32,
    content: &Content,
)
    requires room { count.old < 66 }
    requires within { count.old ≤ length sent.old.items }
    ensures items { take count.new sent.new.items ≡ take count.old sent.old.items ++ (record { kind = kind; start = start; bits = bits; content = content.now }) ∷ [] }
    ensures count { count.new ≡ count.old + 1 }
    ensures within { count.new ≤ length sent.new.items }
{
    if *count == sent.len() {
        sent.push(Sent::default());
    }
    sent[*count].fill(kind, start, bits, content.as_slice());
    *count += 1;
}

impl CycleRecord {
    /// Returns the record of cycle 0 before anything has happened in it, in memory of its own, since it is large. The error is `AllocError`.
    pub fn new_boxed(alloc: Global) -> Result<Box<CycleRecord>, AllocError>
        ensures { IfOk result (λ made. made.value ≡ record { cycle = 0; phase = 0; sent = []; moves = []; events = record { outcomes = []; plan = None; stop = None; fall = None }; unseen = 0 }) }
    {
        let made = Box::new(
            alloc,
            CycleRecord {
                cycle: 0,
                phase: 0,
                sent: ArrayVec::new(),
                moves: ArrayVec::new(),
                events: Events {
                    outcomes: ArrayVec::new(),
                    plan: None,
                    stop: None,
                    fall: None,
                },
                unseen: 0,
            },
        )?;
        Ok(made)
    }

    /// Makes it the record of a cycle before anything has happened in it. Only the telegrams stay as they are, to be replaced by
    /// [`put_sent`].
    pub fn reuse(&mut self, cycle: u32)
        ensures { self.new ≡ record { cycle = cycle; phase = 0; sent = self.old.sent; moves = []; events = record { outcomes = []; plan = None; stop = None; fall = None }; unseen = 0 } }
    {
        self.cycle = cycle;
        self.phase = 0;
        self.moves.clear();
        self.events.clear();
        self.unseen = 0;
    }
}

/// The totals of a run.
#[derive(Clone, Copy, Debug, Default, PartialEq, Eq)]
pub struct Totals {
    /// How many cycles were run.
    pub cycles: u32,
    /// The phase commanded in the last one.
    pub phase: u8,
    /// How many requests ended complete.
    pub complete: u32,
    /// How many requests were refused.
    pub refused: u32,
    /// How many requests were broken by a fall.
    pub broken: u32,
    /// How many falls there were, restarts of the master among them.
    pub falls: u32,
    /// How many arrivals differed from what was sent and were a frame anyway: undetected damages.
    pub unseen: u32,
    /// The first cycle in which phase 4 was commanded; `None` if it never was. No line of the trace has it.
    pub phase4: Option<u32>,
}
