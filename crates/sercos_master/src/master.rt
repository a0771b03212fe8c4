// The master in each of its phases.
ghost use Rattle.std.specs.Prelude.{◌≡◌, ◌≤◌, ◌<◌, ◌+◌, ℕ, true, List, [], ◌∷◌, length, Some, option_map, is_ok, is_some, IfOk, IfErr};
ghost use Rattle.sercos_master.specs.Clauses.{All, Job, IsRequest, is_ring, Known, Task, IsKnown, known_of, tasks_for, Call, HearMst, HearAt, Mdt, End, Restart, Past, past, fall_of, new_epoch, still_waiting, is_closed, is_done_in, all_identified, all_checked, all_ready, mst_said, mdt_said, sent_as, AreOpen, events_told, restart_told, with_broken, CoreStandsFor, IsIn, HoldsPlan};
ghost use Rattle.sercos_trace.specs.declared.events.Fall.TheVariants as fall;

use crate::ring::Ring;
use sercos_bits::Content;
use sercos_block::RingSetup;
use sercos_step::Job;
use sercos_telegram::{Mst, write_mst};
use sercos_trace::{Events, Fall};
use std::alloc::{AllocError, Global};
use std::marker::{Model, PhantomData};

/// Communication phase 0: the ring is being closed.
#[derive(Drop)]
pub struct Cp0;

/// Communication phase 1: the drives are identified, one after the other.
#[derive(Drop)]
pub struct Cp1;

/// Communication phase 2: the service channels are open, and the slots are planned and written.
#[derive(Drop)]
pub struct Cp2;

/// Communication phase 3: telegrams have their slots, and each drive checks its configuration.
#[derive(Drop)]
pub struct Cp3;

/// Communication phase 4: values are exchanged, and the requests run.
#[derive(Drop)]
pub struct Cp4;

/// A phase above 0, from which the ring can fall.
pub trait AboveCp0 {}

impl AboveCp0 for Cp1 {}

impl AboveCp0 for Cp2 {}

impl AboveCp0 for Cp3 {}

impl AboveCp0 for Cp4 {}

/// The master's end of the ring in a phase: `Master<Cp0>` to `Master<Cp4>`. Its state is in memory that its opening took, so a move copies
/// few bytes. In phases 3 and 4 it has a plan, and since the last fall each drive has answered the eleven writes of phase 2 and its check
/// for phase 3 without error. The writes are those of the ring's two cycle times, the six values of the plan for the drive, the telegram
/// type 7, and the drive's two lists. The phases are those of IEC 61491:1995; the conditions for leaving each are this profile's.
#[derive(Drop)]
pub struct Master<P> {
    ring: Box<Ring>,
    of: PhantomData<P>,
}

impl<P> Model for Master<P> {
    ghost use Rattle.sercos_master.specs.Kept.{CoreView};

    ghost Value = { CoreView };

    ghost view = { λ m. m.ring.value };
}

// Returns a ring as a master in the phase `P`.
fn in_state<P>(ring: Box<Ring>) -> Master<P>
    ensures { result ≡ ring.value }
{
    Master {
        ring,
        of: PhantomData,
    }
}

impl<P> Master<P> {
    ghost use Rattle.sercos_master.specs.Any.{Closes};

    // Returns whether everything required to leave the phase is done, as `Ring::is_done` lists it.
    fn is_done(&self) -> bool
        ensures { (n : ℕ) (s : Known) (p : Past) → IsIn n self.now s p → result ≡ is_done_in n s p }
    {
        self.ring.is_done()
    }

    // Processes the answers of the cycle, begins the next tasks, and sends the MDT, as [`AnyMaster::mdt`] does.
    fn mdt(&mut self, out: &mut Content) -> Option<u16>
        ensures stands { (n : ℕ) (s : Known) (jobs : List Job) (h : List Call) → IsIn n self.old s (past s (tasks_for s jobs) h) →
            IsIn n self.new s (past s (tasks_for s jobs) (Mdt ∷ h)) }
        ensures said { (n : ℕ) (s : Known) (jobs : List Job) (h : List Call) → IsIn n self.old s (past s (tasks_for s jobs) h) →
            sent_as result out.new ≡ mdt_said s (past s (tasks_for s jobs) (Mdt ∷ h)) }
        ensures some { is_some result ≡ true → 0 < length out.new }
    {
        self.ring.mdt(out)
    }

    // Returns the fall at the end of the cycle, or `None`, as `Ring::fall` does. A lost MST takes precedence over a lost AT, and a lost AT
    // over the step limit.
    fn fall_due(&self) -> Option<Fall>
        ensures { (s : Known) (p : Past) → CoreStandsFor self.now s p → result ≡ fall_of s p }
    {
        self.ring.fall()
    }

    // Closes the cycle, which was of this phase, and adds its outcomes, plan and stop to the events. These must have room for one more
    // outcome per drive, of 128. The next cycle is of the phase `P`.
    fn close(mut self, phase: u8, events: &mut Events) -> Master<P>
        ensures { Closes self phase events.old result events.new }
    {
        self.ring.tell_plan(&mut events.plan);
        self.ring
            .close(phase, &mut events.outcomes, &mut events.stop);
        in_state(self.ring)
    }
}

impl Master<Cp0> {
    /// Commands phase 1. The error is the unchanged master, iff fewer than ten MSTs in a row, that of this cycle being the last, returned
    /// intact (this profile).
    pub fn rise(mut self) -> Result<Master<Cp1>, Master<Cp0>>
        ensures exactly { (s : Known) (p : Past) → IsIn 0 self s p → is_ok result ≡ is_closed p }
        ensures up { IfOk result (λ m. m ≡ record self { phase = 1 }) }
        ensures same { IfErr result (λ m. m ≡ self) }
    {
        if self.is_done() {
            self.ring.phase = 1;
            Ok(in_state(self.ring))
        } else {
            Err(self)
        }
    }
}

impl Master<Cp1> {
    /// Commands phase 2. The error is the unchanged master, iff some drive hasn't answered its identification.
    pub fn rise(mut self) -> Result<Master<Cp2>, Master<Cp1>>
        ensures exactly { (s : Known) (p : Past) → IsIn 1 self s p → is_ok result ≡ all_identified s p }
        ensures up { IfOk result (λ m. m ≡ record self { phase = 2 }) }
        ensures same { IfErr result (λ m. m ≡ self) }
    {
        if self.is_done() {
            self.ring.phase = 2;
            Ok(in_state(self.ring))
        } else {
            Err(self)
        }
    }
}

impl Master<Cp2> {
    /// Commands phase 3. The error is the unchanged master, iff some drive's check for phase 3 (S-0-0127), its last task of phase 2, hasn't
    /// ended with data status 3. The new state has the plan, and each drive has answered the eleven writes of phase 2, with the values of
    /// this plan, without error since the last fall.
    pub fn rise(mut self) -> Result<Master<Cp3>, Master<Cp2>>
        ensures exactly { (s : Known) (p : Past) → IsIn 2 self s p → is_ok result ≡ all_checked s p }
        ensures up { IfOk result (λ m. m ≡ record self { phase = 3 }) }
        ensures plan { IfOk result (λ m. (s : Known) (requests : ℕ → List Task) (h : List Call) → IsIn 2 self s (past s requests h) → HoldsPlan m s (past s requests h)) }
        ensures same { IfErr result (λ m. m ≡ self) }
    {
        if self.is_done() {
            self.ring.phase = 3;
            Ok(in_state(self.ring))
        } else {
            Err(self)
        }
    }
}

impl Master<Cp3> {
    /// Commands phase 4. The error is the unchanged master, iff some drive's check for phase 4 (S-0-0128) hasn't ended with data status 3.
    /// The new state has the plan, and each drive has answered the eleven writes of phase 2, with the values of this plan, without error
    /// since the last fall.
    pub fn rise(mut self) -> Result<Master<Cp4>, Master<Cp3>>
        ensures exactly { (s : Known) (p : Past) → IsIn 3 self s p → is_ok result ≡ all_ready s p }
        ensures up { IfOk result (λ m. m ≡ record self { phase = 4 }) }
        ensures plan { IfOk result (λ m. (s : Known) (requests : ℕ → List Task) (h : List Call) → IsIn 3 self s (past s requests h) → HoldsPlan m s (past s requests h)) }
        ensures same { IfErr result (λ m. m ≡ self) }
    {
        if self.is_done() {
            self.ring.phase = 4;
            Ok(in_state(self.ring))
        } else {
            Err(self)
        }
    }
}

impl<P: AboveCp0> Master<P> {
    /// Falls to phase 0. All that was received is forgotten. Each current request is added to the events as broken, and it is not sent
    /// again; the requests that weren't begun still wait. `cause` becomes the fall of the events; their plan and stop stay. The events must
    /// have room for one more outcome per drive, of 128.
    pub fn fall(self, cause: Fall, events: &mut Events) -> Master<Cp0>
        ensures stands { (s : Known) (p : Past) → CoreStandsFor self s p → CoreStandsFor result s (new_epoch p.cycle (still_waiting p)) }
        ensures told { (s : Known) (p : Past) → CoreStandsFor self s p → length events.old.outcomes + length s.drives ≤ 128 →
            events.new ≡ record events.old { outcomes = with_broken s p events.old.outcomes; fall = Some cause } }
    {
        in_state(fallen(self.ring, cause, events))
    }
}

// Returns the ring after a fall to phase 0: an epoch begins, and the requests that weren't begun still wait. The current requests are added
// to the events as broken, and `cause` becomes their fall; their plan and stop stay. The events must have room for one more outcome per
// drive, of 128.
fn fallen(ring: Box<Ring>, cause: Fall, events: &mut Events) -> Box<Ring>
    ensures stands { (s : Known) (p : Past) → CoreStandsFor ring.value s p → CoreStandsFor result.value s (new_epoch p.cycle (still_waiting p)) }
    ensures told { (s : Known) (p : Past) → CoreStandsFor ring.value s p → length events.old.outcomes + length s.drives ≤ 128 →
        events.new ≡ record events.old { outcomes = with_broken s p events.old.outcomes; fall = Some cause } }
{
    let mut new = ring;
    new.begin_epoch(&mut events.outcomes);
    events.fall = Some(cause);
    new
}

/// The master's end of the ring, in the phase that it commands. Of the drives it knows only the setup's addresses, slaves and lists, and
/// what it received. In each cycle `mst`, `hear_mst`, `hear_at` any number of times, `mdt` and `end_cycle` are called in this order. Calls
/// in another order are safe, and their contracts define the effect. Only `open` takes memory.
#[derive(Drop)]
pub enum AnyMaster {
    /// In phase 0.
    P0(Master<Cp0>),
    /// In phase 1.
    P1(Master<Cp1>),
    /// In phase 2.
    P2(Master<Cp2>),
    /// In phase 3.
    P3(Master<Cp3>),
    /// In phase 4.
    P4(Master<Cp4>),
}

impl AnyMaster {
    ghost use Rattle.sercos_master.specs.Any.{StandsAt, AnyStandsFor, Ends};

    /// Opens a master in phase 0 that has received nothing. The setup must be valid. There must be at most 4,096 requests, each for an
    /// element that a transfer takes: 1 to 7 of a read, 2 to 7 of a write. Of the setup it uses no time that a drive declares and no data
    /// block. A request to an address without a drive in the setup is never begun. The error is `AllocError`.
    pub fn open(alloc: Global, setup: &RingSetup, jobs: Vec<Job>) -> Result<AnyMaster, AllocError>
        requires ring { is_ring setup.now ≡ true }
        requires few { length jobs.items ≤ 4096 }
        requires requests { All (λ job. IsRequest job.request) jobs.items }
        ensures { IfOk result (λ m. AnyStandsFor m (known_of setup.now) jobs.items []) }
    {
        let ring = Ring::open(alloc, setup, jobs)?;
        let boxed = Box::new(alloc, ring)?;
        Ok(AnyMaster::P0(in_state(boxed)))
    }

    /// Returns the phase that is commanded, 0 to 4.
    pub fn command(&self) -> u8
        ensures value { (s : Known) (jobs : List Job) (h : List Call) → AnyStandsFor self.now s jobs h → result ≡ (past s (tasks_for s jobs) h).now.phase }
        ensures bound { result ≤ 4 }
    {
        match self {
            AnyMaster::P0(_m) => 0,
            AnyMaster::P1(_m) => 1,
            AnyMaster::P2(_m) => 2,
            AnyMaster::P3(_m) => 3,
            AnyMaster::P4(_m) => 4,
        }
    }

    /// Replaces the content by that of the MST of the commanded phase.
    pub fn mst(&self, out: &mut Content)
        ensures said { (s : Known) (jobs : List Job) (h : List Call) → AnyStandsFor self.now s jobs h → out.new ≡ mst_said (past s (tasks_for s jobs) h) }
        ensures some { 0 < length out.new }
    {
        write_mst(
            &Mst {
                phase: self.command(),
            },
            out,
        );
    }

    /// Processes the content of the own MST as it returned; `None` if it didn't. Keeps whether it is that of an MST of the commanded phase,
    /// in place of what an earlier call in this cycle kept.
    pub fn hear_mst(&mut self, content: Option<&[u8]>)
        ensures { (s : Known) (jobs : List Job) (h : List Call) → AnyStandsFor self.old s jobs h →
            AnyStandsFor self.new s jobs (HearMst (option_map (λ c. c.now) content.entry) ∷ h) }
    {
        match self {
            AnyMaster::P0(m) => m.ring.hear_mst(content),
            AnyMaster::P1(m) => m.ring.hear_mst(content),
            AnyMaster::P2(m) => m.ring.hear_mst(content),
            AnyMaster::P3(m) => m.ring.hear_mst(content),
            AnyMaster::P4(m) => m.ring.hear_mst(content),
        }
    }

    /// Processes the content of a frame that arrived at the place of an AT. It is taken as the AT of the drive with its address if it has
    /// the length of that drive's AT in this phase, and is the first such content in the cycle. In phases 1 and 2 the drive must be the one
    /// addressed in the cycle before; in phase 0 none is taken. In phase 1 it identifies the drive; later its status and information word
    /// are passed to the drive's service channel, where they may end a task. Any other content is ignored.
    pub fn hear_at(&mut self, content: &[u8])
        ensures { (s : Known) (jobs : List Job) (h : List Call) → AnyStandsFor self.old s jobs h → AnyStandsFor self.new s jobs (HearAt content.now ∷ h) }
    {
        match self {
            AnyMaster::P0(m) => m.ring.hear_at(content),
            AnyMaster::P1(m) => m.ring.hear_at(content),
            AnyMaster::P2(m) => m.ring.hear_at(content),
            AnyMaster::P3(m) => m.ring.hear_at(content),
            AnyMaster::P4(m) => m.ring.hear_at(content),
        }
    }

    /// Processes the answers of the cycle: notes a stop, makes the plan if it is due, and begins the next tasks if there is no stop. Then
    /// replaces `out` by the content of the MDT, and returns its start in microseconds after the MST's end. In phase 1 the MDT is to the
    /// first drive that isn't identified, in phase 2 to the drive whose step is open, in phases 3 and 4 to all. The result is `None`, and
    /// `out` unspecified, in phase 0, in 1 if each drive is identified, in 2 if no step is open, and in 3 and 4 without a plan.
    pub fn mdt(&mut self, out: &mut Content) -> Option<u16>
        ensures stands { (s : Known) (jobs : List Job) (h : List Call) → AnyStandsFor self.old s jobs h → AnyStandsFor self.new s jobs (Mdt ∷ h) }
        ensures said { (s : Known) (jobs : List Job) (h : List Call) → AnyStandsFor self.old s jobs h →
            sent_as result out.new ≡ mdt_said s (past s (tasks_for s jobs) (Mdt ∷ h)) }
        ensures some { is_some result ≡ true → 0 < length out.new }
    {
        match self {
            AnyMaster::P0(m) => m.mdt(out),
            AnyMaster::P1(m) => m.mdt(out),
            AnyMaster::P2(m) => m.mdt(out),
            AnyMaster::P3(m) => m.mdt(out),
            AnyMaster::P4(m) => m.mdt(out),
        }
    }

    // Returns its ring, in any phase. The setup that it knows is valid.
    fn into_ring(self) -> Box<Ring>
        ensures stands { (s : Known) (p : Past) → StandsAt self s p → CoreStandsFor result.value s p }
        ensures known { (s : Known) (p : Past) → StandsAt self s p → IsKnown s }
    {
        match self {
            AnyMaster::P0(m) => m.ring,
            AnyMaster::P1(m) => m.ring,
            AnyMaster::P2(m) => m.ring,
            AnyMaster::P3(m) => m.ring,
            AnyMaster::P4(m) => m.ring,
        }
    }

    // Ends the cycle, with the premise and the effect of [`AnyMaster::end_cycle`].
    fn ended(self, events: &mut Events) -> AnyMaster
        ensures { Ends self events.old result events.new }
    {
        match self {
            AnyMaster::P0(m) => match m.rise() {
                Ok(m) => AnyMaster::P1(m.close(0, events)),
                Err(m) => AnyMaster::P0(m.close(0, events)),
            },
            AnyMaster::P1(m) => match m.fall_due() {
                Some(cause) => AnyMaster::P0(m.close(1, events).fall(cause, events)),
                None => match m.rise() {
                    Ok(m) => AnyMaster::P2(m.close(1, events)),
                    Err(m) => AnyMaster::P1(m.close(1, events)),
                },
            },
            AnyMaster::P2(m) => match m.fall_due() {
                Some(cause) => AnyMaster::P0(m.close(2, events).fall(cause, events)),
                None => match m.rise() {
                    Ok(m) => AnyMaster::P3(m.close(2, events)),
                    Err(m) => AnyMaster::P2(m.close(2, events)),
                },
            },
            AnyMaster::P3(m) => match m.fall_due() {
                Some(cause) => AnyMaster::P0(m.close(3, events).fall(cause, events)),
                None => match m.rise() {
                    Ok(m) => AnyMaster::P4(m.close(3, events)),
                    Err(m) => AnyMaster::P3(m.close(3, events)),
                },
            },
            AnyMaster::P4(m) => match m.fall_due() {
                Some(cause) => AnyMaster::P0(m.close(4, events).fall(cause, events)),
                None => AnyMaster::P4(m.close(4, events)),
            },
        }
    }

    /// Ends the cycle. The ring falls if the own MST was lost in this cycle and in the one before, both of phase 1 or above, or the AT of a
    /// drive in both, of phase 3 or above, or if a step or an identification has no answer up to the 64th cycle after the one in which it
    /// was first sent. Then the next cycle is of phase 0. Otherwise it is of the next phase, if what `rise` of this one requires is done,
    /// or of the same phase. The requests that ended, the plan, the stop and the fall of the cycle are added to the events. These must have
    /// no outcomes, or at most 64 if the master was restarted in this cycle.
    pub fn end_cycle(self, events: &mut Events) -> AnyMaster
        ensures stands { (s : Known) (jobs : List Job) (h : List Call) → AnyStandsFor self s jobs h → AnyStandsFor result s jobs (End ∷ h) }
        ensures told { (s : Known) (jobs : List Job) (h : List Call) → AnyStandsFor self s jobs h → AreOpen events.old.outcomes h →
            events.new ≡ events_told s (past s (tasks_for s jobs) h) events.old }
    {
        self.ended(events)
    }

    /// Restarts the master: it commands phase 0 and has received nothing. The current requests are added to the events as broken, and their
    /// fall becomes `Restart`. The events must have at most 64 outcomes before. The requests that weren't begun still wait.
    pub fn restart(self, events: &mut Events) -> AnyMaster
        ensures stands { (s : Known) (jobs : List Job) (h : List Call) → AnyStandsFor self s jobs h → AnyStandsFor result s jobs (Restart ∷ h) }
        ensures told { (s : Known) (jobs : List Job) (h : List Call) → AnyStandsFor self s jobs h → length events.old.outcomes ≤ 64 →
            events.new ≡ restart_told s (past s (tasks_for s jobs) h) events.old }
    {
        AnyMaster::P0(in_state(fallen(self.into_ring(), Fall::Restart, events)))
    }
}
