// The replay of the master. Where a difference is put into `told`, `told` is unspecified if there is none. `said`, where the master writes
// a telegram, is unspecified afterwards, except after `say_mst`. The private methods require that no difference was found before, unless
// they say otherwise.
ghost use Rattle.std.specs.Prelude.{◌≡◌, ◌⊎◌, ◌<◌, ◌≤◌, true, false, List, [], ◌∷◌, ◌++◌, length, Option, Some, None, option_map, IfOk};
ghost use Rattle.sercos_replay.specs.Clauses.{All, IsRequest, Job, is_ring, Line, Known, known_of, sent_mst, Call, HearMst, Mdt, End, AnyStandsFor, mst_said, mdt_said, Cycle, begun, with_at, with_mdt, with_telegram, cycles_of, looks_back, mst_place_of, mdt_place_of, master_differs, master_tells, expected_as, if_differs, if_told};
ghost use Rattle.sercos_telegram.specs.declared.layout.Kind.TheVariants as telegram;

use crate::difference::{Difference, compare, in_bits};
use arrayvec::ArrayVec;
use sercos_bits::Content;
use sercos_block::RingSetup;
use sercos_hdlc::{frame_len, framing_law};
use sercos_master::AnyMaster;
use sercos_step::Job;
use sercos_telegram::Kind;
use sercos_trace::{Events, Line, Sent};
use std::alloc::{AllocError, Global};

/// The replay of the master: the master receives each MST of a capture as its own, intact, and each AT, and what it sends is compared
/// with the MSTs and MDTs of the capture. It stands for the lines since it was opened; contracts list them the newest first. Only `open`
/// allocates memory.
#[derive(Drop)]
pub struct MasterReplay {
    // `None` only during a call
    master: Option<AnyMaster>,
    rate: u8,
    // the newest cycle, and whether its MDT is still missing
    cycle: u32,
    is_open: bool,
    // whether a difference was reported, and it
    differs: bool,
    told: Box<Difference>,
    // where the master writes its telegrams, and what it reports
    said: Box<Content>,
    events: Box<Events>,
}

// Writes the content of the master's MST to `said`. Returns its start in bit times; the MST ends at 0.
fn say_mst(master: &AnyMaster, said: &mut Content) -> i32
    ensures said { (s : Known) (jobs : List Job) (h : List Call) → AnyStandsFor master.now s jobs h →
        expected_as telegram.Mst said.new (Some result) ≡ Some (sent_mst (mst_said (looks_back s jobs h))) }
    ensures some { 0 < length said.new }
{
    master.mst(said);
    framing_law();
    -(frame_len(said.as_slice()) as i32)
}

// Compares the master's MST of a cycle with `sent`, the one in the capture, and passes the latter to the master. Returns whether they
// differ; if they do, the place is put into `told`. `said` is where the master writes its MST.
fn begin_cycle(
    master: &mut AnyMaster,
    told: &mut Difference,
    said: &mut Content,
    cycle: u32,
    sent: &Sent,
) -> bool
    ensures stands { (s : Known) (jobs : List Job) (h : List Call) → AnyStandsFor master.old s jobs h → AnyStandsFor master.new s jobs (HearMst (Some sent.now.content) ∷ h) }
    ensures place { (s : Known) (jobs : List Job) (h : List Call) → AnyStandsFor master.old s jobs h →
        if_differs (mst_place_of cycle (looks_back s jobs h) sent.now) ≡ if_told result told.new }
{
    let start = say_mst(master, said);
    master.hear_mst(Some(sent.content.as_slice()));
    compare(told, cycle, Kind::Mst, Some(start), said, Some(sent))
}

// Compares the master's MDT of a cycle with `found`, the one in the capture, and returns whether they differ. If they do, the place is put
// into `told`. `said` is where the master writes its MDT; `rate` is in Mbit/s. Afterwards the master has sent its MDT.
fn compare_mdt(
    master: &mut AnyMaster,
    told: &mut Difference,
    said: &mut Content,
    cycle: u32,
    rate: u8,
    found: Option<&Sent>,
) -> bool
    ensures stands { (s : Known) (jobs : List Job) (h : List Call) → AnyStandsFor master.old s jobs h → AnyStandsFor master.new s jobs (Mdt ∷ h) }
    ensures place { (s : Known) (jobs : List Job) (h : List Call) → AnyStandsFor master.old s jobs h →
        if_differs (mdt_place_of rate cycle (mdt_said s (looks_back s jobs (Mdt ∷ h))) (option_map (λ m. m.now) found.entry)) ≡ if_told result told.new }
{
    let start = in_bits(rate, master.mdt(said));
    compare(told, cycle, Kind::Mdt, start, said, found)
}

// Ends the master's cycle, and returns the master. `events` is where it writes what it reports, which isn't used; afterwards it is
// unspecified.
fn end_cycle(master: AnyMaster, events: &mut Events) -> AnyMaster
    ensures { (s : Known) (jobs : List Job) (h : List Call) → AnyStandsFor master s jobs h → AnyStandsFor result s jobs (End ∷ h) }
{
    events.clear();
    master.end_cycle(events)
}

// Puts the master into its field, `place`.
fn put(place: &mut Option<AnyMaster>, master: AnyMaster)
    ensures { place.new ≡ Some master }
{
    *place = Some(master);
}

impl MasterReplay {
    ghost use Rattle.std.specs.Prelude.{⊤};
    ghost use Rattle.std.specs.Borrow.{follows_so, sem};
    ghost use mathlib.Core.Option.{none};
    ghost use Rattle.sercos_replay.specs.contracts.master_replay.MasterReplay.{the_row};
    ghost use Rattle.sercos_replay.specs.Kept.{MasterAwaits, MasterRests, MasterGoes, MasterStandsIn, MasterEndsIn, MasterReplayStandsFor, MasterReplayHasFinished, MasterAfterLine, MasterAfterEnd};

    /// Opens the replay of the master of a valid setup with at most 4,096 requests, each a read of an element from 1 to 7, a write of one
    /// from 2 to 7, or a command. A request to an address that no drive of the setup has is never begun. The error is `AllocError`.
    pub fn open(
        alloc: Global,
        setup: &RingSetup,
        jobs: Vec<Job>,
    ) -> Result<MasterReplay, AllocError>
        requires ring { is_ring setup.now ≡ true }
        requires few { length jobs.items ≤ 4096 }
        requires requests { All (λ job. IsRequest job.request) jobs.items }
        ensures { IfOk result (λ replay. MasterReplayStandsFor replay (known_of setup.now) jobs.items []) }
    {
        let master = AnyMaster::open(alloc, setup, jobs)?;
        let told = Box::new(alloc, Difference::new())?;
        let said = Box::new(alloc, Content::new())?;
        let events = Box::new(
            alloc,
            Events {
                outcomes: ArrayVec::new(),
                plan: None,
                stop: None,
                fall: None,
            },
        )?;
        Ok(MasterReplay {
            master: Some(master),
            rate: setup.rate,
            cycle: 0,
            is_open: false,
            differs: false,
            told,
            said,
            events,
        })
    }

    // Ends the newest cycle, which must be open, the master having been taken out of its field: compares its MDT with `found`, the one in
    // the capture, and keeps a difference.
    fn turn(&mut self, mut master: AnyMaster, found: Option<&Sent>)
        ensures { (s : Known) (jobs : List Job) (t : Cycle) (j : List Cycle) → MasterAwaits (record self.old { master = Some master }) s jobs t j →
            MasterEndsIn self.new s jobs (record t { mdt = option_map (λ m. m.now) found.entry } ∷ j) }
    {
        self.differs = compare_mdt(
            &mut master,
            &mut self.told,
            &mut self.said,
            self.cycle,
            self.rate,
            found,
        );
        let next = end_cycle(master, &mut self.events);
        put(&mut self.master, next);
        self.is_open = false;
    }

    // Ends the newest cycle, which must be open: compares the master's MDT with `found`, the one in the capture, and keeps a difference.
    fn end(&mut self, found: Option<&Sent>)
        ensures { (s : Known) (jobs : List Job) (t : Cycle) (j : List Cycle) → MasterAwaits self.old s jobs t j →
            MasterEndsIn self.new s jobs (record t { mdt = option_map (λ m. m.now) found.entry } ∷ j) }
    {
        if let Some(master) = self.master.take() {
            self.turn(master, found);
        }
    }

    // Ends the newest cycle without an MDT, if it is open.
    fn close(&mut self)
        ensures ended { (s : Known) (jobs : List Job) (j : List Cycle) → MasterGoes self.old s jobs j → self.old.differs ≡ false → MasterEndsIn self.new s jobs j }
        ensures rests { (s : Known) (jobs : List Job) (j : List Cycle) → MasterRests self.old s jobs j → self.old.differs ≡ false → MasterEndsIn self.new s jobs j }
    {
        if self.is_open {
            self.end(None);
        }
    }

    // Begins a cycle with the MST of the capture: compares it with the master's own, keeps a difference, and passes it to the master. No
    // cycle may be open.
    fn begin(&mut self, cycle: u32, sent: &Sent)
        ensures { (s : Known) (jobs : List Job) (j : List Cycle) → MasterRests self.old s jobs j →
            MasterStandsIn self.new s jobs (begun cycle sent.now ∷ j) }
    {
        self.cycle = cycle;
        self.is_open = true;
        if let Some(master) = &mut self.master {
            self.differs = begin_cycle(master, &mut self.told, &mut self.said, cycle, sent);
        }
    }

    // Takes an MST: ends the newest cycle, and begins this one unless a difference was found.
    fn take_mst(&mut self, cycle: u32, sent: &Sent)
        ensures { (s : Known) (jobs : List Job) (j : List Cycle) → MasterGoes self.old s jobs j → self.old.differs ≡ false →
            MasterStandsIn self.new s jobs (begun cycle sent.now ∷ j) }
    {
        self.close();
        if !self.differs {
            self.begin(cycle, sent);
        }
    }

    // Passes an AT of the newest cycle, which must be open, to the master. Whether a difference was found doesn't change.
    fn hear_at(&mut self, sent: &Sent)
        ensures stands { (s : Known) (jobs : List Job) (t : Cycle) (j : List Cycle) → MasterAwaits self.old s jobs t j →
            MasterAwaits self.new s jobs (record t { ats = t.ats ++ sent.now ∷ [] }) j }
        ensures differs { self.new.differs ≡ self.old.differs }
    {
        if let Some(master) = &mut self.master {
            master.hear_at(sent.content.as_slice());
        }
    }

    // Takes an AT. It is ignored if no cycle is open.
    fn take_at(&mut self, sent: &Sent)
        ensures { (s : Known) (jobs : List Job) (j : List Cycle) → MasterGoes self.old s jobs j → self.old.differs ≡ false →
            MasterStandsIn self.new s jobs (with_at sent.now j) }
    {
        if self.is_open {
            self.hear_at(sent);
        }
    }

    // Takes an MDT, which ends the newest cycle. It is ignored if no cycle is open.
    fn take_mdt(&mut self, sent: &Sent)
        ensures { (s : Known) (jobs : List Job) (j : List Cycle) → MasterGoes self.old s jobs j → self.old.differs ≡ false →
            MasterStandsIn self.new s jobs (with_mdt sent.now j) }
    {
        if !self.is_open {
            return;
        }
        self.end(Some(sent));
    }

    // Takes a telegram. An MST begins `cycle`; an AT or an MDT counts for the newest cycle, regardless of `cycle`.
    fn take(&mut self, cycle: u32, sent: &Sent)
        ensures { (s : Known) (jobs : List Job) (j : List Cycle) → MasterGoes self.old s jobs j → self.old.differs ≡ false →
            MasterStandsIn self.new s jobs (with_telegram sent.now.kind cycle sent.now j) }
    {
        match sent.kind {
            Kind::Mst => self.take_mst(cycle, sent),
            Kind::At => self.take_at(sent),
            Kind::Mdt => self.take_mdt(sent),
        }
    }

    // Takes a line before any difference was found. A line that isn't a telegram is ignored.
    fn take_line(&mut self, line: &Line)
        ensures { (s : Known) (jobs : List Job) (lines : List Line) → MasterReplayStandsFor self.old s jobs lines → self.old.differs ≡ false →
            MasterReplayStandsFor self.new s jobs (line.now ∷ lines) }
    {
        if let Line::Telegram { cycle, sent } = line {
            self.take(*cycle, sent);
        }
    }

    /// Takes a line. It is ignored after a difference.
    pub(crate) fn give(&mut self, line: &Line)
        ensures { MasterAfterLine self.old line.now self.new }
    {
        if self.differs {
            return;
        }
        self.take_line(line);
    }

    // Ends the capture: ends the newest cycle, unless a difference was found before.
    fn end_all(&mut self)
        ensures { MasterAfterEnd self.old self.new }
    {
        if self.differs {
            return;
        }
        self.close();
    }

    // Returns a copy of the difference that was found; `None` if none was. It may be called before and after a difference.
    fn difference(&self) -> Option<Difference>
        ensures tells { (s : Known) (jobs : List Job) (lines : List Line) → MasterReplayStandsFor self.now s jobs lines →
            result ≡ master_tells s jobs (cycles_of lines) }
        ensures differs { (s : Known) (jobs : List Job) (lines : List Line) → MasterReplayHasFinished self.now s jobs lines →
            result ≡ master_differs s jobs (cycles_of lines) }
    {
        if self.differs {
            Some(self.told.copy())
        } else {
            None
        }
    }

    /// Takes the next line of a capture. Returns the first place at which the master deviated from its rules, as soon as the capture has
    /// its telegram or one of a later place; `None` if there is none so far. After a difference each call returns it again.
    pub fn line(&mut self, line: &Line) -> Option<Difference>
        ensures after { MasterAfterLine self.old line.now self.new }
        ensures tells { (s : Known) (jobs : List Job) (lines : List Line) → MasterReplayStandsFor self.old s jobs lines →
            result ≡ master_tells s jobs (cycles_of (line.now ∷ lines)) }
    {
        self.give(line);
        self.difference()
    }

    /// Ends the capture; no line may follow. Returns the first place at which the master deviated from its rules, or sent nothing though
    /// they require a telegram; `None` if there is none. It may be called again, and returns the same.
    pub fn finish(&mut self) -> Option<Difference>
        ensures after { MasterAfterEnd self.old self.new }
        ensures differs { (s : Known) (jobs : List Job) (lines : List Line) → (MasterReplayStandsFor self.old s jobs lines ⊎ MasterReplayHasFinished self.old s jobs lines) →
            result ≡ master_differs s jobs (cycles_of lines) }
    {
        self.end_all();
        self.difference()
    }
}
