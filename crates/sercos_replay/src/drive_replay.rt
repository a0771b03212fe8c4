// The replay of a drive. Where a difference is put into `told`, `told` is unspecified if there is none. `said`, where the drive writes its
// AT, is unspecified afterwards. The private methods require that no difference was found before, unless they say otherwise.
ghost use Rattle.std.specs.Prelude.{◌≡◌, ◌⊎◌, ℕ, ◌<◌, ◌≤◌, true, false, not, ◌&&◌, List, [], ◌∷◌, ◌++◌, length, Option, Some, None, option_map, IfOk};
ghost use Rattle.sercos_replay.specs.Clauses.{option_copied, Kind, is_ring, DriveView, SentView, Line, DriveCall, drive_says, DriveStandsFor, drive_at, Cycle, begun, with_at, with_mdt, with_telegram, cycles_of, newest_cycle, goes_on, GoesOn, if_differs, if_told, content_of, is_of, at_place_of, drive_differs, drive_tells};
ghost use Rattle.sercos_telegram.specs.declared.layout.Kind.TheVariants as telegram;

use crate::difference::{Difference, compare, in_bits};
use sercos_bits::{Content, byte_at};
use sercos_block::RingSetup;
use sercos_drive::Drive;
use sercos_telegram::Kind;
use sercos_trace::{Line, Sent};
use std::alloc::{AllocError, Global};

/// The replay of a drive: the drive receives each MST and MDT of a capture, and the ATs that it sends are compared with those that the
/// capture has with its address. It stands for the lines since it was opened; contracts list them the newest first. Only `open` allocates
/// memory.
#[derive(Drop)]
pub struct DriveReplay {
    drive: Drive,
    address: u8,
    rate: u8,
    // the newest cycle; whether its MDT is still missing, and whether it has an AT of the drive
    cycle: u32,
    is_open: bool,
    found: bool,
    // whether a difference was reported, and it
    differs: bool,
    told: Box<Difference>,
    // where the drive writes its AT
    said: Box<Content>,
}

impl DriveReplay {
    ghost use Rattle.std.specs.Prelude.{⊤};
    ghost use Rattle.std.specs.Borrow.{follows_so, sem};
    ghost use mathlib.Core.Option.{none};
    ghost use Rattle.sercos_replay.specs.contracts.drive_replay.DriveReplay.{the_row};
    ghost use Rattle.sercos_replay.specs.Kept.{drive_kept, DriveAwaits, DriveHasPassed, DriveRests, DriveGoes, DriveStandsIn, DriveEndsIn, DriveReplayStandsFor, DriveReplayHasFinished, DriveAfterLine, DriveAfterEnd};

    /// Opens the replay of the drive with this index, from 0, in a valid setup, which must have that drive. The error is `AllocError`.
    pub fn open(alloc: Global, setup: &RingSetup, index: usize) -> Result<DriveReplay, AllocError>
        requires ring { is_ring setup.now ≡ true }
        requires index { index < length setup.now.drives }
        ensures { IfOk result (λ replay. DriveReplayStandsFor replay (drive_at setup.now index) setup.now.rate []) }
    {
        let drive = Drive::open(alloc, &setup.drives[index], setup.rate)?;
        let told = Box::new(alloc, Difference::new())?;
        let said = Box::new(alloc, Content::new())?;
        Ok(DriveReplay {
            drive,
            address: setup.drives[index].address,
            rate: setup.rate,
            cycle: 0,
            is_open: false,
            found: false,
            differs: false,
            told,
            said,
        })
    }

    // Compares the drive's AT in the newest cycle with `found`, the one in the capture, and keeps a difference. A difference that was kept
    // before is dropped. Nothing else changes, except for `said`.
    fn compare(&mut self, found: Option<&Sent>)
        ensures same { self.new ≡ record self.old { differs = self.new.differs; told = self.new.told; said = self.new.said } }
        ensures place { (d : DriveView) (h : List DriveCall) → DriveStandsFor self.old.drive d self.old.rate h →
            if_differs (at_place_of self.old.rate self.old.cycle (drive_says d self.old.rate h) (option_map (λ s. s.now) found.entry)) ≡ drive_kept self.new }
    {
        let start = in_bits(self.rate, self.drive.at(&mut self.said));
        self.differs = compare(
            &mut self.told,
            self.cycle,
            Kind::At,
            start,
            &self.said,
            found,
        );
    }

    // Compares the drive's AT with none, if the newest cycle of the capture, which must be open, has no AT of the drive. An AT that it has
    // was compared before. A difference is kept.
    fn pass(&mut self)
        ensures { (d : DriveView) (rate : ℕ) (t : Cycle) (j : List Cycle) → DriveAwaits self.old d rate t j → self.old.differs ≡ false → DriveHasPassed self.new d rate t j }
    {
        if self.found {
            return;
        }
        self.compare(None);
    }

    // Ends the newest cycle, which must be open, with the content of its MDT; `None` if it has none. If the cycle has no AT of the drive,
    // this is compared first, and a difference is kept. Then the drive receives the MDT, or that there is none.
    fn end(&mut self, content: Option<&[u8]>)
        ensures { (d : DriveView) (rate : ℕ) (t : Cycle) (j : List Cycle) (mdt : Option SentView) → DriveAwaits self.old d rate t j → self.old.differs ≡ false →
            option_map content_of mdt ≡ option_copied content.entry → DriveEndsIn self.new d rate (record t { mdt = mdt } ∷ j) }
    {
        self.pass();
        self.drive.hear_mdt(content);
        self.is_open = false;
    }

    // Ends the newest cycle without an MDT, if it is open.
    fn close(&mut self)
        ensures ended { (d : DriveView) (rate : ℕ) (j : List Cycle) → DriveGoes self.old d rate j → self.old.differs ≡ false → DriveEndsIn self.new d rate j }
        ensures rests { (d : DriveView) (rate : ℕ) (j : List Cycle) → DriveRests self.old d rate j → self.old.differs ≡ false → DriveEndsIn self.new d rate j }
    {
        if self.is_open {
            self.end(None);
        }
    }

    // Begins a cycle: the drive receives its MST. No cycle may be open, and the cycle must not be below the newest one.
    fn begin(&mut self, cycle: u32, sent: &Sent)
        ensures { (d : DriveView) (rate : ℕ) (j : List Cycle) → DriveRests self.old d rate j → self.old.differs ≡ false → newest_cycle j ≤ cycle →
            DriveStandsIn self.new d rate (begun cycle sent.now ∷ j) }
    {
        self.drive.hear_mst(cycle, Some(sent.content.as_slice()));
        self.cycle = cycle;
        self.is_open = true;
        self.found = false;
    }

    // Takes an MST: ends the newest cycle, and begins this one unless a difference was found. The cycle must not be below the newest one.
    fn take_mst(&mut self, cycle: u32, sent: &Sent)
        ensures { (d : DriveView) (rate : ℕ) (j : List Cycle) → DriveGoes self.old d rate j → self.old.differs ≡ false → newest_cycle j ≤ cycle →
            DriveStandsIn self.new d rate (begun cycle sent.now ∷ j) }
    {
        self.close();
        if !self.differs {
            self.begin(cycle, sent);
        }
    }

    // Returns whether an AT is awaited, and `sent` begins with the drive's address. An AT is awaited while the newest cycle is open and has
    // no AT of the drive. A difference found before doesn't matter.
    fn awaits(&self, sent: &Sent) -> bool
        ensures { result ≡ (self.now.is_open && (not self.now.found && is_of self.now.address sent.now)) }
    {
        self.is_open && !self.found && byte_at(sent.content.as_slice(), 0) == self.address
    }

    // Compares the drive's AT of the capture, which must be awaited and begin with the drive's address, and keeps a difference.
    fn take_own(&mut self, sent: &Sent)
        ensures { (d : DriveView) (rate : ℕ) (t : Cycle) (j : List Cycle) → DriveAwaits self.old d rate t j → self.old.differs ≡ false →
            self.old.found ≡ false → is_of self.old.address sent.now ≡ true → DriveStandsIn self.new d rate (record t { ats = t.ats ++ sent.now ∷ [] } ∷ j) }
    {
        self.found = true;
        self.compare(Some(sent));
    }

    // Takes an AT: compares it if it is the drive's and is awaited. Others are ignored.
    fn take_at(&mut self, sent: &Sent)
        ensures { (d : DriveView) (rate : ℕ) (j : List Cycle) → DriveGoes self.old d rate j → self.old.differs ≡ false →
            DriveStandsIn self.new d rate (with_at sent.now j) }
    {
        if self.awaits(sent) {
            self.take_own(sent);
        }
    }

    // Takes an MDT, which ends the newest cycle. It is ignored if no cycle is open.
    fn take_mdt(&mut self, sent: &Sent)
        ensures { (d : DriveView) (rate : ℕ) (j : List Cycle) → DriveGoes self.old d rate j → self.old.differs ≡ false →
            DriveStandsIn self.new d rate (with_mdt sent.now j) }
    {
        if !self.is_open {
            return;
        }
        self.end(Some(sent.content.as_slice()));
    }

    // Takes a telegram, before any difference was found. An MST begins `cycle`, which must not be below the newest one; an AT or an MDT
    // counts for the newest cycle, regardless of `cycle`.
    fn take(&mut self, cycle: u32, sent: &Sent)
        ensures { (d : DriveView) (rate : ℕ) (j : List Cycle) → DriveGoes self.old d rate j → self.old.differs ≡ false → goes_on sent.now.kind cycle j →
            DriveStandsIn self.new d rate (with_telegram sent.now.kind cycle sent.now j) }
    {
        match sent.kind {
            Kind::Mst => self.take_mst(cycle, sent),
            Kind::At => self.take_at(sent),
            Kind::Mdt => self.take_mdt(sent),
        }
    }

    // Takes a line before any difference was found. A line that isn't a telegram is ignored. The cycle of an MST must not be below that of
    // an earlier one.
    fn take_line(&mut self, line: &Line)
        ensures { (d : DriveView) (rate : ℕ) (lines : List Line) → DriveReplayStandsFor self.old d rate lines → self.old.differs ≡ false → GoesOn lines line.now →
            DriveReplayStandsFor self.new d rate (line.now ∷ lines) }
    {
        if let Line::Telegram { cycle, sent } = line {
            self.take(*cycle, sent);
        }
    }

    /// Takes a line. It is ignored after a difference. The cycle of an MST must not be below that of an earlier one.
    pub(crate) fn give(&mut self, line: &Line)
        ensures { DriveAfterLine self.old line.now self.new }
    {
        if self.differs {
            return;
        }
        self.take_line(line);
    }

    // Ends the capture: ends the newest cycle, unless a difference was found before.
    fn end_all(&mut self)
        ensures { DriveAfterEnd self.old self.new }
    {
        if self.differs {
            return;
        }
        self.close();
    }

    // Returns a copy of the difference that was found; `None` if none was. It may be called before and after a difference.
    fn difference(&self) -> Option<Difference>
        ensures tells { (d : DriveView) (rate : ℕ) (lines : List Line) → DriveReplayStandsFor self.now d rate lines →
            result ≡ drive_tells d rate (cycles_of lines) }
        ensures differs { (d : DriveView) (rate : ℕ) (lines : List Line) → DriveReplayHasFinished self.now d rate lines →
            result ≡ drive_differs d rate (cycles_of lines) }
    {
        if self.differs {
            Some(self.told.copy())
        } else {
            None
        }
    }

    /// Takes the next line of a capture; the cycle of an MST must not be below that of an earlier one. Returns the first place at which the
    /// drive deviated from its rules, as soon as the capture has its telegram or one of a later place; `None` if there is none so far.
    /// After a difference each call returns it again.
    pub fn line(&mut self, line: &Line) -> Option<Difference>
        ensures after { DriveAfterLine self.old line.now self.new }
        ensures tells { (d : DriveView) (rate : ℕ) (lines : List Line) → DriveReplayStandsFor self.old d rate lines → GoesOn lines line.now →
            result ≡ drive_tells d rate (cycles_of (line.now ∷ lines)) }
    {
        self.give(line);
        self.difference()
    }

    /// Ends the capture; no line may follow. Returns the first place at which the drive deviated from its rules, or sent nothing though
    /// they require a telegram; `None` if there is none. It may be called again, and returns the same.
    pub fn finish(&mut self) -> Option<Difference>
        ensures after { DriveAfterEnd self.old self.new }
        ensures differs { (d : DriveView) (rate : ℕ) (lines : List Line) → (DriveReplayStandsFor self.old d rate lines ⊎ DriveReplayHasFinished self.old d rate lines) →
            result ≡ drive_differs d rate (cycles_of lines) }
    {
        self.end_all();
        self.difference()
    }
}
