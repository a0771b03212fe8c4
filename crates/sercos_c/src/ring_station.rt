//! A ring whose cycles a program makes, one by one. The comments speak of one that was opened from a document.
ghost use Rattle.std.specs.Prelude.{◌≡◌, ◌≢◌, ◌∷◌, ◌≤◌, ◌<◌, ◌^◌, nat_lt, true, if◌then◌else◌, List, length};
ghost use Rattle.std.specs.List.{All};
ghost use Rattle.sercos_ring.specs.Kept.{AfterCycle, IsNextOf, cycles_made, newest};
ghost use Rattle.sercos_law_run.specs.Totals.Counting.{HasRoom, IsFew, with_cycle};
ghost use Rattle.sercos_trace.specs.Views.{CycleView};
ghost use Rattle.sercos_config.specs.Views.{DocumentView};
ghost use Rattle.sercos_opened.specs.Kept.{script_carry, script_restarts, IsKept};
ghost use Rattle.sercos_c.specs.Statuses.{done, answer_no, closed};
ghost use Rattle.sercos_c.specs.Texts.{IsText};
ghost use Rattle.sercos_block.specs.Rings.{wishes_of};

use crate::status::{CLOSED, DONE, NO};
use crate::texts::{has_slots, put_cycle};
use sercos_block::ring_law;
use sercos_law_run::{plan_law, run_law, totals_law};
use sercos_opened::kept_law;
use sercos_ring::{Ring, count_cycle};
use sercos_script::{BitLink, Scripted};
use sercos_timing::Wishes;
use sercos_trace::Totals;

/// A ring under its document's script. `cycles` is the number of cycles that it makes in all, `made` the number made so far, and `totals`
/// has the totals of the latter.
#[derive(Drop)]
pub(crate) struct RingStation {
    pub(crate) ring: Ring<Scripted>,
    pub(crate) wishes: Wishes,
    pub(crate) totals: Totals,
    pub(crate) cycles: u32,
    pub(crate) made: u32,
    ghost order: { All (λ place. place < length wishes.drives) wishes.order },
    ghost count: { cycles_made ring ≤ made },
    ghost few: { cycles ≤ 50000 },
}

// Returns whether each count of the totals has room below 2^32: for one more cycle and fall, 128 more requests of each outcome, and 195
// more undetected arrivals.
fn has_room(totals: &Totals) -> bool
    ensures yes { result ≡ true → HasRoom totals.now }
    ensures room { HasRoom totals.now → result ≡ true }
{
    totals.cycles < u32::MAX
        && totals.complete < u32::MAX - 127
        && totals.refused < u32::MAX - 127
        && totals.broken < u32::MAX - 127
        && totals.falls < u32::MAX
        && totals.unseen < u32::MAX - 194
}

// Makes the next cycle of a ring that has made fewer than 2^31. The cycle has at most 66 telegrams. Premises of the rest: each count of the
// totals has room below 2^32 (for one more cycle and fall, 128 more requests of each outcome, and 195 more undetected arrivals), and the
// cycle has at most 195 undetected arrivals. Then at most 128 requests of each outcome end in the cycle, and it is added to the totals.
// Otherwise the totals are unspecified.
fn make(ring: &mut Ring<Scripted>, totals: &mut Totals)
    requires { cycles_made ring.old < 2 ^ 31 }
    ensures after { AfterCycle ⟦<Scripted as BitLink>⟧.carry ⟦<Scripted as BitLink>⟧.restart ring.old ring.new }
    ensures next { IsNextOf ⟦<Scripted as BitLink>⟧.carry ⟦<Scripted as BitLink>⟧.restart ring.old (newest ring.new) }
    ensures counted { HasRoom totals.old → (newest ring.new).unseen ≤ 195 → totals.new ≡ with_cycle totals.old (newest ring.new) }
    ensures few { HasRoom totals.old → (newest ring.new).unseen ≤ 195 → IsFew (newest ring.new) }
    ensures sent { length (newest ring.new).sent ≤ 66 }
{
    let made = ring.cycle();
    prove!(made.sent.len() <= 66);
    if has_room(totals) && made.unseen <= 195 {
        count_cycle(totals, made);
    }
}

impl RingStation {
    ghost use Rattle.sercos_c.specs.Rings.{lines_of_newest, RingGoes};

    /// Makes the next cycle, and returns `DONE`. Returns `NO`, and changes nothing, if all cycles have been made. The cycles made so far
    /// have the properties of `kept_law`.
    pub(crate) fn cycle(&mut self) -> u8
        ensures status { result ≡ (if nat_lt self.old.made self.old.cycles then done else answer_no) }
        ensures goes { (d : DocumentView) (j : List CycleView) → RingGoes self.old d j → result ≡ done → (v : CycleView) × RingGoes self.new d (v ∷ j) }
        ensures same { result ≢ done → self.new ≡ self.old }
        ensures kept { (d : DocumentView) (j : List CycleView) → RingGoes self.new d j → IsKept d.setup d.jobs (script_carry d) (script_restarts d) j }
    {
        kept_law();
        run_law();
        ring_law();
        totals_law();
        if self.made >= self.cycles {
            return NO;
        }
        make(&mut self.ring, &mut self.totals);
        self.made += 1;
        DONE
    }

    /// Writes the trace lines of the cycle that was made last, none before the first, to the front of `out`, and the number of their bytes
    /// to `written`, and returns `DONE`. Returns `WRITE_FAULT` if there is too little room, and then `written` is 0. Afterwards the bytes
    /// of `out` after the text are unspecified; after `WRITE_FAULT` all of them are. With a ring that was opened from a document it never
    /// returns `CLOSED`. After `CLOSED` nothing is written.
    pub(crate) fn lines(&self, out: &mut [u8], written: &mut usize) -> u8
        ensures written { (d : DocumentView) (j : List CycleView) → RingGoes self.now d j →
            IsText (lines_of_newest (wishes_of d.setup) j) out.old out.new written.new result }
        ensures nothing { result ≡ closed → (out.new ≡ out.old) × (written.new ≡ written.old) }
    {
        plan_law();
        if self.made == 0 {
            *written = 0;
            return DONE;
        }
        if !has_slots(&self.wishes, self.ring.newest()) {
            return CLOSED;
        }
        put_cycle(&self.wishes, self.ring.newest(), out, written)
    }
}
