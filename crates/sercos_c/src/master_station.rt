//! A master whose cycles a program makes, with what it reported. The comments speak of one that was opened from a document and has had only
//! these calls since.
ghost use Rattle.std.specs.Prelude.{◌≡◌, ◌≢◌, ◌∷◌, ◌≤◌, ◌<◌, true, List, length, Some, option_map, is_some};

use crate::room::put;
use crate::status::{CLOSED, NO, WRITE_FAULT};
use crate::texts::{has_slots, put_cycle};
use sercos_bits::{Content, MAX_CONTENT};
use sercos_master::{AnyMaster, master_law};
use sercos_timing::Wishes;
use sercos_trace::CycleRecord;

/// A master, and what it reported in the cycle that ended last, or in a restart since. `master` is `None` only during a call. `ended` is
/// the number of cycles that have ended since the opening, at most the greatest `u32`.
#[derive(Drop)]
pub(crate) struct MasterStation {
    pub(crate) master: Option<AnyMaster>,
    pub(crate) wishes: Wishes,
    pub(crate) record: Box<CycleRecord>,
    pub(crate) ended: u32,
    ghost there: { is_some master ≡ true },
}

impl MasterStation {
    ghost use Rattle.sercos_c.specs.Clauses.{cycle_text, DocumentView, Call, HearMst, HearAt, End, past, mst_said, mdt_said, Known, known_of, tasks_for, Job, AnyStandsFor, restart_told, no_events, of_nothing, silent_record, closed, write_fault, IsNothing, IsPut, IsText, past_of, reported, reported_in, IsSent, MasterStandsFor};
    ghost use Rattle.sercos_block.specs.Rings.{wishes_of};
    ghost use Rattle.sercos_master.specs.Annals.{Mdt, Restart};

    // Returns the master.
    fn master(&self) -> &AnyMaster
        ensures { Some result.now ≡ self.now.master }
    {
        self.master.as_ref().unwrap()
    }

    /// Writes the content of this cycle's MST to the front of `out`, and the number of its bytes to `written`, and returns `DONE`. The
    /// bytes of `out` after the content stay as they were. Returns `WRITE_FAULT` if there is too little room, and then `out` stays as it
    /// was, and `written` is 0.
    pub(crate) fn mst(&self, out: &mut [u8], written: &mut usize) -> u8
        ensures open { result ≢ closed }
        ensures said { (d : DocumentView) (h : List Call) → MasterStandsFor self.now d h → IsPut (mst_said (past_of d h)) out.old out.new written.new result }
    {
        let mut said = Content::new();
        self.master().mst(&mut said);
        put(said.as_slice(), out, written)
    }

    /// Takes what returned of the master's own MST: the content of a frame, or `None`.
    pub(crate) fn hear_mst(&mut self, content: Option<&[u8]>)
        ensures { (d : DocumentView) (h : List Call) → MasterStandsFor self.old d h → MasterStandsFor self.new d (HearMst (option_map (λ c. c.now) content.entry) ∷ h) }
    {
        let Some(master) = &mut self.master else {
            unreachable!()
        };
        master.hear_mst(content);
    }

    /// Takes the content of a frame that arrived at the place of an AT.
    pub(crate) fn hear_at(&mut self, content: &[u8])
        ensures { (d : DocumentView) (h : List Call) → MasterStandsFor self.old d h → MasterStandsFor self.new d (HearAt content.now ∷ h) }
    {
        let Some(master) = &mut self.master else {
            unreachable!()
        };
        master.hear_at(content);
    }

    /// Has the master send this cycle's MDT: writes its content to the front of `out`, the number of its bytes to `written`, and its start,
    /// in microseconds after the MST's end, to `start`, and returns `DONE`. The bytes of `out` after the content stay as they were. Returns
    /// `WRITE_FAULT` if `out` has fewer than 2,048 bytes, and then the station is unchanged; otherwise `NO` if there is no MDT in this
    /// cycle: in phase 0, in 1 if each drive is identified, in 2 if no step is open, and in 3 and 4 without a plan. With `NO`, too, the
    /// master has noted a stop, made its plan and begun its next tasks, if they were due. After `WRITE_FAULT` and `NO` `written` is 0, and
    /// `out` and the start stay as they were.
    pub(crate) fn mdt(&mut self, out: &mut [u8], written: &mut usize, start: &mut u16) -> u8
        ensures open { result ≢ closed }
        ensures fault { length out.old < 2048 → IsNothing write_fault out.old out.new written.new result × ((start.new ≡ start.old) × (self.new ≡ self.old)) }
        ensures said { (d : DocumentView) (h : List Call) → MasterStandsFor self.old d h → 2048 ≤ length out.old →
            IsSent (mdt_said (known_of d.setup) (past_of d (Mdt ∷ h))) out.old out.new written.new start.old start.new result × MasterStandsFor self.new d (Mdt ∷ h) }
    {
        *written = 0;
        if out.len() < MAX_CONTENT {
            return WRITE_FAULT;
        }
        let Some(master) = &mut self.master else {
            unreachable!()
        };
        let mut said = Content::new();
        match master.mdt(&mut said) {
            Some(at) => {
                *start = at;
                put(said.as_slice(), out, written)
            }
            None => NO,
        }
    }

    /// Ends the cycle, and keeps what the master reports in it instead of its earlier report. The number of cycles that have ended rises by
    /// one, up to the greatest `u32`.
    pub(crate) fn end_cycle(&mut self)
        ensures { (d : DocumentView) (h : List Call) → MasterStandsFor self.old d h → MasterStandsFor self.new d (End ∷ h) }
    {
        let master = self.master.take().unwrap();
        self.record.reuse(self.ended);
        self.master = Some(master.end_cycle(&mut self.record.events));
        self.ended = self.ended.saturating_add(1);
    }

    // Restarts a master, and returns it. `kept` then has the number `cycle`, what the master reports of the restart, and the telegrams that
    // it had; its phase and its number of undetected arrivals are 0, and it has no other events and no moves.
    #[tactic(auto, using(crate::proofs::MasterLemmas::none_few))]
    fn restarted(master: AnyMaster, cycle: u32, kept: &mut CycleRecord) -> AnyMaster
        ensures stands { (s : Known) (jobs : List Job) (h : List Call) → AnyStandsFor master s jobs h → AnyStandsFor result s jobs (Restart ∷ h) }
        ensures told { (s : Known) (jobs : List Job) (h : List Call) → AnyStandsFor master s jobs h →
            kept.new ≡ record (of_nothing cycle kept.old.sent) { events = restart_told s (past s (tasks_for s jobs) h) no_events } }
    {
        kept.reuse(cycle);
        master.restart(&mut kept.events)
    }

    /// Restarts the master, and keeps what it reports of that instead of its earlier report.
    pub(crate) fn restart(&mut self)
        ensures { (d : DocumentView) (h : List Call) → MasterStandsFor self.old d h → MasterStandsFor self.new d (Restart ∷ h) }
    {
        let master = self.master.take().unwrap();
        self.master = Some(Self::restarted(master, self.ended, &mut self.record));
    }

    /// Returns the phase that the master commands, 0 to 4.
    pub(crate) fn command(&self) -> u8
        ensures phase { (d : DocumentView) (h : List Call) → MasterStandsFor self.now d h → result ≡ (past_of d h).now.phase }
        ensures bound { result ≤ 4 }
    {
        self.master().command()
    }

    /// Writes the trace lines of what the master reported in the cycle that ended last, or in a restart since, nothing before both, to the
    /// front of `out`, and the number of their bytes to `written`, and returns `DONE`. The number of the cycle in the lines is how many
    /// cycles had ended before, since the opening, at most 2^32 - 1. Returns `WRITE_FAULT` if there is too little room, and then `written`
    /// is 0. Afterwards the bytes of `out` after the text are unspecified; after `WRITE_FAULT` all of them are. With a master that was
    /// opened from a document it never returns `CLOSED`. After `CLOSED` nothing is written.
    pub(crate) fn events(&self, out: &mut [u8], written: &mut usize) -> u8
        ensures written { (d : DocumentView) (h : List Call) → MasterStandsFor self.now d h →
            IsText (cycle_text (wishes_of d.setup) (silent_record (reported_in h) (reported d h))) out.old out.new written.new result }
        ensures nothing { result ≡ closed → (out.new ≡ out.old) × (written.new ≡ written.old) }
    {
        master_law();
        if !has_slots(&self.wishes, &self.record) {
            return CLOSED;
        }
        put_cycle(&self.wishes, &self.record, out, written)
    }
}
