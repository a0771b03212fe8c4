// What the master keeps of one drive.
ghost use Rattle.std.specs.Prelude.{OnOk, OnErr, ◌≡◌, ℕ, ◌+◌, ◌<◌, ◌≤◌, ◌==◌, ◌&&◌, true, false, not, List, [], ◌∷◌, ◌++◌, length, take, drop, map, min, Option, Some, None, IfSome, is_some, is_none, option_map, slice_get, if◌then◌else◌};
ghost use Rattle.sercos_seat.specs.Clauses.{Status, Outcome, IsRequest, Call, cycles_open, MasterStandsFor, PlanView, record_said, Known, MemberView, Task, member, request_task, of_phase, Waiting, wish_given, mdt_attributes, agenda, reads_count, is_checked, is_ready, ended_well, stop_of_task, asked_by, long_stop, last_long, pair_of, broken_in, record_seen, IsQueue, sent_in, forgotten, after_outcome, Seen, SeatStandsFor, heard_in, seen_with_status, at_in, begun_in, with_begun, is_idle_in, has_read, cycles_kept, nothing_seen, ended_in, AreWaiting, outcomes_seen, next_write, next_in_2, next_in_3, at_len_kept, len_of_words, listed_len, kept_given, kept_checked, kept_ready, master_says, begun_by};

use crate::answers::{
    Asked, Words, asked_by, ended_well, last_long, lens_of, listed_len, low_and_high, low_at,
    outcome_bytes, put_command_values, words_from,
};
use crate::member::{Member, Numbers, command, number_at, read, write_list, write_word};
use crate::queue::Waiting;
use arrayvec::ArrayVec;
use sercos_bits::Content;
use sercos_block::numbers::{
    AT_LIST, CONTROL_CYCLE_TIME, CYCLE_TIME, INVALID_FOR_PHASE_2, INVALID_FOR_PHASE_3, MDT_LENGTH,
    MDT_LIST, PHASE_3_CHECK, PHASE_4_CHECK, POSITION, T1, T2, T3, T4, TELEGRAM_TYPE,
};
use sercos_idn::Idn;
use sercos_idn::element::DATA;
use sercos_service_master::MasterChannel;
use sercos_step::{Outcome, Request};
use sercos_telegram::{Record, Status, joint_record, read_at, write_single};
use sercos_timing::{Plan, Times, Wish};
use sercos_trace::{Reported, Stop};
use std::alloc::{AllocError, Global};
use std::marker::Model;

// The limit up to which outcomes are counted. It is more than the start-up has.
const MOST_OUTCOMES: u8 = 100;

// The number of tasks between the reads and the check for phase 3: the eleven writes.
const PHASE_3_CHECK_AFTER_READS: usize = 11;

// The number of tasks between the reads and the check for phase 4.
const PHASE_4_CHECK_AFTER_READS: usize = 12;

// The telegram type that the start-up writes: the application telegram.
const CONFIGURED: u16 = 7;

/// One drive as the master keeps it: its channel, its answers, its telegrams, and the requests that wait. Contracts see the record of what
/// it keeps.
#[derive(Drop)]
pub struct Seat {
    member: Member,
    channel: MasterChannel,
    done: u8,
    given: ArrayVec<Words, 38>,
    // the length of its AT in phases 3 and 4, in bytes after the address, by the attributes read
    at_len: u16,
    // the length of each value of its data record, in bytes, by the attributes read
    mdt_lens: ArrayVec<u8, 16>,
    checked: bool,
    ready: bool,
    asked: Asked,
    number: Option<u16>,
    trouble: Option<Stop>,
    report: Option<Reported>,
    heard: bool,
    missed: bool,
    identified: bool,
    waiting: Vec<Waiting>,
}

impl Model for Seat {
    ghost use Rattle.sercos_seat.specs.Seats.{SeatView, len_of_words, listed_len};
    ghost use Rattle.std.specs.Prelude.{◌≡◌, ◌≤◌, ◌+◌, drop, length, map, take};

    ghost Value = { SeatView };

    ghost view = { λ t. record {
      member = t.member;
      channel = t.channel;
      done = t.done;
      given = t.given.items;
      checked = t.checked;
      ready = t.ready;
      asked = t.asked;
      number = t.number;
      trouble = t.trouble;
      report = t.report;
      heard = t.heard;
      missed = t.missed;
      identified = t.identified;
      waiting = t.waiting.items;
    } };

    ghost invariant = { λ t. (t.at_len ≡ listed_len (take (length t.member.at) (drop 6 t.given.items))) × (4 ≤ t.at_len) × (t.at_len ≤ 68)
        × (t.mdt_lens.items ≡ map len_of_words (take (length t.member.mdt) (drop (6 + length t.member.at) t.given.items))) };
}

// Returns the count of outcomes with one more; it stays at the limit, 100.
fn one_more(done: u8) -> u8
    ensures { result ≡ min (done + 1) 100 }
{
    if done < MOST_OUTCOMES {
        done + 1
    } else {
        MOST_OUTCOMES
    }
}

// Returns the attributes of the values of a drive's data record. `given` are the words read so far.
fn mdt_words_of<'a>(given: &'a [Words], member: &Member) -> &'a [Words]
    ensures value { result.now ≡ take (length member.now.mdt) (drop (6 + length member.now.at) given.now) }
    ensures few { length result.now ≤ 16 }
{
    words_from(given, 6 + member.at().len(), member.mdt().len())
}

impl Seat {
    /// Opens the seat of a drive that nothing was received from yet. No request waits.
    pub fn open(alloc: Global, member: Member) -> Seat
        ensures fresh { (d : MemberView) → d ≡ member → SeatStandsFor result d (nothing_seen []) }
    {
        Seat {
            member,
            channel: MasterChannel::new(),
            done: 0,
            given: ArrayVec::new(),
            at_len: listed_len(&[]),
            mdt_lens: ArrayVec::new(),
            checked: false,
            ready: false,
            asked: Asked {
                idn: Idn { raw: 0 },
                reads: None,
            },
            number: None,
            trouble: None,
            report: None,
            heard: false,
            missed: false,
            identified: false,
            waiting: Vec::new(alloc),
        }
    }

    /// Adds a request, before those that wait already. It must be for an element that a transfer takes: 1 to 7 of a read, 2 to 7 of a
    /// write. `number` is its number among all requests, counted from 1. The effect is defined for a seat that has received and sent
    /// nothing and has begun no task. The error is `AllocError`; then the seat is unchanged.
    #[tactic(auto, using(crate::proofs::Requests::is_one))]
    pub fn wait(&mut self, number: u16, request: Request) -> Result<(), AllocError>
        requires { IsRequest request }
        ensures ok { OnOk result ((d : MemberView) (waiting : List Task) → SeatStandsFor self.old d (nothing_seen waiting) →
            SeatStandsFor self.new d (nothing_seen (request_task number request ∷ waiting))) }
        ensures err { OnErr result (self.new ≡ self.old) }
    {
        self.waiting.push(Waiting { number, request })?;
        Ok(())
    }

    // Keeps the values of the next outcome, by its index, which is the count of those before it: of a read its first four bytes; at 11 and
    // 12 after the reads, as the outcomes of the checks for phases 3 and 4, whether the check ended well, the second one only if the first
    // did. Outcomes are counted up to 100. `bytes` are those of the outcome, none if it isn't complete.
    fn keep(&mut self, bytes: &[u8])
        ensures few { reads_count self.old.member ≤ 38 }
        ensures kept { self.new ≡ record self.old {
          done = min (self.old.done + 1) 100;
          given = kept_given (reads_count self.old.member) self.old.done self.old.given bytes.now;
          checked = kept_checked (reads_count self.old.member) self.old.done self.old.checked bytes.now;
          ready = kept_ready (reads_count self.old.member) self.old.done self.old.checked self.old.ready bytes.now;
        } }
    {
        let reads = self.member.reads_count();
        let done = usize::from(self.done);
        if done < reads && self.given.len() < 38 {
            self.given.push(low_and_high(bytes));
            self.at_len = listed_len(words_from(self.given.as_slice(), 6, self.member.at().len()));
            self.mdt_lens = lens_of(mdt_words_of(self.given.as_slice(), &self.member));
        }
        if done == reads + PHASE_4_CHECK_AFTER_READS {
            self.ready = self.checked && ended_well(bytes);
        }
        if done == reads + PHASE_3_CHECK_AFTER_READS {
            self.checked = ended_well(bytes);
        }
        self.done = one_more(self.done);
    }

    // Returns the stop that an outcome of the current task causes, as [`Asked::stop_by`]; always `None` if the task is a request, which has
    // a number. Only tasks of the start-up cause one.
    fn trouble_by(&self, outcome: &Outcome) -> Option<Stop>
        ensures { result ≡ stop_of_task self.now.member.address self.now.number self.now.asked outcome.now }
    {
        if self.number.is_some() {
            return None;
        }
        self.asked.stop_by(self.member.address(), outcome)
    }

    // Takes the outcome of the current task: keeps its values, the stop that it causes, and the report of a request.
    fn take_outcome(&mut self, outcome: Outcome)
        ensures few { reads_count self.old.member ≤ 38 }
        ensures kept { self.new ≡ after_outcome outcome self.old }
    {
        self.trouble = self.trouble_by(&outcome);
        self.keep(outcome_bytes(&outcome));
        if let Some(number) = self.number {
            self.report = Some((number, outcome));
        }
    }

    // Processes the status of the drive's AT, and the information word after it, and keeps that an AT was taken in this cycle.
    fn process_status(&mut self, status: &Status, info: u16)
        ensures { (d : MemberView) (x : Seen) → SeatStandsFor self.old d x → SeatStandsFor self.new d (heard_in status.now info x) }
    {
        self.heard = true;
        if let Some(outcome) = self.channel.hear(status, info) {
            self.take_outcome(outcome);
        }
    }

    // Takes an AT. If `identifies`, it identifies the drive, otherwise its status is processed.
    fn take(&mut self, identifies: bool, status: &Status, info: u16)
        ensures { (d : MemberView) (x : Seen) → SeatStandsFor self.old d x → SeatStandsFor self.new d (seen_with_status identifies status.now info x) }
    {
        if identifies {
            self.heard = true;
            self.identified = true;
        } else {
            self.process_status(status, info);
        }
    }

    /// Processes a content that was received. It is taken as the drive's AT if it has the drive's address and the wanted length, at least 4
    /// bytes after the address, and no AT was taken in this cycle. Otherwise it is ignored. If `identifies`, as in phase 1, the AT
    /// identifies the drive, otherwise its status is processed.
    pub fn take_at(&mut self, identifies: bool, wanted: u16, content: &[u8])
        requires { 4 ≤ wanted }
        ensures { (d : MemberView) (x : Seen) → SeatStandsFor self.old d x → SeatStandsFor self.new d (at_in identifies d.address wanted content.now x) }
    {
        if self.heard {
            return;
        }
        match read_at(self.member.address(), wanted, content) {
            Ok(at) => self.take(identifies, &at.status, at.info),
            Err(_) => {}
        }
    }

    /// Returns whether the channel has no current task.
    pub fn is_idle(&self) -> bool
        ensures { result ≡ is_none self.now.channel.transfer }
    {
        self.channel.idle()
    }

    // Begins a task on an idle channel. The request must be for an element that a transfer takes: 1 to 7 of a read, 2 to 7 of a write. It
    // must no longer be among those that wait, which are `waiting` in the contract before it was taken. `number` is that of a request; a
    // task of the start-up has none.
    fn begin(&mut self, request: Request, number: Option<u16>)
        requires idle { is_none self.old.channel.transfer ≡ true }
        requires request { IsRequest request }
        ensures { (d : MemberView) (x : Seen) (t : Task) (waiting : List Waiting) → t.request ≡ request → t.number ≡ number → IsQueue self.old.waiting d (begun_in t x) →
            SeatStandsFor (record self.old { waiting = waiting }) d x → SeatStandsFor self.new d (begun_in t x) }
    {
        self.asked = asked_by(&request);
        self.number = number;
        self.trouble = None;
        self.channel.begin(request);
    }

    // Returns the task at an index after the reads: a write for 0 to 10, or the check for phase 3 for 11. 0 and 1 write the ring's cycle
    // times, 2 to 6 and 10 values of the plan, 7 the telegram type, 8 and 9 the drive's AT and MDT lists. `numbers` must be the cycle times
    // of the ring, and `place` the drive's index in ring order. Without a plan, and for a greater index, it is `None`.
    fn next_write(
        &self,
        numbers: &Numbers,
        plan: &Option<Plan>,
        place: usize,
        index: usize,
    ) -> Option<Request>
        ensures value { (s : Known) → member s place ≡ self.now.member → s.control ≡ numbers.now.control → s.cycle ≡ numbers.now.cycle →
            result ≡ next_write s plan.now place index }
        ensures request { IfSome result IsRequest }
    {
        let Some(plan) = plan else {
            return None;
        };
        match index {
            0 => Some(write_word(CONTROL_CYCLE_TIME, numbers.control)),
            1 => Some(write_word(CYCLE_TIME, numbers.cycle)),
            2 => Some(write_word(T1, number_at(plan.t1(), place))),
            3 => Some(write_word(T4, plan.t4)),
            4 => Some(write_word(T3, plan.t3)),
            5 => Some(write_word(POSITION, number_at(plan.position(), place))),
            6 => Some(write_word(MDT_LENGTH, plan.mdt_len)),
            7 => Some(write_word(TELEGRAM_TYPE, CONFIGURED)),
            8 => Some(write_list(AT_LIST, self.member.at())),
            9 => Some(write_list(MDT_LIST, self.member.mdt())),
            10 => Some(write_word(T2, plan.t2)),
            11 => Some(command(PHASE_3_CHECK)),
            _ => None,
        }
    }

    // Returns the next task of phase 2: a read, one of the eleven writes of `next_write`, the check for phase 3, or the read of the list
    // after it failed. It is `None` if all reads have ended and there is no plan yet, and if no task is left. `numbers` must be the cycle
    // times of the ring, and `place` the drive's index in ring order.
    fn next_in_2(&self, numbers: &Numbers, plan: &Option<Plan>, place: usize) -> Option<Request>
        ensures value { (s : Known) → member s place ≡ self.now.member → s.control ≡ numbers.now.control → s.cycle ≡ numbers.now.cycle →
            result ≡ next_in_2 s plan.now place self.now.done self.now.checked }
        ensures request { IfSome result IsRequest }
        ensures few { reads_count self.now.member ≤ 38 }
    {
        let reads = self.member.reads_count();
        let done = usize::from(self.done);
        if done < reads {
            return Some(self.member.read_at(done));
        }
        if done == reads + PHASE_4_CHECK_AFTER_READS && plan.is_some() && !self.checked {
            return Some(read(INVALID_FOR_PHASE_2, DATA));
        }
        self.next_write(numbers, plan, place, done - reads)
    }

    // Returns the next task of phase 3: the check for phase 4, or the read of the list after it failed. It is `None` without a plan, if the
    // check for phase 3 hasn't ended well, and if no task is left. `planned` is whether there is a plan.
    #[tactic(auto, using(crate::proofs::Agendas::kept_reads))]
    fn next_in_3(&self, planned: bool) -> Option<Request>
        ensures value { result ≡ next_in_3 (reads_count self.now.member) planned self.now.done self.now.checked self.now.ready }
        ensures few { reads_count self.now.member ≤ 38 }
        ensures request { IfSome result IsRequest }
    {
        let reads = self.member.reads_count();
        let done = usize::from(self.done);
        if !planned || !self.checked {
            return None;
        }
        if done == reads + PHASE_4_CHECK_AFTER_READS {
            return Some(command(PHASE_4_CHECK));
        }
        if done == reads + PHASE_4_CHECK_AFTER_READS + 1 && !self.ready {
            return Some(read(INVALID_FOR_PHASE_3, DATA));
        }
        None
    }

    /// Returns whether all reads of the start-up have ended.
    pub fn has_read(&self) -> bool
        ensures { result ≡ has_read self.now }
    {
        self.member.reads_count() <= usize::from(self.done)
    }

    /// Returns whether the check for phase 3 ended well.
    pub fn is_checked(&self) -> bool
        ensures { result ≡ self.now.checked }
    {
        self.checked
    }

    /// Returns whether the check for phase 4 ended well, after the check for phase 3.
    pub fn is_ready(&self) -> bool
        ensures { result ≡ self.now.ready }
    {
        self.ready
    }

    /// Begins the next task of phase 2, if the channel is idle and there is one; otherwise begins none. `numbers` must be the cycle times
    /// of the ring, and `place` the drive's index in ring order. The tasks that wait must be of phase 4.
    pub fn begin_in_2(&mut self, place: usize, numbers: &Numbers, plan: &Option<Plan>)
        ensures { (s : Known) (x : Seen) (waiting : List Task) → member s place ≡ self.old.member → s.control ≡ numbers.now.control → s.cycle ≡ numbers.now.cycle →
            AreWaiting waiting → SeatStandsFor self.old (member s place) x → SeatStandsFor self.new (member s place)
            (with_begun (if is_idle_in x then of_phase 2 (slice_get (agenda s plan.now waiting place (outcomes_seen x)) (length (outcomes_seen x))) else None) x) }
    {
        if !self.is_idle() {
            return;
        }
        if let Some(request) = self.next_in_2(numbers, plan, place) {
            self.begin(request, None);
        }
    }

    /// Begins the next task of phase 3, if the channel is idle and there is one; otherwise begins none. `planned` is whether there is a
    /// plan. The tasks that wait must be of phase 4.
    pub fn begin_in_3(&mut self, planned: bool)
        ensures { (s : Known) (k : ℕ) (x : Seen) (plan : Option PlanView) (waiting : List Task) → AreWaiting waiting → is_some plan ≡ planned →
            SeatStandsFor self.old (member s k) x → SeatStandsFor self.new (member s k)
            (with_begun (if is_idle_in x then of_phase 3 (slice_get (agenda s plan waiting k (outcomes_seen x)) (length (outcomes_seen x))) else None) x) }
    {
        if !self.is_idle() {
            return;
        }
        if let Some(request) = self.next_in_3(planned) {
            self.begin(request, None);
        }
    }

    /// Begins the next request that waits, if the channel is idle, there is a plan, and the checks for phases 3 and 4 ended well; otherwise
    /// begins none. `planned` is whether there is a plan. The tasks that wait must be of phase 4.
    #[tactic(auto, using(crate::proofs::Requests::takes))]
    pub fn begin_in_4(&mut self, planned: bool)
        ensures { (s : Known) (k : ℕ) (x : Seen) (plan : Option PlanView) → AreWaiting x.waiting → is_some plan ≡ planned →
            SeatStandsFor self.old (member s k) x → SeatStandsFor self.new (member s k)
            (with_begun (if is_idle_in x then of_phase 4 (slice_get (agenda s plan x.waiting k (outcomes_seen x)) (length (outcomes_seen x))) else None) x) }
    {
        if !self.is_idle() {
            return;
        }
        if !planned {
            return;
        }
        if !self.ready {
            return;
        }
        if let Some(next) = self.waiting.pop() {
            self.begin(next.request, Some(next.number));
        }
    }

    /// Replaces the content by an MDT of 5 bytes to this drive alone, in the layout of phases 1 and 2. It carries the open step; if there
    /// is none, MHS is unchanged, and all other bits of the control and information words are 0. The seat keeps that it was sent.
    pub fn send_single(&mut self, out: &mut Content)
        ensures stands { (d : MemberView) (x : Seen) → SeatStandsFor self.old d x → SeatStandsFor self.new d (sent_in x) }
        ensures bytes { (d : MemberView) (x : Seen) → SeatStandsFor self.old d x → out.new ≡ d.address ∷ record_said (master_says (begun_by x.calls)) [] }
        ensures some { 0 < length out.new }
    {
        let address = self.member.address();
        let (control, info) = self.channel.send();
        write_single(address, &control, info, out);
    }

    /// Appends the drive's data record to the content of an MDT to all drives: the two words of the open step, and the command values of
    /// the cycle. If no step is open, MHS is unchanged, and all other bits of the two words are 0. The seat keeps that it was sent. `count`
    /// is the number of the cycle. The content must have room for it within 2048 bytes; otherwise it is unspecified, but not empty if it
    /// wasn't before.
    pub fn send_record(&mut self, count: u32, out: &mut Content)
        ensures stands { (d : MemberView) (x : Seen) → SeatStandsFor self.old d x → SeatStandsFor self.new d (sent_in x) }
        ensures bytes { (d : MemberView) (x : Seen) → SeatStandsFor self.old d x → length out.old + length (record_seen count d x) ≤ 2048 → out.new ≡ out.old ++ record_seen count d x }
        ensures some { 0 < length out.old → 0 < length out.new }
    {
        let mut values = ArrayVec::new();
        put_command_values(count, self.mdt_lens.as_slice(), &mut values);
        let (control, info) = self.channel.send();
        let record = Record {
            control,
            info,
            values: values.as_slice(),
        };
        let _full = joint_record(&record, out);
    }

    /// Returns whether the task that was begun last has ended with an outcome that causes a stop, and the stop wasn't taken out.
    pub fn has_trouble(&self) -> bool
        ensures { result ≡ is_some self.now.trouble }
    {
        self.trouble.is_some()
    }

    /// Takes out the stop that the task that was begun last has caused by its outcome; `None` if it has caused none yet, or if its stop was
    /// taken out before. Afterwards the seat has none.
    pub fn take_trouble(&mut self) -> Option<Stop>
        ensures value { result ≡ self.old.trouble }
        ensures rest { self.new ≡ record self.old { trouble = None } }
    {
        self.trouble.take()
    }

    /// Returns whether the drive was identified.
    pub fn is_identified(&self) -> bool
        ensures { result ≡ self.now.identified }
    {
        self.identified
    }

    /// Returns whether no AT was taken in this cycle and in the one before, and the latter was of phase 3 or 4.
    pub fn is_lost(&self) -> bool
        ensures { result ≡ (self.now.missed && not self.now.heard) }
    {
        self.missed && !self.heard
    }

    /// Returns the number of cycles that ended since the open step was first sent, at most 64; 0 if no step that was sent is open.
    pub fn cycles_open(&self) -> u8
        ensures value { (h : List Call) → MasterStandsFor self.now.channel h → result ≡ cycles_open h }
        ensures kept { result ≡ cycles_kept self.now }
    {
        self.channel.cycles_open()
    }

    /// Ends a cycle of this phase. The seat keeps whether no AT was taken in it, if the phase is 3 or 4. At the start of the next cycle no
    /// AT has been taken, and no request has ended. Returns the request that ended in it, with its outcome; `None` if none did.
    pub fn end_cycle(&mut self, phase: u8) -> Option<Reported>
        ensures stands { (d : MemberView) (x : Seen) → SeatStandsFor self.old d x → SeatStandsFor self.new d (ended_in phase x) }
        ensures report { result ≡ self.old.report }
    {
        self.channel.end_cycle();
        self.missed = phase >= 3 && !self.heard;
        self.heard = false;
        self.report.take()
    }

    /// Returns whether a request ended in this cycle.
    pub fn has_report(&self) -> bool
        ensures { result ≡ is_some self.now.report }
    {
        self.report.is_some()
    }

    /// Ends a cycle of this phase, in which no request may have ended. The seat keeps whether no AT was taken in it, if the phase is 3 or
    /// 4. At the start of the next cycle no AT has been taken, and no request has ended.
    pub fn end_quiet_cycle(&mut self, phase: u8)
        requires { self.old.report ≡ None }
        ensures { (d : MemberView) (x : Seen) → SeatStandsFor self.old d x → SeatStandsFor self.new d (ended_in phase x) }
    {
        self.channel.end_cycle();
        self.missed = phase >= 3 && !self.heard;
        self.heard = false;
    }

    /// Begins an epoch: everything received from the drive is forgotten. Returns the current request, with its number, as broken; `None` if
    /// no request is current, also if the current task is one of the start-up. The requests that weren't begun still wait.
    pub fn reset(&mut self) -> Option<Reported>
        ensures fresh { (d : MemberView) (x : Seen) → SeatStandsFor self.old d x → SeatStandsFor self.new d (forgotten x) }
        ensures broken { (d : MemberView) (x : Seen) → SeatStandsFor self.old d x → result ≡ option_map pair_of (broken_in x) }
    {
        let broken = self.channel.reset();
        let number = self.number.take();
        self.done = 0;
        self.given.clear();
        self.at_len = listed_len(&[]);
        self.mdt_lens.clear();
        self.checked = false;
        self.ready = false;
        self.trouble = None;
        self.report = None;
        self.heard = false;
        self.missed = false;
        self.identified = false;
        match (broken, number) {
            (Some(outcome), Some(request)) => Some((request, outcome)),
            _ => None,
        }
    }

    /// Returns the drive.
    pub fn member(&self) -> &Member
        ensures { result.now ≡ self.now.member }
    {
        &self.member
    }

    /// Returns the planner's input of the drive, from its answers to the reads. Times are in microseconds; one that wasn't read is 0. An
    /// attribute that wasn't read adds nothing to the lengths, which are in bytes: that of the AT after the address, and that of the data
    /// record.
    pub fn wish(&self) -> Wish
        ensures { (d : MemberView) (x : Seen) → SeatStandsFor self.now d x → result ≡ wish_given d (outcomes_seen x) }
    {
        let words = self.given.as_slice();
        Wish {
            address: self.member.address(),
            slave: self.member.slave(),
            times: Times {
                t1min: low_at(words, 0),
                tatmt: low_at(words, 1),
                t4min: low_at(words, 2),
                tatat: low_at(words, 3),
                tmtsy: low_at(words, 4),
                tmtsg: low_at(words, 5),
            },
            at_len: self.at_len(),
            record_len: listed_len(mdt_words_of(words, &self.member)),
        }
    }

    /// Returns the stop for the last value of its data record with four bytes; `None` if there is none. A value whose attribute wasn't read
    /// is ignored.
    pub fn last_long(&self) -> Option<Stop>
        ensures { (d : MemberView) (x : Seen) → SeatStandsFor self.now d x → result ≡ long_stop d.address (last_long d.mdt (mdt_attributes d (outcomes_seen x))) }
    {
        let words = mdt_words_of(self.given.as_slice(), &self.member);
        let Some((idn, attribute)) = last_long(self.member.mdt(), words) else {
            return None;
        };
        Some(Stop::BadConfig {
            drive: self.member.address(),
            idn,
            attribute,
        })
    }

    /// Returns the length of its AT in phases 3 and 4 by the attributes read so far, 4 to 68 bytes after the address.
    pub fn at_len(&self) -> u16
        ensures value { result ≡ at_len_kept self.now }
        ensures bounds { (4 ≤ result) × (result ≤ 68) }
    {
        self.at_len
    }
}
