// The master's end of a service channel.
ghost use Rattle.std.specs.Prelude.{◌≡◌, ℕ, ◌+◌, ◌<◌, ◌≤◌, ◌&&◌, ◌||◌, true, false, not, List, [], ◌∷◌, min, Some, None, IfSome, is_some, is_none, unwrap_or, if◌then◌else◌};
ghost use Rattle.sercos_service_master.specs.Clauses.{Status, IsRequest, Begun, open_in, answers_it, answer_in, with_answer, outcome_with, step_or_none, said_by, master_says, Call, Begin, Send, Hear, EndCycle, begun_by, outcome_at, cycles_open, IsAtWork, MasterStandsFor};
ghost use Rattle.sercos_step.specs.declared.request.Outcome.TheVariants as outcome;

use sercos_step::{Answer, Outcome, Request, Step, Transfer, steps_law};
use sercos_telegram::{Control, Status};
use std::marker::Model;

// The most cycles that are counted; the count stops there.
const MOST_CYCLES_COUNTED: u8 = 64;

// Returns the count of cycles with one more, at most 64.
fn one_more(age: u8) -> u8
    ensures { result ≡ min (age + 1) 64 }
{
    if age < MOST_CYCLES_COUNTED {
        age + 1
    } else {
        MOST_CYCLES_COUNTED
    }
}

// Returns the count of cycles after a record was sent. `at_work` is whether a step is open. With one the count is unchanged, but begins at
// 0 with the first record of the step; without one it is `None`.
fn age_after(at_work: bool, age: Option<u8>) -> Option<u8>
    ensures { result ≡ (if at_work then Some (unwrap_or age 0) else None) }
{
    if at_work {
        Some(age.unwrap_or(0))
    } else {
        None
    }
}

// Returns the handshake bit MHS after an answer: it changes with the next step, unless the transfer ended.
fn mhs_after(mhs: bool, ended: bool) -> bool
    ensures { result ≡ (if ended then mhs else not mhs) }
{
    if ended { mhs } else { !mhs }
}

// Returns the open step of a transfer, or a step of zeros if there is none. Its element is below 8. The transfer isn't done.
fn step_of(work: &Option<Transfer>) -> Step
    requires { IfSome work.now (λ t. t.done ≡ false) }
    ensures step { (past : List Begun) → is_some work.now ≡ is_some (open_in past) → IfSome work.now (λ t. IsAtWork t past) → result ≡ step_or_none (open_in past) }
    ensures element { result.element < 8 }
{
    match work {
        Some(transfer) => transfer.step(),
        None => Step {
            write: false,
            last: false,
            element: 0,
            word: 0,
        },
    }
}

// Passes an answer to the transfer, and returns its outcome if that ends it; then the transfer is removed. The result is `None` if the
// transfer goes on, or if there is none. A transfer in `work` isn't done, before and after.
fn answer_with(work: &mut Option<Transfer>, answer: Answer) -> Option<Outcome>
    requires { IfSome work.old (λ t. t.done ≡ false) }
    ensures goes_on { IfSome work.new (λ t. t.done ≡ false) }
    ensures left { is_some work.new ≡ (is_some work.old && is_none result) }
    ensures work { (past : List Begun) → IfSome work.old (λ t. IsAtWork t past) → IfSome work.new (λ t. IsAtWork t (with_answer answer past)) }
    ensures outcome { (past : List Begun) → is_some work.old ≡ true → IfSome work.old (λ t. IsAtWork t past) → result ≡ outcome_with answer past }
{
    if let Some(transfer) = work {
        let outcome = transfer.answer(answer);
        if outcome.is_some() {
            *work = None;
        }
        return outcome;
    }
    None
}

/// The master's end of a drive's service channel (IEC 61491:1995). It carries one request at a time, step by step. For each step the
/// handshake bit MHS changes. The step is sent until its answer arrives: the first status whose acknowledge bit AHS is that MHS, and that
/// isn't busy.
#[derive(Drop)]
pub struct MasterChannel {
    transfer: Option<Transfer>,
    mhs: bool,
    age: Option<u8>,
}

impl Model for MasterChannel {
    ghost use Rattle.sercos_service_master.specs.Kept.{MasterView, IsChannel};

    ghost Value = { MasterView };

    ghost view = { λ c. record { transfer = c.transfer; mhs = c.mhs; age = c.age } };

    ghost invariant = { λ c. IsChannel (record { transfer = c.transfer; mhs = c.mhs; age = c.age }) };
}

impl MasterChannel {
    /// Returns a channel without a request, with MHS 0.
    pub fn new() -> MasterChannel
        ensures stands { MasterStandsFor result [] }
        ensures idle { is_none result.transfer ≡ true }
    {
        MasterChannel {
            transfer: None,
            mhs: false,
            age: None,
        }
    }

    /// Returns whether no request is in progress.
    pub fn idle(&self) -> bool
        ensures work { result ≡ is_none self.now.transfer }
        ensures calls { (h : List Call) → MasterStandsFor self.now h → result ≡ is_none (open_in (begun_by h)) }
    {
        self.transfer.is_none()
    }

    /// Begins a request. No other is in progress. A read has an element from 1 to 7, a write from 2 to 7. Its first step is open at once,
    /// and MHS changes.
    pub fn begin(&mut self, request: Request)
        requires idle { is_none self.old.transfer ≡ true }
        requires request { IsRequest request }
        ensures stands { (h : List Call) → MasterStandsFor self.old h → MasterStandsFor self.new (Begin request ∷ h) }
        ensures idle { is_none self.new.transfer ≡ false }
    {
        self.transfer = Some(Transfer::begin(request));
        self.mhs = !self.mhs;
    }

    /// Returns the control word and the information word of the next MDT's record. With an open step they carry it; otherwise MHS is
    /// unchanged, and all other bits are 0. The bits for cyclic data are 0. Whether a request is in progress is unchanged. If the open step
    /// wasn't sent before, the count of [`cycles_open`](MasterChannel::cycles_open) begins.
    pub fn send(&mut self) -> (Control, u16)
        ensures stands { (h : List Call) → MasterStandsFor self.old h → MasterStandsFor self.new (Send ∷ h) }
        ensures says { (h : List Call) → MasterStandsFor self.old h → said_by result.0 result.1 ≡ master_says (begun_by h) }
        ensures cyclic { result.0.cyclic ≡ 0 }
        ensures idle { is_none self.new.transfer ≡ is_none self.old.transfer }
    {
        self.age = age_after(self.transfer.is_some(), self.age);
        let step = step_of(&self.transfer);
        let control = Control {
            mhs: self.mhs,
            write: step.write,
            last: step.last,
            element: step.element,
            cyclic: 0,
        };
        (control, step.word)
    }

    // Processes the answer to the open step, and returns the outcome if the transfer ends, otherwise `None`. A request is in progress;
    // afterwards one is iff the result is `None`. `answer` has the error bit and the word of a status that answers the step.
    fn take(&mut self, answer: Answer) -> Option<Outcome>
        requires { is_some self.old.transfer ≡ true }
        ensures stands { (h : List Call) (status : Status) (word : ℕ) → MasterStandsFor self.old h → answers_it (begun_by h) status ≡ true →
            answer ≡ answer_in status word → MasterStandsFor self.new (Hear status word ∷ h) }
        ensures outcome { (h : List Call) → MasterStandsFor self.old h → result ≡ outcome_with answer (begun_by h) }
        ensures idle { is_none self.new.transfer ≡ is_some result }
    {
        steps_law();
        let outcome = answer_with(&mut self.transfer, answer);
        self.mhs = mhs_after(self.mhs, outcome.is_some());
        self.age = None;
        outcome
    }

    /// Processes a status and the information word after it. If the status answers the open step, the next step is open, or the transfer
    /// ends. The result is the outcome of a transfer that ends, otherwise `None`; without a request in progress it is `None`. Afterwards a
    /// request is in progress iff one was before and the result is `None`.
    pub fn hear(&mut self, status: &Status, info: u16) -> Option<Outcome>
        ensures stands { (h : List Call) → MasterStandsFor self.old h → MasterStandsFor self.new (Hear status.now info ∷ h) }
        ensures outcome { (h : List Call) → MasterStandsFor self.old h → result ≡ outcome_at h status.now info }
        ensures idle { is_none self.new.transfer ≡ (is_none self.old.transfer || is_some result) }
        ensures silent { is_none self.old.transfer ≡ true → result ≡ None }
    {
        let answered = self.transfer.is_some() && status.ahs == self.mhs && !status.busy;
        if answered {
            return self.take(Answer {
                error: status.error,
                word: info,
            });
        }
        None
    }

    /// Ends the cycle: counts it for an open step that was sent. The count stops at 64. Whether a request is in progress is unchanged.
    pub fn end_cycle(&mut self)
        ensures stands { (h : List Call) → MasterStandsFor self.old h → MasterStandsFor self.new (EndCycle ∷ h) }
        ensures idle { is_none self.new.transfer ≡ is_none self.old.transfer }
    {
        self.age = self.age.map(one_more);
    }

    /// Returns the number of cycles that ended since the open step was first sent, counted up to 64. It is 0 if no step that was sent is
    /// open.
    pub fn cycles_open(&self) -> u8
        ensures value { (h : List Call) → MasterStandsFor self.now h → result ≡ cycles_open h }
        ensures kept { result ≡ unwrap_or self.now.age 0 }
        ensures bound { result ≤ 64 }
        ensures idle { is_none self.now.transfer ≡ true → result ≡ 0 }
    {
        self.age.unwrap_or(0)
    }

    /// Processes a fall to phase 0: no request is in progress, and MHS is 0. The result is `Broken` if a transfer was in progress,
    /// otherwise `None`.
    pub fn reset(&mut self) -> Option<Outcome>
        ensures stands { MasterStandsFor self.new [] }
        ensures idle { is_none self.new.transfer ≡ true }
        ensures outcome { result ≡ (if is_none self.old.transfer then None else Some outcome.Broken) }
    {
        let idle = self.idle();
        *self = MasterChannel::new();
        if idle { None } else { Some(Outcome::Broken) }
    }
}
