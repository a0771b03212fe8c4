// A request in progress.
ghost use Rattle.std.specs.Prelude.{◌≡◌, ℕ, ◌<◌, List, [], ◌∷◌, ◌++◌, length, true, false, Some, is_some, slice_get};
ghost use Rattle.sercos_step.specs.Clauses.{IsRequest, steps_of, is_whole, next_step, outcome_of, IsAt, IsAfterAnswer, result_kept, TransferStandsFor};

use crate::progress::Progress;
use crate::request::{Outcome, Request};
use crate::step::{Answer, Step};
use sercos_bits::Bytes;
use sercos_idn::Code;
use std::marker::Model;

// Returns the next step of a request that isn't complete. A read names one of the elements 1 to 7, a write one of 2 to 7. `progress` must
// be what is kept of its answers so far. The step's element is 0 to 7.
fn step_at(request: &Request, progress: &Progress) -> Step
    requires { IsRequest request.now }
    ensures next { (words : List ℕ) → IsAt request.now progress.now words → is_whole request.now words ≡ false →
        Some result ≡ slice_get (steps_of request.now words) (length words) }
    ensures element { result.element < 8 }
{
    match request {
        Request::Read { idn, element } => progress.read_step(*idn, *element),
        Request::Write {
            idn,
            element,
            bytes,
        } => progress.write_step(*idn, *element, bytes),
        Request::Command { idn } => progress.command_step(*idn),
    }
}

// Keeps an answer to a request that isn't complete, and returns whether it was the last one. `progress` must be what is kept of the answers
// before it. Afterwards it is what is kept of all of them, or after the last one has the result.
fn answer_at(request: &Request, progress: &mut Progress, word: u16) -> bool
    ensures { (words : List ℕ) → IsAt request.now progress.old words → is_whole request.now words ≡ false →
        IsAfterAnswer request.now progress.new (words ++ word ∷ []) result }
{
    match request {
        Request::Read { element, .. } => progress.read_answer(*element, word),
        Request::Write { element, bytes, .. } => progress.write_answer(*element, bytes, word),
        Request::Command { .. } => progress.command_answer(word),
    }
}

// Returns the result of a request whose steps are all answered: the bytes of a read, none of a write, and of a command the two bytes of its
// last data status, the low byte first. The bytes that were read are moved out of `progress`, not copied. Afterwards `progress` is
// unspecified.
fn result_at(request: &Request, progress: &mut Progress) -> Bytes
    ensures { result ≡ result_kept request.now progress.old }
{
    match request {
        Request::Read { .. } => progress.take_bytes(),
        Request::Write { .. } => Bytes::new(),
        Request::Command { .. } => progress.status_bytes(),
    }
}

/// A request to a drive in progress. It returns the steps one by one and takes their answers.
#[derive(Drop)]
pub struct Transfer {
    request: Request,
    progress: Progress,
    done: bool,
}

impl Model for Transfer {
    ghost use Rattle.sercos_step.specs.Steps.{IsRequest};
    ghost use Rattle.sercos_step.specs.Kept.{TransferView};

    ghost Value = { TransferView };

    ghost view = { λ t. record { request = t.request; progress = t.progress; done = t.done } };

    ghost invariant = { λ t. IsRequest t.request };
}

impl Transfer {
    /// Returns a transfer before its first step. A read names one of the elements 1 to 7, a write one of 2 to 7.
    pub fn begin(request: Request) -> Transfer
        requires { IsRequest request }
        ensures { TransferStandsFor result request [] }
    {
        Transfer {
            request,
            progress: Progress::new(),
            done: false,
        }
    }

    /// Returns the next step: the first that has no answer. The transfer must not be done. The step stays the same until `answer`, so that
    /// a lost step is sent again.
    pub fn step(&self) -> Step
        requires { self.now.done ≡ false }
        ensures step { (request : Request) (h : List Answer) → TransferStandsFor self.now request h → Some result ≡ next_step request h }
        ensures element { result.element < 8 }
    {
        step_at(&self.request, &self.progress)
    }

    /// Takes the answer to the step of a transfer that isn't done, and returns the outcome if this answer ends the transfer: `Refused` with
    /// the code of an error, or `Complete` if all steps are answered; otherwise `None`. Afterwards the transfer is done iff there is an
    /// outcome.
    pub fn answer(&mut self, a: Answer) -> Option<Outcome>
        requires { self.old.done ≡ false }
        ensures stands { (request : Request) (h : List Answer) → TransferStandsFor self.old request h → TransferStandsFor self.new request (a ∷ h) }
        ensures outcome { (request : Request) (h : List Answer) → TransferStandsFor self.old request h → result ≡ outcome_of request (a ∷ h) }
        ensures done { self.new.done ≡ is_some result }
    {
        if a.error {
            self.done = true;
            return Some(Outcome::Refused(Code { raw: a.word }));
        }
        if answer_at(&self.request, &mut self.progress, a.word) {
            self.done = true;
            return Some(Outcome::Complete(result_at(&self.request, &mut self.progress)));
        }
        None
    }
}
