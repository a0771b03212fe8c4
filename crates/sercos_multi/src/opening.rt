// A ring for each document.
ghost use Rattle.std.specs.Prelude.{◌≡◌, ◌≤◌, ◌<◌, ◌+◌, ◌++◌, ◌∷◌, [], true, length, IfOk, IfErr, OnOk, Result, Ok, Err};
ghost use Rattle.sercos_multi.specs.Clauses.{IsRefusedIn, All, IsRequest, is_ring, voice_of, voice_under, parts_of, mark_of, OpensAll, OpensPart, IsAt};

use crate::divided::cut_part;
use crate::part::Part;
use sercos_block::{RingSetup, cycles_of, drives_of};
use sercos_config::{BadDocument, Document, read_ring};
use sercos_law_run::{run_law, totals_law};
use sercos_law_trace::clean_law;
use sercos_opened::kept_law;
use sercos_ring::{Ring, no_totals};
use sercos_script::{BitLink, Scripted};
use sercos_step::Job;
use std::alloc::{AllocError, Global};

/// Why the rings of documents weren't opened.
#[derive(Drop)]
pub enum Unopened {
    /// No memory was found.
    Memory,
    /// A document was refused: its number, and why.
    Refused(u8, BadDocument),
}

// Returns the mark of a ring with a number below 10: the number and a space.
#[tactic(auto, using(crate::proofs::OpenLemmas::mark_is))]
fn mark_of(number: u8) -> [u8; 2]
    requires { number < 10 }
    ensures { result ≡ mark_of number }
{
    [b'0' + number, b' ']
}

// Opens a valid ring with these requests over a link, before its first cycle, which begins at 0 microseconds. `number`, below 10, is its
// number in the merged text. There are at most 4096 requests: reads with an element from 1 to 7, writes with one from 2 to 7, and commands.
// The error is `AllocError`.
fn open_ring<L: BitLink>(
    alloc: Global,
    number: u8,
    setup: &RingSetup,
    jobs: Vec<Job>,
    link: L,
) -> Result<Part<L>, AllocError>
    requires number { number < 10 }
    requires ring { is_ring setup.now ≡ true }
    requires few { length jobs.items ≤ 4096 }
    requires requests { All (λ job. IsRequest job.request) jobs.items }
    ensures { IfOk result (λ part. IsAt L.carry L.restart part (voice_under number setup.now jobs.items (L.carry link) (L.restart link))) }
{
    run_law();
    totals_law();
    let ring = Ring::open(alloc, setup, jobs, link)?;
    Ok(Part {
        ring,
        wishes: setup.wishes(),
        totals: no_totals(),
        left: cycles_of(setup),
        at: 0,
        mark: mark_of(number),
    })
}

// Opens the ring of a document over its script. `number`, below 10, is its number in the merged text. The ring is valid. There are at most
// 4096 requests, as for `open_ring`. The error is `AllocError`.
fn open_document(
    alloc: Global,
    number: u8,
    document: Document,
) -> Result<Part<Scripted>, AllocError>
    requires number { number < 10 }
    requires ring { is_ring document.setup ≡ true }
    requires few { length document.jobs ≤ 4096 }
    requires requests { All (λ job. IsRequest job.request) document.jobs }
    ensures { IfOk result (λ part. IsAt ⟦<Scripted as BitLink>⟧.carry ⟦<Scripted as BitLink>⟧.restart part (voice_of number document)) }
{
    let Document {
        setup,
        jobs,
        faults,
    } = document;
    let script = Scripted::new(faults, drives_of(&setup));
    open_ring(alloc, number, &setup, jobs, script)
}

// Reads a part of the input as a document, and opens its ring over its script. `number`, below 10, is the part's number. The run of the
// ring has the properties of `kept_law`. The error is the refusal of the document, by the
// first of its faults, with this number, or `Memory`.
fn open_part(alloc: Global, number: u8, bytes: &[u8]) -> Result<Part<Scripted>, Unopened>
    requires { number < 10 }
    ensures { OpensPart ⟦<Scripted as BitLink>⟧.carry ⟦<Scripted as BitLink>⟧.restart number bytes.now result }
{
    kept_law();
    clean_law();
    match read_ring(alloc, bytes) {
        Ok(document) => {
            prove!(cycles_of(&document.setup) >= 1);
            match open_document(alloc, number, document) {
                Ok(part) => Ok(part),
                Err(_) => Err(Unopened::Memory),
            }
        }
        Err(BadDocument::Memory) => Err(Unopened::Memory),
        Err(bad) => Err(Unopened::Refused(number, bad)),
    }
}

// Appends a ring. The error is `Memory`, after which `parts` is unspecified.
fn push<L: BitLink>(parts: &mut Vec<Part<L>>, part: Part<L>) -> Result<(), Unopened>
    ensures ok { OnOk result (parts.new.items ≡ parts.old.items ++ part ∷ []) }
    ensures err { IfErr result (λ why. why ≡ Unopened.Memory) }
{
    match parts.push(part) {
        Ok(()) => Ok(()),
        Err(_) => Err(Unopened::Memory),
    }
}

/// Opens the rings of all parts of an input, in their order. `count` must be the number of parts, at most 8. The runs of the rings have the
/// properties of `kept_law`. The error is the first refusal, with the number of the part, from 1 on, or `Memory`.
pub fn open_all(alloc: Global, bytes: &[u8], count: u8) -> Result<Vec<Part<Scripted>>, Unopened>
    requires count { count ≡ length (parts_of bytes.now) }
    requires few { count ≤ 8 }
    ensures ok { IfOk result (λ parts. OpensAll ⟦<Scripted as BitLink>⟧.carry ⟦<Scripted as BitLink>⟧.restart (parts_of bytes.now) parts.items) }
    ensures err { IfErr result (λ why. IsRefusedIn (parts_of bytes.now) why) }
{
    let mut parts = Vec::new(alloc);
    let mut rest = bytes;
    for k in 0..count {
        // Whether another part follows is for the proof: `count` says it.
        let (part, after, _more) = cut_part(rest);
        match open_part(alloc, k + 1, part) {
            Ok(opened) => push(&mut parts, opened)?,
            Err(why) => return Err(why),
        }
        rest = after;
    }
    Ok(parts)
}
