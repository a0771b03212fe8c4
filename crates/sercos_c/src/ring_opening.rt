//! The opening of the ring of a document.
ghost use Rattle.std.specs.Prelude.{◌≡◌, ◌≢◌, ◌⊎◌, ◌≤◌, [], length, IfOk, None, true};
ghost use Rattle.sercos_c.specs.Clauses.{All, IsRequest, IsOpened, document_of, done, no_memory, document_status, IsRingOpening, OpensRing, RingGoes};
ghost use Rattle.sercos_block.specs.Rings.{is_ring};

use crate::handle::{Handle, close, open};
use crate::ring_station::RingStation;
use crate::station::Station;
use crate::status::{MEMORY, REFUSED};
use sercos_block::{cycles_of, drives_of, ring_law};
use sercos_config::{BadDocument, Document, read_ring};
use sercos_law_run::totals_law;
use sercos_opened::kept_law;
use sercos_ring::{Ring, no_totals};
use sercos_script::Scripted;
use std::alloc::{AllocError, Global};

// Opens the ring of a document, with its requests and under its script. The setup must be valid. There must be at most 4,096 requests, each
// for an element that a transfer takes: 1 to 7 of a read, 2 to 7 of a write. The setup and the requests must be within the ranges of their
// types, and a command must name a procedure command of its drive, or a block that the drive lacks. The error is `AllocError`.
fn ring_of(alloc: Global, document: Document) -> Result<RingStation, AllocError>
    requires ring { is_ring document.setup ≡ true }
    requires few { length document.jobs ≤ 4096 }
    requires requests { All (λ job. IsRequest job.request) document.jobs }
    requires opened { IsOpened document.setup document.jobs }
    ensures { IfOk result (λ ring. RingGoes ring document []) }
{
    ring_law();
    totals_law();
    let Document {
        setup,
        jobs,
        faults,
    } = document;
    let script = Scripted::new(faults, drives_of(&setup));
    let ring = Ring::open(alloc, &setup, jobs, script)?;
    Ok(RingStation {
        ring,
        wishes: setup.wishes(),
        totals: no_totals(),
        cycles: cycles_of(&setup),
        made: 0,
    })
}

// Opens the ring of the document that the bytes are. The error may be `Memory`; any other error means that the document is refused.
fn ring_in(alloc: Global, document: &[u8]) -> Result<RingStation, BadDocument>
    ensures { IsRingOpening document.now result }
{
    kept_law();
    let document = read_ring(alloc, document)?;
    match ring_of(alloc, document) {
        Ok(ring) => Ok(ring),
        Err(_) => Err(BadDocument::Memory),
    }
}

/// Opens the ring of a document with its requests and under its script, before its first cycle. What the handle held before is closed.
/// Returns `DONE`, `REFUSED` if the document is refused, or `MEMORY` if no memory was found. After the last two nothing is held.
#[unsafe(no_mangle)]
pub extern "C" fn sercos_ring_open(alloc: Global, document: &[u8], ring: &mut Handle) -> u8
    ensures status { (result ≡ no_memory) ⊎ (result ≡ document_status (document_of document.now)) }
    ensures opened { result ≡ done → OpensRing document.now ring.new.held.value }
    ensures none { result ≢ done → ring.new.held.value ≡ None }
{
    close(alloc, ring);
    match ring_in(alloc, document) {
        Ok(made) => open(alloc, Station::Ring(made), ring),
        Err(BadDocument::Memory) => MEMORY,
        Err(_) => REFUSED,
    }
}
