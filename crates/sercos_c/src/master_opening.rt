//! The opening of the master of a ring document.
ghost use Rattle.std.specs.Prelude.{◌≡◌, ◌≢◌, ◌⊎◌, ◌≤◌, [], length, IfOk, None, true};
ghost use Rattle.sercos_c.specs.Clauses.{All, IsRequest, document_of, done, no_memory, document_status, IsMasterOpening, MasterStandsFor, OpensMaster};
ghost use Rattle.sercos_block.specs.Rings.{is_ring};

use crate::handle::{Handle, close, open};
use crate::master_station::MasterStation;
use crate::station::Station;
use crate::status::{MEMORY, REFUSED};
use sercos_config::{BadDocument, Document, read_ring};
use sercos_master::AnyMaster;
use sercos_trace::CycleRecord;
use std::alloc::{AllocError, Global};

// Opens the master of a document with its requests. The setup must be valid. There must be at most 4,096 requests, each for an element that
// a transfer takes: 1 to 7 of a read, 2 to 7 of a write. The error is `AllocError`.
fn master_of(alloc: Global, document: Document) -> Result<MasterStation, AllocError>
    requires ring { is_ring document.setup ≡ true }
    requires few { length document.jobs ≤ 4096 }
    requires requests { All (λ job. IsRequest job.request) document.jobs }
    ensures { IfOk result (λ m. MasterStandsFor m document []) }
{
    let Document { setup, jobs, .. } = document;
    let record = CycleRecord::new_boxed(alloc)?;
    let master = AnyMaster::open(alloc, &setup, jobs)?;
    Ok(MasterStation {
        master: Some(master),
        wishes: setup.wishes(),
        record,
        ended: 0,
    })
}

// Opens the master of the document that the bytes are. The error may be `Memory`; any other error means that the document is refused.
fn master_in(alloc: Global, document: &[u8]) -> Result<MasterStation, BadDocument>
    ensures { IsMasterOpening document.now result }
{
    let document = read_ring(alloc, document)?;
    match master_of(alloc, document) {
        Ok(master) => Ok(master),
        Err(_) => Err(BadDocument::Memory),
    }
}

/// Opens the master of a ring document with its requests. The master is in phase 0. What the handle held before is closed. Returns `DONE`,
/// `REFUSED` if the document is refused, or `MEMORY` if no memory was found. After the last two nothing is held.
#[unsafe(no_mangle)]
pub extern "C" fn sercos_master_open(alloc: Global, document: &[u8], master: &mut Handle) -> u8
    ensures status { (result ≡ no_memory) ⊎ (result ≡ document_status (document_of document.now)) }
    ensures opened { result ≡ done → OpensMaster document.now master.new.held.value }
    ensures none { result ≢ done → master.new.held.value ≡ None }
{
    close(alloc, master);
    match master_in(alloc, document) {
        Ok(made) => open(alloc, Station::Master(made), master),
        Err(BadDocument::Memory) => MEMORY,
        Err(_) => REFUSED,
    }
}
