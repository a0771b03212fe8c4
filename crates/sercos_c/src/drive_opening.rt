//! The opening of a drive of a ring document.
ghost use Rattle.std.specs.Prelude.{◌≡◌, ◌≢◌, ◌⊎◌, None};
ghost use Rattle.sercos_c.specs.Clauses.{document_of, done, no_memory, place_status, OpensAt, IsOpening};

use crate::handle::{Handle, close, open};
use crate::station::Station;
use crate::status::{MEMORY, NO, REFUSED};
use sercos_config::{BadDocument, read_ring};
use sercos_drive::Drive;
use std::alloc::Global;

// Opens the drive with the index `place`, from 0, in the ring of a document. `None` if the ring has no such drive. The error may be
// `Memory`; any other error means that the document is refused.
fn drive_in(alloc: Global, document: &[u8], place: usize) -> Result<Option<Drive>, BadDocument>
    ensures { IsOpening document.now place result }
{
    let document = read_ring(alloc, document)?;
    if place >= document.setup.drives.len() {
        return Ok(None);
    }
    match Drive::open(alloc, &document.setup.drives[place], document.setup.rate) {
        Ok(drive) => Ok(Some(drive)),
        Err(_) => Err(BadDocument::Memory),
    }
}

/// Opens the drive with the index `place`, from 0, in the ring of a document. The drive is in phase 0. What the handle held before is
/// closed. Returns `DONE`; `REFUSED` if the document is refused; otherwise `NO` if there is no such drive; or `MEMORY` if no memory was
/// found. After the last three nothing is held.
#[unsafe(no_mangle)]
pub extern "C" fn sercos_drive_open(
    alloc: Global,
    document: &[u8],
    place: usize,
    drive: &mut Handle,
) -> u8
    ensures status { (result ≡ no_memory) ⊎ (result ≡ place_status (document_of document.now) place) }
    ensures opened { result ≡ done → OpensAt document.now place drive.new.held.value }
    ensures none { result ≢ done → drive.new.held.value ≡ None }
{
    close(alloc, drive);
    match drive_in(alloc, document, place) {
        Ok(Some(made)) => open(alloc, Station::Drive(made), drive),
        Ok(None) => NO,
        Err(BadDocument::Memory) => MEMORY,
        Err(_) => REFUSED,
    }
}
