//! The opening of the links of a document's ring.
ghost use Rattle.std.specs.Prelude.{◌≡◌, ◌≢◌, ◌⊎◌, None};
ghost use Rattle.sercos_c.specs.Clauses.{document_of, done, no_memory, document_status, IsLinksOpening, OpensLinks};

use crate::handle::{Handle, close, open};
use crate::station::Station;
use crate::status::{MEMORY, REFUSED};
use sercos_block::drives_of;
use sercos_config::{BadDocument, read_ring};
use sercos_script::Scripted;
use std::alloc::Global;

// Returns the links of the ring of the document that the bytes are, under its script. The error may be `Memory`; any other error means that
// the document is refused.
fn links_in(alloc: Global, document: &[u8]) -> Result<Scripted, BadDocument>
    ensures { IsLinksOpening document.now result }
{
    let document = read_ring(alloc, document)?;
    Ok(Scripted::new(document.faults, drives_of(&document.setup)))
}

/// Opens the links of the ring of a document, under its script. What the handle held before is closed. Returns `DONE`, `REFUSED` if the
/// document is refused, or `MEMORY` if no memory was found. After the last two nothing is held.
#[unsafe(no_mangle)]
pub extern "C" fn sercos_links_open(alloc: Global, document: &[u8], links: &mut Handle) -> u8
    ensures status { (result ≡ no_memory) ⊎ (result ≡ document_status (document_of document.now)) }
    ensures opened { result ≡ done → OpensLinks document.now links.new.held.value }
    ensures none { result ≢ done → links.new.held.value ≡ None }
{
    close(alloc, links);
    match links_in(alloc, document) {
        Ok(made) => open(alloc, Station::Links(made), links),
        Err(BadDocument::Memory) => MEMORY,
        Err(_) => REFUSED,
    }
}
