// A ring document. Any error may also be `Memory` instead of the refusal, as the path of a refusal takes memory.
ghost use Rattle.std.specs.Prelude.{◌≡◌, ◌≤◌, true, length, map, IfOk};
ghost use Rattle.sercos_config.specs.Clauses.{All, table_view, has_address, has_other_data, is_ring, IsTyped, AreJobs, AreTypedJobs, Gives, known, located, top_keys, ring_of, document_in, document_of};

use crate::drive::read_drives;
use crate::fault::read_faults;
use crate::request::read_requests;
use crate::ring::{read_head, read_order};
use sercos_block::{RingSetup, mdt_len};
use sercos_document::{BadDocument, Keys, Place};
use sercos_script::Fault;
use sercos_step::Job;
use sercos_timing::limits::{MOST_DRIVES, MOST_RECORDS};
use std::alloc::Global;
use std::marker::Model;
use toml::Table;

/// The contents of a ring document. Contracts see the record of its fields, each vector as the list of its items.
#[derive(Drop)]
pub struct Document {
    /// The setup of the ring, which is valid.
    pub setup: RingSetup,
    /// The requests to the drives, in the order of the document: at most 4,096.
    pub jobs: Vec<Job>,
    /// The script of faults, in the order of the document: at most 4,096.
    pub faults: Vec<Fault>,
}

impl Model for Document {
    ghost use Rattle.sercos_config.specs.Views.{DocumentView};

    ghost Value = { DocumentView };

    ghost view = { λ d. record { setup = d.setup; jobs = d.jobs.items; faults = d.faults.items } };
}

/// Reads a ring document (this profile), a TOML text in UTF-8. The error is its first refusal, or `Memory`; it is `Toml` if the bytes
/// aren't UTF-8 or not TOML. The result is a valid ring, at most 4,096 jobs as `read_requests` lists them, with which its master may be
/// opened, and faults whose `every` is at least 1. The numbers of the drives and the jobs are in the ranges of their types.
///
/// The tables are checked in this order: the top one, `ring`, each `drive` in turn with its `block` tables right after its own keys, each
/// `request`, each `fault`. In each table unknown keys are checked first, and the least of them in the order of bytes is reported. Then
/// each key is checked, in the order of the tables of docs/FORMATS.md, as `Missing`, `Kind`, `Range` or `Twice`. The items of `at` and
/// `mdt` are checked after the drive's blocks, and the length of the MDT and `order` after all drives.
#[tactic(auto, using(crate::proofs::TextLemmas::texts), unfolding(crate::specs::Document::document_of, crate::specs::Document::table_of))]
pub fn read_ring(alloc: Global, bytes: &[u8]) -> Result<Document, BadDocument>
    ensures value { Gives result (document_of bytes.now) }
    ensures setup { IfOk result (λ d. is_ring d.setup ≡ true) }
    ensures jobs { IfOk result (λ d.
        AreJobs (λ address. has_address address d.setup.drives) (λ address raw. has_other_data address raw d.setup.drives) d.jobs) }
    ensures faults { IfOk result (λ d. All (λ f. 1 ≤ f.every) d.faults) }
    ensures typed { IfOk result (λ d. All IsTyped d.setup.drives × AreTypedJobs d.jobs) }
{
    let Ok(text) = std::str::from_utf8(bytes) else {
        return Err(BadDocument::Toml);
    };
    match toml::table_from_str(alloc, text) {
        Ok(table) => read_table(alloc, &table),
        Err(e) if e.is_memory() => Err(BadDocument::Memory),
        Err(_) => Err(BadDocument::Toml),
    }
}

// Reads the contents of a document from its top table. The error is the first refusal, or `Memory`. The result has the properties that
// `read_ring` lists.
#[tactic(auto, unfolding(crate::specs::Document::document_in, crate::specs::Document::top_keys))]
fn read_table(alloc: Global, table: &Table) -> Result<Document, BadDocument>
    ensures value { Gives result (document_in (table_view table.now)) }
    ensures setup { IfOk result (λ d. is_ring d.setup ≡ true) }
    ensures jobs { IfOk result (λ d.
        AreJobs (λ address. has_address address d.setup.drives) (λ address raw. has_other_data address raw d.setup.drives) d.jobs) }
    ensures faults { IfOk result (λ d. All (λ f. 1 ≤ f.every) d.faults) }
    ensures typed { IfOk result (λ d. All IsTyped d.setup.drives × AreTypedJobs d.jobs) }
{
    let keys = Keys {
        alloc,
        place: Place::Top,
        table,
    };
    keys.known(&["ring", "drive", "request", "fault"])?;
    let ring = keys.required_table("ring")?;
    let drives = keys.required_tables("drive", 1, MOST_DRIVES)?;
    let requests = keys.tables("request", 0, 4096)?;
    let faults = keys.tables("fault", 0, 4096)?;
    let setup = read_setup(alloc, ring, drives.as_slice())?;
    let jobs = read_requests(alloc, setup.drives.as_slice(), requests.as_slice())?;
    let faults = read_faults(alloc, setup.drives.as_slice(), faults.as_slice())?;
    Ok(Document {
        setup,
        jobs,
        faults,
    })
}

// Reads the setup of a ring from its table `ring` and from the `drive` tables. The error is the first refusal, or `Memory`. An MDT with
// more than 2,047 bytes after its address is a `Range` at `ring`, with their number. There are 1 to 64 `drive` tables. The ring is valid,
// and the numbers of its drives are in the ranges of their types.
#[tactic(auto, unfolding(crate::specs::Document::ring_of, sercos_block::specs::Rings::is_ring, sercos_block::specs::Rings::has_drives))]
fn read_setup(alloc: Global, ring: &Table, tables: &[&Table]) -> Result<RingSetup, BadDocument>
    requires some { 1 ≤ length tables.now }
    requires few { length tables.now ≤ 64 }
    ensures value { Gives result (ring_of (table_view ring.now) (map (λ t. table_view t.now) tables.now)) }
    ensures valid { IfOk result (λ ring. is_ring ring ≡ true) }
    ensures drives { IfOk result (λ ring. length ring.drives ≤ 64) }
    ensures typed { IfOk result (λ ring. All IsTyped ring.drives) }
{
    let top = Keys {
        alloc,
        place: Place::Top,
        table: ring,
    };
    let keys = Keys {
        alloc,
        place: Place::Ring,
        table: ring,
    };
    let head = read_head(&keys)?;
    let drives = read_drives(alloc, tables)?;
    let len = mdt_len(drives.as_slice());
    top.demand(len <= MOST_RECORDS, "ring", i64::from(len))?;
    let order = read_order(&keys, drives.as_slice())?;
    Ok(RingSetup {
        rate: head.rate,
        cycle: head.cycle,
        control: head.control,
        gap: head.gap,
        cycles: head.cycles,
        order,
        drives,
    })
}
