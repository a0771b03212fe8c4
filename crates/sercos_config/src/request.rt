// The requests of a document. Any error may also be `Memory` instead of the refusal, as the path of a refusal takes memory. `Missing` means
// that a required key is absent, and `Kind` that a value has another TOML type.
ghost use Rattle.std.specs.Prelude.{◌≡◌, true, ◌<◌, [], length, map, IfOk, IfSome};
ghost use Rattle.sercos_config.specs.Clauses.{All, table_view, AreBytes, has_address, has_other_data, IsRequest, IsTypedRequest, AreTypedJobs, IsCommand, IsJob, Gives, Shows, known, located, address_under, glimpse, word, request_kind, has_element, has_data, request_keys, bytes_spelled, bytes_under, asked_of, request_of, requests_onto};

use crate::block::read_idn;
use crate::data::decoded;
use crate::words::{glance, key_if};
use sercos_bits::Bytes;
use sercos_block::limits::MOST_DATA;
use sercos_block::{DriveSetup, has_address, has_other_data};
use sercos_document::{BadDocument, Keys, Place};
use sercos_idn::Idn;
use sercos_step::{Job, Request};
use sercos_timing::limits::MOST_ADDRESS;
use std::alloc::Global;
use toml::Table;

// What a request does: the words of `kind`.
#[derive(Clone, Copy, Debug, PartialEq, Eq)]
enum RequestKind {
    Read,
    Write,
    Command,
}

/// Reads the requests to these drives from their tables, in their order. The error is the first refusal, or `Memory`. There is one job for
/// each table. Each names one of the drives, and an element from 1 to 7 for a read or from 2 to 7 for a write. A command names no block of
/// the drive that isn't a procedure command. The numbers are in the ranges of their types.
#[tactic(auto, unfolding(crate::specs::Request::requests_onto))]
pub(crate) fn read_requests(
    alloc: Global,
    drives: &[DriveSetup],
    tables: &[&Table],
) -> Result<Vec<Job>, BadDocument>
    ensures value { Shows (λ v. v.items) result (requests_onto drives.now [] (map (λ t. table_view t.now) tables.now)) }
    ensures valid { IfOk result (λ v.
        All (IsJob (λ address. has_address address drives.now) (λ address raw. has_other_data address raw drives.now)) v.items) }
    ensures typed { IfOk result (λ v. AreTypedJobs v.items) }
    ensures count { IfOk result (λ v. length v.items ≡ length tables.now) }
{
    let Ok(mut jobs) = Vec::with_capacity(alloc, tables.len()) else {
        return Err(BadDocument::Memory);
    };
    for table in tables {
        let keys = Keys {
            alloc,
            place: Place::Request(jobs.len()),
            table: *table,
        };
        let job = read_request(&keys, drives)?;
        jobs.push(job)?;
    }
    Ok(jobs)
}

// Reads a request to one of these drives from its table. The error is the first refusal, or `Memory`. The job has the properties that
// `read_requests` lists.
#[tactic(auto, unfolding(crate::specs::Request::request_of, crate::specs::Words::glimpse, crate::specs::Words::word))]
fn read_request(keys: &Keys<'_>, drives: &[DriveSetup]) -> Result<Job, BadDocument>
    ensures value { Gives result (request_of drives.now (located keys.now)) }
    ensures valid { IfOk result
        (IsJob (λ address. has_address address drives.now) (λ address raw. has_other_data address raw drives.now)) }
    ensures typed { IfOk result (λ job. IsTypedRequest job.request) }
{
    let glimpsed = glance(keys, "kind").and_then(|text| request_kind(text));
    known(keys, glimpsed)?;
    let drive = read_address(keys, drives, "drive")?;
    let text = keys.required_text("kind")?;
    let Some(kind) = request_kind(text) else {
        return Err(keys.range("kind", text.len() as i64));
    };
    let idn = read_idn(keys, "idn")?;
    let request = read_asked(keys, drives, drive, kind, idn)?;
    Ok(Job { drive, request })
}

// Refuses the least key, in the order of bytes, that a request of this kind may not have, as `Unknown`. A kind of `None` is absent, or
// isn't one of the words.
#[tactic(auto, unfolding(crate::specs::Request::request_keys, crate::specs::Request::keys_if))]
fn known(keys: &Keys<'_>, kind: Option<RequestKind>) -> Result<(), BadDocument>
    ensures { Gives result (known (located keys.now) (request_keys kind)) }
{
    keys.known(&[
        "drive",
        "kind",
        "idn",
        key_if(has_element(kind), "element"),
        key_if(has_data(kind), "data"),
    ])
}

// Returns whether the key `element` is known: not for a procedure command. A kind of `None` is absent, or isn't one of the words of `kind`.
// Every key is then known, so that `kind` itself is refused.
#[tactic(auto, unfolding(crate::specs::Request::has_element))]
fn has_element(kind: Option<RequestKind>) -> bool
    ensures { result ≡ has_element kind }
{
    match kind {
        Some(RequestKind::Command) => false,
        _ => true,
    }
}

// Returns whether the key `data` is known: only for a write, and if the kind is `None`.
#[tactic(auto, unfolding(crate::specs::Request::has_data))]
fn has_data(kind: Option<RequestKind>) -> bool
    ensures { result ≡ has_data kind }
{
    match kind {
        Some(RequestKind::Write) | None => true,
        Some(RequestKind::Read | RequestKind::Command) => false,
    }
}

// Returns the kind of request that a word of `kind` names; `None` for any other text.
#[tactic(auto, unfolding(crate::specs::Request::request_kind))]
fn request_kind(text: &str) -> Option<RequestKind>
    ensures { result ≡ request_kind text.now }
{
    match text {
        "read" => Some(RequestKind::Read),
        "write" => Some(RequestKind::Write),
        "command" => Some(RequestKind::Command),
        _ => None,
    }
}

// Returns the address under `key`. The error is `Missing`, `Kind`, or `Range` with the number unless it is 1 to 254 and one of the drives
// has it.
#[tactic(auto, unfolding(crate::specs::Words::address_under))]
fn read_address(keys: &Keys<'_>, drives: &[DriveSetup], key: &str) -> Result<u8, BadDocument>
    ensures value { Gives result (address_under drives.now (located keys.now) key.now) }
    ensures has { IfOk result (λ address. has_address address drives.now ≡ true) }
{
    let address = keys.number(key, 1, u32::from(MOST_ADDRESS))?;
    let stands = has_address(address as u8, drives);
    keys.demand(stands, key, i64::from(address))?;
    Ok(address as u8)
}

// Returns what a request of a kind does with the block `idn` at the drive with this address. A read takes the element from `element`, 1 to
// 7, and a write 2 to 7 and its bytes from `data`; the element is 7 if the key is absent. A command is refused if the drive has the block
// and it isn't a procedure command; a drive without the block isn't refused here. The error is `Missing` for `data`; or `Kind` or `Range`:
// for an element with the number, for `data` with the text's length in bytes, for a command at `idn` with the raw number. The numbers of
// the request are in the ranges of their types.
#[tactic(auto, unfolding(crate::specs::Request::asked_of))]
fn read_asked(
    keys: &Keys<'_>,
    drives: &[DriveSetup],
    address: u8,
    kind: RequestKind,
    idn: Idn,
) -> Result<Request, BadDocument>
    requires { idn.raw < 65536 }
    ensures value { Gives result (asked_of drives.now address kind idn (located keys.now)) }
    ensures element { IfOk result IsRequest }
    ensures typed { IfOk result IsTypedRequest }
    ensures command { IfOk result (IsCommand (λ raw. has_other_data address raw drives.now)) }
{
    match kind {
        RequestKind::Read => {
            let element = keys.number_or("element", 1, 7, 7)? as u8;
            Ok(Request::Read { idn, element })
        },
        RequestKind::Write => {
            let element = keys.number_or("element", 2, 7, 7)? as u8;
            let bytes = read_bytes(keys, "data")?;
            Ok(Request::Write {
                idn,
                element,
                bytes,
            })
        },
        RequestKind::Command => {
            let other = has_other_data(address, idn, drives);
            keys.demand(!other, "idn", i64::from(idn.raw))?;
            Ok(Request::Command { idn })
        },
    }
}

// Returns the bytes that the hexadecimal digits under `key` spell, two digits for each byte. The error is `Missing`, `Kind`, or `Range`
// with the text's length in bytes if it isn't such pairs of digits, or spells more than 1,024 bytes.
#[tactic(auto, unfolding(crate::specs::Request::bytes_under, crate::specs::Request::bytes_spelled))]
fn read_bytes(keys: &Keys<'_>, key: &str) -> Result<Bytes, BadDocument>
    ensures value { Gives result (bytes_under (located keys.now) key.now) }
    ensures typed { IfOk result (λ bytes. AreBytes bytes × (length bytes < 65536)) }
{
    let text = keys.required_text(key)?;
    if text.len() <= 2 * usize::from(MOST_DATA) {
        if let Some(bytes) = decoded(text.as_bytes()) {
            return Ok(bytes);
        }
    }
    Err(keys.range(key, text.len() as i64))
}
