// The faults of a document. Any error may also be `Memory` instead of the refusal, as the path of a refusal takes memory. `Missing` means
// that a required key is absent, and `Kind` that a value has another TOML type.
ghost use Rattle.std.specs.Prelude.{◌≡◌, ◌≤◌, [], length, map, IfOk};
ghost use Rattle.sercos_config.specs.Clauses.{All, table_view, Gives, Shows, known, located, glimpse, word, fault_kind, telegram_kind, has_telegram, has_from, has_link, has_bit, has_station, fault_keys, telegram_of, drive_station, any_station, from_of, hears, station_of, link_of, damage_of, fault_of, faults_onto};

use crate::ring::place_of;
use crate::words::{glance, key_if};
use sercos_block::DriveSetup;
use sercos_block::limits::MOST_CYCLES;
use sercos_document::{BadDocument, Keys, Place};
use sercos_script::{Damage, Fault};
use sercos_telegram::Kind;
use std::alloc::Global;
use toml::Table;

// The last cycle of the longest run.
const LAST_CYCLE: u32 = MOST_CYCLES - 1;

// The last bit of the longest frame.
const LAST_BIT: u32 = 19_695;

// What a fault does: the words of `kind`.
#[derive(Clone, Copy, Debug, PartialEq, Eq)]
enum FaultKind {
    Lose,
    Flip,
    Cut,
    Deaf,
    Restart,
}

/// Reads the faults from their tables, in their order, for a ring of these drives. The error is the first refusal, or `Memory`. There are
/// at most 64 drives. The `every` of each fault is at least 1.
#[tactic(auto, unfolding(crate::specs::Fault::faults_onto))]
pub(crate) fn read_faults(
    alloc: Global,
    drives: &[DriveSetup],
    tables: &[&Table],
) -> Result<Vec<Fault>, BadDocument>
    requires { length drives.now ≤ 64 }
    ensures value { Shows (λ v. v.items) result (faults_onto drives.now [] (map (λ t. table_view t.now) tables.now)) }
    ensures valid { IfOk result (λ v. All (λ f. 1 ≤ f.every) v.items) }
{
    let Ok(mut faults) = Vec::with_capacity(alloc, tables.len()) else {
        return Err(BadDocument::Memory);
    };
    for table in tables {
        let keys = Keys {
            alloc,
            place: Place::Fault(faults.len()),
            table: *table,
        };
        let fault = read_fault(&keys, drives)?;
        faults.push(fault)?;
    }
    Ok(faults)
}

// Reads a fault from its table, for a ring of these drives. The error is the first refusal, or `Memory`. There are at most 64 drives.
// `cycle` is 0 to 49,999, `last` from the cycle to 49,999, and `every` 1 to 50,000. A `last` that is absent is the cycle, and an absent
// `every` is 1.
#[tactic(auto, unfolding(crate::specs::Fault::fault_of, crate::specs::Words::glimpse, crate::specs::Words::word))]
fn read_fault(keys: &Keys<'_>, drives: &[DriveSetup]) -> Result<Fault, BadDocument>
    requires { length drives.now ≤ 64 }
    ensures value { Gives result (fault_of drives.now (located keys.now)) }
    ensures valid { IfOk result (λ f. 1 ≤ f.every) }
{
    let glimpsed = glance(keys, "kind").and_then(|text| fault_kind(text));
    let telegram = glance(keys, "telegram").and_then(|text| telegram_kind(text));
    known(keys, glimpsed, telegram)?;
    let word = keys.required_text("kind")?;
    let Some(kind) = fault_kind(word) else {
        return Err(keys.range("kind", word.len() as i64));
    };
    let cycle = keys.number("cycle", 0, LAST_CYCLE)?;
    let last = keys.number_or("last", cycle, LAST_CYCLE, cycle)?;
    let every = keys.number_or("every", 1, MOST_CYCLES, 1)?;
    let telegram = read_telegram(keys, kind)?;
    let from = read_from(keys, drives, telegram)?;
    let damage = read_damage(keys, drives, kind, telegram)?;
    Ok(Fault {
        cycle,
        last,
        every,
        kind: telegram,
        from,
        damage,
    })
}

// Refuses the least key, in the order of bytes, that a fault of this kind and telegram may not have, as `Unknown`. A kind or telegram of
// `None` is absent, or isn't one of the words.
#[tactic(auto, unfolding(crate::specs::Fault::fault_keys, crate::specs::Fault::keys_if))]
fn known(
    keys: &Keys<'_>,
    kind: Option<FaultKind>,
    telegram: Option<Kind>,
) -> Result<(), BadDocument>
    ensures { Gives result (known (located keys.now) (fault_keys kind telegram)) }
{
    keys.known(&[
        "kind",
        "cycle",
        "last",
        "every",
        key_if(has_telegram(kind), "telegram"),
        key_if(has_from(kind, telegram), "from"),
        key_if(has_link(kind, telegram), "link"),
        key_if(has_bit(kind, telegram), "bit"),
        key_if(has_station(kind, telegram), "station"),
    ])
}

// Returns whether the key `telegram` is known: in every fault but a restart. A kind of `None` is absent, or isn't one of the words of
// `kind`. Every key is then known, so that `kind` itself is refused. The same holds for the other keys below, and for a telegram of `None`
// unless the fault is a restart.
#[tactic(auto, unfolding(crate::specs::Fault::has_telegram))]
fn has_telegram(kind: Option<FaultKind>) -> bool
    ensures { result ≡ has_telegram kind }
{
    match kind {
        Some(FaultKind::Restart) => false,
        _ => true,
    }
}

// Returns whether the key `from` is known: not in a restart, nor with an MST or MDT, which only the master sends. A kind of `None` makes it
// known, and so does a telegram of `None` unless the fault is a restart.
#[tactic(auto, unfolding(crate::specs::Fault::has_from))]
fn has_from(kind: Option<FaultKind>, telegram: Option<Kind>) -> bool
    ensures { result ≡ has_from kind telegram }
{
    match (kind, telegram) {
        (Some(FaultKind::Restart), _) => false,
        (Some(_), Some(Kind::Mst | Kind::Mdt)) => false,
        _ => true,
    }
}

// Returns whether the key `link` is known: not in a restart, nor if a station is deaf. With `None` as in `has_from`.
#[tactic(auto, unfolding(crate::specs::Fault::has_link))]
fn has_link(kind: Option<FaultKind>, telegram: Option<Kind>) -> bool
    ensures { result ≡ has_link kind telegram }
{
    match (kind, telegram) {
        (Some(FaultKind::Restart), _) => false,
        (Some(FaultKind::Deaf), Some(_)) => false,
        _ => true,
    }
}

// Returns whether the key `bit` is known: if a bit is flipped, or if bits are cut off; not in a restart. With `None` as in `has_from`.
#[tactic(auto, unfolding(crate::specs::Fault::has_bit))]
fn has_bit(kind: Option<FaultKind>, telegram: Option<Kind>) -> bool
    ensures { result ≡ has_bit kind telegram }
{
    match (kind, telegram) {
        (Some(FaultKind::Restart), _) => false,
        (Some(FaultKind::Lose | FaultKind::Deaf), Some(_)) => false,
        _ => true,
    }
}

// Returns whether the key `station` is known: in a restart, and if a station is deaf. A kind or a telegram of `None` makes it known.
#[tactic(auto, unfolding(crate::specs::Fault::has_station))]
fn has_station(kind: Option<FaultKind>, telegram: Option<Kind>) -> bool
    ensures { result ≡ has_station kind telegram }
{
    match (kind, telegram) {
        (Some(FaultKind::Lose | FaultKind::Flip | FaultKind::Cut), Some(_)) => false,
        _ => true,
    }
}

// Returns the kind of fault that a word of `kind` names; `None` for any other text.
#[tactic(auto, unfolding(crate::specs::Fault::fault_kind))]
fn fault_kind(text: &str) -> Option<FaultKind>
    ensures { result ≡ fault_kind text.now }
{
    match text {
        "lose" => Some(FaultKind::Lose),
        "flip" => Some(FaultKind::Flip),
        "cut" => Some(FaultKind::Cut),
        "deaf" => Some(FaultKind::Deaf),
        "restart" => Some(FaultKind::Restart),
        _ => None,
    }
}

// Returns the kind of telegram that a word of `telegram` names; `None` for any other text.
#[tactic(auto, unfolding(crate::specs::Fault::telegram_kind))]
fn telegram_kind(text: &str) -> Option<Kind>
    ensures { result ≡ telegram_kind text.now }
{
    match text {
        "mst" => Some(Kind::Mst),
        "mdt" => Some(Kind::Mdt),
        "at" => Some(Kind::At),
        _ => None,
    }
}

// Returns the kind of the telegrams that a fault acts on, from `telegram`. A restart has no such key, and counts as a fault of the MST. The
// error is `Missing`, `Kind`, or `Range` with the text's length in bytes unless it is `mst`, `mdt` or `at`.
#[tactic(auto, unfolding(crate::specs::Fault::telegram_of, crate::specs::Words::word))]
fn read_telegram(keys: &Keys<'_>, kind: FaultKind) -> Result<Kind, BadDocument>
    ensures { Gives result (telegram_of kind (located keys.now)) }
{
    match kind {
        FaultKind::Restart => Ok(Kind::Mst),
        FaultKind::Lose | FaultKind::Flip | FaultKind::Cut | FaultKind::Deaf => {
            let text = keys.required_text("telegram")?;
            match telegram_kind(text) {
                Some(telegram) => Ok(telegram),
                None => Err(keys.range("telegram", text.len() as i64)),
            }
        }
    }
}

// Returns the number of the station with an address, if it is a drive's: drives are numbered from 1 in the order of the ring. `None` if no
// drive has it. There are at most 64 drives.
#[tactic(auto, unfolding(crate::specs::Fault::drive_station))]
fn drive_station(drives: &[DriveSetup], address: i64) -> Option<u8>
    requires { length drives.now ≤ 64 }
    ensures { result ≡ drive_station drives.now address }
{
    match place_of(address, drives) {
        Some(place) => Some(place as u8 + 1),
        None => None,
    }
}

// Returns the number of the station with an address: 0 for the master, whose address is 0, and otherwise that of a drive. `None` if no
// station has it. There are at most 64 drives.
#[tactic(auto, unfolding(crate::specs::Fault::any_station))]
fn any_station(drives: &[DriveSetup], address: i64) -> Option<u8>
    requires { length drives.now ≤ 64 }
    ensures { result ≡ any_station drives.now address }
{
    if address == 0 {
        Some(0)
    } else {
        drive_station(drives, address)
    }
}

// Returns the number of the station that sends the telegrams: 0, the master, for MST and MDT; for an AT that of the drive whose address is
// under `from`. The error is `Missing`, `Kind`, or `Range` with the address if no drive has it. There are at most 64 drives.
#[tactic(auto, unfolding(crate::specs::Fault::from_of))]
fn read_from(keys: &Keys<'_>, drives: &[DriveSetup], telegram: Kind) -> Result<u8, BadDocument>
    requires { length drives.now ≤ 64 }
    ensures { Gives result (from_of drives.now telegram (located keys.now)) }
{
    match telegram {
        Kind::Mst | Kind::Mdt => Ok(0),
        Kind::At => {
            let address = keys.required_integer("from")?;
            match drive_station(drives, address) {
                Some(station) => Ok(station),
                None => Err(keys.range("from", address)),
            }
        }
    }
}

// Returns whether the station with a number, 0 being the master, receives telegrams of a kind: each an MST, only the master an AT, and only
// drives an MDT.
#[tactic(auto, unfolding(crate::specs::Fault::hears))]
fn hears(telegram: Kind, station: u8) -> bool
    ensures { result ≡ hears telegram station }
{
    match telegram {
        Kind::Mst => true,
        Kind::At => station == 0,
        Kind::Mdt => station != 0,
    }
}

// Returns the number of the station whose address is under `station`. The error is `Missing`, `Kind`, or `Range` with the address if no
// station has it, or if the station doesn't receive such telegrams. There are at most 64 drives.
#[tactic(auto, unfolding(crate::specs::Fault::station_of))]
fn read_station(keys: &Keys<'_>, drives: &[DriveSetup], telegram: Kind) -> Result<u8, BadDocument>
    requires { length drives.now ≤ 64 }
    ensures { Gives result (station_of drives.now telegram (located keys.now)) }
{
    let address = keys.required_integer("station")?;
    match any_station(drives, address) {
        None => Err(keys.range("station", address)),
        Some(station) => {
            keys.demand(hears(telegram, station), "station", address)?;
            Ok(station)
        }
    }
}

// Reads what a fault of a kind does, from `link`, `bit` and `station`. `telegram` is the kind of the telegrams that it acts on. `bit`, 0 to
// 19,695, is the place of the bit that is flipped, from 0, or the number of bits before a cut. There are at most 64 drives. The error is
// `Missing`, `Kind`, or `Range` with the number under the key.
#[tactic(auto, unfolding(crate::specs::Fault::damage_of))]
fn read_damage(
    keys: &Keys<'_>,
    drives: &[DriveSetup],
    kind: FaultKind,
    telegram: Kind,
) -> Result<Damage, BadDocument>
    requires { length drives.now ≤ 64 }
    ensures { Gives result (damage_of drives.now kind telegram (located keys.now)) }
{
    match kind {
        FaultKind::Lose => {
            let link = read_link(keys, drives)?;
            Ok(Damage::Lose { link })
        }
        FaultKind::Flip => {
            let link = read_link(keys, drives)?;
            let bit = keys.number("bit", 0, LAST_BIT)?;
            Ok(Damage::Flip { link, bit })
        }
        FaultKind::Cut => {
            let link = read_link(keys, drives)?;
            let bit = keys.number("bit", 0, LAST_BIT)?;
            Ok(Damage::Cut { link, bit })
        }
        FaultKind::Deaf => {
            let station = read_station(keys, drives, telegram)?;
            Ok(Damage::Deaf { station })
        }
        FaultKind::Restart => {
            let station = read_station(keys, drives, telegram)?;
            Ok(Damage::Restart { station })
        }
    }
}

// Returns the link on which a fault acts, from `link`: from 0, which leads from the master to the first drive, to the number of drives,
// which leads from the last drive to the master. There are at most 64 drives. The error is `Missing`, `Kind`, or `Range` with the number.
#[tactic(auto, unfolding(crate::specs::Fault::link_of))]
fn read_link(keys: &Keys<'_>, drives: &[DriveSetup]) -> Result<u8, BadDocument>
    requires { length drives.now ≤ 64 }
    ensures { Gives result (link_of drives.now (located keys.now)) }
{
    let link = keys.number("link", 0, drives.len() as u32)?;
    Ok(link as u8)
}
