// The drives of a ring. Any error may also be `Memory` instead of the refusal, as the path of a refusal takes memory. `Missing` means that
// a required key is absent, and `Kind` that a value has another TOML type.
ghost use Rattle.std.specs.Prelude.{◌≡◌, ◌≤◌, true, false, [], length, map, IfOk};
ghost use Rattle.sercos_config.specs.Clauses.{All, table_view, items_view, is_cyclic, are_cyclic, are_times, are_drive_numbers, has_address, are_drives, is_drive, IsTyped, item_path, Gives, Shows, known, located, idn_in, idn_at, idns_onto, idns_of, times_of, drive_keys, new_address, drive_numbers_of, drive_of, drives_onto};

use crate::block::{idn_of, read_blocks};
use arrayvec::ArrayVec;
use sercos_block::limits::{MOST_BLOCKS, MOST_BUSY, MOST_CARRIED, MOST_COMMAND};
use sercos_block::{Block, DriveSetup, cyclic_len, has_address};
use sercos_document::{BadDocument, Keys, Place};
use sercos_idn::Idn;
use sercos_timing::Times;
use sercos_timing::limits::{
    LEAST_CYCLE, MOST_ADDRESS, MOST_CYCLE, MOST_T1MIN, MOST_T4MIN, MOST_TATAT, MOST_TATMT,
    MOST_TMTSG, MOST_TMTSY,
};
use std::alloc::Global;
use toml::{Table, Value};

/// Reads the drives from their tables, in the order of the ring. The error is the first refusal, or `Memory`. There is one drive for each
/// table. Each keeps the rules for a drive after those before it: another address, numbers in their ranges, at most 36 blocks that
/// `check_blocks` of `sercos_block` accepts, and in `at` and in `mdt` at most 16 identifier numbers, of operation data that is one number
/// of two or four bytes. Its numbers are in the ranges of their types.
#[tactic(auto, using(crate::proofs::DriveLemmas::drives_none, crate::proofs::DriveLemmas::drives_more), unfolding(crate::specs::Drive::drives_onto))]
pub(crate) fn read_drives(alloc: Global, tables: &[&Table]) -> Result<Vec<DriveSetup>, BadDocument>
    ensures value { Shows (λ v. v.items) result (drives_onto [] (map (λ t. table_view t.now) tables.now)) }
    ensures valid { IfOk result (λ v. are_drives [] v.items ≡ true) }
    ensures typed { IfOk result (λ v. All IsTyped v.items) }
    ensures count { IfOk result (λ v. length v.items ≡ length tables.now) }
{
    let Ok(mut drives) = Vec::with_capacity(alloc, tables.len()) else {
        return Err(BadDocument::Memory);
    };
    for table in tables {
        let keys = Keys {
            alloc,
            place: Place::Drive(drives.len()),
            table: *table,
        };
        let drive = read_drive(&keys, drives.as_slice())?;
        drives.push(drive)?;
    }
    Ok(drives)
}

// The numbers of a drive: busy and command in cycles, the times in microseconds.
#[derive(Clone, Copy, Debug, PartialEq, Eq)]
struct DriveNumbers {
    address: u8,
    slave: u8,
    busy: u8,
    command: u16,
    times: Times,
    cycle_min: u16,
    cycle_max: u16,
}

// Reads a drive from its table. `before` has the drives of the tables before it, none of which may have its address. The error is the first
// refusal, or `Memory`. The drive keeps the rules that `read_drives` lists, and its numbers are in the ranges of their types.
#[tactic(auto, unfolding(crate::specs::Drive::drive_of, sercos_block::specs::Rings::is_drive, sercos_block::specs::Rings::has_blocks))]
fn read_drive(keys: &Keys<'_>, before: &[DriveSetup]) -> Result<DriveSetup, BadDocument>
    ensures value { Gives result (drive_of before.now (located keys.now)) }
    ensures valid { IfOk result (λ d. is_drive before.now d ≡ true) }
    ensures typed { IfOk result IsTyped }
{
    known(keys)?;
    let numbers = read_numbers(keys, before)?;
    let tables = keys.tables("block", 0, MOST_BLOCKS)?;
    let at_items = keys.short_list("at", MOST_CARRIED)?;
    let mdt_items = keys.short_list("mdt", MOST_CARRIED)?;
    let blocks = read_blocks(keys.alloc, before.len(), tables.as_slice())?;
    let at = read_idns(keys, blocks.as_slice(), "at", at_items)?;
    let mdt = read_idns(keys, blocks.as_slice(), "mdt", mdt_items)?;
    Ok(DriveSetup {
        address: numbers.address,
        slave: numbers.slave,
        busy: numbers.busy,
        command: numbers.command,
        times: numbers.times,
        cycle_min: numbers.cycle_min,
        cycle_max: numbers.cycle_max,
        at,
        mdt,
        blocks,
    })
}

// Reads the numbers of a drive. `before` has the drives of the tables before it, none of which may have its address. The address and the
// times are required; a slave that is absent is the address, `busy` and `command` are 0, `cycle_min` is 125 and `cycle_max` is 64,000. The
// address and the slave are 1 to 254, `busy` is at most 20, `command` at most 200, and `cycle_min` and `cycle_max` are at most 64,000. The
// error is `Missing`, `Kind`, `Range` with the number, or `Twice` for the address.
#[tactic(auto, unfolding(crate::specs::Drive::drive_numbers_of, crate::specs::Drive::new_address, sercos_block::specs::Rings::are_drive_numbers))]
fn read_numbers(keys: &Keys<'_>, before: &[DriveSetup]) -> Result<DriveNumbers, BadDocument>
    ensures value { Gives result (drive_numbers_of before.now (located keys.now)) }
    ensures once { IfOk result (λ n. has_address n.address before.now ≡ false) }
    ensures valid { IfOk result (λ n.
        are_drive_numbers n.address n.slave n.busy n.command n.times n.cycle_min n.cycle_max ≡ true) }
{
    let address = keys.number("address", 1, u32::from(MOST_ADDRESS))? as u8;
    keys.demand_once(!has_address(address, before), "address")?;
    let slave = keys.number_or("slave", 1, u32::from(MOST_ADDRESS), u32::from(address))?;
    let busy = keys.number_or("busy", 0, u32::from(MOST_BUSY), 0)?;
    let command = keys.number_or("command", 0, u32::from(MOST_COMMAND), 0)?;
    let times = read_times(keys)?;
    let most_cycle = u32::from(MOST_CYCLE);
    let cycle_min = keys.number_or("cycle_min", 0, most_cycle, u32::from(LEAST_CYCLE))?;
    let cycle_max = keys.number_or("cycle_max", 0, most_cycle, most_cycle)?;
    Ok(DriveNumbers {
        address,
        slave: slave as u8,
        busy: busy as u8,
        command: command as u16,
        times,
        cycle_min: cycle_min as u16,
        cycle_max: cycle_max as u16,
    })
}

// Refuses the least key, in the order of bytes, that a `drive` table may not have, as `Unknown`.
#[tactic(auto, unfolding(crate::specs::Drive::drive_keys))]
fn known(keys: &Keys<'_>) -> Result<(), BadDocument>
    ensures { Gives result (known (located keys.now) drive_keys) }
{
    keys.known(&[
        "address",
        "slave",
        "busy",
        "command",
        "t1min",
        "tatmt",
        "t4min",
        "tatat",
        "tmtsy",
        "tmtsg",
        "cycle_min",
        "cycle_max",
        "block",
        "at",
        "mdt",
    ])
}

// Returns the times that a drive declares, in microseconds: t1min and tatmt to 300, t4min, tatat and tmtsg to 64,000, and tmtsy to 250. All
// are required. The error is `Missing`, `Kind`, or `Range` with the number.
#[tactic(auto, unfolding(crate::specs::Drive::times_of, sercos_block::specs::Rings::are_times))]
fn read_times(keys: &Keys<'_>) -> Result<Times, BadDocument>
    ensures value { Gives result (times_of (located keys.now)) }
    ensures valid { IfOk result (λ times. are_times times ≡ true) }
{
    let t1min = keys.number("t1min", 0, u32::from(MOST_T1MIN))?;
    let tatmt = keys.number("tatmt", 0, u32::from(MOST_TATMT))?;
    let t4min = keys.number("t4min", 0, u32::from(MOST_T4MIN))?;
    let tatat = keys.number("tatat", 0, u32::from(MOST_TATAT))?;
    let tmtsy = keys.number("tmtsy", 0, u32::from(MOST_TMTSY))?;
    let tmtsg = keys.number("tmtsg", 0, u32::from(MOST_TMTSG))?;
    Ok(Times {
        t1min: t1min as u16,
        tatmt: tatmt as u16,
        t4min: t4min as u16,
        tatat: tatat as u16,
        tmtsy: tmtsy as u16,
        tmtsg: tmtsg as u16,
    })
}

// Returns the identifier numbers that `items`, the list under `key`, spell; there are at most 16. A telegram of a drive with these blocks
// can carry each of them. The error is `Kind` at the first item that isn't a text. If all are texts, it is that of `read_item` at the first
// that it refuses. It can be `Memory` too.
#[tactic(auto, unfolding(crate::specs::Drive::idns_of))]
fn read_idns(
    keys: &Keys<'_>,
    blocks: &[Block],
    key: &str,
    items: &[Value],
) -> Result<ArrayVec<Idn, 16>, BadDocument>
    requires { length items.now ≤ 16 }
    ensures value { Shows (λ v. v.items) result
        (idns_of blocks.now keys.now.place key.now (items_view items.now)) }
    ensures valid { IfOk result (λ v. are_cyclic blocks.now v.items ≡ true) }
    ensures few { IfOk result (λ v. length v.items ≤ 16) }
{
    let texts = keys.texts(key, items)?;
    read_texts(keys, blocks, key, texts.as_slice())
}

// Returns the identifier numbers that the texts of the list under `key`, at most 16, spell. A telegram of a drive with these blocks can
// carry each of them. The error is that of `read_item` at the first text that it refuses.
#[tactic(auto, unfolding(crate::specs::Drive::idns_onto, sercos_block::specs::Rings::are_cyclic))]
fn read_texts(
    keys: &Keys<'_>,
    blocks: &[Block],
    key: &str,
    texts: &[&str],
) -> Result<ArrayVec<Idn, 16>, BadDocument>
    requires { length texts.now ≤ 16 }
    ensures value { Shows (λ v. v.items) result
        (idns_onto blocks.now keys.now.place key.now [] (map (λ t. t.now) texts.now)) }
    ensures valid { IfOk result (λ v. are_cyclic blocks.now v.items ≡ true) }
    ensures few { IfOk result (λ v. length v.items ≤ 16) }
{
    let mut idns = ArrayVec::new();
    for text in texts {
        let idn = read_item(keys, blocks, key, idns.len(), *text)?;
        idns.push(idn);
    }
    Ok(idns)
}

// Returns the identifier number that `text` spells, the item with index `item` of the list under `key`. The error is `Range`: with the
// text's length in bytes if it spells none, or with the raw number if no telegram of a drive with these blocks can carry it, as none
// carries a list, a procedure command or a block that the drive lacks. It can be `Memory` too.
#[tactic(auto, unfolding(crate::specs::Drive::idn_at, crate::specs::Block::idn_in, sercos_document::specs::Answers::demand))]
fn read_item(
    keys: &Keys<'_>,
    blocks: &[Block],
    key: &str,
    item: usize,
    text: &str,
) -> Result<Idn, BadDocument>
    ensures value { Gives result (idn_at blocks.now keys.now.place key.now item text.now) }
    ensures valid { IfOk result (λ idn. is_cyclic blocks.now idn.raw ≡ true) }
{
    let Some(idn) = idn_of(text) else {
        return Err(keys.item_range(key, item, text.len() as i64));
    };
    if cyclic_len(blocks, idn).is_some() {
        Ok(idn)
    } else {
        Err(keys.item_range(key, item, i64::from(idn.raw)))
    }
}
