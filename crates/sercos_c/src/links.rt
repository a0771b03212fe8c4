//! The links of a document's ring under its script. The comments speak of links that were opened from a document.
ghost use Rattle.std.specs.Prelude.{◌≡◌, ◌≢◌, ◌==◌, ◌*◌, ◌≤◌, not, true, length, take, None, is_none};
ghost use Rattle.sercos_c.specs.Clauses.{bits_of, reason_of, are_same, DocumentView, script_restarts, done, closed, is_links, HoldsLinks, AreLinksOf, way_of, pass_status, how_of, IsPassed, IsUnpassed};

use crate::frames::{fill, pad};
use crate::handle::{Handle, close, on_station};
use crate::station::Station;
use crate::status::{DONE, REFUSED, TOO_LONG, WRITE_FAULT};
use sercos_bits::{BitBuf, Content, MAX_BITS, bits_of, push_number};
use sercos_hdlc::Deframer;
use sercos_script::{BitLink, Passage, Scripted};
use sercos_telegram::Kind;
use std::alloc::Global;

// The bytes of the most bits that can arrive.
const ROOM: usize = 2462;

// What arrives: the bits as they were sent, another frame, bits that are no frame, or nothing.
const AS_SENT: u8 = 0;

const OTHER_FRAME: u8 = 1;

const DAMAGED: u8 = 2;

const NOTHING: u8 = 3;

// Returns the way of a telegram from station to station; `None` if its kind is not 0 (MST), 1 (AT) or 2 (MDT).
fn way_of(cycle: u32, kind: u8, from: u8, to: u8) -> Option<Passage>
    ensures { result ≡ way_of cycle kind from to }
{
    let kind = match kind {
        0 => Kind::Mst,
        1 => Kind::At,
        2 => Kind::Mdt,
        _ => return None,
    };
    Some(Passage {
        cycle,
        kind,
        from,
        to,
    })
}

// Returns the first `count` bits of bytes.
fn first_bits(bytes: &[u8], count: usize) -> BitBuf
    requires within { count ≤ 8 * length bytes.now }
    requires few { count ≤ 19696 }
    ensures { result ≡ take count (bits_of bytes.now) }
{
    let mut bits = BitBuf::new();
    let whole = count / 8;
    bits_of(&bytes[..whole], &mut bits).unwrap();
    let rest = count % 8;
    if rest > 0 {
        push_number(u16::from(bytes[whole]), rest, &mut bits);
    }
    bits
}

// Returns whether bits are a frame.
fn is_frame(bits: &BitBuf) -> bool
    ensures { result ≡ is_none (reason_of bits.now) }
{
    prove!(bits.len() <= 19696);
    let mut reader = Deframer::new();
    let mut content = Content::new();
    reader.feed(bits);
    reader.finish(&mut content).is_ok()
}

// Returns whether bits arrived as they were sent.
fn are_same(sent: &BitBuf, came: &BitBuf) -> bool
    ensures { result ≡ are_same came.now sent.now }
{
    came.is_same(sent)
}

// Returns how bits arrived that were sent as `sent`.
fn how_of(sent: &BitBuf, came: &BitBuf) -> u8
    ensures { result ≡ how_of sent.now came.now }
{
    if are_same(sent, came) {
        AS_SENT
    } else if is_frame(came) {
        OTHER_FRAME
    } else {
        DAMAGED
    }
}

// Passes the first `count` bits of `bits` on a way, and returns `DONE`. What arrives is at the front of `out`, its number of bits in
// `arrived`, and how it arrived in `how`. Returns `REFUSED` without a way, or if there are fewer bits; otherwise `TOO_LONG` if `count` is
// above 19,696; otherwise `WRITE_FAULT` if `out` has fewer than 2,462 bytes. After these three `out` is unchanged, `arrived` is 0, and `how`
// says that nothing arrived.
fn pass(
    links: &mut Scripted,
    way: Option<Passage>,
    bits: &[u8],
    count: usize,
    out: &mut [u8],
    arrived: &mut u32,
    how: &mut u8,
) -> u8
    ensures kept { (d : DocumentView) → AreLinksOf links.old d → AreLinksOf links.new d }
    ensures status { result ≡ pass_status way (length bits.now) count (length out.old) }
    ensures nothing { result ≢ done → IsUnpassed out.old out.new arrived.new how.new }
    ensures passed { (d : DocumentView) → AreLinksOf links.old d → result ≡ done → IsPassed d way (take count (bits_of bits.now)) out.new arrived.new how.new }
{
    *arrived = 0;
    *how = NOTHING;
    let Some(p) = way else {
        return REFUSED;
    };
    if count.div_ceil(8) > bits.len() {
        return REFUSED;
    }
    if count > MAX_BITS {
        return TOO_LONG;
    }
    if out.len() < ROOM {
        return WRITE_FAULT;
    }
    let sent = first_bits(bits, count);
    let mut came = BitBuf::new();
    came.assign(&sent);
    if !links.pass(p, &mut came) {
        return DONE;
    }
    *how = how_of(&sent, &came);
    *arrived = came.len() as u32;
    pad(&mut came);
    let bytes = came.len() / 8;
    fill(&came, &mut out[..bytes]);
    DONE
}

/// Passes the first `count` bits of `bits`, a telegram that the station `from` sends in a cycle, to the station `to`, and returns `DONE`.
/// Bit n is bit n % 8 of byte n / 8. `kind` is 0 for an MST, 1 for an AT and 2 for an MDT. Station 0 is the master, and station k + 1 the
/// drive at index k of the ring; the master receives its own MST. The bits that arrive are written to the front of `out`, with zeros up to
/// a whole byte, and their number to `arrived`. `how` is 0 if they arrive as they were sent, 1 if another frame arrives, 2 if what arrives
/// is damaged and no frame, and 3 if nothing arrives; then `arrived` is 0. The links stay those of the document.
///
/// Returns `CLOSED` if no links are held, and then nothing changes; otherwise `REFUSED` if `kind` is another number, or if there are fewer
/// bits; otherwise `TOO_LONG` if `count` is above 19,696; otherwise `WRITE_FAULT` if `out` has fewer than 2,462 bytes. After these three
/// `out` is unchanged, `arrived` is 0, and `how` is 3.
#[unsafe(no_mangle)]
pub extern "C" fn sercos_links_pass(
    alloc: Global,
    links: &mut Handle,
    cycle: u32,
    kind: u8,
    from: u8,
    to: u8,
    bits: &[u8],
    count: usize,
    out: &mut [u8],
    arrived: &mut u32,
    how: &mut u8,
) -> u8
    ensures closed { (result == closed) ≡ not (is_links links.old.held.value) }
    ensures kept { (d : DocumentView) → HoldsLinks links.old.held.value d → HoldsLinks links.new.held.value d }
    ensures status { is_links links.old.held.value ≡ true → result ≡ pass_status (way_of cycle kind from to) (length bits.now) count (length out.old) }
    ensures nothing { is_links links.old.held.value ≡ true → result ≢ done → IsUnpassed out.old out.new arrived.new how.new }
    ensures passed { (d : DocumentView) → HoldsLinks links.old.held.value d → result ≡ done
        → IsPassed d (way_of cycle kind from to) (take count (bits_of bits.now)) out.new arrived.new how.new }
    ensures same { result ≡ closed → (links.new.held.value ≡ links.old.held.value) × ((out.new ≡ out.old) × ((arrived.new ≡ arrived.old) × (how.new ≡ how.old))) }
{
    let way = way_of(cycle, kind, from, to);
    on_station!(alloc, links, Station::Links(held) => pass(held, way, bits, count, out, arrived, how))
}

// Puts whether a station restarts in a cycle into `told`, and returns `DONE`.
fn tell_restart(links: &mut Scripted, cycle: u32, station: u8, told: &mut bool) -> u8
    ensures kept { (d : DocumentView) → AreLinksOf links.old d → AreLinksOf links.new d }
    ensures status { result ≡ done }
    ensures told { (d : DocumentView) → AreLinksOf links.old d → told.new ≡ script_restarts d cycle station }
{
    *told = links.restarts(cycle, station);
    DONE
}

/// Puts whether a station restarts in a cycle, before its MST, into `restarts`, and returns `DONE`. The links stay those of the document.
/// Returns `CLOSED` if no links are held, and then nothing changes.
#[unsafe(no_mangle)]
pub extern "C" fn sercos_links_restart(
    alloc: Global,
    links: &mut Handle,
    cycle: u32,
    station: u8,
    restarts: &mut bool,
) -> u8
    ensures closed { (result == closed) ≡ not (is_links links.old.held.value) }
    ensures status { is_links links.old.held.value ≡ true → result ≡ done }
    ensures kept { (d : DocumentView) → HoldsLinks links.old.held.value d → HoldsLinks links.new.held.value d }
    ensures told { (d : DocumentView) → HoldsLinks links.old.held.value d → restarts.new ≡ script_restarts d cycle station }
    ensures same { result ≡ closed → (links.new.held.value ≡ links.old.held.value) × (restarts.new ≡ restarts.old) }
{
    on_station!(alloc, links, Station::Links(held) => tell_restart(held, cycle, station, restarts))
}

/// Closes links: drops them and frees their memory, if there are any. The handle then holds nothing; it may be closed again, or opened.
#[unsafe(no_mangle)]
pub extern "C" fn sercos_links_close(alloc: Global, links: &mut Handle)
    ensures { links.new.held.value ≡ None }
{
    close(alloc, links);
}
