//! Identifier numbers (IEC 61491:1995) and their texts.
ghost use Rattle.std.specs.Prelude.{◌≡◌, ◌≢◌, ℕ, ◌^◌, ◌<◌, Some, None};
ghost use Rattle.sercos_c.specs.Clauses.{idn_text, idn_fault, spelled_raw, done, IsPut, parse_status, fault_place};

use crate::room::put;
use crate::status::{DONE, NO};
use sercos_idn::{Idn, idn_fault};

// Returns the identifier number that a text without a fault spells. Such a text is UTF-8, so the two other arms are never taken.
fn spelled(text: &[u8]) -> u16
    requires { idn_fault text.now ≡ None }
    ensures value { result ≡ spelled_raw text.now }
    ensures text { text.now ≡ idn_text result }
{
    match str::from_utf8(text) {
        Ok(text) => match Idn::parse(text) {
            Ok(idn) => idn.raw,
            Err(_) => 0,
        },
        Err(_) => 0,
    }
}

/// Writes the identifier number that a text such as "S-0-0127" spells to `idn` and 0 to `place`, and returns `DONE`. Returns `NO` if it
/// spells none, and then `idn` stays as it was. `place` is then the offset of the first byte that doesn't fit, the text's length if a byte
/// is missing, 4 if the number is above 4095, or 8 if the text goes on after the number.
#[unsafe(no_mangle)]
pub extern "C" fn sercos_idn_parse(text: &[u8], idn: &mut u16, place: &mut usize) -> u8
    ensures status { result ≡ parse_status (idn_fault text.now) }
    ensures value { result ≡ done → idn.new ≡ spelled_raw text.now }
    ensures text { result ≡ done → text.now ≡ idn_text idn.new }
    ensures only { (raw : ℕ) → raw < 2 ^ 16 → text.now ≡ idn_text raw → (result ≡ done) × (idn.new ≡ raw) }
    ensures place { place.new ≡ fault_place (idn_fault text.now) }
    ensures kept { result ≢ done → idn.new ≡ idn.old }
{
    match idn_fault(text) {
        Some(found) => {
            *place = found;
            NO
        }
        None => {
            *idn = spelled(text);
            *place = 0;
            DONE
        }
    }
}

/// Writes the eight bytes of the text of an identifier number to the front of `out`, without a zero after them, and returns `DONE`. Returns
/// `WRITE_FAULT` if `out` has fewer than eight bytes; then `out` stays as it was.
#[unsafe(no_mangle)]
pub extern "C" fn sercos_idn_text(idn: u16, out: &mut [u8]) -> u8
    ensures { (count : ℕ) × IsPut (idn_text idn) out.old out.new count result }
{
    let mut written = 0;
    put(&Idn { raw: idn }.text(), out, &mut written)
}
