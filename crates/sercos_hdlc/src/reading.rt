// The tests of the bytes between two flags: their number and the check sequence.
ghost use Rattle.std.specs.Prelude.{◌≡◌, ◌≢◌, ℕ, Bool, ◌%◌, ◌≤◌, List, length, Some, None, Ok, OnOk, OnErr, IfOk, IfErr};
ghost use Rattle.sercos_hdlc.specs.Clauses.{result_err, bits_of, IsFrame, content_of, plain, check_differs, unreadable, reason_of, IsScan, IsKept};

use crate::bad_frame::BadFrame;
use crate::kept::Kept;
use crate::plain_bytes::MOST_BYTES;
use crate::scan::Scan;
use sercos_bits::{byte_at, fcs};

// The length of the check sequence, in bytes.
const CHECK_BYTES: usize = 2;

// The fewest bytes between two flags: one of content, and the check sequence.
const LEAST_BYTES: u32 = 3;

// Tests that `len` plain bits are whole bytes, 3 to 2050 of them. The error is `Ragged` if they aren't whole bytes, otherwise `Short` or
// `Long`. After `Ok`, of the rules on plain bits only that on the check sequence is left to test.
#[tactic(auto, unfolding(crate::specs::Reason::unreadable, crate::specs::Reason::given))]
fn test_size(len: u32) -> Result<(), BadFrame>
    ensures reason { (plain : List Bool) → len ≡ length plain → IfErr result (λ reason. unreadable plain ≡ Some reason) }
    ensures check { (plain : List Bool) → len ≡ length plain → OnOk result (unreadable plain ≡ check_differs plain) }
    ensures whole { OnOk result (len % 8 ≡ 0) }
    ensures low { OnOk result (24 ≤ len) }
    ensures high { OnOk result (len ≤ 16400) }
{
    if len % 8 != 0 {
        return Err(BadFrame::Ragged(len));
    }
    let size = len / 8;
    if size < LEAST_BYTES {
        return Err(BadFrame::Short(size));
    }
    if size > MOST_BYTES as u32 {
        return Err(BadFrame::Long(size));
    }
    Ok(())
}

// Tests that the check sequence received is the one computed. Otherwise the error is `Check` with both.
fn test_check(found: u16, wanted: u16) -> Result<(), BadFrame>
    ensures same { OnOk result (found ≡ wanted) }
    ensures differ { OnErr result (found ≢ wanted) }
    ensures err { IfErr result (λ reason. reason ≡ BadFrame.Check found wanted) }
{
    if found == wanted {
        Ok(())
    } else {
        Err(BadFrame::Check(found, wanted))
    }
}

// Returns the content of 2 to 2050 bytes between two flags, without the check sequence. The error is `Check` if the check sequence is
// wrong. For fewer than two bytes the result is unspecified.
fn content_in(bytes: &[u8]) -> Result<&[u8], BadFrame>
    requires { length bytes.now ≤ 2050 }
    ensures reason { 2 ≤ length bytes.now → result_err result ≡ check_differs (bits_of bytes.now) }
    ensures content { 2 ≤ length bytes.now → IfOk result (λ content. content.now ≡ content_of (bits_of bytes.now)) }
    ensures few { IfOk result (λ content. length content.now ≤ 2048) }
{
    let split = bytes.len().saturating_sub(CHECK_BYTES);
    let content = &bytes[..split];
    let found = u16::from_le_bytes([byte_at(bytes, split), byte_at(bytes, split + 1)]);
    test_check(found, fcs(content))?;
    Ok(content)
}

/// Returns the content of the frame that was taken, at most 2048 bytes. `scan` and `kept` are the states after the same bits. The error is
/// the first rule that applies.
pub fn read_frame<'a>(scan: &Scan, kept: &'a Kept) -> Result<&'a [u8], BadFrame>
    ensures reason { (bits plain : List Bool) → IsScan bits plain scan.now → IsKept plain kept.now → result_err result ≡ reason_of bits }
    ensures content { (bits given : List Bool) → IsScan bits given scan.now → IsKept given kept.now
        → IfOk result (λ content. content.now ≡ content_of (plain bits)) }
    ensures few { IfOk result (λ content. length content.now ≤ 2048) }
{
    let len = scan.between()?;
    test_size(len)?;
    let content = content_in(kept.bytes.as_slice())?;
    scan.test_end()?;
    Ok(content)
}

/// States that no rule of [`BadFrame`] applies (`reason_of`) iff the bits are a frame, and that its content is then the one that its plain
/// bits spell, those between the flags without the inserted zeros, and no other. The function does nothing.
pub fn frame_law()
    ensures frame { (bits : List Bool) → reason_of bits ≡ None
        → IsFrame (content_of (plain bits)) bits }
    ensures none { (content : List ℕ) (bits : List Bool) → IsFrame content bits
        → reason_of bits ≡ None }
    ensures only { (content : List ℕ) (bits : List Bool) → IsFrame content bits
        → content ≡ content_of (plain bits) }
{}
