// The lines about requests. Each error is `AllocError`; then `out` is unspecified.
ghost use Rattle.std.specs.Prelude.{◌≡◌, ◌≤◌, ◌/◌, ◌%◌, ◌∷◌, [], ◌++◌, length, OnOk};
ghost use Rattle.sercos_backup.specs.Clauses.{option_copied, line_text, number, ident, saved_line, saved_lines, refused_text, failed_text, failed_line, failed_lines, restored_text, restored_by};

use crate::saved::put_saved;
use crate::tracked::{Tracked, bytes_in, is_well};
use sercos_idn::{Code, Idn};
use sercos_step::Outcome;
use sercos_text::{Given, Line, push_line};
use std::alloc::AllocError;

// Replaces a line by that of a template, at most 100 bytes, whose two fields are the address of a drive and an identifier number.
fn put_plain(address: u8, idn: Idn, template: &[u8], line: &mut Line)
    requires { length template.now ≤ 100 }
    ensures { line.new ≡ line_text template.now (number address ∷ ident idn.raw ∷ []) }
{
    line.clear();
    let values = [Given::Number(u32::from(address)), Given::Ident(idn)];
    push_line(template, &values, line);
}

// Returns the two bytes of a code, the high byte first: the order of its hexadecimal digits.
fn big_endian(code: Code) -> [u8; 2]
    ensures { result ≡ (code.raw / 256) ∷ (code.raw % 256) ∷ [] }
{
    code.raw.to_be_bytes()
}

// Replaces a line by the line of a request that was refused with a code, for a block of the drive with an address: `failed A IDN refused
// CODE`, with the address in decimal and the code as `0x` and four hexadecimal digits in lower case.
#[tactic(auto, unfolding(crate::specs::Texts::failed_text))]
fn put_refused(address: u8, idn: Idn, code: Code, line: &mut Line)
    ensures { line.new ≡ refused_text address idn.raw code.raw }
{
    line.clear();
    let code = big_endian(code);
    let values = [
        Given::Number(u32::from(address)),
        Given::Ident(idn),
        Given::Bytes(&code),
    ];
    push_line(b"failed D I refused 0xC\n", &values, line);
}

// Replaces a line by the line of a request that failed, for a block of the drive with an address: that of `put_refused`, `failed A IDN
// broken`, or without an outcome `failed A IDN open`. The line is empty if the request was complete.
#[tactic(auto, unfolding(crate::specs::Texts::failed_text))]
fn put_failed(address: u8, idn: Idn, outcome: Option<&Outcome>, line: &mut Line)
    ensures { line.new ≡ failed_text address idn.raw (option_copied outcome.entry) }
{
    match outcome {
        Some(Outcome::Complete(_)) => line.clear(),
        Some(Outcome::Refused(code)) => put_refused(address, idn, *code, line),
        Some(Outcome::Broken) => put_plain(address, idn, b"failed D I broken\n", line),
        None => put_plain(address, idn, b"failed D I open\n", line),
    }
}

// Appends the line of a request that failed, as `put_failed` makes it; nothing if it was complete.
fn push_failed_text(request: &Tracked, out: &mut Vec<u8>) -> Result<(), AllocError>
    ensures { OnOk result (out.new.items ≡ out.old.items ++ failed_text request.now.drive request.now.idn.raw request.now.outcome) }
{
    let mut line = Line::new();
    put_failed(
        request.drive,
        request.idn,
        request.outcome.as_ref(),
        &mut line,
    );
    out.extend_from_slice(line.as_slice())
}

/// Appends the lines of the requests that failed, in order: `failed A IDN refused CODE`, `failed A IDN broken`, or, without an outcome,
/// `failed A IDN open`. If `absent` is true, a request that was refused because the drive has no such block didn't fail.
pub(crate) fn push_all_failed(
    absent: bool,
    list: &[Tracked],
    out: &mut Vec<u8>,
) -> Result<(), AllocError>
    ensures { OnOk result (out.new.items ≡ out.old.items ++ failed_lines absent list.now) }
{
    for request in list {
        if is_well(absent, request.outcome.as_ref()) {
            continue;
        }
        push_failed_text(request, out)?;
    }
    Ok(())
}

/// Appends the saved data of the blocks that the requests read, in order, with no bytes for a request that wasn't complete.
pub(crate) fn push_all_saved(list: &[Tracked], out: &mut Vec<u8>) -> Result<(), AllocError>
    ensures { OnOk result (out.new.items ≡ out.old.items ++ saved_lines list.now) }
{
    for request in list {
        let bytes = bytes_in(request.outcome.as_ref());
        let mut line = Line::new();
        put_saved(request.drive, request.idn, bytes, &mut line);
        out.extend_from_slice(line.as_slice())?;
    }
    Ok(())
}

/// Appends the line of a write of a restore. If the write was complete, that is `restored A IDN HEX` with `content`, the operation data
/// that the drive has in the end, at most 1024 bytes: two hexadecimal digits in lower case for each, or `-` for none. Otherwise it is the
/// line of a request that failed, as in a backup.
pub fn push_restored(request: &Tracked, content: &[u8], out: &mut Vec<u8>) -> Result<(), AllocError>
    requires { length content.now ≤ 1024 }
    ensures { OnOk result (out.new.items ≡ out.old.items ++ restored_by content.now request.now) }
{
    if !is_well(false, request.outcome.as_ref()) {
        return push_failed_text(request, out);
    }
    let mut line = Line::new();
    let values = [
        Given::Number(u32::from(request.drive)),
        Given::Ident(request.idn),
        Given::Bytes(content),
    ];
    push_line(b"restored D I H\n", &values, &mut line);
    out.extend_from_slice(line.as_slice())
}
