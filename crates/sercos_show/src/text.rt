// The texts of the answers of `show`, appended to the text of a reply. Each error is `AllocError`. After an error `out` is unspecified.
ghost use Rattle.std.specs.Prelude.{◌≡◌, ◌*◌, [], ◌∷◌, ◌++◌, OnOk, codes, decimal, length, ◌≤◌};
ghost use Rattle.sercos_show.specs.Clauses.{encode_lower, word_text, bit_text, two_bits, bit_and_number, two_words, data_text, layout_text, mst_text, single_text, at_text, refusal_text};

use sercos_answer::{push_number, push_text, push_two_numbers};
use sercos_hdlc::BadFrame;
use sercos_telegram::{At, Control, Layout, Status};
use sercos_text::{piece_of, put_pairs};
use std::alloc::AllocError;

/// Appends a word as `0x` and four hexadecimal digits in lower case.
#[tactic(auto, unfolding(crate::specs::Show::word_text))]
pub fn push_word(word: u16, out: &mut Vec<u8>) -> Result<(), AllocError>
    ensures { OnOk result (out.new.items ≡ out.old.items ++ word_text word) }
{
    push_text("0x", out)?;
    let mut digits = [0u8; 4];
    hex::encode_to_slice(word.to_be_bytes(), &mut digits).unwrap();
    out.extend_from_slice(&digits)
}

// Appends a text and a number in decimal.
#[inline(always)]
fn push_place(text: &str, place: u64, out: &mut Vec<u8>) -> Result<(), AllocError>
    ensures { OnOk result (out.new.items ≡ out.old.items ++ text.now ++ decimal place) }
{
    push_text(text, out)?;
    push_number(place, out)
}

// Appends a bit, as `0` or `1`.
#[inline(always)]
fn push_bit(bit: bool, out: &mut Vec<u8>) -> Result<(), AllocError>
    ensures { OnOk result (out.new.items ≡ out.old.items ++ bit_text bit) }
{
    push_text(if bit { "1" } else { "0" }, out)
}

// Appends two bits, each after its name.
#[tactic(auto, unfolding(crate::specs::Show::two_bits))]
#[inline(always)]
fn push_bits(
    first: &str,
    a: bool,
    second: &str,
    b: bool,
    out: &mut Vec<u8>,
) -> Result<(), AllocError>
    ensures { OnOk result (out.new.items ≡ out.old.items ++ two_bits first.now a second.now b) }
{
    push_text(first, out)?;
    push_bit(a, out)?;
    push_text(second, out)?;
    push_bit(b, out)
}

// Appends a bit and a number in decimal, each after its name.
#[tactic(auto, unfolding(crate::specs::Show::bit_and_number))]
#[inline(always)]
fn push_bit_and_number(
    first: &str,
    bit: bool,
    second: &str,
    number: u64,
    out: &mut Vec<u8>,
) -> Result<(), AllocError>
    ensures { OnOk result (out.new.items
        ≡ out.old.items ++ bit_and_number first.now bit second.now number) }
{
    push_text(first, out)?;
    push_bit(bit, out)?;
    push_text(second, out)?;
    push_number(number, out)
}

// Appends two words, each after its name, as `push_word` does.
#[tactic(auto, unfolding(crate::specs::Show::two_words))]
#[inline(always)]
fn push_words(
    first: &str,
    a: u16,
    second: &str,
    b: u16,
    out: &mut Vec<u8>,
) -> Result<(), AllocError>
    ensures { OnOk result (out.new.items ≡ out.old.items ++ two_words first.now a second.now b) }
{
    push_text(first, out)?;
    push_word(a, out)?;
    push_text(second, out)?;
    push_word(b, out)
}

/// Appends the number, the name and the values of the reason why bits are not a frame: counts and offsets in decimal, check sequences as
/// words.
#[tactic(auto, unfolding(crate::specs::Show::refusal_text))]
pub fn push_refusal(bad: BadFrame, out: &mut Vec<u8>) -> Result<(), AllocError>
    ensures { OnOk result (out.new.items ≡ out.old.items ++ refusal_text bad) }
{
    match bad {
        BadFrame::NoOpen => push_text("1 no open", out),
        BadFrame::Abort(place) => push_place("2 abort ", u64::from(place), out),
        BadFrame::NoClose(bits) => push_place("3 no close ", u64::from(bits), out),
        BadFrame::Ragged(bits) => push_place("4 ragged ", u64::from(bits), out),
        BadFrame::Short(bytes) => push_place("5 short ", u64::from(bytes), out),
        BadFrame::Check(found, wanted) => {
            push_words("6 check found ", found, " wanted ", wanted, out)
        },
        BadFrame::After(place) => push_place("7 after ", u64::from(place), out),
        BadFrame::Long(bytes) => push_place("8 long ", u64::from(bytes), out),
    }
}

/// Appends bytes, at most 2048, as two hexadecimal digits in lower case each.
pub fn push_hex(bytes: &[u8], out: &mut Vec<u8>) -> Result<(), AllocError>
    requires { length bytes.now ≤ 2048 }
    ensures { OnOk result (out.new.items ≡ out.old.items ++ encode_lower bytes.now) }
{
    let mut room = [0u8; 64];
    for turn in 0..bytes.len().div_ceil(32) {
        let piece = piece_of(bytes, 32 * turn);
        let digits = &mut room[..2 * piece.len()];
        put_pairs(piece, digits);
        out.extend_from_slice(digits)?;
    }
    Ok(())
}

/// Appends the number, the name and the values of a fault of layout, in decimal.
#[tactic(auto, unfolding(crate::specs::Show::layout_text))]
pub fn push_layout(fault: Layout, out: &mut Vec<u8>) -> Result<(), AllocError>
    ensures { OnOk result (out.new.items ≡ out.old.items ++ layout_text fault) }
{
    match fault {
        Layout::Length(found, wanted) => {
            push_two_numbers(
                "1 length found ",
                found as u64,
                " wanted ",
                wanted as u64,
                out,
            )
        }
        Layout::Address(found, wanted) => {
            push_two_numbers(
                "2 address found ",
                found as u64,
                " wanted ",
                wanted as u64,
                out,
            )
        }
        Layout::BadField(place) => push_place("3 field ", place as u64, out),
    }
}

/// Appends the field of an MST: the phase.
#[tactic(auto, unfolding(crate::specs::Show::mst_text))]
pub fn push_mst(phase: u8, out: &mut Vec<u8>) -> Result<(), AllocError>
    ensures { OnOk result (out.new.items ≡ out.old.items ++ mst_text phase) }
{
    push_place("mst phase ", u64::from(phase), out)
}

/// Appends the fields of an MDT of phases 1 and 2: the address, those of the service channel in the control word, the word `info`, and the
/// control word's bits 15 to 6, at their places, as a word.
#[tactic(auto, unfolding(crate::specs::Show::single_text))]
pub fn push_single(
    address: u8,
    control: &Control,
    info: u16,
    out: &mut Vec<u8>,
) -> Result<(), AllocError>
    ensures { OnOk result (out.new.items ≡ out.old.items ++ single_text address control.now info) }
{
    push_place("single ", u64::from(address), out)?;
    push_bits(" mhs ", control.mhs, " write ", control.write, out)?;
    push_bit_and_number(
        " last ",
        control.last,
        " element ",
        u64::from(control.element),
        out,
    )?;
    push_words(" info ", info, " cyclic ", control.cyclic, out)
}

// Returns the digit of a bit, `0` or `1`.
fn bit_digit(bit: bool) -> u8
    ensures { bit_text bit ≡ result ∷ [] }
{
    if bit { b'1' } else { b'0' }
}

// Returns the bits of an AT's status word, each after its name. Texts of a fixed length are put together here, and appended at once.
fn status_bits(status: Status) -> [u8; 30]
    ensures { result ≡ two_bits (codes " ahs ") status.ahs (codes " busy ") status.busy
        ++ two_bits (codes " error ") status.error (codes " change ") status.change }
{
    let mut text = *b" ahs 0 busy 0 error 0 change 0";
    text[5] = bit_digit(status.ahs);
    text[12] = bit_digit(status.busy);
    text[20] = bit_digit(status.error);
    text[29] = bit_digit(status.change);
    text
}

// Returns the words of an AT, `info` and the bits of its status word for cyclic data, each after its name, as `0x` and four hexadecimal
// digits in lower case. The name `data` and a space follow.
fn at_words(info: u16, cyclic: u16) -> [u8; 32]
    ensures { result ≡ two_words (codes " info ") info (codes " cyclic ") cyclic ++ codes " data " }
{
    let mut text = *b" info 0x0000 cyclic 0x0000 data ";
    hex::encode_to_slice(info.to_be_bytes(), &mut text[8..12]).unwrap();
    hex::encode_to_slice(cyclic.to_be_bytes(), &mut text[22..26]).unwrap();
    text
}

/// Appends the fields of an AT: the address, those of the service channel in the status word and its change bit, the word `info`, the
/// status word's bits 3, 4 and 15 to 6, at their places, as a word, and the data, at most 2048 bytes, as two hexadecimal digits in lower
/// case each, or `-` if there are none.
#[tactic(auto, unfolding(crate::specs::Show::at_text, crate::specs::Show::data_text))]
pub fn push_at(at: &At<'_>, out: &mut Vec<u8>) -> Result<(), AllocError>
    requires { length at.now.values.now ≤ 2048 }
    ensures { OnOk result (out.new.items
        ≡ out.old.items ++ at_text at.now.address at.now.status at.now.info at.now.values.now) }
{
    push_place("at ", u64::from(at.address), out)?;
    out.extend_from_slice(&status_bits(at.status))?;
    out.extend_from_slice(&at_words(at.info, at.status.cyclic))?;
    match at.values {
        [] => push_text("-", out),
        [_, ..] => push_hex(at.values, out),
    }
}
