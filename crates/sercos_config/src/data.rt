// The numbers and lists of a data block's keys. Any error may also be `Memory` instead of the refusal, as the path of a refusal takes
// memory. `Missing` means that a required key is absent, and `Kind` that a value has another TOML type.
ghost use Rattle.std.specs.Prelude.{◌≡◌, ◌≤◌, ◌<◌, ◌/◌, ◌%◌, ◌==◌, true, false, length, IfOk, IfSome};
ghost use Rattle.sercos_config.specs.Clauses.{result_ok, decode_of, AreBytes, is_list, item_len, is_signed, number_end, is_limit, is_max_len, Gives, located, is_in_range, bits_of, limit_of, list_max_len, max_len_of, list_bytes, list_data, is_data, number_data, fits_data, data_of};

use sercos_bits::Text;
use sercos_block::limits::MOST_DATA;
use sercos_block::{bytes_for, is_number, number_end};
use sercos_document::{BadDocument, Keys};
use sercos_idn::{Attribute, Form};

// Returns whether numbers of a form have a sign.
fn is_signed(form: Form) -> bool
    ensures { result ≡ is_signed form }
{
    match form {
        Form::Signed => true,
        Form::Binary | Form::Unsigned | Form::Hexadecimal | Form::Text | Form::Idn => false,
    }
}

// Returns whether `number` fits the w bits of the attribute's length, 16 for two bytes and otherwise 32: from 0 to 2^w - 1, or, if its form
// has a sign, from -2^(w-1) to 2^(w-1) - 1.
#[tactic(auto, unfolding(crate::specs::Numbers::is_in_range))]
fn is_in_range(attribute: Attribute, number: i64) -> bool
    ensures { result ≡ is_in_range attribute number }
{
    let end = number_end(attribute.length) as i64;
    if is_signed(attribute.form) {
        -(end / 2) <= number && number <= end / 2 - 1
    } else {
        0 <= number && number <= end - 1
    }
}

// Returns the bits of `number`, which is in the attribute's range: a negative one in two's complement, in as many bits as the attribute's
// length has.
#[tactic(auto, unfolding(crate::specs::Numbers::bits_of, crate::specs::Numbers::is_in_range))]
fn bits_of(attribute: Attribute, number: i64) -> u32
    requires { is_in_range attribute number ≡ true }
    ensures value { result ≡ bits_of attribute number }
    ensures bound { result < number_end attribute.length }
{
    let end = number_end(attribute.length) as i64;
    if number < 0 {
        (end + number) as u32
    } else {
        number as u32
    }
}

/// Returns the bits of the minimum or maximum under `key`; `None` if the key is absent. The error is `Kind`, or `Range` with the limit if
/// the block is a list or a procedure command, or if the limit is out of the attribute's range.
#[tactic(auto, unfolding(crate::specs::Numbers::limit_of))]
pub(crate) fn read_limit(
    keys: &Keys<'_>,
    key: &str,
    attribute: Attribute,
) -> Result<Option<u32>, BadDocument>
    ensures value { Gives result (limit_of (located keys.now) key.now attribute) }
    ensures valid { IfOk result (λ limit. is_limit attribute limit ≡ true) }
{
    match keys.integer(key)? {
        None => Ok(None),
        Some(number) => {
            let within = is_in_range(attribute, number);
            keys.demand(is_number(&attribute) && within, key, number)?;
            Ok(Some(bits_of(attribute, number)))
        }
    }
}

/// Returns the most bytes that the block's list may have, from `max_len`; 0 if the block isn't a list. For a list the error is `Missing`,
/// `Kind`, or `Range` with the number unless it is 1 to 1,024, in whole items. Other blocks may not have the key: the error is then `Kind`,
/// or `Range` with the number.
#[tactic(auto, unfolding(crate::specs::Numbers::max_len_of, crate::specs::Numbers::list_max_len))]
pub(crate) fn read_max_len(keys: &Keys<'_>, attribute: Attribute) -> Result<u16, BadDocument>
    ensures value { Gives result (max_len_of attribute (located keys.now)) }
    ensures valid { IfOk result (λ most. is_max_len attribute most ≡ true) }
{
    if attribute.length.is_list() {
        let most = keys.number("max_len", 1, u32::from(MOST_DATA))?;
        let whole = most % attribute.length.item_len() as u32 == 0;
        keys.demand(whole, "max_len", i64::from(most))?;
        return Ok(most as u16);
    }
    match keys.integer("max_len")? {
        None => Ok(0),
        Some(number) => Err(keys.range("max_len", number)),
    }
}

/// Returns the bytes that hexadecimal digits of either case spell, two digits for each byte. There are at most 2,048 digits. `None` if
/// their number is odd, or if a byte isn't such a digit.
pub(crate) fn decoded(digits: &[u8]) -> Option<Text>
    requires { length digits.now ≤ 2048 }
    ensures value { result ≡ result_ok (decode_of digits.now) }
    ensures count { IfSome result (λ bytes. length bytes ≡ length digits.now / 2) }
    ensures typed { IfSome result AreBytes }
{
    let mut bytes = [0u8; MOST_DATA as usize];
    let room = &mut bytes[..digits.len() / 2];
    match hex::decode_to_slice(digits, room) {
        Ok(()) => Some(text_of(room)),
        Err(_) => None,
    }
}

/// Returns a copy of the bytes, at most 1024.
pub(crate) fn text_of(bytes: &[u8]) -> Text
    requires { length bytes.now ≤ 1024 }
    ensures value { result ≡ bytes.now }
    ensures typed { AreBytes result }
{
    let mut text = Text::new();
    text.assign(bytes);
    text
}

// Returns the bytes of a list that hexadecimal digits spell, two digits for each byte. `None` if the text has other characters, if there
// are more than `most` bytes, or if they aren't whole items. `most` is at most 1024.
#[tactic(auto, unfolding(crate::specs::Numbers::list_bytes))]
fn list_bytes(most: u16, attribute: Attribute, text: &[u8]) -> Option<Text>
    requires { most ≤ 1024 }
    ensures value { result ≡ list_bytes most attribute text.now }
    ensures count { IfSome result (λ bytes. length bytes ≤ most) }
    ensures whole { IfSome result (λ bytes. length bytes % item_len attribute.length ≡ 0) }
    ensures typed { IfSome result AreBytes }
{
    let item = attribute.length.item_len();
    if text.len() <= 2 * usize::from(most) && text.len() % (2 * item) == 0 {
        decoded(text)
    } else {
        None
    }
}

// Returns whether `number` may be the operation data of a block that isn't a list: 0 for a procedure command, and otherwise a number in the
// attribute's range.
#[tactic(auto, unfolding(crate::specs::Numbers::is_data))]
fn is_data(attribute: Attribute, number: i64) -> bool
    ensures { result ≡ is_data attribute number }
{
    if attribute.command {
        number == 0
    } else {
        is_in_range(attribute, number)
    }
}

// Returns the bits of `number` as operation data, as `bits_of` does; those of a procedure command are 0. `is_data` must be true for
// `number`.
#[tactic(auto, unfolding(crate::specs::Numbers::is_data, crate::specs::Numbers::is_in_range, crate::specs::Numbers::bits_of))]
fn data_bits(attribute: Attribute, number: i64) -> u32
    requires { is_data attribute number ≡ true }
    ensures value { result ≡ bits_of attribute number }
    ensures bound { result < number_end attribute.length }
    ensures zero { attribute.command ≡ true → result ≡ 0 }
{
    if attribute.command {
        0
    } else {
        bits_of(attribute, number)
    }
}

/// Returns the bytes of the block's operation data, from `data`. If the key is absent, a list is empty and a number is 0. A list is a text
/// of hexadecimal digits, two for each byte; any other block has a number, whose bytes have the low byte first. `most` is the most bytes of
/// a list, 1 to 1,024 in whole items; 0 for other blocks. The error is `Kind`, or `Range`: for a list with the text's length in bytes if it
/// isn't such digits, or spells more than `most` bytes or no whole items; otherwise with the number if it is out of the attribute's range,
/// or isn't 0 in a procedure command.
#[tactic(auto, using(crate::proofs::BlockLemmas::is_typed_bytes, crate::proofs::BlockLemmas::none_typed), unfolding(crate::specs::Numbers::data_of, crate::specs::Numbers::list_data, crate::specs::Numbers::number_data))]
pub(crate) fn read_data(
    keys: &Keys<'_>,
    most: u16,
    attribute: Attribute,
) -> Result<Text, BadDocument>
    requires { is_max_len attribute most ≡ true }
    ensures value { Gives result (data_of most attribute (located keys.now)) }
    ensures valid { IfOk result (λ bytes. fits_data most attribute bytes ≡ true) }
    ensures typed { IfOk result AreBytes }
{
    if attribute.length.is_list() {
        return match keys.text("data")? {
            None => Ok(Text::new()),
            Some(text) => match list_bytes(most, attribute, text.as_bytes()) {
                Some(bytes) => Ok(bytes),
                None => Err(keys.range("data", text.len() as i64)),
            },
        };
    }
    match keys.integer("data")? {
        None => Ok(bytes_for(attribute, 0)),
        Some(number) => {
            keys.demand(is_data(attribute, number), "data", number)?;
            Ok(bytes_for(attribute, data_bits(attribute, number)))
        }
    }
}
