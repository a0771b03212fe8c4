// The copy of an element, made at the first step of a read.
ghost use Rattle.std.specs.Prelude.{◌≡◌, ◌≤◌, length, Some, None, MatchResult};
ghost use Rattle.sercos_service_drive.specs.Clauses.{words_of, element_of, CommandHistory, CommandsStandFor, list_words, element_words, words_at, missing};

use crate::data::push_data;
use sercos_bits::ByteList;
use sercos_block::limits::{MOST_NAME, MOST_UNIT};
use sercos_block::{Store, Stored};
use sercos_command::Commands;
use sercos_idn::element::{DATA, IDENTIFIER, NAME, UNIT};
use sercos_idn::{Code, Idn};

/// The most bytes of an element's words: a list of 1024 bytes, and its two lengths before it.
pub(crate) const CAPACITY: usize = 1028;

// The words of an element, or of a write so far, each with its low byte first.
pub(crate) type Buffer = ByteList<CAPACITY>;

// Replaces the buffer by a list of at most 1024 bytes, after its length and the length of the longest list, in bytes.
fn copy_list(buffer: &mut Buffer, longest: u16, bytes: &[u8])
    requires { length bytes.now ≤ 1024 }
    ensures { words_of buffer.new ≡ list_words longest bytes.now }
{
    buffer.clear();
    buffer.push_word_within(bytes.len() as u16);
    buffer.push_word_within(longest);
    buffer.append_within(bytes);
}

// Replaces the buffer by the words of an element of a block, 2 to 7, as it is in a cycle. `bytes` are those of the element, at most 1024.
#[tactic(auto, unfolding(crate::specs::Replies::element_words, sercos_block::specs::Blocks::element_of))]
fn copy_found(buffer: &mut Buffer, block: &Stored<'_>, element: u8, cycle: u32, bytes: &[u8])
    requires { length bytes.now ≤ 1024 }
    ensures { element_of block.now element ≡ Some bytes.now → words_of buffer.new ≡ element_words element cycle block.now }
{
    if element == NAME {
        copy_list(buffer, MOST_NAME as u16, bytes);
    } else if element == UNIT {
        copy_list(buffer, MOST_UNIT as u16, bytes);
    } else if element != DATA {
        buffer.assign(bytes);
    } else if block.attribute().length.is_list() {
        copy_list(buffer, block.max_len(), bytes);
    } else {
        buffer.clear();
        push_data(buffer, &block.attribute(), block.step(), cycle, bytes);
    }
}

// Replaces the buffer by the words of an element, 1 to 7, as it is in a cycle. Element 1 is the data status. The error is 0x1001 if there
// is no such block; otherwise 0x2001, 0x4001, 0x5001 or 0x6001 if it has no name, unit, minimum or maximum. Element 1 can always be read.
// After an error the buffer is unspecified.
pub(crate) fn copy_element(
    buffer: &mut Buffer,
    idn: Idn,
    element: u8,
    cycle: u32,
    store: &Store,
    commands: &Commands,
) -> Result<(), Code>
    requires { (1 ≤ element) × (element ≤ 7) }
    ensures { MatchResult result
        (λ _. (missing idn.raw element store.now ≡ None)
        × ((c : CommandHistory) → CommandsStandFor commands.now c → words_of buffer.new ≡ words_at idn.raw element cycle store.now c))
        (λ code. missing idn.raw element store.now ≡ Some code.raw) }
{
    if element == IDENTIFIER {
        buffer.clear();
        buffer.push_word_within(commands.status(idn, cycle));
        return Ok(());
    }
    let Some(block) = store.find(idn) else {
        return Err(Code::NO_IDN);
    };
    let Some(bytes) = block.element(element) else {
        return Err(Code::missing(element));
    };
    copy_found(buffer, &block, element, cycle, bytes);
    Ok(())
}
