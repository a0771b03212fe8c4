// The parts of an input.
use itoa::Buffer;
use std::alloc::{AllocError, Global};
use std::test::Fail;

/// A text after edits, each `OLD => NEW` for the first OLD, with ` & ` between them.
pub fn edited(alloc: Global, text: String, edits: &str) -> Result<String, Fail> {
    let mut text = text;
    for edit in edits.split_terminator(" & ") {
        let Some((old, new)) = edit.split_once(" => ") else {
            return Err(Fail::new("an edit without its arrow"));
        };
        if !text.as_str().contains(old) {
            return Err(Fail::new(format_args!("nothing to edit: {old}")));
        }
        text = text.as_str().replacen(alloc, old, new, 1)?;
    }
    Ok(text)
}

/// Appends a text as often as it fits into a number of bytes.
pub fn fill(alloc: Global, text: &mut String, with: &str, room: usize) -> Result<(), AllocError> {
    if !with.is_empty() {
        let count = room.saturating_sub(text.as_str().len()) / with.len();
        text.push_str(with.repeat(alloc, count)?.as_str())?;
    }
    Ok(())
}

/// Appends a key of a document with a number, as a line. `write!` would cost the proof half a minute.
pub fn push_number(text: &mut String, key: &str, number: u32) -> Result<(), AllocError> {
    let mut digits = Buffer::new();
    text.push_str(key)?;
    text.push_str(" = ")?;
    text.push_str(digits.format(number))?;
    text.push_str("\n")
}
