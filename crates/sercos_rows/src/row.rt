// A row: the words and the input of a program, and what it must answer.
use crate::answering::{NotRun, SOUND_READS, SOUND_WRITES, answer_by};
use crate::inputs::{edited, fill};
use sercos_io::Status;
use std::alloc::Global;
use std::str::from_utf8;
use std::test::Fail;

// The most bytes of an input.
const MOST: usize = 1_048_576;

/// A row of a table.
#[derive(Clone, Copy)]
pub struct Row {
    /// What it shows.
    pub shows: &'static str,
    /// The program, and its words.
    pub words: &'static str,
    /// The texts that its input is made from, one after the other. After them is what the test makes.
    pub texts: &'static [&'static str],
    /// The edits of that, each `OLD => NEW` for the first OLD, with ` & ` between them.
    pub edits: &'static str,
    /// What is appended, as often as it fits into this number of bytes.
    pub fill: &'static str,
    pub room: usize,
    /// What is appended then.
    pub more: &'static str,
    /// The status with which it ends.
    pub status: Status,
    /// Lines of its output, in this order, and how often they come. A `?` stands for any byte, and a `*` at the end for any rest.
    pub lines: &'static str,
    pub times: usize,
    /// Forms of lines, with `|` between them. The output has no line of such a form but those above.
    pub only: &'static str,
}

/// The defaults of a row: an empty input, and an output of the named lines alone.
pub const PLAIN: Row = Row {
    shows: "",
    words: "",
    texts: &[],
    edits: "",
    fill: "",
    room: MOST,
    more: "",
    status: Status::Done,
    lines: "",
    times: 1,
    only: "*",
};

/// A row that fails, and why.
pub fn failed(row: &Row, why: &str) -> Fail {
    let shows = row.shows;
    Fail::new(format_args!("{shows}: {why}"))
}

/// The input of a row. After its texts is what the test makes.
pub fn input_of(alloc: Global, row: &Row, given: &str) -> Result<String, Fail> {
    let mut text = row.texts.concat(alloc)?;
    text.push_str(given)?;
    let mut text = edited(alloc, text, row.edits)?;
    fill(alloc, &mut text, row.fill, row.room)?;
    text.push_str(row.more)?;
    Ok(text)
}

/// The output of a row's program, with what a test makes, over links under the script of a document, if one is handed in.
pub fn output(alloc: Global, row: &Row, given: &str, script: Option<&str>) -> Result<String, Fail> {
    let input = input_of(alloc, row, given)?;
    let input = input.as_str().as_bytes();
    let (status, sink) = answer_by(alloc, row.words, input, SOUND_READS, SOUND_WRITES, script)?;
    if status != row.status {
        return Err(failed(row, status.name()));
    }
    Ok(String::from_str(alloc, from_utf8(sink.as_slice())?)?)
}

// Returns whether a line has a form.
fn has_form(line: &str, form: &str) -> bool {
    let start = form.strip_suffix("*").unwrap_or(form);
    if line.len() < start.len() || start.len() == form.len() && line.len() != form.len() {
        return false;
    }
    for (wanted, byte) in start.as_bytes().iter().zip(line.as_bytes()) {
        if *wanted != b'?' && wanted != byte {
            return false;
        }
    }
    true
}

// Returns whether a line has one of several forms.
fn has_some_form(line: &str, forms: &str) -> bool {
    for form in forms.split("|") {
        if has_form(line, form) {
            return true;
        }
    }
    false
}

// The first line of an output that mustn't be there, or the first of the wanted lines that isn't.
fn fault_in<'a>(output: &'a str, wanted: &'a str, only: &str) -> Option<&'a str> {
    let mut forms = wanted.lines();
    let mut next = forms.next();
    for line in output.split_terminator("\n") {
        match next {
            Some(form) if has_form(line, form) => next = forms.next(),
            _ if has_some_form(line, only) => return Some(line),
            _ => {}
        }
    }
    next
}

/// What is wrong with the answer to a row's input, over links under the script of a document, if one is handed in: another status, an end
/// without a line feed, or the line that mustn't be there or isn't.
pub fn fault_of(
    alloc: Global,
    row: &Row,
    input: &str,
    script: Option<&str>,
) -> Result<Option<String>, NotRun> {
    let input = input.as_bytes();
    let (status, sink) = answer_by(alloc, row.words, input, SOUND_READS, SOUND_WRITES, script)?;
    if status != row.status {
        return Ok(Some(String::from_str(alloc, status.name())?));
    }
    let Ok(output) = from_utf8(sink.as_slice()) else {
        return Ok(Some(String::from_str(alloc, "no text")?));
    };
    if !output.is_empty() && !output.ends_with("\n") {
        return Ok(Some(String::from_str(alloc, "no line feed at the end")?));
    }
    let wanted = row.lines.repeat(alloc, row.times)?;
    match fault_in(output, wanted.as_str(), row.only) {
        None => Ok(None),
        Some(line) => Ok(Some(String::from_str(alloc, line)?)),
    }
}

/// Fails if something is wrong with the answer to a row, with what a test makes, over links under the script of a document, if one is
/// handed in.
pub fn check_over(alloc: Global, row: &Row, given: &str, script: Option<&str>) -> Result<(), Fail> {
    let input = input_of(alloc, row, given)?;
    match fault_of(alloc, row, input.as_str(), script)? {
        None => Ok(()),
        Some(fault) => Err(failed(row, fault.as_str())),
    }
}

/// Fails if something is wrong with the answer to a row of a table, with what a test makes.
pub fn check(alloc: Global, rows: &[Row], given: &str) -> Result<(), Fail> {
    for row in rows {
        check_over(alloc, row, given, None)?;
    }
    Ok(())
}
