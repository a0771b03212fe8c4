// The words of the commands.
ghost use Rattle.std.specs.Prelude.{◌≡◌, ◌≤◌, ◌<◌, ◌⊎◌, [], ◌∷◌, IfOk, IfSome, None, Ok, length, map};
ghost use Rattle.sercos_words.specs.Clauses.{app_of, command_line, word_form, number_named, gen_form, replay_form, plain_form, form_of, HasNumber};

use clap::error::ErrorKind;
use clap::{Arg, Command};
use sercos_io::Words;
use std::alloc::{AllocError, Global};

/// A command, with its number, as the words name it.
#[derive(Clone, Copy, Debug, PartialEq, Eq)]
pub enum Form {
    /// `show`: lines of frames are answered by their bytes.
    Show,
    /// `plan`: a ring document is answered by the least plan of its time slots.
    Plan,
    /// `margin`: a ring document is answered by how far the times of its drives can go, and by its least cycle time.
    Margin,
    /// `run`: a ring document is answered by the trace of its run.
    Run,
    /// `check`: a capture is answered by whether its telegrams keep the rules of a ring.
    Check,
    /// `gen`: the summary of the run of a generated ring of 1 to 64 drives.
    Gen(u8),
    /// `backup`: a ring document is answered by the saved data of the blocks on its drives' lists of backup operation data.
    Backup,
    /// `restore`: a ring document that writes operation data is answered by what the drives then have.
    Restore,
    /// `replay`: for a ring document and a capture, where the station with an address, 0 to 254, first deviated from its rules. The master
    /// has the address 0.
    Replay(u8),
}

// Returns the form of the one word of a command without a number; `None` if the word is no such command.
#[tactic(auto, unfolding(crate::specs::Form::word_form))]
fn word_form(word: &str) -> Option<Form>
    ensures value { result ≡ word_form word.now }
    ensures range { IfSome result HasNumber }
{
    match word {
        "show" => Some(Form::Show),
        "plan" => Some(Form::Plan),
        "margin" => Some(Form::Margin),
        "run" => Some(Form::Run),
        "check" => Some(Form::Check),
        "backup" => Some(Form::Backup),
        "restore" => Some(Form::Restore),
        _ => None,
    }
}

// Returns the number from `first` to `last`, at most 255, that a word spells in decimal digits, without leading zeros; `None` if it spells
// none of these.
fn number_named(first: u32, last: u32, word: &str) -> Option<u8>
    requires { last ≤ 255 }
    ensures value { result ≡ number_named first last word.now }
    ensures range { IfSome result (λ number. (first ≤ number) × (number ≤ last)) }
{
    match sercos_text::read_number(word.as_bytes(), last) {
        Ok((len, number)) if len == word.len() && number >= first => Some(number as u8),
        _ => None,
    }
}

// Returns the form of a command, `gen` or `replay`, and its number; `None` if the words are not such a form. The number of drives of `gen`
// is 1 to 64, the address of `replay` 0 to 254.
#[tactic(auto, unfolding(crate::specs::Form::plain_form, crate::specs::Form::number_form, crate::specs::Form::gen_form, crate::specs::Form::replay_form))]
fn number_form(word: &str, number: &str) -> Option<Form>
    ensures value { result ≡ plain_form (word.now ∷ number.now ∷ []) }
    ensures range { IfSome result HasNumber }
{
    match word {
        "gen" => match number_named(1, 64, number) {
            Some(drives) => Some(Form::Gen(drives)),
            None => None,
        },
        "replay" => match number_named(0, 254, number) {
            Some(address) => Some(Form::Replay(address)),
            None => None,
        },
        _ => None,
    }
}

// Returns the command line as `clap` reads it: a command and its number, each of which may be missing. It has no help and no version of its
// own. The error is `AllocError`.
fn command_line<'a>(alloc: Global) -> Result<Command<'a>, AllocError>
    ensures { IfOk result (λ command. app_of command ≡ command_line) }
{
    let command = Arg::new(alloc, "command");
    let number = Arg::new(alloc, "number");
    Command::new(alloc, "sercos")
        .no_binary_name(true)
        .disable_help_flag(true)
        .disable_version_flag(true)
        .arg(command)?
        .arg(number)
}

// Returns the form of words, as `form_of` lists the forms; `None` for any other words, among them all those that `clap` refuses. One word
// `--` may be anywhere among them. The number of `gen` is 1 to 64, that of `replay` 0 to 254. The error is `AllocError`.
fn read_form(alloc: Global, words: &[&str]) -> Result<Option<Form>, AllocError>
    ensures value { IfOk result (λ form. form ≡ form_of (map (λ word. word.now) words.now)) }
    ensures range { IfOk result (λ form. IfSome form HasNumber) }
{
    match command_line(alloc)?.try_get_matches_from(words) {
        Ok(matches) => Ok(matched_form(matches.get_str("command"), matches.get_str("number"))),
        Err(error) => match error.kind() {
            ErrorKind::OutOfMemory => Err(AllocError),
            _ => Ok(None),
        },
    }
}

// Returns the form of the command and the number that `clap` found; `None` without a command, or if these are not a form.
#[tactic(auto, unfolding(crate::specs::Form::plain_form))]
fn matched_form(word: Option<&str>, number: Option<&str>) -> Option<Form>
    ensures none { word.entry ≡ None → result ≡ None }
    ensures word { IfSome word.entry (λ word. number.entry ≡ None → result ≡ plain_form (word.now ∷ [])) }
    ensures number { IfSome word.entry (λ word. IfSome number.entry (λ number.
        result ≡ plain_form (word.now ∷ number.now ∷ []))) }
    ensures range { IfSome result HasNumber }
{
    match (word, number) {
        (Some(word), Some(number)) => number_form(word, number),
        (Some(word), None) => word_form(word),
        (None, _) => None,
    }
}

/// Returns the form of the words: one word, `show`, `plan`, `margin`, `run`, `check`, `backup` or `restore`; or `gen` and a number from 1
/// to 64, or `replay` and one from 0 to 254, in decimal digits without leading zeros. One word `--` may be anywhere among them. The result
/// is `None` for any other words. The error is `AllocError`; it is returned only for one to three words, since no other number of words
/// needs memory.
pub fn form_of(alloc: Global, words: &Words) -> Result<Option<Form>, AllocError>
    ensures count { (words.now ≡ []) ⊎ (3 < length words.now) → result ≡ Ok None }
    ensures value { IfOk result (λ form. form ≡ form_of words.now) }
    ensures range { IfOk result (λ form. IfSome form HasNumber) }
{
    match words.len() {
        1 => read_form(alloc, &[words.get(0)]),
        2 => read_form(alloc, &[words.get(0), words.get(1)]),
        3 => read_form(alloc, &[words.get(0), words.get(1), words.get(2)]),
        _ => Ok(None),
    }
}
