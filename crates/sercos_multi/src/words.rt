// The words of the program.
ghost use Rattle.std.specs.Prelude.{◌≡◌, ◌<◌, ◌∷◌, []};
ghost use Rattle.sercos_multi.specs.Clauses.{form_of, run_form};

use sercos_io::Words;

/// What the words of the program name.
#[derive(Clone, Copy, Debug, PartialEq, Eq)]
pub enum Form {
    /// `run`: the merged text of the rings of several documents.
    Run,
}

// Returns the form of one word: `Run` for `run`, `None` for any other.
#[tactic(auto, unfolding(crate::specs::Words::run_form))]
fn one_form(word: &str) -> Option<Form>
    ensures { result ≡ run_form (word.now ∷ []) }
{
    if word == "run" {
        return Some(Form::Run);
    }
    None
}

// Returns the form of a word alone, which may be `--`: `Run` for `run`, `None` for any other.
fn word_form(word: &str) -> Option<Form>
    ensures { result ≡ form_of (word.now ∷ []) }
{
    if word == "--" {
        return None;
    }
    one_form(word)
}

// Returns the form of two words: `Run` if one is `--` and the other `run`, otherwise `None`.
fn pair_form(first: &str, second: &str) -> Option<Form>
    ensures { result ≡ form_of (first.now ∷ second.now ∷ []) }
{
    if first == "--" {
        return one_form(second);
    }
    if second == "--" {
        return one_form(first);
    }
    None
}

/// Returns the form of the words: `Run` for the word `run`, with at most one word `--` before or after it; `None` for any others.
pub fn form_of(words: &Words) -> Option<Form>
    ensures { result ≡ form_of words.now }
{
    let len = words.len();
    if len == 1 {
        return word_form(words.get(0));
    }
    if len == 2 {
        return pair_form(words.get(0), words.get(1));
    }
    None
}
