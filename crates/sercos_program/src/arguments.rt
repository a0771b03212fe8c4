// The words with which a program is called.
ghost use Rattle.std.specs.Prelude.{◌≡◌, ◌≢◌, ◌⊎◌, Err, IfErr, IfOk, MatchResult, drop, map, string_bytes};
ghost use Rattle.std.specs.IoError.{error_kind};
ghost use Rattle.std.specs.Vec.Iter.{into_iter_items};

use sercos_io::{Status, Words};
use std::alloc::Global;
use std::env::Args;
use std::io::ErrorKind;
use std::rt::Env;
use std::{env, io};

// Returns the status if std can't read the words: `Memory` if it is out of memory, otherwise `BadWords`, since a word that isn't UTF-8 text
// is not a word of a command.
fn unread(kind: ErrorKind) -> Status
    ensures no_memory { kind ≡ ErrorKind.OutOfMemory → result ≡ Status.Memory }
    ensures no_text { kind ≢ ErrorKind.OutOfMemory → result ≡ Status.BadWords }
{
    match kind {
        ErrorKind::OutOfMemory => Status::Memory,
        _ => Status::BadWords,
    }
}

// Returns the words after the first one, which is the program's name, in their order. The error is `Memory` if there is no memory for them.
fn words_after_name(alloc: Global, mut arguments: Args) -> Result<Words, Status>
    ensures words { IfOk result (λ words. words ≡ map string_bytes (drop 1 (into_iter_items arguments))) }
    ensures no_memory { IfErr result (λ status. status ≡ Status.Memory) }
{
    let _name = arguments.next();
    let mut words = Words::new(alloc);
    while let Some(argument) = arguments.next() {
        if words.push(argument.as_str()).is_err() {
            return Err(Status::Memory);
        }
    }
    Ok(words)
}

// Returns the words after the program's name from what std returns as the arguments. An error of std becomes the status of `unread`; the
// only other error is `Memory`.
fn words_of(alloc: Global, arguments: io::Result<Args>) -> Result<Words, Status>
    ensures words { IfOk arguments (λ all. MatchResult result
        (λ words. words ≡ map string_bytes (drop 1 (into_iter_items all)))
        (λ status. status ≡ Status.Memory)) }
    ensures no_memory { IfErr arguments (λ error. error_kind error ≡ ErrorKind.OutOfMemory → result ≡ Err Status.Memory) }
    ensures no_text { IfErr arguments (λ error. error_kind error ≢ ErrorKind.OutOfMemory → result ≡ Err Status.BadWords) }
{
    match arguments {
        Ok(arguments) => words_after_name(alloc, arguments),
        Err(error) => Err(unread(error.kind())),
    }
}

/// Returns the words after the program's name, in their order. The error is `Memory` if memory runs out, and `BadWords` if std can't read
/// the words for another reason, such as a word that isn't UTF-8 text. This contract has neither the words nor the cause of an error, since
/// std specifies nothing of what `args` returns. That of `words_of` relates them to it.
pub fn given_words(rt: &(impl Env + Alloc<A = Global>)) -> Result<Words, Status>
    ensures { IfErr result (λ status. (status ≡ Status.Memory) ⊎ (status ≡ Status.BadWords)) }
{
    words_of(rt.alloc(), env::args(rt))
}
