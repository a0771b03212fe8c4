// Parts of replies, appended to the bytes that are written in the end. After an `AllocError` the content of `out` is unspecified.
ghost use Rattle.std.specs.Prelude.{◌≡◌, ◌++◌, OnOk, decimal};
ghost use Rattle.sercos_answer.specs.Clauses.{two_numbers};

use itoa::Buffer;
use std::alloc::AllocError;

/// Appends the bytes of a text. The error is `AllocError`.
pub fn push_text(text: &str, out: &mut Vec<u8>) -> Result<(), AllocError>
    ensures { OnOk result (out.new.items ≡ out.old.items ++ text.now) }
{
    out.extend_from_slice(text.as_bytes())
}

/// Appends a number in decimal digits. The error is `AllocError`.
pub fn push_number(number: u64, out: &mut Vec<u8>) -> Result<(), AllocError>
    ensures { OnOk result (out.new.items ≡ out.old.items ++ decimal number) }
{
    let mut buffer = Buffer::new();
    out.extend_from_slice(buffer.format(number).as_bytes())
}

/// Appends two texts, each followed by its number in decimal digits: `first`, `a`, `second`, `b`. The error is `AllocError`.
#[tactic(auto, unfolding(crate::specs::Answer::two_numbers))]
pub fn push_two_numbers(
    first: &str,
    a: u64,
    second: &str,
    b: u64,
    out: &mut Vec<u8>,
) -> Result<(), AllocError>
    ensures { OnOk result (out.new.items ≡ out.old.items ++ two_numbers first.now a second.now b) }
{
    push_text(first, out)?;
    push_number(a, out)?;
    push_text(second, out)?;
    push_number(b, out)
}
