// How the words of an element are laid out.
ghost use Rattle.std.specs.Prelude.{◌≡◌, ◌≤◌};
ghost use Rattle.sercos_step.specs.Clauses.{length_said, shape_by, as_value, shape_of, words_in};

use sercos_idn::element::{ATTRIBUTE, DATA, IDENTIFIER, NAME, UNIT};
use sercos_idn::{Attribute, Length};

/// How the words of an element are laid out on the service channel (IEC 61491:1995).
#[derive(Clone, Copy, Debug, PartialEq, Eq)]
pub enum Shape {
    /// One word.
    One,
    /// Two words, the low word first.
    Two,
    /// The length in bytes, the greatest length in bytes, and then the bytes two by two.
    List,
}

// The most bytes of a list that are read.
pub const MOST_LIST_BYTES: u16 = 1024;

// Returns the length in the word of an attribute. An invalid word counts as the attribute of a value of two bytes.
fn length_said(word: u32) -> Length
    ensures { result ≡ length_said word }
{
    match Attribute::read(word) {
        Ok(attribute) => attribute.length,
        Err(_) => Length::Two,
    }
}

// Returns the shape of operation data with a length.
fn shape_by(length: Length) -> Shape
    ensures { result ≡ shape_by length }
{
    match length {
        Length::Two => Shape::One,
        Length::Four => Shape::Two,
        Length::List1 | Length::List2 | Length::List4 => Shape::List,
    }
}

// Returns the shape of the minimum or maximum of operation data with a shape. For a list it is one word.
fn as_value(shape: Shape) -> Shape
    ensures { result ≡ as_value shape }
{
    match shape {
        Shape::List => Shape::One,
        Shape::One | Shape::Two => shape,
    }
}

// Returns the shape of an element, 1 to 7, from the word of the attribute. The elements 1 to 4 don't use this word. Any other number counts
// as a minimum.
pub fn shape_of(element: u8, word: u32) -> Shape
    ensures { result ≡ shape_of element word }
{
    match element {
        IDENTIFIER => Shape::One,
        ATTRIBUTE => Shape::Two,
        NAME | UNIT => Shape::List,
        DATA => shape_by(length_said(word)),
        _ => as_value(shape_by(length_said(word))),
    }
}

// Returns the number of words of an element that is read, 1 to 514, from its first word. Only a list uses this word; of its bytes at most
// 1024 are read.
pub fn words_in(shape: Shape, first: u16) -> u16
    ensures value { result ≡ words_in shape first }
    ensures bound { (1 ≤ result) × (result ≤ 514) }
{
    match shape {
        Shape::One => 1,
        Shape::Two => 2,
        Shape::List => 2 + (first.min(MOST_LIST_BYTES) + 1) / 2,
    }
}
