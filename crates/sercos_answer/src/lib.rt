//! The reply of a command, a status and a text, with the texts that several replies share; and the lines of a command's input.
#![tactic(auto)]

mod lines;
mod reply;
mod text;

pub use lines::cut_line;
pub use reply::Reply;
pub use text::{push_number, push_text, push_two_numbers};
