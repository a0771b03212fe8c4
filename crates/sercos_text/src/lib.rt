//! Lines of text with fields: reading a line by its template, up to the first byte that doesn't fit, and writing one.
#![tactic(auto)]

mod digits;
mod law;
mod list;
mod number;
mod room;
mod tail;
mod template;
mod writer;

pub use law::{line_law, list_law, tail_law};
pub use list::Addresses;
pub use number::read_number;
pub use room::{Numbers, Room};
pub use tail::Tail;
pub use template::{Told, read_line};
pub use writer::{Given, Line, piece_of, push_addresses, push_idents, push_line, put_pairs};
