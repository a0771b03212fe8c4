//! Documents: tables and where they are, the values under their keys, and the refusals, which have the path of a key.
#![tactic(auto)]

mod keys;
mod line;
mod lists;
mod path;
mod refusal;

pub use keys::Keys;
pub use line::write_refusal;
pub use path::{Path, Place};
pub use refusal::BadDocument;
