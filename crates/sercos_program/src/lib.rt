//! What the programs share: how they read their words, and how they end.
#![tactic(auto)]

mod arguments;
mod ending;

pub use arguments::given_words;
pub use ending::{exit, unwritten};
