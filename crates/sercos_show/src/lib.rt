//! `show`: the telegrams in lines of frames, or the place at which a line is wrong.
#![tactic(auto)]

mod digits;
mod law;
mod line;
pub mod show;
mod text;

pub use law::{line_law, place_law};
