//! Scripts of faults: which telegrams of a ring are damaged in which cycles, and which stations restart; and the links that apply a script.
#![tactic(auto)]

mod effect;
mod fault;
mod gathered;
mod lanes;
mod link;
mod path;
mod script;
mod stretches;

pub use fault::{Damage, Fault};
pub use link::{BitLink, Both, Clean, Passage};
pub use script::Scripted;
