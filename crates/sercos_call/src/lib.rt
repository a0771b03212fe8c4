//! What a top call does with its source and its sink, regardless of its answer.
#![tactic(auto)]

mod giving;

pub use giving::{fault_status, give_if_made, give_or_refuse, refuse};
