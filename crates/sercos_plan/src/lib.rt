//! The least plan of a ring's time slots, and the chain of inequalities that proves that none fits.
#![tactic(auto)]

mod chain;
mod chaining;
mod checking;
mod least;
mod planning;

pub use chain::{Chain, Link};
pub use checking::check_chain;
pub use planning::plan;
