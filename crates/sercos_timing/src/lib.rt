//! The times that drives declare, the planner's input, the plan of the time slots, and the inequalities between them.
#![tactic(auto)]

mod asked;
mod fitting;
mod frame_bits;
mod inequality;
mod law;
pub mod limits;
mod plan;
mod validity;
mod wishes;

pub use asked::{asked_of_start, bits_after};
pub use fitting::{Broken, fits};
pub use frame_bits::wire;
pub use inequality::Inequality;
pub use law::{first_broken_law, valid_law};
pub use plan::Plan;
pub use validity::{is_address, is_control, is_cycle, is_rate, valid};
pub use wishes::{Times, Wish, Wishes};
