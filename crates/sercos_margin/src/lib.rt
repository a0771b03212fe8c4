//! The greatest value of a drive's time, and the shortest cycle time, with which a plan of the ring's time slots still fits.
#![tactic(auto)]

mod changes;
mod law;
mod margins;

pub use changes::{Time, greatest};
pub use law::margin_law;
pub use margins::{least_cycle, margin};
