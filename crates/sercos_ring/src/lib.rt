//! The ring: its drives and its master, the link between them, and the totals of its run.
#![tactic(auto)]

mod counting;
mod law;
mod moves;
mod opening;
mod receiving;
mod ring;
mod sending;
mod stations;
mod turns;

pub use counting::{count_cycle, count_made, no_totals};
pub use law::standing_law;
pub use ring::Ring;
