//! One drive as the master sees it: its channel, its tasks, its answers, and the requests that wait.
#![tactic(auto)]

mod answers;
mod member;
mod queue;
mod seat;

pub use member::{Member, Numbers};
pub use seat::Seat;
