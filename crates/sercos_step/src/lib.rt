//! The service channel: its steps and their answers, and the transfers that consist of them.
#![tactic(auto)]

mod law;
mod progress;
mod reading;
mod request;
mod shape;
mod step;
mod transfer;
mod writing;

pub use law::{counts_law, steps_law};
pub use request::{Job, Outcome, Request};
pub use step::{Answer, Step};
pub use transfer::Transfer;
pub use writing::word_at;
