//! The master's end of the ring: its phases, the start-up of the drives, the plan, and the requests.
#![tactic(auto)]

mod counts;
mod ending;
mod hearing;
mod law;
mod lookup;
mod master;
mod opening;
mod planning;
mod reports;
mod ring;
mod seats;
mod sending;
mod tasks;

pub use law::master_law;
pub use master::{AboveCp0, AnyMaster, Cp0, Cp1, Cp2, Cp3, Cp4, Master};
