//! The procedure commands of a drive, and the two transition checks, without which it doesn't enter phases 3 and 4 (IEC 61491:1995).
#![tactic(auto)]

mod carried;
mod check;
mod commands;
mod law;
mod passed;
mod rules;
mod run;
mod set;
mod stored;

pub use carried::{carried_len, idns_at, number_at};
pub use check::{check127, check128};
pub use commands::Commands;
pub use law::command_law;
pub use stored::{is_command, stored_law};
