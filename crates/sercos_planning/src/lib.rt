//! `plan` and `margin`: the least plan of a ring document, and how far its times can go.
#![tactic(auto)]

mod law;
mod margin_command;
mod plan_text;
mod planning;

pub use law::least_law;
pub use margin_command::margins;
pub use planning::plan;
