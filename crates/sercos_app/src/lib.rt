//! The top call: from words and bytes to a status and bytes.
#![tactic(auto)]

mod backup_command;
mod check_command;
mod counting;
mod gen_command;
mod over_memory;
mod replay;
mod replay_command;
mod restore_command;
mod run_command;
mod running;
mod top_call;
mod tracking;

pub use over_memory::answer_in_memory;
pub use replay::replay_law;
pub use running::write_run;
pub use sercos_script::Clean;
pub use top_call::sercos;
