//! Several rings on one cycle clock: the merged text of their runs.
#![tactic(auto)]

mod answering;
mod divided;
mod moments;
mod opening;
mod over_memory;
mod own_lines;
mod part;
mod top_call;
mod words;

pub use over_memory::rings_in_memory;
pub use own_lines::lines_law;
pub use top_call::rings;
