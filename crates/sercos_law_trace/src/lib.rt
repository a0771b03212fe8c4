//! Laws, without code, on the trace of a run: its outcomes are exact, and it keeps the rules of a capture.
#![tactic(auto)]

mod clean_laws;
mod told_laws;
mod write_laws;

pub use clean_laws::clean_law;
pub use told_laws::told_law;
pub use write_laws::write_law;
