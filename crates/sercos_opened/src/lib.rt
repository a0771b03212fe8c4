//! Rings that may be opened with their requests, and what is kept in their runs: laws, and no code.
#![tactic(auto)]

mod law;

pub use law::kept_law;
