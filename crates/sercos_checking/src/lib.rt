//! `check`: the verdict on a capture, and its line.
#![tactic(auto)]

pub mod capture;
mod verdict;

pub use verdict::{Verdict, VerdictLine, verdict_line, verdict_status};
