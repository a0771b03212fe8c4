//! The checker of captures: the shape of a capture, and the rules for its telegrams.
#![tactic(auto)]

mod awaited;
mod checker;
mod drives;
mod law;
mod marks;
mod rule;
mod rules;
mod seen;
mod shape;
mod trouble;

pub use checker::Checker;
pub use law::{rule_law, shape_law, test_law};
pub use rule::Rule;
pub use trouble::Trouble;
