//! The words of the commands: which lists of them name one.
#![tactic(auto)]

mod form;

pub use form::{Form, form_of};
