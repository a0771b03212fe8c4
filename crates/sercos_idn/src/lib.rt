//! Identifier numbers of data blocks, their elements, attributes and procedure commands, and the codes of the service channel's errors.
#![tactic(auto)]

mod attribute;
mod code;
pub mod command;
pub mod element;
mod idn;
mod kinds;
mod law;

pub use attribute::{Attribute, BadAttribute};
pub use code::Code;
pub use idn::{BadIdn, Idn, idn_fault};
pub use kinds::{Form, Length};
pub use law::{attribute_law, code_law, place_law};
