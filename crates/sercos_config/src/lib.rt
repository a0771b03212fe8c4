//! Ring documents: the ring that a TOML text describes, or the first reason to refuse it.
#![tactic(auto)]

mod block;
mod data;
mod document;
mod drive;
mod fault;
mod generated;
mod request;
mod ring;
mod words;

pub use document::{Document, read_ring};
pub use generated::generate;
pub use sercos_document::{BadDocument, Path, write_refusal};
