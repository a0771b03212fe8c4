//! The replay of one end of a ring against a capture: where a drive or the master first deviated from its rules. And the answer of
//! `replay A`, to an input that a line `capture` divides into a ring document and a capture.
#![tactic(auto)]

mod difference;
mod divided;
mod drive_replay;
mod law;
mod lines;
mod master_replay;
mod place_text;
mod replaying;
mod station;
mod undisturbed;

pub use difference::Difference;
pub use divided::{capture_part, capture_place, document_part};
pub use drive_replay::DriveReplay;
pub use law::{agreement_law, asking_law, capture_law};
pub use master_replay::MasterReplay;
pub use replaying::{replay_document, undivided_reply};
pub use undisturbed::undisturbed_law;
