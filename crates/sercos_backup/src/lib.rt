//! The backup of drive data over S-0-0192, and its restore: the requests, their outcomes, and the texts.
#![tactic(auto)]

mod jobs;
mod replies;
mod saved;
mod texts;
mod tracked;

pub use jobs::{DataJobs, data_jobs, list_jobs, place_of_other};
pub use replies::{failed_reply, many_reply, other_reply, saved_reply};
pub use saved::write_saved;
pub use texts::push_restored;
pub use tracked::{Tracked, all_well, lists_told, note, track};
