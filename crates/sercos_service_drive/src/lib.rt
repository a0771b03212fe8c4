//! The drive's end of the service channel (IEC 61491:1995): the steps that it accepts, its replies, its writes, and what an AT shows.
#![tactic(auto)]

mod causes;
mod channel;
mod copying;
mod data;
mod law;
mod session;
mod writing;

pub use channel::DriveChannel;
pub use data::{push_data, push_grown};
pub use law::writes_law;
