//! The master's end of the service channel (IEC 61491:1995).
#![tactic(auto)]

mod channel;

pub use channel::MasterChannel;
