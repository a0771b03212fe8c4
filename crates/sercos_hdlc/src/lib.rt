//! Frames of ISO/IEC 3309: the bits that a content is sent as, and the content of bits that arrive whole or in pieces, or why they are not
//! a frame.
#![tactic(auto)]

mod bad_frame;
mod deframer;
mod flags;
mod framing;
mod given;
mod group;
mod kept;
mod plain_bytes;
mod reading;
mod scan;
mod stuffing;
mod tables;

pub use bad_frame::BadFrame;
pub use deframer::{Deframer, unframe};
pub use framing::{TooLong, frame, frame_len, framing_law};
pub use reading::frame_law;
