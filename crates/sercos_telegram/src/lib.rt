//! The telegrams of a SERCOS ring: MST, MDT and AT, with their control and status words.
//!
//! The kind of a telegram follows from its place in the cycle, so each reader takes the layout as an argument. A content is what a frame
//! carries: the address byte, and then words of sixteen bits, the low byte first.
#![tactic(auto)]

mod drive;
mod fields;
mod law;
mod layout;
mod master;
mod words;

pub use drive::{At, read_at, write_at};
pub use law::joint_law;
pub use layout::{Kind, Layout};
pub use master::{
    Mst, Record, joint_begin, joint_record, read_joint, read_mst, read_single, write_mst,
    write_single,
};
pub use words::{Control, Status};
