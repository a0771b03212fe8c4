//! A drive of the ring (IEC 61491:1995): its phase, the MDTs that it accepts, its writes, and the ATs that it sends.
#![tactic(auto)]

mod drive;
mod feedback;
mod hearing;
mod law;
mod slot;

pub use drive::Drive;
pub use law::drive_law;
