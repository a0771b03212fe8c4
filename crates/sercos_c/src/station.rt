//! What a handle can hold.

use crate::master_station::MasterStation;
use crate::ring_station::RingStation;
use sercos_drive::Drive;
use sercos_hdlc::Deframer;
use sercos_script::Scripted;

/// A station, of one kind for each kind of handle.
#[derive(Drop)]
pub(crate) enum Station {
    Deframer(Deframer),
    Drive(Drive),
    Links(Scripted),
    Master(MasterStation),
    Ring(RingStation),
}
