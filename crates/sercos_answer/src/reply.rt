// The reply of a command.
use sercos_io::Status;

/// The reply of a command: its status, and the bytes that are to be written.
#[derive(Drop)]
pub struct Reply {
    /// The status with which the command ends.
    pub status: Status,
    /// The bytes that are to be written.
    pub text: Vec<u8>,
}
