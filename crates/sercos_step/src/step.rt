// A step of the service channel, and the answer to it.

/// A step of the service channel (IEC 61491:1995): the master's order to a drive in one record of an MDT. The handshake bit is not part of
/// it, but of the control word.
#[derive(Clone, Copy, Debug, PartialEq, Eq)]
pub struct Step {
    /// Whether the step writes its word; otherwise it reads one.
    pub write: bool,
    /// Whether the word of the step is the last of the element.
    pub last: bool,
    /// The element of the data block, 0 to 7.
    pub element: u8,
    /// The information word; 0 if the step reads.
    pub word: u16,
}

/// The answer to a step: what an AT shows once the drive isn't busy with it.
#[derive(Clone, Copy, Debug, PartialEq, Eq)]
pub struct Answer {
    /// Whether the drive refuses the step. The word then is the code of the error.
    pub error: bool,
    /// The information word: the word read, 0 after a write, or the code of the error.
    pub word: u16,
}
