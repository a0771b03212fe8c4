// What a transfer must do, and how it ends.
use sercos_bits::Bytes;
use sercos_idn::{Code, Idn};

/// What a transfer must do on the service channel (IEC 61491:1995).
#[derive(Debug, PartialEq, Eq, Drop)]
pub enum Request {
    /// Reads an element, 1 to 7. Element 1 returns the data status.
    Read {
        /// The identifier number of the data block.
        idn: Idn,
        /// The element.
        element: u8,
    },
    /// Writes an element, 2 to 7.
    Write {
        /// The identifier number of the data block.
        idn: Idn,
        /// The element.
        element: u8,
        /// The bytes to write. Those of a number are in order from the low byte on.
        bytes: Bytes,
    },
    /// Sets a procedure command, waits for its end and cancels it.
    Command {
        /// The identifier number of the procedure command.
        idn: Idn,
    },
}

/// A request to a drive. A master may be opened with jobs for which `AreJobs` of `specs/Jobs.antt` holds.
#[derive(Debug, PartialEq, Eq, Drop)]
pub struct Job {
    /// The drive's address.
    pub drive: u8,
    /// What the drive must do.
    pub request: Request,
}

/// How a transfer ended.
#[derive(Debug, Default, PartialEq, Eq, Drop)]
pub enum Outcome {
    /// All steps were answered. The value is empty for a write. For a read it has the element's bytes, and for a procedure command the two
    /// bytes of the last data status.
    Complete(Bytes),
    /// The drive refused a step with this code.
    Refused(Code),
    /// The ring fell to phase 0 before the transfer ended.
    #[default]
    Broken,
}
