//! The status with which a command ends.
ghost use Rattle.std.specs.Prelude.{◌≡◌};

/// The status with which a command ends, in the order of the exit statuses 0 to 7 (this profile).
#[derive(Clone, Copy, Debug, PartialEq, Eq)]
pub enum Status {
    /// The command did its work: 0.
    Done,
    /// The answer is no, and the output has the reason: 1.
    No,
    /// The words are not a command: 2.
    BadWords,
    /// The input is refused, and the output has the reason: 3.
    Refused,
    /// The input could not be read: 4.
    ReadFault,
    /// The output could not be written: 5.
    WriteFault,
    /// Out of memory: 6.
    Memory,
    /// The input has more than 1,048,576 bytes: 7.
    TooLong,
}

impl Status {
    ghost use Rattle.sercos_io.specs.Status.{status_code, status_name};

    /// Returns the exit status, 0 to 7.
    pub fn code(self) -> u8
        ensures { result ≡ status_code self }
    {
        self as u8
    }

    /// Returns the name of the status, such as `BadWords`.
    pub fn name(self) -> &'static str
        ensures { result.now ≡ status_name self }
    {
        match self {
            Status::Done => "Done",
            Status::No => "No",
            Status::BadWords => "BadWords",
            Status::Refused => "Refused",
            Status::ReadFault => "ReadFault",
            Status::WriteFault => "WriteFault",
            Status::Memory => "Memory",
            Status::TooLong => "TooLong",
        }
    }
}
