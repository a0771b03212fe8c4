// The control word and the status word.
ghost use Rattle.std.specs.Prelude.{◌≡◌, ℕ, ◌*◌, ◌/◌, ◌%◌, ◌<◌, ◌≤◌, ◌==◌, if◌then◌else◌};

// The bits of the control word, as powers of two. The element has the three bits from bit 3 on, and the cyclic bits begin with bit 6.
const MHS: u16 = 1;

const WRITE: u16 = 2;

const LAST: u16 = 4;

const ELEMENT_FACTOR: u16 = 8;

const ELEMENT_COUNT: u16 = 8;

const CONTROL_CYCLIC: u16 = 64;

// The bits of the status word, as powers of two. The cyclic bits are bits 3 and 4, and those from bit 6 on.
const AHS: u16 = 1;

const BUSY: u16 = 2;

const ERROR: u16 = 4;

const CHANGE: u16 = 32;

const STATUS_LOW: u16 = 8;

const STATUS_HIGH: u16 = 64;

// Returns whether a word has a bit. The bit is passed as a power of two.
fn has(word: u16, bit: u16) -> bool
    requires { 0 < bit }
    ensures { result ≡ (word / bit % 2 == 1) }
{
    word / bit % 2 == 1
}

// Returns `bit` if `set` is true, otherwise 0.
fn placed(set: bool, bit: u16) -> u16
    ensures value { result ≡ (if set then bit else 0) }
    ensures bound { result ≤ bit }
{
    if set { bit } else { 0 }
}

/// The control word, with which a record of an MDT begins (IEC 61491:1995). The places of its bits are taken after the standard.
#[derive(Clone, Copy, Debug, PartialEq, Eq)]
pub struct Control {
    /// MHS, the master's handshake bit of the service channel: bit 0.
    pub mhs: bool,
    /// Whether the step writes its word, otherwise it reads one: bit 1.
    pub write: bool,
    /// Whether the word of the step is the last of the element: bit 2.
    pub last: bool,
    /// The element of the data block, 0 to 7: bits 5 to 3.
    pub element: u8,
    /// The other bits, 15 to 6, at their places. This profile reads any value, and its stations send 0.
    pub cyclic: u16,
    ghost element_in_range: { element < 8 },
    ghost cyclic_apart: { cyclic % 64 ≡ 0 },
}

impl Control {
    ghost use Rattle.sercos_telegram.specs.Words.{control_word, control_of};

    /// Returns the control word of sixteen bits. Every value is one, and `write` returns it again.
    #[tactic(auto, unfolding(crate::specs::Words::control_of))]
    pub fn read(word: u16) -> Control
        ensures value { result ≡ control_of word }
        ensures word { control_word result ≡ word }
        ensures only { (control : Control) → control_word control ≡ word → result ≡ control }
    {
        Control {
            mhs: has(word, MHS),
            write: has(word, WRITE),
            last: has(word, LAST),
            element: (word / ELEMENT_FACTOR % ELEMENT_COUNT) as u8,
            cyclic: word / CONTROL_CYCLIC * CONTROL_CYCLIC,
        }
    }

    /// Returns the sixteen bits of the control word.
    pub fn write(&self) -> u16
        ensures { result ≡ control_word self.now }
    {
        self.cyclic
            + placed(self.mhs, MHS)
            + placed(self.write, WRITE)
            + placed(self.last, LAST)
            + ELEMENT_FACTOR * u16::from(self.element)
    }
}

/// The status word, which follows the address of an AT (IEC 61491:1995). The places of its bits are taken after the standard.
#[derive(Clone, Copy, Debug, PartialEq, Eq)]
pub struct Status {
    /// AHS, the drive's handshake bit of the service channel: bit 0.
    pub ahs: bool,
    /// Whether the drive is busy with the step: bit 1.
    pub busy: bool,
    /// Whether the information word is the code of an error: bit 2.
    pub error: bool,
    /// Whether a procedure command has ended: bit 5.
    pub change: bool,
    /// The other bits, 3, 4 and 15 to 6, at their places. This profile reads any value, and its stations send 0.
    pub cyclic: u16,
    ghost cyclic_low: { cyclic % 8 ≡ 0 },
    ghost cyclic_apart: { cyclic % 64 < 32 },
}

impl Status {
    ghost use Rattle.sercos_telegram.specs.Words.{status_word, status_of};

    /// Returns the status word of sixteen bits. Every value is one, and `write` returns it again.
    #[tactic(auto, unfolding(crate::specs::Words::status_of))]
    pub fn read(word: u16) -> Status
        ensures value { result ≡ status_of word }
        ensures word { status_word result ≡ word }
        ensures only { (status : Status) → status_word status ≡ word → result ≡ status }
    {
        Status {
            ahs: has(word, AHS),
            busy: has(word, BUSY),
            error: has(word, ERROR),
            change: has(word, CHANGE),
            cyclic: word / STATUS_HIGH * STATUS_HIGH + word % CHANGE / STATUS_LOW * STATUS_LOW,
        }
    }

    /// Returns the sixteen bits of the status word.
    pub fn write(&self) -> u16
        ensures { result ≡ status_word self.now }
    {
        self.cyclic
            + placed(self.ahs, AHS)
            + placed(self.busy, BUSY)
            + placed(self.error, ERROR)
            + placed(self.change, CHANGE)
    }
}
