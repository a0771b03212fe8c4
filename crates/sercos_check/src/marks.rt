// When telegrams are sent in a cycle.
ghost use Rattle.std.specs.Prelude.{◌≡◌, ◌+ℤ◌, pos};
ghost use Rattle.sercos_check.specs.Clauses.{int_eq, end_of, is_after, is_after_mark};

/// The phase that an MST commands, and its cycle.
#[derive(Clone, Copy, Debug, PartialEq, Eq)]
pub struct Command {
    /// The cycle in which it was sent.
    pub cycle: u32,
    /// The phase commanded.
    pub phase: u8,
}

/// When a telegram is sent in its cycle.
#[derive(Clone, Copy, Debug, PartialEq, Eq)]
pub struct Mark {
    /// Its start, in bit times after the MST's end.
    pub start: i32,
    /// Its length, in bits.
    pub bits: u32,
}

/// When a telegram was sent, and the round in which it was noted. Each cycle is a round; rounds are counted from 1 to 255 and then start
/// again.
#[derive(Clone, Copy)]
pub struct Noted {
    /// The round.
    pub round: u8,
    /// Its start and its length.
    pub mark: Mark,
}

/// What the rules for the next telegram need of the one before.
#[derive(Clone, Copy, Debug, PartialEq, Eq)]
pub struct Note {
    /// When the telegram was sent in its cycle.
    pub mark: Mark,
    /// The slave that sent it, if it is an AT.
    pub sender: Option<u8>,
}

impl Mark {
    // Returns the bit time, after the MST's end, that is `bits` bit times after the telegram's end.
    pub fn after(self, bits: u32) -> i64
        ensures { result ≡ end_of self +ℤ pos bits }
    {
        i64::from(self.start) + i64::from(self.bits) + i64::from(bits)
    }

    // Returns whether a bit time is at least `bits` bit times after the telegram's end.
    pub fn is_after(self, bits: u32, time: i64) -> bool
        ensures { result ≡ is_after self bits time }
    {
        self.after(bits) <= time
    }

    // Returns whether the telegram ends at bit time 0, as an MST does.
    pub fn ends_at_zero(self) -> bool
        ensures { result ≡ int_eq (end_of self) (pos 0) }
    {
        self.after(0) == 0
    }
}

// Returns whether a bit time is at least `bits` bit times after a telegram's end. Without a telegram the result is true.
pub fn is_after_mark(mark: Option<Mark>, bits: u32, time: i64) -> bool
    ensures { result ≡ is_after_mark mark bits time }
{
    match mark {
        Some(mark) => mark.is_after(bits, time),
        None => true,
    }
}
