// Why a capture is refused.

/// Why a text is not a clean capture. Lines are counted from 1.
#[derive(Clone, Copy, Debug, PartialEq, Eq)]
pub enum Trouble {
    /// A telegram breaks a rule.
    Violation {
        /// Its line.
        line: u32,
        /// The number of the lowest [`Rule`](crate::Rule) that it breaks.
        rule: u8,
    },
    /// A line can't follow those before it, or the text ends within the head.
    Grammar {
        /// The line; one past the last line if the head is incomplete.
        line: u32,
    },
}
