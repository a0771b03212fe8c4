// The rules on a line of `show`, stated on its bits, and the place at which a line is refused.
ghost use Rattle.std.specs.Prelude.{◌≡◌, ℕ, ◌≤◌, Bool, List, Some, None, length};
ghost use Rattle.sercos_show.specs.Clauses.{kind_of, line_fault, line_bits, IsLine, IsRefusedAt, LineKind};

/// States that a line of `show` has no fault iff it is the line `KIND COUNT HEX` of some bits, which are then those that are read, with
/// that kind. So a line is read as one list of bits at most, of one kind, and each list of at most 19696 bits has a line of each kind. The
/// function does nothing.
pub fn line_law()
    ensures spelled { (line : List ℕ) → line_fault line ≡ None
        → (kind : LineKind) × (kind_of line ≡ Some kind) × IsLine kind line (line_bits line) }
    ensures taken { (kind : LineKind) (line : List ℕ) (bits : List Bool) → IsLine kind line bits
        → (line_fault line ≡ None) × (kind_of line ≡ Some kind) × (line_bits line ≡ bits) }
    ensures written { (kind : LineKind) (bits : List Bool) → length bits ≤ 19696
        → (line : List ℕ) × IsLine kind line bits }
{}

/// States why a line is refused at a place. The bytes before the place begin a line of some bits, and with the byte at the place they
/// don't. If the place is the end of the line, the line is incomplete. There are two exceptions: a COUNT above 19696 is refused at its
/// first digit, and a pair of digits at its first digit, if only its second one shows that a bit after the last one is 1. The function does
/// nothing.
pub fn place_law()
    ensures { (line : List ℕ) (place : ℕ) → line_fault line ≡ Some place → IsRefusedAt line place }
{}
