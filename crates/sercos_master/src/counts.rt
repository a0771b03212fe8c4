// What is counted from cycle to cycle.
ghost use Rattle.std.specs.Prelude.{◌≡◌, ◌+◌, ◌<◌, ◌==◌, ◌&&◌, false, not, min, nat_le, Option, Some, None, if◌then◌else◌};
ghost use Rattle.sercos_master.specs.Clauses.{is_place, is_same, waited_with};

// Returns whether the own MST is lost in a cycle: the phase commanded is above 0, and the MST didn't return intact.
pub fn lost_with(phase: u8, whole: bool) -> bool
    ensures { result ≡ (nat_le 1 phase && not whole) }
{
    phase >= 1 && !whole
}

// Returns for how many cycles in a row, up to 10, the MST has returned intact, including the cycle that ends now: 0 if it didn't in this
// one. `row` is the count before it.
pub fn row_with(whole: bool, row: u8) -> u8
    ensures { result ≡ (if whole then min (row + 1) 10 else 0) }
{
    if !whole {
        return 0;
    }
    if row < 10 { row + 1 } else { 10 }
}

// Returns whether the MDT addresses a drive, and addressed the same one in the cycle before; false if it addresses none.
fn is_same(addressed: Option<usize>, before: Option<usize>) -> bool
    ensures { result ≡ is_same addressed before }
{
    match addressed {
        Some(place) => is_place(place, before),
        None => false,
    }
}

// Returns for how many cycles of phase 1 in a row, up to 64, the MDT addressed the drive `addressed`, including the cycle that ends now.
// `before` is the drive addressed in the cycle before, and `waited` the count up to it. The result is 0 in other phases, and if no drive is
// addressed.
pub fn waited_with(phase: u8, addressed: Option<usize>, before: Option<usize>, waited: u8) -> u8
    ensures { result ≡ waited_with phase addressed before waited }
{
    if phase != 1 || addressed.is_none() {
        return 0;
    }
    if !is_same(addressed, before) {
        return 1;
    }
    if waited < 64 { waited + 1 } else { 64 }
}

// Returns whether a drive has this index; false if there is no drive.
pub fn is_place(place: usize, drive: Option<usize>) -> bool
    ensures { result ≡ is_place place drive }
{
    match drive {
        Some(k) => place == k,
        None => false,
    }
}
