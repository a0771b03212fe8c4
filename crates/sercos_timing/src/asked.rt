// What the inequalities require of the start of an AT. The planner's input is valid, and each index is within its list. `t1` has the T1 of
// each drive in microseconds, in the order of the ring.
ghost use Rattle.std.specs.Prelude.{◌≡◌, ℕ, ◌+◌, ◌*◌, ◌^◌, ◌<◌, ◌≤◌, length, slice_index, option_map, IfSome};
ghost use Rattle.sercos_timing.specs.Clauses.{first_sent, place_at, at_bits, bits_of, asked_of_start, IsValid};

use crate::inequality::Inequality;
use crate::wishes::Wishes;

/// Returns the bit time at which the AT of the drive at index `place` of the ring has ended at the latest (with the most inserted zeros),
/// if it starts at its T1, and `micros` microseconds, below 65,536, have passed since. Bit times count from the MST's end. The result is
/// below 2^42. For any n that is at least this T1, it is at most n + 66,300 microseconds in bit times.
pub fn bits_after(w: &Wishes, t1: &[u32], place: usize, micros: u32) -> u64
    requires valid { IsValid w.now }
    requires count { length t1.now ≡ length w.now.drives }
    requires within { place < length w.now.drives }
    requires micros { micros < 65536 }
    ensures value { result ≡ bits_of w.now t1.now place + (at_bits w.now place + w.now.rate * micros) }
    ensures range { result < 2 ^ 42 }
    ensures limit { (n : ℕ) → slice_index t1.now place ≤ n → result ≤ w.now.rate * (n + 66_300) }
{
    w.bits(t1[place]) + (w.at_bits(place) + w.bits(micros))
}

// Returns the bit time of `bits_after` for the AT at index `at` of the order; `None` if `at` is `None`. `micros` is below 65,536. The
// bounds are those of `bits_after`, for any n that is at least each T1.
fn bits_after_at(w: &Wishes, t1: &[u32], at: Option<usize>, micros: u32) -> Option<u64>
    requires valid { IsValid w.now }
    requires count { length t1.now ≡ length w.now.drives }
    requires within { IfSome at (λ i. i < length w.now.order) }
    requires micros { micros < 65536 }
    ensures value { result
        ≡ option_map (λ k. bits_of w.now t1.now k + (at_bits w.now k + w.now.rate * micros)) (place_at w.now at) }
    ensures range { IfSome result (λ asked. asked < 2 ^ 42) }
    ensures limit { (n : ℕ) → ((j : ℕ) → slice_index t1.now j ≤ n)
        → IfSome result (λ asked. asked ≤ w.now.rate * (n + 66_300)) }
{
    match at {
        Some(i) => Some(bits_after(w, t1, usize::from(w.order()[i]), micros)),
        None => None,
    }
}

/// Returns what an inequality requires of the start of the AT at index `at` of the order, in bit times after the MST's end. The result is
/// below 2^42. For any n that is at least each T1, it is at most n + 66,300 microseconds in bit times. `None` means that it requires
/// nothing: only 1 to 4 concern the start of an AT. 2 concerns the first AT of the order alone, 3 only an AT directly after one of another
/// slave, and 4 only one with an earlier AT of its slave.
pub fn asked_of_start(w: &Wishes, t1: &[u32], rule: Inequality, at: usize) -> Option<u64>
    requires valid { IsValid w.now }
    requires count { length t1.now ≡ length w.now.drives }
    requires within { at < length w.now.order }
    ensures value { result
        ≡ asked_of_start w.now rule (bits_of w.now t1.now) (slice_index w.now.order at) (first_sent w.now.order at) }
    ensures range { IfSome result (λ asked. asked < 2 ^ 42) }
    ensures limit { (n : ℕ) → ((j : ℕ) → slice_index t1.now j ≤ n)
        → IfSome result (λ asked. asked ≤ w.now.rate * (n + 66_300)) }
{
    let times = w.wish(usize::from(w.order()[at])).times;
    match rule {
        Inequality::Own => Some(w.bits(u32::from(times.t1min))),
        Inequality::Gap => { if at == 0 { Some(w.bits(w.gap())) } else { None } }
        Inequality::Neighbor => bits_after_at(w, t1, w.neighbor_at(at), w.gap()),
        Inequality::Slave => bits_after_at(w, t1, w.previous_at(at), u32::from(times.tatat)),
        _ => None,
    }
}
