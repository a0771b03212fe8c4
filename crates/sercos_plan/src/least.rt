// The least times, in one pass through the order. In this file `t1` has the least T1 of the drives in microseconds, in the order of the
// ring. The planner's input is valid, `t1` has an item for each drive, and each index is within its list.
ghost use Rattle.std.specs.Prelude.{◌≡◌, ℕ, ◌+◌, ◌*◌, ◌^◌, ◌<◌, ◌≤◌, length, slice_index, unwrap_or, nat_le};
ghost use Rattle.sercos_plan.specs.Clauses.{most_drives, first_sent, sent, times, mdt_bits, bits_of, asked_of_start, asked_5, sum_9, bound_9, greatest_tmtsy, IsValid, round_up, needed, least_t1, least_t2, least_t3, greatest_t4min};

use arrayvec::ArrayVec;
use sercos_timing::{Inequality, Wishes, asked_of_start, bits_after};

// Returns the least number of microseconds that has at least `bits` bit times, which are below 2^43.
pub fn round_up(w: &Wishes, bits: u64) -> u64
    requires valid { IsValid w.now }
    requires bits { bits < 2 ^ 43 }
    ensures { result ≡ round_up w.now.rate bits }
{
    let rate = w.bits(1);
    (bits + (rate - 1)) / rate
}

// Returns what an inequality requires of the start of the AT at index `at` of the order, in bit times; 0 if it requires nothing. Each AT
// takes at most 66,300 microseconds with the pause after it, so the result is at most the bit times of 66,300 times `at` + 1 microseconds.
// Each T1 of `t1` must be at most 66,300 times `at`.
fn start_bits(w: &Wishes, t1: &[u32], rule: Inequality, at: usize) -> u64
    requires valid { IsValid w.now }
    requires within { at < length w.now.order }
    requires count { length t1.now ≡ length w.now.drives }
    requires limit { (j : ℕ) → slice_index t1.now j ≤ 66_300 * at }
    ensures value { result
        ≡ unwrap_or (asked_of_start w.now rule (bits_of w.now t1.now) (slice_index w.now.order at) (first_sent w.now.order at)) 0 }
    ensures limit { result ≤ w.now.rate * (66_300 * at + 66_300) }
{
    match asked_of_start(w, t1, rule, at) {
        Some(bits) => bits,
        None => 0,
    }
}

// Returns the least T1 of the AT at index `at` of the order, in microseconds, from those of the ATs before it. Each T1 of `t1` must be at
// most 66,300 times `at`. The result is at most 66,300 more.
fn start(w: &Wishes, t1: &[u32], at: usize) -> u32
    requires valid { IsValid w.now }
    requires within { at < length w.now.order }
    requires count { length t1.now ≡ length w.now.drives }
    requires limit { (j : ℕ) → slice_index t1.now j ≤ 66_300 * at }
    ensures value { result
        ≡ round_up w.now.rate (needed w.now (bits_of w.now t1.now) (slice_index w.now.order at) (first_sent w.now.order at)) }
    ensures limit { result ≤ 66_300 * at + 66_300 }
{
    let own = start_bits(w, t1, Inequality::Own, at);
    let gap = start_bits(w, t1, Inequality::Gap, at);
    let neighbor = start_bits(w, t1, Inequality::Neighbor, at);
    let slave = start_bits(w, t1, Inequality::Slave, at);
    round_up(w, own.max(gap.max(neighbor.max(slave)))) as u32
}

// Replaces zeros by the least T1 of each drive, in microseconds, in the order of the ring. It goes once through the order of the ATs.
fn fill_starts(w: &Wishes, t1: &mut [u32])
    requires valid { IsValid w.now }
    requires count { length t1.old ≡ length w.now.drives }
    requires blank { (j : ℕ) → slice_index t1.old j ≡ 0 }
    ensures value { (j : ℕ) → slice_index t1.new j ≡ least_t1 w.now (sent w.now) j }
    ensures limit { (j : ℕ) → slice_index t1.new j ≤ 66_300 * 64 }
{
    let order = w.order();
    for at in 0..order.len() {
        let start = start(w, t1, at);
        t1[usize::from(order[at])] = start;
    }
}

// Returns a list of `count` zeros, at most 64.
fn blank(count: usize) -> ArrayVec<u32, 64>
    requires { count ≤ most_drives }
    ensures count { length result.items ≡ count }
    ensures blank { (j : ℕ) → slice_index result.items j ≡ 0 }
{
    let mut blank = ArrayVec::new();
    for _ in 0..count {
        blank.push(0);
    }
    blank
}

// Returns the least T1 of each drive, in microseconds, in the order of the ring. Each is at most 66,300 times 64.
pub fn starts(w: &Wishes) -> ArrayVec<u32, 64>
    requires { IsValid w.now }
    ensures count { length result.items ≡ length w.now.drives }
    ensures value { (j : ℕ) → slice_index result.items j ≡ least_t1 w.now (sent w.now) j }
    ensures limit { (j : ℕ) → slice_index result.items j ≤ 66_300 * 64 }
{
    let mut t1 = blank(w.drives().len());
    fill_starts(w, t1.as_mut_slice());
    t1
}

// Returns what inequality 5 requires of T2, in bit times: at most those of 66,300 times 65 microseconds. Each T1 of `t1` must be at most
// 66,300 times 64.
pub fn last_bits(w: &Wishes, t1: &[u32]) -> u64
    requires valid { IsValid w.now }
    requires count { length t1.now ≡ length w.now.drives }
    requires limit { (j : ℕ) → slice_index t1.now j ≤ 66_300 * 64 }
    ensures value { result ≡ unwrap_or (asked_5 w.now (bits_of w.now t1.now) (sent w.now)) 0 }
    ensures limit { result ≤ w.now.rate * (66_300 * 65) }
{
    let order = w.order();
    bits_after(w, t1, usize::from(order[order.len() - 1]), w.gap())
}

// Returns the least T2, in microseconds, from the least T1 of each drive, at most 66,300 times 64. It is at most 66,300 times 65.
pub fn least_t2(w: &Wishes, t1: &[u32]) -> u32
    requires valid { IsValid w.now }
    requires count { length t1.now ≡ length w.now.drives }
    requires value { (j : ℕ) → slice_index t1.now j ≡ least_t1 w.now (sent w.now) j }
    requires limit { (j : ℕ) → slice_index t1.now j ≤ 66_300 * 64 }
    ensures value { result ≡ least_t2 w.now }
    ensures limit { result ≤ 66_300 * 65 }
{
    let order = w.order();
    let gap = last_bits(w, t1);
    let mut most = 0u64;
    for at in 0..order.len() {
        let place = usize::from(order[at]);
        let tatmt = u32::from(w.wish(place).times.tatmt);
        most = most.max(bits_after(w, t1, place, tatmt));
    }
    round_up(w, gap.max(most)) as u32
}

// Returns what inequality 7 requires of T3 for the drive at an index of the ring, in bit times, if the MDT begins at `t2`, in microseconds.
// The result is at most the bit times of `t2` + 75,535 microseconds.
fn record_bits(w: &Wishes, t2: u32, place: usize) -> u64
    requires valid { IsValid w.now }
    requires within { place < length w.now.drives }
    ensures value { result ≡ w.now.rate * t2 + (mdt_bits w.now + w.now.rate * (times w.now place).tmtsg) }
    ensures limit { result ≤ w.now.rate * (t2 + 75_535) }
{
    w.bits(t2) + (w.mdt_bits() + w.bits(u32::from(w.wish(place).times.tmtsg)))
}

// Returns the least T3, in microseconds, from the least T2, at most 66,300 times 65. It is at most 66,300 times 67.
pub fn least_t3(w: &Wishes, t2: u32) -> u32
    requires valid { IsValid w.now }
    requires value { t2 ≡ least_t2 w.now }
    requires limit { t2 ≤ 66_300 * 65 }
    ensures value { result ≡ least_t3 w.now }
    ensures limit { result ≤ 66_300 * 67 }
{
    let order = w.order();
    let mut most = 0u64;
    for at in 0..order.len() {
        most = most.max(record_bits(w, t2, usize::from(order[at])));
    }
    round_up(w, most) as u32
}

// Returns the greatest T4min of the drives, in microseconds.
pub fn greatest_t4min(w: &Wishes) -> u32
    requires { IsValid w.now }
    ensures value { result ≡ greatest_t4min w.now }
    ensures limit { result < 65536 }
{
    let mut most = 0u32;
    for &place in w.order() {
        most = most.max(u32::from(w.wish(usize::from(place)).times.t4min));
    }
    most
}

// Returns whether inequality 9 holds at `t2`, the least T2 in microseconds.
pub fn is_mst_roomy(w: &Wishes, t2: u32) -> bool
    requires valid { IsValid w.now }
    requires value { t2 ≡ least_t2 w.now }
    ensures { result ≡ nat_le (sum_9 w.now (w.now.rate * least_t2 w.now) (greatest_tmtsy w.now)) (bound_9 w.now) }
{
    let pause = w.gap().max(w.greatest_tmtsy());
    w.bits(t2) + (w.mdt_bits() + w.bits(pause)) <= w.recovered_by()
}
