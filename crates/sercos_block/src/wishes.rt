// The planner's input for a ring.
ghost use Rattle.std.specs.Prelude.{◌≡◌, ◌≤◌, true, length, map};
ghost use Rattle.sercos_block.specs.Clauses.{All, IsValid, is_ring, wish_of, HasLens, wishes_of};

use crate::setup::{DriveSetup, RingSetup};
use arrayvec::ArrayVec;
use sercos_timing::{Wish, Wishes};

// Returns a copy of an order of at most 64 indices.
fn order_copy(order: &[u8]) -> ArrayVec<u8, 64>
    requires { length order.now ≤ 64 }
    ensures { result.items ≡ order.now }
{
    let mut copy = ArrayVec::new();
    let _fits = copy.try_extend_from_slice(order);
    copy
}

// Returns the planner's input for all drives, at most 64. The lengths of each drive's AT and data record are 4 to 68 bytes.
fn wish_list(drives: &[DriveSetup]) -> ArrayVec<Wish, 64>
    requires { length drives.now ≤ 64 }
    ensures value { result.items ≡ map wish_of drives.now }
    ensures lens { All HasLens result.items }
{
    let mut wishes = ArrayVec::new();
    for drive in drives {
        wishes.push(drive.wish());
    }
    wishes
}

impl DriveSetup {
    // Returns the planner's input for one drive. The lengths of its AT and its data record are 4 to 68 bytes.
    fn wish(&self) -> Wish
        ensures value { result ≡ wish_of self.now }
        ensures lens { HasLens result }
    {
        Wish {
            address: self.address,
            slave: self.slave,
            times: self.times,
            at_len: self.at_len(),
            record_len: self.record_len(),
        }
    }
}

impl RingSetup {
    /// Returns the planner's input for a valid ring: its numbers and order, the times that the drives declare in microseconds, and the
    /// lengths of their telegrams in bytes. A plan may be requested for it: [`valid`](sercos_timing::valid) accepts it.
    #[tactic(auto, unfolding(crate::specs::Rings::is_ring, crate::specs::Rings::has_drives, crate::specs::Rings::wishes_of))]
    pub fn wishes(&self) -> Wishes
        requires { is_ring self.now ≡ true }
        ensures value { result ≡ wishes_of self.now }
        ensures valid { IsValid result }
    {
        Wishes {
            rate: self.rate,
            cycle: self.cycle,
            control: self.control,
            gap: self.gap,
            order: order_copy(self.order.as_slice()),
            drives: wish_list(self.drives.as_slice()),
        }
    }
}
