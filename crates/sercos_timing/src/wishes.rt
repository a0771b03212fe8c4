// The planner's input.
ghost use Rattle.std.specs.Prelude.{◌≡◌, ◌+◌, ◌*◌, ◌^◌, ◌<◌, ◌≤◌, length, slice_index, IfSome, Some};
ghost use Rattle.sercos_timing.specs.Clauses.{wish, first_sent, place_at, neighbor, previous, at_bits, mdt_bits, record_bytes, greatest_tmtsy, bound_9, IsValid};

use crate::frame_bits::wire;
use arrayvec::ArrayVec;
use std::marker::Model;

/// The times that a drive declares, in microseconds, under the symbols of IEC 61491:1995.
#[derive(Clone, Copy, Debug, Default, PartialEq, Eq)]
pub struct Times {
    /// The shortest AT starting time (T1min, S-0-0003): the drive can't send its AT earlier after the MST's end.
    pub t1min: u16,
    /// The transmit/receive transition time (TATMT, S-0-0004): between the end of the drive's AT and the MDT.
    pub tatmt: u16,
    /// The minimum feedback processing time (T4min, S-0-0005): between the feedback capture point T4 and the end of the cycle.
    pub t4min: u16,
    /// The transmit to transmit recovery time (TATAT, S-0-0087): between the end of an AT of the same slave and this drive's AT.
    pub tatat: u16,
    /// The receive to receive recovery time (TMTSY, S-0-0088): between the end of the MDT and the next MST.
    pub tmtsy: u16,
    /// The command processing time (TMTSG, S-0-0090): between the end of the MDT and the time T3 from which command values are valid.
    pub tmtsg: u16,
}

/// The planner's input of one drive.
#[derive(Clone, Copy, Debug, Default, PartialEq, Eq)]
pub struct Wish {
    /// The drive's address, 1 to 254.
    pub address: u8,
    /// The slave that the drive belongs to. Drives of one slave send one after another through one transmitter.
    pub slave: u8,
    /// The times that it declares.
    pub times: Times,
    /// How many bytes its AT has after the address.
    pub at_len: u16,
    /// How many bytes its data record in the MDT has.
    pub record_len: u16,
}

/// The planner's input of a ring. Contracts see the record of its fields, each vector as the list of its items.
#[derive(Debug, PartialEq, Eq, Drop)]
pub struct Wishes {
    /// The rate, in bits per microsecond.
    pub rate: u8,
    /// The cycle time, in microseconds.
    pub cycle: u16,
    /// The control unit cycle time, in microseconds.
    pub control: u16,
    /// The gap between telegrams, in microseconds.
    pub gap: u16,
    /// The order of the ATs in the cycle: indices into `drives`.
    pub order: ArrayVec<u8, 64>,
    /// The drives in the order of the ring.
    pub drives: ArrayVec<Wish, 64>,
}

impl Model for Wishes {
    ghost use Rattle.sercos_timing.specs.Views.{WishesView};

    ghost Value = { WishesView };

    ghost view = { λ w. record {
      rate = w.rate;
      cycle = w.cycle;
      control = w.control;
      gap = w.gap;
      order = w.order.items;
      drives = w.drives.items;
    } };

    ghost inverse = { λ v. record {
      rate = v.rate;
      cycle = v.cycle;
      control = v.control;
      gap = v.gap;
      order = record { items = v.order };
      drives = record { items = v.drives };
    } };
}

impl Wishes {
    /// Returns the order of the ATs: indices into the drives.
    pub fn order(&self) -> &[u8]
        ensures value { result.now ≡ self.now.order }
        ensures limit { length result.now ≤ 64 }
    {
        self.order.as_slice()
    }

    /// Returns the input of the drives, in the order of the ring.
    pub fn drives(&self) -> &[Wish]
        ensures value { result.now ≡ self.now.drives }
        ensures limit { length result.now ≤ 64 }
    {
        self.drives.as_slice()
    }

    /// Returns the input of the drive at an index of the ring, which must be below the number of drives.
    pub fn wish(&self, place: usize) -> Wish
        requires { place < length self.now.drives }
        ensures { result ≡ wish self.now place }
    {
        self.drives.as_slice()[place]
    }

    /// Returns the cycle time, in microseconds.
    pub fn cycle(&self) -> u32
        ensures value { result ≡ self.now.cycle }
        ensures limit { result < 65536 }
    {
        u32::from(self.cycle)
    }

    /// Returns the gap between telegrams, in microseconds.
    pub fn gap(&self) -> u32
        ensures value { result ≡ self.now.gap }
        ensures limit { result < 65536 }
    {
        u32::from(self.gap)
    }

    /// Returns a time of `micros` microseconds in bit times, below 2^40.
    pub fn bits(&self, micros: u32) -> u64
        ensures value { result ≡ self.now.rate * micros }
        ensures limit { result < 2 ^ 40 }
    {
        u64::from(self.rate) * u64::from(micros)
    }

    /// Returns the most bits of a frame of the AT of the drive at an index of the ring, at most 697. The input must be valid, and the index
    /// below the number of drives.
    pub fn at_bits(&self, place: usize) -> u64
        requires valid { IsValid self.now }
        requires within { place < length self.now.drives }
        ensures value { result ≡ at_bits self.now place }
        ensures limit { result ≤ 697 }
    {
        u64::from(wire(u32::from(self.wish(place).at_len) + 1))
    }

    /// Returns the length of the MDT in bytes after the address: that of all data records together.
    pub fn record_bytes(&self) -> u32
        ensures { result ≡ record_bytes self.now.drives }
    {
        self.drives()
            .iter()
            .map(|drive| u32::from(drive.record_len))
            .sum()
    }

    /// Returns the most bits of a frame of the MDT, at most 20,000. The input must be valid.
    pub fn mdt_bits(&self) -> u64
        requires { IsValid self.now }
        ensures value { result ≡ mdt_bits self.now }
        ensures limit { result ≤ 20_000 }
    {
        u64::from(wire(self.record_bytes() + 1))
    }

    /// Returns the index in the order of the AT that is sent directly before the one at index `at`. The result is `None` if there is none,
    /// or if the same slave sends it: between the ATs of one slave only TATAT is required (this profile). The input must be valid, and `at`
    /// below the length of the order.
    pub fn neighbor_at(&self, at: usize) -> Option<usize>
        requires valid { IsValid self.now }
        requires within { at < length self.now.order }
        ensures value { place_at self.now result
            ≡ neighbor self.now (slice_index self.now.order at) (first_sent self.now.order at) }
        ensures before { IfSome result (λ earlier. earlier < at) }
    {
        if at == 0 {
            return None;
        }
        let order = self.order();
        let before = self.wish(usize::from(order[at - 1])).slave;
        if before == self.wish(usize::from(order[at])).slave {
            None
        } else {
            Some(at - 1)
        }
    }

    /// Returns the index in the order of the last AT before the one at index `at` that the same slave sends; `None` if there is none. The
    /// input must be valid, and `at` below the length of the order.
    pub fn previous_at(&self, at: usize) -> Option<usize>
        requires valid { IsValid self.now }
        requires within { at < length self.now.order }
        ensures value { place_at self.now result
            ≡ previous self.now (slice_index self.now.order at) (first_sent self.now.order at) }
        ensures before { IfSome result (λ earlier. earlier < at) }
    {
        let order = self.order();
        let slave = self.wish(usize::from(order[at])).slave;
        let mut found = None;
        for earlier in 0..at {
            if self.wish(usize::from(order[earlier])).slave == slave {
                found = Some(earlier);
            }
        }
        found
    }

    /// Returns the greatest TMTSY of the drives, in microseconds. The input must be valid.
    pub fn greatest_tmtsy(&self) -> u32
        requires { IsValid self.now }
        ensures value { result ≡ greatest_tmtsy self.now }
        ensures limit { result < 65536 }
    {
        let mut most = 0u32;
        for &place in self.order() {
            most = most.max(u32::from(self.wish(usize::from(place)).times.tmtsy));
        }
        most
    }

    /// Returns the earliest bit time at which the next MST can begin, after the end of this cycle's MST. The next MST ends with the cycle,
    /// and a frame of two bytes has at most `wire(2)` bits. The result is below 2^24. The input must be valid.
    pub fn recovered_by(&self) -> u64
        requires { IsValid self.now }
        ensures value { result ≡ bound_9 self.now }
        ensures limit { result < 2 ^ 24 }
    {
        self.bits(self.cycle()) - u64::from(wire(2))
    }
}
