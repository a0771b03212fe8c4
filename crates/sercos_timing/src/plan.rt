// A plan of time slots.
ghost use Rattle.std.specs.Prelude.{◌≡◌, ◌<◌, ◌≤◌, length};

use arrayvec::ArrayVec;
use std::marker::Model;

/// The time slots of a cycle and the positions in the MDT, under the symbols of IEC 61491:1995. Times are microseconds after the MST's end.
/// Contracts see the record of the fields, each vector as the list of its items.
#[derive(Debug, PartialEq, Eq, Drop)]
pub struct Plan {
    /// The AT starting time T1 (S-0-0006) of each drive, in the order of the ring.
    pub t1: ArrayVec<u16, 64>,
    /// The MDT starting time T2 (S-0-0089).
    pub t2: u16,
    /// The time T3 from which command values are valid (S-0-0008).
    pub t3: u16,
    /// The feedback capture point T4 (S-0-0007).
    pub t4: u16,
    /// The position of each drive's data record in the MDT (S-0-0009), in the order of the ring. Position 1 is the first byte after the
    /// address.
    pub position: ArrayVec<u16, 64>,
    /// The length of the MDT (S-0-0010), in bytes after the address.
    pub mdt_len: u16,
}

impl Model for Plan {
    ghost use Rattle.sercos_timing.specs.Views.{PlanView};

    ghost Value = { PlanView };

    ghost view = { λ p. record {
      t1 = p.t1.items;
      t2 = p.t2;
      t3 = p.t3;
      t4 = p.t4;
      position = p.position.items;
      mdt_len = p.mdt_len;
    } };

    ghost inverse = { λ v. record {
      t1 = record { items = v.t1 };
      t2 = v.t2;
      t3 = v.t3;
      t4 = v.t4;
      position = record { items = v.position };
      mdt_len = v.mdt_len;
    } };
}

impl Plan {
    /// Returns T1 of each drive, in microseconds after the MST's end, in the order of the ring.
    pub fn t1(&self) -> &[u16]
        ensures value { result.now ≡ self.now.t1 }
        ensures limit { length result.now ≤ 64 }
    {
        self.t1.as_slice()
    }

    /// Returns T2, in microseconds after the MST's end.
    pub fn t2(&self) -> u32
        ensures value { result ≡ self.now.t2 }
        ensures limit { result < 65536 }
    {
        u32::from(self.t2)
    }

    /// Returns T3, in microseconds after the MST's end.
    pub fn t3(&self) -> u32
        ensures value { result ≡ self.now.t3 }
        ensures limit { result < 65536 }
    {
        u32::from(self.t3)
    }

    /// Returns T4, in microseconds after the MST's end.
    pub fn t4(&self) -> u32
        ensures value { result ≡ self.now.t4 }
        ensures limit { result < 65536 }
    {
        u32::from(self.t4)
    }

    /// Returns the position of each drive's data record in the MDT, in the order of the ring. Position 1 is the first byte after the
    /// address.
    pub fn position(&self) -> &[u16]
        ensures value { result.now ≡ self.now.position }
        ensures limit { length result.now ≤ 64 }
    {
        self.position.as_slice()
    }

    /// Returns the length of the MDT, in bytes after the address.
    pub fn mdt_len(&self) -> u32
        ensures value { result ≡ self.now.mdt_len }
        ensures limit { result < 65536 }
    {
        u32::from(self.mdt_len)
    }
}
