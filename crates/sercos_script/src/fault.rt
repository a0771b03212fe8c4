// The faults of a script.
use sercos_telegram::Kind;

/// The effect of a fault (this profile). Link 0 leads from the master to the first drive, link k from drive k to the next one, and link n,
/// for n drives, back to the master. Station 0 is the master, and stations 1 to n are the drives in the order of the ring.
#[derive(Clone, Copy, Debug, PartialEq, Eq)]
pub enum Damage {
    /// Nothing leaves the link.
    Lose {
        /// The link, 0 to n.
        link: u8,
    },
    /// One bit is complemented on the link, if the frame has it.
    Flip {
        /// The link, 0 to n.
        link: u8,
        /// The place of the bit in the frame, from 0.
        bit: u32,
    },
    /// Only the first bits leave the link.
    Cut {
        /// The link, 0 to n.
        link: u8,
        /// How many bits leave it.
        bit: u32,
    },
    /// Nothing arrives at the station. Other stations get the telegram.
    Deaf {
        /// The station, 0 to n.
        station: u8,
    },
    /// The station restarts before the MST of the cycle. Such a fault does nothing to telegrams. In a ring document its kind is `Mst` and
    /// its sender 0.
    Restart {
        /// The station, 0 to n.
        station: u8,
    },
}

/// A fault of a script (this profile). It acts in the cycles from `cycle` to `last` whose distance from `cycle` is a multiple of `every`,
/// on the telegrams of one kind from one station. A fault on a link that a telegram doesn't take has no effect on the telegram.
#[derive(Clone, Copy, Debug, PartialEq, Eq)]
pub struct Fault {
    /// The first cycle in which it may act.
    pub cycle: u32,
    /// The last cycle in which it may act.
    pub last: u32,
    /// The number of cycles from one action to the next, at least 1 in a ring document. If it is 0, the fault acts in `cycle` alone.
    pub every: u32,
    /// The kind of the telegrams.
    pub kind: Kind,
    /// The station that sends them: 0 for an MST and an MDT, 1 to n for an AT.
    pub from: u8,
    /// The effect on these telegrams, or the restart.
    pub damage: Damage,
}

// The default is a fault that never acts, since its last cycle is before its first one. It fills unused places of an array.
impl Default for Fault {
    ghost use Rattle.std.specs.Prelude.{◌≡◌, ℕ, false};
    ghost use Rattle.sercos_script.specs.Scripts.{acts};

    fn default() -> Fault
        ensures { (cycle : ℕ) → acts cycle result ≡ false }
    {
        Fault {
            cycle: 1,
            last: 0,
            every: 1,
            kind: Kind::Mst,
            from: 0,
            damage: Damage::Restart { station: 0 },
        }
    }
}
