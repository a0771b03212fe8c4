// The twelve inequalities between planner's input and a plan, by name and by number.
ghost use Rattle.std.specs.Prelude.{◌≡◌, Some};
ghost use Rattle.sercos_timing.specs.Clauses.{number_of, of_number};

/// An inequality between planner's input and a plan (this profile).
#[derive(Clone, Copy, Debug, PartialEq, Eq)]
pub enum Inequality {
    /// 1: T1 of a drive is at least its T1min.
    Own,
    /// 2: the first AT of the order begins at least the gap after the MST.
    Gap,
    /// 3: an AT begins at least the gap after the end of the AT right before it, if another slave sends that.
    Neighbor,
    /// 4: an AT begins at least the drive's TATAT after the end of the previous AT of the same slave.
    Slave,
    /// 5: the MDT begins at least the gap after the end of the last AT.
    Last,
    /// 6: the MDT begins at least a drive's TATMT after the end of its AT.
    Master,
    /// 7: T3 is at least a drive's TMTSG after the end of the MDT.
    Records,
    /// 8: T3 is within the cycle.
    Cycle,
    /// 9: from the end of the MDT to the next MST there is at least the gap, and at least each drive's TMTSY.
    NextMst,
    /// 10: between T4 and the end of the cycle there is at least a drive's T4min.
    Capture,
    /// 11: the control unit cycle time is a positive multiple of the cycle time. Valid input keeps it.
    Control,
    /// 12: the data records follow one another in the MDT, the first at position 1, and the MDT is as long as all of them together.
    Positions,
}

impl Inequality {
    /// Returns the number of the inequality, 1 to 12.
    pub fn number(self) -> u8
        ensures value { result ≡ number_of self }
        ensures back { of_number result ≡ Some self }
    {
        match self {
            Inequality::Own => 1,
            Inequality::Gap => 2,
            Inequality::Neighbor => 3,
            Inequality::Slave => 4,
            Inequality::Last => 5,
            Inequality::Master => 6,
            Inequality::Records => 7,
            Inequality::Cycle => 8,
            Inequality::NextMst => 9,
            Inequality::Capture => 10,
            Inequality::Control => 11,
            Inequality::Positions => 12,
        }
    }

    /// Returns the inequality with a number; `None` if the number isn't from 1 to 12.
    pub fn of_number(number: u8) -> Option<Inequality>
        ensures { result ≡ of_number number }
    {
        match number {
            1 => Some(Inequality::Own),
            2 => Some(Inequality::Gap),
            3 => Some(Inequality::Neighbor),
            4 => Some(Inequality::Slave),
            5 => Some(Inequality::Last),
            6 => Some(Inequality::Master),
            7 => Some(Inequality::Records),
            8 => Some(Inequality::Cycle),
            9 => Some(Inequality::NextMst),
            10 => Some(Inequality::Capture),
            11 => Some(Inequality::Control),
            12 => Some(Inequality::Positions),
            _ => None,
        }
    }
}
