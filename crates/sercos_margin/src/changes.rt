// Planner's input with another time of one drive, or with another cycle time.
ghost use Rattle.std.specs.Prelude.{◌≡◌, ◌<◌, ◌≤◌, length};
ghost use Rattle.sercos_margin.specs.Clauses.{wish, time_in, greatest, declared, changed, with_time, with_cycle};

use arrayvec::ArrayVec;
use sercos_timing::limits::{
    MOST_T1MIN, MOST_T4MIN, MOST_TATAT, MOST_TATMT, MOST_TMTSG, MOST_TMTSY,
};
use sercos_timing::{Times, Wish, Wishes};

/// One of the six times that a drive declares, under its symbol of IEC 61491:1995.
#[derive(Clone, Copy, Debug, PartialEq, Eq)]
pub enum Time {
    /// The shortest AT starting time.
    T1min,
    /// The transmit/receive transition time.
    Tatmt,
    /// The minimum feedback processing time.
    T4min,
    /// The transmit to transmit recovery time.
    Tatat,
    /// The receive to receive recovery time.
    Tmtsy,
    /// The command processing time.
    Tmtsg,
}

/// Returns the greatest value of a time that a drive may declare, in microseconds, at most 64,000 (this profile).
pub fn greatest(t: Time) -> u16
    ensures value { result ≡ greatest t }
    ensures limit { result ≤ 64_000 }
{
    match t {
        Time::T1min => MOST_T1MIN,
        Time::Tatmt => MOST_TATMT,
        Time::T4min => MOST_T4MIN,
        Time::Tatat => MOST_TATAT,
        Time::Tmtsy => MOST_TMTSY,
        Time::Tmtsg => MOST_TMTSG,
    }
}

// Returns one of a drive's times, in microseconds.
fn time_in(t: Time, times: Times) -> u16
    ensures { result ≡ time_in t times }
{
    match t {
        Time::T1min => times.t1min,
        Time::Tatmt => times.tatmt,
        Time::T4min => times.t4min,
        Time::Tatat => times.tatat,
        Time::Tmtsy => times.tmtsy,
        Time::Tmtsg => times.tmtsg,
    }
}

// Returns the time that the drive at an index of the ring declares, in microseconds. The index must be below the number of drives.
pub fn declared(w: &Wishes, index: usize, t: Time) -> u16
    requires { index < length w.now.drives }
    ensures { result ≡ declared w.now index t }
{
    time_in(t, w.wish(index).times)
}

// Returns the times with another value of one of them.
fn changed(t: Time, value: u16, times: Times) -> Times
    ensures { result ≡ changed t value times }
{
    let mut new = times;
    match t {
        Time::T1min => new.t1min = value,
        Time::Tatmt => new.tatmt = value,
        Time::T4min => new.t4min = value,
        Time::Tatat => new.tatat = value,
        Time::Tmtsy => new.tmtsy = value,
        Time::Tmtsg => new.tmtsg = value,
    }
    new
}

// Returns a copy of the order of the ATs, which are at most 64.
fn order_of(order: &[u8]) -> ArrayVec<u8, 64>
    requires { length order.now ≤ 64 }
    ensures { result.items ≡ order.now }
{
    let mut places = ArrayVec::new();
    for &place in order {
        places.push(place);
    }
    places
}

// Returns a copy of the input of at most 64 drives.
fn wishes_of(drives: &[Wish]) -> ArrayVec<Wish, 64>
    requires { length drives.now ≤ 64 }
    ensures { result.items ≡ drives.now }
{
    let mut wishes = ArrayVec::new();
    for &drive in drives {
        wishes.push(drive);
    }
    wishes
}

// Returns the planner's input with another value, in microseconds, of one time of the drive at an index of the ring. The index must be
// below the number of drives. The value isn't limited.
pub fn with_time(w: &Wishes, index: usize, t: Time, value: u16) -> Wishes
    requires { index < length w.now.drives }
    ensures { result ≡ with_time w.now index t value }
{
    let wish = w.wish(index);
    let mut drives = wishes_of(w.drives());
    drives.as_mut_slice()[index] = Wish {
        times: changed(t, value, wish.times),
        ..wish
    };
    Wishes {
        rate: w.rate,
        cycle: w.cycle,
        control: w.control,
        gap: w.gap,
        order: order_of(w.order()),
        drives,
    }
}

// Returns the planner's input with another cycle time, in microseconds, which is also the control unit cycle time. The value isn't limited.
pub fn with_cycle(w: &Wishes, cycle: u16) -> Wishes
    ensures { result ≡ with_cycle w.now cycle }
{
    Wishes {
        rate: w.rate,
        cycle,
        control: cycle,
        gap: w.gap,
        order: order_of(w.order()),
        drives: wishes_of(w.drives()),
    }
}
