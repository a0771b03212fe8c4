// The two transition checks.
ghost use Rattle.std.specs.Prelude.{◌≡◌, ◌≤◌, ◌<◌, ◌+◌, ◌++◌, [], length};
ghost use Rattle.sercos_command.specs.Clauses.{listed_if, unfit_for_phase_3, unfit_for_phase_4};

use crate::carried::breaks_list;
use crate::rules::{
    breaks_control_cycle_time, breaks_cycle_time, breaks_mdt_length, breaks_position, breaks_t1,
    breaks_t2, breaks_t3, breaks_t4, breaks_telegram_type,
};
use arrayvec::ArrayVec;
use sercos_block::Store;
use sercos_block::numbers::{
    AT_LIST, CONTROL_CYCLE_TIME, CYCLE_TIME, MDT_LENGTH, MDT_LIST, POSITION, T1, T2, T3, T4,
    TELEGRAM_TYPE,
};
use sercos_idn::Idn;

// Appends the identifier number if its rule is broken; otherwise the list is unchanged. It has fewer than 64 before.
fn add_if(unfit: &mut ArrayVec<Idn, 64>, idn: Idn, broken: bool)
    requires { length unfit.old.items < 64 }
    ensures items { unfit.new.items ≡ unfit.old.items ++ listed_if idn.raw broken [] }
    ensures few { length unfit.new.items ≤ length unfit.old.items + 1 }
{
    if broken {
        unfit.push(idn);
    }
}

/// Returns the identifier numbers whose operation data isn't fit for phase 3 (S-0-0127 of IEC 61491:1995, with the rules of this profile),
/// ascending. `rate` is that of the ring, in bits per microsecond. Each is listed if and only if its rule is broken:
///
/// - S-0-0001: the cycle time is 0, or the control unit cycle time is not a positive multiple of it;
/// - S-0-0002: the cycle time is not one of this profile: 125 microseconds, or a multiple of 250 from 250 to 64,000;
/// - S-0-0006: T1 is below T1min;
/// - S-0-0007: T4 plus T4min is after the end of the cycle;
/// - S-0-0008: T3 is 0, or after the end of the cycle;
/// - S-0-0009: the position of the data record is 0, or the record passes the end of the MDT;
/// - S-0-0010: the MDT has fewer than 4 bytes;
/// - S-0-0015: the telegram type is not 7;
/// - S-0-0016 and S-0-0024: the list has an identifier number that no telegram can carry: the drive has no such block, or it is a list or a
///   procedure command;
/// - S-0-0089: there is less than TATMT between T2 and the end of the drive's AT, sent at T1 with the most inserted zeros.
pub fn check127(rate: u8, store: &Store) -> ArrayVec<Idn, 64>
    ensures { result.items ≡ unfit_for_phase_3 rate store.now }
{
    let mut unfit = ArrayVec::new();
    add_if(
        &mut unfit,
        CONTROL_CYCLE_TIME,
        breaks_control_cycle_time(store),
    );
    add_if(&mut unfit, CYCLE_TIME, breaks_cycle_time(store));
    add_if(&mut unfit, T1, breaks_t1(store));
    add_if(&mut unfit, T4, breaks_t4(store));
    add_if(&mut unfit, T3, breaks_t3(store));
    add_if(&mut unfit, POSITION, breaks_position(store));
    add_if(&mut unfit, MDT_LENGTH, breaks_mdt_length(store));
    add_if(&mut unfit, TELEGRAM_TYPE, breaks_telegram_type(store));
    add_if(&mut unfit, AT_LIST, breaks_list(AT_LIST, store));
    add_if(&mut unfit, MDT_LIST, breaks_list(MDT_LIST, store));
    add_if(&mut unfit, T2, breaks_t2(rate, store));
    unfit
}

/// Returns the identifier numbers whose operation data isn't fit for phase 4 (S-0-0128 of IEC 61491:1995), ascending: those of numbers
/// below their minimum or above their maximum.
pub fn check128(store: &Store) -> ArrayVec<Idn, 64>
    ensures { result.items ≡ unfit_for_phase_4 store.now }
{
    let mut unfit = ArrayVec::new();
    for index in 0..store.count() {
        add_if(&mut unfit, store.idn(index), store.is_outside(index));
    }
    unfit
}
