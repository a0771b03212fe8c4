// The rules of the check for phase 3, each named by the block that breaks it. Times are in microseconds.
ghost use Rattle.std.specs.Prelude.{◌≡◌};
ghost use Rattle.sercos_command.specs.Clauses.{breaks_1, breaks_2, breaks_6, breaks_7, breaks_8, breaks_9, breaks_10, breaks_15, breaks_89};

use crate::carried::{WORDS, carried_len, number_at};
use sercos_block::Store;
use sercos_block::numbers::{
    AT_LIST, CONTROL_CYCLE_TIME, CYCLE_TIME, MDT_LENGTH, MDT_LIST, POSITION, T1, T1MIN, T2, T3, T4,
    T4MIN, TATMT, TELEGRAM_TYPE,
};
use sercos_timing::{is_cycle, wire};

// The telegram type that a drive works with: the application telegram.
const CONFIGURED: u32 = 7;

// Returns whether the cycle time is 0, or the control unit cycle time is not a positive multiple of it.
#[tactic(auto, unfolding(crate::specs::Checks::breaks_1))]
pub(crate) fn breaks_control_cycle_time(store: &Store) -> bool
    ensures { result ≡ breaks_1 store.now }
{
    let control = number_at(store, CONTROL_CYCLE_TIME);
    let cycle = number_at(store, CYCLE_TIME);
    cycle == 0 || control == 0 || control % cycle != 0
}

// Returns whether the cycle time is not one of this profile: 125, or a multiple of 250 from 250 to 64,000.
#[tactic(auto, unfolding(crate::specs::Checks::breaks_2))]
pub(crate) fn breaks_cycle_time(store: &Store) -> bool
    ensures { result ≡ breaks_2 store.now }
{
    !is_cycle(number_at(store, CYCLE_TIME) as u16)
}

// Returns whether T1 is before the earliest time at which the drive can send, T1min.
#[tactic(auto, unfolding(crate::specs::Checks::breaks_6))]
pub(crate) fn breaks_t1(store: &Store) -> bool
    ensures { result ≡ breaks_6 store.now }
{
    number_at(store, T1) < number_at(store, T1MIN)
}

// Returns whether less than T4min is left from T4 to the end of the cycle.
#[tactic(auto, unfolding(crate::specs::Checks::breaks_7))]
pub(crate) fn breaks_t4(store: &Store) -> bool
    ensures { result ≡ breaks_7 store.now }
{
    number_at(store, CYCLE_TIME) < number_at(store, T4) + number_at(store, T4MIN)
}

// Returns whether T3 is 0, or after the end of the cycle.
#[tactic(auto, unfolding(crate::specs::Checks::breaks_8))]
pub(crate) fn breaks_t3(store: &Store) -> bool
    ensures { result ≡ breaks_8 store.now }
{
    let time = number_at(store, T3);
    time == 0 || number_at(store, CYCLE_TIME) < time
}

// Returns whether the position of the data record is 0, or the record passes the end of the MDT.
#[tactic(auto, unfolding(crate::specs::Checks::breaks_9))]
pub(crate) fn breaks_position(store: &Store) -> bool
    ensures { result ≡ breaks_9 store.now }
{
    let position = number_at(store, POSITION);
    let last = position + carried_len(store, MDT_LIST) - 1;
    position == 0 || number_at(store, MDT_LENGTH) < last
}

// Returns whether the MDT has fewer than the 4 bytes of the two words of a record.
#[tactic(auto, unfolding(crate::specs::Checks::breaks_10))]
pub(crate) fn breaks_mdt_length(store: &Store) -> bool
    ensures { result ≡ breaks_10 store.now }
{
    number_at(store, MDT_LENGTH) < WORDS
}

// Returns whether the telegram type is not 7, the application telegram.
#[tactic(auto, unfolding(crate::specs::Checks::breaks_15))]
pub(crate) fn breaks_telegram_type(store: &Store) -> bool
    ensures { result ≡ breaks_15 store.now }
{
    number_at(store, TELEGRAM_TYPE) != CONFIGURED
}

// Returns whether there is less than TATMT between T2 and the end of the drive's AT, sent at T1 with the most inserted zeros. The sums are
// in bit times, at a rate in bits per microsecond.
#[tactic(auto, unfolding(crate::specs::Checks::breaks_89))]
pub(crate) fn breaks_t2(rate: u8, store: &Store) -> bool
    ensures { result ≡ breaks_89 rate store.now }
{
    let rate = u32::from(rate);
    let telegram = wire(1 + carried_len(store, AT_LIST));
    let ready = rate * number_at(store, T1) + telegram + rate * number_at(store, TATMT);
    rate * number_at(store, T2) < ready
}
