// The seats of all drives, in ring order.
ghost use Rattle.std.specs.Prelude.{◌≡◌, ℕ, ◌+◌, ◌<◌, ◌≤◌, ◌&&◌, not, List, [], ◌∷◌, ◌++◌, length, nat_le, nat_lt, Option, None, IfSome, is_some, is_none, if◌then◌else◌};
ghost use Rattle.sercos_master.specs.Clauses.{position, PlanView, with_reports, Known, MemberView, Task, wishes_from, last_long_stop, broken_in, outcomes_seen, SeatStandsFor, has_read, cycles_kept, ended_in, forgotten, sent_in, with_begun, begun_task, Seen, AreWaiting, records_upto, with_pair, SeatsStandFor};

use crate::reports::add;
use arrayvec::ArrayVec;
use sercos_bits::Content;
use sercos_seat::Seat;
use sercos_timing::Wish;
use sercos_trace::{Reported, Stop};

// Returns the index of the first drive of which not all reads of the start-up have ended, begun or not; `None` if there is none.
pub fn first_unread(seats: &[Seat]) -> Option<usize>
    ensures value { result ≡ position (λ v. not (has_read v)) seats.now }
    ensures bound { IfSome result (λ k. k < length seats.now) }
{
    seats.iter().position(|seat| !seat.has_read())
}

// Returns the index of the first drive whose check for phase 3 hasn't ended well; `None` if there is none.
pub fn first_unchecked(seats: &[Seat]) -> Option<usize>
    ensures value { result ≡ position (λ v. not v.checked) seats.now }
    ensures bound { IfSome result (λ k. k < length seats.now) }
{
    seats.iter().position(|seat| !seat.is_checked())
}

// Returns the index of the first drive whose check for phase 4 hasn't ended well; `None` if there is none.
pub fn first_unready(seats: &[Seat]) -> Option<usize>
    ensures value { result ≡ position (λ v. not v.ready) seats.now }
    ensures bound { IfSome result (λ k. k < length seats.now) }
{
    seats.iter().position(|seat| !seat.is_ready())
}

// Returns the index of the first drive that isn't identified; `None` if there is none.
pub fn first_unidentified(seats: &[Seat]) -> Option<usize>
    ensures value { result ≡ position (λ v. not v.identified) seats.now }
    ensures bound { IfSome result (λ k. k < length seats.now) }
{
    seats.iter().position(|seat| !seat.is_identified())
}

// Returns the index of the first drive with a current task; `None` if there is none.
pub fn first_working(seats: &[Seat]) -> Option<usize>
    ensures value { result ≡ position (λ v. not (is_none v.channel.transfer)) seats.now }
    ensures bound { IfSome result (λ k. k < length seats.now) }
{
    seats.iter().position(|seat| !seat.is_idle())
}

// Returns the index of the first drive whose task that was begun last has ended with an outcome that causes a stop, which wasn't taken out;
// `None` if there is none.
pub fn first_troubled(seats: &[Seat]) -> Option<usize>
    ensures value { result ≡ position (λ v. is_some v.trouble) seats.now }
    ensures bound { IfSome result (λ k. k < length seats.now) }
{
    seats.iter().position(|seat| seat.has_trouble())
}

// Returns the index of the first drive of which no AT was taken in this cycle and in the one before, which was of phase 3 or 4; `None` if
// there is none.
pub fn first_lost(seats: &[Seat]) -> Option<usize>
    ensures value { result ≡ position (λ v. v.missed && not v.heard) seats.now }
    ensures bound { IfSome result (λ k. k < length seats.now) }
{
    seats.iter().position(|seat| seat.is_lost())
}

// Returns the index of the first drive whose open step was first sent 64 cycles ago, or earlier; `None` if there is none.
pub fn first_stuck(seats: &[Seat]) -> Option<usize>
    ensures value { result ≡ position (λ v. nat_le 64 (cycles_kept v)) seats.now }
    ensures bound { IfSome result (λ k. k < length seats.now) }
{
    seats.iter().position(|seat| seat.cycles_open() >= 64)
}

// Returns the stop for the last value with four bytes in the data records of all drives, in ring order; `None` if there is none. There must
// be a seat for each drive of the setup.
pub fn last_long_stop(seats: &[Seat]) -> Option<Stop>
    ensures { (s : Known) (seen : ℕ → Seen) → length seats.now ≡ length s.drives → SeatsStandFor seats.now s seen →
        result ≡ last_long_stop s.drives 0 (λ k. outcomes_seen (seen k)) }
{
    let count = seats.len();
    for i in 0..count {
        let stop = seats[count - 1 - i].last_long();
        if stop.is_some() {
            return stop;
        }
    }
    None
}

// Appends the planner's input of a drive, if there are fewer than 64; otherwise the list is unchanged.
fn push_wish(wish: Wish, wishes: &mut ArrayVec<Wish, 64>)
    ensures { wishes.new.items ≡ (if nat_lt (length wishes.old.items) 64 then wishes.old.items ++ wish ∷ [] else wishes.old.items) }
{
    if wishes.len() < 64 {
        wishes.push(wish);
    }
}

// Returns the planner's input of each drive, in ring order. There must be at most 64 drives, with a seat each.
pub fn wish_list(seats: &[Seat]) -> ArrayVec<Wish, 64>
    ensures { (s : Known) (seen : ℕ → Seen) → length seats.now ≡ length s.drives → length s.drives ≤ 64 → SeatsStandFor seats.now s seen →
        result.items ≡ wishes_from s.drives 0 (λ k. outcomes_seen (seen k)) }
{
    let mut wishes = ArrayVec::new();
    for place in 0..seats.len() {
        push_wish(seats[place].wish(), &mut wishes);
    }
    wishes
}

// Begins the next task of phase 3 at each idle seat that has one. The tasks that wait must be of phase 4. `planned` is whether there is a
// plan.
pub fn begin_seats(planned: bool, seats: &mut Vec<Seat>)
    ensures count { length seats.new.items ≡ length seats.old.items }
    ensures stand { (s : Known) (seen : ℕ → Seen) (plan : Option PlanView) (waiting : ℕ → List Task) → ((k : ℕ) → AreWaiting (waiting k)) → is_some plan ≡ planned →
        SeatsStandFor seats.old.items s seen → SeatsStandFor seats.new.items s (λ k. with_begun (begun_task 3 s plan (waiting k) k (seen k)) (seen k)) }
{
    for place in 0..seats.len() {
        let seat = &mut seats[place];
        seat.begin_in_3(planned);
    }
}

// Begins the next request at each idle seat that has one, if there is a plan and the drive's checks for phases 3 and 4 ended well. The
// tasks that wait must be of phase 4. `planned` is whether there is a plan.
pub fn begin_requests(planned: bool, seats: &mut Vec<Seat>)
    ensures count { length seats.new.items ≡ length seats.old.items }
    ensures stand { (s : Known) (seen : ℕ → Seen) (plan : Option PlanView) → ((k : ℕ) → AreWaiting (seen k).waiting) → is_some plan ≡ planned →
        SeatsStandFor seats.old.items s seen → SeatsStandFor seats.new.items s (λ k. with_begun (begun_task 4 s plan (seen k).waiting k (seen k)) (seen k)) }
{
    for place in 0..seats.len() {
        let seat = &mut seats[place];
        seat.begin_in_4(planned);
    }
}

// Appends the data record of each seat to the content of an MDT, and each seat keeps that it was sent. `count` is the number of the cycle.
// The content must have room for all within 2048 bytes; otherwise it is unspecified, but not empty if it wasn't before.
pub fn send_records(count: u32, seats: &mut Vec<Seat>, out: &mut Content)
    ensures count { length seats.new.items ≡ length seats.old.items }
    ensures stand { (s : Known) (seen : ℕ → Seen) → SeatsStandFor seats.old.items s seen → SeatsStandFor seats.new.items s (λ k. sent_in (seen k)) }
    ensures bytes { (s : Known) (seen : ℕ → Seen) → SeatsStandFor seats.old.items s seen → length (out.old ++ records_upto s seen count (length seats.old.items)) ≤ 2048 →
        out.new ≡ out.old ++ records_upto s seen count (length seats.old.items) }
    ensures some { 0 < length out.old → 0 < length out.new }
{
    for place in 0..seats.len() {
        let seat = &mut seats[place];
        seat.send_record(count, out);
    }
}

// Begins an epoch at each seat: what was received is forgotten, and the requests that weren't begun still wait. Adds the current requests
// to `reports` as broken. It must have room for one more per seat, of 128.
pub fn reset_seats(seats: &mut Vec<Seat>, reports: &mut ArrayVec<Reported, 128>)
    ensures count { length seats.new.items ≡ length seats.old.items }
    ensures stand { (s : Known) (seen : ℕ → Seen) → SeatsStandFor seats.old.items s seen → SeatsStandFor seats.new.items s (λ k. forgotten (seen k)) }
    ensures told { (s : Known) (seen : ℕ → Seen) → SeatsStandFor seats.old.items s seen → length reports.old.items + length seats.old.items ≤ 128 →
        reports.new.items ≡ with_reports (λ k. broken_in (seen k)) (length seats.old.items) reports.old.items }
{
    for place in 0..seats.len() {
        let seat = &mut seats[place];
        add(&mut seat.reset(), reports);
    }
}

// Ends a cycle of this phase at a seat, and adds the request that ended in it, if one did, to `reports`. There must be fewer than 128 of
// these. The report is moved only if there is one, since it is large.
fn end_seat(phase: u8, seat: &mut Seat, reports: &mut ArrayVec<Reported, 128>)
    ensures stand { (d : MemberView) (x : Seen) → SeatStandsFor seat.old d x → SeatStandsFor seat.new d (ended_in phase x) }
    ensures told { length reports.old.items < 128 → reports.new.items ≡ with_pair seat.old.report reports.old.items }
{
    if seat.has_report() {
        add(&mut seat.end_cycle(phase), reports);
    } else {
        seat.end_quiet_cycle(phase);
    }
}

// Ends a cycle of this phase at each seat, and adds the requests that ended in it to `reports`. It must have room for one more per seat, of
// 128.
pub fn end_seats(phase: u8, seats: &mut Vec<Seat>, reports: &mut ArrayVec<Reported, 128>)
    ensures count { length seats.new.items ≡ length seats.old.items }
    ensures stand { (s : Known) (seen : ℕ → Seen) → SeatsStandFor seats.old.items s seen → SeatsStandFor seats.new.items s (λ k. ended_in phase (seen k)) }
    ensures told { (s : Known) (seen : ℕ → Seen) → SeatsStandFor seats.old.items s seen → length reports.old.items + length seats.old.items ≤ 128 →
        reports.new.items ≡ with_reports (λ k. (seen k).report) (length seats.old.items) reports.old.items }
{
    for place in 0..seats.len() {
        let seat = &mut seats[place];
        end_seat(phase, seat, reports);
    }
}
