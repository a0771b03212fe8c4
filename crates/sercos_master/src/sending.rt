// The MDT of each phase. Each function replaces the content `out` by that of the MDT, and returns its start in microseconds after the MST's
// end. If no MDT is sent the result is `None`, and `out` is unspecified.
ghost use Rattle.std.specs.Prelude.{◌≡◌, ◌<◌, ◌≤◌, true, false, length, Option, Some, None, IfSome, is_some, option_map};
ghost use Rattle.sercos_master.specs.Clauses.{control_word, mdt_said, Known, Past, sent_now, Fits, CoreStandsFor};

use crate::ring::Ring;
use crate::seats::{first_unidentified, first_working, send_records};
use sercos_bits::Content;
use sercos_telegram::{Control, joint_begin, write_single};
use sercos_timing::Plan;
use sercos_timing::limits::EARLY_MDT;

impl Ring {
    // Sends the MDT of phase 1: zeros to the first drive that isn't identified, and keeps that it addresses this drive; `None`, and no
    // drive is addressed, if all are. The phase must be 1.
    fn identify(&mut self, out: &mut Content) -> Option<u16>
        ensures stands { (s : Known) (p : Past) → p.now.phase ≡ 1 → CoreStandsFor self.old s p → CoreStandsFor self.new s (sent_now s p) }
        ensures start { (s : Known) (p : Past) → p.now.phase ≡ 1 → CoreStandsFor self.old s p → result ≡ option_map (λ m. m.start) (mdt_said s (sent_now s p)) }
        ensures content { (s : Known) (p : Past) → p.now.phase ≡ 1 → CoreStandsFor self.old s p → IfSome (mdt_said s (sent_now s p)) (λ m. out.new ≡ m.content) }
        ensures some { is_some result ≡ true → 0 < length out.new }
    {
        let found = first_unidentified(self.seats.as_slice());
        self.addressed = found;
        let Some(place) = found else {
            return None;
        };
        let address = self.seats[place].member().address();
        write_single(address, &idle_control(), 0, out);
        Some(EARLY_MDT)
    }

    // Sends the MDT of phase 2: the open step, to the first drive with a current task, and keeps that it addresses this drive, whose seat
    // keeps that the step was sent; `None`, and no drive is addressed, if there is none. The phase must be 2.
    fn send_single(&mut self, out: &mut Content) -> Option<u16>
        ensures stands { (s : Known) (p : Past) → p.now.phase ≡ 2 → CoreStandsFor self.old s p → CoreStandsFor self.new s (sent_now s p) }
        ensures start { (s : Known) (p : Past) → p.now.phase ≡ 2 → CoreStandsFor self.old s p → result ≡ option_map (λ m. m.start) (mdt_said s (sent_now s p)) }
        ensures content { (s : Known) (p : Past) → p.now.phase ≡ 2 → CoreStandsFor self.old s p → IfSome (mdt_said s (sent_now s p)) (λ m. out.new ≡ m.content) }
        ensures some { is_some result ≡ true → 0 < length out.new }
    {
        let found = first_working(self.seats.as_slice());
        self.addressed = found;
        let Some(place) = found else {
            return None;
        };
        let seat = &mut self.seats[place];
        seat.send_single(out);
        Some(EARLY_MDT)
    }

    // Sends the MDT of phases 3 and 4: the data records of all drives. It starts at T2 of the plan; `None` without a plan. In each case the
    // seats keep that their records were sent, and the MDT addresses no single drive. The phase must be at least 3. If there is a plan, the
    // content with all records must have at most 2048 bytes.
    fn send_joint(&mut self, out: &mut Content) -> Option<u16>
        ensures stands { (s : Known) (p : Past) → 3 ≤ p.now.phase → CoreStandsFor self.old s p → CoreStandsFor self.new s (sent_now s p) }
        ensures start { (s : Known) (p : Past) → 3 ≤ p.now.phase → CoreStandsFor self.old s p → result ≡ option_map (λ m. m.start) (mdt_said s (sent_now s p)) }
        ensures content { (s : Known) (p : Past) → 3 ≤ p.now.phase → (is_some p.plan ≡ true → Fits s p) → CoreStandsFor self.old s p → IfSome (mdt_said s (sent_now s p)) (λ m. out.new ≡ m.content) }
        ensures some { is_some result ≡ true → 0 < length out.new }
    {
        joint_begin(out);
        send_records(self.count, &mut self.seats, out);
        self.addressed = None;
        start_of(&self.plan)
    }

    // Sends the MDT of the phase, 0 to 4, and keeps which drive it addresses: one in phases 1 and 2, none in the others. The result is
    // `None` in phase 0, in phase 1 if all drives are identified, in phase 2 if there is no current task (none is addressed then), and in
    // phases 3 and 4 without a plan; there the seats keep their records as sent anyway. With a plan, the content with the data records of
    // all drives must have at most 2048 bytes in phases 3 and 4.
    pub fn send(&mut self, out: &mut Content) -> Option<u16>
        ensures stands { (s : Known) (p : Past) → p.now.phase ≤ 4 → CoreStandsFor self.old s p → CoreStandsFor self.new s (sent_now s p) }
        ensures start { (s : Known) (p : Past) → p.now.phase ≤ 4 → CoreStandsFor self.old s p → result ≡ option_map (λ m. m.start) (mdt_said s (sent_now s p)) }
        ensures content { (s : Known) (p : Past) → p.now.phase ≤ 4 → (is_some p.plan ≡ true → Fits s p) → CoreStandsFor self.old s p → IfSome (mdt_said s (sent_now s p)) (λ m. out.new ≡ m.content) }
        ensures some { is_some result ≡ true → 0 < length out.new }
    {
        match self.phase {
            0 => {
                self.addressed = None;
                None
            }
            1 => self.identify(out),
            2 => self.send_single(out),
            _ => self.send_joint(out),
        }
    }
}

// Returns T2 of the plan, the start of the MDT in microseconds after the MST's end; `None` without a plan.
fn start_of(plan: &Option<Plan>) -> Option<u16>
    ensures { result ≡ option_map (λ q. q.t2) plan.now }
{
    match plan {
        Some(found) => Some(found.t2),
        None => None,
    }
}

// Returns the control word of zeros.
fn idle_control() -> Control
    ensures { control_word result ≡ 0 }
{
    Control {
        mhs: false,
        write: false,
        last: false,
        element: 0,
        cyclic: 0,
    }
}
