// How the master processes its own MST and the ATs. Drives are named by their index in ring order.
ghost use Rattle.std.specs.Prelude.{◌≡◌, ◌<◌, ◌≤◌, ◌==◌, ◌&&◌, true, false, length, nat_le, Option, Some, None, IfSome, option_map, if◌then◌else◌, slice_index_or};
ghost use Rattle.sercos_master.specs.Clauses.{Known, Past, is_mst, after_mst, after_at, place_of, is_awaited, wanted_len, after_at_of, is_place, SeatView, at_len_kept, CoreStandsFor};

use crate::counts::is_place;
use crate::ring::Ring;
use sercos_bits::byte_at;
use sercos_telegram::read_mst;

impl Ring {
    // Processes the content of the master's own MST as it returned; `None` if it didn't. Keeps whether it is that of an MST of the
    // commanded phase, in place of what an earlier call in this cycle kept.
    pub fn hear_mst(&mut self, content: Option<&[u8]>)
        ensures { (s : Known) (p : Past) → CoreStandsFor self.old s p →
            CoreStandsFor self.new s (after_mst (option_map (λ c. c.now) content.entry) p) }
    {
        self.whole = is_mst(self.phase, content);
    }

    // Returns whether an AT of a drive is awaited: in phases 3 and 4 always, in phases 1 and 2 if the drive was addressed in the cycle
    // before, in phase 0 never.
    fn is_awaited(&self, place: usize) -> bool
        ensures { result ≡ (if nat_le 3 self.now.phase then true else (nat_le 1 self.now.phase && is_place place self.now.before)) }
    {
        if self.phase >= 3 {
            return true;
        }
        self.phase >= 1 && is_place(place, self.before)
    }

    // Returns the length of a drive's AT in this phase, in bytes after the address: 4 before phase 3, then by the attributes read. The
    // index must be that of a drive.
    fn wanted_len(&self, place: usize) -> u16
        requires { place < length self.now.seats }
        ensures value { (v : SeatView) → result ≡ (if nat_le 3 self.now.phase then at_len_kept (slice_index_or self.now.seats place v) else 4) }
        ensures bound { 4 ≤ result }
    {
        if self.phase >= 3 {
            self.seats[place].at_len()
        } else {
            4
        }
    }

    // Processes a content at the place of an AT, for the drive at an index. It is ignored if no AT of the drive is awaited. Otherwise it is
    // taken if it is the first content in this cycle with the address of the drive and the length of its AT in this phase. The index must
    // be that of a drive.
    fn hear_from(&mut self, place: usize, content: &[u8])
        requires { place < length self.old.seats }
        ensures { (s : Known) (p : Past) → CoreStandsFor self.old s p → CoreStandsFor self.new s (after_at_of s (Some place) content.now p) }
    {
        if !self.is_awaited(place) {
            return;
        }
        let wanted = self.wanted_len(place);
        let identifies = self.phase == 1;
        let seat = &mut self.seats[place];
        seat.take_at(identifies, wanted, content);
    }

    // Returns the index of the drive with an address; `None` if there is none.
    fn place_of(&self, address: u8) -> Option<usize>
        ensures value { (s : Known) (p : Past) → CoreStandsFor self.now s p → result ≡ place_of s address }
        ensures bound { IfSome result (λ k. k < length self.now.seats) }
    {
        let Some(place) = self.places.of(address) else {
            return None;
        };
        if place >= self.seats.len() {
            return None;
        }
        Some(place)
    }

    // Processes a content at the place of an AT: for the drive with the address in its first byte, as `hear_from` does. It is ignored if
    // there is no such drive.
    pub fn hear_at(&mut self, content: &[u8])
        ensures { (s : Known) (p : Past) → CoreStandsFor self.old s p → CoreStandsFor self.new s (after_at s content.now p) }
    {
        if let Some(place) = self.place_of(byte_at(content, 0)) {
            self.hear_from(place, content);
        }
    }
}

// Returns whether there is a content and it is the MST of a phase.
fn is_mst(phase: u8, content: Option<&[u8]>) -> bool
    ensures { result ≡ is_mst phase (option_map (λ c. c.now) content.entry) }
{
    let Some(bytes) = content else {
        return false;
    };
    match read_mst(bytes) {
        Ok(mst) => mst.phase == phase,
        Err(_) => false,
    }
}
