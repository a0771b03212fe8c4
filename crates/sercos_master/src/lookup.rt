// The index, in ring order, of the drive with an address.
ghost use Rattle.std.specs.Prelude.{◌≡◌, ◌<◌, ◌==◌, ℕ, length, None, IfSome, slice_index_or};
ghost use Rattle.sercos_master.specs.Clauses.{position};

use sercos_seat::Seat;
use std::marker::Model;

// Returns the index of the first drive with an address; `None` if there is none.
pub fn place_of(seats: &[Seat], address: u8) -> Option<usize>
    ensures value { result ≡ position (λ v. v.member.address == address) seats.now }
    ensures bound { IfSome result (λ k. k < length seats.now) }
{
    seats
        .iter()
        .position(|seat| seat.member().address() == address)
}

// The number of values of an address byte.
const ADDRESSES: usize = 256;

// The index of the drive with each address. An AT is looked up here, since the seats are far apart in memory.
#[derive(Drop)]
pub struct Places {
    of: [Option<usize>; ADDRESSES],
}

impl Model for Places {
    ghost use Rattle.std.specs.Prelude.{◌≡◌, ℕ, List, Option, length};

    ghost Value = { List (Option ℕ) };

    ghost view = { λ p. p.of };

    ghost invariant = { λ p. length p.of ≡ 256 };
}

impl Places {
    // Returns, for each address from 0 to 255, the index of the first of these drives with it; `None` if there is none.
    pub fn of_all(seats: &[Seat]) -> Places
        ensures { (address : ℕ) → address < 256 → slice_index_or result address None ≡ position (λ v. v.member.address == address) seats.now }
    {
        let mut of = [None; ADDRESSES];
        for address in 0..ADDRESSES {
            of[address] = place_of(seats, address as u8);
        }
        Places { of }
    }

    // Returns the index of the drive with an address; `None` if there is none.
    pub fn of(&self, address: u8) -> Option<usize>
        ensures value { result ≡ slice_index_or self.now address None }
        ensures byte { address < 256 }
    {
        self.of[usize::from(address)]
    }
}
