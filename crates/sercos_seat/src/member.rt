// A drive as the master knows it from its setup.
ghost use Rattle.std.specs.Prelude.{◌≡◌, ◌+◌, ◌<◌, ◌≤◌, length, map, slice_get, slice_index, Some};
ghost use Rattle.sercos_seat.specs.Clauses.{bytes_in, IsRequest, reads_count, reads, writes_word, writes_list};
ghost use Rattle.sercos_step.specs.declared.request.Request.TheVariants as request;

use arrayvec::ArrayVec;
use sercos_bits::Bytes;
use sercos_block::numbers::{T1MIN, T4MIN, TATAT, TATMT, TMTSG, TMTSY};
use sercos_idn::Idn;
use sercos_idn::element::{ATTRIBUTE, DATA};
use sercos_step::Request;
use std::marker::Model;

/// A drive of the ring: its address, its slave, and the data blocks that its AT and its data record carry, at most 16 each.
#[derive(Drop)]
pub struct Member {
    address: u8,
    slave: u8,
    at: ArrayVec<Idn, 16>,
    mdt: ArrayVec<Idn, 16>,
}

impl Model for Member {
    ghost use Rattle.sercos_seat.specs.Ring.{MemberView};

    ghost Value = { MemberView };

    ghost view = { λ m. record { address = m.address; slave = m.slave; at = m.at.items; mdt = m.mdt.items } };
}

impl Member {
    /// Returns a drive with this address and slave. `at` and `mdt` are the data blocks that its AT and its data record carry.
    pub fn new(address: u8, slave: u8, at: ArrayVec<Idn, 16>, mdt: ArrayVec<Idn, 16>) -> Member
        ensures { (result.address ≡ address) × (result.slave ≡ slave) × (result.at ≡ at.items) × (result.mdt ≡ mdt.items) }
    {
        Member {
            address,
            slave,
            at,
            mdt,
        }
    }

    /// Returns the drive's address.
    pub fn address(&self) -> u8
        ensures { result ≡ self.now.address }
    {
        self.address
    }

    // Returns the drive's slave.
    pub(crate) fn slave(&self) -> u8
        ensures { result ≡ self.now.slave }
    {
        self.slave
    }

    /// Returns the number of reads of the start-up, 6 to 38.
    pub(crate) fn reads_count(&self) -> usize
        ensures value { result ≡ reads_count self.now }
        ensures bounds { (6 ≤ result) × (result ≤ 38) }
    {
        6 + self.at.len() + self.mdt.len()
    }

    /// Returns the read of the start-up at an index below [`reads_count`](Member::reads_count): first the six times, then the attributes of
    /// what the AT and the data record carry.
    #[tactic(auto, using(crate::proofs::Gets::reads_at, crate::proofs::Gets::reads_mdt))]
    pub(crate) fn read_at(&self, index: usize) -> Request
        requires { index < reads_count self.now }
        ensures value { slice_get (reads self.now) index ≡ Some result }
        ensures request { IsRequest result }
    {
        if index < 6 {
            return read(TIMES[index], DATA);
        }
        let at_count = self.at.len();
        if index - 6 < at_count {
            return read(idn_at(self.at(), index - 6), ATTRIBUTE);
        }
        read(idn_at(self.mdt(), index - 6 - at_count), ATTRIBUTE)
    }

    /// Returns the data blocks that the AT carries, at most 16.
    pub(crate) fn at(&self) -> &[Idn]
        ensures value { result.now ≡ self.now.at }
        ensures bound { length result.now ≤ 16 }
    {
        self.at.as_slice()
    }

    // Returns the data blocks that the data record carries, at most 16.
    pub(crate) fn mdt(&self) -> &[Idn]
        ensures value { result.now ≡ self.now.mdt }
        ensures bound { length result.now ≤ 16 }
    {
        self.mdt.as_slice()
    }
}

// Returns the identifier number at an index, which must be within the list.
fn idn_at(idns: &[Idn], place: usize) -> Idn
    requires { place < length idns.now }
    ensures { slice_get idns.now place ≡ Some result }
{
    idns[place]
}

// The identifier numbers of the times that a drive declares, in the order in which they are read.
const TIMES: [Idn; 6] = [T1MIN, TATMT, T4MIN, TATAT, TMTSY, TMTSG];

/// The times of the ring that the start-up writes to its drives.
#[derive(Clone, Copy)]
pub struct Numbers {
    /// The control unit cycle time, in microseconds.
    pub control: u16,
    /// The cycle time, in microseconds.
    pub cycle: u16,
}

/// Returns a read of an element, 1 to 7, of a data block.
pub fn read(idn: Idn, element: u8) -> Request
    requires { (1 ≤ element) × (element ≤ 7) }
    ensures value { result ≡ request.Read idn element }
    ensures request { IsRequest result }
{
    Request::Read { idn, element }
}

/// Returns a procedure command.
pub fn command(idn: Idn) -> Request
    ensures value { result ≡ request.Command idn }
    ensures request { IsRequest result }
{
    Request::Command { idn }
}

/// Returns a write of one word as operation data, its low byte first.
pub fn write_word(idn: Idn, value: u16) -> Request
    ensures value { result ≡ writes_word idn.raw value }
    ensures request { IsRequest result }
{
    let mut bytes = Bytes::new();
    bytes.push_word_within(value);
    Request::Write {
        idn,
        element: DATA,
        bytes,
    }
}

// Returns the bytes of a list of at most 16 identifier numbers, each with its low byte first.
fn list_bytes(idns: &[Idn]) -> Bytes
    requires { length idns.now ≤ 16 }
    ensures { result ≡ bytes_in (map (λ i. i.raw) idns.now) }
{
    let mut bytes = Bytes::new();
    for idn in idns {
        bytes.push_word_within(idn.raw);
    }
    bytes
}

/// Returns a write of a list of at most 16 identifier numbers as operation data, each with its low byte first.
pub fn write_list(idn: Idn, idns: &[Idn]) -> Request
    requires { length idns.now ≤ 16 }
    ensures value { result ≡ writes_list idn.raw idns.now }
    ensures request { IsRequest result }
{
    Request::Write {
        idn,
        element: DATA,
        bytes: list_bytes(idns),
    }
}

/// Returns the number at an index; 0 past the end.
pub fn number_at(numbers: &[u16], place: usize) -> u16
    ensures { result ≡ slice_index numbers.now place }
{
    if place < numbers.len() {
        numbers[place]
    } else {
        0
    }
}
