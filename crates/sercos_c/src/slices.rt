//! A source and a sink over slices.
ghost use Rattle.std.specs.Prelude.{◌≡◌, ◌-◌, ◌≤◌, true, false, ◌∷◌, ◌++◌, Some, min, length, take, drop, if◌then◌else◌};
ghost use Rattle.sercos_model.specs.Streams.{last_count};

use sercos_io::{ReadFailed, Sink, Source, WriteFailed};

// Copies bytes from the front of `from` to the front of `into`, as many as both have, and returns their number. The bytes of `into` after
// these stay.
fn copy_front(from: &[u8], into: &mut [u8]) -> usize
    ensures count { result ≡ min (length into.old) (length from.now) }
    ensures copied { into.new ≡ take result from.now ++ drop result into.old }
{
    let count = into.len().min(from.len());
    into[..count].copy_from_slice(&from[..count]);
    count
}

/// A source of the bytes of a slice, which never fails.
#[derive(Drop)]
pub(crate) struct SliceSource<'a> {
    pub(crate) bytes: &'a [u8],
}

impl<'a> Source for SliceSource<'a> {
    ghost left = { λ s. Some s.bytes.now };

    ghost faults = { λ _. 0 };

    /// Copies the next bytes to the front of `piece`, as many as it holds, or all that are left if these are fewer, and returns their
    /// number. The other bytes of `piece` are unchanged. It never returns an error.
    fn read(&mut self, piece: &mut [u8]) -> Result<usize, ReadFailed> {
        let count = copy_front(self.bytes, piece);
        self.bytes = &self.bytes[count..];
        Ok(count)
    }
}

/// A sink that writes to the front of a slice, until it is full.
///
/// What a contract sees of it as a sink begins with the name of its reference and the number of its bytes. So a caller that knows what was
/// appended also knows that it is still the same slice.
#[derive(Drop)]
pub(crate) struct SliceSink<'a> {
    pub(crate) room: &'a mut [u8],
    pub(crate) place: usize,
    pub(crate) is_full: bool,
    ghost within: { place ≤ length room.now },
    ghost full: { is_full ≡ true → place ≡ length room.now },
}

impl<'a> SliceSink<'a> {
    /// Returns a sink over a slice that has taken nothing.
    pub(crate) fn new(room: &'a mut [u8]) -> SliceSink<'a>
        ensures room { result.room ≡ room.entry }
        ensures place { result.place ≡ 0 }
        ensures is_full { result.is_full ≡ false }
    {
        SliceSink {
            room,
            place: 0,
            is_full: false,
        }
    }
}

impl<'a> Sink for SliceSink<'a> {
    ghost held = { λ s. Some (s.room.ghost_name ∷ length s.room.now ∷ take s.place s.room.now) };

    ghost faults = { λ s. if s.is_full then last_count else 0 };

    ghost room = { λ s. length s.room.now - s.place };

    /// Takes bytes from the front of the piece, as many as have room, and returns their number. The error is `WriteFailed` if there is no
    /// room, and the piece isn't empty. The sink is then full, and its count of faults is 2^64 - 1.
    fn write(&mut self, piece: &[u8]) -> Result<usize, WriteFailed> {
        let place = self.place;
        if place == self.room.len() && !piece.is_empty() {
            self.is_full = true;
            return Err(WriteFailed);
        }
        let count = copy_front(piece, &mut self.room[place..]);
        self.place = place + count;
        Ok(count)
    }
}
