// A reader of a frame whose bits arrive in pieces. A function that takes bits requires that the reader has then taken at most 2^31 since it
// last started over. If the reader has taken some bits before the call (`IsFed`), it has taken these and the new ones after it.
ghost use Rattle.std.specs.Prelude.{◌≡◌, ℕ, ◌+◌, ◌*◌, ◌^◌, ◌<◌, ◌≤◌, Bool, false, cond, List, [], ◌∷◌, ◌++◌, length, take, drop, slice_index_or, Ok, IfOk, OnOk, OnErr};
ghost use Rattle.sercos_hdlc.specs.Clauses.{result_err, low_bits, bits_of, IsFrame, content_of, plain, reason_of, taken_of, IsFed, IsEnd, IsGroup};

use crate::bad_frame::BadFrame;
use crate::given::{Given, given_by};
use crate::group::Group;
use crate::kept::Kept;
use crate::reading::read_frame;
use crate::scan::Scan;
use sercos_bits::{BitBuf, Content};

// The bits of a byte.
const BYTE_BITS: usize = 8;

// The length of the opening flag, in bits.
const OPENING: u32 = 8;

// The ones in a row after which a zero was inserted. A further one is the sixth, of a flag.
const FIVE: u8 = 5;

// Returns whether the last zero was an inserted one: `before` if there is no new zero (`is_kept`), otherwise `dropped`.
fn last_zero(is_kept: bool, before: bool, dropped: bool) -> bool
    ensures { result ≡ cond is_kept before dropped }
{
    if is_kept { before } else { dropped }
}

// Returns bit `place` of a byte, the least significant being 0; false unless `place` is below `len`, which is at most 8.
fn bit_within(byte: u8, place: u8, len: u8) -> bool
    requires { len ≤ 8 }
    ensures { result ≡ slice_index_or (drop place (low_bits len byte)) 0 false }
{
    place < len && (byte >> place) % 2 == 1
}

/// Reads a frame whose bits arrive in pieces. The result is that of [`unframe`](crate::unframe) for all pieces together, regardless of the
/// cuts. It stores counts, at most 2050 plain bytes and at most seven more bits.
#[derive(Debug, Drop)]
pub struct Deframer {
    scan: Scan,
    kept: Kept,
}

impl Deframer {
    /// Returns a reader that has taken no bit.
    pub fn new() -> Deframer
        ensures fed { IsFed [] result }
        ensures taken { taken_of result ≡ 0 }
    {
        Deframer {
            scan: Scan::new(),
            kept: Kept::new(),
        }
    }

    /// Returns the number of bits taken since the reader was made or last started over.
    pub fn taken(&self) -> u32
        ensures value { result ≡ taken_of self.now }
        ensures all { (bits : List Bool) → IsFed bits self.now → result ≡ length bits }
    {
        self.scan.taken
    }

    /// Starts over: the reader has taken no bit.
    pub fn restart(&mut self)
        ensures fed { IsFed [] self.new }
        ensures taken { taken_of self.new ≡ 0 }
    {
        self.scan = Scan::new();
        self.kept.clear();
    }

    // Takes a plain bit: at least eight bits were taken before it, whether or not the first eight are the flag, and of those after the
    // eighth fewer than five ones in a row precede it.
    fn take_plain(&mut self, bit: bool)
        requires fits { taken_of self.old < 2147483648 }
        requires behind { 8 ≤ taken_of self.old }
        requires few { self.old.scan.ones < 5 }
        ensures taken { taken_of self.new ≡ taken_of self.old + 1 }
        ensures fed { (bits : List Bool) → IsFed bits self.old → IsFed (bits ++ bit ∷ []) self.new }
    {
        self.scan.take_plain(bit);
        self.kept.push(u64::from(bit), 1);
    }

    // Takes `len` bits, at least one, after the first six ones, directly or later. Of these only the first, `bit`, matters, and only if it
    // directly follows the six: then it may be a seventh one.
    #[inline(always)]
    fn take_later(&mut self, bit: bool, len: u32)
        requires some { 1 ≤ len }
        requires fits { taken_of self.old + len ≤ 2147483648 }
        requires behind { 8 ≤ taken_of self.old }
        requires six { 5 < self.old.scan.ones }
        ensures taken { taken_of self.new ≡ taken_of self.old + len }
        ensures fed { (bits others : List Bool) → length others + 1 ≡ len → IsFed bits self.old
            → IsFed (bits ++ bit ∷ others) self.new }
    {
        self.scan.take_later(bit, len);
    }

    // Takes a bit.
    fn take_bit(&mut self, bit: bool)
        requires { taken_of self.old < 2147483648 }
        ensures taken { taken_of self.new ≡ taken_of self.old + 1 }
        ensures fed { (bits : List Bool) → IsFed bits self.old → IsFed (bits ++ bit ∷ []) self.new }
    {
        if self.scan.taken < OPENING {
            self.scan.take_first(bit);
            return;
        }
        if self.scan.ones < FIVE {
            self.take_plain(bit);
            return;
        }
        if self.scan.ones > FIVE {
            self.take_later(bit, 1);
            return;
        }
        if bit {
            self.scan.take_sixth();
            return;
        }
        self.scan.take_inserted();
    }

    // Takes the `len` lowest bits of a byte, at most eight, one by one, the least significant first.
    #[inline(never)]
    fn take_bits_of(&mut self, byte: u8, len: u8)
        requires few { len ≤ 8 }
        requires fits { taken_of self.old + len ≤ 2147483648 }
        ensures taken { taken_of self.new ≡ taken_of self.old + len }
        ensures fed { (bits : List Bool) → IsFed bits self.old → IsFed (bits ++ low_bits len byte) self.new }
    {
        let mut rest = byte;
        for _place in 0..len {
            self.take_bit(rest % 2 == 1);
            rest /= 2;
        }
    }

    // Takes the `len` lowest bits of a byte, at most eight. Eight bits or more were taken before, those after the eighth without a sixth
    // one in a row; the byte's eight bits contain one, among the `len` lowest or after them. `given` is the result of `given_by` for the
    // reader's `ones` and the byte.
    #[inline(always)]
    fn take_end(&mut self, byte: u8, given: Given, len: u8)
        requires len { len ≤ 8 }
        requires fits { taken_of self.old + len ≤ 2147483648 }
        requires behind { 8 ≤ taken_of self.old }
        requires few { self.old.scan.ones ≤ 5 }
        requires end { IsEnd self.old.scan.ones (low_bits 8 byte) given }
        requires six { 6 ≤ given.ones }
        requires ones { given.ones ≤ 7 }
        requires count { given.count ≤ 8 }
        requires below { given.bits < 2 ^ given.count }
        ensures taken { taken_of self.new ≡ taken_of self.old + len }
        ensures fed { (bits : List Bool) → IsFed bits self.old → IsFed (bits ++ low_bits len byte) self.new }
    {
        let place = given.count + (given.ones - 6);
        if place >= len {
            self.take_bits_of(byte, len);
            return;
        }
        let dropped = last_zero(
            place + self.scan.ones == FIVE,
            self.scan.dropped,
            given.dropped,
        );
        let seventh = bit_within(byte, place + 1, len);
        self.scan
            .take_end(place, dropped, given.count, seventh, u32::from(len));
        self.kept.push(u64::from(given.bits), given.count);
    }

    // Takes the `len` lowest bits of a byte, 1 to 8, the least significant first.
    #[inline(always)]
    fn take_low(&mut self, byte: u8, len: u8)
        requires some { 1 ≤ len }
        requires few { len ≤ 8 }
        requires fits { taken_of self.old + len ≤ 2147483648 }
        ensures taken { taken_of self.new ≡ taken_of self.old + len }
        ensures fed { (bits : List Bool) → IsFed bits self.old → IsFed (bits ++ low_bits len byte) self.new }
    {
        if self.scan.taken < OPENING {
            self.take_opening(byte, len);
            return;
        }
        if self.scan.ones > FIVE {
            self.take_later(byte % 2 == 1, u32::from(len));
            return;
        }
        let given = given_by(self.scan.ones, byte);
        if given.ones > FIVE {
            self.take_end(byte, given, len);
            return;
        }
        if len < 8 {
            self.take_bits_of(byte, len);
            return;
        }
        self.scan
            .take_clear(given.ones, given.dropped, given.count, 8);
        self.kept.push(u64::from(given.bits), given.count);
    }

    // Takes the `len` lowest bits of a byte, at most eight, the least significant first. `take_low` calls it while fewer than eight bits
    // were taken; its clauses hold after any number of bits.
    #[inline(always)]
    fn take_opening(&mut self, byte: u8, len: u8)
        requires few { len ≤ 8 }
        requires fits { taken_of self.old + len ≤ 2147483648 }
        ensures taken { taken_of self.new ≡ taken_of self.old + len }
        ensures fed { (bits : List Bool) → IsFed bits self.old → IsFed (bits ++ low_bits len byte) self.new }
    {
        if self.scan.taken > 0 || len < 8 {
            self.take_bits_of(byte, len);
            return;
        }
        self.scan.take_first_byte(byte);
    }

    // Takes the bits of the first `group.len` of these bytes, at most seven. The group is what `Group::after` returns for them and the
    // reader's `ones` and `dropped`. Eight bits or more were taken before, and no sixth one in a row is in the group or, after the eighth
    // bit, before it.
    #[inline(always)]
    fn take_clear(&mut self, bytes: &[u8], group: Group)
        requires len { group.len ≤ length bytes.now }
        requires count { group.count ≤ 8 * group.len }
        requires seven { group.len ≤ 7 }
        requires fits { taken_of self.old + 8 * group.len ≤ 2147483648 }
        requires behind { 8 ≤ taken_of self.old }
        requires few { self.old.scan.ones ≤ 5 }
        requires group { IsGroup self.old.scan.ones self.old.scan.dropped (bits_of (take group.len bytes.now)) group }
        ensures taken { taken_of self.new ≡ taken_of self.old + 8 * group.len }
        ensures fed { (bits : List Bool) → IsFed bits self.old → IsFed (bits ++ bits_of (take group.len bytes.now)) self.new }
    {
        self.scan.take_clear(group.ones, group.dropped, group.count, 8 * group.len as u32);
        self.kept.push(group.bits, group.count);
    }

    // Takes the first of 1 to 7 bytes up to the one that has a sixth one in a row, included, or all if none has it, and returns how many it
    // took, at least one. Eight bits or more were taken before, whether or not the first eight are the flag, and those after the eighth
    // have no sixth one in a row.
    #[inline(always)]
    fn take_group(&mut self, bytes: &[u8]) -> usize
        requires some { 1 ≤ length bytes.now }
        requires seven { length bytes.now ≤ 7 }
        requires fits { taken_of self.old + 8 * length bytes.now ≤ 2147483648 }
        requires behind { 8 ≤ taken_of self.old }
        requires few { self.old.scan.ones ≤ 5 }
        ensures some { 1 ≤ result }
        ensures within { result ≤ length bytes.now }
        ensures taken { taken_of self.new ≡ taken_of self.old + 8 * result }
        ensures fed { (bits : List Bool) → IsFed bits self.old → IsFed (bits ++ bits_of (take result bytes.now)) self.new }
    {
        let group = Group::after(self.scan.ones, self.scan.dropped, bytes);
        self.take_clear(bytes, group);
        if group.len == bytes.len() {
            return group.len;
        }
        self.take_low(bytes[group.len], 8);
        group.len + 1
    }

    // Takes at least the first of these bytes, and returns how many it took. There must be at least one. It takes one byte while fewer than
    // eight bits were taken, all after a sixth one in a row, and otherwise what `take_group` takes of at most the first seven.
    #[inline(always)]
    fn take_some(&mut self, bytes: &[u8]) -> usize
        requires some { 1 ≤ length bytes.now }
        requires fits { taken_of self.old + 8 * length bytes.now ≤ 2147483648 }
        ensures some { 1 ≤ result }
        ensures within { result ≤ length bytes.now }
        ensures taken { taken_of self.new ≡ taken_of self.old + 8 * result }
        ensures fed { (bits : List Bool) → IsFed bits self.old → IsFed (bits ++ bits_of (take result bytes.now)) self.new }
    {
        if self.scan.taken < OPENING {
            self.take_low(bytes[0], 8);
            return 1;
        }
        if self.scan.ones > FIVE {
            self.take_later(bytes[0] % 2 == 1, 8 * bytes.len() as u32);
            return bytes.len();
        }
        if bytes.len() < 7 {
            return self.take_group(bytes);
        }
        self.take_group(&bytes[..7])
    }

    // Takes the first `count` whole bytes of a piece, which must have them.
    fn take_bytes(&mut self, piece: &BitBuf, count: usize)
        requires within { 8 * count ≤ length piece.now }
        requires fits { taken_of self.old + 8 * count ≤ 2147483648 }
        ensures taken { taken_of self.new ≡ taken_of self.old + 8 * count }
        ensures fed { (bits : List Bool) → IsFed bits self.old → IsFed (bits ++ take (8 * count) piece.now) self.new }
    {
        for place in 0..count {
            self.take_low(piece.byte_at(BYTE_BITS * place), 8);
        }
    }

    // Takes the bits of a piece from offset `from` on, which is at most its length. Those before it are the last that were taken.
    fn take_from(&mut self, piece: &BitBuf, from: usize)
        requires within { from ≤ length piece.now }
        requires fits { taken_of self.old + length piece.now ≤ 2147483648 + from }
        ensures taken { taken_of self.new + from ≡ taken_of self.old + length piece.now }
        ensures fed { (bits : List Bool) → IsFed (bits ++ take from piece.now) self.old → IsFed (bits ++ piece.now) self.new }
    {
        for place in from..piece.len() {
            self.take_bit(piece.get(place));
        }
    }

    /// Takes the next bits. A frame may be cut after any bit. At most 2^31 bits are taken before the reader starts over.
    pub fn feed(&mut self, piece: &BitBuf)
        requires { taken_of self.old + length piece.now ≤ 2 ^ 31 }
        ensures fed { (bits : List Bool) → IsFed bits self.old → IsFed (bits ++ piece.now) self.new }
        ensures taken { taken_of self.new ≡ taken_of self.old + length piece.now }
    {
        let whole = piece.len() / BYTE_BITS;
        self.take_bytes(piece, whole);
        self.take_from(piece, BYTE_BITS * whole);
    }

    /// Takes the `len` lowest bits of a byte, at most eight, the least significant first, as [`feed`](Deframer::feed) does. The limit of
    /// 2^31 bits is the same.
    pub fn feed_low(&mut self, byte: u8, len: u8)
        requires few { len ≤ 8 }
        requires fits { taken_of self.old + len ≤ 2 ^ 31 }
        ensures fed { (bits : List Bool) → IsFed bits self.old → IsFed (bits ++ low_bits len byte) self.new }
        ensures taken { taken_of self.new ≡ taken_of self.old + len }
    {
        if len > 0 {
            self.take_low(byte, len);
        }
    }

    /// Takes the bits of bytes, the least significant bit of each byte first, as [`feed`](Deframer::feed) does. The limit of 2^31 bits is
    /// the same.
    pub fn feed_bytes(&mut self, bytes: &[u8])
        requires { taken_of self.old + 8 * length bytes.now ≤ 2 ^ 31 }
        ensures fed { (bits : List Bool) → IsFed bits self.old → IsFed (bits ++ bits_of bytes.now) self.new }
        ensures taken { taken_of self.new ≡ taken_of self.old + 8 * length bytes.now }
    {
        let mut place = 0;
        while place < bytes.len() {
            place += self.take_some(&bytes[place..]);
        }
    }

    /// Returns the content of the frame that the bits taken are, 1 to 2048 bytes, as [`unframe`](crate::unframe) does for all pieces
    /// together. If they are not a frame, the error is the first rule that applies (see [`BadFrame`]).
    pub fn content(&self) -> Result<&[u8], BadFrame>
        ensures frame { (bits : List Bool) → IsFed bits self.now → IfOk result (λ content. IsFrame content.now bits) }
        ensures content { (bits : List Bool) → IsFed bits self.now → IfOk result (λ content. content.now ≡ content_of (plain bits)) }
        ensures few { IfOk result (λ content. length content.now ≤ 2048) }
        ensures reason { (bits : List Bool) → IsFed bits self.now → result_err result ≡ reason_of bits }
    {
        read_frame(&self.scan, &self.kept)
    }

    /// Replaces `out` by the content of the frame that the bits taken are, and returns its number of bytes, as [`unframe`](crate::unframe)
    /// does for all pieces together. If they are not a frame, the error is the first rule that applies (see [`BadFrame`]), and `out` is
    /// empty. In both cases the reader then starts over.
    pub fn finish(&mut self, out: &mut Content) -> Result<usize, BadFrame>
        ensures frame { (bits : List Bool) → IsFed bits self.old → OnOk result (IsFrame out.new bits) }
        ensures only { (bits : List Bool) (content : List ℕ) → IsFed bits self.old → IsFrame content bits
            → (result ≡ Ok (length content)) × (out.new ≡ content) }
        ensures length { IfOk result (λ count. count ≡ length out.new) }
        ensures content { (bits : List Bool) → IsFed bits self.old → OnOk result (out.new ≡ content_of (plain bits)) }
        ensures reason { (bits : List Bool) → IsFed bits self.old → result_err result ≡ reason_of bits }
        ensures empty { OnErr result (out.new ≡ []) }
        ensures anew { IsFed [] self.new }
        ensures taken { taken_of self.new ≡ 0 }
    {
        match self.content() {
            Ok(content) => {
                let count = content.len();
                out.assign(content);
                self.restart();
                Ok(count)
            },
            Err(reason) => {
                out.clear();
                self.restart();
                Err(reason)
            },
        }
    }
}

/// Replaces `out` by the content of the frame of ISO/IEC 3309 that the bits are, from the first bit of the opening flag to the last bit of
/// the closing flag, and returns its number of bytes, 1 to 2048. If the bits are not a frame, the error is the first rule that applies (see
/// [`BadFrame`]), and `out` is empty.
pub fn unframe(bits: &BitBuf, out: &mut Content) -> Result<usize, BadFrame>
    ensures frame { OnOk result (IsFrame out.new bits.now) }
    ensures only { (content : List ℕ) → IsFrame content bits.now
        → (result ≡ Ok (length content)) × (out.new ≡ content) }
    ensures length { IfOk result (λ count. count ≡ length out.new) }
    ensures content { OnOk result (out.new ≡ content_of (plain bits.now)) }
    ensures reason { result_err result ≡ reason_of bits.now }
    ensures empty { OnErr result (out.new ≡ []) }
{
    prove!(bits.len() <= 19696);
    let mut deframer = Deframer::new();
    deframer.feed(bits);
    deframer.finish(out)
}
