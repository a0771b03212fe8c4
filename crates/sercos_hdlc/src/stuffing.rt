// The zeros that are inserted after five ones in a row, byte by byte.
ghost use Rattle.std.specs.Prelude.{◌≡◌, ◌+◌, ◌*◌, ◌^◌, ◌<◌, ◌≤◌, ◌++◌, length, drop, fold};
ghost use Rattle.sercos_hdlc.specs.Clauses.{low_bits, bits_of, fed, ones_behind, stuffed};

use crate::tables::{counts_of, ones_at_end, sent_for};
use sercos_bits::{BitBuf, Register, push_number};

// Appends the bits that are sent for a byte after `ones` ones in a row, and returns the number of ones in a row at their end. Both numbers
// are below 5. Five times the free bits of `out` must be at least `ones` + 48: room for eight bits, and for a zero after each five bits,
// the ones before the byte included.
fn push_byte(byte: u8, ones: usize, out: &mut BitBuf) -> usize
    requires few { ones < 5 }
    requires room { 5 * length out.old + ones + 48 ≤ 5 * 19696 }
    ensures bits { out.new ≡ out.old ++ stuffed ones (low_bits 8 byte) }
    ensures ones { result ≡ fold ones_behind ones (low_bits 8 byte) }
    ensures few { result < 5 }
    ensures room { 5 * length out.new + result ≤ 5 * length out.old + ones + 48 }
{
    let counts = counts_of(ones, byte);
    push_number(sent_for(ones, byte), usize::from(counts / 16), out);
    usize::from(counts % 16)
}

/// Appends the bits that are sent for bytes after `ones` ones in a row, and returns the number of ones in a row at their end. Both numbers
/// are below 5. Five times the free bits of `out` must be at least `ones` plus 48 for each byte: room for its eight bits, and for a zero
/// after each five bits, the ones before the bytes included.
pub fn push_bytes(bytes: &[u8], ones: usize, out: &mut BitBuf) -> usize
    requires few { ones < 5 }
    requires room { 5 * length out.old + ones + 48 * length bytes.now ≤ 5 * 19696 }
    ensures bits { out.new ≡ out.old ++ stuffed ones (bits_of bytes.now) }
    ensures ones { result ≡ fold ones_behind ones (bits_of bytes.now) }
    ensures few { result < 5 }
    ensures room { 5 * length out.new + result ≤ 5 * length out.old + ones + 48 * length bytes.now }
{
    let mut run = ones;
    for byte in bytes {
        run = push_byte(*byte, run, out);
    }
    run
}

// Returns the number of ones in a row at the end of what is sent for the byte 0xff after `ones` ones in a row, 0 to 4. It is a function of
// its own so that the processor waits for that number after such a byte alone.
#[cold]
#[inline(never)]
fn ones_behind_ones(ones: usize) -> usize
    requires { ones < 5 }
    ensures value { result ≡ fold ones_behind ones (low_bits 8 255) }
    ensures few { result < 5 }
{
    usize::from(counts_of(ones, 255) % 16)
}

// Returns the number of ones in a row at the end of what is sent for a byte after `ones` ones in a row. Both numbers are below 5.
#[inline(always)]
fn ones_after(byte: u8, ones: usize) -> usize
    requires { ones < 5 }
    ensures value { result ≡ fold ones_behind ones (low_bits 8 byte) }
    ensures few { result < 5 }
{
    if byte == 255 {
        return ones_behind_ones(ones);
    }
    ones_at_end(byte)
}

// Adds to `len` the number of bits that are sent for a byte after `ones` ones in a row, at most 16, and returns the number of ones in a row
// at their end. Both numbers of ones are below 5. `len` plus 16 must be below 2^32.
#[inline(always)]
fn count_byte(byte: u8, ones: usize, len: &mut u32) -> usize
    requires few { ones < 5 }
    requires room { len.old + 16 < 2 ^ 32 }
    ensures len { len.new ≡ len.old + length (stuffed ones (low_bits 8 byte)) }
    ensures ones { result ≡ fold ones_behind ones (low_bits 8 byte) }
    ensures few { result < 5 }
    ensures room { len.new ≤ len.old + 16 }
{
    *len += u32::from(counts_of(ones, byte) / 16);
    ones_after(byte, ones)
}

/// Adds to `len` the number of bits that [`push_bytes`] would append, at most 16 for each byte, and returns what it would return. `ones` is
/// 0 to 4. `len` plus 16 for each byte must be below 2^32.
pub fn count_bytes(bytes: &[u8], ones: usize, len: &mut u32) -> usize
    requires few { ones < 5 }
    requires room { len.old + 16 * length bytes.now < 2 ^ 32 }
    ensures len { len.new ≡ len.old + length (stuffed ones (bits_of bytes.now)) }
    ensures ones { result ≡ fold ones_behind ones (bits_of bytes.now) }
    ensures few { result < 5 }
    ensures room { len.new ≤ len.old + 16 * length bytes.now }
{
    let mut run = ones;
    for byte in bytes {
        run = count_byte(*byte, run, len);
    }
    run
}

// Does the work of `count_taken` for the first `count` pairs of bytes, which must exist: adds at most 32 to `len` for each pair, and
// returns 0 to 4. `len` plus 32 for each pair must be below 2^32.
fn count_pairs(bytes: &[u8], count: usize, register: &mut Register, len: &mut u32) -> usize
    requires pairs { 2 * count ≤ length bytes.now }
    requires room { len.old + 32 * count < 2 ^ 32 }
    ensures len { len.new + length (stuffed result (bits_of (drop (2 * count) bytes.now))) ≡ len.old + length (stuffed 0 (bits_of bytes.now)) }
    ensures ones { fold ones_behind result (bits_of (drop (2 * count) bytes.now)) ≡ fold ones_behind 0 (bits_of bytes.now) }
    ensures few { result < 5 }
    ensures room { len.new ≤ len.old + 32 * count }
    ensures register { fold fed register.new (bits_of (drop (2 * count) bytes.now)) ≡ fold fed register.old (bits_of bytes.now) }
{
    let mut run = 0;
    for place in 0..count {
        register.take_two(bytes[2 * place], bytes[2 * place + 1]);
        let between = count_byte(bytes[2 * place], run, len);
        run = count_byte(bytes[2 * place + 1], between, len);
    }
    run
}

/// Adds to `len` the number of bits that are sent for bytes at the beginning of a body, at most 16 for each, lets the register take these
/// bytes, and returns the number of ones in a row at the end of what is sent, 0 to 4. `len` plus 16 for each byte must be below 2^32. Bytes
/// are processed in pairs, since each pair can be counted while the register waits for its tables.
pub fn count_taken(bytes: &[u8], register: &mut Register, len: &mut u32) -> usize
    requires { len.old + 16 * length bytes.now < 2 ^ 32 }
    ensures len { len.new ≡ len.old + length (stuffed 0 (bits_of bytes.now)) }
    ensures ones { result ≡ fold ones_behind 0 (bits_of bytes.now) }
    ensures few { result < 5 }
    ensures room { len.new ≤ len.old + 16 * length bytes.now }
    ensures register { register.new ≡ fold fed register.old (bits_of bytes.now) }
{
    let pairs = bytes.len() / 2;
    let ones = count_pairs(bytes, pairs, register, len);
    if bytes.len() % 2 == 0 {
        return ones;
    }
    register.take(bytes[2 * pairs]);
    count_byte(bytes[2 * pairs], ones, len)
}
