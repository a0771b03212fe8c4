// Bits in words of 64 bits, the least significant bit of each word first. Indices count from 0 over all words.
ghost use Rattle.std.specs.Prelude.{◌≡◌, ◌≢◌, ℕ, ◌+◌, ◌*◌, ◌/◌, ◌%◌, ◌^◌, ◌<◌, ◌≤◌, true, false, not, length};
ghost use Rattle.sercos_bits.specs.Clauses.{is_odd, bit_in};

/// The number of bits of a word.
pub const WORD_BITS: usize = 64;

/// Returns the bit at an index, which is within the words.
pub fn bit_in(words: &[u64], place: usize) -> bool
    requires { place < 64 * length words.now }
    ensures { result ≡ bit_in words.now place }
{
    (words[place / WORD_BITS] >> (place % WORD_BITS)) % 2 == 1
}

/// Complements the bit at an index, which is within the words. All others are unchanged.
pub fn flip_in(words: &mut [u64], place: usize)
    requires { place < 64 * length words.old }
    ensures there { bit_in words.new place ≡ not (bit_in words.old place) }
    ensures others { (i : ℕ) → i ≢ place → bit_in words.new i ≡ bit_in words.old i }
{
    words[place / WORD_BITS] ^= 1 << (place % WORD_BITS);
}

/// Clears all bits from index `place` on, and leaves those before it. Those from `end` on must be zeros already, so their words aren't
/// written. `end` is at most the number of bits in the words.
pub fn clear_from(words: &mut [u64], place: usize, end: usize)
    requires within { end ≤ 64 * length words.old }
    requires zeros { (i : ℕ) → end ≤ i → bit_in words.old i ≡ false }
    ensures kept { (i : ℕ) → i < place → bit_in words.new i ≡ bit_in words.old i }
    ensures cleared { (i : ℕ) → place ≤ i → bit_in words.new i ≡ false }
{
    if place >= end {
        return;
    }
    let first = place / WORD_BITS;
    words[first] %= 1 << (place % WORD_BITS);
    for word in first + 1..end.div_ceil(WORD_BITS) {
        words[word] = 0;
    }
}

// Sets the bits of one word that are ones in the mask. `word` is its index, below the number of words. Its bits that are zeros in the mask
// and those of all other words are unchanged.
fn set_ones(words: &mut [u64], word: usize, mask: u64)
    requires { word < length words.old }
    ensures there { (i : ℕ) → i / 64 ≡ word → bit_in words.old i ≡ false → bit_in words.new i ≡ is_odd (mask / 2 ^ (i % 64)) }
    ensures kept { (i : ℕ) → i / 64 ≡ word → is_odd (mask / 2 ^ (i % 64)) ≡ false → bit_in words.new i ≡ bit_in words.old i }
    ensures others { (i : ℕ) → i / 64 ≢ word → bit_in words.new i ≡ bit_in words.old i }
{
    words[word] |= mask;
}

/// Writes the lowest `len` bits of a number from index `place` on, the least significant first. The number must be below 2^`len`. The index
/// and all `len` bits must be within the words, and all bits from `place` on must be zeros. Those before `place` are unchanged, and those
/// after the `len` bits remain zeros.
pub fn put_number(words: &mut [u64], place: usize, number: u16, len: usize)
    requires begun { place < 64 * length words.old }
    requires within { place + len ≤ 64 * length words.old }
    requires few { number < 2 ^ len }
    requires zeros { (i : ℕ) → place ≤ i → bit_in words.old i ≡ false }
    ensures before { (i : ℕ) → i < place → bit_in words.new i ≡ bit_in words.old i }
    ensures there { (i : ℕ) → bit_in words.new (place + i) ≡ is_odd (number / 2 ^ i) }
{
    let bits = u64::from(number);
    let word = place / WORD_BITS;
    let shift = place % WORD_BITS;
    set_ones(words, word, bits << shift);
    if len > WORD_BITS - shift {
        // There are two shifts because one by 64 bits is not allowed.
        set_ones(words, word + 1, bits >> 1 >> (WORD_BITS - 1 - shift));
    }
}

/// Returns the byte spelled by the eight bits from index `place` on, the least significant first. All eight are within the words.
pub fn byte_at(words: &[u64], place: usize) -> u8
    requires { place + 8 ≤ 64 * length words.now }
    ensures { (i : ℕ) → i < 8 → is_odd (result / 2 ^ i) ≡ bit_in words.now (place + i) }
{
    let word = place / WORD_BITS;
    let shift = place % WORD_BITS;
    let low = words[word] >> shift;
    if shift + 8 <= WORD_BITS {
        return (low % 256) as u8;
    }
    let high = words[word + 1] << (WORD_BITS - shift);
    ((low | high) % 256) as u8
}

/// Replaces the first `count` words by those of `others`. Both lists have at least this many. The words after them are unchanged.
pub fn copy_words(words: &mut [u64], others: &[u64], count: usize)
    requires within { count ≤ length words.old }
    requires of_others { count ≤ length others.now }
    ensures copied { (i : ℕ) → i < 64 * count → bit_in words.new i ≡ bit_in others.now i }
    ensures kept { (i : ℕ) → 64 * count ≤ i → bit_in words.new i ≡ bit_in words.old i }
{
    words[..count].copy_from_slice(&others[..count]);
}

/// Returns whether the first `count` words are the same as those of `others`. Both lists have at least this many.
pub fn are_same_words(words: &[u64], others: &[u64], count: usize) -> bool
    requires within { count ≤ length words.now }
    requires of_others { count ≤ length others.now }
    ensures same { result ≡ true → (i : ℕ) → i < 64 * count → bit_in words.now i ≡ bit_in others.now i }
    ensures differ { ((i : ℕ) → i < 64 * count → bit_in words.now i ≡ bit_in others.now i) → result ≡ true }
{
    words[..count] == others[..count]
}
