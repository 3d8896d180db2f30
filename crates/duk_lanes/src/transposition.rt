//! Blocks as words that hold one bit of each, and such words as blocks: a matrix of 64 by 64 bits,
//! transposed.

ghost use Rattle.std.specs.Prelude.{◌≡◌, ℕ, ◌+◌, ◌-◌, ◌*◌, ◌<◌, [], slice_index, slice_index_or};
ghost use Rattle.duk_des.specs.Bits.{bits_of_bytes, bytes_of_bits};
ghost use Rattle.duk_lanes.specs.Lanes.{lane_of};
ghost use Rattle.duk_lanes.specs.Words.{word_lane};
ghost use Rattle.duk_lanes.specs.inner.Exchanges.{IsExchanged};
ghost use Rattle.duk_lanes.specs.inner.Words.{word_bits};

/// The words whose lanes are 64 blocks of 8 bytes: block i is lane i. Word p, counted from 0, holds
/// bit p of each block, the most significant bit of its first byte first.
pub fn gather(blocks: &[[u8; 8]; 64]) -> [u64; 64]
    ensures { (i : ℕ) → i < 64
        → lane_of word_lane i result ≡ bits_of_bytes (slice_index_or blocks.now i []) }
{
    let mut rows = [0; 64];
    for i in 0..64 {
        rows[i] = word_of(&blocks[63 - i]);
    }
    transposed(&rows)
}

/// The 64 blocks that are the lanes of words, as `gather` makes them.
pub fn scatter(words: &[u64; 64]) -> [[u8; 8]; 64]
    ensures { (i : ℕ) → i < 64
        → slice_index_or result i [] ≡ bytes_of_bits 8 (lane_of word_lane i words.now) }
{
    let rows = transposed(words);
    let mut blocks = [[0; 8]; 64];
    for i in 0..64 {
        blocks[i] = block_of(rows[63 - i]);
    }
    blocks
}

/// The words of which each lane is the same block of 8 bytes.
pub fn spread(block: [u8; 8]) -> [u64; 64]
    ensures { (i : ℕ) → i < 64 → lane_of word_lane i result ≡ bits_of_bytes block }
{
    let word = word_of(&block);
    let mut words = [0; 64];
    for p in 0..64 {
        words[p] = (word >> (63 - p) & 1).wrapping_neg();
    }
    words
}

/// The matrix whose rows are the words, the most significant bit first, transposed. Each pass
/// exchanges the highest bit of a row's number with one bit of a column's, and makes it the lowest.
fn transposed(words: &[u64; 64]) -> [u64; 64]
    ensures { (p i : ℕ) → p < 64 → i < 64
        → word_lane (slice_index result p) i ≡ word_lane (slice_index words.now (63 - i)) (63 - p) }
{
    let by_32 = pass(words, 32, 0x0000_0000_ffff_ffff);
    let by_16 = pass(&by_32, 16, 0x0000_ffff_0000_ffff);
    let by_8 = pass(&by_16, 8, 0x00ff_00ff_00ff_00ff);
    let by_4 = pass(&by_8, 4, 0x0f0f_0f0f_0f0f_0f0f);
    let by_2 = pass(&by_4, 2, 0x3333_3333_3333_3333);
    pass(&by_2, 1, 0x5555_5555_5555_5555)
}

/// An exchange of each word of the first half with its like of the second, and the words that this
/// makes side by side.
#[inline(always)]
fn pass(words: &[u64; 64], distance: u32, mask: u64) -> [u64; 64]
    requires { distance < 64 }
    ensures { (k : ℕ) → k < 32
        → IsExchanged distance mask (slice_index words.now k) (slice_index words.now (32 + k))
        (slice_index result (2 * k)) (slice_index result (2 * k + 1)) }
{
    let mut sides = [0; 64];
    for k in 0..32 {
        let (first, second) = exchange(words[k], words[32 + k], distance, mask);
        sides[2 * k] = first;
        sides[2 * k + 1] = second;
    }
    sides
}

/// Two words once each bit of the first under the mask is exchanged with the bit of the second that
/// stands so many places above it.
#[inline(always)]
fn exchange(first: u64, second: u64, distance: u32, mask: u64) -> (u64, u64)
    requires { distance < 64 }
    ensures { IsExchanged distance mask first second result.0 result.1 }
{
    let differing = (first ^ (second >> distance)) & mask;
    (first ^ differing, second ^ (differing << distance))
}

/// The word of a block.
#[inline(always)]
fn word_of(block: &[u8; 8]) -> u64
    ensures { word_bits result ≡ bits_of_bytes block.now }
{
    u64::from_be_bytes(*block)
}

/// The block of a word.
#[inline(always)]
fn block_of(word: u64) -> [u8; 8]
    ensures { result ≡ bytes_of_bits 8 (word_bits word) }
{
    word.to_be_bytes()
}
