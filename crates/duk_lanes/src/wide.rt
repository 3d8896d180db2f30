//! Words of 128 bits, two words of 64 side by side in a register: 128 lanes.

ghost use Rattle.std.specs.Prelude.{◌≡◌, ℕ, ◌+◌, ◌++◌, ◌<◌, [], false, length, slice_index_or};
ghost use Rattle.duk_des.specs.Bits.{bits_of_bytes, bytes_of_bits};
ghost use Rattle.duk_lanes.specs.Lanes.{lane_of};
ghost use Rattle.duk_lanes.specs.Words.{word_lane, wide_lane};

use crate::lanes::Lanes;
use crate::transposition::{gather, scatter, spread};
use std::simd::u64x2;

/// A pair of words has 128 lanes: lane 0 is the lowest bit of the first word, and lane 64 that of
/// the second.
impl Lanes for u64x2 {
    ghost use Rattle.std.specs.Prelude.{ℕ, Bool};
    ghost use Rattle.duk_lanes.specs.Words.{wide_lane};

    ghost count = { 128 };

    ghost lane = { wide_lane };

    #[inline(always)]
    fn and(self, other: Self) -> Self {
        self & other
    }

    #[inline(always)]
    fn or(self, other: Self) -> Self {
        self | other
    }

    #[inline(always)]
    fn xor(self, other: Self) -> Self {
        self ^ other
    }

    #[inline(always)]
    fn and_not(self, other: Self) -> Self {
        self & !other
    }

    #[inline(always)]
    fn not(self) -> Self {
        !self
    }
}

/// The words whose lanes are 128 blocks of 8 bytes: block i is lane i. Word p, counted from 0, holds
/// bit p of each block, the most significant bit of its first byte first.
pub fn gather_wide(blocks: &[[u8; 8]; 128]) -> [u64x2; 64]
    ensures { (i : ℕ) → i < 128
        → lane_of wide_lane i result ≡ bits_of_bytes (slice_index_or blocks.now i []) }
{
    let low = gather(&half_of(&blocks[..64]));
    let high = gather(&half_of(&blocks[64..]));
    paired(&low, &high)
}

/// The 128 blocks that are the lanes of words, as `gather_wide` makes them.
pub fn scatter_wide(words: &[u64x2; 64]) -> [[u8; 8]; 128]
    ensures { (i : ℕ) → i < 128
        → slice_index_or result i [] ≡ bytes_of_bits 8 (lane_of wide_lane i words.now) }
{
    let (first, second) = parted(words);
    joined(&scatter(&first), &scatter(&second))
}

/// The words of which each lane is the same block of 8 bytes.
pub fn spread_wide(block: [u8; 8]) -> [u64x2; 64]
    ensures { (i : ℕ) → i < 128 → lane_of wide_lane i result ≡ bits_of_bytes block }
{
    let words = spread(block);
    paired(&words, &words)
}

/// The word with these flags in its lanes.
pub fn word_of_flags(flags: &[bool; 128]) -> u64x2
    ensures { (i : ℕ) → i < 128 → wide_lane result i ≡ slice_index_or flags.now i false }
{
    u64x2::from_array([half_word(&flags[..64]), half_word(&flags[64..])])
}

/// The word of 64 bits with these flags in its lanes.
#[inline(always)]
fn half_word(flags: &[bool]) -> u64
    requires { length flags.now ≡ 64 }
    ensures { (i : ℕ) → i < 64 → word_lane result i ≡ slice_index_or flags.now i false }
{
    let mut word = 0;
    for i in 0..64 {
        word |= u64::from(flags[i]) << i;
    }
    word
}

/// The array of 64 blocks.
fn half_of(blocks: &[[u8; 8]]) -> [[u8; 8]; 64]
    requires { length blocks.now ≡ 64 }
    ensures { result ≡ blocks.now }
{
    let mut half = [[0; 8]; 64];
    half.copy_from_slice(blocks);
    half
}

/// The first 64 blocks and the second 64, one after the other.
fn joined(first: &[[u8; 8]; 64], second: &[[u8; 8]; 64]) -> [[u8; 8]; 128]
    ensures { result ≡ first.now ++ second.now }
{
    let mut blocks = [[0; 8]; 128];
    blocks[..64].copy_from_slice(first);
    blocks[64..].copy_from_slice(second);
    blocks
}

/// Each pair of words, of 64 lanes each, as one.
fn paired(first: &[u64; 64], second: &[u64; 64]) -> [u64x2; 64]
    ensures low { (i : ℕ) → i < 64
        → lane_of wide_lane i result ≡ lane_of word_lane i first.now }
    ensures high { (i : ℕ) → i < 64
        → lane_of wide_lane (64 + i) result ≡ lane_of word_lane i second.now }
{
    let mut words = [u64x2::splat(0); 64];
    for p in 0..64 {
        words[p] = u64x2::from_array([first[p], second[p]]);
    }
    words
}

/// The first words of pairs, and the second ones.
fn parted(words: &[u64x2; 64]) -> ([u64; 64], [u64; 64])
    ensures low { (i : ℕ) → i < 64
        → lane_of word_lane i result.0 ≡ lane_of wide_lane i words.now }
    ensures high { (i : ℕ) → i < 64
        → lane_of word_lane i result.1 ≡ lane_of wide_lane (64 + i) words.now }
{
    let mut first = [0; 64];
    let mut second = [0; 64];
    for p in 0..64 {
        let pair = words[p].to_array();
        first[p] = pair[0];
        second[p] = pair[1];
    }
    (first, second)
}
