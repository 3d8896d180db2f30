//! Exclusive or and choice, in each lane.

ghost use Rattle.std.specs.Prelude.{◌≡◌, ◌<◌, ℕ, true, false};
ghost use Rattle.duk_tdes.specs.Key.{xor_bytes};
ghost use Rattle.duk_group.specs.Blocks.{block_of};

use duk_lanes::Lanes;

/// The exclusive or of each lane's two blocks.
pub fn xor<L: Lanes>(block: &[L; 64], other: &[L; 64]) -> [L; 64]
    ensures { (i : ℕ) → i < L.count → block_of L.lane i result
        ≡ xor_bytes (block_of L.lane i block.now) (block_of L.lane i other.now) }
{
    let mut sum = *block;
    for place in 0..64 {
        sum[place] = block[place].xor(other[place]);
    }
    sum
}

/// The exclusive or of each lane's block with the same mask.
pub fn masked<L: Lanes>(block: &[L; 64], mask: &[u8; 8]) -> [L; 64]
    ensures { (i : ℕ) → i < L.count → block_of L.lane i result
        ≡ xor_bytes (block_of L.lane i block.now) mask.now }
{
    let mut sum = *block;
    for place in 0..64 {
        if (mask[place / 8] >> (7 - place % 8)) % 2 == 1 {
            sum[place] = block[place].not();
        }
    }
    sum
}

/// In each lane the first block where the lane's bit of `first` is one, and else the second.
pub fn chosen<L: Lanes>(first: L, block: &[L; 64], other: &[L; 64]) -> [L; 64]
    ensures one { (i : ℕ) → i < L.count → L.lane first i ≡ true
        → block_of L.lane i result ≡ block_of L.lane i block.now }
    ensures zero { (i : ℕ) → i < L.count → L.lane first i ≡ false
        → block_of L.lane i result ≡ block_of L.lane i other.now }
{
    let mut words = *other;
    for place in 0..64 {
        words[place] = block[place].and(first).or(other[place].and_not(first));
    }
    words
}
