//! Into lanes and out of them.

ghost use Rattle.std.specs.Prelude.{◌≡◌, ◌<◌, ◌≤◌, ◌-◌, ◌++◌, ℕ, length, take, drop, replicate};
ghost use Rattle.duk_des.specs.Block.{IsBlock};
ghost use Rattle.duk_lanes.specs.Words.{wide_lane};
ghost use Rattle.duk_group.specs.Blocks.{block_of, key_of};
ghost use Rattle.duk_group.specs.Numbers.{bytes_at};
ghost use Rattle.duk_group.specs.declared.transposed.TheConstants.{WIDTH};

use crate::key::LaneKeys;
use duk_lanes::{gather_wide, scatter_wide, spread_wide};
use duk_tdes::Key;
use std::simd::u64x2;

/// How many lanes there are: so many terminals are worked on at once.
pub const WIDTH: usize = 128;

/// A word of so many lanes.
pub type Word = u64x2;

/// A block in each lane.
pub fn gather_blocks(blocks: &[[u8; 8]; WIDTH]) -> [Word; 64]
    ensures { (i : ℕ) → i < WIDTH → IsBlock (bytes_at blocks.now i)
        → block_of wide_lane i result ≡ bytes_at blocks.now i }
{
    gather_wide(blocks)
}

/// The same key in every lane.
pub fn spread_key(key: &Key<16>) -> LaneKeys<Word>
    ensures { (i : ℕ) → i < WIDTH
        → key_of wide_lane i result.left result.right ≡ key.now }
{
    duk_tdes::laws::tdes_key(key);
    let (left, right) = key.halves();
    LaneKeys::new(spread_wide(left.bytes()), spread_wide(right.bytes()))
}

/// Each of at most `WIDTH` keys in a lane of its own.
pub fn gather_keys(keys: &[Key<16>]) -> LaneKeys<Word>
    requires { length keys.now ≤ WIDTH }
    ensures { (i : ℕ) → i < length keys.now
        → key_of wide_lane i result.left result.right ≡ bytes_at keys.now i }
{
    let mut left = [[0; 8]; WIDTH];
    let mut right = [[0; 8]; WIDTH];
    for (i, key) in keys.iter().enumerate() {
        duk_tdes::laws::tdes_key(key);
        let (first, second) = key.halves();
        left[i] = first.bytes();
        right[i] = second.bytes();
    }
    LaneKeys::new(gather_blocks(&left), gather_blocks(&right))
}

/// The key of each lane.
pub fn scatter_keys(keys: &LaneKeys<Word>) -> [Key<16>; WIDTH]
    ensures { (i : ℕ) → i < WIDTH
        → bytes_at result i ≡ key_of wide_lane i keys.now.left keys.now.right }
{
    let left = scatter_wide(&keys.left);
    let right = scatter_wide(&keys.right);
    let mut all = [Key::new([0; 16]); WIDTH];
    for i in 0..WIDTH {
        all[i] = join(left[i], right[i]);
    }
    all
}

/// The first `count` of all, and this one in the places behind them.
pub(crate) fn first_of<T: Copy>(all: &[T; WIDTH], count: usize, filler: T) -> [T; WIDTH]
    requires { count ≤ WIDTH }
    ensures first { take count result ≡ take count all.now }
    ensures rest { drop count result ≡ replicate (WIDTH - count) filler }
{
    let mut kept = [filler; WIDTH];
    kept[..count].copy_from_slice(&all[..count]);
    kept
}

/// The key of two halves.
fn join(left: [u8; 8], right: [u8; 8]) -> Key<16>
    ensures { result ≡ left ++ right }
{
    let mut bytes = [0; 16];
    bytes[..8].copy_from_slice(&left);
    bytes[8..].copy_from_slice(&right);
    Key::new(bytes)
}
