//! Keys in lanes.

ghost use Rattle.std.specs.Prelude.{◌≡◌, ◌<◌, ℕ, true, false};
ghost use Rattle.duk_tdes.specs.Key.{xor_bytes};
ghost use Rattle.duk_tree.specs.Derivation.{both_halves};
ghost use Rattle.duk_group.specs.Blocks.{key_of};

use crate::masks;
use duk_lanes::Lanes;

/// A double-length key in each lane: the left halves, K1, and the right ones, K2 (NIST SP 800-67
/// section 3). It has neither `Debug` nor `==`, so that no key is printed or compared by chance.
#[derive(Clone, Copy)]
pub struct LaneKeys<L: Lanes> {
    pub left: [L; 64],
    pub right: [L; 64],
}

impl<L: Lanes> LaneKeys<L> {
    /// The keys with these halves.
    #[inline(always)]
    pub fn new(left: [L; 64], right: [L; 64]) -> Self
        ensures left { result.left ≡ left }
        ensures right { result.right ≡ right }
    {
        LaneKeys { left, right }
    }

    /// Each lane's key with the same mask on both of its halves.
    pub fn masked(&self, mask: &[u8; 8]) -> Self
        ensures { (i : ℕ) → i < L.count → key_of L.lane i result.left result.right
            ≡ xor_bytes (key_of L.lane i self.now.left self.now.right) (both_halves mask.now) }
    {
        LaneKeys {
            left: masks::masked(&self.left, mask),
            right: masks::masked(&self.right, mask),
        }
    }

    /// In each lane the key of `keys` where the lane's bit of `first` is one, and else this one.
    pub fn replaced(&self, first: L, keys: &Self) -> Self
        ensures one { (i : ℕ) → i < L.count → L.lane first i ≡ true
            → key_of L.lane i result.left result.right ≡ key_of L.lane i keys.now.left keys.now.right }
        ensures zero { (i : ℕ) → i < L.count → L.lane first i ≡ false
            → key_of L.lane i result.left result.right ≡ key_of L.lane i self.now.left self.now.right }
    {
        LaneKeys {
            left: masks::chosen(first, &keys.left, &self.left),
            right: masks::chosen(first, &keys.right, &self.right),
        }
    }
}
