//! Words of 64 bits: 64 lanes.

use crate::lanes::Lanes;

/// A word of 64 bits has 64 lanes: lane 0 is its lowest bit.
impl Lanes for u64 {
    ghost use Rattle.std.specs.Prelude.{ℕ, Bool};
    ghost use Rattle.duk_lanes.specs.Words.{word_lane};

    ghost count = { 64 };

    ghost lane = { word_lane };

    #[inline(always)]
    fn and(self, other: Self) -> Self {
        self & other
    }

    #[inline(always)]
    fn or(self, other: Self) -> Self {
        self | other
    }

    #[inline(always)]
    fn xor(self, other: Self) -> Self {
        self ^ other
    }

    #[inline(always)]
    fn and_not(self, other: Self) -> Self {
        self & !other
    }

    #[inline(always)]
    fn not(self) -> Self {
        !self
    }
}
