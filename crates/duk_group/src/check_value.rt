//! The check values of many keys at once, each of a key of its own (ANSI X9.24-1:2017 annex A).

ghost use Rattle.std.specs.Prelude.{◌≡◌, ◌<◌, ℕ};
ghost use Rattle.duk_mac.specs.CheckValue.{check_value_of};
ghost use Rattle.duk_group.specs.Numbers.{bytes_at};
ghost use Rattle.duk_group.specs.declared.transposed.TheConstants.{WIDTH};

use crate::transposed::{WIDTH, gather_keys};
use duk_lanes::{scatter_wide, spread_wide};
use duk_tdes::{Key, array_of};

/// The check value of each key: the first three bytes of a block of zeros, enciphered.
pub fn check_values(keys: &[Key<16>; WIDTH]) -> [[u8; 3]; WIDTH]
    ensures { (i : ℕ) → i < WIDTH → bytes_at result i ≡ check_value_of (bytes_at keys.now i) }
{
    let blocks = scatter_wide(&gather_keys(keys).encrypt(&spread_wide([0; 8])));
    let mut values = [[0; 3]; WIDTH];
    for i in 0..WIDTH {
        values[i] = array_of(&blocks[i][..3]);
    }
    values
}
