//! The key schedule (NIST SP 800-67 appendix A).

ghost use Rattle.std.specs.Prelude.{◌≡◌, ◌++◌};
ghost use Rattle.duk_des.specs.Bits.{permute};
ghost use Rattle.duk_des.specs.Des.{round_keys};
ghost use Rattle.duk_des.specs.Tables.{round_key_places};

use crate::bits::{join, permute};

/// Permuted choice 1, the places of C and those of D.
#[rattlefmt::skip]
const LEFT_KEY_PLACES: [u8; 28] = [
    57, 49, 41, 33, 25, 17, 9,
    1, 58, 50, 42, 34, 26, 18,
    10, 2, 59, 51, 43, 35, 27,
    19, 11, 3, 60, 52, 44, 36,
];

#[rattlefmt::skip]
const RIGHT_KEY_PLACES: [u8; 28] = [
    63, 55, 47, 39, 31, 23, 15,
    7, 62, 54, 46, 38, 30, 22,
    14, 6, 61, 53, 45, 37, 29,
    21, 13, 5, 28, 20, 12, 4,
];

/// Permuted choice 2, from C followed by D.
#[rattlefmt::skip]
const ROUND_KEY_PLACES: [u8; 48] = [
    14, 17, 11, 24, 1, 5,
    3, 28, 15, 6, 21, 10,
    23, 19, 12, 4, 26, 8,
    16, 7, 27, 20, 13, 2,
    41, 52, 31, 37, 47, 55,
    30, 40, 51, 45, 33, 48,
    44, 49, 39, 56, 34, 53,
    46, 42, 50, 36, 29, 32,
];

/// How far C and D are rotated left in each round.
const ROTATIONS: [u8; 16] = [1, 1, 2, 2, 2, 2, 2, 2, 1, 2, 2, 2, 2, 2, 2, 1];

/// The sixteen round keys of a key.
pub fn round_keys(key: &[bool; 64]) -> [[bool; 48]; 16]
    ensures { result ≡ round_keys key.now }
{
    let mut c: [bool; 28] = permute(&LEFT_KEY_PLACES, key);
    let mut d: [bool; 28] = permute(&RIGHT_KEY_PLACES, key);
    let mut keys = [[false; 48]; 16];
    for i in 0..16 {
        c.rotate_left(ROTATIONS[i] as usize);
        d.rotate_left(ROTATIONS[i] as usize);
        keys[i] = round_key(&c, &d);
    }
    keys
}

/// Permuted choice 2 of C followed by D.
fn round_key(c: &[bool; 28], d: &[bool; 28]) -> [bool; 48]
    ensures { result ≡ permute round_key_places (c.now ++ d.now) }
{
    let halves: [bool; 56] = join(c, d);
    permute(&ROUND_KEY_PLACES, &halves)
}
