//! The cipher function f of a round (NIST SP 800-67 section 2 and appendix A).

ghost use Rattle.std.specs.Prelude.{◌≡◌, length};
ghost use Rattle.duk_des.specs.Des.{substitute, substitute_all, cipher_function};
ghost use Rattle.duk_des.specs.Tables.{boxes};

use crate::bits::{permute, xor};

/// The selection functions, four rows of 16 entries each.
#[rattlefmt::skip]
const S1: [u8; 64] = [
    14, 4, 13, 1, 2, 15, 11, 8, 3, 10, 6, 12, 5, 9, 0, 7,
    0, 15, 7, 4, 14, 2, 13, 1, 10, 6, 12, 11, 9, 5, 3, 8,
    4, 1, 14, 8, 13, 6, 2, 11, 15, 12, 9, 7, 3, 10, 5, 0,
    15, 12, 8, 2, 4, 9, 1, 7, 5, 11, 3, 14, 10, 0, 6, 13,
];

#[rattlefmt::skip]
const S2: [u8; 64] = [
    15, 1, 8, 14, 6, 11, 3, 4, 9, 7, 2, 13, 12, 0, 5, 10,
    3, 13, 4, 7, 15, 2, 8, 14, 12, 0, 1, 10, 6, 9, 11, 5,
    0, 14, 7, 11, 10, 4, 13, 1, 5, 8, 12, 6, 9, 3, 2, 15,
    13, 8, 10, 1, 3, 15, 4, 2, 11, 6, 7, 12, 0, 5, 14, 9,
];

#[rattlefmt::skip]
const S3: [u8; 64] = [
    10, 0, 9, 14, 6, 3, 15, 5, 1, 13, 12, 7, 11, 4, 2, 8,
    13, 7, 0, 9, 3, 4, 6, 10, 2, 8, 5, 14, 12, 11, 15, 1,
    13, 6, 4, 9, 8, 15, 3, 0, 11, 1, 2, 12, 5, 10, 14, 7,
    1, 10, 13, 0, 6, 9, 8, 7, 4, 15, 14, 3, 11, 5, 2, 12,
];

#[rattlefmt::skip]
const S4: [u8; 64] = [
    7, 13, 14, 3, 0, 6, 9, 10, 1, 2, 8, 5, 11, 12, 4, 15,
    13, 8, 11, 5, 6, 15, 0, 3, 4, 7, 2, 12, 1, 10, 14, 9,
    10, 6, 9, 0, 12, 11, 7, 13, 15, 1, 3, 14, 5, 2, 8, 4,
    3, 15, 0, 6, 10, 1, 13, 8, 9, 4, 5, 11, 12, 7, 2, 14,
];

#[rattlefmt::skip]
const S5: [u8; 64] = [
    2, 12, 4, 1, 7, 10, 11, 6, 8, 5, 3, 15, 13, 0, 14, 9,
    14, 11, 2, 12, 4, 7, 13, 1, 5, 0, 15, 10, 3, 9, 8, 6,
    4, 2, 1, 11, 10, 13, 7, 8, 15, 9, 12, 5, 6, 3, 0, 14,
    11, 8, 12, 7, 1, 14, 2, 13, 6, 15, 0, 9, 10, 4, 5, 3,
];

#[rattlefmt::skip]
const S6: [u8; 64] = [
    12, 1, 10, 15, 9, 2, 6, 8, 0, 13, 3, 4, 14, 7, 5, 11,
    10, 15, 4, 2, 7, 12, 9, 5, 6, 1, 13, 14, 0, 11, 3, 8,
    9, 14, 15, 5, 2, 8, 12, 3, 7, 0, 4, 10, 1, 13, 11, 6,
    4, 3, 2, 12, 9, 5, 15, 10, 11, 14, 1, 7, 6, 0, 8, 13,
];

#[rattlefmt::skip]
const S7: [u8; 64] = [
    4, 11, 2, 14, 15, 0, 8, 13, 3, 12, 9, 7, 5, 10, 6, 1,
    13, 0, 11, 7, 4, 9, 1, 10, 14, 3, 5, 12, 2, 15, 8, 6,
    1, 4, 11, 13, 12, 3, 7, 14, 10, 15, 6, 8, 0, 5, 9, 2,
    6, 11, 13, 8, 1, 4, 10, 7, 9, 5, 0, 15, 14, 2, 3, 12,
];

#[rattlefmt::skip]
const S8: [u8; 64] = [
    13, 2, 8, 4, 6, 15, 11, 1, 10, 9, 3, 14, 5, 0, 12, 7,
    1, 15, 13, 8, 10, 3, 7, 4, 12, 5, 6, 11, 0, 14, 9, 2,
    7, 11, 4, 1, 9, 12, 14, 2, 0, 6, 10, 13, 15, 3, 5, 8,
    2, 1, 14, 7, 4, 10, 8, 13, 15, 12, 9, 0, 3, 5, 6, 11,
];

/// The expansion E of 32 bits to 48.
#[rattlefmt::skip]
const EXPANSION_PLACES: [u8; 48] = [
    32, 1, 2, 3, 4, 5,
    4, 5, 6, 7, 8, 9,
    8, 9, 10, 11, 12, 13,
    12, 13, 14, 15, 16, 17,
    16, 17, 18, 19, 20, 21,
    20, 21, 22, 23, 24, 25,
    24, 25, 26, 27, 28, 29,
    28, 29, 30, 31, 32, 1,
];

/// The permutation P of the bits that the selection functions give.
#[rattlefmt::skip]
const OUTPUT_PLACES: [u8; 32] = [
    16, 7, 20, 21, 29, 12, 28, 17,
    1, 15, 23, 26, 5, 18, 31, 10,
    2, 8, 24, 14, 32, 27, 3, 9,
    19, 13, 30, 6, 22, 11, 4, 25,
];

/// The four bits that each selection function gives, one after another.
macro_rules! fours {
    ($($four:ident)*) => {
        [$($four[0], $four[1], $four[2], $four[3]),*]
    };
}

/// P(S1 to S8 of (E(right) xor key)).
pub fn cipher_function(right: &[bool; 32], key: &[bool; 48]) -> [bool; 32]
    ensures { result ≡ cipher_function right.now key.now }
{
    let expanded: [bool; 48] = permute(&EXPANSION_PLACES, right);
    let chosen = substitute_all(&xor(&expanded, key));
    permute(&OUTPUT_PLACES, &chosen)
}

/// Each selection function on its six bits.
fn substitute_all(bits: &[bool; 48]) -> [bool; 32]
    ensures { result ≡ substitute_all boxes bits.now }
{
    let from_s1 = substitute(&S1, &bits[0..6]);
    let from_s2 = substitute(&S2, &bits[6..12]);
    let from_s3 = substitute(&S3, &bits[12..18]);
    let from_s4 = substitute(&S4, &bits[18..24]);
    let from_s5 = substitute(&S5, &bits[24..30]);
    let from_s6 = substitute(&S6, &bits[30..36]);
    let from_s7 = substitute(&S7, &bits[36..42]);
    let from_s8 = substitute(&S8, &bits[42..48]);
    fours!(from_s1 from_s2 from_s3 from_s4 from_s5 from_s6 from_s7 from_s8)
}

fn substitute(table: &[u8; 64], bits: &[bool]) -> [bool; 4]
    requires { length bits.now ≡ 6 }
    ensures { result ≡ substitute table.now bits.now }
{
    let row = 2 * bits[0] as usize + bits[5] as usize;
    let column = 8 * bits[1] as usize
        + 4 * bits[2] as usize
        + 2 * bits[3] as usize
        + bits[4] as usize;
    let entry = table[16 * row + column];
    [
        entry / 8 % 2 == 1,
        entry / 4 % 2 == 1,
        entry / 2 % 2 == 1,
        entry % 2 == 1,
    ]
}
