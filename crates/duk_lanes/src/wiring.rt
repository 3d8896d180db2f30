//! The permutations of DES as wiring (NIST SP 800-67 section 2 and appendix A). As in the standard,
//! entry `k` of a table is the number of the input bit that becomes output bit `k`, counted from 1.
//! Tables are in parts, so that the compiler makes each loop over one a row of moves.

ghost use Rattle.std.specs.Prelude.{◌≡◌, ◌<◌, ◌+◌, ◌++◌, ℕ, IsTrue, length};
ghost use Rattle.duk_des.specs.Bits.{permute, xor_bits};
ghost use Rattle.duk_lanes.specs.Lanes.{lane_of};
ghost use Rattle.duk_lanes.specs.inner.Wiring.{are_places, xored_at};

use crate::Lanes;

/// The initial permutation, the places of L.
#[rattlefmt::skip]
pub(crate) const INITIAL_LEFT_PLACES: [u8; 32] = [
    58, 50, 42, 34, 26, 18, 10, 2,
    60, 52, 44, 36, 28, 20, 12, 4,
    62, 54, 46, 38, 30, 22, 14, 6,
    64, 56, 48, 40, 32, 24, 16, 8,
];

/// The initial permutation, the places of R.
#[rattlefmt::skip]
pub(crate) const INITIAL_RIGHT_PLACES: [u8; 32] = [
    57, 49, 41, 33, 25, 17, 9, 1,
    59, 51, 43, 35, 27, 19, 11, 3,
    61, 53, 45, 37, 29, 21, 13, 5,
    63, 55, 47, 39, 31, 23, 15, 7,
];

/// The inverse of the initial permutation.
#[rattlefmt::skip]
pub(crate) const FINAL_PLACES: [u8; 64] = [
    40, 8, 48, 16, 56, 24, 64, 32,
    39, 7, 47, 15, 55, 23, 63, 31,
    38, 6, 46, 14, 54, 22, 62, 30,
    37, 5, 45, 13, 53, 21, 61, 29,
    36, 4, 44, 12, 52, 20, 60, 28,
    35, 3, 43, 11, 51, 19, 59, 27,
    34, 2, 42, 10, 50, 18, 58, 26,
    33, 1, 41, 9, 49, 17, 57, 25,
];

/// The expansion E, a row for each selection function.
pub(crate) const EXPANSION_PLACES: [[u8; 6]; 8] = [
    [32, 1, 2, 3, 4, 5],
    [4, 5, 6, 7, 8, 9],
    [8, 9, 10, 11, 12, 13],
    [12, 13, 14, 15, 16, 17],
    [16, 17, 18, 19, 20, 21],
    [20, 21, 22, 23, 24, 25],
    [24, 25, 26, 27, 28, 29],
    [28, 29, 30, 31, 32, 1],
];

/// Permuted choice 2, a row for each selection function: what S1 to S4 take of C, and S5 to S8 of D,
/// whose bits the standard counts from 29.
pub(crate) const ROUND_KEY_PLACES: [[u8; 6]; 8] = [
    [14, 17, 11, 24, 1, 5],
    [3, 28, 15, 6, 21, 10],
    [23, 19, 12, 4, 26, 8],
    [16, 7, 27, 20, 13, 2],
    [13, 24, 3, 9, 19, 27],
    [2, 12, 23, 17, 5, 20],
    [16, 21, 11, 28, 6, 25],
    [18, 14, 22, 8, 1, 4],
];

/// The inverse of the permutation P, a row for each selection function: where its four bits go.
pub(crate) const OUTPUT_PLACES: [[u8; 4]; 8] = [
    [9, 17, 23, 31],
    [13, 28, 2, 18],
    [24, 16, 30, 6],
    [26, 20, 10, 1],
    [8, 14, 25, 3],
    [4, 29, 11, 19],
    [32, 12, 22, 7],
    [5, 27, 15, 21],
];

/// Permuted choice 1, the places of C.
#[rattlefmt::skip]
pub(crate) const LEFT_KEY_PLACES: [u8; 28] = [
    57, 49, 41, 33, 25, 17, 9,
    1, 58, 50, 42, 34, 26, 18,
    10, 2, 59, 51, 43, 35, 27,
    19, 11, 3, 60, 52, 44, 36,
];

/// Permuted choice 1, the places of D.
#[rattlefmt::skip]
pub(crate) const RIGHT_KEY_PLACES: [u8; 28] = [
    63, 55, 47, 39, 31, 23, 15,
    7, 62, 54, 46, 38, 30, 22,
    14, 6, 61, 53, 45, 37, 29,
    21, 13, 5, 28, 20, 12, 4,
];

/// The words with the numbers of a table, counted from 1, in its order.
#[inline(always)]
pub(crate) fn wired<L: Lanes, const M: usize>(places: &[u8; M], words: &[L]) -> [L; M]
    requires some { 0 < length words.now }
    requires places { IsTrue (are_places (length words.now) places.now) }
    ensures { (i : ℕ) → lane_of L.lane i result ≡ permute places.now (lane_of L.lane i words.now) }
{
    let mut chosen = [words[0]; M];
    for k in 0..M {
        chosen[k] = words[places[k] as usize - 1];
    }
    chosen
}

/// Two halves, one after the other.
#[inline(always)]
pub(crate) fn joined<L: Lanes, const N: usize, const M: usize>(
    first: &[L; N],
    second: &[L; N],
) -> [L; M]
    requires some { 0 < N }
    requires whole { M ≡ N + N }
    ensures { (i : ℕ) → lane_of L.lane i result
        ≡ lane_of L.lane i first.now ++ lane_of L.lane i second.now }
{
    let mut both = [first[0]; M];
    for k in 0..N {
        both[k] = first[k];
        both[N + k] = second[k];
    }
    both
}

/// Xors each word with the other one at its place.
#[inline(always)]
pub(crate) fn xor_into<L: Lanes, const N: usize>(sum: &mut [L; N], other: &[L; N])
    ensures { (i : ℕ) → i < L.count
        → lane_of L.lane i sum.new
        ≡ xor_bits (lane_of L.lane i sum.old) (lane_of L.lane i other.now) }
{
    for k in 0..N {
        sum[k] = sum[k].xor(other[k]);
    }
}

/// Xors words into those with the numbers of a table, counted from 1.
#[inline(always)]
pub(crate) fn xor_at<L: Lanes, const N: usize, const M: usize>(
    sum: &mut [L; N],
    places: &[u8; M],
    words: &[L; M],
)
    requires { IsTrue (are_places N places.now) }
    ensures { (i : ℕ) → i < L.count
        → lane_of L.lane i sum.new
        ≡ xored_at places.now (lane_of L.lane i words.now) (lane_of L.lane i sum.old) }
{
    for k in 0..M {
        let place = places[k] as usize - 1;
        sum[place] = sum[place].xor(words[k]);
    }
}
