//! DES in lanes: as many blocks at once as a word has lanes (NIST SP 800-67 section 2).

ghost use Rattle.std.specs.Prelude.{◌≡◌, ◌<◌, ℕ, IsTrue, nat_le};
ghost use Rattle.std.specs.List.{list_all};
ghost use Rattle.duk_des.specs.Des.{des_computation, encipher, decipher};
ghost use Rattle.duk_lanes.specs.Lanes.{lane_of};
ghost use Rattle.duk_lanes.specs.inner.Schedule.{round_keys_at};

use crate::Lanes;
use crate::rounds::rounds;
use crate::wiring::{
    FINAL_PLACES, INITIAL_LEFT_PLACES, INITIAL_RIGHT_PLACES, LEFT_KEY_PLACES, RIGHT_KEY_PLACES,
    joined, wired,
};

/// How far the halves C and D of a key are rotated left in all, in each of the sixteen rounds.
const TOTALS: [u8; 16] = [1, 2, 4, 6, 8, 10, 12, 14, 15, 17, 19, 21, 23, 25, 27, 28];

/// The same from the last round to the first.
const TOTALS_BACKWARDS: [u8; 16] = [28, 27, 25, 23, 21, 19, 17, 15, 14, 12, 10, 8, 6, 4, 2, 1];

/// Enciphers the block of each lane under the key of that lane. Word `p` holds bit `p + 1` of the
/// standard, the most significant bit of the first byte first. The eight parity bits of a key are
/// not used.
pub fn encrypt<L: Lanes>(key: &[L; 64], block: &[L; 64]) -> [L; 64]
    ensures { (i : ℕ) → i < L.count
        → lane_of L.lane i result
        ≡ encipher (lane_of L.lane i key.now) (lane_of L.lane i block.now) }
{
    crypt(key, block, &TOTALS)
}

/// Deciphers the block of each lane under the key of that lane: the round keys in reverse order.
pub fn decrypt<L: Lanes>(key: &[L; 64], block: &[L; 64]) -> [L; 64]
    ensures { (i : ℕ) → i < L.count
        → lane_of L.lane i result
        ≡ decipher (lane_of L.lane i key.now) (lane_of L.lane i block.now) }
{
    crypt(key, block, &TOTALS_BACKWARDS)
}

/// The initial permutation, the rounds, and the final permutation of the halves, exchanged.
fn crypt<L: Lanes>(key: &[L; 64], block: &[L; 64], totals: &[u8; 16]) -> [L; 64]
    requires { IsTrue (list_all (λ total. nat_le total 28) totals.now) }
    ensures { (i : ℕ) → i < L.count
        → lane_of L.lane i result
        ≡ des_computation (round_keys_at totals.now (lane_of L.lane i key.now))
        (lane_of L.lane i block.now) }
{
    let mut left = wired(&INITIAL_LEFT_PLACES, block);
    let mut right = wired(&INITIAL_RIGHT_PLACES, block);
    let c: [L; 28] = wired(&LEFT_KEY_PLACES, key);
    let d: [L; 28] = wired(&RIGHT_KEY_PLACES, key);
    rounds(
        &mut left,
        &mut right,
        &joined(&c, &c),
        &joined(&d, &d),
        totals,
    );
    let halves: [L; 64] = joined(&right, &left);
    wired(&FINAL_PLACES, &halves)
}
