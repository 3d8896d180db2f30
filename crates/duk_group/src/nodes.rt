//! The key of a node of the key tree in each lane (ANSI X9.24-1:2009 annex A): the initial key at
//! the root, and a step from the parent's key below it.

ghost use Rattle.std.specs.Prelude.{◌≡◌, ◌<◌, ℕ, take};
ghost use Rattle.duk_tree.specs.Derivation.{initial_key_of, half_step_of, step_of};
ghost use Rattle.duk_tree.specs.Serial.{iksn_bytes};
ghost use Rattle.duk_group.specs.Blocks.{block_of, key_of};

use crate::cipher::des_encrypt;
use crate::key::LaneKeys;
use crate::masks::xor;
use duk_lanes::Lanes;

/// The derivation mask of one half of a key: it masks the base derivation key for the right half of
/// an initial key, and a key of the tree for the left half of a derived key.
const HALF_MASK: [u8; 8] = [0xC0, 0xC0, 0xC0, 0xC0, 0, 0, 0, 0];

/// Each lane's initial key, under its base derivation key, from the first eight bytes of its
/// initial key serial number.
pub fn initial_keys<L: Lanes>(bdk: &LaneKeys<L>, first_eight: &[L; 64]) -> LaneKeys<L>
    ensures { (i iksn : ℕ) → i < L.count
        → block_of L.lane i first_eight.now ≡ take 8 (iksn_bytes iksn)
        → key_of L.lane i result.left result.right
        ≡ initial_key_of (key_of L.lane i bdk.now.left bdk.now.right) iksn }
{
    LaneKeys {
        left: bdk.encrypt(first_eight),
        right: bdk.masked(&HALF_MASK).encrypt(first_eight),
    }
}

/// The key of a child of each lane's node, from the node's key and the low 64 bits of the child's
/// key serial number: the non-reversible key generation process.
pub fn step<L: Lanes>(key: &LaneKeys<L>, crypto_register: &[L; 64]) -> LaneKeys<L>
    ensures { (i : ℕ) → i < L.count → key_of L.lane i result.left result.right
        ≡ step_of (key_of L.lane i key.now.left key.now.right) (block_of L.lane i crypto_register.now) }
{
    LaneKeys {
        left: half_step(&key.masked(&HALF_MASK), crypto_register),
        right: half_step(key, crypto_register),
    }
}

/// The crypto_register, masked with the right half of a key before and after its encipherment under
/// the left half.
fn half_step<L: Lanes>(key: &LaneKeys<L>, crypto_register: &[L; 64]) -> [L; 64]
    ensures { (i : ℕ) → i < L.count → block_of L.lane i result
        ≡ half_step_of (key_of L.lane i key.now.left key.now.right)
        (block_of L.lane i crypto_register.now) }
{
    let sum = xor(&key.right, crypto_register);
    xor(&key.right, &des_encrypt(&key.left, &sum))
}
