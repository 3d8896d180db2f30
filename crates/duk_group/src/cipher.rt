//! DES and TDES in lanes (NIST SP 800-67 sections 2 and 3), each lane under a key of its own.

ghost use Rattle.std.specs.Prelude.{◌≡◌, ◌<◌, ℕ};
ghost use Rattle.duk_des.specs.Des.{des_encrypted, des_decrypted};
ghost use Rattle.duk_tdes.specs.Tdes.{tdes_encrypted, tdes_decrypted};
ghost use Rattle.duk_group.specs.Blocks.{block_of, key_of};

use crate::key::LaneKeys;
use duk_lanes::{Lanes, decrypt, encrypt};

/// Each lane's block enciphered under the lane's single key.
pub fn des_encrypt<L: Lanes>(key: &[L; 64], block: &[L; 64]) -> [L; 64]
    ensures { (i : ℕ) → i < L.count → block_of L.lane i result
        ≡ des_encrypted (block_of L.lane i key.now) (block_of L.lane i block.now) }
{
    encrypt(key, block)
}

/// Each lane's block deciphered under the lane's single key.
pub fn des_decrypt<L: Lanes>(key: &[L; 64], block: &[L; 64]) -> [L; 64]
    ensures { (i : ℕ) → i < L.count → block_of L.lane i result
        ≡ des_decrypted (block_of L.lane i key.now) (block_of L.lane i block.now) }
{
    decrypt(key, block)
}

impl<L: Lanes> LaneKeys<L> {
    /// Each lane's block enciphered under the lane's key.
    pub fn encrypt(&self, block: &[L; 64]) -> [L; 64]
        ensures { (i : ℕ) → i < L.count → block_of L.lane i result
            ≡ tdes_encrypted (key_of L.lane i self.now.left self.now.right) (block_of L.lane i block.now) }
    {
        let first = des_encrypt(&self.left, block);
        let second = des_decrypt(&self.right, &first);
        des_encrypt(&self.left, &second)
    }

    /// Each lane's block deciphered under the lane's key: the one that `encrypt` enciphers to this
    /// one.
    pub fn decrypt(&self, block: &[L; 64]) -> [L; 64]
        ensures { (i : ℕ) → i < L.count → block_of L.lane i result
            ≡ tdes_decrypted (key_of L.lane i self.now.left self.now.right) (block_of L.lane i block.now) }
    {
        let third = des_decrypt(&self.left, block);
        let second = des_encrypt(&self.right, &third);
        des_decrypt(&self.left, &second)
    }
}
