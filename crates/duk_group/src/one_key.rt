//! TDES in lanes under one key, the same in every lane (NIST SP 800-67 section 3).

ghost use Rattle.std.specs.Prelude.{◌≡◌, ◌<◌, ℕ};
ghost use Rattle.duk_lanes.specs.Words.{wide_lane};
ghost use Rattle.duk_tdes.specs.KeyBytes.{bytes_of};
ghost use Rattle.duk_tdes.specs.Tdes.{first_key, second_key, third_key, tdes_encrypted};
ghost use Rattle.duk_group.specs.Blocks.{block_of};
ghost use Rattle.duk_group.specs.declared.transposed.TheConstants.{WIDTH};

use crate::cipher::{des_decrypt, des_encrypt};
use crate::transposed::Word;
use duk_lanes::spread_wide;
use duk_tdes::{Key, KeyBytes, array_of};

/// Each lane's block enciphered under a key of 16 or 24 bytes, the same for all.
pub fn encrypt_under(key: &KeyBytes, block: &[Word; 64]) -> [Word; 64]
    ensures { (i : ℕ) → i < WIDTH → block_of wide_lane i result
        ≡ tdes_encrypted (bytes_of key.now) (block_of wide_lane i block.now) }
{
    let (k1, k2, k3) = single_keys(key);
    let first = des_encrypt(&spread_wide(k1.bytes()), block);
    let second = des_decrypt(&spread_wide(k2.bytes()), &first);
    des_encrypt(&spread_wide(k3.bytes()), &second)
}

/// The three single keys of a key: K1, K2 and K3, which is K1 again in a key of 16 bytes.
fn single_keys(key: &KeyBytes) -> (Key<8>, Key<8>, Key<8>)
    ensures first { result.0 ≡ first_key (bytes_of key.now) }
    ensures second { result.1 ≡ second_key (bytes_of key.now) }
    ensures third { result.2 ≡ third_key (bytes_of key.now) }
{
    match key {
        KeyBytes::Double(key) => {
            duk_tdes::laws::tdes_key(key);
            let (k1, k2) = key.halves();
            (k1, k2, k1)
        }
        KeyBytes::Triple(key) => {
            duk_tdes::laws::tdes_key(key);
            let bytes = key.bytes();
            let k1 = Key::new(array_of(&bytes[..8]));
            let k2 = Key::new(array_of(&bytes[8..16]));
            (k1, k2, Key::new(array_of(&bytes[16..])))
        }
    }
}
