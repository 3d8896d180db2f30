//! DES under one key.

ghost use Rattle.std.specs.Prelude.{◌≡◌};
ghost use Rattle.duk_des.specs.Bits.{bits_of_bytes};
ghost use Rattle.duk_des.specs.Bytes.{xor_bytes};
ghost use Rattle.duk_des.specs.Des.{encipher, decipher, des_encrypted, des_decrypted};

use crate::bytes::xor_bytes;
use crate::words::{
    RoundKey, crypt_block, crypt_block_backwards, crypt_both, crypt_thrice, crypt_thrice_backwards,
    crypt_thrice_both, round_keys, xor_keys,
};
use std::marker::Model;

/// DES under one key of 8 bytes, whose sixteen round keys are made once. It has neither `Debug` nor
/// `==`, so that no key is printed or compared by chance.
#[derive(Drop)]
pub struct Des {
    key: [u8; 8],
    keys: [RoundKey; 16],
}

impl Model for Des {
    ghost use Rattle.std.specs.Prelude.{◌≡◌, ℕ, List, map};
    ghost use Rattle.duk_des.specs.Bits.{bits_of_bytes};
    ghost use Rattle.duk_des.specs.Des.{round_keys};
    ghost use Rattle.duk_des.specs.inner.Words.{key_bits};

    ghost Value = { List ℕ };

    ghost view = { λ des. des.key };

    ghost invariant = { λ des. map key_bits des.keys ≡ round_keys (bits_of_bytes des.key) };
}

impl Des {
    /// DES under this key.
    pub fn new(key: &[u8; 8]) -> Self
        ensures { result ≡ key.now }
    {
        Des {
            key: *key,
            keys: round_keys(key),
        }
    }

    /// DES under this key, xored with a mask. Its round keys are those of the key, xored with those
    /// of the mask, which are constants where the mask is one and this stands in its caller's code.
    #[inline(always)]
    pub fn under_mask(&self, mask: &[u8; 8]) -> Self
        ensures { result ≡ xor_bytes self.now mask.now }
    {
        Des {
            key: xor_bytes(&self.key, mask),
            keys: xor_keys(&self.keys, &round_keys(mask)),
        }
    }

    /// Enciphers a block of 8 bytes (NIST SP 800-67 section 2).
    pub fn encrypt(&self, block: [u8; 8]) -> [u8; 8]
        ensures bytes { result ≡ des_encrypted self.now block }
        ensures bits { bits_of_bytes result
            ≡ encipher (bits_of_bytes self.now) (bits_of_bytes block) }
    {
        crypt_block(&self.keys, &block)
    }

    /// Deciphers a block of 8 bytes: the round keys are used in reverse order.
    pub fn decrypt(&self, block: [u8; 8]) -> [u8; 8]
        ensures bytes { result ≡ des_decrypted self.now block }
        ensures bits { bits_of_bytes result
            ≡ decipher (bits_of_bytes self.now) (bits_of_bytes block) }
    {
        crypt_block_backwards(&self.keys, &block)
    }
}

/// Enciphers two blocks of 8 bytes, each under a key of its own. It gives what `encrypt` does, in
/// less time than two calls take.
pub fn encrypt_both(
    first: &Des,
    first_block: [u8; 8],
    second: &Des,
    second_block: [u8; 8],
) -> ([u8; 8], [u8; 8])
    ensures first { result.0 ≡ des_encrypted first.now first_block }
    ensures second { result.1 ≡ des_encrypted second.now second_block }
{
    crypt_both(&first.keys, &first_block, &second.keys, &second_block)
}

/// Enciphers a block of 8 bytes under the first key, deciphers it under the second and enciphers it
/// under the third: the forward cipher operation of TDES (NIST SP 800-67 section 3). It gives
/// what the three calls do, in less time.
pub fn triple_encrypt(first: &Des, second: &Des, third: &Des, block: [u8; 8]) -> [u8; 8]
    ensures { result
        ≡ des_encrypted third.now (des_decrypted second.now (des_encrypted first.now block)) }
{
    crypt_thrice(&first.keys, &second.keys, &third.keys, &block)
}

/// Enciphers a block of 8 bytes under two double-length keys, each given by its halves: TDES whose
/// third key is the first again (NIST SP 800-67 section 3). It gives what two calls of
/// `triple_encrypt` do, in less time.
pub fn triple_encrypt_both(
    left: &Des,
    right: &Des,
    other_left: &Des,
    other_right: &Des,
    block: [u8; 8],
) -> ([u8; 8], [u8; 8])
    ensures first { result.0
        ≡ des_encrypted left.now (des_decrypted right.now (des_encrypted left.now block)) }
    ensures second { result.1
        ≡ des_encrypted other_left.now
        (des_decrypted other_right.now (des_encrypted other_left.now block)) }
{
    crypt_thrice_both(
        &left.keys,
        &right.keys,
        &other_left.keys,
        &other_right.keys,
        &block,
    )
}

/// Deciphers a block of 8 bytes under the first key, enciphers it under the second and deciphers it
/// under the third: with the keys in reverse order the inverse cipher operation of TDES (NIST SP
/// 800-67 section 3).
pub fn triple_decrypt(first: &Des, second: &Des, third: &Des, block: [u8; 8]) -> [u8; 8]
    ensures { result
        ≡ des_decrypted third.now (des_encrypted second.now (des_decrypted first.now block)) }
{
    crypt_thrice_backwards(&first.keys, &second.keys, &third.keys, &block)
}

/// Enciphers a block of 8 bytes under a key of 8 bytes (NIST SP 800-67 section 2).
pub fn encrypt_block(key: &[u8; 8], block: [u8; 8]) -> [u8; 8]
    ensures bytes { result ≡ des_encrypted key.now block }
    ensures bits { bits_of_bytes result ≡ encipher (bits_of_bytes key.now) (bits_of_bytes block) }
{
    Des::new(key).encrypt(block)
}

/// Deciphers a block of 8 bytes under a key of 8 bytes.
pub fn decrypt_block(key: &[u8; 8], block: [u8; 8]) -> [u8; 8]
    ensures bytes { result ≡ des_decrypted key.now block }
    ensures bits { bits_of_bytes result ≡ decipher (bits_of_bytes key.now) (bits_of_bytes block) }
{
    Des::new(key).decrypt(block)
}
