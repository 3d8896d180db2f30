//! The forward and inverse cipher operations of TDES (NIST SP 800-67 section 3).

ghost use Rattle.std.specs.Prelude.{◌≡◌};
ghost use Rattle.duk_tdes.specs.KeyBytes.{bytes_of};
ghost use Rattle.duk_tdes.specs.Tdes.{IsTdesLength, third_key, tdes_encrypted, tdes_decrypted};

use crate::bytes::array_of;
use crate::key::{Key, KeyBytes};
use duk_des::{Des, triple_decrypt, triple_encrypt};
use std::marker::Model;

/// TDES under one key of `N` bytes, 16 or 24: DES under each of its single keys, whose round keys
/// are made once. It has neither `Debug` nor `==`, so that no key is printed or compared by chance.
#[derive(Drop)]
pub struct Tdes<const N: usize> {
    key: Key<N>,
    first: Des,
    second: Des,
    /// The third single key, where it is not the first again.
    third: Option<Des>,
}

impl<const N: usize> Model for Tdes<N> {
    ghost use Rattle.std.specs.Prelude.{ℕ, List};
    ghost use Rattle.duk_tdes.specs.inner.Tdes.{AreSingleKeys};

    ghost Value = { List ℕ };

    ghost view = { λ tdes. tdes.key };

    ghost invariant = { λ tdes. AreSingleKeys tdes.key tdes.first tdes.second tdes.third };
}

impl<const N: usize> Tdes<N> {
    /// TDES under this key.
    pub fn new(key: &Key<N>) -> Self
        requires { IsTdesLength N }
        ensures { result ≡ key.now }
    {
        let bytes = key.bytes();
        let bytes = &bytes[..];
        let third = if N == 16 {
            None
        } else {
            Some(Des::new(&array_of(&bytes[16..24])))
        };
        Tdes {
            key: *key,
            first: Des::new(&array_of(&bytes[..8])),
            second: Des::new(&array_of(&bytes[8..16])),
            third,
        }
    }

    /// Enciphers a block.
    #[tactic(auto, unfolding(crate::specs::Tdes::tdes_encrypted))]
    pub fn encrypt(&self, block: [u8; 8]) -> [u8; 8]
        ensures { result ≡ tdes_encrypted self.now block }
    {
        triple_encrypt(&self.first, &self.second, self.third(), block)
    }

    /// Deciphers a block: the one that `encrypt` enciphers to this one.
    #[tactic(auto, unfolding(crate::specs::Tdes::tdes_decrypted))]
    pub fn decrypt(&self, block: [u8; 8]) -> [u8; 8]
        ensures { result ≡ tdes_decrypted self.now block }
    {
        triple_decrypt(self.third(), &self.second, &self.first, block)
    }

    /// DES under the third single key.
    fn third(&self) -> &Des
        ensures { result.now ≡ third_key self.now }
    {
        match &self.third {
            Some(third) => third,
            None => &self.first,
        }
    }
}

/// The block enciphered under a key of 16 or 24 bytes.
pub fn tdes_encrypt<const N: usize>(key: &Key<N>, block: [u8; 8]) -> [u8; 8]
    requires { IsTdesLength N }
    ensures { result ≡ tdes_encrypted key.now block }
{
    Tdes::new(key).encrypt(block)
}

/// The block that `tdes_encrypt` enciphers to this one under the same key.
pub fn tdes_decrypt<const N: usize>(key: &Key<N>, block: [u8; 8]) -> [u8; 8]
    requires { IsTdesLength N }
    ensures { result ≡ tdes_decrypted key.now block }
{
    Tdes::new(key).decrypt(block)
}

impl KeyBytes {
    /// The block enciphered under a key of either length.
    pub fn encrypt(&self, block: [u8; 8]) -> [u8; 8]
        ensures { result ≡ tdes_encrypted (bytes_of self.now) block }
    {
        match self {
            KeyBytes::Double(key) => tdes_encrypt(key, block),
            KeyBytes::Triple(key) => tdes_encrypt(key, block),
        }
    }

    /// The block that `encrypt` enciphers to this one under the same key.
    pub fn decrypt(&self, block: [u8; 8]) -> [u8; 8]
        ensures { result ≡ tdes_decrypted (bytes_of self.now) block }
    {
        match self {
            KeyBytes::Double(key) => tdes_decrypt(key, block),
            KeyBytes::Triple(key) => tdes_decrypt(key, block),
        }
    }
}
