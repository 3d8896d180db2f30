//! Keys of single DES (8 bytes) and of TDES (16 and 24 bytes).

ghost use Rattle.std.specs.Prelude.{◌≡◌, ℕ, List};
ghost use Rattle.duk_tdes.specs.Key.{IsKey, xor_bytes};
ghost use Rattle.duk_tdes.specs.Tdes.{first_key, second_key};

use crate::bytes::array_of;
use duk_des::xor_bytes;
use std::marker::Model;

/// A key of `N` bytes, 8 for single DES and 16 or 24 for TDES. It has neither `Debug` nor `==`, so
/// that no key is printed or compared by chance.
#[derive(Clone, Copy)]
pub struct Key<const N: usize> {
    bytes: [u8; N],
}

impl<const N: usize> Model for Key<N> {
    ghost Value = { List ℕ };

    ghost view = { λ key. key.bytes };

    ghost inverse = { λ bytes. record { bytes = bytes } };
}

impl<const N: usize> Key<N> {
    /// The key of these bytes.
    pub fn new(bytes: [u8; N]) -> Self
        ensures { result ≡ bytes.entry }
    {
        Key { bytes }
    }

    /// The bytes of the key.
    pub fn bytes(&self) -> [u8; N]
        ensures bytes { result ≡ self.now }
        ensures key { IsKey N self.now }
    {
        array_of(&self.bytes)
    }

    /// The key with each byte xored with the mask's byte at its place, as for a key variant.
    pub fn xor(&self, mask: &[u8; N]) -> Self
        ensures { result ≡ xor_bytes self.now mask.now }
    {
        Key {
            bytes: xor_bytes(&self.bytes, mask),
        }
    }
}

impl Key<16> {
    /// The left and the right half, a single key each: K1 and K2.
    pub fn halves(&self) -> (Key<8>, Key<8>)
        ensures left { result.0 ≡ first_key self.now }
        ensures right { result.1 ≡ second_key self.now }
    {
        let left = array_of(&self.bytes[..8]);
        let right = array_of(&self.bytes[8..16]);
        (Key::new(left), Key::new(right))
    }
}

/// A TDES key of either length.
#[derive(Clone, Copy)]
pub enum KeyBytes {
    /// A double-length key: 16 bytes.
    Double(Key<16>),
    /// A triple-length key: 24 bytes.
    Triple(Key<24>),
}
