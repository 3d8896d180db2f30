//! A node of the key tree whose children are derived.

ghost use Rattle.std.specs.Prelude.{◌≡◌};
ghost use Rattle.duk_tdes.specs.Key.{xor_bytes};
ghost use Rattle.duk_tdes.specs.Tdes.{first_key};
ghost use Rattle.duk_tree.specs.Derivation.{derivation_mask, step_of};
ghost use Rattle.duk_tree.specs.Serial.{low_bytes};

use crate::derivation::join;
use crate::serial::Ksn;
use duk_des::{Des, encrypt_both};
use duk_tdes::Key;
use std::marker::Model;

/// The derivation mask of one half of a key: it masks the base derivation key for the right half of
/// an initial key, and a key of the tree for the left half of a derived key.
const HALF_MASK: u64 = 0xC0C0_C0C0_0000_0000;

/// A node of the key tree whose children are derived: the halves of its key without and with the
/// derivation mask, the left ones as ciphers. One key schedule serves all children. It has neither
/// `Debug` nor `==`, so that no key is printed or compared by chance.
#[derive(Drop)]
pub struct Parent {
    left: Des,
    right: Key<8>,
    masked_left: Des,
    masked_right: Key<8>,
}

impl Model for Parent {
    ghost use Rattle.std.specs.Prelude.{ℕ, List, ◌++◌};
    ghost use Rattle.duk_tdes.specs.Key.{xor_bytes};
    ghost use Rattle.duk_tree.specs.Derivation.{derivation_mask};
    ghost use Rattle.duk_tree.specs.inner.Derivation.{AreHalves};

    ghost Value = { List ℕ };

    ghost view = { λ parent. parent.left ++ parent.right };

    ghost invariant = { λ parent.
        AreHalves (parent.left ++ parent.right) parent.left parent.right
        × AreHalves (xor_bytes (parent.left ++ parent.right) derivation_mask)
        parent.masked_left parent.masked_right };
}

impl Parent {
    /// The node with this key.
    pub fn new(key: &Key<16>) -> Self
        ensures { result ≡ key.now }
    {
        duk_tdes::laws::tdes_key(key);
        duk_tdes::laws::masked_halves();
        let (left, right) = key.halves();
        let left = Des::new(&left.bytes());
        Parent {
            masked_left: masked(&left),
            masked_right: right.xor(&HALF_MASK.to_be_bytes()),
            left,
            right,
        }
    }

    /// The key of the child with this key serial number.
    pub fn child(&self, number: Ksn) -> Key<16>
        ensures { result ≡ step_of self.now (low_bytes number) }
    {
        self.step(number.low_bytes())
    }

    /// The key of the child whose key serial number has these low 64 bits: the non-reversible key
    /// generation process (ANSI X9.24-1:2009 annex A).
    pub fn step(&self, crypto_register: [u8; 8]) -> Key<16>
        ensures { result ≡ step_of self.now crypto_register }
    {
        let (left, right) = encrypt_both(
            &self.masked_left,
            self.masked_right.xor(&crypto_register).bytes(),
            &self.left,
            self.right.xor(&crypto_register).bytes(),
        );
        join(
            self.masked_right.xor(&left).bytes(),
            self.right.xor(&right).bytes(),
        )
    }
}

/// DES under a half of a key, under the derivation mask. No other code masks a cipher, so that the
/// compiler takes this mask for a constant, and makes no key schedule for it.
pub(crate) fn masked(half: &Des) -> Des
    ensures { result ≡ xor_bytes half.now (first_key derivation_mask) }
{
    half.under_mask(&HALF_MASK.to_be_bytes())
}
