//! Derivation of keys (ANSI X9.24-1:2009 annex A): from base derivation key to initial key, and
//! down the key tree.

ghost use Rattle.std.specs.Prelude.{◌≡◌, ◌++◌};
ghost use Rattle.duk_tree.specs.Derivation.{initial_key_of, step_of, transaction_key_of, derived_key_of};

use crate::parent::{Parent, masked};
use crate::serial::{COUNTER_BITS, Iksn, Ksn};
use duk_des::{Des, triple_encrypt_both};
use duk_tdes::{Key, array_of};

/// The initial key of a terminal, under the base derivation key: each half is TDES of the first
/// eight bytes of the initial key serial number, the right one under the masked key.
#[tactic(auto, unfolding(crate::specs::Derivation::initial_key_of))]
pub fn initial_key(bdk: &Key<16>, iksn: Iksn) -> Key<16>
    ensures { result ≡ initial_key_of bdk.now iksn }
{
    duk_tdes::laws::double_length();
    duk_tdes::laws::masked_halves();
    duk_tdes::laws::tdes_key(bdk);
    let (left, right) = bdk.halves();
    let left = Des::new(&left.bytes());
    let right = Des::new(&right.bytes());
    let first_eight = array_of(&iksn.bytes()[..8]);
    let (left, right) = triple_encrypt_both(
        &left,
        &right,
        &masked(&left),
        &masked(&right),
        first_eight,
    );
    join(left, right)
}

/// The key of a child in the key tree, from its parent's key and the low 64 bits of the child's key
/// serial number: the non-reversible key generation process.
pub fn step(key: &Key<16>, crypto_register: [u8; 8]) -> Key<16>
    ensures { result ≡ step_of key.now crypto_register }
{
    Parent::new(key).step(crypto_register)
}

/// The transaction key of a key serial number, under the base derivation key; counter zero gives
/// the initial key. `usable` reports which counters number a transaction.
pub fn derive(bdk: &Key<16>, ksn: Ksn) -> Key<16>
    ensures { result ≡ derived_key_of bdk.now ksn }
{
    transaction_key(&initial_key(bdk, ksn.iksn()), ksn)
}

/// The transaction key of a key serial number, under the initial key of its terminal; counter zero
/// gives that key itself.
pub fn transaction_key(initial: &Key<16>, ksn: Ksn) -> Key<16>
    ensures { result ≡ transaction_key_of initial.now ksn.iksn ksn.counter }
{
    let mut key = *initial;
    for place in (0..COUNTER_BITS).rev() {
        let reached = ksn.counter() >> place;
        if reached % 2 == 1 {
            key = Parent::new(&key).child(ksn.with_counter(reached << place));
        }
    }
    key
}

/// The key of two halves.
pub(crate) fn join(left: [u8; 8], right: [u8; 8]) -> Key<16>
    ensures { result ≡ left ++ right }
{
    let mut bytes = [0; 16];
    bytes[..8].copy_from_slice(&left);
    bytes[8..].copy_from_slice(&right);
    Key::new(bytes)
}
