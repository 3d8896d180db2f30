//! The work for few key serial numbers that are opened together: one after the other, since lanes
//! take as long for one number as for all.

ghost use Rattle.std.specs.Prelude.{◌≡◌, ◌<◌, ◌≤◌, ℕ, List, length};
ghost use Rattle.duk_group.specs.Numbers.{bytes_at, message_at, number_at};
ghost use Rattle.duk_mac.specs.Retail.{retail_of};
ghost use Rattle.duk_tree.specs.Derivation.{response_key_of};
ghost use Rattle.duk_hsm.specs.Group.{numbers_of};
ghost use Rattle.duk_hsm.specs.inner.Group.{IsDerivedKey, base_at, prepared_at};

use crate::asked::Asked;
use crate::fault::HsmFault;
use crate::lanes::{prepared_in_lanes, response_macs_in_lanes};
use crate::prepared::PreparedKey;
use duk_group::WIDTH;
use duk_mac::retail;
use duk_tdes::{Key, KeyBytes};
use duk_tree::{Ksn, derive, response_key};

/// So many numbers take as long one by one as in lanes (docs/PERFORMANCE.md).
pub(crate) const FEW: usize = 24;

/// The transaction keys of key serial numbers under the base derivation keys at their places, each
/// with the zone key: in lanes, with what it is asked for first, unless there are few of them. Where
/// there is no base derivation key, any key stands.
pub(crate) fn prepared_keys(
    bases: &[Result<Key<16>, HsmFault>; WIDTH],
    asked: &[Asked],
    zone: Option<KeyBytes>,
) -> [PreparedKey; WIDTH]
    requires few { length asked.now ≤ WIDTH }
    ensures { (i : ℕ) (bdk : List ℕ) → i < length asked.now → base_at bases.now i ≡ Ok bdk
        → IsDerivedKey (number_at (numbers_of asked.now) i) zone bdk (prepared_at result i) }
{
    if asked.len() < FEW {
        prepared_one_by_one(bases, asked, zone)
    } else {
        prepared_in_lanes(bases, asked, zone)
    }
}

/// The same one by one.
fn prepared_one_by_one(
    bases: &[Result<Key<16>, HsmFault>; WIDTH],
    asked: &[Asked],
    zone: Option<KeyBytes>,
) -> [PreparedKey; WIDTH]
    requires few { length asked.now ≤ WIDTH }
    ensures { (i : ℕ) (bdk : List ℕ) → i < length asked.now → base_at bases.now i ≡ Ok bdk
        → IsDerivedKey (number_at (numbers_of asked.now) i) zone bdk (prepared_at result i) }
{
    let mut prepared = [PreparedKey::new(Key::new([0; 16]), None); WIDTH];
    for (i, one) in asked.iter().enumerate() {
        prepared[i] = prepared_key(bases[i], one.ksn(), &zone);
    }
    prepared
}

/// The transaction key of a key serial number under a base derivation key, if there is one.
fn prepared_key(base: Result<Key<16>, HsmFault>, ksn: Ksn, zone: &Option<KeyBytes>) -> PreparedKey
    ensures { (bdk : List ℕ) → base ≡ Ok bdk → IsDerivedKey ksn zone.now bdk result }
{
    match base {
        Ok(bdk) => PreparedKey::new(derive(&bdk, ksn), *zone),
        Err(_) => PreparedKey::new(Key::new([0; 16]), None),
    }
}

/// The retail MACs of texts that are not empty, each under the variant for responses of the
/// transaction key at its place: in lanes, unless there are few of them.
pub(crate) fn response_macs(keys: &[Key<16>; WIDTH], texts: &[&[u8]]) -> [[u8; 8]; WIDTH]
    requires few { length texts.now ≤ WIDTH }
    ensures { (i : ℕ) → i < length texts.now → 0 < length (message_at texts.now i)
        → bytes_at result i
        ≡ retail_of (response_key_of (bytes_at keys.now i)) (message_at texts.now i) }
{
    if texts.len() < FEW {
        response_macs_one_by_one(keys, texts)
    } else {
        response_macs_in_lanes(keys, texts)
    }
}

/// The same one by one.
fn response_macs_one_by_one(keys: &[Key<16>; WIDTH], texts: &[&[u8]]) -> [[u8; 8]; WIDTH]
    requires few { length texts.now ≤ WIDTH }
    ensures { (i : ℕ) → i < length texts.now → 0 < length (message_at texts.now i)
        → bytes_at result i
        ≡ retail_of (response_key_of (bytes_at keys.now i)) (message_at texts.now i) }
{
    let mut macs = [[0; 8]; WIDTH];
    for (i, text) in texts.iter().enumerate() {
        macs[i] = response_mac(&keys[i], text);
    }
    macs
}

/// The retail MAC of a text under a transaction key's variant for responses, where there is a text.
fn response_mac(key: &Key<16>, text: &[u8]) -> [u8; 8]
    ensures { 0 < length text.now → result ≡ retail_of (response_key_of key.now) text.now }
{
    if text.is_empty() {
        [0; 8]
    } else {
        retail(&response_key(key), text)
    }
}
