//! Key serial numbers that are opened together.

ghost use Rattle.std.specs.Prelude.{◌≡◌, ◌<◌, ◌≤◌, ℕ, List, Ok, Err, IfOk, IfErr, length};
ghost use Rattle.duk_group.specs.Numbers.{bytes_at, message_at, number_at};
ghost use Rattle.duk_tree.specs.Serial.{Serial};
ghost use Rattle.duk_hsm.specs.Commands.{HasTransactionKey, IsReplyMac, NoTransactionKey};
ghost use Rattle.duk_hsm.specs.Group.{AreOpened, numbers_of, place_at};
ghost use Rattle.duk_hsm.specs.Keys.{HsmKeys};
ghost use Rattle.duk_hsm.specs.TransactionKeys.{AreTransactionKeys, TransactionKeys};
ghost use Rattle.duk_hsm.specs.inner.Group.{IsBase, IsDerived, base_at};

use crate::asked::Asked;
use crate::fault::HsmFault;
use crate::hsm::Hsm;
use crate::one_by_one::{prepared_keys, response_macs};
use crate::prepared::PreparedKey;
use crate::transaction::Transaction;
use duk_group::WIDTH;
use duk_tdes::{Key, KeyBytes};
use std::marker::Model;

/// Key serial numbers that a host security module opened together: for each place what `open`
/// answers for the number there, with what was made beforehand.
///
/// As a transaction, it shows no key and is not copied.
#[derive(Drop)]
pub struct OpenedGroup {
    places: [Result<PreparedKey, HsmFault>; WIDTH],
}

impl Model for OpenedGroup {
    ghost use Rattle.duk_hsm.specs.Group.{OpenedPlaces};

    ghost Value = { OpenedPlaces };

    ghost view = { λ group. record { places = group.places } };
}

impl OpenedGroup {
    /// What was opened at each place.
    pub(crate) fn new(places: [Result<PreparedKey, HsmFault>; WIDTH]) -> Self
        ensures { result ≡ record { places = places } }
    {
        OpenedGroup { places }
    }

    /// What `open` answers for the key serial number at a place. Refused with what that is refused
    /// with, and behind the last number with `NoKeySet`.
    pub fn transaction(&self, place: usize) -> Result<Transaction, HsmFault>
        ensures opened { (keys : HsmKeys) (numbers : List Serial) → place < length numbers
            → AreOpened keys numbers self.now
            → IfOk result (AreTransactionKeys keys (number_at numbers place)) }
        ensures refused { (keys : HsmKeys) (numbers : List Serial) → place < length numbers
            → AreOpened keys numbers self.now
            → IfErr result (NoTransactionKey keys (number_at numbers place)) }
        ensures past { (keys : HsmKeys) (numbers : List Serial) → length numbers ≤ place
            → AreOpened keys numbers self.now → result ≡ Err HsmFault.NoKeySet }
    {
        let prepared = self.places.get(place).copied();
        let prepared = prepared.unwrap_or(Err(HsmFault::NoKeySet))?;
        Ok(Transaction::new(prepared))
    }

    /// The retail MACs of texts, side by side: each under the variant for responses of the
    /// transaction key at its place. An empty text stands at a place that has no reply. How long the
    /// texts are is no secret.
    pub fn reply_macs(&self, texts: &[&[u8]]) -> [[u8; 8]; WIDTH]
        requires few { length texts.now ≤ WIDTH }
        ensures made { (keys : HsmKeys) (numbers : List Serial) (place : ℕ)
            → AreOpened keys numbers self.now → place < length numbers → place < length texts.now
            → HasTransactionKey keys (number_at numbers place)
            → 0 < length (message_at texts.now place)
            → IsReplyMac keys (number_at numbers place) (message_at texts.now place)
            (bytes_at result place) }
    {
        response_macs(&opened_keys(&self.places), texts)
    }
}

/// The transaction keys, and keys of zeros at the places of numbers that are refused.
fn opened_keys(places: &[Result<PreparedKey, HsmFault>; WIDTH]) -> [Key<16>; WIDTH]
    ensures { (i : ℕ) (opened : TransactionKeys) → i < WIDTH → place_at places.now i ≡ Ok opened
        → bytes_at result i ≡ opened.key }
{
    let mut keys = [Key::new([0; 16]); WIDTH];
    for i in 0..WIDTH {
        if let Ok(prepared) = places[i] {
            keys[i] = prepared.key();
        }
    }
    keys
}

/// The base derivation keys of the key serial numbers, in their order, and none behind the last.
pub(crate) fn base_keys<const N: usize>(
    hsm: &Hsm<N>,
    asked: &[Asked],
) -> [Result<Key<16>, HsmFault>; WIDTH]
    requires few { length asked.now ≤ WIDTH }
    ensures bases { (i : ℕ) → i < length asked.now
        → IsBase hsm.now (number_at (numbers_of asked.now) i) (base_at result i) }
    ensures past { (i : ℕ) → length asked.now ≤ i → base_at result i ≡ Err HsmFault.NoKeySet }
{
    let mut bases = [Err(HsmFault::NoKeySet); WIDTH];
    for (i, one) in asked.iter().enumerate() {
        bases[i] = hsm.base_key(one.ksn());
    }
    bases
}

/// The transaction keys under these base derivation keys, in their order. Where there is no base
/// derivation key there is none, behind the last number too.
pub(crate) fn derived(
    bases: &[Result<Key<16>, HsmFault>; WIDTH],
    asked: &[Asked],
    zone: Option<KeyBytes>,
) -> [Result<PreparedKey, HsmFault>; WIDTH]
    requires few { length asked.now ≤ WIDTH }
    ensures keys { (i : ℕ) → i < length asked.now
        → IsDerived (number_at (numbers_of asked.now) i) zone (base_at bases.now i)
        (place_at result i) }
    ensures refused { (i : ℕ) (why : HsmFault) → base_at bases.now i ≡ Err why
        → place_at result i ≡ Err why }
{
    let prepared = prepared_keys(bases, asked, zone);
    let mut places = [Err(HsmFault::NoKeySet); WIDTH];
    for i in 0..WIDTH {
        places[i] = unless_refused(bases[i], prepared[i]);
    }
    places
}

/// The prepared key, or the refusal in the place of a base derivation key.
fn unless_refused(
    base: Result<Key<16>, HsmFault>,
    prepared: PreparedKey,
) -> Result<PreparedKey, HsmFault>
    ensures opened { IfOk base (λ _. result ≡ Ok prepared) }
    ensures refused { IfErr base (λ why. result ≡ Err why) }
{
    match base {
        Ok(_) => Ok(prepared),
        Err(why) => Err(why),
    }
}
