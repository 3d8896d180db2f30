//! The work for key serial numbers that are opened together: a lane for each.

ghost use Rattle.std.specs.Prelude.{◌≡◌, ◌<◌, ◌≤◌, ℕ, List, IfSome, IsOk, length};
ghost use Rattle.std.specs.Option.{option_map};
ghost use Rattle.duk_des.specs.Block.{IsBlock};
ghost use Rattle.duk_group.specs.Blocks.{block_of};
ghost use Rattle.duk_group.specs.Numbers.{bytes_at, message_at, number_at};
ghost use Rattle.duk_lanes.specs.Words.{wide_lane};
ghost use Rattle.duk_mac.specs.Retail.{retail_of};
ghost use Rattle.duk_tdes.specs.Tdes.{tdes_decrypted};
ghost use Rattle.duk_tree.specs.Derivation.{derived_key_of, pin_key_of, request_key_of, response_key_of};
ghost use Rattle.duk_hsm.specs.Group.{numbers_of};
ghost use Rattle.duk_hsm.specs.inner.Group.{IsDerivedKey, asked_at, base_at, prepared_at};
ghost use Rattle.duk_hsm.specs.inner.Known.{under};

use crate::asked::Asked;
use crate::fault::HsmFault;
use crate::known::Known;
use crate::pin_block::translation_of;
use crate::prepared::PreparedKey;
use duk_group::{
    WIDTH, Word, derived_keys, encrypt_under, gather_blocks, gather_keys, retail_macs, scatter_keys,
};
use duk_lanes::scatter_wide;
use duk_tdes::{Key, KeyBytes};
use duk_tree::Ksn;

/// The transaction keys of key serial numbers under the base derivation keys at their places, each
/// with the zone key and what it is asked for first. Where there is no base derivation key, any key
/// stands.
pub(crate) fn prepared_in_lanes(
    bases: &[Result<Key<16>, HsmFault>; WIDTH],
    asked: &[Asked],
    zone: Option<KeyBytes>,
) -> [PreparedKey; WIDTH]
    requires few { length asked.now ≤ WIDTH }
    ensures { (i : ℕ) (bdk : List ℕ) → i < length asked.now → base_at bases.now i ≡ Ok bdk
        → IsDerivedKey (number_at (numbers_of asked.now) i) zone bdk (prepared_at result i) }
{
    let made = make(
        &keys_of(bases),
        &numbers_in(bases, asked),
        &texts_in(asked),
        &blocks_in(asked),
        &zone,
    );
    let mut prepared = [PreparedKey::new(Key::new([0; 16]), None); WIDTH];
    for (i, one) in asked.iter().enumerate() {
        let known = Known {
            text: one.text(),
            mac: made.macs[i],
            translation: translation_of(one.pin(), made.clears[i], made.cipher(i)),
        };
        prepared[i] = PreparedKey::with(made.keys[i], zone, known);
    }
    prepared
}

/// What the lanes made, place by place.
#[derive(Drop)]
struct Made {
    /// The transaction keys.
    keys: [Key<16>; WIDTH],
    /// The MACs of the texts under their variants for requests.
    macs: [[u8; 8]; WIDTH],
    /// The blocks, deciphered under their variants for PINs.
    clears: [[u8; 8]; WIDTH],
    /// These, enciphered under the zone key, where one is held.
    ciphers: Option<[[u8; 8]; WIDTH]>,
}

impl Made {
    /// The block at a place under the zone key, where one is held.
    fn cipher(&self, place: usize) -> Option<[u8; 8]>
        requires { place < WIDTH }
        ensures { result ≡ option_map (λ blocks. bytes_at blocks place) self.now.ciphers }
    {
        match &self.ciphers {
            Some(ciphers) => Some(ciphers[place]),
            None => None,
        }
    }
}

/// The transaction keys of key serial numbers under these base derivation keys, the MACs of texts,
/// and the blocks, deciphered and enciphered again under the zone key, in all lanes.
fn make(
    bdks: &[Key<16>; WIDTH],
    numbers: &[Ksn; WIDTH],
    texts: &[&[u8]; WIDTH],
    blocks: &[[u8; 8]; WIDTH],
    zone: &Option<KeyBytes>,
) -> Made
    ensures size { length result.keys ≡ WIDTH }
    ensures keys { (i : ℕ) → i < WIDTH
        → bytes_at result.keys i
        ≡ derived_key_of (bytes_at bdks.now i) (number_at numbers.now i) }
    ensures macs { (i : ℕ) → i < WIDTH
        → bytes_at result.macs i
        ≡ retail_of (request_key_of (bytes_at result.keys i)) (message_at texts.now i) }
    ensures clears { (i : ℕ) → i < WIDTH → IsBlock (bytes_at blocks.now i)
        → bytes_at result.clears i
        ≡ tdes_decrypted (pin_key_of (bytes_at result.keys i)) (bytes_at blocks.now i) }
    ensures ciphers { (i : ℕ) → i < WIDTH
        → option_map (λ blocks. bytes_at blocks i) result.ciphers
        ≡ under zone.now (bytes_at result.clears i) }
{
    let keys = derived_keys(&gather_keys(bdks), numbers);
    let macs = retail_macs(&keys.request_keys(), texts);
    let clears = keys.pin_keys().decrypt(&gather_blocks(blocks));
    Made {
        keys: scatter_keys(&keys),
        macs: scatter_wide(&macs),
        clears: scatter_wide(&clears),
        ciphers: under_zone(zone, &clears),
    }
}

/// The block of each lane, enciphered under the zone key, where one is held.
fn under_zone(zone: &Option<KeyBytes>, blocks: &[Word; 64]) -> Option<[[u8; 8]; WIDTH]>
    ensures { (i : ℕ) → i < WIDTH → option_map (λ blocks. bytes_at blocks i) result
        ≡ under zone.now (block_of wide_lane i blocks.now) }
{
    match zone {
        Some(zone) => Some(scatter_wide(&encrypt_under(zone, blocks))),
        None => None,
    }
}

/// The base derivation keys, and keys of zeros where there are none.
fn keys_of(bases: &[Result<Key<16>, HsmFault>; WIDTH]) -> [Key<16>; WIDTH]
    ensures { (i : ℕ) (bdk : List ℕ) → i < WIDTH → base_at bases.now i ≡ Ok bdk
        → bytes_at result i ≡ bdk }
{
    let mut keys = [Key::new([0; 16]); WIDTH];
    for i in 0..WIDTH {
        if let Ok(bdk) = bases[i] {
            keys[i] = bdk;
        }
    }
    keys
}

/// The key serial numbers that are derived. One that is refused is not: in its place stands the
/// number of zeros, which needs no step, so that no refused counter makes the others wait.
fn numbers_in(bases: &[Result<Key<16>, HsmFault>; WIDTH], asked: &[Asked]) -> [Ksn; WIDTH]
    requires few { length asked.now ≤ WIDTH }
    ensures { (i : ℕ) → i < length asked.now → IsOk (base_at bases.now i)
        → number_at result i ≡ number_at (numbers_of asked.now) i }
{
    let mut numbers = [Ksn::from_bytes([0; 10]); WIDTH];
    for (i, one) in asked.iter().enumerate() {
        if bases[i].is_ok() {
            numbers[i] = one.ksn();
        }
    }
    numbers
}

/// The texts.
fn texts_in<'a>(asked: &'a [Asked]) -> [&'a [u8]; WIDTH]
    requires few { length asked.now ≤ WIDTH }
    ensures { (i : ℕ) → i < length asked.now
        → message_at result i ≡ (asked_at asked.now i).text }
{
    let mut texts: [&'a [u8]; WIDTH] = [&[]; WIDTH];
    for (i, one) in asked.iter().enumerate() {
        texts[i] = one.text_bytes();
    }
    texts
}

/// The PIN blocks, and zeros where none is going to be translated.
fn blocks_in(asked: &[Asked]) -> [[u8; 8]; WIDTH]
    requires few { length asked.now ≤ WIDTH }
    ensures value { (i : ℕ) → i < length asked.now
        → IfSome (asked_at asked.now i).pin (λ pin. bytes_at result i ≡ pin.block) }
    ensures whole { (i : ℕ) → i < length asked.now → IsBlock (bytes_at result i) }
{
    let mut blocks = [[0; 8]; WIDTH];
    for (i, one) in asked.iter().enumerate() {
        blocks[i] = one.block();
    }
    blocks
}

/// The retail MACs of texts, each under the variant for responses of the transaction key at its
/// place.
pub(crate) fn response_macs_in_lanes(keys: &[Key<16>; WIDTH], texts: &[&[u8]]) -> [[u8; 8]; WIDTH]
    requires few { length texts.now ≤ WIDTH }
    ensures { (i : ℕ) → i < length texts.now → bytes_at result i
        ≡ retail_of (response_key_of (bytes_at keys.now i)) (message_at texts.now i) }
{
    let keys = gather_keys(keys).response_keys();
    scatter_wide(&retail_macs(&keys, texts))
}
