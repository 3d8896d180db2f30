//! A transaction key, and what was made beforehand with it.

ghost use Rattle.std.specs.Prelude.{◌≡◌, ◌<◌, None, Some, length};
ghost use Rattle.duk_mac.specs.Retail.{retail_of};
ghost use Rattle.duk_tdes.specs.KeyBytes.{bytes_of};
ghost use Rattle.duk_tdes.specs.Tdes.{tdes_decrypted};
ghost use Rattle.duk_tree.specs.Derivation.{pin_key_of, request_key_of, response_key_of};
ghost use Rattle.duk_hsm.specs.inner.Known.{IsMadeWith, IsTranslationOf};

use crate::known::Known;
use crate::pin_block::translated;
use duk_mac::retail;
use duk_pin::Pan;
use duk_tdes::{Key, KeyBytes, tdes_decrypt};
use duk_tree::{pin_key, request_key, response_key};
use std::marker::Model;

/// A transaction key, with the module's zone key, and perhaps what was made beforehand with these.
/// What it answers is the same with it and without.
#[derive(Clone, Copy)]
pub(crate) struct PreparedKey {
    key: Key<16>,
    zone: Option<KeyBytes>,
    known: Option<Known>,
}

impl Model for PreparedKey {
    ghost use Rattle.duk_hsm.specs.TransactionKeys.{TransactionKeys};
    ghost use Rattle.duk_hsm.specs.inner.Known.{IsKnown};

    ghost Value = { TransactionKeys };

    ghost view = { λ prepared. record { key = prepared.key; zone = prepared.zone; known = prepared.known } };

    ghost invariant = { λ prepared. IsKnown prepared.key prepared.zone prepared.known };

    ghost inverse = { λ prepared. record { key = prepared.key; zone = prepared.zone; known = prepared.known } };
}

impl PreparedKey {
    /// The key alone, in a module that holds this zone key.
    pub(crate) fn new(key: Key<16>, zone: Option<KeyBytes>) -> Self
        ensures { result ≡ record { key = key; zone = zone; known = None } }
    {
        PreparedKey {
            key,
            zone,
            known: None,
        }
    }

    /// The key with what was made with it and with the zone key.
    pub(crate) fn with(key: Key<16>, zone: Option<KeyBytes>, known: Known) -> Self
        requires { IsMadeWith key zone known }
        ensures { result ≡ record { key = key; zone = zone; known = Some known } }
    {
        PreparedKey {
            key,
            zone,
            known: Some(known),
        }
    }

    /// The key alone.
    pub(crate) fn key(&self) -> Key<16>
        ensures { result ≡ self.now.key }
    {
        self.key
    }

    /// The zone key, where one is held.
    pub(crate) fn zone(&self) -> Option<KeyBytes>
        ensures { result ≡ self.now.zone }
    {
        self.zone
    }

    /// The retail MAC of a text, which is not empty, under the key's variant for requests.
    pub(crate) fn request_mac(&self, text: &[u8]) -> [u8; 8]
        requires { 0 < length text.now }
        ensures { result ≡ retail_of (request_key_of self.now.key) text.now }
    {
        match &self.known {
            Some(known) if known.text.is(text) => known.mac,
            _ => retail(&request_key(&self.key), text),
        }
    }

    /// The retail MAC of a text, which is not empty, under the key's variant for responses.
    pub(crate) fn response_mac(&self, text: &[u8]) -> [u8; 8]
        requires { 0 < length text.now }
        ensures { result ≡ retail_of (response_key_of self.now.key) text.now }
    {
        retail(&response_key(&self.key), text)
    }

    /// What a block, enciphered under the key's variant for PINs, is translated to under the zone
    /// key; none, where it is the block of no PIN.
    pub(crate) fn translated(&self, zone: &KeyBytes, block: [u8; 8], pan: &Pan) -> Option<[u8; 8]>
        requires { self.now.zone ≡ Some zone.now }
        ensures { IsTranslationOf (bytes_of zone.now) (tdes_decrypted (pin_key_of self.now.key) block)
            pan.now result }
    {
        let known = self.known.as_ref().and_then(|known| known.translation);
        match known {
            Some(known) if known.asked.is(block, pan) => known.translated,
            _ => translated(zone, tdes_decrypt(&pin_key(&self.key), block), pan),
        }
    }
}
