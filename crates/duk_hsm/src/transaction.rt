//! A key serial number that was opened, and the commands over its transaction key.
//!
//! A transaction owns its key and a copy of the zone key, so that a host may change its index and
//! its log while it has one.

ghost use Rattle.std.specs.Prelude.{◌≡◌, ◌↔◌, ◌<◌, IfOk, IfErr, IsOk, length};
ghost use Rattle.duk_tree.specs.Serial.{Serial};
ghost use Rattle.duk_hsm.specs.Keys.{HsmKeys};
ghost use Rattle.duk_hsm.specs.Commands.{IsReplyMac, IsRequestMac, IsTranslated, TranslateRefused, VerifyRefused};
ghost use Rattle.duk_hsm.specs.TransactionKeys.{AreTransactionKeys};

use crate::fault::HsmFault;
use crate::prepared::PreparedKey;
use duk_mac::same_mac;
use duk_pin::Pan;
use std::marker::Model;

/// A key serial number that a host security module opened: its transaction key, which is derived
/// once for all commands of the transaction, and the module's zone key. One that was opened
/// together with others also holds what was made beforehand with the key.
///
/// It shows neither: it has no `Debug` and no `==`, and its commands answer as those of the module
/// do. It is not copied either.
#[derive(Drop)]
pub struct Transaction {
    prepared: PreparedKey,
}

impl Model for Transaction {
    ghost use Rattle.duk_hsm.specs.TransactionKeys.{TransactionKeys};

    ghost Value = { TransactionKeys };

    ghost view = { λ transaction. transaction.prepared };
}

impl Transaction {
    /// The transaction with this key.
    pub(crate) fn new(prepared: PreparedKey) -> Self
        ensures { result ≡ prepared }
    {
        Transaction { prepared }
    }

    /// Whether `mac` is the retail MAC of a text, which is not empty, under the transaction
    /// key's variant for requests. Refused with `BadMac`.
    pub fn verify(&self, text: &[u8], mac: [u8; 8]) -> Result<(), HsmFault>
        requires { 0 < length text.now }
        ensures verified { (keys : HsmKeys) (ksn : Serial) → AreTransactionKeys keys ksn self.now
            → IsOk result ↔ IsRequestMac keys ksn text.now mac }
        ensures refused { (keys : HsmKeys) (ksn : Serial) → AreTransactionKeys keys ksn self.now
            → IfErr result (VerifyRefused keys ksn text.now mac) }
    {
        if same_mac(&self.prepared.request_mac(text), &mac) {
            Ok(())
        } else {
            Err(HsmFault::BadMac)
        }
    }

    /// The retail MAC of a text, which is not empty, under the transaction key's variant for
    /// responses.
    pub fn reply_mac(&self, text: &[u8]) -> [u8; 8]
        requires { 0 < length text.now }
        ensures made { (keys : HsmKeys) (ksn : Serial) → AreTransactionKeys keys ksn self.now
            → IsReplyMac keys ksn text.now result }
    {
        self.prepared.response_mac(text)
    }

    /// Turns a PIN block that is enciphered under the transaction key's variant for PINs into one
    /// that is enciphered under the zone key: it is deciphered, its PIN is read with the PAN and
    /// encoded again.
    ///
    /// Refused with `NoZone`, and then with `BadPinBlock`, where the deciphered block is that of no
    /// PIN under the PAN.
    pub fn translate(&self, block: [u8; 8], pan: &Pan) -> Result<[u8; 8], HsmFault>
        ensures translated { (keys : HsmKeys) (ksn : Serial) → AreTransactionKeys keys ksn self.now
            → IfOk result (IsTranslated keys ksn block pan.now) }
        ensures refused { (keys : HsmKeys) (ksn : Serial) → AreTransactionKeys keys ksn self.now
            → IfErr result (TranslateRefused keys ksn block pan.now) }
    {
        let zone = self.prepared.zone().ok_or(HsmFault::NoZone)?;
        let translated = self.prepared.translated(&zone, block, pan);
        translated.ok_or(HsmFault::BadPinBlock)
    }
}
