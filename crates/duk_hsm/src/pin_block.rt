//! PIN blocks, and what they are translated to.

ghost use Rattle.std.specs.Prelude.{◌≡◌, ◌↔◌, ℕ, List, Option, None, Some, IfNone, IfSome, IsTrue};
ghost use Rattle.duk_tdes.specs.KeyBytes.{bytes_of};
ghost use Rattle.duk_tdes.specs.Tdes.{tdes_decrypted};
ghost use Rattle.duk_tdes.specs.declared.key.KeyBytes.{KeyBytes};
ghost use Rattle.duk_tree.specs.Derivation.{pin_key_of};
ghost use Rattle.duk_hsm.specs.inner.Known.{IsTranslatedWith, IsTranslationOf, under};

use duk_pin::{Pan, Pin, decode, encode};
use duk_tdes::KeyBytes;

/// A PIN block under a transaction key's variant for PINs, and the PAN with which its PIN is read.
#[derive(Clone, Copy)]
pub(crate) struct PinBlock {
    /// The block.
    pub(crate) block: [u8; 8],
    /// The PAN.
    pub(crate) pan: Pan,
}

impl PinBlock {
    /// Whether it is this block, with this PAN.
    pub(crate) fn is(&self, block: [u8; 8], pan: &Pan) -> bool
        ensures { IsTrue result ↔ (self.now ≡ record { block = block; pan = pan.now }) }
    {
        self.block == block && self.pan == *pan
    }
}

/// A PIN block, and what it is translated to.
#[derive(Clone, Copy)]
pub(crate) struct Translation {
    /// The PIN block.
    pub(crate) asked: PinBlock,
    /// The PIN block under the zone key, or none where the block is that of no PIN.
    pub(crate) translated: Option<[u8; 8]>,
}

/// What a deciphered block is translated to: its PIN is read with the PAN, encoded again, and
/// enciphered under the zone key. None, where the block is that of no PIN.
pub(crate) fn translated(zone: &KeyBytes, clear: [u8; 8], pan: &Pan) -> Option<[u8; 8]>
    ensures { IsTranslationOf (bytes_of zone.now) clear pan.now result }
{
    let pin = decode(clear, pan)?;
    Some(zone.encrypt(encode(&pin, pan)))
}

/// The translation of a PIN block, from the deciphered one and this one enciphered under the zone
/// key. A PIN has one block under a PAN, so that to encode it again gives that block: only whether
/// there is a PIN in it is left to see. None, where there is no PIN block or no zone key.
pub(crate) fn translation_of(
    asked: Option<PinBlock>,
    clear: [u8; 8],
    cipher: Option<[u8; 8]>,
) -> Option<Translation>
    ensures { (key : List ℕ) (zone : Option KeyBytes)
        → IfSome asked (λ asked. clear ≡ tdes_decrypted (pin_key_of key) asked.block)
        → cipher ≡ under zone clear → IsTranslatedWith key zone result }
{
    duk_pin::laws::one_block();
    let (Some(asked), Some(cipher)) = (asked, cipher) else {
        return None;
    };
    let translated = if_pin(decode(clear, &asked.pan), cipher);
    Some(Translation { asked, translated })
}

/// The block, where there is a PIN.
fn if_pin(pin: Option<Pin>, cipher: [u8; 8]) -> Option<[u8; 8]>
    ensures some { IfSome pin (λ _. result ≡ Some cipher) }
    ensures none { IfNone pin (result ≡ None) }
{
    match pin {
        Some(_) => Some(cipher),
        None => None,
    }
}
