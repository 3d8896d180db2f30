//! The payload of a key block, which holds the key.

ghost use Rattle.std.specs.Prelude.{◌≡◌, ◌≤◌, ◌/◌, ℕ, List, IfSome, MatchOption, length};
ghost use Rattle.duk_tdes.specs.Tdes.{IsTdesKey, IsTdesLength};
ghost use Rattle.duk_block.specs.Faults.{Carries};
ghost use Rattle.duk_block.specs.KeyBlock.{payload_of};
ghost use Rattle.duk_tdes.specs.KeyBytes.{bytes_of, key_from};

use crate::text::{BlockText, MAX_TEXT, append};
use duk_tdes::{Key, KeyBytes, array_of};

/// The payload that carries a key: its length in bits, the key, and padding.
pub fn payload_with<const M: usize>(key: &Key<M>, pad: &[u8]) -> BlockText
    requires length { IsTdesLength M }
    requires room { length pad.now ≤ MAX_TEXT / 2 }
    ensures payload { result.items ≡ payload_of key.now pad.now }
    ensures key { IsTdesKey key.now }
    ensures key_length { length key.now ≡ M }
{
    let mut payload = BlockText::new();
    append(&mut payload, &((8 * M) as u16).to_be_bytes());
    append(&mut payload, &key.bytes());
    append(&mut payload, pad);
    payload
}

/// The key that a payload carries.
pub fn key_in(payload: &[u8]) -> Option<KeyBytes>
    requires { 24 ≤ length payload.now }
    ensures found { MatchOption result ((key : List ℕ) → Carries payload.now key → ⊥)
        (λ found. Carries payload.now (bytes_of found)) }
    ensures length { IfSome result (λ found. found ≡ key_from (bytes_of found)) }
{
    match u16::from_be_bytes(array_of(&payload[..2])) {
        128 => Some(KeyBytes::Double(Key::new(array_of(&payload[2..18])))),
        192 if payload.len() >= 26 => {
            Some(KeyBytes::Triple(Key::new(array_of(&payload[2..26]))))
        }
        _ => None,
    }
}
