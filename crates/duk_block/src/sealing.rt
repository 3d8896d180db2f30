//! The MAC and the ciphertext of a key block.

ghost use Rattle.std.specs.Prelude.{◌≡◌, ◌≤◌, ◌+◌, ◌%◌, ℕ, List, length};
ghost use Rattle.duk_des.specs.Block.{IsBlock};
ghost use Rattle.duk_tdes.specs.Cbc.{AreWholeBlocks};
ghost use Rattle.duk_tdes.specs.Tdes.{IsTdesLength};
ghost use Rattle.duk_block.specs.KeyBlock.{ciphertext_of, mac_of};

use crate::derivation::{encryption_key, mac_key};
use crate::text::{BlockText, MAX_TEXT, append};
use duk_mac::cmac;
use duk_tdes::{Key, cbc_decrypt, cbc_encrypt};

/// The MAC of a key block: `front` is what stands before its ciphertext, and `payload` is clear.
pub fn block_mac<const N: usize>(kbpk: &Key<N>, front: &[u8], payload: &[u8]) -> [u8; 8]
    requires key { IsTdesLength N }
    requires room { length front.now + length payload.now ≤ MAX_TEXT }
    ensures mac { result ≡ mac_of kbpk.now front.now payload.now }
    ensures block { IsBlock result }
{
    let mut message = BlockText::new();
    append(&mut message, front);
    append(&mut message, payload);
    cmac(&mac_key(kbpk), message.as_slice())
}

/// The payload enciphered, with the MAC as initial vector.
pub fn encipher<const N: usize>(kbpk: &Key<N>, mac: [u8; 8], payload: &[u8]) -> BlockText
    requires key { IsTdesLength N }
    requires room { length payload.now ≤ MAX_TEXT }
    requires whole { length payload.now % 8 ≡ 0 }
    requires mac { IsBlock mac }
    ensures ciphertext { result.items ≡ ciphertext_of kbpk.now mac payload.now }
    ensures width { length result.items ≡ length payload.now }
    ensures plain { AreWholeBlocks payload.now }
    ensures whole { AreWholeBlocks result.items }
{
    duk_tdes::laws::cbc_inverse();
    let key = encryption_key(kbpk);
    let mut bytes = BlockText::new();
    append(&mut bytes, payload);
    cbc_encrypt(&key, mac, bytes.as_mut_slice());
    bytes
}

/// The one payload of whole blocks that `encipher` makes this ciphertext of.
pub fn decipher<const N: usize>(kbpk: &Key<N>, mac: [u8; 8], ciphertext: &[u8]) -> BlockText
    requires key { IsTdesLength N }
    requires room { length ciphertext.now ≤ MAX_TEXT }
    requires whole { length ciphertext.now % 8 ≡ 0 }
    requires mac { IsBlock mac }
    ensures payload { ciphertext.now ≡ ciphertext_of kbpk.now mac result.items }
    ensures whole { AreWholeBlocks result.items }
    ensures width { length result.items ≡ length ciphertext.now }
    ensures only { (payload : List ℕ) → AreWholeBlocks payload
        → ciphertext.now ≡ ciphertext_of kbpk.now mac payload → payload ≡ result.items }
{
    duk_tdes::laws::cbc_inverse();
    let key = encryption_key(kbpk);
    let mut bytes = BlockText::new();
    append(&mut bytes, ciphertext);
    cbc_decrypt(&key, mac, bytes.as_mut_slice());
    bytes
}
