//! Cipher block chaining with TDES (NIST SP 800-38A section 6.2), in place.

ghost use Rattle.std.specs.Prelude.{◌≡◌, ◌%◌, length};
ghost use Rattle.duk_tdes.specs.Cbc.{cbc_encrypted, cbc_decrypted};
ghost use Rattle.duk_tdes.specs.Tdes.{IsTdesLength};

use crate::bytes::array_of;
use crate::cipher::Tdes;
use crate::key::Key;
use duk_des::xor_bytes;

/// Enciphers whole blocks in place, from an initial vector of one block. `N` is 16 or 24.
pub fn cbc_encrypt<const N: usize>(key: &Key<N>, iv: [u8; 8], bytes: &mut [u8])
    requires key { IsTdesLength N }
    requires whole { length bytes.old % 8 ≡ 0 }
    ensures { bytes.new ≡ cbc_encrypted key.now iv bytes.old }
{
    encrypt_chain(&Tdes::new(key), iv, bytes);
}

/// Deciphers in place what `cbc_encrypt` enciphered under the same key from the same initial
/// vector.
pub fn cbc_decrypt<const N: usize>(key: &Key<N>, iv: [u8; 8], bytes: &mut [u8])
    requires key { IsTdesLength N }
    requires whole { length bytes.old % 8 ≡ 0 }
    ensures { bytes.new ≡ cbc_decrypted key.now iv bytes.old }
{
    decrypt_chain(&Tdes::new(key), iv, bytes);
}

/// Enciphers whole blocks in place under one key.
fn encrypt_chain<const N: usize>(tdes: &Tdes<N>, iv: [u8; 8], bytes: &mut [u8])
    requires { length bytes.old % 8 ≡ 0 }
    ensures { bytes.new ≡ cbc_encrypted tdes.now iv bytes.old }
{
    let mut before = iv;
    let mut place = 0;
    while place < bytes.len() {
        let end = place + 8;
        before = tdes.encrypt(xor_bytes(&array_of(&bytes[place..end]), &before));
        bytes[place..end].copy_from_slice(&before);
        place = end;
    }
}

/// Deciphers whole blocks in place under one key.
fn decrypt_chain<const N: usize>(tdes: &Tdes<N>, iv: [u8; 8], bytes: &mut [u8])
    requires { length bytes.old % 8 ≡ 0 }
    ensures { bytes.new ≡ cbc_decrypted tdes.now iv bytes.old }
{
    let mut before = iv;
    let mut place = 0;
    while place < bytes.len() {
        let end = place + 8;
        let block = array_of(&bytes[place..end]);
        let plain = xor_bytes(&tdes.decrypt(block), &before);
        bytes[place..end].copy_from_slice(&plain);
        before = block;
        place = end;
    }
}
