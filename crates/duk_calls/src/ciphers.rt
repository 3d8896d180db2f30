//! TDES, on a block (NIST SP 800-67 section 3) and in cipher block chaining (NIST SP 800-38A
//! section 6.2).

ghost use Rattle.std.specs.Prelude.{◌≡◌, ◌%◌, length};
ghost use Rattle.duk_tdes.specs.Cbc.{cbc_decrypted, cbc_encrypted};
ghost use Rattle.duk_tdes.specs.KeyBytes.{bytes_of};
ghost use Rattle.duk_tdes.specs.Tdes.{tdes_decrypted, tdes_encrypted};
ghost use Rattle.duk_calls.specs.Ciphers.{BlockAnswers, ChainAnswers};

use crate::arguments::tdes_key;
use crate::fault::Fault;
use duk_tdes::{KeyBytes, array_of};

/// Enciphers a block (8 bytes) in place, under a key of 16 or 24 bytes.
///
/// Refused with `Length`.
pub fn tdes_encrypt(key: &[u8], block: &mut [u8]) -> Result<(), Fault>
    ensures { BlockAnswers tdes_encrypted key.now block.old block.new result }
{
    let key = tdes_key(key).ok_or(Fault::Length)?;
    if block.len() != 8 {
        return Err(Fault::Length);
    }
    let enciphered = key.encrypt(array_of(block));
    block.copy_from_slice(&enciphered);
    Ok(())
}

/// Deciphers a block (8 bytes) in place, under a key of 16 or 24 bytes.
///
/// Refused with `Length`.
pub fn tdes_decrypt(key: &[u8], block: &mut [u8]) -> Result<(), Fault>
    ensures { BlockAnswers tdes_decrypted key.now block.old block.new result }
{
    let key = tdes_key(key).ok_or(Fault::Length)?;
    if block.len() != 8 {
        return Err(Fault::Length);
    }
    let deciphered = key.decrypt(array_of(block));
    block.copy_from_slice(&deciphered);
    Ok(())
}

/// Enciphers whole blocks of 8 bytes, perhaps none, in place, under a key of 16 or 24 bytes and
/// from an initial vector of 8.
///
/// Refused with `Length`.
pub fn cbc_encrypt(key: &[u8], iv: &[u8], bytes: &mut [u8]) -> Result<(), Fault>
    ensures { ChainAnswers cbc_encrypted key.now iv.now bytes.old bytes.new result }
{
    let key = tdes_key(key).ok_or(Fault::Length)?;
    if iv.len() != 8 || bytes.len() % 8 != 0 {
        return Err(Fault::Length);
    }
    encrypt_chain(&key, array_of(iv), bytes);
    Ok(())
}

/// Deciphers whole blocks of 8 bytes, perhaps none, in place, under a key of 16 or 24 bytes and
/// from an initial vector of 8.
///
/// Refused with `Length`.
pub fn cbc_decrypt(key: &[u8], iv: &[u8], bytes: &mut [u8]) -> Result<(), Fault>
    ensures { ChainAnswers cbc_decrypted key.now iv.now bytes.old bytes.new result }
{
    let key = tdes_key(key).ok_or(Fault::Length)?;
    if iv.len() != 8 || bytes.len() % 8 != 0 {
        return Err(Fault::Length);
    }
    decrypt_chain(&key, array_of(iv), bytes);
    Ok(())
}

/// Enciphers whole blocks under a key of either length.
fn encrypt_chain(key: &KeyBytes, iv: [u8; 8], bytes: &mut [u8])
    requires { length bytes.old % 8 ≡ 0 }
    ensures { bytes.new ≡ cbc_encrypted (bytes_of key.now) iv bytes.old }
{
    match key {
        KeyBytes::Double(key) => duk_tdes::cbc_encrypt(key, iv, bytes),
        KeyBytes::Triple(key) => duk_tdes::cbc_encrypt(key, iv, bytes),
    }
}

/// Deciphers whole blocks under a key of either length.
fn decrypt_chain(key: &KeyBytes, iv: [u8; 8], bytes: &mut [u8])
    requires { length bytes.old % 8 ≡ 0 }
    ensures { bytes.new ≡ cbc_decrypted (bytes_of key.now) iv bytes.old }
{
    match key {
        KeyBytes::Double(key) => duk_tdes::cbc_decrypt(key, iv, bytes),
        KeyBytes::Triple(key) => duk_tdes::cbc_decrypt(key, iv, bytes),
    }
}
