//! MACs, CMAC (NIST SP 800-38B) and the retail MAC (ANSI X9.19), and check values of keys
//! (ANSI X9.24-1:2017 annex A).

ghost use Rattle.std.specs.Prelude.{◌≡◌};
ghost use Rattle.duk_mac.specs.CheckValue.{check_value_of, cmac_check_value_of};
ghost use Rattle.duk_mac.specs.Cmac.{cmac_of};
ghost use Rattle.duk_tdes.specs.KeyBytes.{bytes_of};
ghost use Rattle.duk_calls.specs.Macs.{CheckValueAnswers, CmacAnswers, RetailMacAnswers};

use crate::arguments::{double_key, tdes_key, write_front};
use crate::fault::Fault;
use duk_tdes::KeyBytes;

/// Writes the CMAC of a message of any length, under a key of 16 or 24 bytes, in the front of a
/// slice of at least 8 bytes.
///
/// Refused with `Length`.
pub fn cmac(key: &[u8], message: &[u8], mac: &mut [u8]) -> Result<(), Fault>
    ensures { CmacAnswers key.now message.now mac.old mac.new result }
{
    let key = tdes_key(key).ok_or(Fault::Length)?;
    if mac.len() < 8 {
        return Err(Fault::Length);
    }
    write_front(&cmac_under(&key, message), mac);
    Ok(())
}

/// Writes the retail MAC of a message of one byte or more, under a key of 16 bytes, in the front of
/// a slice of at least 8 bytes.
///
/// Refused with `Length`.
pub fn retail_mac(key: &[u8], message: &[u8], mac: &mut [u8]) -> Result<(), Fault>
    ensures { RetailMacAnswers key.now message.now mac.old mac.new result }
{
    if key.len() != 16 || message.is_empty() || mac.len() < 8 {
        return Err(Fault::Length);
    }
    write_front(&duk_mac::retail(&double_key(key), message), mac);
    Ok(())
}

/// Writes the check value of a key of 16 or 24 bytes in the front of a slice of at least 3 bytes.
///
/// Refused with `Length`.
pub fn check_value(key: &[u8], value: &mut [u8]) -> Result<(), Fault>
    ensures { CheckValueAnswers check_value_of 3 key.now value.old value.new result }
{
    let key = tdes_key(key).ok_or(Fault::Length)?;
    if value.len() < 3 {
        return Err(Fault::Length);
    }
    write_front(&check_value_under(&key), value);
    Ok(())
}

/// Writes the check value by CMAC of a key of 16 or 24 bytes in the front of a slice of at least 5
/// bytes.
///
/// Refused with `Length`.
pub fn cmac_check_value(key: &[u8], value: &mut [u8]) -> Result<(), Fault>
    ensures { CheckValueAnswers cmac_check_value_of 5 key.now value.old value.new result }
{
    let key = tdes_key(key).ok_or(Fault::Length)?;
    if value.len() < 5 {
        return Err(Fault::Length);
    }
    write_front(&cmac_check_value_under(&key), value);
    Ok(())
}

/// The CMAC of a message under a key of either length.
fn cmac_under(key: &KeyBytes, message: &[u8]) -> [u8; 8]
    ensures { result ≡ cmac_of (bytes_of key.now) message.now }
{
    match key {
        KeyBytes::Double(key) => duk_mac::cmac(key, message),
        KeyBytes::Triple(key) => duk_mac::cmac(key, message),
    }
}

/// The check value of a key of either length.
fn check_value_under(key: &KeyBytes) -> [u8; 3]
    ensures { result ≡ check_value_of (bytes_of key.now) }
{
    match key {
        KeyBytes::Double(key) => duk_mac::check_value(key),
        KeyBytes::Triple(key) => duk_mac::check_value(key),
    }
}

/// The check value by CMAC of a key of either length.
fn cmac_check_value_under(key: &KeyBytes) -> [u8; 5]
    ensures { result ≡ cmac_check_value_of (bytes_of key.now) }
{
    match key {
        KeyBytes::Double(key) => duk_mac::cmac_check_value(key),
        KeyBytes::Triple(key) => duk_mac::cmac_check_value(key),
    }
}
