//! The keys of the key tree (ANSI X9.24-1:2009 annex A).

ghost use Rattle.duk_data.specs.DataKeys.{request_data_key_of, response_data_key_of};
ghost use Rattle.duk_tree.specs.Derivation.{pin_key_of, request_key_of, response_key_of};
ghost use Rattle.duk_calls.specs.Keys.{DeriveAnswers, DeriveFromInitialAnswers, InitialKeyAnswers, VariantAnswers};

use crate::arguments::{double_key, initial_number, serial_number, write_front};
use crate::fault::Fault;

/// Writes the initial key of an initial key serial number (10 bytes), under the base derivation key
/// (16 bytes), in the front of a slice of at least 16 bytes.
///
/// Refused with, in this order: `Length`; `NotInitial`.
pub fn initial_key(bdk: &[u8], iksn: &[u8], key: &mut [u8]) -> Result<(), Fault>
    ensures { InitialKeyAnswers bdk.now iksn.now key.old key.new result }
{
    if [bdk.len(), iksn.len()] != [16, 10] || key.len() < 16 {
        return Err(Fault::Length);
    }
    let Some(iksn) = initial_number(iksn) else {
        return Err(Fault::NotInitial);
    };
    let bdk = double_key(bdk);
    write_front(&duk_tree::initial_key(&bdk, iksn).bytes(), key);
    Ok(())
}

/// Writes the transaction key of a key serial number (10 bytes), under the base derivation key (16
/// bytes), in the front of a slice of at least 16 bytes. The counter may be any: zero gives the
/// initial key.
///
/// Refused with `Length`.
pub fn derive(bdk: &[u8], ksn: &[u8], key: &mut [u8]) -> Result<(), Fault>
    ensures { DeriveAnswers bdk.now ksn.now key.old key.new result }
{
    if [bdk.len(), ksn.len()] != [16, 10] || key.len() < 16 {
        return Err(Fault::Length);
    }
    let bdk = double_key(bdk);
    let ksn = serial_number(ksn);
    write_front(&duk_tree::derive(&bdk, ksn).bytes(), key);
    Ok(())
}

/// Writes the transaction key of a key serial number (10 bytes), under the initial key (16 bytes)
/// of its terminal, in the front of a slice of at least 16 bytes. The counter may be any: zero
/// gives the initial key.
///
/// Refused with `Length`.
pub fn derive_from_initial(initial: &[u8], ksn: &[u8], key: &mut [u8]) -> Result<(), Fault>
    ensures { DeriveFromInitialAnswers initial.now ksn.now key.old key.new result }
{
    if [initial.len(), ksn.len()] != [16, 10] || key.len() < 16 {
        return Err(Fault::Length);
    }
    let initial = double_key(initial);
    let ksn = serial_number(ksn);
    write_front(&duk_tree::transaction_key(&initial, ksn).bytes(), key);
    Ok(())
}

/// Writes the variant of a transaction key (16 bytes) that enciphers PINs in the front of a slice
/// of at least 16 bytes.
///
/// Refused with `Length`.
pub fn pin_key(key: &[u8], variant: &mut [u8]) -> Result<(), Fault>
    ensures { VariantAnswers pin_key_of key.now variant.old variant.new result }
{
    if key.len() != 16 || variant.len() < 16 {
        return Err(Fault::Length);
    }
    write_front(&duk_tree::pin_key(&double_key(key)).bytes(), variant);
    Ok(())
}

/// Writes the variant of a transaction key (16 bytes) that makes the MACs of requests in the front
/// of a slice of at least 16 bytes.
///
/// Refused with `Length`.
pub fn request_key(key: &[u8], variant: &mut [u8]) -> Result<(), Fault>
    ensures { VariantAnswers request_key_of key.now variant.old variant.new result }
{
    if key.len() != 16 || variant.len() < 16 {
        return Err(Fault::Length);
    }
    write_front(&duk_tree::request_key(&double_key(key)).bytes(), variant);
    Ok(())
}

/// Writes the variant of a transaction key (16 bytes) that makes the MACs of replies in the front
/// of a slice of at least 16 bytes.
///
/// Refused with `Length`.
pub fn response_key(key: &[u8], variant: &mut [u8]) -> Result<(), Fault>
    ensures { VariantAnswers response_key_of key.now variant.old variant.new result }
{
    if key.len() != 16 || variant.len() < 16 {
        return Err(Fault::Length);
    }
    write_front(&duk_tree::response_key(&double_key(key)).bytes(), variant);
    Ok(())
}

/// Writes the key of a transaction that enciphers the data of its request, or of both ways, in the
/// front of a slice of at least 16 bytes (ANSI X9.24-1:2009 annex A.4.1). `key` is the transaction
/// key (16 bytes).
///
/// Refused with `Length`.
pub fn request_data_key(key: &[u8], variant: &mut [u8]) -> Result<(), Fault>
    ensures { VariantAnswers request_data_key_of key.now variant.old variant.new result }
{
    if key.len() != 16 || variant.len() < 16 {
        return Err(Fault::Length);
    }
    write_front(
        &duk_data::request_data_key(&double_key(key)).bytes(),
        variant,
    );
    Ok(())
}

/// Writes the key of a transaction that enciphers the data of its reply in the front of a slice of
/// at least 16 bytes (ANSI X9.24-1:2009 annex A.4.1). `key` is the transaction key (16 bytes).
///
/// Refused with `Length`.
pub fn response_data_key(key: &[u8], variant: &mut [u8]) -> Result<(), Fault>
    ensures { VariantAnswers response_data_key_of key.now variant.old variant.new result }
{
    if key.len() != 16 || variant.len() < 16 {
        return Err(Fault::Length);
    }
    write_front(
        &duk_data::response_data_key(&double_key(key)).bytes(),
        variant,
    );
    Ok(())
}
