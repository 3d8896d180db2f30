//! A published key block that is cut, and with each of its characters changed to each other byte.

use duk_block::{BlockFault, unwrap};
use duk_tdes::KeyBytes;
use duk_tests_support::sample::{LMK, PUBLISHED, ZONE, key};

/// What is read in a text: the number that a key of 16 bytes makes, or the fault.
fn read(text: &[u8]) -> Result<Option<u128>, BlockFault> {
    let (_, found) = unwrap(&key(LMK), text)?;
    match found {
        KeyBytes::Double(found) => Ok(Some(u128::from_be_bytes(found.bytes()))),
        KeyBytes::Triple(_) => Ok(None),
    }
}

#[test]
fn a_key_block_that_is_cut(rt: HostRuntime) {
    assert_eq!(rt; read(PUBLISHED), Ok(Some(ZONE)));
    for length in 0..PUBLISHED.len() {
        assert_eq!(rt; read(&PUBLISHED[..length]), Err(BlockFault::Length));
    }
}

/// What is to be read where another byte stands at a place. Any count of optional blocks above none
/// would begin with one of B4 hexadecimal characters, for which there is no room. After the header
/// the digits of the MAC and the ciphertext may have either case.
fn expected(place: usize, byte: u8) -> Result<Option<u128>, BlockFault> {
    Err(match place {
        0 => BlockFault::Version,
        1..=4 => BlockFault::Length,
        5..=11 if byte < 0x20 || byte > 0x7E => BlockFault::HeaderField,
        12 | 13 if !byte.is_ascii_digit() => BlockFault::HeaderField,
        12 | 13 => BlockFault::OptionalBlock,
        5..=15 => BlockFault::Mac,
        _ if !byte.is_ascii_hexdigit() => BlockFault::Hex,
        _ if is_other_case(place, byte) => return Ok(Some(ZONE)),
        _ => BlockFault::Mac,
    })
}

/// Whether a byte is the character at a place in either case.
fn is_other_case(place: usize, byte: u8) -> bool {
    match PUBLISHED.get(place) {
        Some(character) => byte.eq_ignore_ascii_case(character),
        None => false,
    }
}

/// The first other byte at a place with which something else is read than is expected.
fn read_otherwise(place: usize) -> Option<u8> {
    for byte in 0..=255 {
        let mut text = *PUBLISHED;
        let Some(character) = text.get_mut(place) else {
            return Some(byte);
        };
        if *character != byte {
            *character = byte;
            if read(&text) != expected(place, byte) {
                return Some(byte);
            }
        }
    }
    None
}

#[test]
fn a_key_block_that_is_changed(rt: HostRuntime) {
    for place in 0..PUBLISHED.len() {
        assert_eq!(rt; read_otherwise(place), None);
    }
}
