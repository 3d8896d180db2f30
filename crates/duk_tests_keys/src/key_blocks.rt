//! Key blocks that are wrapped and read, with texts from outside.

ghost use Rattle.duk_tdes.specs.Tdes.{IsTdesLength};

use duk_block::{BlockFault, BlockText, Header, unwrap, wrap};
use duk_mac::cmac;
use duk_tdes::{Key, KeyBytes};
use duk_tests_support::printed::misprinted;
use duk_tests_support::sample::key;
use hex::FromHex;

const PIN_KEY: Header = Header {
    usage: *b"P0",
    algorithm: b'T',
    mode: b'E',
    version: *b"00",
    exportability: b'E',
};

// Key block protection key, key and padding, and the key block with the header `PIN_KEY`. The first
// is published; the others were computed with OpenSSL.
static WRAPPED: [(&str, &str, [u8; 6], &str); 4] = [
    (
        "DD7515F2BFC17F85CE48F3CA25CB21F6",
        "3F419E1CB7079442AA37474C2EFBF8B8",
        [0x1C, 0x29, 0x65, 0x47, 0x3C, 0xE2],
        "B0080P0TE00E000094B420079CC80BA3461F86FE26EFC4A3B8E4FA4C5F5341176EED7B727B8A248E",
    ),
    (
        "DD7515F2BFC17F85CE48F3CA25CB21F6",
        "0123456789ABCDEF23456789ABCDEF01456789ABCDEF0123",
        [0xA5; 6],
        "B0096P0TE00E0000F72EA60D24F927C82B5304735BB45FB1C688AC5B0721D792C5438019B7F5CC3BACFA87640AE593C3",
    ),
    (
        "8AA83BF8CBDA10620BC1BF19FBB6CD58BC313D4A371CA8B5",
        "3F419E1CB7079442AA37474C2EFBF8B8",
        [0xA5; 6],
        "B0080P0TE00E0000AA3C09B68D76EF8E28528CB7F45ABC3ECCBB54F3E5108165DCAEC17784CEC3F9",
    ),
    (
        "8AA83BF8CBDA10620BC1BF19FBB6CD58BC313D4A371CA8B5",
        "0123456789ABCDEF23456789ABCDEF01456789ABCDEF0123",
        [0xA5; 6],
        "B0096P0TE00E00006ACC00F9C8E08DED03EB12B24950C07B92C9012B31DC523DC511AF465B0560AE9384E98AC6587E53",
    ),
];

/// Wraps a key of either length.
fn wrap_key<const N: usize>(kbpk: &Key<N>, key: &KeyBytes, pad: &[u8]) -> Option<BlockText>
    requires { IsTdesLength N }
{
    match key {
        KeyBytes::Double(key) => wrap(kbpk, &PIN_KEY, key, pad).ok(),
        KeyBytes::Triple(key) => wrap(kbpk, &PIN_KEY, key, pad).ok(),
    }
}

/// Wraps a key under a protection key of either length.
fn wrap_under(kbpk: &str, key: &str, pad: &[u8]) -> Option<BlockText> {
    let key = KeyBytes::parse(key)?;
    match KeyBytes::parse(kbpk)? {
        KeyBytes::Double(kbpk) => wrap_key(&kbpk, &key, pad),
        KeyBytes::Triple(kbpk) => wrap_key(&kbpk, &key, pad),
    }
}

/// Whether this key is wrapped to this text.
fn is_written(kbpk: &str, key: &str, pad: &[u8], text: &str) -> bool {
    match wrap_under(kbpk, key, pad) {
        Some(written) => written.as_slice() == text.as_bytes(),
        None => false,
    }
}

/// Reads a text under a protection key of either length.
fn unwrap_under(kbpk: &str, text: &str) -> Option<(Header, KeyBytes)> {
    match KeyBytes::parse(kbpk)? {
        KeyBytes::Double(kbpk) => unwrap(&kbpk, text.as_bytes()).ok(),
        KeyBytes::Triple(kbpk) => unwrap(&kbpk, text.as_bytes()).ok(),
    }
}

/// Whether a key has these digits.
fn has_digits(key: &KeyBytes, digits: &str) -> bool {
    match key {
        KeyBytes::Double(key) => <[u8; 16] as FromHex>::from_hex(digits).ok() == Some(key.bytes()),
        KeyBytes::Triple(key) => <[u8; 24] as FromHex>::from_hex(digits).ok() == Some(key.bytes()),
    }
}

/// Whether this key is read from this text, with the header `PIN_KEY`.
fn is_read(kbpk: &str, key: &str, text: &str) -> bool {
    match unwrap_under(kbpk, text) {
        Some((header, found)) => header == PIN_KEY && has_digits(&found, key),
        None => false,
    }
}

#[test]
fn keys_are_wrapped_and_read(rt: HostRuntime) {
    for (kbpk, key, pad, text) in &WRAPPED {
        assert!(rt; is_written(kbpk, key, pad, text));
        assert!(rt; is_read(kbpk, key, text));
    }
}

/// A key block with an optional block of 12 characters, computed with OpenSSL.
const WITH_OPTIONAL_BLOCK: &str =
    "B0096P0TE00E0100PB10the content!2d7438483ae76dc98a34e952afc2cac51edf8c045240240b81AE3D5B93F74742";

/// What its MAC is over, header, optional block and payload, and the key that is derived for the
/// MAC.
const SEALED: &[u8; 56] =
    b"B0096P0TE00E0100PB10the content!\x00\x80\x3F\x41\x9E\x1C\xB7\x07\x94\x42\xAA\x37\x47\x4C\x2E\xFB\xF8\xB8\xA5\xA5\xA5\xA5\xA5\xA5";

const MAC_KEY: u128 = 0xDD6CEEC1_782D8453_671BF835_8AF9DB47;

#[test]
fn an_optional_block(rt: HostRuntime) {
    let mac = cmac(&key(MAC_KEY), SEALED);
    assert_eq!(rt; u64::from_be_bytes(mac), 0x81AE3D5B93F74742);
    let (kbpk, key, _, _) = &WRAPPED[0];
    assert!(rt; is_read(kbpk, key, WITH_OPTIONAL_BLOCK));
}

static FAULTS: [(BlockFault, &str); 8] = [
    (BlockFault::Length, "Length"),
    (BlockFault::Version, "Version"),
    (BlockFault::HeaderField, "HeaderField"),
    (BlockFault::OptionalBlock, "OptionalBlock"),
    (BlockFault::Hex, "Hex"),
    (BlockFault::Mac, "Mac"),
    (BlockFault::Payload, "Payload"),
    (BlockFault::PadLength, "PadLength"),
];

#[test]
fn names_of_faults(rt: HostRuntime) {
    assert_eq!(rt; misprinted(rt.alloc(), &FAULTS), Ok(None));
}
