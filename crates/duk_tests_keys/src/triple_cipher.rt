//! A worked example of NIST SP 800-67 with three keys, a PIN block of ISO 9564-1 enciphered under
//! two, and chained blocks computed with OpenSSL.

ghost use Rattle.duk_tdes.specs.Tdes.{IsTdesLength};

use duk_tdes::{Key, cbc_decrypt, cbc_encrypt, tdes_decrypt, tdes_encrypt};

const THREE_KEYS: [u8; 24] = [
    0x01, 0x23, 0x45, 0x67, 0x89, 0xAB, 0xCD, 0xEF, 0x23, 0x45, 0x67, 0x89, 0xAB, 0xCD, 0xEF, 0x01,
    0x45, 0x67, 0x89, 0xAB, 0xCD, 0xEF, 0x01, 0x23,
];

const TWO_KEYS: u128 = 0x0426_66B4_9184_CF5C_68DE_9628_D039_7B36;

/// A block enciphered, where it is deciphered to the block again.
fn encipher<const N: usize>(key: [u8; N], block: u64) -> Option<u64>
    requires { IsTdesLength N }
{
    let key = Key::new(key);
    let cipher = tdes_encrypt(&key, block.to_be_bytes());
    if u64::from_be_bytes(tdes_decrypt(&key, cipher)) == block {
        Some(u64::from_be_bytes(cipher))
    } else {
        None
    }
}

#[test]
fn blocks(rt: HostRuntime) {
    assert_eq!(rt;
        encipher(THREE_KEYS, 0x5468_6520_7175_6663),
        Some(0xA826_FD8C_E53B_855F)
    );
    assert_eq!(rt;
        encipher(TWO_KEYS.to_be_bytes(), 0x0412_74ED_CBA9_876F),
        Some(0x1B9C_1845_EB99_3A7A)
    );
}

const INITIAL_VECTOR: [u8; 8] = [0x12, 0x34, 0x56, 0x78, 0x90, 0xAB, 0xCD, 0xEF];

/// The plain text of each answer.
const PLAIN: [u8; 24] = [
    0x6B, 0xC1, 0xBE, 0xE2, 0x2E, 0x40, 0x9F, 0x96, 0xE9, 0x3D, 0x7E, 0x11, 0x73, 0x93, 0x17, 0x2A,
    0xAE, 0x2D, 0x8A, 0x57, 0x1E, 0x03, 0xAC, 0x9C,
];

/// A key of 16 bytes, and the plain text chained under it.
const DOUBLE: u128 = 0x0123_4567_89AB_CDEF_FEDC_BA98_7654_3210;

const UNDER_DOUBLE: [u8; 24] = [
    0x83, 0x2F, 0x61, 0x05, 0x80, 0x39, 0x36, 0x1C, 0x87, 0x74, 0xF6, 0x92, 0x3E, 0x61, 0xB1, 0x5D,
    0x25, 0x8F, 0xD4, 0xD3, 0x40, 0x14, 0x4B, 0x86,
];

/// A key of 24 bytes, and the plain text chained under it.
const TRIPLE: [u8; 24] = [
    0x8A, 0xA8, 0x3B, 0xF8, 0xCB, 0xDA, 0x10, 0x62, 0x0B, 0xC1, 0xBF, 0x19, 0xFB, 0xB6, 0xCD, 0x58,
    0xBC, 0x31, 0x3D, 0x4A, 0x37, 0x1C, 0xA8, 0xB5,
];

const UNDER_TRIPLE: [u8; 24] = [
    0x49, 0x08, 0xC1, 0x17, 0x39, 0x17, 0x90, 0x5B, 0x35, 0x99, 0x32, 0xAB, 0x86, 0xC2, 0x33, 0x9D,
    0xD4, 0x46, 0x6E, 0x3F, 0x05, 0x1D, 0xA2, 0xDD,
];

/// Whether the plain text is enciphered to this, and this is deciphered to it.
fn chains<const N: usize>(key: [u8; N], mut cipher: [u8; 24]) -> bool
    requires { IsTdesLength N }
{
    let key = Key::new(key);
    let mut bytes = PLAIN;
    cbc_encrypt(&key, INITIAL_VECTOR, &mut bytes);
    let is_enciphered = bytes == cipher;
    cbc_decrypt(&key, INITIAL_VECTOR, &mut cipher);
    is_enciphered && cipher == PLAIN
}

#[test]
fn chained_blocks(rt: HostRuntime) {
    assert!(rt; chains(DOUBLE.to_be_bytes(), UNDER_DOUBLE));
    assert!(rt; chains(TRIPLE, UNDER_TRIPLE));
}
