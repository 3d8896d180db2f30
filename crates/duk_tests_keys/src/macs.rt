//! Known answers, computed with OpenSSL.

ghost use Rattle.duk_tdes.specs.Tdes.{IsTdesLength};

use duk_mac::{cmac, retail};
use duk_tdes::Key;

// The examples of NIST SP 800-38B with TDES: the first bytes of one message, and the MAC under a
// key of either length.
const CMACS: [(usize, u64, u64); 4] = [
    (0, 0xBD2E_BF9A_3BA0_0361, 0xB7A6_88E1_22FF_AF95),
    (8, 0x4FF2_AB81_3C53_CE83, 0x8E8F_2931_3628_3797),
    (20, 0x62DD_1B47_1902_BD4E, 0x743D_DBE0_CE2D_C2ED),
    (32, 0x31B1_E431_DABC_4EB8, 0x33E6_B109_2400_EAE5),
];

const MESSAGE: [u8; 32] = [
    0x6B, 0xC1, 0xBE, 0xE2, 0x2E, 0x40, 0x9F, 0x96, 0xE9, 0x3D, 0x7E, 0x11, 0x73, 0x93, 0x17, 0x2A,
    0xAE, 0x2D, 0x8A, 0x57, 0x1E, 0x03, 0xAC, 0x9C, 0x9E, 0xB7, 0x6F, 0xAC, 0x45, 0xAF, 0x8E, 0x51,
];

const DOUBLE: [u8; 16] = [
    0x4C, 0xF1, 0x51, 0x34, 0xA2, 0x85, 0x0D, 0xD5, 0x8A, 0x3D, 0x10, 0xBA, 0x80, 0x57, 0x0D, 0x38,
];

const TRIPLE: [u8; 24] = [
    0x8A, 0xA8, 0x3B, 0xF8, 0xCB, 0xDA, 0x10, 0x62, 0x0B, 0xC1, 0xBF, 0x19, 0xFB, 0xB6, 0xCD, 0x58,
    0xBC, 0x31, 0x3D, 0x4A, 0x37, 0x1C, 0xA8, 0xB5,
];

/// The CMAC of the message's first bytes.
fn cmac_of_first<const N: usize>(key: [u8; N], length: usize) -> Option<u64>
    requires { IsTdesLength N }
{
    let message = MESSAGE.get(..length)?;
    Some(u64::from_be_bytes(cmac(&Key::new(key), message)))
}

const RETAIL: u128 = 0x0123_4567_89AB_CDEF_FEDC_BA98_7654_3210;

/// The examples of ISO 9797-1 for its algorithm 3.
const RETAIL_MACS: [(&[u8], u64); 2] = [
    (b"Now is the time for all ", 0xA1C7_2E74_EA3F_A9B6),
    (b"Now is the time for it", 0x2E2B_1428_CC78_254F),
];

/// The retail MAC of a message that is not empty.
fn retail_of(message: &[u8]) -> Option<u64> {
    if message.is_empty() {
        return None;
    }
    let key = Key::new(RETAIL.to_be_bytes());
    Some(u64::from_be_bytes(retail(&key, message)))
}

#[test]
fn known_answers(rt: HostRuntime) {
    for (length, double, triple) in CMACS {
        assert_eq!(rt; cmac_of_first(DOUBLE, length), Some(double));
        assert_eq!(rt; cmac_of_first(TRIPLE, length), Some(triple));
    }
    for (message, mac) in RETAIL_MACS {
        assert_eq!(rt; retail_of(message), Some(mac));
    }
}
