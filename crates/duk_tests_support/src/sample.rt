//! The sample keys and key serial numbers of ANSI X9.24-1, a card, and key blocks with these keys.

use duk_pin::{Pan, PinFault};
use duk_tdes::Key;
use duk_tree::{Iksn, Ksn};

/// The base derivation key of the sample sequence, and the initial key of its terminal.
pub const BDK: u128 = 0x01234567_89ABCDEF_FEDCBA98_76543210;

pub const INITIAL: u128 = 0x6AC292FA_A1315B4D_858AB3A3_D7D5933A;

/// The initial key serial number of that terminal, and the prefix of its key set.
pub const IKSN: &str = "FFFF9876543210E00000";

pub const PREFIX: [u8; 5] = [0xFF, 0xFF, 0x98, 0x76, 0x54];

/// A published key block of a key for PIN encryption, its protection key, taken as the local master
/// key, and the key in it, taken as the zone key.
pub const PUBLISHED: &[u8; 80] =
    b"B0080P0TE00E000094B420079CC80BA3461F86FE26EFC4A3B8E4FA4C5F5341176EED7B727B8A248E";

pub const LMK: u128 = 0xDD7515F2_BFC17F85_CE48F3CA_25CB21F6;

pub const ZONE: u128 = 0x3F419E1C_B7079442_AA37474C_2EFBF8B8;

/// The key under which initial keys are loaded.
pub const LOADING: u128 = 0x4CF15134_A2850DD5_8A3D10BA_80570D38;

/// The key blocks of the base derivation key under the local master key, and of the initial key
/// under the loading key, each with six zero bytes of padding. They were computed with OpenSSL.
pub const BASE_BLOCK: &[u8; 80] =
    b"B0080B0TX00N0000D0A44FB763BC3022CC59CF74C810E9CCCE2B69E18A2E046F0B5C6855F49E154C";

pub const INITIAL_BLOCK: &[u8; 80] =
    b"B0080B1TX00N00007AB24A4ADB461DEAA4F94E2F7F4135839E8C8EA3011990868C997696A253FE02";

/// The account number and the PIN of the card.
pub const PAN: &str = "4012345678909";

pub const PIN: &str = "1234";

/// The key of this number.
pub fn key(number: u128) -> Key<16> {
    Key::new(number.to_be_bytes())
}

/// The key serial number of the terminal with this counter's low 16 bits.
pub fn ksn(counter: u16) -> Ksn {
    let [high, low] = counter.to_be_bytes();
    Ksn::from_bytes([0xFF, 0xFF, 0x98, 0x76, 0x54, 0x32, 0x10, 0xE0, high, low])
}

/// Its initial key serial number.
pub fn iksn() -> Iksn {
    ksn(0).iksn()
}

/// The account number.
pub fn pan() -> Result<Pan, PinFault> {
    Pan::parse(PAN)
}
