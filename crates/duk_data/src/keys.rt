//! The data keys of a transaction key (ANSI X9.24-1:2009 annex A.4.1).

ghost use Rattle.std.specs.Prelude.{◌≡◌, ◌++◌};
ghost use Rattle.duk_data.specs.DataKeys.{data_key_of, request_data_key_of, response_data_key_of};

use duk_tdes::{Key, Tdes};

/// 0000000000FF0000 in both halves.
const REQUEST_MASK: u128 = 0x0000_0000_00FF_0000_0000_0000_00FF_0000;

/// 000000FF00000000 in both halves.
const RESPONSE_MASK: u128 = 0x0000_00FF_0000_0000_0000_00FF_0000_0000;

/// The key that enciphers the data of a request, or of both ways.
pub fn request_data_key(key: &Key<16>) -> Key<16>
    ensures { result ≡ request_data_key_of key.now }
{
    under_itself(&key.xor(&REQUEST_MASK.to_be_bytes()))
}

/// The key that enciphers the data of a response.
pub fn response_data_key(key: &Key<16>) -> Key<16>
    ensures { result ≡ response_data_key_of key.now }
{
    under_itself(&key.xor(&RESPONSE_MASK.to_be_bytes()))
}

/// The data key of a variant: each half of it, enciphered under the variant itself.
fn under_itself(variant: &Key<16>) -> Key<16>
    ensures { result ≡ data_key_of variant.now }
{
    let (left, right) = variant.halves();
    let tdes = Tdes::new(variant);
    join(tdes.encrypt(left.bytes()), tdes.encrypt(right.bytes()))
}

/// The key of two halves.
fn join(left: [u8; 8], right: [u8; 8]) -> Key<16>
    ensures { result ≡ left ++ right }
{
    let mut bytes = [0; 16];
    bytes[..8].copy_from_slice(&left);
    bytes[8..].copy_from_slice(&right);
    Key::new(bytes)
}
