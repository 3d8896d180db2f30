//! The variants of a transaction key: one mask over both halves of the key for each use
//! (ANSI X9.24-1:2009 annex A).

ghost use Rattle.std.specs.Prelude.{◌≡◌};
ghost use Rattle.duk_tree.specs.Derivation.{pin_key_of, request_key_of, response_key_of};

use duk_tdes::Key;

/// 00000000000000FF in both halves.
const PIN_MASK: u128 = 0x0000_0000_0000_00FF_0000_0000_0000_00FF;

/// 000000000000FF00 in both halves.
const REQUEST_MASK: u128 = 0x0000_0000_0000_FF00_0000_0000_0000_FF00;

/// 00000000FF000000 in both halves.
const RESPONSE_MASK: u128 = 0x0000_0000_FF00_0000_0000_0000_FF00_0000;

/// The key that enciphers the PIN block of a transaction.
pub fn pin_key(key: &Key<16>) -> Key<16>
    ensures { result ≡ pin_key_of key.now }
{
    key.xor(&PIN_MASK.to_be_bytes())
}

/// The key of the MAC of a request.
pub fn request_key(key: &Key<16>) -> Key<16>
    ensures { result ≡ request_key_of key.now }
{
    key.xor(&REQUEST_MASK.to_be_bytes())
}

/// The key of the MAC of a response.
pub fn response_key(key: &Key<16>) -> Key<16>
    ensures { result ≡ response_key_of key.now }
{
    key.xor(&RESPONSE_MASK.to_be_bytes())
}
