//! Keys written in hexadecimal.

ghost use Rattle.std.specs.Prelude.{◌≡◌, ◌↔◌, length, IsSome};
ghost use Rattle.std.specs.List.{AllPass};
ghost use Rattle.hex.specs.Hex.{is_hex_digit};
ghost use Rattle.duk_tdes.specs.KeyText.{double_key_of_text, tdes_key_of_text, triple_key_of_text};

use crate::key::{Key, KeyBytes};
use hex::FromHex;

impl Key<16> {
    /// The key that 32 hexadecimal digits of either case write.
    pub fn parse(text: &str) -> Option<Self>
        ensures key { result ≡ double_key_of_text text.now }
        ensures digits { IsSome result ↔ ((length text.now ≡ 32) × AllPass is_hex_digit text.now) }
    {
        <[u8; 16] as FromHex>::from_hex(text).ok().map(Key::new)
    }
}

impl KeyBytes {
    /// The key that 32 or 48 hexadecimal digits of either case write.
    pub fn parse(text: &str) -> Option<Self>
        ensures { result ≡ tdes_key_of_text text.now }
    {
        match Key::parse(text) {
            Some(key) => Some(KeyBytes::Double(key)),
            None => match triple_key(text) {
                Some(key) => Some(KeyBytes::Triple(key)),
                None => None,
            },
        }
    }
}

/// The key that 48 hexadecimal digits of either case write.
fn triple_key(text: &str) -> Option<Key<24>>
    ensures { result ≡ triple_key_of_text text.now }
{
    <[u8; 24] as FromHex>::from_hex(text).ok().map(Key::new)
}
