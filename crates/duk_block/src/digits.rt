//! Numbers in decimal and bytes in hexadecimal, as characters.

ghost use Rattle.std.specs.Prelude.{◌≡◌, ◌<◌, ◌≤◌, ◌*◌, ◌%◌, MatchBool, MatchOption, length};
ghost use Rattle.std.specs.List.{AllPass};
ghost use Rattle.hex.specs.Hex.{is_hex_digit};
ghost use Rattle.duk_block.specs.Digits.{four_digits, two_digits};
ghost use Rattle.duk_block.specs.Hexadecimal.{IsHexadecimal};

use crate::text::{BlockText, MAX_TEXT, append};

/// The number as four decimal digits.
pub fn four_digits(number: usize) -> [u8; 4]
    requires { number < 10000 }
    ensures { result ≡ four_digits number }
{
    [
        b'0' + (number / 1000) as u8,
        b'0' + (number / 100 % 10) as u8,
        b'0' + (number / 10 % 10) as u8,
        b'0' + (number % 10) as u8,
    ]
}

/// The number as two decimal digits.
pub fn two_digits(number: u8) -> [u8; 2]
    requires { number < 100 }
    ensures { result ≡ two_digits number }
{
    [b'0' + number / 10, b'0' + number % 10]
}

/// Reads hexadecimal digits in either case, two for each byte, and says whether they are such
/// digits.
pub fn read_hex(digits: &[u8], bytes: &mut [u8]) -> bool
    requires { length digits.now ≡ 2 * length bytes.old }
    ensures { MatchBool result (IsHexadecimal digits.now bytes.new)
        (AllPass is_hex_digit digits.now → ⊥) }
{
    hex::decode_to_slice(digits, bytes).is_ok()
}

/// The bytes of a text of hexadecimal digits in either case.
pub fn hex_bytes(digits: &[u8]) -> Option<BlockText>
    requires even { length digits.now % 2 ≡ 0 }
    requires room { length digits.now ≤ MAX_TEXT }
    ensures { MatchOption result (AllPass is_hex_digit digits.now → ⊥)
        (λ bytes. IsHexadecimal digits.now bytes.items) }
{
    let mut buffer = [0; MAX_TEXT / 2];
    let size = digits.len() / 2;
    if !read_hex(digits, &mut buffer[..size]) {
        return None;
    }
    let mut bytes = BlockText::new();
    append(&mut bytes, &buffer[..size]);
    Some(bytes)
}
