//! Bytes that an argument writes in hexadecimal.

ghost use Rattle.std.specs.Prelude.{◌≡◌, IfErr, IfOk};
ghost use Rattle.hex.specs.Hex.{is_hex_digit};
ghost use Rattle.duk_block.specs.Hexadecimal.{IsHexadecimal};
ghost use Rattle.duk_show.specs.Hexadecimal.{IsNoDigitAt};
ghost use Rattle.duk_show.specs.inner.Hexadecimal.{IsHexFault};

use hex::FromHexError;
use std::alloc::Global;

/// Why a text gives no bytes.
#[derive(Clone, Copy)]
pub(crate) enum HexFault {
    /// It is not pairs of digits, and this is the place of the first character that is none.
    At(usize),
    /// Memory was refused.
    OutOfMemory,
}

/// The bytes that a text writes, two digits of either case each.
pub(crate) fn decode(alloc: Global, text: &str) -> Result<Vec<u8>, HexFault>
    ensures read { IfOk result (λ bytes. IsHexadecimal text.now bytes.items) }
    ensures refused { IfErr result (IsHexFault text.now) }
{
    match hex::decode(alloc, text) {
        Ok(bytes) => Ok(bytes),
        Err(FromHexError::OutOfMemory) => Err(HexFault::OutOfMemory),
        Err(_) => Err(HexFault::At(first_no_digit(text.as_bytes()))),
    }
}

/// The place of the first character that is no hexadecimal digit; the length, where there is none.
pub(crate) fn first_no_digit(text: &[u8]) -> usize
    ensures { IsNoDigitAt text.now result }
{
    for (place, character) in text.iter().enumerate() {
        if !is_digit(*character) {
            return place;
        }
    }
    text.len()
}

/// Whether a character is a hexadecimal digit, in either case.
fn is_digit(character: u8) -> bool
    ensures { result ≡ is_hex_digit character }
{
    character.is_ascii_hexdigit()
}
