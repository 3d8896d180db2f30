//! PIN blocks (ISO 9564-1 format 0).

ghost use Rattle.std.specs.Prelude.{◌≡◌, IfOk, IfErr, MatchOption};
ghost use Rattle.duk_pin.specs.Pan.{IsPan};
ghost use Rattle.duk_pin.specs.Pin.{IsPin};
ghost use Rattle.duk_calls.specs.Answer.{buffer};
ghost use Rattle.duk_calls.specs.Pins.{IsNoPan, IsNoPin, PinBlockAnswers, PinOfBlockAnswers};

use crate::arguments::{fill, write_front};
use crate::fault::Fault;
use duk_pin::{Pan, Pin, PinFault, decode, encode};
use duk_tdes::array_of;
use std::str;

/// Writes the PIN block of a PIN of 4 to 12 ASCII digits and a PAN of 12 to 19 in the front of a
/// slice of at least 8 bytes.
///
/// Refused with, in this order: `Length`; `PinLength`, `PinDigit`; `PanLength`, `PanDigit`.
pub fn pin_block(pin: &[u8], pan: &[u8], block: &mut [u8]) -> Result<(), Fault>
    ensures { PinBlockAnswers pin.now pan.now block.old block.new result }
{
    if block.len() < 8 {
        return Err(Fault::Length);
    }
    let pin = read_pin(pin).map_err(Fault::Pin)?;
    let pan = read_pan(pan).map_err(Fault::Pin)?;
    write_front(&encode(&pin, &pan), block);
    Ok(())
}

/// Writes the PIN of a PIN block (8 bytes) under a PAN of 12 to 19 ASCII digits in the front of a
/// slice of at least 12 bytes, and the number of its digits, 4 to 12.
///
/// Refused with, in this order: `Length`; `PanLength`, `PanDigit`; `NotAPinBlock`.
pub fn pin_of_block(
    block: &[u8],
    pan: &[u8],
    pin: &mut [u8],
    pin_length: &mut u32,
) -> Result<(), Fault>
    ensures { PinOfBlockAnswers block.now pan.now (buffer pin.old pin_length.old)
        (buffer pin.new pin_length.new) result }
{
    if block.len() != 8 || pin.len() < 12 {
        return Err(Fault::Length);
    }
    let pan = read_pan(pan).map_err(Fault::Pin)?;
    let Some(found) = decode(array_of(block), &pan) else {
        return Err(Fault::NotAPinBlock);
    };
    fill(found.digits().as_bytes(), pin, pin_length);
    Ok(())
}

/// The PIN of ASCII digits, or why the text is none: the length is tested first.
pub(crate) fn read_pin(text: &[u8]) -> Result<Pin, PinFault>
    ensures pin { IfOk result (λ pin. (pin ≡ text.now) × IsPin text.now) }
    ensures refused { IfErr result (IsNoPin text.now) }
{
    if !(4..=12).contains(&text.len()) {
        return Err(PinFault::PinLength);
    }
    pin_of_digits(text).ok_or(PinFault::PinDigit)
}

/// The PAN of ASCII digits, or why the text is none: the length is tested first.
pub(crate) fn read_pan(text: &[u8]) -> Result<Pan, PinFault>
    ensures pan { IfOk result (λ pan. (pan ≡ text.now) × IsPan text.now) }
    ensures refused { IfErr result (IsNoPan text.now) }
{
    if !(12..=19).contains(&text.len()) {
        return Err(PinFault::PanLength);
    }
    pan_of_digits(text).ok_or(PinFault::PanDigit)
}

/// The PIN of ASCII digits.
pub(crate) fn pin_of_digits(text: &[u8]) -> Option<Pin>
    ensures { MatchOption result (¬ IsPin text.now) (λ pin. (pin ≡ text.now) × IsPin text.now) }
{
    duk_pin::laws::digits_are_text();
    Pin::parse(str::from_utf8(text).ok()?).ok()
}

/// The PAN of ASCII digits.
pub(crate) fn pan_of_digits(text: &[u8]) -> Option<Pan>
    ensures { MatchOption result (¬ IsPan text.now) (λ pan. (pan ≡ text.now) × IsPan text.now) }
{
    duk_pin::laws::digits_are_text();
    Pan::parse(str::from_utf8(text).ok()?).ok()
}
