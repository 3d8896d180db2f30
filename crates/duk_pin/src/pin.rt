//! Personal identification numbers.

ghost use Rattle.std.specs.Prelude.{◌≡◌, ◌⊎◌, ℕ, ◌<◌, ◌↔◌, length, List, IsOk, IfOk, IsErrOf, All, Any};
ghost use Rattle.std.specs.Char.{IsNotAsciiDigit};
ghost use Rattle.duk_pin.specs.Digits.{values};
ghost use Rattle.duk_pin.specs.Pin.{HasPinLength, IsPin};

use crate::digits::Digits;
use crate::fault::PinFault;
use std::marker::Model;

/// A personal identification number: 4 to 12 digits.
///
/// It has no `Debug`, so that none is printed by mistake.
#[derive(Clone, Copy, PartialEq, Eq)]
pub struct Pin {
    digits: Digits,
}

impl Model for Pin {
    ghost Value = { List ℕ };

    ghost view = { λ pin. pin.digits };

    ghost invariant = { λ pin. IsPin pin.digits };

    ghost inverse = { λ text. record { digits = text } };
}

impl Pin {
    /// Reads a PIN of 4 to 12 ASCII digits. The length is tested first.
    pub fn parse(text: &str) -> Result<Pin, PinFault>
        ensures ok { IsOk result ↔ IsPin text.now }
        ensures value { IfOk result (λ pin. pin ≡ text.now) }
        ensures wrong_length { IsErrOf result PinFault.PinLength
            ↔ ((length text.now < 4) ⊎ (12 < length text.now)) }
        ensures wrong_digit { IsErrOf result PinFault.PinDigit
            ↔ (HasPinLength text.now × Any IsNotAsciiDigit text.now) }
    {
        if !(4..=12).contains(&text.len()) {
            return Err(PinFault::PinLength);
        }
        let digits = Digits::parse(text).ok_or(PinFault::PinDigit)?;
        Ok(Pin { digits })
    }

    /// The PIN whose digits have these values.
    pub(crate) fn from_values(numbers: &[u8]) -> Pin
        requires length { HasPinLength numbers.now }
        requires digits { All (λ number. number < 10) numbers.now }
        ensures pin { IsPin result }
        ensures values { values result ≡ numbers.now }
    {
        Pin {
            digits: Digits::from_values(numbers),
        }
    }

    /// The PIN's 4 to 12 ASCII digits.
    pub fn digits(&self) -> &str
        ensures text { result.now ≡ self.now }
        ensures pin { IsPin self.now }
    {
        self.digits.as_str()
    }
}
