//! Primary account numbers.

ghost use Rattle.std.specs.Prelude.{◌≡◌, ◌⊎◌, ℕ, ◌<◌, ◌↔◌, length, List, IsOk, IfOk, IsErrOf, Any};
ghost use Rattle.std.specs.Char.{IsNotAsciiDigit};
ghost use Rattle.duk_pin.specs.Pan.{HasPanLength, IsPan};

use crate::digits::Digits;
use crate::fault::PinFault;
use std::marker::Model;

/// A primary account number: 12 to 19 digits, the last of them the check digit.
#[derive(Clone, Copy, PartialEq, Eq)]
pub struct Pan {
    digits: Digits,
}

impl Model for Pan {
    ghost Value = { List ℕ };

    ghost view = { λ pan. pan.digits };

    ghost invariant = { λ pan. IsPan pan.digits };

    ghost inverse = { λ text. record { digits = text } };
}

impl Pan {
    /// Reads a PAN of 12 to 19 ASCII digits. The length is tested first, and the check digit is not
    /// verified.
    pub fn parse(text: &str) -> Result<Pan, PinFault>
        ensures ok { IsOk result ↔ IsPan text.now }
        ensures value { IfOk result (λ pan. pan ≡ text.now) }
        ensures wrong_length { IsErrOf result PinFault.PanLength
            ↔ ((length text.now < 12) ⊎ (19 < length text.now)) }
        ensures wrong_digit { IsErrOf result PinFault.PanDigit
            ↔ (HasPanLength text.now × Any IsNotAsciiDigit text.now) }
    {
        if !(12..=19).contains(&text.len()) {
            return Err(PinFault::PanLength);
        }
        let digits = Digits::parse(text).ok_or(PinFault::PanDigit)?;
        Ok(Pan { digits })
    }

    /// The PAN's 12 to 19 ASCII digits.
    pub fn digits(&self) -> &str
        ensures text { result.now ≡ self.now }
        ensures pan { IsPan self.now }
    {
        self.digits.as_str()
    }
}
