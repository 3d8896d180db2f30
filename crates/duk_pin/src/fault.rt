//! Why a text is refused.

ghost use Rattle.std.specs.Prelude.{◌≡◌};
ghost use Rattle.duk_pin.specs.FaultName.{pin_fault_name};

use std::error::Error;
use std::fmt;

/// Why a text is no PIN or no PAN. `Display` writes the name.
#[derive(Debug, Clone, Copy, PartialEq, Eq)]
pub enum PinFault {
    /// The PIN's text has fewer than 4 or more than 12 bytes.
    PinLength,
    /// A byte of the PIN's text is no ASCII digit.
    PinDigit,
    /// The PAN's text has fewer than 12 or more than 19 bytes.
    PanLength,
    /// A byte of the PAN's text is no ASCII digit.
    PanDigit,
}

impl PinFault {
    /// The fault's name.
    pub fn name(self) -> &'static str
        ensures { result.now ≡ pin_fault_name self }
    {
        match self {
            PinFault::PinLength => "PinLength",
            PinFault::PinDigit => "PinDigit",
            PinFault::PanLength => "PanLength",
            PinFault::PanDigit => "PanDigit",
        }
    }
}

impl fmt::Display for PinFault {
    ghost use Rattle.std.specs.Prelude.{Some};

    ghost output = { λ fault. Some (pin_fault_name fault) };

    fn fmt<W: fmt::Write>(&self, f: &mut fmt::Formatter<W>) -> fmt::Result {
        f.write_str(self.name())
    }
}

impl Error for PinFault {}
