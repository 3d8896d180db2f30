//! Short strings of decimal digits, in a fixed array.

ghost use Rattle.std.specs.Prelude.{◌≡◌, ◌-◌, ◌<◌, ◌≤◌, ◌↔◌, ◌++◌, length, replicate, IsSome, IfSome, IfNone, All, Any};
ghost use Rattle.std.specs.Char.{IsAsciiDigit, IsNotAsciiDigit};
ghost use Rattle.std.specs.Cmp.{partial_equiv_from_equiv};
ghost use Rattle.std.specs.Cmp.Lexicographic.{nat_list_eq_equiv};
ghost use Rattle.std.specs.Str.{bytes_eq};
ghost use Rattle.duk_pin.specs.Digits.{values, ascii_of};
ghost use Rattle.duk_pin.specs.declared.digits.TheConstants.{MAX_DIGITS};

use std::marker::Model;
use std::str;

/// The most digits that fit: those of the longest PAN.
pub const MAX_DIGITS: usize = 19;

/// Up to 19 decimal digits, as their ASCII text.
#[derive(Clone, Copy)]
pub struct Digits {
    ascii: [u8; MAX_DIGITS],
    len: usize,
}

impl Model for Digits {
    ghost use Rattle.std.specs.Prelude.{ℕ, ◌-◌, List, ◌++◌, length, replicate};
    ghost use Rattle.duk_pin.specs.declared.digits.TheConstants.{MAX_DIGITS};

    ghost Value = { List ℕ };

    ghost use Rattle.duk_pin.specs.inner.Padded.{text_of, IsPadded};

    ghost view = { text_of };

    ghost invariant = { IsPadded };

    ghost inverse = { λ text. record {
      ascii = text ++ replicate (MAX_DIGITS - length text) 0;
      len = length text;
    } };
}

impl Digits {
    /// The digits that the text writes, if each of its bytes is one.
    #[tactic(auto, using(crate::proofs::CopyIntoFront::copied_next))]
    pub fn parse(text: &str) -> Option<Self>
        requires { length text.now ≤ MAX_DIGITS }
        ensures digits { IsSome result ↔ All IsAsciiDigit text.now }
        ensures other { IfNone result (Any IsNotAsciiDigit text.now) }
        ensures value { IfSome result (λ digits. digits ≡ text.now) }
    {
        let mut ascii = [0; MAX_DIGITS];
        for (i, &byte) in text.as_bytes().iter().enumerate() {
            match byte {
                b'0'..=b'9' => ascii[i] = byte,
                _ => return None,
            }
        }
        Some(Digits {
            ascii,
            len: text.len(),
        })
    }

    /// The digits with these values.
    #[tactic(auto, using(std::proofs::lemmas::Grind::common_steps, crate::proofs::DigitValues::values_of_ascii, crate::proofs::DigitValues::ascii_are_digits))]
    pub fn from_values(numbers: &[u8]) -> Self
        requires fits { length numbers.now ≤ MAX_DIGITS }
        requires digits { All (λ number. number < 10) numbers.now }
        ensures digits { All IsAsciiDigit result }
        ensures values { values result ≡ numbers.now }
    {
        Digits {
            ascii: ascii_digits(numbers),
            len: numbers.len(),
        }
    }

    /// The ASCII digits.
    fn as_bytes(&self) -> &[u8]
        ensures text { result.now ≡ self.now }
        ensures digits { All IsAsciiDigit self.now }
    {
        &self.ascii[..self.len]
    }

    /// The text of the digits.
    #[tactic(auto, using(crate::proofs::DigitValues::IsUtf8_from_digits))]
    pub fn as_str(&self) -> &str
        ensures text { result.now ≡ self.now }
        ensures digits { All IsAsciiDigit self.now }
    {
        str::from_utf8(self.as_bytes()).unwrap()
    }
}

/// Compares the texts. A derive would say that the arrays are equal, fill and all.
impl PartialEq for Digits {
    ghost eq = { bytes_eq };

    ghost laws = { partial_equiv_from_equiv nat_list_eq_equiv };

    fn eq(&self, other: &Self) -> bool {
        self.as_bytes() == other.as_bytes()
    }
}

impl Eq for Digits {
    ghost laws = { nat_list_eq_equiv };
}

/// The ASCII digits with these values, and zeros after them.
#[tactic(auto, using(crate::proofs::DigitValues::ascii_next))]
fn ascii_digits(numbers: &[u8]) -> [u8; MAX_DIGITS]
    requires fits { length numbers.now ≤ MAX_DIGITS }
    requires digits { All (λ number. number < 10) numbers.now }
    ensures { result ≡ ascii_of numbers.now ++ replicate (MAX_DIGITS - length numbers.now) 0 }
{
    let mut ascii = [0; MAX_DIGITS];
    for (i, number) in numbers.iter().enumerate() {
        ascii[i] = b'0' + number;
    }
    ascii
}
