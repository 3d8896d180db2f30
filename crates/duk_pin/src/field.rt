//! The fields of a PIN block, nibble by nibble (ISO 9564-1 format 0).

ghost use Rattle.std.specs.Prelude.{◌≡◌, ◌↔◌, IsTrue, ◌+◌, ◌<◌, ◌≤◌, ◌++◌, ℕ, List, length, take, drop, slice_index, IfSome, All};
ghost use Rattle.std.specs.Char.{IsAsciiDigit};
ghost use Rattle.duk_pin.specs.Digits.{values};
ghost use Rattle.duk_pin.specs.Nibbles.{nibbles, xor_nibbles};
ghost use Rattle.duk_pin.specs.inner.Nibbles.{IsField};
ghost use Rattle.duk_pin.specs.Pin.{IsPin};
ghost use Rattle.duk_pin.specs.Pan.{IsPan};
ghost use Rattle.duk_pin.specs.inner.Reading.{ReadsAsPin};
ghost use Rattle.duk_pin.specs.PinBlock.{pin_field, pin_in_field, account_digits, account_field};

use crate::nibbles;
use crate::pan::Pan;
use crate::pin::Pin;
use std::marker::Model;

/// The first nibble of a PIN field of format 0.
const FORMAT: u8 = 0;

/// What stands after the digits of a PIN.
const FILLER: u8 = 0xF;

/// Sixteen nibbles, from the left.
#[derive(Clone, Copy)]
pub struct Field {
    nibbles: [u8; 16],
}

impl Model for Field {
    ghost use Rattle.std.specs.Prelude.{ℕ, List};
    ghost use Rattle.duk_pin.specs.inner.Nibbles.{IsField};

    ghost Value = { List ℕ };

    ghost view = { λ field. field.nibbles };

    ghost invariant = { λ field. IsField field.nibbles };

    ghost inverse = { λ nibbles. record { nibbles = nibbles } };
}

impl Field {
    /// The PIN field.
    pub fn of_pin(pin: &Pin) -> Self
        ensures field { result ≡ pin_field pin.now }
        ensures pin { IsPin pin.now }
    {
        let digits = pin.digits().as_bytes();
        let mut nibbles = [FILLER; 16];
        nibbles[0] = FORMAT;
        nibbles[1] = digits.len() as u8;
        Field {
            nibbles: with_values(nibbles, 2, digits),
        }
    }

    /// The account field.
    pub fn of_account(pan: &Pan) -> Self
        ensures field { result ≡ account_field pan.now }
        ensures pan { IsPan pan.now }
    {
        let account = account_digits(pan.digits().as_bytes());
        Field {
            nibbles: with_values([0; 16], 16 - account.len(), account),
        }
    }

    /// The nibbles of a block.
    pub fn of_block(block: [u8; 8]) -> Self
        ensures { result ≡ nibbles block }
    {
        Field {
            nibbles: nibbles::split(&block),
        }
    }

    /// The block with these nibbles.
    #[tactic(auto, using(std::proofs::lemmas::Grind::common_steps, crate::proofs::XorOfNibbles::packed_next))]
    pub fn to_block(self) -> [u8; 8]
        ensures { nibbles result ≡ self }
    {
        let mut block = [0; 8];
        for i in 0..8 {
            block[i] = nibbles::join(self.nibbles[2 * i], self.nibbles[2 * i + 1]);
        }
        block
    }

    /// The exclusive or of two fields, nibble by nibble.
    #[tactic(auto, using(crate::proofs::XorOfNibbles::xor_is_field, crate::proofs::XorOfNibbles::xor_twice))]
    pub fn xor(self, other: Self) -> Self
        ensures xor { result ≡ xor_nibbles self other }
        ensures undone { xor_nibbles result other ≡ self }
    {
        Field {
            nibbles: nibbles::xor(&self.nibbles, &other.nibbles),
        }
    }

    /// The PIN whose PIN field this is, if there is one.
    #[tactic(auto, using(crate::proofs::FieldsWrittenAndRead::pin_field_reads, crate::proofs::FieldsWrittenAndRead::field_of_digits_read))]
    pub fn to_pin(self) -> Option<Pin>
        ensures found { IfSome result (λ pin. IsPin pin × (pin_field pin ≡ self)) }
        ensures every { (pin : List ℕ) → IsPin pin → pin_field pin ≡ self → result ≡ Some pin }
        ensures value { result ≡ pin_in_field self }
    {
        if self.reads_as_pin() {
            Some(Pin::from_values(self.digits()))
        } else {
            None
        }
    }

    /// Whether this is the PIN field of some PIN.
    fn reads_as_pin(&self) -> bool
        ensures { IsTrue result ↔ ReadsAsPin self.now }
    {
        let length = self.length();
        if self.nibbles[0] != FORMAT || !(4..=12).contains(&length) {
            return false;
        }
        let (digits, filler) = self.body().split_at(length);
        are_digits(digits) && are_filler(filler)
    }

    /// The values of the digits in a PIN field.
    fn digits(&self) -> &[u8]
        requires { ReadsAsPin self.now }
        ensures values { result.now ≡ take (slice_index self.now 1) (drop 2 self.now) }
        ensures field { IsField self.now }
    {
        &self.body()[..self.length()]
    }

    /// The length in a PIN field.
    fn length(&self) -> usize
        ensures { result ≡ slice_index self.now 1 }
    {
        usize::from(self.nibbles[1])
    }

    /// What stands after the length in a PIN field: the digits and the filler.
    fn body(&self) -> &[u8]
        ensures nibbles { result.now ≡ drop 2 self.now }
        ensures field { IsField self.now }
    {
        let (_, body) = self.nibbles.split_at(2);
        body
    }
}

/// The 12 rightmost digits of a PAN without its check digit, or all of them where there are fewer.
fn account_digits(pan: &[u8]) -> &[u8]
    requires { IsPan pan.now }
    ensures digits { result.now ≡ account_digits pan.now }
    ensures at_most { length result.now ≤ 12 }
    ensures decimal { All IsAsciiDigit result.now }
{
    let digits = &pan[..pan.len() - 1];
    &digits[digits.len().saturating_sub(12)..]
}

fn are_digits(nibbles: &[u8]) -> bool
    ensures { IsTrue result ↔ All (λ nibble. nibble < 10) nibbles.now }
{
    nibbles.iter().all(|nibble| *nibble < 10)
}

fn are_filler(nibbles: &[u8]) -> bool
    ensures { IsTrue result ↔ All (λ nibble. nibble ≡ FILLER) nibbles.now }
{
    nibbles.iter().all(|nibble| *nibble == FILLER)
}

/// The nibbles with the values of the digits from a place on.
#[tactic(auto, using(std::proofs::lemmas::Grind::common_steps, crate::proofs::FieldsWrittenAndRead::placed_next))]
fn with_values(mut nibbles: [u8; 16], start: usize, digits: &[u8]) -> [u8; 16]
    requires room { start + length digits.now ≤ 16 }
    requires digits { All IsAsciiDigit digits.now }
    ensures { result
        ≡ take start nibbles ++ values digits.now ++ drop (start + length digits.now) nibbles }
{
    for (i, digit) in digits.iter().enumerate() {
        nibbles[start + i] = digit - b'0';
    }
    nibbles
}
