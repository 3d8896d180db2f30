//! What a host asks of the issuer of cards.

ghost use Rattle.std.specs.Prelude.{◌≡◌, ℕ, List};
ghost use Rattle.duk_frame.specs.declared.code.Code.{Code as CodeValue};

use duk_frame::Code;
use duk_pin::Pan;

/// Who issued the cards, and knows their PINs.
pub trait Issuer: Drop {
    /// What the issuer says of a PAN, an amount and a PIN block under the zone key.
    ghost decides: { Self → List ℕ → ℕ → List ℕ → CodeValue };

    /// Decides on a payment: the card, the amount in the smallest unit of the currency, and the PIN
    /// block, enciphered under the zone key.
    fn decide(&self, pan: &Pan, amount: u32, block: [u8; 8]) -> Code
        ensures { result ≡ decides self.now pan.now amount block };
}
