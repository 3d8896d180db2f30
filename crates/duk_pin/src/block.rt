//! PIN blocks of format 0 (ISO 9564-1).

ghost use Rattle.std.specs.Prelude.{◌≡◌, ℕ, List, IfSome, IfNone};
ghost use Rattle.duk_pin.specs.PinBlock.{IsPinBlock, pin_block, pin_in_block};

use crate::field::Field;
use crate::pan::Pan;
use crate::pin::Pin;

/// The PIN block of a PIN and a PAN: 8 bytes, the exclusive or of the PIN field and the account
/// field.
#[tactic(auto, using(crate::proofs::OnePinOneBlock::no_other_block))]
pub fn encode(pin: &Pin, pan: &Pan) -> [u8; 8]
    ensures block { IsPinBlock pin.now pan.now result }
    ensures bytes { result ≡ pin_block pin.now pan.now }
{
    Field::of_pin(pin).xor(Field::of_account(pan)).to_block()
}

/// The PIN of a block of 8 bytes under a PAN, or `None` where it is the block of no PIN under that
/// PAN.
#[tactic(auto, using(crate::proofs::OnePinOneBlock::field_of_block))]
pub fn decode(block: [u8; 8], pan: &Pan) -> Option<Pin>
    ensures found { IfSome result (λ pin. IsPinBlock pin pan.now block) }
    ensures none { IfNone result ((pin : List ℕ) → ¬ (IsPinBlock pin pan.now block)) }
    ensures encoded { (pin : List ℕ) → IsPinBlock pin pan.now block → result ≡ Some pin }
    ensures value { result ≡ pin_in_block pan.now block }
{
    Field::of_block(block).xor(Field::of_account(pan)).to_pin()
}
