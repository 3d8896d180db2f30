//! Laws of PIN blocks, each the contract of a function that does nothing.

ghost use Rattle.std.specs.Prelude.{◌≡◌, ℕ, ◌<◌, ◌^◌, List, length, All};
ghost use Rattle.std.specs.Str.{IsUtf8};
ghost use Rattle.duk_pin.specs.Pan.{IsPan};
ghost use Rattle.duk_pin.specs.Pin.{IsPin};
ghost use Rattle.duk_pin.specs.PinBlock.{IsPinBlock, pin_block};

/// Under one PAN, a block is the block of at most one PIN.
#[tactic(auto, using(crate::proofs::OnePinOneBlock::one_pin))]
pub fn one_pin()
    ensures { (pin other pan block : List ℕ) → IsPinBlock pin pan block
        → IsPinBlock other pan block → pin ≡ other }
{}

/// A PIN and a PAN have one block and no other.
#[tactic(auto, using(crate::proofs::OnePinOneBlock::pin_block_is_block, crate::proofs::OnePinOneBlock::no_other_block))]
pub fn one_block()
    ensures block { (pin pan : List ℕ) → IsPin pin → IsPan pan
        → IsPinBlock pin pan (pin_block pin pan) }
    ensures no_other { (pin pan block : List ℕ) → IsPinBlock pin pan block
        → block ≡ pin_block pin pan }
{}

/// A block is 8 bytes.
#[tactic(auto, using(crate::proofs::OnePinOneBlock::block_is_eight_bytes))]
pub fn eight_bytes()
    ensures { (pin pan block : List ℕ) → IsPinBlock pin pan block
        → (length block ≡ 8) × All (λ byte. byte < 2 ^ 8) block }
{}

/// The digits of a PIN or a PAN are UTF-8, so that bytes that are no text are neither.
#[tactic(auto, using(crate::proofs::DigitValues::IsUtf8_from_pin, crate::proofs::DigitValues::IsUtf8_from_pan))]
pub fn digits_are_text()
    ensures pin { (text : List ℕ) → IsPin text → IsUtf8 text }
    ensures pan { (text : List ℕ) → IsPan text → IsUtf8 text }
{}
