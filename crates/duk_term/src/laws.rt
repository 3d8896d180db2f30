//! Laws of terminals, each the contract of a function that does nothing.

ghost use Rattle.std.specs.Prelude.{◌≡◌, ℕ, List};
ghost use Rattle.duk_frame.specs.Payment.{request_of};
ghost use Rattle.duk_frame.specs.Request.{IsRequest};
ghost use Rattle.duk_pin.specs.PinBlock.{IsPinBlock, pin_block};
ghost use Rattle.duk_regs.specs.Registers.{HaveSixteenBytes, IsRegisterSet, RegisterSet, AreFutureKeysOf};
ghost use Rattle.duk_reversal.specs.Authentic.{reversal_of};
ghost use Rattle.duk_reversal.specs.Reversal.{IsReversal};
ghost use Rattle.duk_tdes.specs.Key.{IsKey};
ghost use Rattle.duk_term.specs.Begin.{IsBegun, TakesNumber};
ghost use Rattle.duk_term.specs.Body.{IsFoundAgain};
ghost use Rattle.duk_term.specs.Reversal.{IsReversalBegun, numbers_of};
ghost use Rattle.duk_term.specs.Terminal.{TerminalOf, serial_of};
ghost use Rattle.duk_term.specs.View.{terminal_view};
ghost use Rattle.duk_term.specs.declared.terminal.Terminal.TheInside.{Inside};
ghost use Rattle.duk_tree.specs.Serial.{Serial};

use crate::purchase::Purchase;
use duk_store::Cell;

/// A terminal's registers, of sixteen bytes each, are found again in the body that keeps them. So
/// are those with the future keys of an initial key, and those that are left once a number was
/// taken.
pub fn found_again()
    ensures again { (set : RegisterSet) → IsRegisterSet set → HaveSixteenBytes set.registers
        → IsFoundAgain set }
    ensures of_key { (initial : List ℕ) (set : RegisterSet) → IsKey 16 initial → IsRegisterSet set
        → AreFutureKeysOf initial set
        → IsFoundAgain set }
    ensures left { (set left : RegisterSet) (key : List ℕ) → TakesNumber set key left
        → HaveSixteenBytes left.registers
        → IsFoundAgain left }
{
    duk_regs::laws::sixteen_bytes();
    duk_regs::laws::images();
    duk_regs::laws::transactions();
}

/// The frame of a transaction that is begun is a request: that of the number taken and of the
/// purchase, with a PIN block of which the PIN is found again.
pub fn requests<C: Cell>()
    ensures request { (purchase : Purchase) (old new : TerminalOf C) (frame : List ℕ)
        → (begun : IsBegun C.meaning purchase old new frame)
        → IsRequest frame (request_of
        begun.key (serial_of begun.set) purchase.pan purchase.pin purchase.amount) }
    ensures pin_block { (purchase : Purchase) (old new : TerminalOf C) (frame : List ℕ)
        → IsBegun C.meaning purchase old new frame
        → IsPinBlock purchase.pin purchase.pan (pin_block purchase.pin purchase.pan) }
{
    duk_tree::laws::bits();
    duk_frame::laws::payments();
    duk_pin::laws::one_block();
}

/// The frame of a reversal that is begun is read as that reversal, under the number taken.
pub fn reversals<C: Cell>()
    ensures { (reversed ksn : Serial) (frame : List ℕ) (old new : TerminalOf C)
        → (begun : IsReversalBegun C.meaning reversed ksn frame old new)
        → IsReversal frame (reversal_of begun.key (numbers_of begun.set reversed)) }
{
    duk_tree::laws::bits();
    duk_reversal::laws::authentic();
}

/// Nothing is hidden beside what contracts see: terminals that are equal to them are equal in each
/// field.
pub fn nothing_else<C: Cell>()
    ensures { (one other : Inside C) → terminal_view one ≡ terminal_view other → one ≡ other }
{}
