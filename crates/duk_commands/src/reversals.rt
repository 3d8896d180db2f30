//! The command `request` where it reverses a payment.

ghost use Rattle.std.specs.Prelude.{◌≡◌, IfErr, IfOk, codes};
ghost use Rattle.duk_commands.specs.Lines.{named_line};
ghost use Rattle.duk_commands.specs.Reversals.{IsReversalRefused, IsReversalText, reversal_arguments};
ghost use Rattle.duk_commands.specs.inner.Reversals.{IsNotReversed};
ghost use Rattle.duk_reversal.specs.Authentic.{reversal_under};
ghost use Rattle.duk_reversal.specs.Numbers.{Reverses};
ghost use Rattle.duk_tree.specs.Derivation.{transaction_key_of};

use crate::fault::Fault;
use crate::key_argument::KeyArgument;
use crate::lines::{Lines, push_line};
use crate::start::{Start, read_start};
use duk_reversal::{ReversalNumbers, reversal_under};
use duk_tree::Ksn;

/// The line of a reversal, as a terminal makes it.
///
/// The faults, in this order: `BDK refused`, or `initial refused` of an initial key; `KSN refused`;
/// `counter refused`; `number refused` (no 20 hexadecimal digits); `OtherIksn`, where the number that
/// is reversed has another initial key serial number; `SameNumber`, where it is that of the reversal;
/// `NotUsable` (a counter of zero, or of more than ten one bits).
pub fn reversal_lines(given: KeyArgument<'_>, ksn: &str, number: &str) -> Result<Lines, Fault>
    ensures lines { IfOk result (λ lines.
        IsReversalText (reversal_arguments given.entry ksn.now number.now) lines.items) }
    ensures refused { IfErr result
        (IsReversalRefused (reversal_arguments given.entry ksn.now number.now)) }
{
    let start = read_start(given, ksn)?;
    let reversed = Ksn::parse(number).ok_or(Fault::NumberRefused)?;
    let numbers = numbers_of(start.ksn, reversed)?;
    Ok(line_of_reversal(&start, numbers))
}

/// The numbers of a reversal that uses the first and reverses the second. Refused with, in this
/// order: `OtherIksn`; `SameNumber`; `NotUsable`.
fn numbers_of(ksn: Ksn, reversed: Ksn) -> Result<ReversalNumbers, Fault>
    ensures numbers { IfOk result (λ numbers. numbers ≡ record { ksn = ksn; reversed = reversed }) }
    ensures reverses { IfOk result (λ _. Reverses ksn reversed) }
    ensures refused { IfErr result (IsNotReversed ksn reversed) }
{
    if reversed.iksn() != ksn.iksn() {
        return Err(Fault::OtherIksn);
    }
    if reversed.counter() == ksn.counter() {
        return Err(Fault::SameNumber);
    }
    ReversalNumbers::new(ksn, reversed).ok_or(Fault::NotUsable)
}

/// The line of a reversal with these numbers.
fn line_of_reversal(start: &Start, numbers: ReversalNumbers) -> Lines
    ensures { result.items ≡ named_line (codes "reversal") (reversal_under
        (transaction_key_of start.now.initial start.now.ksn.iksn start.now.ksn.counter) numbers) }
{
    let frame = reversal_under(&start.key(), numbers);
    let mut lines = Lines::new();
    push_line(&mut lines, b"reversal", frame.as_slice());
    lines
}
