//! What a till asks of its terminal before it goes on.

ghost use Rattle.std.specs.Prelude.{◌≡◌, ◌↔◌, IsTrue, IfOk, IfErr};
ghost use Rattle.duk_till.specs.Reply.{IsReversing, WaitsForNoOther};
ghost use Rattle.duk_till.specs.Till.{HasOneAfter, HasTwoAfter, IsKeptForReversals};
ghost use Rattle.duk_till.specs.declared.fault.TillFault.TheVariants as till_fault;
ghost use Rattle.duk_term.specs.declared.fault.TermFault.TheVariants as term_fault;

use crate::fault::TillFault;
use duk_store::Cell;
use duk_term::{Next, TermFault, Terminal};
use duk_tree::{Ksn, next_usable};

/// Whether a purchase may use the terminal's next number: two come after it, for reversals.
pub(crate) fn check_spare<C: Cell>(terminal: &Terminal<C>) -> Result<(), TillFault>
    ensures spare { IfOk result (λ _. ¬ IsKeptForReversals terminal.now.state) }
    ensures refused { IfErr result (λ why. (why ≡ till_fault.Terminal term_fault.Spent)
        × IsKeptForReversals terminal.now.state) }
{
    match terminal.next() {
        Next::At(ksn) => {
            if has_two_after(ksn.counter()) {
                Ok(())
            } else {
                Err(TillFault::Terminal(TermFault::Spent))
            }
        }
        _ => Ok(()),
    }
}

/// Whether two usable numbers come after this one.
fn has_two_after(counter: u32) -> bool
    ensures { IsTrue result ↔ HasTwoAfter counter }
{
    match next_usable(counter) {
        Some(later) => has_one_after(later),
        None => false,
    }
}

/// Whether a usable number comes after this one.
fn has_one_after(counter: u32) -> bool
    ensures { IsTrue result ↔ HasOneAfter counter }
{
    next_usable(counter).is_some()
}

/// Whether the terminal waits for the reply to this number, or for none, and not for that to a
/// reversal.
pub(crate) fn check_waits<C: Cell>(terminal: &Terminal<C>, ksn: Ksn) -> Result<(), TillFault>
    ensures waits { IfOk result (λ _. WaitsForNoOther terminal.now.state ksn) }
    ensures refused { IfErr result (λ why. (why ≡ till_fault.Terminal term_fault.NotPending)
        × IsReversing terminal.now.state ksn) }
{
    match terminal.pending_number() {
        Some(pending) => {
            if pending == ksn {
                Ok(())
            } else {
                Err(TillFault::Terminal(TermFault::NotPending))
            }
        }
        None => Ok(()),
    }
}
