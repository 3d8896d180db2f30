//! How the keys that were issued are read from the ledger.

ghost use Rattle.std.specs.Prelude.{◌≡◌, true, IfErr, IfOk};
ghost use Rattle.duk_ledger.specs.Ledger.{ledger_meaning};
ghost use Rattle.duk_commands.specs.inner.Ledger.{IsLedgerRead, IsMarkedBy, LedgerUnread};

use crate::issue::fault::IssueFault;
use crate::issue::marks::mark;
use crate::issue::order::Order;
use duk_ledger::{Issued, Ledger};
use duk_store::{Disk, StoreFault, Visitor};
use duk_tree::Iksn;
use std::alloc::Global;

/// The bytes of a ledger that are read at once, at most.
const PIECE_LENGTH: usize = 4096;

/// What is known of the keys that a ledger keeps.
#[derive(Drop)]
pub(crate) struct Marking {
    /// The first number of an order.
    first: Iksn,
    /// The places of the order whose numbers stand in the ledger.
    pub(crate) marks: Vec<bool>,
    /// The largest number of a run.
    pub(crate) largest: u32,
}

impl Visitor<Issued> for Marking {
    ghost takes = { IsMarkedBy };

    ghost refuses = { λ _ _ _. ⊥ };

    fn take(&mut self, item: &Issued) -> Result<(), StoreFault> {
        mark(self.marks.as_mut_slice(), self.first, item.number);
        self.largest = self.largest.max(item.run());
        Ok(())
    }
}

/// Brings the ledger up in one reading, in which it marks the places of an order whose numbers stand
/// in it, and finds the largest run.
///
/// Refused with `OutOfMemory`, before the ledger is touched; with `LedgerFailed` where a device
/// step failed; and with `LedgerDamaged`.
pub(crate) fn read_ledger<D: Disk>(
    alloc: Global,
    order: &Order,
    ledger: &mut Ledger<D>,
) -> Result<Marking, IssueFault>
    ensures read { IfOk result (λ marking. IsLedgerRead (ledger_meaning D.meaning)
        ledger.old ledger.new order.now.first order.now.count marking.marks.items
        marking.largest) }
    ensures runs { IfOk result
        (λ _. ((ledger_meaning D.meaning).state_of ledger.new).running ≡ true) }
    ensures refused { IfErr result
        (LedgerUnread (ledger_meaning D.meaning) ledger.old ledger.new) }
{
    let marks = vec![in alloc; false; order.count as usize]?;
    let mut marking = Marking {
        first: order.first,
        marks,
        largest: 0,
    };
    let mut piece = [0; PIECE_LENGTH];
    match ledger.restart(&mut piece, &mut marking) {
        Ok(_) => Ok(marking),
        Err(StoreFault::Damaged) => Err(IssueFault::LedgerDamaged),
        Err(_) => Err(IssueFault::LedgerFailed),
    }
}
