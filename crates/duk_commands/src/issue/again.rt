//! The lines of issued numbers, made once more.

ghost use Rattle.std.specs.Prelude.{◌≡◌, ◌*◌, ◌≤◌, IfErr, OnOk, length};
ghost use Rattle.duk_ledger.specs.Ledger.{ledger_meaning};
ghost use Rattle.duk_commands.specs.Again.{AreMadeAgain, NotMadeAgain};
ghost use Rattle.duk_commands.specs.Issue.{ends};
ghost use Rattle.duk_commands.specs.inner.Again.{AreCut, AreWritten};

use crate::issue::fault::IssueFault;
use crate::issue::group::LineGroup;
use crate::issue::ledger::read_ledger;
use crate::issue::marks::first_unmarked;
use crate::issue::order::{Order, PADDING_LENGTH};
use crate::issue::serial::iksn_at;
use duk_io::{Sink, write_text};
use duk_ledger::Ledger;
use duk_store::Disk;
use std::alloc::Global;

/// Writes the lines of an order whose numbers stand in the ledger, as `issue` wrote them but for the
/// padding of their blocks, and appends nothing. So the block of a terminal whose line was lost is
/// made again.
///
/// The ledger may be stopped; it is restarted and read once. `padding` has six bytes for each
/// terminal, which are to be random.
///
/// The faults, in this order: `OutOfMemory`, where all is as it was; `LedgerFailed` where a device
/// step failed, and `LedgerDamaged`; `NotIssued` of the first number that does not stand in the ledger; `WriteFailed`.
pub fn issue_again<D: Disk, W: Sink>(
    alloc: Global,
    order: &Order,
    padding: &[u8],
    ledger: &mut Ledger<D>,
    output: &mut W,
) -> Result<(), IssueFault>
    requires padding { PADDING_LENGTH * order.now.count ≤ length padding.now }
    ensures made { OnOk result (AreMadeAgain
        (ledger_meaning D.meaning) order.now padding.now
        (ends ledger.old (W.known output.old)) (ends ledger.new (W.known output.new))) }
    ensures failed { IfErr result (NotMadeAgain
        (ledger_meaning D.meaning) order.now padding.now
        (ends ledger.old (W.known output.old)) (ends ledger.new (W.known output.new))) }
{
    let read = read_ledger(alloc, order, ledger)?;
    match first_unmarked(read.marks.as_slice()) {
        Some(place) => Err(IssueFault::NotIssued(iksn_at(order.first, place as u32))),
        None => write_lines(order, padding, output),
    }
}

/// Writes the lines of all terminals of an order.
fn write_lines<W: Sink>(order: &Order, padding: &[u8], output: &mut W) -> Result<(), IssueFault>
    requires padding { PADDING_LENGTH * order.now.count ≤ length padding.now }
    ensures written { OnOk result
        (AreWritten order.now padding.now (W.known output.old) (W.known output.new) order.now.count) }
    ensures cut { IfErr result
        (AreCut order.now padding.now (W.known output.old) (W.known output.new)) }
{
    duk_io::laws::writes();
    let mut group = LineGroup::none();
    for place in 0..order.count {
        let (line, _) = group.line(order, place, padding);
        if write_text(output, line.as_slice()).is_err() {
            return Err(IssueFault::WriteFailed);
        }
    }
    Ok(())
}
