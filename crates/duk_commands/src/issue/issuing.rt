//! The command `issue`: initial keys of terminals, each once.

ghost use Rattle.std.specs.Prelude.{◌≡◌, ◌*◌, ◌<◌, ◌≤◌, ◌+◌, ◌-◌, true, IfErr, IfOk, length};
ghost use Rattle.duk_ledger.specs.Ledger.{ledger_meaning};
ghost use Rattle.duk_commands.specs.Issue.{HasIssuedBut, IssueFailed, ends, job};
ghost use Rattle.duk_commands.specs.inner.IssueGroup.{IsGroupOf};
ghost use Rattle.duk_commands.specs.inner.Lines.{AreIssued, IsIssuedAt, IssueAtFailed, PassesTests, StopsAtPlace, TestsRefuse};
ghost use Rattle.duk_commands.specs.inner.Marks.{unmarked};
ghost use Rattle.duk_mac.specs.CheckValue.{check_value_of};

use crate::issue::check_value::key_set_value;
use crate::issue::fault::IssueFault;
use crate::issue::group::LineGroup;
use crate::issue::ledger::read_ledger;
use crate::issue::marks::{count_marked, count_unmarked, first_marked};
use crate::issue::order::{Order, PADDING_LENGTH};
use crate::issue::serial::iksn_at;
use duk_io::{Sink, write_text};
use duk_ledger::{Issued, Ledger, Made, RECORD_LENGTH};
use duk_store::Disk;
use std::alloc::Global;

/// Issues the initial keys of an order, in the order of their numbers. Appends each to the ledger,
/// with its check value, that of the base derivation key, and the number of the run, which is one
/// more than the largest in the ledger. Then it writes the line, `issued IKSN BLOCK KCV`: the number,
/// the key block of its initial key (ANSI X9.143, header `B1TX00N`) and the key's check value.
///
/// The ledger may be stopped; it is restarted and read once. All numbers are tested before any is
/// issued. With `skip_issued` those that stand in the ledger are passed over, and it gives how many.
/// `padding` has six bytes for each terminal of the order, which are to be random; those of a
/// terminal that is passed over stand in no line.
///
/// The faults, in this order: `OutOfMemory`, where all is as it was; `LedgerFailed` where a device
/// step failed, and `LedgerDamaged`; `Issued` of the first number that stands in the ledger;
/// `LedgerFull` where it has no room for all that are to be issued, or its largest run is 2^32 - 1.
/// Then, as they come: `LedgerFailed`, and the number has no line; `WriteFailed`,
/// and the number is issued.
pub fn issue<D: Disk, W: Sink>(
    alloc: Global,
    order: &Order,
    skip_issued: bool,
    padding: &[u8],
    ledger: &mut Ledger<D>,
    output: &mut W,
) -> Result<u32, IssueFault>
    requires padding { PADDING_LENGTH * order.now.count ≤ length padding.now }
    ensures issued { IfOk result (HasIssuedBut
        (ledger_meaning D.meaning) (job order.now skip_issued padding.now)
        (ends ledger.old (W.known output.old)) (ends ledger.new (W.known output.new))) }
    ensures failed { IfErr result (IssueFailed
        (ledger_meaning D.meaning) (job order.now skip_issued padding.now)
        (ends ledger.old (W.known output.old)) (ends ledger.new (W.known output.new))) }
{
    let read = read_ledger(alloc, order, ledger)?;
    let marks = read.marks.as_slice();
    test_marks(order, skip_issued, marks, ledger.room(), read.largest)?;
    let run = Run {
        number: read.largest + 1,
        key_set: key_set_value(&order.bdk),
    };
    match issue_unmarked(order, &run, marks, padding, ledger, output) {
        Ok(()) => Ok(count_marked(marks)),
        Err(why) => Err(why),
    }
}

/// A run that issues keys.
#[derive(Clone, Copy)]
struct Run {
    /// Its number.
    number: u32,
    /// The check value of the base derivation key.
    key_set: [u8; 3],
}

/// Tests all numbers of an order, the room for those that are to be issued, and whether a run can
/// follow the largest.
fn test_marks(
    order: &Order,
    skip_issued: bool,
    marks: &[bool],
    room: u64,
    largest: u32,
) -> Result<(), IssueFault>
    requires { length marks.now ≡ order.now.count }
    ensures passed { IfOk result (λ _. PassesTests skip_issued room largest marks.now) }
    ensures refused { IfErr result (TestsRefuse order.now skip_issued room largest marks.now) }
{
    if !skip_issued {
        if let Some(place) = first_marked(marks) {
            return Err(IssueFault::Issued(iksn_at(order.first, place as u32)));
        }
    }
    if count_unmarked(marks) as u64 > room {
        return Err(IssueFault::LedgerFull);
    }
    if largest == u32::MAX {
        return Err(IssueFault::LedgerFull);
    }
    Ok(())
}

/// Issues the keys of the places without a mark.
fn issue_unmarked<D: Disk, W: Sink>(
    order: &Order,
    run: &Run,
    marks: &[bool],
    padding: &[u8],
    ledger: &mut Ledger<D>,
    output: &mut W,
) -> Result<(), IssueFault>
    requires padding { PADDING_LENGTH * order.now.count ≤ length padding.now }
    requires marks { length marks.now ≡ order.now.count }
    requires run { run.now.key_set ≡ check_value_of order.now.bdk }
    requires runs { ((ledger_meaning D.meaning).state_of ledger.old).running ≡ true }
    requires room { length (unmarked marks.now 0)
        ≤ (ledger_meaning D.meaning).capacity ledger.old
        - (ledger_meaning D.meaning).count ledger.old }
    ensures issued { IfOk result (λ _. AreIssued
        (ledger_meaning D.meaning) order.now run.now.number padding.now
        (ends ledger.old (W.known output.old)) (ends ledger.new (W.known output.new))
        (unmarked marks.now 0)) }
    ensures failed { IfErr result (StopsAtPlace
        (ledger_meaning D.meaning) order.now run.now.number padding.now
        (ends ledger.old (W.known output.old)) (ends ledger.new (W.known output.new))
        (unmarked marks.now 0)) }
{
    duk_io::laws::writes();
    let mut group = LineGroup::none();
    for place in 0..order.count {
        if marks[place as usize] {
            continue;
        }
        issue_one(order, run, place, padding, &mut group, ledger, output)?;
    }
    Ok(())
}

/// Issues the key of the terminal at a place: it stands in the ledger first, and then its line is
/// written.
fn issue_one<D: Disk, W: Sink>(
    order: &Order,
    run: &Run,
    place: u32,
    padding: &[u8],
    group: &mut LineGroup,
    ledger: &mut Ledger<D>,
    output: &mut W,
) -> Result<(), IssueFault>
    requires run { run.now.key_set ≡ check_value_of order.now.bdk }
    requires place { place < order.now.count }
    requires padding { PADDING_LENGTH * order.now.count ≤ length padding.now }
    requires group { IsGroupOf order.now padding.now group.old }
    requires runs { ((ledger_meaning D.meaning).state_of ledger.old).running ≡ true }
    requires room { (ledger_meaning D.meaning).count ledger.old
        < (ledger_meaning D.meaning).capacity ledger.old }
    ensures issued { IfOk result (λ _. IsIssuedAt
        (ledger_meaning D.meaning) order.now run.now.number padding.now
        (ends ledger.old (W.known output.old)) (ends ledger.new (W.known output.new)) place) }
    ensures counted { IfOk result (λ _. (ledger_meaning D.meaning).count ledger.new
        ≡ (ledger_meaning D.meaning).count ledger.old + 1) }
    ensures capacity { (ledger_meaning D.meaning).capacity ledger.new
        ≡ (ledger_meaning D.meaning).capacity ledger.old }
    ensures group { IsGroupOf order.now padding.now group.new }
    ensures failed { IfErr result (IssueAtFailed
        (ledger_meaning D.meaning) order.now run.now.number padding.now
        (ends ledger.old (W.known output.old)) (ends ledger.new (W.known output.new)) place) }
{
    let (line, value) = group.line(order, place, padding);
    let issued = Issued {
        number: iksn_at(order.first, place),
        made: Some(Made {
            key: value,
            key_set: run.key_set,
            run: run.number,
        }),
    };
    let mut piece = [0; RECORD_LENGTH];
    if ledger.append(&mut piece, &[issued]).is_err() {
        return Err(IssueFault::LedgerFailed);
    }
    match write_text(output, line.as_slice()) {
        Ok(()) => Ok(()),
        Err(_) => Err(IssueFault::WriteFailed),
    }
}
