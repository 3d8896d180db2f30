//! Whether a host would come up over the records of a journal, of whichever format.

ghost use Rattle.std.specs.Prelude.{◌≡◌, ◌≤◌, length, IfErr, IfOk};
ghost use Rattle.duk_store.specs.DiskRecords.{records_meaning};
ghost use Rattle.duk_journal_host.specs.Check.{CheckRefused, IsChecked};
ghost use Rattle.duk_journal_host.specs.inner.Reading.{IsEntryRefused, TakesChecked};

use crate::gathered::Gathered;
use crate::reading::{fault_of, take_next};
use duk_host::HostFault;
use duk_journal::{CheckSum, Entry};
use duk_store::{Disk, Format, Records, StoreFault, Visitor};
use std::alloc::Global;

/// What a journal keeps that was checked.
#[derive(Clone, Copy, PartialEq, Eq)]
pub struct Checked {
    /// How many entries.
    pub count: u64,
    /// Their check sum.
    pub sum: CheckSum,
}

/// What the entries that a restart gave so far come to, and their check sum.
#[derive(Drop)]
pub(crate) struct Checking {
    gathered: Gathered,
    sum: CheckSum,
}

impl Visitor<Entry> for Checking {
    ghost takes = { TakesChecked };

    ghost refuses = { λ old entry fault. IsEntryRefused old.gathered entry fault };

    fn take(&mut self, entry: &Entry) -> Result<(), StoreFault> {
        take_next(&mut self.gathered, entry)?;
        self.sum.take_in(entry);
        Ok(())
    }
}

/// Brings the records of a journal up and takes all its entries, as the restart of a host over it
/// does, and gives how many there are, and their check sum. A host may judge by them then. `piece` is
/// what the records are read into.
///
/// Refused as that restart is: with `Store` of the records' fault, or of `Damaged` where the number
/// of an entry numbers no transaction, was used before or cannot have what was decided; and with
/// `NoMemory`. The records are stopped then.
pub fn check_records<D: Disk, F: Format<Item = Entry>>(
    alloc: Global,
    records: &mut Records<D, F>,
    piece: &mut [u8],
) -> Result<Checked, HostFault>
    requires piece { (F.meaning records.old.format).record_length ≤ length piece.old }
    ensures checked { IfOk result
        (IsChecked (records_meaning D.meaning F.meaning) records.old records.new) }
    ensures refused { IfErr result
        (CheckRefused (records_meaning D.meaning F.meaning) records.old records.new) }
    ensures disarmed { (records_meaning D.meaning F.meaning).disarmed records.new }
    ensures capacity { (records_meaning D.meaning F.meaning).capacity records.new
        ≡ (records_meaning D.meaning F.meaning).capacity records.old }
    ensures size { (D.meaning.state_of records.new.disk).size
        ≡ (D.meaning.state_of records.old.disk).size }
    ensures format { records.new.format ≡ records.old.format }
{
    let mut checking = Checking {
        gathered: Gathered::new(alloc),
        sum: CheckSum::new(),
    };
    match records.restart(piece, &mut checking) {
        Ok(count) => Ok(Checked {
            count,
            sum: checking.sum,
        }),
        Err(fault) => Err(fault_of(fault)),
    }
}
