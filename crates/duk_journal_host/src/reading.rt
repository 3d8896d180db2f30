//! How a host takes the entries that the restart of its journal gives.

ghost use Rattle.std.specs.Prelude.{◌≡◌, IfErr, OnOk};
ghost use Rattle.duk_journal_host.specs.inner.Reading.{IsEntryRefused, TakesEntry, told_as};

use crate::gathered::Gathered;
use duk_host::HostFault;
use duk_journal::Entry;
use duk_store::{StoreFault, Visitor};
use duk_tree::usable;

impl Visitor<Entry> for Gathered {
    ghost takes = { TakesEntry };

    ghost refuses = { IsEntryRefused };

    fn take(&mut self, entry: &Entry) -> Result<(), StoreFault> {
        take_next(self, entry)
    }
}

/// Takes the entry that follows those that were taken.
///
/// Refused with `NoMemory`, and with `Damaged` where its number numbers no transaction, was used
/// before or cannot have what was decided.
pub(crate) fn take_next(gathered: &mut Gathered, entry: &Entry) -> Result<(), StoreFault>
    ensures taken { OnOk result (TakesEntry gathered.old entry.now gathered.new) }
    ensures refused { IfErr result (IsEntryRefused gathered.old entry.now) }
{
    if !usable(entry.number.counter()) {
        return Err(StoreFault::Damaged);
    }
    if !entry.decided.may_stand_under(entry.number) {
        return Err(StoreFault::Damaged);
    }
    if gathered.take(entry)? {
        Ok(())
    } else {
        Err(StoreFault::Damaged)
    }
}

/// What is told of a restart of the journal that was refused so.
pub(crate) fn fault_of(fault: StoreFault) -> HostFault
    ensures { result ≡ told_as fault }
{
    match fault {
        StoreFault::NoMemory => HostFault::NoMemory,
        _ => HostFault::Store(fault),
    }
}
