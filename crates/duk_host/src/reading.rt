//! How the used numbers are read from a log.

ghost use Rattle.std.specs.Prelude.{◌≡◌, ◌<◌, true, IfOk, IfErr};
ghost use Rattle.duk_host.specs.inner.Reading.{AreRead, IsReadOne, IsTakenIn, ReadOneRefused, ReadAllRefused, TakeInRefused};

use crate::fault::HostFault;
use crate::used::UsedNumbers;
use duk_store::{StoreFault, UsedLog};
use duk_tree::{Ksn, usable};
use std::alloc::Global;

/// The numbers that a log keeps, as many as its restart found.
///
/// Refused with `Store`: of the log's fault, or with `Damaged` where a number that it keeps occurs
/// twice or numbers no transaction; and with `NoMemory`.
pub(crate) fn numbers_in<L: UsedLog>(
    alloc: Global,
    log: &mut L,
    kept: u64,
) -> Result<UsedNumbers, HostFault>
    requires runs { (L.meaning.state_of log.old).running ≡ true }
    requires kept { L.meaning.count log.old ≡ kept }
    ensures read { IfOk result (AreRead L.meaning log.old log.new kept) }
    ensures counted { IfOk result (λ _. L.meaning.count log.new ≡ L.meaning.count log.old) }
    ensures capacity { L.meaning.capacity log.new ≡ L.meaning.capacity log.old }
    ensures disarmed { L.meaning.disarmed log.old → L.meaning.disarmed log.new }
    ensures refused { IfErr result (ReadAllRefused L.meaning log.old log.new kept) }
{
    let mut used = UsedNumbers::new(alloc);
    for place in 0..kept {
        read_one(log, place, &mut used)?;
    }
    Ok(used)
}

/// Adds the number at a place of the log.
fn read_one<L: UsedLog>(log: &mut L, place: u64, used: &mut UsedNumbers) -> Result<(), HostFault>
    requires runs { (L.meaning.state_of log.old).running ≡ true }
    requires place { place < L.meaning.count log.old }
    ensures read { IfOk result
        (λ _. IsReadOne L.meaning log.old log.new place used.old used.new) }
    ensures counted { IfOk result (λ _. L.meaning.count log.new ≡ L.meaning.count log.old) }
    ensures capacity { L.meaning.capacity log.new ≡ L.meaning.capacity log.old }
    ensures disarmed { L.meaning.disarmed log.old → L.meaning.disarmed log.new }
    ensures refused { IfErr result (ReadOneRefused L.meaning log.old log.new place used.old) }
{
    match log.at(place) {
        Ok(ksn) => take_in(used, ksn),
        Err(fault) => Err(HostFault::Store(fault)),
    }
}

/// Adds a number that a log keeps.
///
/// Refused with `NoMemory`, and with `Store` of `Damaged` where the number was read before or
/// numbers no transaction.
fn take_in(used: &mut UsedNumbers, ksn: Ksn) -> Result<(), HostFault>
    ensures taken { IfOk result (λ _. IsTakenIn used.old ksn used.new) }
    ensures refused { IfErr result (TakeInRefused used.old ksn) }
{
    if !usable(ksn.counter()) {
        return Err(HostFault::Store(StoreFault::Damaged));
    }
    if used.insert(ksn)? {
        Ok(())
    } else {
        Err(HostFault::Store(StoreFault::Damaged))
    }
}
