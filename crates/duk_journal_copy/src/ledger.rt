//! A ledger that keeps the numbers of one in the form of a log.

ghost use Rattle.std.specs.Prelude.{◌≡◌, ◌+◌, ◌*◌, ◌≤◌, true, replicate, IfErr, IfNone, IfSome, OnOk};
ghost use Rattle.duk_journal_copy.specs.Ledger.{IsLedgerCopied, LeavesIssuesInPart, LedgerUncopied, issues_of};
ghost use Rattle.duk_journal_copy.specs.inner.Blank.{LeavesOutside};
ghost use Rattle.duk_journal_copy.specs.inner.Ledger.{AreNumbersCopied, HasNoIssue, IsIssueIn, IsIssueWritten};
ghost use Rattle.duk_store.specs.Disk.{HasFailed, PreservesBytes, PreservesDisk};
ghost use Rattle.duk_store.specs.DiskRecords.{are_running, count_in, records_meaning};
ghost use Rattle.duk_store.specs.Log.{Numbers};
ghost use Rattle.duk_store.specs.LogFormat.{log_format};
ghost use Rattle.duk_store.specs.StoreState.{FindsOnly, PreservesNature};

use crate::begin::{HEADER_LENGTH, write_front};
use crate::blank::write_synced;
use crate::head::settle_head;
use duk_journal::{OPEN, RECORD_LENGTH};
use duk_ledger::{Issued, IssuedFormat, LEDGER_KIND};
use duk_store::{Disk, Format, LogFormat, Records, StoreFault};

/// The bytes of a record of a log.
const NUMBER_LENGTH: usize = duk_store::RECORD_LENGTH;

/// Why a ledger is not copied.
#[derive(Clone, Copy, Debug, PartialEq, Eq)]
pub enum LedgerCopyFault {
    /// A device step of the ledger that is copied failed.
    Old,
    /// It keeps a number with a transaction counter, which no initial key has.
    Counted,
    /// A device step of the copy failed.
    New,
}

/// Writes the numbers of a ledger in the form of a log, which is brought up, over another disk, as a
/// ledger with this identity, and zeros over all bytes behind it, and syncs them. A ledger over that
/// disk keeps the same numbers then, in their order, and of none how its key was made. The first two
/// bytes are settled last, once all behind them is synced: a disk that begins as that of no ledger is
/// none until they are. The old ledger is read alone.
///
/// Refused where a device step failed, and where a number has a transaction counter.
pub fn write_ledger<D: Disk, E: Disk>(
    old: &mut Records<D, LogFormat>,
    new: &mut E,
    identity: u64,
    zeros: &[u8],
) -> Result<(), LedgerCopyFault>
    requires zeros { zeros.now ≡ replicate 65536 0 }
    requires running { are_running old.old.kept ≡ true }
    requires room { 32 * (1 + count_in old.old.kept) ≤ (E.meaning.state_of new.old).size }
    ensures copied { OnOk result (IsLedgerCopied identity (count_in old.old.kept)
        ((records_meaning D.meaning (λ format. log_format)).state_of old.old)
        (E.meaning.state_of new.old) (E.meaning.state_of new.new)) }
    ensures failed { IfErr result (LedgerUncopied
        ((records_meaning D.meaning (λ format. log_format)).state_of old.old)
        ((records_meaning D.meaning (λ format. log_format)).state_of old.new)
        (E.meaning.state_of new.old) (E.meaning.state_of new.new)) }
    ensures nature { PreservesNature
        ((records_meaning D.meaning (λ format. log_format)).state_of old.old)
        ((records_meaning D.meaning (λ format. log_format)).state_of old.new) }
    ensures bytes { PreservesBytes
        (D.meaning.state_of old.old.disk) (D.meaning.state_of old.new.disk) }
    ensures in_part { (numbers : Numbers) → FindsOnly
        ((records_meaning D.meaning (λ format. log_format)).state_of old.old) numbers
        → ((records_meaning D.meaning (λ format. log_format)).state_of old.old).honest
        → LeavesIssuesInPart (issues_of numbers)
        (E.meaning.state_of new.old) (E.meaning.state_of new.new) }
{
    duk_journal::laws::headers();
    duk_ledger::laws::one_list();
    let count = old.len();
    let end = new.size();
    if write_front(new, LEDGER_KIND, identity).is_err() {
        return Err(LedgerCopyFault::New);
    }
    copy_numbers(old, count, new, identity)?;
    if write_synced(new, zeros, HEADER_LENGTH * (1 + count), end).is_err() {
        return Err(LedgerCopyFault::New);
    }
    match settle_head(new) {
        Ok(()) => Ok(()),
        Err(_) => Err(LedgerCopyFault::New),
    }
}

/// Writes a record for each of so many numbers of a log behind the header of a ledger.
fn copy_numbers<D: Disk, E: Disk>(
    old: &mut Records<D, LogFormat>,
    count: u64,
    new: &mut E,
    identity: u64,
) -> Result<(), LedgerCopyFault>
    requires running { are_running old.old.kept ≡ true }
    requires count { count ≡ count_in old.old.kept }
    requires room { 32 * (1 + count) ≤ (E.meaning.state_of new.old).size }
    ensures copied { OnOk result (AreNumbersCopied identity count
        ((records_meaning D.meaning (λ format. log_format)).state_of old.old)
        (E.meaning.state_of new.old) (E.meaning.state_of new.new)) }
    ensures failed { IfErr result (LedgerUncopied
        ((records_meaning D.meaning (λ format. log_format)).state_of old.old)
        ((records_meaning D.meaning (λ format. log_format)).state_of old.new)
        (E.meaning.state_of new.old) (E.meaning.state_of new.new)) }
    ensures nature { PreservesNature
        ((records_meaning D.meaning (λ format. log_format)).state_of old.old)
        ((records_meaning D.meaning (λ format. log_format)).state_of old.new) }
    ensures bytes { PreservesBytes
        (D.meaning.state_of old.old.disk) (D.meaning.state_of old.new.disk) }
    ensures outside { LeavesOutside 32 (32 * (1 + count))
        (E.meaning.state_of new.old) (E.meaning.state_of new.new) }
{
    let _size = new.size();
    let mut place = 0;
    while place < count {
        let mut record = [0; NUMBER_LENGTH];
        if old.read_record(place, &mut record).is_err() {
            return Err(LedgerCopyFault::Old);
        }
        let Some(issued) = issue_in(&record) else {
            return Err(LedgerCopyFault::Counted);
        };
        if write_issue(new, identity, 1 + place, &issued).is_err() {
            return Err(LedgerCopyFault::New);
        }
        place += 1;
    }
    Ok(())
}

/// What a ledger keeps of the number in a record of a log. None where it has a transaction counter.
fn issue_in(record: &[u8; NUMBER_LENGTH]) -> Option<Issued>
    ensures issue { IfSome result (IsIssueIn record.now) }
    ensures none { IfNone result (HasNoIssue record.now) }
{
    let (_followers, number) = LogFormat {}.read(0, 0, &record[1..])?;
    if number.counter() != 0 {
        return None;
    }
    Some(Issued {
        number: number.iksn(),
        made: None,
    })
}

/// Writes the record at a place of a ledger with this issue, which is open.
fn write_issue<E: Disk>(
    new: &mut E,
    identity: u64,
    place: u64,
    issued: &Issued,
) -> Result<(), StoreFault>
    requires room { 32 * (1 + place) ≤ (E.meaning.state_of new.old).size }
    ensures written { OnOk result (IsIssueWritten identity place issued.now
        (E.meaning.state_of new.old) (E.meaning.state_of new.new)) }
    ensures failed { IfErr result
        (HasFailed (E.meaning.state_of new.old) (E.meaning.state_of new.new)) }
    ensures nature { PreservesDisk (E.meaning.state_of new.old) (E.meaning.state_of new.new) }
    ensures outside { LeavesOutside (32 * place) (32 * (1 + place))
        (E.meaning.state_of new.old) (E.meaning.state_of new.new) }
{
    let _size = new.size();
    let mut record = [0; RECORD_LENGTH];
    record[0] = OPEN;
    IssuedFormat {}.write(identity, place, 0, issued, &mut record[1..]);
    new.write_at(RECORD_LENGTH as u64 * place, &record)
}
