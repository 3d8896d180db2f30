//! The command `copy-ledger`.

ghost use Rattle.std.specs.Prelude.{◌≡◌, ◌≤◌, ◌+◌, ◌*◌, ◌^◌, true, IfErr, IfNone, IfOk, IfSome, OnOk, length, replicate};
ghost use Rattle.duk_journal_copy.specs.declared.version.Version.TheVariants.{One as OldVersion};
ghost use Rattle.duk_service.specs.CopyLedger.{HasCopiedLedger, IsCopyLedgerRefused, IsLedgerDisk, copy_ledger_line, ledger_copy_size, old_ledger_state};
ghost use Rattle.duk_service.specs.LogFiles.{BeginsUnfinished};
ghost use Rattle.duk_service.specs.inner.CopyLedger.{IsLedgerKept, IsLedgerMade, IsNoneOrLedger, IsNotUp, IsOldUnopened, IsUp, LedgerNotKept, LedgerNotMade};
ghost use Rattle.duk_store.specs.Disk.{PreservesBytes};
ghost use Rattle.duk_store.specs.DiskRecords.{are_running, count_in};

use crate::log_files::{Access, LogFiles};
use crate::own_files::{ledger_version_of, open};
use duk_journal_copy::{LedgerCopyFault, PIECE_LENGTH, Version, write_ledger};
use duk_store::{Disk, LogFormat, NoVisitor, Records};
use std::alloc::{AllocError, Global};

/// Why no ledger is copied.
#[derive(Clone, Copy, Debug, PartialEq, Eq)]
pub enum CopyLedgerFault {
    /// Memory was refused.
    OutOfMemory,
    /// The ledger's file cannot be opened, or another uses it.
    Unopened,
    /// The ledger is of version 2, and needs no copy.
    NewVersion,
    /// The ledger is damaged, or keeps a number that no initial key has, or a device step of it
    /// failed.
    Failed,
    /// The copy's file cannot be made, written or synced, or its folder cannot be synced.
    Unmade,
}

impl From<AllocError> for CopyLedgerFault {
    ghost use Rattle.duk_service.specs.declared.copy_ledger.CopyLedgerFault.TheVariants.{OutOfMemory};

    ghost from_gives = { λ _ fault. fault ≡ OutOfMemory };

    fn from(_refused: AllocError) -> CopyLedgerFault {
        CopyLedgerFault::OutOfMemory
    }
}

impl CopyLedgerFault {
    /// The line of the fault, LF at its end.
    pub fn line(self) -> &'static str
        ensures { result.now ≡ copy_ledger_line self }
    {
        match self {
            CopyLedgerFault::OutOfMemory => "out of memory\n",
            CopyLedgerFault::Unopened => "ledger: cannot open\n",
            CopyLedgerFault::NewVersion => "ledger: version 2 already\n",
            CopyLedgerFault::Failed => "ledger: failed\n",
            CopyLedgerFault::Unmade => "ledger: cannot make\n",
        }
    }
}

/// Makes the file of a ledger with as much room as one in the form of a log has, and with the
/// numbers that this keeps, under an identity that is drawn at random. All memory is asked for
/// before the file is made.
///
/// The faults, in this order: `ledger: cannot open`; `ledger: version 2 already`; `ledger: failed`;
/// `ledger: cannot make`. In place of each but the first two may stand `out of memory`. A number
/// that no initial key has is found once the file is made: `ledger: failed`. A file that was made
/// and cannot be kept is removed again, if it can be.
pub fn copy_ledger<S: LogFiles>(
    alloc: Global,
    files: &S,
    old: &str,
    new: &str,
    identity: u64,
) -> Result<(), CopyLedgerFault>
    requires { S.may_make files.now new.now }
    ensures made { OnOk result (HasCopiedLedger identity S.Disk.meaning
        (S.disks files.now old.now) (S.making files.now new.now)) }
    ensures refused { IfErr result (IsCopyLedgerRefused S.Disk.meaning
        (S.disks files.now old.now) (S.making files.now new.now)) }
{
    let disk = open_old(files, old)?;
    let zeros = vec![in alloc; 0; PIECE_LENGTH]?;
    let mut piece = vec![in alloc; 0; PIECE_LENGTH]?;
    let mut records = Records::new(disk, LogFormat {});
    bring_up(&mut records, &mut piece[..])?;
    let Some(size) = size_of_copy(&records) else {
        return Err(CopyLedgerFault::Unmade);
    };
    make_new(files, new, size, &mut records, identity, zeros.as_slice())
}

/// The bytes of a copy, with as much room as a ledger in the form of a log has. None where no file
/// has so many.
fn size_of_copy<D: Disk>(ledger: &Records<D, LogFormat>) -> Option<u64>
    ensures found { IfSome result (λ size. size ≡ ledger_copy_size D.meaning ledger.now) }
    ensures none { IfNone result (2 ^ 64 ≤ ledger_copy_size D.meaning ledger.now) }
{
    let records = ledger.len().checked_add(ledger.room())?;
    records.checked_add(1)?.checked_mul(32)
}

/// The disk over the file under a path, whose bytes a ledger in the form of a log left. It is
/// opened to be read alone.
fn open_old<S: LogFiles>(files: &S, old: &str) -> Result<S::Disk, CopyLedgerFault>
    ensures opened { IfOk result
        (IsLedgerDisk OldVersion S.Disk.meaning (S.disks files.now old.now)) }
    ensures refused { IfErr result (IsOldUnopened S.Disk.meaning (S.disks files.now old.now)) }
{
    let Ok(mut disk) = open(files, old, Access::Read) else {
        return Err(CopyLedgerFault::Unopened);
    };
    match ledger_version_of(&mut disk) {
        Ok(Some(Version::One)) => Ok(disk),
        Ok(Some(Version::Two)) => Err(CopyLedgerFault::NewVersion),
        Ok(None) => Err(CopyLedgerFault::Failed),
        Err(_) => Err(CopyLedgerFault::Failed),
    }
}

/// Brings up a ledger in the form of a log.
fn bring_up<D: Disk>(
    records: &mut Records<D, LogFormat>,
    piece: &mut [u8],
) -> Result<(), CopyLedgerFault>
    requires piece { length piece.old ≡ 65536 }
    ensures up { OnOk result (IsUp D.meaning records.old records.new) }
    ensures refused { IfErr result (IsNotUp D.meaning records.old records.new) }
{
    match records.restart(piece, &mut NoVisitor {}) {
        Ok(_) => Ok(()),
        Err(_) => Err(CopyLedgerFault::Failed),
    }
}

/// Makes a file of so many bytes, with what a ledger in the form of a log keeps, syncs it, and then
/// its folder. Where it cannot be kept it is removed again, if it can be.
fn make_new<S: LogFiles>(
    files: &S,
    file: &str,
    size: u64,
    old: &mut Records<S::Disk, LogFormat>,
    identity: u64,
    zeros: &[u8],
) -> Result<(), CopyLedgerFault>
    requires own { S.may_make files.now file.now }
    requires zeros { zeros.now ≡ replicate 65536 0 }
    requires running { are_running old.old.kept ≡ true }
    requires room { 32 * (1 + count_in old.old.kept) ≤ size }
    ensures made { OnOk result (IsLedgerMade identity (count_in old.old.kept) S.Disk.meaning
        (S.making files.now file.now) size (old_ledger_state S.Disk.meaning old.old)) }
    ensures refused { IfErr result (LedgerNotMade S.Disk.meaning
        (S.making files.now file.now) size
        (old_ledger_state S.Disk.meaning old.old) (old_ledger_state S.Disk.meaning old.new)) }
    ensures bytes { PreservesBytes (S.Disk.meaning.state_of old.old.disk)
        (S.Disk.meaning.state_of old.new.disk) }
{
    let Ok(mut disk) = files.make_disk(file, size) else {
        return Err(CopyLedgerFault::Unmade);
    };
    match keep_new(files, file, size, old, identity, zeros, &mut disk) {
        Ok(()) => Ok(()),
        Err(why) => {
            files.remove_made(file, disk);
            Err(why)
        }
    }
}

/// Writes what a ledger in the form of a log keeps over a disk that was made, of this size, and
/// syncs it, and then the folder of its path.
fn keep_new<S: LogFiles>(
    files: &S,
    file: &str,
    size: u64,
    old: &mut Records<S::Disk, LogFormat>,
    identity: u64,
    zeros: &[u8],
    disk: &mut S::Disk,
) -> Result<(), CopyLedgerFault>
    requires own { S.may_make files.now file.now }
    requires zeros { zeros.now ≡ replicate 65536 0 }
    requires running { are_running old.old.kept ≡ true }
    requires room { 32 * (1 + count_in old.old.kept) ≤ size }
    requires begins { BeginsUnfinished (S.Disk.meaning.state_of disk.old) }
    ensures kept { OnOk result (IsLedgerKept identity (count_in old.old.kept)
        (S.making files.now file.now).folder size (old_ledger_state S.Disk.meaning old.old)
        (S.Disk.meaning.state_of disk.old) (S.Disk.meaning.state_of disk.new)) }
    ensures refused { IfErr result (LedgerNotKept (S.making files.now file.now).folder size
        (old_ledger_state S.Disk.meaning old.old) (old_ledger_state S.Disk.meaning old.new)
        (S.Disk.meaning.state_of disk.old) (S.Disk.meaning.state_of disk.new)) }
    ensures bytes { PreservesBytes (S.Disk.meaning.state_of old.old.disk)
        (S.Disk.meaning.state_of old.new.disk) }
    ensures left { IsNoneOrLedger (old_ledger_state S.Disk.meaning old.old)
        (S.Disk.meaning.state_of disk.old) (S.Disk.meaning.state_of disk.new) }
{
    duk_journal_copy::laws::unheaded();
    duk_journal_copy::laws::unnumbered();
    if disk.size() != size {
        return Err(CopyLedgerFault::Unmade);
    }
    match write_ledger(old, disk, identity, zeros) {
        Ok(()) => {}
        Err(LedgerCopyFault::Old) => return Err(CopyLedgerFault::Failed),
        Err(LedgerCopyFault::Counted) => return Err(CopyLedgerFault::Failed),
        Err(LedgerCopyFault::New) => return Err(CopyLedgerFault::Unmade),
    }
    match files.sync_folder(file) {
        Ok(()) => Ok(()),
        Err(_) => Err(CopyLedgerFault::Unmade),
    }
}
