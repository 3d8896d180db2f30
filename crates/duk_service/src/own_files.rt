//! Opens the file of a log, a journal or a ledger, unless its bytes are such as that never leaves.
//!
//! A log that is brought up takes records of which none is open for one that keeps nothing, whatever
//! they are, and a journal and a ledger do too. So a key or a configuration, named by mistake, would be written
//! over, or copied as a journal without entries. Before anything is done the bytes are looked at here.

ghost use Rattle.std.specs.Prelude.{◌≡◌, IfErr, IfOk, MatchOption, OnErr};
ghost use Rattle.duk_service.specs.LogFiles.{IsDisk, IsNoDisk, MayOpen};
ghost use Rattle.duk_service.specs.OwnFiles.{IsJournalDisk, IsLookedAt, IsNoJournalDisk, IsNoOwnDisk, IsNotOwn, IsOnlyRead, IsOwn, IsOwnDisk};
ghost use Rattle.duk_service.specs.inner.OwnFiles.{IsEitherSeen, IsLedgerSeen, IsVersionSeen, version_fault};
ghost use Rattle.duk_store.specs.Disk.{HasFailed};

use crate::left_records::{Layout, RecordFormat, Seen, look_at};
use crate::log_files::{Access, LogFiles};
use crate::reason::Strange;
use duk_journal_copy::Version;
use duk_store::{Disk, StoreFault};

/// Why the file of a log, a journal or a ledger is not opened.
#[derive(Clone, Copy, Debug, PartialEq, Eq)]
pub enum OpenFault {
    /// It cannot be opened, or another uses it.
    Unopened,
    /// A device step of it failed.
    Failed,
    /// Its bytes are none that such a file has.
    Foreign,
    /// They are those of a journal or a ledger of version 1, which is copied first.
    OldVersion,
}

/// The disk over the file under a path, whose bytes a log, a journal or a ledger left. It is read, and
/// not written.
///
/// The faults are looked for in their order.
pub fn open_own<S: LogFiles>(
    files: &S,
    path: &str,
    format: RecordFormat,
    access: Access,
) -> Result<S::Disk, OpenFault>
    requires { MayOpen (S.may_write files.now path.now) access }
    ensures opened { IfOk result (IsOwnDisk format S.Disk.meaning (S.disks files.now path.now)) }
    ensures refused { IfErr result
        (IsNoOwnDisk format S.Disk.meaning (S.disks files.now path.now)) }
{
    let Ok(mut disk) = open(files, path, access) else {
        return Err(OpenFault::Unopened);
    };
    match fault_in(&mut disk, format) {
        None => Ok(disk),
        Some(why) => Err(why),
    }
}

/// Why a disk is not opened as that of a log, a journal or a ledger. It is read alone.
fn fault_in<D: Disk>(disk: &mut D, format: RecordFormat) -> Option<OpenFault>
    ensures own { MatchOption result
        ((D.meaning.state_of disk.new).honest → IsOwn format (D.meaning.state_of disk.new).reads)
        (IsNotOwn format (D.meaning.state_of disk.old) (D.meaning.state_of disk.new)) }
    ensures only_read { IsOnlyRead (D.meaning.state_of disk.old) (D.meaning.state_of disk.new) }
{
    match format {
        RecordFormat::Log => match look_at(disk, Layout::Log) {
            Ok(Seen::Left) => None,
            Ok(_) => Some(OpenFault::Foreign),
            Err(_) => Some(OpenFault::Failed),
        },
        RecordFormat::Journal => version_fault(version_of(disk)),
        RecordFormat::Ledger => version_fault(ledger_version_of(disk)),
    }
}

/// Why the disk of a journal or a ledger is not opened, by the version that it is seen to be.
fn version_fault(seen: Result<Option<Version>, StoreFault>) -> Option<OpenFault>
    ensures { result ≡ version_fault seen }
{
    match seen {
        Ok(Some(Version::Two)) => None,
        Ok(Some(Version::One)) => Some(OpenFault::OldVersion),
        Ok(None) => Some(OpenFault::Foreign),
        Err(_) => Some(OpenFault::Failed),
    }
}

/// The version of the journal that left the bytes of a disk, where one did.
///
/// Refused with `Device` where a device step failed.
pub(crate) fn version_of<D: Disk>(disk: &mut D) -> Result<Option<Version>, StoreFault>
    ensures version { IfOk result (IsVersionSeen (D.meaning.state_of disk.new)) }
    ensures only_read { IsOnlyRead (D.meaning.state_of disk.old) (D.meaning.state_of disk.new) }
    ensures failed { IfErr result
        (HasFailed (D.meaning.state_of disk.old) (D.meaning.state_of disk.new)) }
{
    match look_at(disk, Layout::Journal(Version::Two))? {
        Seen::Left => Ok(Some(Version::Two)),
        Seen::OtherFront => match look_at(disk, Layout::Journal(Version::One))? {
            Seen::Left => Ok(Some(Version::One)),
            _ => Ok(None),
        },
        _ => Ok(None),
    }
}

/// The version of the ledger that left the bytes of a disk, where one did: a ledger in the form of a
/// log is one of version 1.
///
/// Refused with `Device` where a device step failed.
pub(crate) fn ledger_version_of<D: Disk>(disk: &mut D) -> Result<Option<Version>, StoreFault>
    ensures version { IfOk result (IsLedgerSeen (D.meaning.state_of disk.new)) }
    ensures only_read { IsOnlyRead (D.meaning.state_of disk.old) (D.meaning.state_of disk.new) }
    ensures failed { IfErr result
        (HasFailed (D.meaning.state_of disk.old) (D.meaning.state_of disk.new)) }
{
    match look_at(disk, Layout::Ledger(Version::Two))? {
        Seen::Left => Ok(Some(Version::Two)),
        _ => match look_at(disk, Layout::Ledger(Version::One))? {
            Seen::Left => Ok(Some(Version::One)),
            _ => Ok(None),
        },
    }
}

/// A journal's disk, and the version of its format.
#[derive(Drop)]
pub(crate) struct JournalDisk<D: Disk> {
    pub(crate) disk: D,
    pub(crate) version: Version,
}

/// The disk over the file under a path, whose bytes a journal of either version left. It is opened to
/// be read alone.
///
/// The faults are looked for in their order. `OldVersion` is none of them.
pub(crate) fn open_journal<S: LogFiles>(
    files: &S,
    path: &str,
) -> Result<JournalDisk<S::Disk>, OpenFault>
    ensures opened { IfOk result (λ journal. IsJournalDisk journal.version
        S.Disk.meaning (S.disks files.now path.now) journal.disk) }
    ensures refused { IfErr result (IsNoJournalDisk S.Disk.meaning (S.disks files.now path.now)) }
{
    let Ok(mut disk) = open(files, path, Access::Read) else {
        return Err(OpenFault::Unopened);
    };
    match version_of(&mut disk) {
        Ok(Some(version)) => Ok(JournalDisk { disk, version }),
        Ok(None) => Err(OpenFault::Foreign),
        Err(_) => Err(OpenFault::Failed),
    }
}

/// The disk over the file under a path.
pub(crate) fn open<S: LogFiles>(
    files: &S,
    path: &str,
    access: Access,
) -> Result<S::Disk, StoreFault>
    requires { MayOpen (S.may_write files.now path.now) access }
    ensures opened { IfOk result (IsDisk (S.disks files.now path.now)) }
    ensures refused { OnErr result (IsNoDisk (S.disks files.now path.now)) }
{
    match access {
        Access::Read => files.open_to_read(path),
        Access::Write => files.open_disk(path),
    }
}

/// What the file under a path is seen to be that is no log, journal or ledger, of any version. None of
/// one that is, and of one that is not opened or read, or has not whole records.
pub fn strange_in<S: LogFiles>(files: &S, path: &str, format: RecordFormat) -> Option<Strange>
    ensures { IsLookedAt format S.Disk.meaning (S.disks files.now path.now) result }
{
    let Ok(mut file) = open(files, path, Access::Read) else {
        return None;
    };
    match look_at_either(&mut file, format) {
        Ok(Seen::Empty) => Some(Strange::Empty),
        Ok(Seen::Foreign(place)) => Some(Strange::Record(place)),
        Ok(Seen::Left) => None,
        Ok(Seen::OtherFront) => None,
        Ok(Seen::Cut) => None,
        Err(_) => None,
    }
}

/// Looks at a disk as that of a log, a journal or a ledger; at one without a header as that of version
/// 1.
fn look_at_either<D: Disk>(disk: &mut D, format: RecordFormat) -> Result<Seen, StoreFault>
    ensures seen { IfOk result (IsEitherSeen format (D.meaning.state_of disk.new)) }
    ensures only_read { IsOnlyRead (D.meaning.state_of disk.old) (D.meaning.state_of disk.new) }
    ensures failed { IfErr result
        (HasFailed (D.meaning.state_of disk.old) (D.meaning.state_of disk.new)) }
{
    match look_at(disk, format.layout_in(Version::Two))? {
        Seen::OtherFront => look_at(disk, format.layout_in(Version::One)),
        seen => Ok(seen),
    }
}
