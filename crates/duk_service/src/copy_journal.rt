//! The command `copy-journal`.

ghost use Rattle.std.specs.Prelude.{◌≡◌, ◌≤◌, ◌+◌, ◌*◌, ◌^◌, IfErr, IfNone, IfOk, IfSome, OnOk, length, replicate};
ghost use Rattle.duk_journal_copy.specs.Version.{format_of, journal_records_meaning};
ghost use Rattle.duk_journal_host.specs.Check.{IsChecked};
ghost use Rattle.duk_service.specs.CopyJournal.{HasCopiedJournal, IsCopyJournalRefused, copy_journal_line, copy_size};
ghost use Rattle.duk_service.specs.LogFiles.{BeginsUnfinished, IsFolderSynced};
ghost use Rattle.duk_service.specs.OwnFiles.{IsJournalDisk};
ghost use Rattle.duk_service.specs.inner.CopyJournal.{CheckedNotKept, CopyNotMade, CopyNotWritten, IsCopyMade, IsCopyWritten, IsNewChecked, IsNoneOrKept, IsNotChecked, IsOldUnopened, IsReadOver, NewNotChecked, NewNotKept, kept_in};
ghost use Rattle.duk_store.specs.Disk.{PreservesBytes, PreservesDisk};

use crate::log_files::LogFiles;
use crate::own_files::{JournalDisk, OpenFault, open_journal};
use duk_host::HostFault;
use duk_journal::RECORD_LENGTH;
use duk_journal_copy::{CopyFault, Kept, PIECE_LENGTH, Version, write_copy};
use duk_journal_host::{Checked, check_records};
use duk_store::{Disk, Records};
use std::alloc::{AllocError, Global};

/// The bytes of a header.
const HEADER_LENGTH: u64 = RECORD_LENGTH as u64;

/// Why no journal is copied.
#[derive(Clone, Copy, Debug, PartialEq, Eq)]
pub enum CopyJournalFault {
    /// Memory was refused.
    OutOfMemory,
    /// The journal's file cannot be opened, or another uses it.
    Unopened,
    /// The journal is damaged, or a device step of it failed, or it gives other bytes than it did.
    Failed,
    /// The copy's file cannot be made, written or synced, what was written does not keep what the
    /// journal does, or the file's folder cannot be synced.
    Unmade,
}

impl From<AllocError> for CopyJournalFault {
    ghost use Rattle.duk_service.specs.declared.copy_journal.CopyJournalFault.TheVariants.{OutOfMemory};

    ghost from_gives = { λ _ fault. fault ≡ OutOfMemory };

    fn from(_refused: AllocError) -> CopyJournalFault {
        CopyJournalFault::OutOfMemory
    }
}

impl CopyJournalFault {
    /// The line of the fault, LF at its end.
    pub fn line(self) -> &'static str
        ensures { result.now ≡ copy_journal_line self }
    {
        match self {
            CopyJournalFault::OutOfMemory => "out of memory\n",
            CopyJournalFault::Unopened => "journal: cannot open\n",
            CopyJournalFault::Failed => "journal: failed\n",
            CopyJournalFault::Unmade => "journal: cannot make\n",
        }
    }
}

/// What is written to a copy at once: zeros, or a piece of the journal.
#[derive(Drop)]
struct Pieces {
    zeros: Vec<u8>,
    piece: Vec<u8>,
}

/// A journal of either version that was checked: its format, and what it keeps.
#[derive(Clone, Copy)]
struct Source {
    version: Version,
    checked: Checked,
}

/// Makes a file of version 2 with as much room as a journal of either version has, with what that
/// keeps, under an identity that is drawn at random. The journal's bytes are such as a journal leaves,
/// and what it keeps is checked, as at a start of a service, before the file is made, and the file
/// before its folder is synced: a journal that is read otherwise the second time is not copied, since
/// the file has another number of entries then, or another check sum. All memory but that of the
/// copy's check is asked for before its file is made.
///
/// The faults, in this order: `journal: cannot open`; `journal: failed`; `journal: cannot make`. In
/// place of each but the first may stand `out of memory`. A file that was made and cannot be kept is
/// removed again, if it can be.
pub fn copy_journal<S: LogFiles>(
    alloc: Global,
    files: &S,
    old: &str,
    new: &str,
    identity: u64,
) -> Result<(), CopyJournalFault>
    requires { S.may_make files.now new.now }
    ensures made { OnOk result (HasCopiedJournal identity S.Disk.meaning
        (S.disks files.now old.now) (S.making files.now new.now)) }
    ensures refused { IfErr result (IsCopyJournalRefused identity S.Disk.meaning
        (S.disks files.now old.now) (S.making files.now new.now)) }
{
    let JournalDisk { disk, version } = match open_old(files, old) {
        Ok(journal) => journal,
        Err(why) => return Err(why),
    };
    let Ok(mut pieces) = new_pieces(alloc) else {
        return Err(CopyJournalFault::OutOfMemory);
    };
    let size = disk.size();
    let mut records = Records::new(disk, version);
    let checked = match check(alloc, &mut records, &mut pieces.piece[..]) {
        Ok(checked) => checked,
        Err(why) => return Err(why),
    };
    let mut disk = records.into_disk();
    let source = Source { version, checked };
    let Some(size) = size_of_copy(version, size) else {
        return Err(CopyJournalFault::Unmade);
    };
    make_new(
        alloc,
        files,
        new,
        size,
        source,
        &mut disk,
        identity,
        &mut pieces,
    )
}

/// The bytes of a copy, with as much room as a journal of so many has: in front of a copy stands a
/// header. None where no file has so many.
fn size_of_copy(version: Version, size: u64) -> Option<u64>
    ensures found { IfSome result (λ copied. copied ≡ copy_size version size) }
    ensures none { IfNone result (2 ^ 64 ≤ copy_size version size) }
{
    match version {
        Version::One => size.checked_add(HEADER_LENGTH),
        Version::Two => Some(size),
    }
}

/// The disk of a journal, which is opened to be read alone.
fn open_old<S: LogFiles>(files: &S, old: &str) -> Result<JournalDisk<S::Disk>, CopyJournalFault>
    ensures opened { IfOk result (λ journal. IsJournalDisk journal.version
        S.Disk.meaning (S.disks files.now old.now) journal.disk) }
    ensures refused { IfErr result (IsOldUnopened S.Disk.meaning (S.disks files.now old.now)) }
{
    match open_journal(files, old) {
        Ok(journal) => Ok(journal),
        Err(OpenFault::Unopened) => Err(CopyJournalFault::Unopened),
        Err(OpenFault::Failed) => Err(CopyJournalFault::Failed),
        Err(OpenFault::Foreign) => Err(CopyJournalFault::Failed),
        Err(OpenFault::OldVersion) => Err(CopyJournalFault::Failed),
    }
}

/// Checks a journal as the restart of a host over it does, and gives how many entries it keeps, and
/// their check sum.
fn check<D: Disk>(
    alloc: Global,
    records: &mut Records<D, Version>,
    piece: &mut [u8],
) -> Result<Checked, CopyJournalFault>
    requires piece { length piece.old ≡ 65536 }
    ensures checked { IfOk result
        (IsChecked (journal_records_meaning D.meaning) records.old records.new) }
    ensures refused { IfErr result
        (IsNotChecked (journal_records_meaning D.meaning) records.old records.new) }
    ensures size { (D.meaning.state_of records.new.disk).size
        ≡ (D.meaning.state_of records.old.disk).size }
    ensures version { records.new.format ≡ records.old.format }
    ensures length { length piece.new ≡ length piece.old }
{
    match check_records(alloc, records, piece) {
        Ok(checked) => Ok(checked),
        Err(HostFault::NoMemory) => Err(CopyJournalFault::OutOfMemory),
        Err(_) => Err(CopyJournalFault::Failed),
    }
}

/// Zeros, and room for a piece.
fn new_pieces(alloc: Global) -> Result<Pieces, AllocError>
    ensures zeros { IfOk result (λ pieces. pieces.zeros.items ≡ replicate 65536 0) }
    ensures piece { IfOk result (λ pieces. length pieces.piece.items ≡ 65536) }
{
    let zeros = vec![in alloc; 0; PIECE_LENGTH]?;
    let piece = vec![in alloc; 0; PIECE_LENGTH]?;
    Ok(Pieces { zeros, piece })
}

/// Makes a file of so many bytes, with what a journal on a disk keeps, syncs and checks it, and syncs
/// its folder. Where it cannot be kept it is removed again, if it can be.
fn make_new<S: LogFiles>(
    alloc: Global,
    files: &S,
    file: &str,
    size: u64,
    source: Source,
    old: &mut S::Disk,
    identity: u64,
    pieces: &mut Pieces,
) -> Result<(), CopyJournalFault>
    requires own { S.may_make files.now file.now }
    requires zeros { pieces.old.zeros.items ≡ replicate 65536 0 }
    requires piece { length pieces.old.piece.items ≡ 65536 }
    requires inside { 32 * ((format_of source.version).headers + source.checked.count)
        ≤ (S.Disk.meaning.state_of old.old).size }
    requires room { 32 * (1 + source.checked.count) ≤ size }
    ensures made { OnOk result (IsCopyMade source identity S.Disk.meaning
        (S.making files.now file.now) size (S.Disk.meaning.state_of old.old)) }
    ensures refused { IfErr result (CopyNotMade source identity S.Disk.meaning
        (S.making files.now file.now) size
        (S.Disk.meaning.state_of old.old) (S.Disk.meaning.state_of old.new)) }
    ensures nature { PreservesDisk
        (S.Disk.meaning.state_of old.old) (S.Disk.meaning.state_of old.new) }
    ensures bytes { PreservesBytes
        (S.Disk.meaning.state_of old.old) (S.Disk.meaning.state_of old.new) }
{
    let Ok(mut disk) = files.make_disk(file, size) else {
        return Err(CopyJournalFault::Unmade);
    };
    match write_new(size, source, old, identity, pieces, &mut disk) {
        Ok(()) => keep_new(
            alloc,
            files,
            file,
            source.checked,
            disk,
            &mut pieces.piece[..],
        ),
        Err(why) => {
            files.remove_made(file, disk);
            Err(why)
        }
    }
}

/// Writes what a journal on a disk keeps over one that was made, of this size, and zeros behind it,
/// and syncs it.
fn write_new<D: Disk>(
    size: u64,
    source: Source,
    old: &mut D,
    identity: u64,
    pieces: &mut Pieces,
    disk: &mut D,
) -> Result<(), CopyJournalFault>
    requires zeros { pieces.old.zeros.items ≡ replicate 65536 0 }
    requires piece { length pieces.old.piece.items ≡ 65536 }
    requires inside { 32 * ((format_of source.version).headers + source.checked.count)
        ≤ (D.meaning.state_of old.old).size }
    requires room { 32 * (1 + source.checked.count) ≤ size }
    requires unfinished { BeginsUnfinished (D.meaning.state_of disk.old) }
    ensures written { OnOk result (IsCopyWritten source identity size
        (D.meaning.state_of old.old)
        (D.meaning.state_of disk.old) (D.meaning.state_of disk.new)) }
    ensures refused { IfErr result (CopyNotWritten source size
        (D.meaning.state_of old.old) (D.meaning.state_of old.new)
        (D.meaning.state_of disk.old) (D.meaning.state_of disk.new)) }
    ensures nature { PreservesDisk (D.meaning.state_of old.old) (D.meaning.state_of old.new) }
    ensures bytes { PreservesBytes (D.meaning.state_of old.old) (D.meaning.state_of old.new) }
    ensures left { IsNoneOrKept (kept_in source) (D.meaning.state_of old.old)
        (D.meaning.state_of disk.old) (D.meaning.state_of disk.new) }
    ensures length { length pieces.new.piece.items ≡ length pieces.old.piece.items }
{
    duk_journal_copy::laws::unfinished();
    if disk.size() != size {
        return Err(CopyJournalFault::Unmade);
    }
    let kept = Kept {
        version: source.version,
        count: source.checked.count,
    };
    match write_copy(
        old,
        kept,
        disk,
        identity,
        pieces.zeros.as_slice(),
        &mut pieces.piece[..],
    ) {
        Ok(()) => Ok(()),
        Err(CopyFault::Old) => Err(CopyJournalFault::Failed),
        Err(CopyFault::Changed) => Err(CopyJournalFault::Failed),
        Err(CopyFault::New) => Err(CopyJournalFault::Unmade),
    }
}

/// Checks that a written disk keeps so many entries with their check sum, and syncs the folder of its
/// path. Where it cannot be kept it is removed again, if it can be.
fn keep_new<S: LogFiles>(
    alloc: Global,
    files: &S,
    file: &str,
    kept: Checked,
    disk: S::Disk,
    piece: &mut [u8],
) -> Result<(), CopyJournalFault>
    requires own { S.may_make files.now file.now }
    requires piece { length piece.old ≡ 65536 }
    ensures checked { OnOk result (IsNewChecked S.Disk.meaning kept disk) }
    ensures synced { OnOk result (IsFolderSynced (S.making files.now file.now).folder) }
    ensures refused { IfErr result
        (NewNotKept S.Disk.meaning (S.making files.now file.now).folder kept disk) }
{
    let mut records = Records::new(disk, Version::Two);
    match keep_checked(alloc, files, file, kept, &mut records, piece) {
        Ok(()) => Ok(()),
        Err(why) => {
            files.remove_made(file, records.into_disk());
            Err(why)
        }
    }
}

/// Checks that a journal keeps so many entries with their check sum, and then syncs the folder of its
/// path.
fn keep_checked<S: LogFiles>(
    alloc: Global,
    files: &S,
    file: &str,
    kept: Checked,
    records: &mut Records<S::Disk, Version>,
    piece: &mut [u8],
) -> Result<(), CopyJournalFault>
    requires own { S.may_make files.now file.now }
    requires piece { length piece.old ≡ 65536 }
    ensures checked { OnOk result (IsChecked (journal_records_meaning S.Disk.meaning)
        records.old records.new kept) }
    ensures synced { OnOk result (IsFolderSynced (S.making files.now file.now).folder) }
    ensures refused { IfErr result (CheckedNotKept (journal_records_meaning S.Disk.meaning)
        (S.making files.now file.now).folder kept records.old records.new) }
    ensures read_over { IsReadOver
        ((journal_records_meaning S.Disk.meaning).state_of records.old)
        ((journal_records_meaning S.Disk.meaning).state_of records.new) }
    ensures version { records.new.format ≡ records.old.format }
{
    match check_new(alloc, kept, records, piece) {
        Ok(()) => {}
        Err(why) => return Err(why),
    }
    match files.sync_folder(file) {
        Ok(()) => Ok(()),
        Err(_) => Err(CopyJournalFault::Unmade),
    }
}

/// Checks a journal as the restart of a host over it does, and that it keeps so many entries with
/// their check sum.
fn check_new<D: Disk>(
    alloc: Global,
    kept: Checked,
    records: &mut Records<D, Version>,
    piece: &mut [u8],
) -> Result<(), CopyJournalFault>
    requires piece { length piece.old ≡ 65536 }
    ensures checked { OnOk result
        (IsChecked (journal_records_meaning D.meaning) records.old records.new kept) }
    ensures refused { IfErr result
        (NewNotChecked (journal_records_meaning D.meaning) kept records.old records.new) }
    ensures read_over { IsReadOver ((journal_records_meaning D.meaning).state_of records.old)
        ((journal_records_meaning D.meaning).state_of records.new) }
    ensures version { records.new.format ≡ records.old.format }
{
    match check_records(alloc, records, piece) {
        Ok(found) => {
            if found != kept {
                return Err(CopyJournalFault::Unmade);
            }
            Ok(())
        }
        Err(HostFault::NoMemory) => Err(CopyJournalFault::OutOfMemory),
        Err(_) => Err(CopyJournalFault::Unmade),
    }
}
