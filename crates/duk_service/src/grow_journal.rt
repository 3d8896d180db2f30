//! The command `grow-journal`.

ghost use Rattle.std.specs.Prelude.{◌≡◌, ◌≤◌, ◌+◌, ◌++◌, IfErr, IfNone, IfSome, MatchOption, OnErr, OnOk, replicate};
ghost use Rattle.duk_journal_copy.specs.declared.version.Version.TheVariants.{Two};
ghost use Rattle.duk_service.specs.FileEnd.{IsEndOf, LeavesLonger, PreservesEnd};
ghost use Rattle.duk_service.specs.GrowJournal.{HasGrownJournal, HasZerosBehind, IsGrowJournalRefused, IsGrowable, IsNotGrowable, grow_journal_line, most_bytes, zeros_for};
ghost use Rattle.duk_service.specs.LogFiles.{IsDisk};
ghost use Rattle.duk_service.specs.OwnFiles.{IsOnlyRead};
ghost use Rattle.duk_service.specs.declared.left_records.Layout.TheVariants.{Journal};
ghost use Rattle.duk_service.specs.inner.GrowJournal.{AreZerosAppended, AreZerosKept, AreZerosNotKept, IsToGrow, IsUngrowable};

use crate::file_end::FileEnd;
use crate::growable::may_be_grown;
use crate::left_records::Layout;
use crate::log_files::LogFiles;
use crate::new_file::read_records;
use crate::own_files::version_of;
use duk_journal::{CheckedFormat, RECORD_LENGTH};
use duk_journal_copy::{PIECE_LENGTH, Version};
use duk_store::{Disk, StoreFault};

/// The bytes of a record.
const LENGTH: u64 = RECORD_LENGTH as u64;

/// The most bytes that a file may have: places in a file have 63 bits.
const MOST_BYTES: u64 = 0x7FFF_FFFF_FFFF_FFFF;

/// Why no journal is made larger.
#[derive(Clone, Copy, Debug, PartialEq, Eq)]
pub enum GrowJournalFault {
    /// RECORDS is no number of records by which one may be made larger.
    RecordsRefused,
    /// The file cannot be opened, or another uses it.
    Unopened,
    /// Its bytes are none that a journal leaves, or a device step failed as it was read.
    Failed,
    /// Its bytes are such as a journal of version 1 leaves, which is copied first.
    OldVersion,
    /// It would have more bytes than a file may have, or a write or a sync failed.
    Ungrown,
}

impl GrowJournalFault {
    /// The line of the fault, LF at its end.
    pub fn line(self) -> &'static str
        ensures { result.now ≡ grow_journal_line self }
    {
        match self {
            GrowJournalFault::RecordsRefused => "records refused\n",
            GrowJournalFault::Unopened => "journal: cannot open\n",
            GrowJournalFault::Failed => "journal: failed\n",
            GrowJournalFault::OldVersion => "journal: version 1, use copy-journal\n",
            GrowJournalFault::Ungrown => "journal: cannot grow\n",
        }
    }
}

/// Makes the file of a journal larger by so many records as a text says, while no service has it:
/// appends zeros, and syncs them. Where a stop left less than a record of zeros at its end, these are
/// made a record first. Nothing that is there is written.
///
/// The faults, in this order: `records refused`; `journal: cannot open`; `journal: failed`, or
/// `journal: version 1, use copy-journal`; `journal: cannot grow`. Only behind the last may some of the
/// zeros stand: they are left.
pub fn grow_journal<S: LogFiles>(
    files: &S,
    file: &str,
    records: &str,
) -> Result<(), GrowJournalFault>
    requires { S.may_write files.now file.now }
    ensures grown { OnOk result
        (HasGrownJournal S.Disk.meaning (S.disks files.now file.now) records.now) }
    ensures refused { IfErr result
        (IsGrowJournalRefused S.Disk.meaning (S.disks files.now file.now) records.now) }
{
    duk_store::laws::grown(&CheckedFormat {});
    let Some(records) = read_records(records) else {
        return Err(GrowJournalFault::RecordsRefused);
    };
    let Ok((mut disk, end)) = files.open_to_grow(file) else {
        return Err(GrowJournalFault::Unopened);
    };
    let size = disk.size();
    match fault_in(&mut disk) {
        None => {}
        Some(why) => return Err(why),
    }
    match zeros_to_append(size, records) {
        Some(zeros) => grow_end(files, end, size, zeros),
        None => Err(GrowJournalFault::Ungrown),
    }
}

/// Why the journal on a disk is not made larger. It is read alone.
fn fault_in<D: Disk>(disk: &mut D) -> Option<GrowJournalFault>
    ensures growable { MatchOption result
        ((D.meaning.state_of disk.new).honest
        → IsGrowable (Journal Two) (D.meaning.state_of disk.new).reads)
        (IsNotGrowable (D.meaning.state_of disk.old) (D.meaning.state_of disk.new)) }
    ensures only_read { IsOnlyRead (D.meaning.state_of disk.old) (D.meaning.state_of disk.new) }
{
    match may_be_grown(disk, Layout::Journal(Version::Two)) {
        Ok(true) => None,
        Ok(false) => match version_of(disk) {
            Ok(Some(Version::One)) => Some(GrowJournalFault::OldVersion),
            Ok(_) => Some(GrowJournalFault::Failed),
            Err(_) => Some(GrowJournalFault::Failed),
        },
        Err(_) => Some(GrowJournalFault::Failed),
    }
}

/// How many zeros a file of so many bytes is made longer by, so that it has whole records and so many
/// more; none where it would have more bytes than a file may have.
fn zeros_to_append(size: u64, records: u32) -> Option<u64>
    ensures zeros { IfSome result (IsToGrow size records) }
    ensures none { IfNone result (IsUngrowable size records) }
{
    let rest = size % LENGTH;
    let missing = if rest == 0 { 0 } else { LENGTH - rest };
    let zeros = missing + LENGTH * u64::from(records);
    if size > MOST_BYTES || zeros > MOST_BYTES - size {
        return None;
    }
    Some(zeros)
}

/// Appends so many zeros to a file of so many bytes, and syncs it. It has to have them all then.
fn grow_end<S: LogFiles>(
    files: &S,
    mut end: S::End,
    size: u64,
    zeros: u64,
) -> Result<(), GrowJournalFault>
    requires { size + zeros ≤ most_bytes }
    ensures grown { OnOk result (AreZerosKept S.Disk.meaning size zeros (S.End.state end)) }
    ensures refused { IfErr result
        (AreZerosNotKept S.Disk.meaning size zeros (S.End.state end)) }
{
    let blank = [0; PIECE_LENGTH];
    let appended = append_synced(&mut end, zeros, &blank);
    let disk = files.disk_of(end);
    if appended.is_err() {
        return Err(GrowJournalFault::Ungrown);
    }
    if disk.size() != size + zeros {
        return Err(GrowJournalFault::Ungrown);
    }
    Ok(())
}

/// Appends so many zeros to a file, and syncs it.
fn append_synced<E: FileEnd>(end: &mut E, count: u64, zeros: &[u8]) -> Result<(), StoreFault>
    requires { zeros.now ≡ replicate 65536 0 }
    ensures nature { PreservesEnd (E.state end.old) (E.state end.new) }
    ensures longer { LeavesLonger (HasZerosBehind count) (E.state end.old) (E.state end.new) }
    ensures synced { OnOk result ((E.state end.old).honest
        → AreZerosAppended count (E.state end.old) (E.state end.new)) }
    ensures failed { OnErr result (¬ (E.state end.old).calm) }
{
    append_zeros(end, count, zeros)?;
    end.sync()
}

/// Appends so many zeros to a file, a piece at a time.
fn append_zeros<E: FileEnd>(end: &mut E, count: u64, zeros: &[u8]) -> Result<(), StoreFault>
    requires { zeros.now ≡ replicate 65536 0 }
    ensures nature { PreservesEnd (E.state end.old) (E.state end.new) }
    ensures longer { LeavesLonger (HasZerosBehind count) (E.state end.old) (E.state end.new) }
    ensures appended { OnOk result ((E.state end.old).honest
        → (E.state end.new).reads ≡ (E.state end.old).reads ++ replicate count 0) }
    ensures failed { OnErr result (¬ (E.state end.old).calm) }
{
    let mut left = count;
    while left > 0 {
        let piece = left.min(PIECE_LENGTH as u64);
        end.append(&zeros[..piece as usize])?;
        left -= piece;
    }
    Ok(())
}
