//! The commands `new-log`, `new-journal` and `new-ledger`.

ghost use Rattle.std.specs.Prelude.{◌≡◌, ◌≤◌, ◌*◌, ℕ, IfErr, IfOk, IfSome, IfNone, OnErr, OnOk, replicate};
ghost use Rattle.duk_service.specs.LogFiles.{IsDisk, IsNoDisk};
ghost use Rattle.duk_service.specs.NewFile.{HasMadeFile, IsBlankMade, IsLeftInPart, IsNewFileRefused, IsRecordCount, IsUnmade, IsWrittenAnew, file_size, format_of, new_file_line};
ghost use Rattle.duk_service.specs.inner.NewFile.{BeginsAs, IsKeptBlank, IsNotKept, IsSizeOf};
ghost use Rattle.duk_store.specs.Disk.{HasFailed};

use crate::left_records::RecordFormat;
use crate::log_files::LogFiles;
use duk_commands::read_decimal;
use duk_journal_copy::{PIECE_LENGTH, begin_file, write_blank, write_journal};
use duk_ledger::LEDGER_KIND;
use duk_store::{Disk, StoreFault};
use std::alloc::{AllocError, Global};

/// What a new file is to be.
#[derive(Clone, Copy, Debug, PartialEq, Eq)]
pub enum NewFile {
    /// A log, which has no identity.
    Log,
    /// A journal.
    Journal {
        /// Its identity, which is drawn at random.
        identity: u64,
    },
    /// A ledger.
    Ledger {
        /// Its identity, which is drawn at random.
        identity: u64,
    },
}

/// The most records of which a log, a journal or a ledger may be made.
const MOST_RECORDS: u32 = 1_000_000_000;

impl NewFile {
    /// What the records of the file are.
    pub fn format(self) -> RecordFormat
        ensures { result ≡ format_of self }
    {
        match self {
            NewFile::Log => RecordFormat::Log,
            NewFile::Journal { .. } => RecordFormat::Journal,
            NewFile::Ledger { .. } => RecordFormat::Ledger,
        }
    }
}

/// Why no log, journal or ledger is made.
#[derive(Clone, Copy, Debug, PartialEq, Eq)]
pub enum NewFileFault {
    /// RECORDS is no number of records of which one may be made.
    RecordsRefused,
    /// The file cannot be made, written or synced, or its folder cannot be synced.
    Unmade,
    /// Memory was refused.
    OutOfMemory,
}

impl From<AllocError> for NewFileFault {
    ghost use Rattle.duk_service.specs.declared.new_file.NewFileFault.TheVariants.{OutOfMemory};

    ghost from_gives = { λ _ fault. fault ≡ OutOfMemory };

    fn from(_refused: AllocError) -> NewFileFault {
        NewFileFault::OutOfMemory
    }
}

impl NewFileFault {
    /// The line of the fault where a file of this format was to be made, LF at its end.
    pub fn line(self, format: RecordFormat) -> &'static str
        ensures { result.now ≡ new_file_line format self }
    {
        match self {
            NewFileFault::RecordsRefused => "records refused\n",
            NewFileFault::Unmade => match format {
                RecordFormat::Log => "log: cannot make\n",
                RecordFormat::Journal => "journal: cannot make\n",
                RecordFormat::Ledger => "ledger: cannot make\n",
            },
            NewFileFault::OutOfMemory => "out of memory\n",
        }
    }
}

/// Makes the file of a log, a journal or a ledger with room for so many numbers, entries or issues as a
/// text says. In front of those of a journal and of a ledger stands a header. Memory is asked for
/// before the file is made.
///
/// The faults, in this order: `records refused`; `out of memory`; `log: cannot make`, `journal: cannot
/// make`, or `ledger: cannot make`. A file that was made and cannot be kept is removed again, if it can
/// be.
pub fn new_file<S: LogFiles>(
    alloc: Global,
    files: &S,
    new: NewFile,
    file: &str,
    records: &str,
) -> Result<(), NewFileFault>
    requires { S.may_make files.now file.now }
    ensures made { OnOk result
        (HasMadeFile new S.Disk.meaning (S.making files.now file.now) records.now) }
    ensures refused { IfErr result
        (IsNewFileRefused new S.Disk.meaning (S.making files.now file.now) records.now) }
{
    let Some(records) = read_records(records) else {
        return Err(NewFileFault::RecordsRefused);
    };
    let size = size_of(new, records);
    let zeros = vec![in alloc; 0; PIECE_LENGTH]?;
    match make_blank(files, new, file, size, zeros.as_slice()) {
        Ok(()) => Ok(()),
        Err(_) => Err(NewFileFault::Unmade),
    }
}

/// How many records a text says: a decimal number of 1 to 1,000,000,000.
pub(crate) fn read_records(text: &str) -> Option<u32>
    ensures found { IfSome result (IsRecordCount text.now) }
    ensures none { IfNone result ((records : ℕ) → ¬ IsRecordCount text.now records) }
{
    let records = read_decimal(text, MOST_RECORDS)?;
    if records == 0 {
        return None;
    }
    Some(records)
}

/// The bytes of a log, a journal or a ledger with room for so many.
fn size_of(new: NewFile, records: u32) -> u64
    ensures { result ≡ file_size new records }
{
    match new {
        NewFile::Log => 16 * u64::from(records),
        NewFile::Journal { .. } | NewFile::Ledger { .. } => 32 * (1 + u64::from(records)),
    }
}

/// Makes a file of so many bytes that keeps nothing, all written and synced, and syncs its folder.
/// Where it cannot be kept it is removed again, if it can be.
fn make_blank<S: LogFiles>(
    files: &S,
    new: NewFile,
    file: &str,
    size: u64,
    zeros: &[u8],
) -> Result<(), StoreFault>
    requires own { S.may_make files.now file.now }
    requires zeros { zeros.now ≡ replicate 65536 0 }
    requires size { IsSizeOf new size }
    ensures made { OnOk result
        (IsBlankMade new S.Disk.meaning (S.making files.now file.now) size) }
    ensures refused { OnErr result
        (IsUnmade S.Disk.meaning (S.making files.now file.now) size (IsLeftInPart new)) }
{
    let mut disk = make_begun(files, new, file, size)?;
    match keep_blank(files, new, file, size, zeros, &mut disk) {
        Ok(()) => Ok(()),
        Err(why) => {
            files.remove_made(file, disk);
            Err(why)
        }
    }
}

/// Makes a file of so many bytes: for a journal or a ledger one that begins as none, for a log one of
/// zeros.
fn make_begun<S: LogFiles>(
    files: &S,
    new: NewFile,
    file: &str,
    size: u64,
) -> Result<S::Disk, StoreFault>
    requires { S.may_make files.now file.now }
    ensures made { IfOk result (IsDisk ((S.making files.now file.now).disk size)) }
    ensures begins { IfOk result (λ disk. BeginsAs new (S.Disk.meaning.state_of disk)) }
    ensures refused { OnErr result (IsNoDisk ((S.making files.now file.now).disk size)) }
{
    match new {
        NewFile::Log => files.make_zeros(file, size),
        NewFile::Journal { .. } | NewFile::Ledger { .. } => files.make_disk(file, size),
    }
}

/// Writes what keeps nothing over all of a disk that was made under a path, syncs it, and then its
/// folder.
fn keep_blank<S: LogFiles>(
    files: &S,
    new: NewFile,
    file: &str,
    size: u64,
    zeros: &[u8],
    disk: &mut S::Disk,
) -> Result<(), StoreFault>
    requires own { S.may_make files.now file.now }
    requires zeros { zeros.now ≡ replicate 65536 0 }
    requires size { IsSizeOf new size }
    requires begins { BeginsAs new (S.Disk.meaning.state_of disk.old) }
    ensures kept { OnOk result (IsKeptBlank new (S.making files.now file.now).folder size
        (S.Disk.meaning.state_of disk.old) (S.Disk.meaning.state_of disk.new)) }
    ensures refused { OnErr result (IsNotKept (S.making files.now file.now).folder size
        (S.Disk.meaning.state_of disk.old) (S.Disk.meaning.state_of disk.new)) }
    ensures left { IsLeftInPart new
        (S.Disk.meaning.state_of disk.old) (S.Disk.meaning.state_of disk.new) }
{
    duk_journal_copy::laws::unfinished();
    duk_journal_copy::laws::unheaded();
    duk_journal_copy::laws::unnumbered();
    duk_journal::laws::headers();
    if disk.size() != size {
        return Err(StoreFault::Device);
    }
    write_anew(new, disk, zeros)?;
    files.sync_folder(file)
}

/// Writes what keeps nothing over all of a disk, and syncs it.
fn write_anew<D: Disk>(new: NewFile, disk: &mut D, zeros: &[u8]) -> Result<(), StoreFault>
    requires zeros { zeros.now ≡ replicate 65536 0 }
    requires size { IsSizeOf new (D.meaning.state_of disk.old).size }
    requires begins { BeginsAs new (D.meaning.state_of disk.old) }
    ensures written { OnOk result
        (IsWrittenAnew new (D.meaning.state_of disk.old) (D.meaning.state_of disk.new)) }
    ensures failed { IfErr result
        (HasFailed (D.meaning.state_of disk.old) (D.meaning.state_of disk.new)) }
    ensures left { IsLeftInPart new (D.meaning.state_of disk.old) (D.meaning.state_of disk.new) }
{
    duk_journal_copy::laws::unheaded();
    duk_journal_copy::laws::unnumbered();
    duk_journal_copy::laws::begun();
    match new {
        NewFile::Log => write_blank(disk, zeros),
        NewFile::Journal { identity } => write_journal(disk, identity, zeros),
        NewFile::Ledger { identity } => begin_file(disk, LEDGER_KIND, identity, zeros),
    }
}
