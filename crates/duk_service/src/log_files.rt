//! Opens the file of a log as a disk, and makes such a file, through a trait by which a contract can
//! say which disk it is.

ghost use Rattle.std.proofs.Common.{rules};
ghost use Rattle.std.specs.Prelude.{ℕ, ⊤, List, None, IfOk, OnErr, OnOk};
ghost use Rattle.duk_io.specs.Sink.{IsHandedOn};
ghost use Rattle.duk_service.specs.FileEnd.{IsEndOf};
ghost use Rattle.duk_service.specs.HostSize.{IsSmall};
ghost use Rattle.duk_service.specs.LogFiles.{AreLinesMade, AreNoLines, BeginsUnfinished, BeginsZero, DiskKnown, IsDisk, IsFolderSynced, IsFolderUnsynced, IsNoDisk, MakingKnown, MayOpen, unknown_making};

use crate::file_end::{FileEnd, RealEnd};
use crate::file_system::{is_regular, reason_of};
use crate::line_file::{LineFile, make_line_file, remove_empty_file};
use crate::new_files::{
    Begin, disk_of_end, make_file, making_reason, open_both, open_file, remove_file, sync_folder_of,
};
use crate::reason::Reason;
use duk_io::Sink;
use duk_store::{Disk, FileDisk, StoreFault};
use std::fs;
use std::fs::{File, OpenOptions, TryLockError};
use std::rt::Files;

/// How a file is opened.
#[derive(Clone, Copy)]
pub enum Access {
    /// To be read alone: each write of its disk fails.
    Read,
    /// To be read and written.
    Write,
}

/// Files each of which may be opened as a disk, to keep a log. They may make known, for contracts to
/// say, which disk that is.
///
/// A file is opened to be written only where `may_write` holds of its path, and made, or removed, only
/// where `may_make` does. So what a caller may do to files is what it requires of the two.
///
/// Their disks may be of any type, and honest as that type says. The files of every runtime are
/// such, and make nothing known: no contract says what a real file holds.
pub trait LogFiles {
    /// The disks over these files.
    type Disk: Disk;

    /// The writers of lines to new files.
    type Lines: Sink + Drop;

    /// The ends of files that are made longer.
    type End: FileEnd;

    /// Which files may be opened to be written.
    ghost may_write: { Self → List ℕ → Type 0 };

    /// Under which paths a file may be made, and removed.
    ghost may_make: { Self → List ℕ → Type 0 };

    /// What there is under a path, where the files make it known: a disk, or none that can be
    /// opened.
    ghost disks: { Self → List ℕ → DiskKnown Self.Disk };

    /// The disk over the file under a path, which is never made, of the size that it has. Refused
    /// with `Device` where it cannot be opened, or is locked.
    fn open_disk(&self, path: &str) -> Result<Self::Disk, StoreFault>
        requires { may_write self.now path.now }
        ensures opened { IfOk result (IsDisk (disks self.now path.now)) }
        ensures refused { OnErr result (IsNoDisk (disks self.now path.now)) };

    /// The same disk, over a file that is opened to be read alone: each write of it fails. Refused
    /// with `Device` where it cannot be opened so, or is locked.
    fn open_to_read(&self, path: &str) -> Result<Self::Disk, StoreFault>
        ensures opened { IfOk result (IsDisk (disks self.now path.now)) }
        ensures refused { OnErr result (IsNoDisk (disks self.now path.now)) };

    /// The same disk over a file that is to be made longer, with the file's end. Both are one open
    /// file, whose lock is held as long as one of them lives. Refused with `Device` where it cannot be
    /// opened to be read and written, or is locked.
    fn open_to_grow(&self, path: &str) -> Result<(Self::Disk, Self::End), StoreFault>
        requires { may_write self.now path.now }
        ensures opened { IfOk result (λ both. IsDisk (disks self.now path.now) both.0) }
        ensures end { IfOk result
            (λ both. IsEndOf (Self.Disk.meaning.state_of both.0) (Self.End.state both.1)) }
        ensures refused { OnErr result (IsNoDisk (disks self.now path.now)) };

    /// The disk over the file of an end, as it is then, with the file's lock.
    fn disk_of(&self, end: Self::End) -> Self::Disk
        ensures { IsEndOf (Self.Disk.meaning.state_of result) (Self.End.state end) };

    /// Why the file under a path cannot be opened so as a disk, as the system tells who asks once
    /// more.
    fn opening_reason(&self, path: &str, access: Access) -> Reason
        requires { MayOpen (may_write self.now path.now) access };

    /// What comes of making a file under a path, where the files make it known.
    ghost making: { Self → List ℕ → MakingKnown Self.Disk };

    /// The disk over a new file of so many bytes under a path, locked. It begins as that of no
    /// journal and no ledger, of whichever version, however soon its writer is stopped.
    ///
    /// Refused with `Device` where no file can be made. One that is there is never opened.
    fn make_disk(&self, path: &str, size: u64) -> Result<Self::Disk, StoreFault>
        requires { may_make self.now path.now }
        ensures made { IfOk result (IsDisk ((making self.now path.now).disk size)) }
        ensures unfinished { IfOk result
            (λ disk. BeginsUnfinished (Self.Disk.meaning.state_of disk)) }
        ensures refused { OnErr result (IsNoDisk ((making self.now path.now).disk size)) };

    /// The same over a new file of zeros, which a log begins with.
    fn make_zeros(&self, path: &str, size: u64) -> Result<Self::Disk, StoreFault>
        requires { may_make self.now path.now }
        ensures made { IfOk result (IsDisk ((making self.now path.now).disk size)) }
        ensures zeros { IfOk result (λ disk. BeginsZero (Self.Disk.meaning.state_of disk)) }
        ensures refused { OnErr result (IsNoDisk ((making self.now path.now).disk size)) };

    /// Syncs the folder of a path, so that a file which was made there is found after a stop.
    ///
    /// Refused with `Device` where it cannot be synced.
    fn sync_folder(&self, path: &str) -> Result<(), StoreFault>
        requires { may_make self.now path.now }
        ensures synced { OnOk result (IsFolderSynced (making self.now path.now).folder) }
        ensures refused { OnErr result (IsFolderUnsynced (making self.now path.now).folder) };

    /// A writer of lines to a new file under a path, whose folder is synced. Each write to it is on
    /// the medium when it ends.
    ///
    /// Refused with `Device` where no file can be made, or its folder cannot be synced. One that is
    /// there is never opened.
    fn make_lines(&self, path: &str) -> Result<Self::Lines, StoreFault>
        requires { may_make self.now path.now }
        ensures made { IfOk result (λ lines.
            AreLinesMade (making self.now path.now).lines (Self.Lines.known lines)) }
        ensures handed_on { IfOk result (λ lines. IsHandedOn (Self.Lines.held_back lines)) }
        ensures refused { OnErr result (AreNoLines (making self.now path.now).lines) };

    /// Ends the writer of lines to a file that was made under a path, and removes the file where it
    /// has no bytes, if it can be removed. That it does rests on being read.
    fn remove_empty(&self, path: &str, lines: Self::Lines)
        requires { may_make self.now path.now };

    /// Removes a file that was made under a path, with the disk over it, if it can be removed. That
    /// it does rests on being read.
    fn remove_made(&self, path: &str, disk: Self::Disk)
        requires { may_make self.now path.now };

    /// Why no file can be made under a path, as the system tells who asks once more.
    fn making_reason(&self, path: &str) -> Reason
        requires { may_make self.now path.now };

    /// Such a disk takes little memory.
    ghost small: { IsSmall Self.Disk.row };
}

impl<R: Files<File = File>> LogFiles for R {
    type Disk = FileDisk;

    type Lines = LineFile;

    type End = RealEnd;

    ghost may_write = { λ _ _. ⊤ };

    ghost may_make = { λ _ _. ⊤ };

    ghost disks = { λ _ _. None };

    ghost making = { λ _ _. unknown_making };

    ghost small = { Prim.search rules };

    fn open_disk(&self, path: &str) -> Result<FileDisk, StoreFault> {
        FileDisk::new(self, path)
    }

    fn open_to_read(&self, path: &str) -> Result<FileDisk, StoreFault> {
        open_file(self, path).map_err(|_| StoreFault::Device)
    }

    fn open_to_grow(&self, path: &str) -> Result<(FileDisk, RealEnd), StoreFault> {
        open_both(self, path).map_err(|_| StoreFault::Device)
    }

    fn disk_of(&self, end: RealEnd) -> FileDisk {
        disk_of_end(end)
    }

    fn make_disk(&self, path: &str, size: u64) -> Result<FileDisk, StoreFault> {
        make_file(self, path, size, Begin::Unfinished).map_err(|_| StoreFault::Device)
    }

    fn make_zeros(&self, path: &str, size: u64) -> Result<FileDisk, StoreFault> {
        make_file(self, path, size, Begin::Zeros).map_err(|_| StoreFault::Device)
    }

    fn sync_folder(&self, path: &str) -> Result<(), StoreFault> {
        sync_folder_of(self, path).map_err(|_| StoreFault::Device)
    }

    fn make_lines(&self, path: &str) -> Result<LineFile, StoreFault> {
        make_line_file(self, path).map_err(|_| StoreFault::Device)
    }

    fn remove_empty(&self, path: &str, _lines: LineFile) {
        remove_empty_file(self, path);
    }

    fn remove_made(&self, path: &str, _disk: FileDisk) {
        remove_file(self, path);
    }

    fn making_reason(&self, path: &str) -> Reason {
        making_reason(self, path)
    }

    fn opening_reason(&self, path: &str, access: Access) -> Reason {
        match access {
            Access::Read => reading_reason(self, path),
            Access::Write => writing_reason(self, path),
        }
    }
}

/// Why a file cannot be opened to be read, and locked. A pipe, which would be waited for, and a device
/// are not opened.
fn reading_reason<R: Files<File = File>>(files: &R, path: &str) -> Reason {
    let metadata = match fs::metadata(files, path) {
        Ok(metadata) => metadata,
        Err(error) => return reason_of(&error),
    };
    if metadata.is_dir() {
        return Reason::Folder;
    }
    if !metadata.is_file() {
        return Reason::Other;
    }
    match File::open(files, path) {
        Ok(file) if is_locked(&file) => Reason::InUse,
        Ok(_) => Reason::Other,
        Err(error) => reason_of(&error),
    }
}

/// Why a file cannot be opened to be read and written, and locked.
fn writing_reason<R: Files<File = File>>(files: &R, path: &str) -> Reason {
    let opened = if is_regular(files, path) {
        File::open(files, path)
    } else {
        OpenOptions::new().read(true).write(true).open(files, path)
    };
    match opened {
        Ok(file) if is_locked(&file) => Reason::InUse,
        Ok(_) => unwritten_reason(files, path),
        Err(error) => reason_of(&error),
    }
}

/// Whether another has locked an open file.
fn is_locked(file: &File) -> bool {
    match file.try_lock() {
        Err(TryLockError::WouldBlock) => true,
        _ => false,
    }
}

/// Why a file that is not locked cannot be written.
fn unwritten_reason<R: Files<File = File>>(files: &R, path: &str) -> Reason {
    match OpenOptions::new().write(true).open(files, path) {
        Ok(_opened) => Reason::Other,
        Err(error) => reason_of(&error),
    }
}
