//! Files with new ones of which it is counted how much is written.

ghost use Rattle.std.proofs.Common.{rules};
ghost use Rattle.std.specs.Prelude.{◌≡◌, ◌<◌, ⊤, None};
ghost use Rattle.duk_service.specs.LogFiles.{unknown_making};

use crate::progress::counted::Counted;
use crate::progress::counting::Counting;
use crate::progress::telling::{Errors, Telling};
use crate::progress::watched_disk::WatchedDisk;
use crate::progress::written::Written;
use duk_program::{FileFault, FileSystem, LogFiles, Reason};
use duk_service::{Access, RealEnd};
use duk_store::{FileDisk, StoreFault};
use std::alloc::Global;
use std::fs::File;
use std::rt::Files;

/// The bytes of a record of a log.
const LOG_RECORD: u64 = 16;

/// The bytes of a record of a journal or a ledger.
const JOURNAL_RECORD: u64 = 32;

/// The files of a runtime, which make nothing known. Of a new one the lines or the records are
/// counted that are written to it, where they are.
#[derive(Drop)]
pub(crate) struct Watched<'a, R> {
    files: &'a R,
    counting: Counting,
    telling: Telling,
}

impl<'a, R: Files<File = File>> Watched<'a, R> {
    /// The files of a runtime, of which this is counted, and told so.
    pub(crate) fn over(files: &'a R, counting: Counting, telling: Telling) -> Self {
        Watched {
            files,
            counting,
            telling,
        }
    }

    /// A disk over a new file of so many bytes, in records of this length.
    fn watch(&self, disk: FileDisk, size: u64, length: u64) -> WatchedDisk<FileDisk, Errors>
        requires { 0 < length }
        ensures { result.disk ≡ disk }
    {
        if self.counting.records() {
            let written = Written::new(length, size, self.telling.errors());
            WatchedDisk::over(disk, Some(written))
        } else {
            WatchedDisk::over(disk, None)
        }
    }
}

impl<R: Files<File = File>> FileSystem for Watched<'_, R> {
    ghost held = { λ _ _. None };

    fn read_file(&self, alloc: Global, path: &str, most: usize) -> Result<Vec<u8>, FileFault> {
        self.files.read_file(alloc, path, most)
    }

    fn read_stored(&self, alloc: Global, path: &str, most: usize) -> Result<Vec<u8>, FileFault> {
        self.files.read_stored(alloc, path, most)
    }

    fn read_front(&self, alloc: Global, path: &str, count: usize) -> Result<Vec<u8>, FileFault> {
        self.files.read_front(alloc, path, count)
    }

    fn read_line(&self, alloc: Global, path: &str, most: usize) -> Result<Vec<u8>, FileFault> {
        self.files.read_line(alloc, path, most)
    }

    fn reading_reason(&self, path: &str) -> Option<Reason> {
        self.files.reading_reason(path)
    }

    fn read_again(&self, alloc: Global, path: &str, most: usize) -> Option<Vec<u8>> {
        self.files.read_again(alloc, path, most)
    }
}

impl<R: Files<File = File>> LogFiles for Watched<'_, R> {
    type Disk = WatchedDisk<FileDisk, Errors>;

    type Lines = Counted<<R as LogFiles>::Lines, Errors>;

    type End = RealEnd;

    ghost may_write = { λ _ _. ⊤ };

    ghost may_make = { λ _ _. ⊤ };

    ghost disks = { λ _ _. None };

    ghost making = { λ _ _. unknown_making };

    ghost small = { Prim.search rules };

    fn open_disk(&self, path: &str) -> Result<Self::Disk, StoreFault> {
        match self.files.open_disk(path) {
            Ok(disk) => Ok(WatchedDisk::over(disk, None)),
            Err(why) => Err(why),
        }
    }

    fn open_to_read(&self, path: &str) -> Result<Self::Disk, StoreFault> {
        match self.files.open_to_read(path) {
            Ok(disk) => Ok(WatchedDisk::over(disk, None)),
            Err(why) => Err(why),
        }
    }

    fn open_to_grow(&self, path: &str) -> Result<(Self::Disk, RealEnd), StoreFault> {
        match self.files.open_to_grow(path) {
            Ok((disk, end)) => Ok((WatchedDisk::over(disk, None), end)),
            Err(why) => Err(why),
        }
    }

    fn disk_of(&self, end: RealEnd) -> Self::Disk {
        WatchedDisk::over(self.files.disk_of(end), None)
    }

    fn make_disk(&self, path: &str, size: u64) -> Result<Self::Disk, StoreFault> {
        match self.files.make_disk(path, size) {
            Ok(disk) => Ok(self.watch(disk, size, JOURNAL_RECORD)),
            Err(why) => Err(why),
        }
    }

    fn make_zeros(&self, path: &str, size: u64) -> Result<Self::Disk, StoreFault> {
        match self.files.make_zeros(path, size) {
            Ok(disk) => Ok(self.watch(disk, size, LOG_RECORD)),
            Err(why) => Err(why),
        }
    }

    fn sync_folder(&self, path: &str) -> Result<(), StoreFault> {
        self.files.sync_folder(path)
    }

    fn make_lines(&self, path: &str) -> Result<Self::Lines, StoreFault> {
        match self.files.make_lines(path) {
            Ok(lines) => {
                let pace = self.counting.lines_written();
                Ok(Counted::over(lines, pace, self.telling.errors()))
            }
            Err(why) => Err(why),
        }
    }

    fn remove_empty(&self, path: &str, lines: Self::Lines) {
        self.files.remove_empty(path, lines.into_stream());
    }

    fn remove_made(&self, path: &str, disk: Self::Disk) {
        self.files.remove_made(path, disk.into_disk());
    }

    fn making_reason(&self, path: &str) -> Reason {
        self.files.making_reason(path)
    }

    fn opening_reason(&self, path: &str, access: Access) -> Reason {
        self.files.opening_reason(path, access)
    }
}
