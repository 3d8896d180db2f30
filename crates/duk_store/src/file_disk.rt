//! A disk over a file.

ghost use Rattle.std.specs.Prelude.{◌≡◌, ⊤, IfErr, IfOk};
ghost use Rattle.duk_store.specs.DiskDevice.{new_disk_device};
ghost use Rattle.duk_store.specs.Medium.{unknown_medium};

use crate::fault::StoreFault;
use crate::file_medium::FileMedium;
use crate::medium_disk::MediumDisk;
use crate::open_file::OpenFile;
use crate::read_ahead::ReadAhead;
use std::fs::{File, OpenOptions};
use std::io;
use std::os::unix::fs::FileExt;
use std::rt::Files;

/// No contract says what a real file holds, so these four bodies rest on being read: each makes one
/// call on the open file. That of a read or a write loops until the whole range is read or written.
impl OpenFile for File {
    ghost state = { λ _. unknown_medium };

    ghost has_length = { λ _ _. ⊤ };

    ghost reads_may_stay = { λ _ honest. honest };

    ghost leaves_its_size = { λ _ honest bytes could. absurd honest };

    fn read_range(&mut self, at: u64, bytes: &mut [u8]) -> io::Result<()> {
        self.read_exact_at(bytes, at)
    }

    fn write_range(&mut self, at: u64, bytes: &[u8]) -> io::Result<()> {
        self.write_all_at(bytes, at)
    }

    fn sync_writes(&mut self) -> io::Result<()> {
        self.sync_data()
    }

    fn length(&self) -> io::Result<u64> {
        Ok(self.metadata()?.len())
    }
}

/// A disk over a file, which is open and locked as long as the disk lives, and whose bytes are read
/// ahead. Its restart goes on with the open file. So once a write or a sync of the file has failed,
/// each later step fails, until the file is opened anew.
///
/// By definition it is not honest: a `File` reports no bytes. So no clause on the bytes of a disk,
/// or on what a store over it keeps, speaks of this type. Those clauses hold of every type of disk
/// that keeps to the model. That a file acts as such a disk is believed outside the logic: of the
/// operating system and the hardware, and of the opening and the four bodies of `OpenFile` for
/// `File`, which rest on being read.
pub type FileDisk = MediumDisk<FileMedium<ReadAhead<File>>>;

impl MediumDisk<FileMedium<ReadAhead<File>>> {
    /// A disk over the file under a path, of the size that the file has now. The file is opened for
    /// reading and writing and never made.
    ///
    /// The file is locked against every other open of it that asks for the lock, until the disk is
    /// dropped or its process ends.
    ///
    /// Refused with `Device` where it cannot be opened or locked, for whatever cause, and at once
    /// where another open of it holds the lock.
    pub fn new<R: Files<File = File>>(rt: &R, path: &str) -> Result<FileDisk, StoreFault>
        ensures disk { IfOk result (λ disk. disk.device ≡ new_disk_device) }
        ensures refused { IfErr result (λ fault. fault ≡ StoreFault.Device) }
    {
        let Ok((file, size)) = open_locked(rt, path) else {
            return Err(StoreFault::Device);
        };
        let ahead = ReadAhead::over(file, size);
        Ok(MediumDisk::over(FileMedium::over(ahead, size), size))
    }
}

/// An open file that this process alone has locked, and its size. This rests on being read.
fn open_locked<R: Files<File = File>>(rt: &R, path: &str) -> io::Result<(File, u64)> {
    let file = OpenOptions::new().read(true).write(true).open(rt, path)?;
    file.try_lock()?;
    let size = file.length()?;
    Ok((file, size))
}
