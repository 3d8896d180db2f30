//! Opens and makes real files, and syncs their folders.
//!
//! No contract says what a real file holds, so these bodies rest on being read.

ghost use Rattle.std.specs.Prelude.{◌≡◌, IfOk};

use crate::file_end::RealEnd;
use crate::file_system::is_regular;
use crate::reason::Reason;
use duk_store::{FileDisk, FileMedium, MediumDisk, ReadAhead};
use std::fs::{File, OpenOptions};
use std::io::ErrorKind;
use std::os::unix::fs::{FileExt, OpenOptionsExt};
use std::path::Path;
use std::rt::Files;
use std::{fs, io};

/// A disk over the file under a path, which is opened to be read alone, and which this process alone
/// has locked. A pipe, which would be waited for, a device and a folder are not opened.
pub(crate) fn open_file<R: Files<File = File>>(files: &R, path: &str) -> io::Result<FileDisk> {
    if !is_regular(files, path) {
        return Err(io::Error::from(ErrorKind::InvalidInput));
    }
    let file = File::open(files, path)?;
    file.try_lock()?;
    let size = file.metadata()?.len();
    Ok(disk_over(file, size))
}

/// A disk over the file under a path, and the file's end, which are one open file: it is opened to be
/// read and written, and this process alone has locked it. A pipe, which would be waited for, a device
/// and a folder are not opened.
pub(crate) fn open_both<R: Files<File = File>>(
    files: &R,
    path: &str,
) -> io::Result<(FileDisk, RealEnd)> {
    if !is_regular(files, path) {
        return Err(io::Error::from(ErrorKind::InvalidInput));
    }
    let file = OpenOptions::new().read(true).write(true).open(files, path)?;
    file.try_lock()?;
    let size = file.metadata()?.len();
    let read = file.try_clone()?;
    Ok((disk_over(read, size), RealEnd { file, size }))
}

/// The disk over the file of an end. Where the file does not tell how many bytes it has, the disk has
/// none.
pub(crate) fn disk_of_end(end: RealEnd) -> FileDisk {
    let size = match end.file.metadata() {
        Ok(metadata) => metadata.len(),
        Err(_) => 0,
    };
    disk_over(end.file, size)
}

/// A disk over an open file of so many bytes.
fn disk_over(file: File, size: u64) -> FileDisk {
    let ahead = ReadAhead::over(file, size);
    MediumDisk::over(FileMedium::over(ahead, size), size)
}

/// How the bytes of a new file begin.
#[derive(Clone, Copy)]
pub(crate) enum Begin {
    /// As those of no journal, no ledger and no log.
    Unfinished,
    /// With zeros, as all of them are: a log that keeps nothing.
    Zeros,
}

/// A disk over a new file of so many bytes, which this process alone has locked. Where a file is
/// there already it stays as it is.
pub(crate) fn make_file<R: Files<File = File>>(
    files: &R,
    path: &str,
    size: u64,
    begin: Begin,
) -> io::Result<FileDisk> {
    let file = open_new(files, path)?;
    match lock_sized(&file, size, begin) {
        Ok(()) => Ok(disk_over(file, size)),
        Err(error) => {
            remove_file(files, path);
            Err(error)
        }
    }
}

/// A file under a path where there is none, not even a link. Its owner alone may read and write it:
/// a journal has amounts and MACs.
pub(crate) fn open_new<R: Files<File = File>>(files: &R, path: &str) -> io::Result<File> {
    OpenOptions::new()
        .read(true)
        .write(true)
        .create_new(true)
        .mode(0o600)
        .open(files, path)
}

/// The first bytes of an unfinished file. The first of them opens a record, and the 16th is that of a
/// header, where the record of a log has a zero behind its number: a file that begins so is no journal
/// (`duk_journal_copy::laws::unfinished`), has no header (`unheaded`), and is no log (`unnumbered`).
/// The last of them makes them one more than a record of a log, so that a file of these alone has no
/// whole records.
const UNFINISHED: [u8; 17] = [1, 0, 0, 0, 0, 0, 0, 0, 0, 0, 0, 0, 0, 0, 0, 32, 0];

/// Locks a new file, and gives it so many bytes, which are synced. The first bytes of an unfinished one
/// are written at once, and are on the medium before there are more, which are zeros. So it is no file
/// of ours, however soon its writer is stopped.
fn lock_sized(file: &File, size: u64, begin: Begin) -> io::Result<()> {
    file.try_lock()?;
    if let Begin::Unfinished = begin {
        file.write_all_at(&UNFINISHED, 0)?;
        file.sync_data()?;
    }
    file.set_len(size)?;
    file.sync_data()
}

/// Syncs the folder that a path is in.
pub(crate) fn sync_folder_of<R: Files<File = File>>(files: &R, path: &str) -> io::Result<()> {
    let path = Path::new(path);
    let folder = match path.parent() {
        Some(folder) => folder.as_os_str(),
        None => "",
    };
    let name = if folder.is_empty() { "." } else { folder };
    File::open(files, name)?.sync_all()
}

/// Removes a file, if it can be removed.
pub(crate) fn remove_file<R: Files>(files: &R, path: &str) {
    let _ = fs::remove_file(files, path);
}

/// Why no file is made under a path, as the system tells who makes one once more, which is removed
/// again.
pub(crate) fn making_reason<R: Files<File = File>>(files: &R, path: &str) -> Reason {
    match open_new(files, path) {
        Ok(_made) => {
            remove_file(files, path);
            Reason::Other
        }
        Err(error) => match error.kind() {
            ErrorKind::AlreadyExists => Reason::There,
            ErrorKind::NotFound | ErrorKind::NotADirectory => Reason::NoFolder,
            ErrorKind::PermissionDenied => Reason::NoPermission,
            _ => Reason::Other,
        },
    }
}
