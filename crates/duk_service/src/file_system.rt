//! Reads whole files, first lines and first bytes of files, through a trait by which a contract can
//! say what a file holds.

ghost use Rattle.std.specs.Prelude.{◌≡◌, ℕ, List, None, IfOk, IfErr, IfSome};
ghost use Rattle.duk_service.specs.Files.{FileKnown, HasBytes, IsFileRead, IsFileUnread, IsFrontRead, IsFrontUnread, IsLineRead, IsLineUnread, without_return};

use crate::reason::Reason;
use std::alloc::Global;
use std::fs::OpenFile;
use std::io::{ErrorKind, Read};
use std::rt::Files;
use std::{fs, io};

/// Why a file is not read.
#[derive(Clone, Copy, Debug, PartialEq, Eq)]
pub enum FileFault {
    /// It cannot be opened, or a read of it failed. A folder cannot be read.
    CannotRead,
    /// It has more bytes than were asked for.
    TooLong,
    /// Memory was refused.
    NoMemory,
}

/// Files that may make known, for contracts to say, what each holds.
///
/// The files of every runtime are such, and make nothing known: no contract says what a real file
/// holds.
pub trait FileSystem {
    /// What there is under a path, where the files make it known: the bytes of a file, or none that
    /// can be read.
    ghost held: { Self → List ℕ → FileKnown };

    /// All bytes of the file under a path, where they are at most so many.
    fn read_file(&self, alloc: Global, path: &str, most: usize) -> Result<Vec<u8>, FileFault>
        ensures read { IfOk result
            (λ bytes. IsFileRead (held self.now path.now) most bytes.items) }
        ensures refused { IfErr result (IsFileUnread (held self.now path.now) most) };

    /// All bytes of the file under a path, however many; of a pipe or a device, which does not tell
    /// its size before it is read, where they are at most so many.
    fn read_stored(&self, alloc: Global, path: &str, most: usize) -> Result<Vec<u8>, FileFault>
        ensures read { IfOk result (λ bytes. HasBytes (held self.now path.now) bytes.items) }
        ensures refused { IfErr result (IsFileUnread (held self.now path.now) most) };

    /// The first bytes of the file under a path, exactly so many.
    fn read_front(&self, alloc: Global, path: &str, count: usize) -> Result<Vec<u8>, FileFault>
        ensures read { IfOk result
            (λ bytes. IsFrontRead (held self.now path.now) count bytes.items) }
        ensures refused { IfErr result (IsFrontUnread (held self.now path.now) count) };

    /// The first line of the file under a path without its end, LF or CR LF, where it has at most
    /// so many bytes. No more is read than a piece that has the line's end.
    fn read_line(&self, alloc: Global, path: &str, most: usize) -> Result<Vec<u8>, FileFault>
        ensures read { IfOk result
            (λ line. IsLineRead (held self.now path.now) most line.items) }
        ensures refused { IfErr result (IsLineUnread (held self.now path.now) most) };

    /// Why the file under a path cannot be read, as the system tells who asks once more. None where
    /// it can be read, and of a pipe or a device, since to open one may wait.
    fn reading_reason(&self, path: &str) -> Option<Reason>;

    /// All bytes of the file under a path, read once more, where they are at most so many. None where
    /// it cannot be read, and of a pipe, a device or a folder.
    fn read_again(&self, alloc: Global, path: &str, most: usize) -> Option<Vec<u8>>
        ensures { IfSome result (λ bytes. IsFileRead (held self.now path.now) most bytes.items) };
}

impl<R: Files> FileSystem for R {
    ghost held = { λ _ _. None };

    fn read_file(&self, alloc: Global, path: &str, most: usize) -> Result<Vec<u8>, FileFault> {
        match read_sized(self, alloc, path, most as u64, most as u64) {
            Ok(Some(bytes)) if bytes.len() <= most => Ok(bytes),
            Ok(_) => Err(FileFault::TooLong),
            Err(error) if error.kind() == ErrorKind::OutOfMemory => Err(FileFault::NoMemory),
            Err(_) => Err(FileFault::CannotRead),
        }
    }

    fn read_stored(&self, alloc: Global, path: &str, most: usize) -> Result<Vec<u8>, FileFault> {
        match read_sized(self, alloc, path, u64::MAX, most as u64) {
            Ok(Some(bytes)) => Ok(bytes),
            Ok(None) => Err(FileFault::TooLong),
            Err(error) if error.kind() == ErrorKind::OutOfMemory => Err(FileFault::NoMemory),
            Err(_) => Err(FileFault::CannotRead),
        }
    }

    fn read_front(&self, alloc: Global, path: &str, count: usize) -> Result<Vec<u8>, FileFault> {
        match read_at_most(self, alloc, path, count as u64) {
            Ok(bytes) if bytes.len() == count => Ok(bytes),
            Ok(_) => Err(FileFault::CannotRead),
            Err(error) if error.kind() == ErrorKind::OutOfMemory => Err(FileFault::NoMemory),
            Err(_) => Err(FileFault::CannotRead),
        }
    }

    fn read_line(&self, alloc: Global, path: &str, most: usize) -> Result<Vec<u8>, FileFault> {
        match read_first_line(self, alloc, path, (most as u64).saturating_add(2)) {
            Ok(line) if line.len() <= most => Ok(line),
            Ok(_) => Err(FileFault::TooLong),
            Err(error) if error.kind() == ErrorKind::OutOfMemory => Err(FileFault::NoMemory),
            Err(_) => Err(FileFault::CannotRead),
        }
    }

    fn reading_reason(&self, path: &str) -> Option<Reason> {
        match read_byte(self, path) {
            Ok(()) => None,
            Err(error) => Some(reason_of(&error)),
        }
    }

    fn read_again(&self, alloc: Global, path: &str, most: usize) -> Option<Vec<u8>> {
        if is_regular(self, path) {
            self.read_file(alloc, path, most).ok()
        } else {
            None
        }
    }
}

/// The reason that an error tells.
pub(crate) fn reason_of(error: &io::Error) -> Reason {
    match error.kind() {
        ErrorKind::NotFound => Reason::Missing,
        ErrorKind::PermissionDenied => Reason::NoPermission,
        ErrorKind::IsADirectory => Reason::Folder,
        _ => Reason::Other,
    }
}

/// All bytes of a file; none where it has more than so many, or, as a pipe or a device, more than so
/// many others. A file that is too long is not read, and one that is not takes the memory of its
/// bytes, and of one behind them at which its end is seen.
fn read_sized<R: Files>(
    files: &R,
    alloc: Global,
    path: &str,
    most_stored: u64,
    most_others: u64,
) -> io::Result<Option<Vec<u8>>> {
    let file = fs::open(files, path)?;
    let metadata = file.metadata()?;
    let (size, most) = if metadata.is_file() {
        (metadata.len(), most_stored)
    } else {
        (0, most_others)
    };
    if size > most {
        return Ok(None);
    }
    let mut bytes = Vec::new(alloc);
    if size > 0 {
        bytes.reserve_exact((size as usize).saturating_add(1))?;
    }
    file.take(most.saturating_add(1)).read_to_end(&mut bytes)?;
    if bytes.len() as u64 > most {
        return Ok(None);
    }
    Ok(Some(bytes))
}

/// The first bytes of a file, so many at most.
fn read_at_most<R: Files>(files: &R, alloc: Global, path: &str, most: u64) -> io::Result<Vec<u8>> {
    let mut bytes = Vec::new(alloc);
    let mut file = fs::open(files, path)?.take(most);
    file.read_to_end(&mut bytes)?;
    Ok(bytes)
}

/// Whether there is a file under a path that is no pipe, device or folder.
pub(crate) fn is_regular<R: Files>(files: &R, path: &str) -> bool {
    match fs::metadata(files, path) {
        Ok(metadata) => metadata.is_file(),
        Err(_) => false,
    }
}

/// Reads the first byte of a file, where it has one, or of a folder; nothing else is opened.
fn read_byte<R: Files>(files: &R, path: &str) -> io::Result<()> {
    let metadata = fs::metadata(files, path)?;
    if metadata.is_file() || metadata.is_dir() {
        let mut byte = [0];
        let _ = fs::open(files, path)?.read(&mut byte)?;
    }
    Ok(())
}

/// The first line of a file without its end, of which so many bytes are read at most: what is behind
/// them is not waited for.
fn read_first_line<R: Files>(
    files: &R,
    alloc: Global,
    path: &str,
    most: u64,
) -> io::Result<Vec<u8>> {
    let mut line = Vec::new(alloc);
    let mut file = fs::open(files, path)?.take(most);
    let mut piece = [0; 512];
    for _ in 0..most {
        let count = file.read(&mut piece)?;
        let read = &piece[..count];
        if let Some(end) = read.iter().position(|byte| *byte == b'\n') {
            line.extend_from_slice(&read[..end])?;
            strip_return(&mut line);
            return Ok(line);
        }
        line.extend_from_slice(read)?;
        if count == 0 {
            return Ok(line);
        }
    }
    Ok(line)
}

/// Takes the CR from the end of a line that LF ends, where there is one.
pub fn strip_return(line: &mut Vec<u8>)
    ensures { line.new.items ≡ without_return line.old.items }
{
    if line.last() == Some(&b'\r') {
        line.pop();
    }
}
