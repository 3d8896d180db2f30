//! A new file of lines, each of which is kept before the next is begun.
//!
//! No contract says what a real file holds, so these bodies rest on being read.

use crate::new_files::{open_new, remove_file, sync_folder_of};
use std::fs::File;
use std::io::Write;
use std::rt::Files;
use std::{fs, io};

/// A writer to a new file. A write ends when the medium has what it wrote.
#[derive(Drop)]
pub struct LineFile {
    file: File,
}

impl Write for LineFile {
    fn write(&mut self, bytes: &[u8]) -> io::Result<usize> {
        let count = self.file.write(bytes)?;
        self.file.sync_data()?;
        Ok(count)
    }

    fn flush(&mut self) -> io::Result<()> {
        Ok(())
    }
}

/// A writer to a new file under a path, its owner's alone, whose folder is synced. Where a file is
/// there already it stays as it is.
pub(crate) fn make_line_file<R: Files<File = File>>(files: &R, path: &str) -> io::Result<LineFile> {
    let file = open_new(files, path)?;
    match sync_folder_of(files, path) {
        Ok(()) => Ok(LineFile { file }),
        Err(error) => {
            remove_file(files, path);
            Err(error)
        }
    }
}

/// Removes the file under a path, if it can be removed, where it is one without bytes.
pub(crate) fn remove_empty_file<R: Files>(files: &R, path: &str) {
    if let Ok(metadata) = fs::metadata(files, path) {
        if metadata.is_file() && metadata.len() == 0 {
            remove_file(files, path);
        }
    }
}
