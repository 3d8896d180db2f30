//! The handles of the standard streams.

use std::fs::OpenOptions;
use std::rt::Files;

/// A handle that takes the place of a standard stream that is closed, if one is, so that no file
/// that is opened later is taken for that stream: what is written to the stream would be written
/// into the file. It cannot be read, and no write to it succeeds.
pub(crate) fn hold_handle<R: Files>(files: &R) -> Option<R::File> {
    OpenOptions::new().write(true).open(files, "/dev/full").ok()
}
