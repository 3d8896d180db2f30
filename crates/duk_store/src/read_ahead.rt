//! An open file whose bytes are read ahead.

ghost use Rattle.std.specs.Prelude.{◌≡◌, length, OnErr, OnOk};
ghost use Rattle.duk_store.specs.Disk.{DiffersWithin, IsSynced, PreservesBytes, PreservesDisk, LeavesChanged, LeavesWithin, range_of, written};
ghost use Rattle.duk_store.specs.Medium.{IsInside, IsSizeOf, as_disk};
ghost use Rattle.duk_store.specs.ReadAhead.{new_read_ahead, read_ahead_state};

use crate::open_file::OpenFile;
use crate::window::{WINDOW_LENGTH, Window};
use std::io;
use std::marker::Model;

/// An open file whose bytes are read ahead: a short read also takes the bytes behind it, which are
/// given to the reads that follow, and one call of the file serves many.
///
/// Nothing is kept over a write or a sync. Where the bytes ahead cannot be read, those that were
/// asked for are read alone.
#[derive(Drop)]
pub struct ReadAhead<F: OpenFile> {
    file: F,
    size: u64,
    window: Window,
}

impl<F: OpenFile> Model for ReadAhead<F> {
    ghost use Rattle.duk_store.specs.ReadAhead.{ReadAheadOf};
    ghost use Rattle.duk_store.specs.inner.ReadAhead.{IsAhead};

    ghost Value = { ReadAheadOf F };

    ghost view = { λ ahead. record { file = ahead.file; size = ahead.size } };

    ghost invariant = { λ ahead. IsAhead (F.state ahead.file) ahead.size ahead.window };
}

impl<F: OpenFile> ReadAhead<F> {
    /// An open file that has so many bytes.
    pub fn over(file: F, size: u64) -> Self
        requires { IsSizeOf size (F.state file) }
        ensures { result ≡ new_read_ahead file size }
    {
        ReadAhead {
            file,
            size,
            window: Window::new(),
        }
    }

    /// Reads as many bytes from a place on as the window takes, or as the file has. Where they
    /// cannot be read the window is empty.
    fn look_ahead(&mut self, at: u64)
        requires inside { IsInside (F.state self.old.file) at 0 }
        requires sound { ¬ (F.state self.old.file).failed }
        ensures size { self.new.size ≡ self.old.size }
        ensures nature { PreservesDisk (as_disk (F.state self.old.file))
            (as_disk (F.state self.new.file)) }
        ensures bytes { PreservesBytes (as_disk (F.state self.old.file))
            (as_disk (F.state self.new.file)) }
        ensures stays_sound { ¬ (F.state self.new.file).failed }
    {
        let left = self.size.saturating_sub(at);
        let count = left.min(WINDOW_LENGTH as u64) as usize;
        self.window.fill(&mut self.file, at, count);
    }
}

impl<F: OpenFile> OpenFile for ReadAhead<F> {
    ghost state = { read_ahead_state F.state };

    ghost has_length = { λ ahead. F.has_length ahead.file };

    ghost reads_may_stay = { λ ahead. F.reads_may_stay ahead.file };

    ghost leaves_its_size = { λ ahead. F.leaves_its_size ahead.file };

    fn read_range(&mut self, at: u64, bytes: &mut [u8]) -> io::Result<()> {
        if self.window.give(at, bytes) {
            return Ok(());
        }
        if bytes.len() < WINDOW_LENGTH {
            self.look_ahead(at);
            if self.window.give(at, bytes) {
                return Ok(());
            }
        }
        self.file.read_range(at, bytes)
    }

    fn write_range(&mut self, at: u64, bytes: &[u8]) -> io::Result<()> {
        self.window = Window::new();
        self.file.write_range(at, bytes)
    }

    fn sync_writes(&mut self) -> io::Result<()> {
        self.window = Window::new();
        self.file.sync_writes()
    }

    fn length(&self) -> io::Result<u64> {
        self.file.length()
    }
}
