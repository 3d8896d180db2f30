//! The bytes of a file that were read ahead.

ghost use Rattle.std.specs.Prelude.{◌≡◌, ◌≤◌, length, IsTrue};
ghost use Rattle.duk_store.specs.Disk.{PreservesBytes, PreservesDisk};
ghost use Rattle.duk_store.specs.Medium.{IsInside, as_disk};
ghost use Rattle.duk_store.specs.inner.Window.{Agrees, Gives, new_window};

use crate::open_file::OpenFile;
use std::marker::Model;

/// How many bytes a window takes at most.
pub const WINDOW_LENGTH: usize = 4096;

/// Bytes of a file that were read ahead, from a place on.
#[derive(Drop)]
pub struct Window {
    start: u64,
    filled: usize,
    room: [u8; WINDOW_LENGTH],
}

impl Model for Window {
    ghost use Rattle.std.specs.Prelude.{◌≤◌, take};
    ghost use Rattle.duk_store.specs.inner.Window.{WindowOf};

    ghost Value = { WindowOf };

    ghost view = { λ window. record {
      start = window.start;
      bytes = take window.filled window.room;
    } };

    ghost invariant = { λ window. window.filled ≤ 4096 };
}

impl Window {
    /// A window without a byte.
    pub fn new() -> Self
        ensures { result ≡ new_window }
    {
        Window {
            start: 0,
            filled: 0,
            room: [0; WINDOW_LENGTH],
        }
    }

    /// Gives the bytes of the file from a place on, all of `bytes`, where the window has them.
    pub fn give(&self, at: u64, bytes: &mut [u8]) -> bool
        ensures given { IsTrue result → Gives at bytes.new self.now }
        ensures length { length bytes.new ≡ length bytes.old }
    {
        let Some(from) = at.checked_sub(self.start) else {
            return false;
        };
        if from > self.filled as u64 || bytes.len() > self.filled - from as usize {
            return false;
        }
        let from = from as usize;
        bytes.copy_from_slice(&self.room[from..from + bytes.len()]);
        true
    }

    /// Reads so many bytes of a file from a place on. Where they cannot be read it is empty.
    pub fn fill<F: OpenFile>(&mut self, file: &mut F, at: u64, count: usize)
        requires inside { IsInside (F.state file.old) at count }
        requires sound { ¬ (F.state file.old).failed }
        requires fits { count ≤ 4096 }
        ensures nature { PreservesDisk (as_disk (F.state file.old)) (as_disk (F.state file.new)) }
        ensures bytes { PreservesBytes (as_disk (F.state file.old)) (as_disk (F.state file.new)) }
        ensures stays_sound { ¬ (F.state file.new).failed }
        ensures agrees { Agrees (F.state file.new) self.new }
    {
        self.start = 0;
        self.filled = 0;
        if file.read_range(at, &mut self.room[..count]).is_ok() {
            self.start = at;
            self.filled = count;
        }
    }
}
