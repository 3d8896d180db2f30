//! A disk in memory whose calls are compared with a list.

ghost use Rattle.std.specs.Prelude.{◌≡◌, refl};
ghost use Rattle.duk_store.specs.MemoryDisk.{MemoryDisk, memory_disk_meaning};

use duk_store::{Disk, MemDisk, StoreFault};
use std::alloc::Global;
use std::cell::Cell;
use std::marker::Model;

/// A call of a disk, with the place and the number of the bytes that it reads or writes.
#[derive(Clone, Copy, Debug, PartialEq, Eq)]
pub enum Call {
    Restart,
    Read(u64, usize),
    Write(u64, usize),
    Sync,
}

/// How many calls came to a disk, and which of them was the first that is another one than in the
/// list.
#[derive(Clone, Copy, Debug, PartialEq, Eq)]
pub struct Seen {
    pub count: usize,
    pub other: Option<usize>,
}

impl Seen {
    /// No call came yet.
    pub const NONE: Seen = Seen {
        count: 0,
        other: None,
    };

    /// All calls of a list came, and no other.
    pub fn all(list: &[Call]) -> Seen {
        Seen {
            count: list.len(),
            other: None,
        }
    }

    /// What was seen once one more call came.
    fn with(self, call: Call, list: &[Call]) -> Seen {
        let is_next = list.get(self.count) == Some(&call);
        Seen {
            count: self.count.saturating_add(1),
            other: match self.other {
                None if !is_next => Some(self.count),
                other => other,
            },
        }
    }
}

/// A disk in memory, and the calls that are to come to it. It means what the disk means.
#[derive(Drop)]
pub struct RecordingDisk<'a> {
    disk: MemDisk,
    list: &'a [Call],
    seen: &'a Cell<Seen>,
}

impl<'a> Model for RecordingDisk<'a> {
    ghost Value = { MemoryDisk };

    ghost view = { λ recording. recording.disk };
}

impl<'a> RecordingDisk<'a> {
    /// A new disk of so many bytes to which the calls of this list are to come. What comes is
    /// reported in `seen`.
    pub fn new(
        alloc: Global,
        size: usize,
        list: &'a [Call],
        seen: &'a Cell<Seen>,
    ) -> Result<Self, StoreFault> {
        let disk = MemDisk::new(alloc, size)?;
        Ok(RecordingDisk { disk, list, seen })
    }

    /// Records a call.
    fn record(&self, call: Call) {
        self.seen.set(self.seen.get().with(call, self.list));
    }
}

impl Disk for RecordingDisk<'_> {
    ghost meaning = { memory_disk_meaning };

    ghost reads_may_stay = { λ disk honest. record {
      same_length = refl;
      as_synced = honest.reads_synced;
    } };

    ghost leaves_its_size = { λ disk honest bytes could. could.same_length };

    fn size(&self) -> u64 {
        self.disk.size()
    }

    fn read_at(&mut self, at: u64, bytes: &mut [u8]) -> Result<(), StoreFault> {
        self.record(Call::Read(at, bytes.len()));
        self.disk.read_at(at, bytes)
    }

    fn write_at(&mut self, at: u64, bytes: &[u8]) -> Result<(), StoreFault> {
        self.record(Call::Write(at, bytes.len()));
        self.disk.write_at(at, bytes)
    }

    fn sync(&mut self) -> Result<(), StoreFault> {
        self.record(Call::Sync);
        self.disk.sync()
    }

    fn restart(&mut self) -> Result<(), StoreFault> {
        self.record(Call::Restart);
        self.disk.restart()
    }

    fn arm(&mut self, steps: u32) {
        self.disk.arm(steps);
    }
}
