//! Disks over a medium: what they give back, and where they fail.

ghost use Rattle.std.specs.Prelude.{◌≡◌, ◌+◌, ◌≤◌, ⊤, length, IfOk, refl};
ghost use Rattle.duk_store.specs.Medium.{unknown_medium};
ghost use Rattle.duk_store.specs.MemoryDisk.{CouldLeave, IsHonestDisk, MemoryDisk};

use duk_store::{Disk, FileMedium, Medium, MediumDisk, MemDisk, OpenFile, StoreFault};
use std::alloc::Global;
use std::io;
use std::marker::Model;
use std::test::Fail;

/// A file of eight bytes in memory, which reports nothing of itself. It forgets that a call failed.
#[derive(Drop)]
struct SmallFile {
    held: [u8; 8],
    /// How many calls pass before one fails.
    passes: u8,
    /// The length that it reports.
    length: u64,
    /// The length that it reports once something was written.
    written_length: u64,
}

/// Why a call fails.
fn refusal() -> io::Error {
    io::Error::from(io::ErrorKind::Other)
}

impl SmallFile {
    /// Where a range of so many bytes begins, if it is inside the eight and this call passes.
    fn start(&mut self, at: u64, count: usize) -> io::Result<usize>
        ensures { IfOk result (λ start. start + count ≤ 8) }
    {
        let is_due = self.passes == 0;
        self.passes = self.passes.wrapping_sub(1);
        if is_due || at > 8 || count > 8 - at as usize {
            return Err(refusal());
        }
        Ok(at as usize)
    }
}

impl OpenFile for SmallFile {
    ghost state = { λ _. unknown_medium };

    ghost has_length = { λ _ _. ⊤ };

    ghost reads_may_stay = { λ _ honest. honest };

    ghost leaves_its_size = { λ _ honest bytes could. absurd honest };

    fn read_range(&mut self, at: u64, bytes: &mut [u8]) -> io::Result<()> {
        let start = self.start(at, bytes.len())?;
        bytes.copy_from_slice(&self.held[start..start + bytes.len()]);
        Ok(())
    }

    fn write_range(&mut self, at: u64, bytes: &[u8]) -> io::Result<()> {
        let start = self.start(at, bytes.len())?;
        self.held[start..start + bytes.len()].copy_from_slice(bytes);
        self.length = self.written_length;
        Ok(())
    }

    fn sync_writes(&mut self) -> io::Result<()> {
        self.start(0, 0)?;
        Ok(())
    }

    fn length(&self) -> io::Result<u64> {
        Ok(self.length)
    }
}

/// Writes three bytes into a disk of eight.
fn write<M: Medium>(disk: &mut MediumDisk<M>) -> bool {
    disk.size() == 8 && disk.write_at(2, &[1, 2, 3]).is_ok()
}

/// Whether a disk of eight bytes holds what `write` writes into zeros.
fn holds_all<M: Medium>(disk: &mut MediumDisk<M>) -> bool {
    let mut bytes = [0; 8];
    disk.size() == 8 && disk.read_at(0, &mut bytes).is_ok() && bytes == [0, 0, 1, 2, 3, 0, 0, 0]
}

/// Which of a write, a sync and a read that gives what was written pass, in turn.
fn passing<M: Medium>(disk: &mut MediumDisk<M>) -> [bool; 3] {
    let writes = write(disk);
    let syncs = disk.sync().is_ok();
    [writes, syncs, holds_all(disk)]
}

/// What passes over a file, where the disk is armed with so many steps; and what passes after a
/// restart.
fn passing_twice(file: SmallFile, steps: u32) -> [[bool; 3]; 2] {
    let mut disk = MediumDisk::over(FileMedium::over(file, 8), 8);
    disk.arm(steps);
    let first = passing(&mut disk);
    let _ = disk.restart();
    [first, passing(&mut disk)]
}

/// What passes over a file whose call after so many fails.
fn passing_over(passes: u8, steps: u32) -> [[bool; 3]; 2] {
    let file = SmallFile {
        held: [0; 8],
        passes,
        length: 8,
        written_length: 8,
    };
    passing_twice(file, steps)
}

/// What passes over a file of these lengths, before it is written and after that.
fn passing_at(length: u64, written_length: u64) -> [[bool; 3]; 2] {
    let file = SmallFile {
        held: [0; 8],
        passes: 99,
        length,
        written_length,
    };
    passing_twice(file, 99)
}

const ALL: [bool; 3] = [true; 3];

const NONE: [bool; 3] = [false; 3];

/// Each step reads, writes or syncs the file once, and one that fails is reported. Once a write or
/// a sync has failed, no step passes, also after a restart. An armed disk fails from some step on
/// until its restart, and such a step does not come to the file: what it did not write is not
/// there.
#[test]
fn failing_files(rt: HostRuntime) {
    for (passes, steps, first, second) in [
        (99, 99, ALL, ALL),
        (0, 99, NONE, NONE),
        (1, 99, [true, false, false], NONE),
        (2, 99, [true, true, false], ALL),
        (3, 99, ALL, NONE),
        (99, 0, NONE, ALL),
        (99, 1, [true, false, false], ALL),
        (99, 2, [true, true, false], ALL),
        (1, 1, [true, false, false], NONE),
    ] {
        assert_eq!(rt; passing_over(passes, steps), [first, second]);
    }
}

/// A write fails before it where the file has another length than when it was opened, also where it
/// would give it that length again; so does a sync after it. Then all fails.
#[test]
fn files_of_another_length(rt: HostRuntime) {
    for (length, written_length, first) in [
        (7, 8, NONE),
        (9, 8, NONE),
        (8, 7, [true, false, false]),
        (8, 9, [true, false, false]),
    ] {
        assert_eq!(rt; passing_at(length, written_length), [first, NONE]);
    }
}

/// A disk in memory as a file that reports its bytes: what is asked of an honest one can be had.
#[derive(Drop)]
struct ReportedFile {
    disk: MemDisk,
}

impl Model for ReportedFile {
    ghost Value = { MemoryDisk };

    ghost view = { λ file. file.disk };
}

impl OpenFile for ReportedFile {
    ghost state = { λ disk. record {
      honest = IsHonestDisk disk;
      calm = ⊥;
      failed = ⊥;
      reads = disk.reads;
      may_leave = CouldLeave disk;
    } };

    ghost has_length = { λ disk reported. reported ≡ length disk.reads };

    ghost reads_may_stay = { λ disk honest. record {
      same_length = refl;
      as_synced = honest.reads_synced;
    } };

    ghost leaves_its_size = { λ disk honest bytes could. could.same_length };

    fn read_range(&mut self, at: u64, bytes: &mut [u8]) -> io::Result<()> {
        let size = self.disk.size();
        if at > size || bytes.len() as u64 > size - at {
            return Err(refusal());
        }
        match self.disk.read_at(at, bytes) {
            Ok(()) => Ok(()),
            Err(_) => Err(refusal()),
        }
    }

    fn write_range(&mut self, at: u64, bytes: &[u8]) -> io::Result<()> {
        let size = self.disk.size();
        if at > size || bytes.len() as u64 > size - at {
            return Err(refusal());
        }
        match self.disk.write_at(at, bytes) {
            Ok(()) => Ok(()),
            Err(_) => Err(refusal()),
        }
    }

    fn sync_writes(&mut self) -> io::Result<()> {
        match self.disk.sync() {
            Ok(()) => Ok(()),
            Err(_) => Err(refusal()),
        }
    }

    fn length(&self) -> io::Result<u64> {
        Ok(self.disk.size())
    }
}

/// What passes over such a file.
fn of_reported_file(alloc: Global) -> Result<[bool; 3], StoreFault> {
    let disk = MemDisk::new(alloc, 8)?;
    let size = disk.size();
    let medium = FileMedium::over(ReportedFile { disk }, size);
    Ok(passing(&mut MediumDisk::over(medium, size)))
}

#[test]
fn a_file_that_reports_its_bytes(rt: HostRuntime) -> Result<(), Fail> {
    assert_eq!(rt; of_reported_file(rt.alloc())?, ALL);
    Ok(())
}
