//! What the program makes of the files of `run` and `serve`, where these make known what they hold.

ghost use Rattle.std.proofs.Common.{rules};
ghost use Rattle.std.specs.Option.{option_map};
ghost use Rattle.std.specs.Prelude.{◌≡◌, ⊤, IfErr, IfOk, None, Some, false};
ghost use Rattle.duk_arguments.specs.Request.{Written};
ghost use Rattle.duk_program.specs.Own.{MayUseOwn};
ghost use Rattle.duk_service.specs.FileEnd.{IsEndOf};
ghost use Rattle.duk_service.specs.LogFiles.{unknown_making};
ghost use Rattle.duk_service.specs.declared.file_system.FileFault.TheVariants.{NoMemory};
ghost use Rattle.duk_store.specs.MemoryDisk.{memory_disk_state};
ghost use Rattle.duk_tests_program.specs.inner.Ends.{failing_end};

use crate::commands::arguments_of;
use duk_program::{FileFault, FileSystem, LogFiles, Reason, run_program};
use duk_service::{Access, FileEnd};
use duk_store::{Disk, MemDisk, StoreFault};
use duk_tests_support::files::BANK;
use duk_tests_support::frames::{FIRST_REPLY, FIRST_REQUEST};
use std::alloc::Global;

/// Files that all hold the same text, or of which none can be read, and for a line or the front of
/// which memory is refused. None can be opened as a disk.
#[derive(Drop)]
struct EveryFile {
    text: Option<&'static str>,
}

impl FileSystem for EveryFile {
    ghost held = { λ files _. Some (option_map (λ text. text.now) files.text) };

    fn read_file(&self, alloc: Global, _path: &str, most: usize) -> Result<Vec<u8>, FileFault> {
        let Some(text) = self.text else {
            return Err(FileFault::CannotRead);
        };
        if text.len() > most {
            return Err(FileFault::TooLong);
        }
        copy_of(alloc, text.as_bytes())
    }

    fn read_stored(&self, alloc: Global, path: &str, most: usize) -> Result<Vec<u8>, FileFault> {
        self.read_file(alloc, path, most)
    }

    fn read_front(&self, _alloc: Global, _path: &str, _count: usize) -> Result<Vec<u8>, FileFault> {
        match self.text {
            Some(_) => Err(FileFault::NoMemory),
            None => Err(FileFault::CannotRead),
        }
    }

    fn read_line(&self, _alloc: Global, _path: &str, _most: usize) -> Result<Vec<u8>, FileFault> {
        match self.text {
            Some(_) => Err(FileFault::NoMemory),
            None => Err(FileFault::CannotRead),
        }
    }

    fn reading_reason(&self, _path: &str) -> Option<Reason> {
        Some(Reason::Missing)
    }

    fn read_again(&self, _alloc: Global, _path: &str, _most: usize) -> Option<Vec<u8>> {
        None
    }
}

/// These bytes, in a vector.
fn copy_of(alloc: Global, bytes: &[u8]) -> Result<Vec<u8>, FileFault>
    ensures copied { IfOk result (λ copy. copy.items ≡ bytes.now) }
    ensures refused { IfErr result (λ why. why ≡ NoMemory) }
{
    Vec::from_slice(alloc, bytes).map_err(|_| FileFault::NoMemory)
}

/// The end of a file of which each step fails.
#[derive(Drop)]
struct FailingEnd {
    disk: MemDisk,
}

impl FailingEnd {
    /// The disk over the file. Each step of it fails too.
    fn into_disk(self) -> MemDisk
        ensures { IsEndOf (memory_disk_state result) (failing_end self.disk) }
    {
        let mut disk = self.disk;
        disk.arm(0);
        disk
    }
}

impl FileEnd for FailingEnd {
    ghost state = { λ end. failing_end end.disk };

    fn append(&mut self, _bytes: &[u8]) -> Result<(), StoreFault> {
        Err(StoreFault::Device)
    }

    fn sync(&mut self) -> Result<(), StoreFault> {
        Err(StoreFault::Device)
    }
}

impl LogFiles for EveryFile {
    type Disk = MemDisk;

    type Lines = Vec<u8>;

    type End = FailingEnd;

    ghost may_write = { λ _ _. ⊤ };

    ghost may_make = { λ _ _. ⊤ };

    ghost disks = { λ _ _. Some None };

    ghost making = { λ _ _. record {
      disk = λ _. Some None;
      folder = Some false;
      lines = Some None;
    } };

    ghost small = { Prim.search rules };

    fn open_disk(&self, _path: &str) -> Result<MemDisk, StoreFault> {
        Err(StoreFault::Device)
    }

    fn open_to_read(&self, path: &str) -> Result<MemDisk, StoreFault> {
        self.open_disk(path)
    }

    fn open_to_grow(&self, _path: &str) -> Result<(MemDisk, FailingEnd), StoreFault> {
        Err(StoreFault::Device)
    }

    fn disk_of(&self, end: FailingEnd) -> MemDisk {
        end.into_disk()
    }

    fn opening_reason(&self, _path: &str, _access: Access) -> Reason {
        Reason::InUse
    }

    fn make_disk(&self, _path: &str, _size: u64) -> Result<MemDisk, StoreFault> {
        Err(StoreFault::Device)
    }

    fn make_zeros(&self, _path: &str, _size: u64) -> Result<MemDisk, StoreFault> {
        Err(StoreFault::Device)
    }

    fn sync_folder(&self, _path: &str) -> Result<(), StoreFault> {
        Err(StoreFault::Device)
    }

    fn make_lines(&self, _path: &str) -> Result<Vec<u8>, StoreFault> {
        Err(StoreFault::Device)
    }

    fn remove_empty(&self, _path: &str, _lines: Vec<u8>) {}

    fn remove_made(&self, _path: &str, _disk: MemDisk) {}

    fn making_reason(&self, _path: &str) -> Reason {
        Reason::There
    }
}

/// Files that all state the same configuration, for a line of which memory is refused, and that may
/// be opened as disks in memory, of zeros. None can be made.
#[derive(Drop)]
struct Banks {
    alloc: Global,
}

impl FileSystem for Banks {
    ghost held = { λ _ _. None };

    fn read_file(&self, alloc: Global, _path: &str, most: usize) -> Result<Vec<u8>, FileFault> {
        if BANK.len() > most {
            return Err(FileFault::TooLong);
        }
        copy_of(alloc, BANK.as_bytes())
    }

    fn read_stored(&self, alloc: Global, path: &str, most: usize) -> Result<Vec<u8>, FileFault> {
        self.read_file(alloc, path, most)
    }

    fn read_front(&self, _alloc: Global, _path: &str, _count: usize) -> Result<Vec<u8>, FileFault> {
        Err(FileFault::CannotRead)
    }

    fn read_line(&self, _alloc: Global, _path: &str, _most: usize) -> Result<Vec<u8>, FileFault> {
        Err(FileFault::NoMemory)
    }

    fn reading_reason(&self, _path: &str) -> Option<Reason> {
        None
    }

    fn read_again(&self, alloc: Global, path: &str, most: usize) -> Option<Vec<u8>> {
        self.read_file(alloc, path, most).ok()
    }
}

impl LogFiles for Banks {
    type Disk = MemDisk;

    type Lines = Vec<u8>;

    type End = FailingEnd;

    ghost may_write = { λ _ _. ⊤ };

    ghost may_make = { λ _ _. ⊤ };

    ghost disks = { λ _ _. None };

    ghost making = { λ _ _. unknown_making };

    ghost small = { Prim.search rules };

    fn open_disk(&self, _path: &str) -> Result<MemDisk, StoreFault> {
        MemDisk::new(self.alloc, 64)
    }

    fn open_to_read(&self, path: &str) -> Result<MemDisk, StoreFault> {
        self.open_disk(path)
    }

    fn open_to_grow(&self, _path: &str) -> Result<(MemDisk, FailingEnd), StoreFault> {
        Err(StoreFault::Device)
    }

    fn disk_of(&self, end: FailingEnd) -> MemDisk {
        end.into_disk()
    }

    fn opening_reason(&self, _path: &str, _access: Access) -> Reason {
        Reason::Other
    }

    fn make_disk(&self, _path: &str, _size: u64) -> Result<MemDisk, StoreFault> {
        Err(StoreFault::Device)
    }

    fn make_zeros(&self, _path: &str, _size: u64) -> Result<MemDisk, StoreFault> {
        Err(StoreFault::Device)
    }

    fn sync_folder(&self, _path: &str) -> Result<(), StoreFault> {
        Ok(())
    }

    fn make_lines(&self, _path: &str) -> Result<Vec<u8>, StoreFault> {
        Err(StoreFault::Device)
    }

    fn remove_empty(&self, _path: &str, _lines: Vec<u8>) {}

    fn remove_made(&self, _path: &str, _disk: MemDisk) {}

    fn making_reason(&self, _path: &str) -> Reason {
        Reason::Other
    }
}

/// What a command over such files writes, which has the first request as its input, and what it
/// reports.
fn of_command<S: FileSystem + LogFiles>(
    alloc: Global,
    files: &S,
    command: &[&str],
) -> Option<(u8, Vec<u8>, Vec<u8>)>
    requires { (asked : Written) → MayUseOwn (S.may_write files.now) (S.may_make files.now) asked }
{
    let mut arguments = arguments_of(alloc, command).ok()?;
    let (mut output, mut fault) = (Vec::new(alloc), Vec::new(alloc));
    let mut input = FIRST_REQUEST.as_slice();
    let status = run_program(
        alloc,
        files,
        &mut arguments,
        &mut input,
        &mut output,
        &mut fault,
    );
    Some((status, output, fault))
}

/// Whether a command over such files fails with this line, and writes nothing.
fn fails(alloc: Global, text: Option<&'static str>, command: &[&str], line: &str) -> Option<bool> {
    let (status, output, fault) = of_command(alloc, &EveryFile { text }, command)?;
    Some(status == 1 && output.is_empty() && fault.as_slice() == line.as_bytes())
}

const RUN: [&str; 3] = ["run", "config", "script"];

const SERVE: [&str; 4] = ["serve", "config", "--log", "log"];

/// What the files hold, and the lines of `run` and of `serve`.
static FILES: [(Option<&str>, &str, &str); 3] = [
    (None, "config: cannot read\n", "config: cannot read\n"),
    (Some("no table"), "config: not TOML\n", "config: not TOML\n"),
    (Some(BANK), "line 1: not an event\n", "log: cannot open\n"),
];

#[test]
fn files_that_are_known(rt: HostRuntime) {
    for (text, of_run, of_serve) in &FILES {
        assert_eq!(rt; fails(rt.alloc(), *text, &RUN, of_run), Some(true));
        assert_eq!(rt; fails(rt.alloc(), *text, &SERVE, of_serve), Some(true));
    }
}

/// Whether a service over such files answers the first request.
fn serves<S: FileSystem + LogFiles>(alloc: Global, files: &S, command: &[&str]) -> Option<bool>
    requires { (asked : Written) → MayUseOwn (S.may_write files.now) (S.may_make files.now) asked }
{
    let (status, output, fault) = of_command(alloc, files, command)?;
    Some(status == 0 && output.as_slice() == FIRST_REPLY.as_slice() && fault.is_empty())
}

/// Over a log in memory, and over one on a disk in memory.
#[test]
fn a_service(rt: HostRuntime) {
    let bank = EveryFile { text: Some(BANK) };
    let banks = Banks { alloc: rt.alloc() };
    assert_eq!(rt; serves(rt.alloc(), &bank, &["serve", "config"]), Some(true));
    assert_eq!(rt; serves(rt.alloc(), &banks, &SERVE), Some(true));
}
