//! A medium over an open file.

ghost use Rattle.std.specs.Prelude.{◌≡◌, ◌↔◌, true, false, length, IsErr, IsOk, OnErr, OnOk};
ghost use Rattle.duk_store.specs.Disk.{DiffersWithin, IsSynced, PreservesBytes, PreservesDisk, LeavesChanged, LeavesWithin, range_of, written};
ghost use Rattle.duk_store.specs.FileMedium.{file_medium_state, new_file_medium};
ghost use Rattle.duk_store.specs.Medium.{IsInside, IsSizeOf, as_disk};

use crate::medium::Medium;
use crate::open_file::OpenFile;
use std::io;
use std::marker::Model;

/// A medium over an open file. Its bytes are the file's, and it is honest where its file is. A
/// `File` is not, so no clause on bytes speaks of a medium over one.
///
/// It keeps in mind that a write or a sync has failed, and asks nothing more of its file then. A
/// write and a sync also fail where the file has not the length that it had when the medium was
/// made: before the write, which could give a file that was cut short its length again, and after
/// the sync.
#[derive(Drop)]
pub struct FileMedium<F: OpenFile> {
    file: F,
    size: u64,
    has_failed: bool,
}

impl<F: OpenFile> Model for FileMedium<F> {
    ghost use Rattle.duk_store.specs.FileMedium.{FileMediumOf};
    ghost use Rattle.duk_store.specs.inner.FileMedium.{RemembersFailure};

    ghost Value = { FileMediumOf F };

    ghost view = { λ medium. record {
      file = medium.file;
      size = medium.size;
      has_failed = medium.has_failed;
    } };

    ghost invariant = { λ medium.
        RemembersFailure (F.state medium.file) medium.size medium.has_failed };
}

impl<F: OpenFile> FileMedium<F> {
    /// A medium over all bytes of a file, which are so many.
    pub fn over(file: F, size: u64) -> Self
        requires size { IsSizeOf size (F.state file) }
        requires sound { ¬ (F.state file).failed }
        ensures medium { result ≡ new_file_medium file size }
        ensures size { IsSizeOf size (file_medium_state F.state result) }
    {
        FileMedium {
            file,
            size,
            has_failed: false,
        }
    }

    /// Refuses where a write or a sync has failed.
    fn check(&self) -> io::Result<()>
        ensures { IsErr result ↔ (self.now.has_failed ≡ true) }
    {
        if self.has_failed {
            return Err(refusal());
        }
        Ok(())
    }
}

impl<F: OpenFile> Medium for FileMedium<F> {
    ghost state = { file_medium_state F.state };

    ghost reads_may_stay = { λ medium. F.reads_may_stay medium.file };

    ghost leaves_its_size = { λ medium. F.leaves_its_size medium.file };

    fn read_range(&mut self, at: u64, bytes: &mut [u8]) -> io::Result<()> {
        self.check()?;
        self.file.read_range(at, bytes)
    }

    fn write_range(&mut self, at: u64, bytes: &[u8]) -> io::Result<()>
        requires { IsInside (file_medium_state F.state self.old) at (length bytes.now) }
        ensures nature { PreservesDisk (as_disk (file_medium_state F.state self.old))
            (as_disk (file_medium_state F.state self.new)) }
        ensures torn { LeavesChanged (DiffersWithin at (length bytes.now))
            (as_disk (file_medium_state F.state self.old))
            (as_disk (file_medium_state F.state self.new)) }
        ensures written { OnOk result ((F.state self.old.file).honest
            → (F.state self.new.file).reads
            ≡ written (F.state self.old.file).reads at bytes.now) }
        ensures failed { OnErr result (¬ (file_medium_state F.state self.old).calm) }
        ensures refused { self.old.has_failed ≡ true → IsErr result }
        ensures kept { OnErr result (self.new.has_failed ≡ true) }
        ensures length { OnOk result (F.has_length self.old.file self.old.size) }
    {
        let size = self.size;
        self.check()?;
        self.has_failed = true;
        check_length(&self.file, size)?;
        self.file.write_range(at, bytes)?;
        self.has_failed = false;
        Ok(())
    }

    fn sync_writes(&mut self) -> io::Result<()>
        ensures nature { PreservesDisk (as_disk (file_medium_state F.state self.old))
            (as_disk (file_medium_state F.state self.new)) }
        ensures within { LeavesWithin (as_disk (file_medium_state F.state self.old))
            (as_disk (file_medium_state F.state self.new)) }
        ensures synced { OnOk result ((F.state self.old.file).honest
            → IsSynced (as_disk (file_medium_state F.state self.old))
            (as_disk (file_medium_state F.state self.new))) }
        ensures failed { OnErr result (¬ (file_medium_state F.state self.old).calm) }
        ensures refused { self.old.has_failed ≡ true → IsErr result }
        ensures kept { OnErr result (self.new.has_failed ≡ true) }
        ensures length { OnOk result (F.has_length self.new.file self.old.size) }
    {
        self.check()?;
        self.has_failed = true;
        self.file.sync_writes()?;
        check_length(&self.file, self.size)?;
        self.has_failed = false;
        Ok(())
    }
}

/// Refuses where a file has another length than this one.
fn check_length<F: OpenFile>(file: &F, size: u64) -> io::Result<()>
    requires { IsSizeOf size (F.state file.now) }
    ensures length { OnOk result (F.has_length file.now size) }
    ensures failed { OnErr result ((F.state file.now).honest → ¬ (F.state file.now).calm) }
{
    if file.length()? != size {
        return Err(refusal());
    }
    Ok(())
}

/// Why a medium refuses by itself.
fn refusal() -> io::Error {
    io::Error::from(io::ErrorKind::Other)
}
