//! A disk whose records are counted as they are written.

ghost use Rattle.std.specs.Prelude.{◌≡◌, ◌+◌, ◌≤◌, IfErr, MatchResult, OnOk, length};
ghost use Rattle.duk_store.specs.Disk.{DiffersWithin, HasFailed, LeavesChanged, PreservesDisk, StaysArmed, written};
ghost use Rattle.dukpt.specs.inner.Written.{AreRecordsCounted};

use crate::progress::written::Written;
use duk_io::Sink;
use duk_store::{Disk, StoreFault};

/// A disk, with the count of the records that are written to it in their order, where they are
/// counted. It means what the disk means.
#[derive(Drop)]
pub(crate) struct WatchedDisk<D: Disk, E: Sink + Drop> {
    disk: D,
    records: Option<Written<E>>,
}

impl<D: Disk, E: Sink + Drop> WatchedDisk<D, E> {
    /// A disk whose records are counted, or not.
    pub(crate) fn over(disk: D, records: Option<Written<E>>) -> Self
        ensures { result ≡ record { disk = disk; records = records } }
    {
        WatchedDisk { disk, records }
    }

    /// The disk.
    pub(crate) fn into_disk(self) -> D
        ensures { result ≡ self.disk }
    {
        self.disk
    }
}

impl<D: Disk, E: Sink + Drop> Disk for WatchedDisk<D, E> {
    ghost meaning = { record {
      state_of = λ watched. D.meaning.state_of watched.disk;
      arms = λ old steps new. D.meaning.arms old.disk steps new.disk;
    } };

    ghost reads_may_stay = { λ watched. D.reads_may_stay watched.disk };

    ghost leaves_its_size = { λ watched. D.leaves_its_size watched.disk };

    fn size(&self) -> u64 {
        self.disk.size()
    }

    fn read_at(&mut self, at: u64, bytes: &mut [u8]) -> Result<(), StoreFault> {
        self.disk.read_at(at, bytes)
    }

    fn write_at(&mut self, at: u64, bytes: &[u8]) -> Result<(), StoreFault>
        requires { at + length bytes.now ≤ (D.meaning.state_of self.old.disk).size }
        ensures nature { PreservesDisk (D.meaning.state_of self.old.disk)
            (D.meaning.state_of self.new.disk) }
        ensures arming { StaysArmed (D.meaning.state_of self.old.disk)
            (D.meaning.state_of self.new.disk) }
        ensures torn { LeavesChanged (DiffersWithin at (length bytes.now))
            (D.meaning.state_of self.old.disk) (D.meaning.state_of self.new.disk) }
        ensures written { OnOk result ((D.meaning.state_of self.old.disk).honest
            → (D.meaning.state_of self.new.disk).reads
            ≡ written (D.meaning.state_of self.old.disk).reads at bytes.now) }
        ensures no_failure { OnOk result ((D.meaning.state_of self.new.disk).failures
            ≡ (D.meaning.state_of self.old.disk).failures) }
        ensures failed { IfErr result (HasFailed (D.meaning.state_of self.old.disk)
            (D.meaning.state_of self.new.disk)) }
        ensures records { MatchResult result
            (λ _. AreRecordsCounted E.known self.old.records self.new.records
            (at + length bytes.now))
            (λ _. self.new.records ≡ self.old.records) }
    {
        match self.disk.write_at(at, bytes) {
            Ok(()) => {
                count_records(&mut self.records, at, bytes.len());
                Ok(())
            }
            Err(why) => Err(why),
        }
    }

    fn sync(&mut self) -> Result<(), StoreFault> {
        self.disk.sync()
    }

    fn restart(&mut self) -> Result<(), StoreFault> {
        self.disk.restart()
    }

    fn arm(&mut self, steps: u32) {
        self.disk.arm(steps);
    }
}

/// Counts the records of which so many bytes are written at a place, where they are counted.
fn count_records<E: Sink>(records: &mut Option<Written<E>>, at: u64, count: usize)
    ensures { AreRecordsCounted E.known records.old records.new (at + count) }
{
    if let Some(records) = records {
        records.add(at, count);
    }
}
