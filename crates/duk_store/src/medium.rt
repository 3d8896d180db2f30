//! The trait `Medium`: the bytes below a disk, as a file has them.

ghost use Rattle.std.specs.Prelude.{◌≡◌, length, IsErr, OnOk, OnErr};
ghost use Rattle.duk_store.specs.Disk.{DiffersWithin, IsSynced, PreservesBytes, PreservesDisk, LeavesChanged, LeavesItsSize, LeavesWithin, ReadsMayStay, range_of, written};
ghost use Rattle.duk_store.specs.Medium.{IsInside, MediumState, as_disk};

use std::io;

/// A medium of bytes, as a file, which may report which bytes it holds. Where it reports none it is
/// not honest, and no clause on bytes speaks of it. Places are in bytes and count from 0.
///
/// Its calls may fail for any cause. What it reports of its bytes keeps to the model of a disk.
/// Once a write or a sync has failed, each later call fails, until the medium is opened anew.
pub trait Medium: Drop {
    /// What the medium is known to be.
    ghost state: { Self → MediumState };

    /// What a read gives is at all times one of the states that a stop could leave.
    ghost reads_may_stay: { (medium : Self) → ReadsMayStay (as_disk (state medium)) };

    /// Each state that a stop could leave has as many bytes as a read gives.
    ghost leaves_its_size: { (medium : Self) → LeavesItsSize (as_disk (state medium)) };

    /// Reads the bytes from place `at` on into all of `bytes`. The range is inside the medium.
    fn read_range(&mut self, at: u64, bytes: &mut [u8]) -> io::Result<()>
        requires { IsInside (state self.old) at (length bytes.old) }
        ensures nature { PreservesDisk (as_disk (state self.old)) (as_disk (state self.new)) }
        ensures bytes { PreservesBytes (as_disk (state self.old)) (as_disk (state self.new)) }
        ensures read { OnOk result ((state self.old).honest
            → bytes.new ≡ range_of at (length bytes.old) (state self.old).reads) }
        ensures failed { OnErr result (¬ (state self.old).calm) }
        ensures length { length bytes.new ≡ length bytes.old }
        ensures refused { (state self.old).failed → IsErr result }
        ensures stays_failed { (state self.old).failed → (state self.new).failed };

    /// Writes all of `bytes` from place `at` on. The range is inside the medium, and until a
    /// `sync_writes` has succeeded a stop may leave any bytes in it, also where the write failed.
    fn write_range(&mut self, at: u64, bytes: &[u8]) -> io::Result<()>
        requires { IsInside (state self.old) at (length bytes.now) }
        ensures nature { PreservesDisk (as_disk (state self.old)) (as_disk (state self.new)) }
        ensures torn { LeavesChanged (DiffersWithin at (length bytes.now))
            (as_disk (state self.old)) (as_disk (state self.new)) }
        ensures written { OnOk result ((state self.old).honest
            → (state self.new).reads ≡ written (state self.old).reads at bytes.now) }
        ensures failed { OnErr result (¬ (state self.old).calm) }
        ensures refused { (state self.old).failed → IsErr result }
        ensures kept { OnErr result (state self.new).failed };

    /// Makes sure of all that was written: where this succeeds, a stop leaves what a read gives.
    ///
    /// One that failed is never forgotten: each later call fails. Linux reports once that a write
    /// did not reach the disk, and a later sync succeeds although the bytes are lost.
    fn sync_writes(&mut self) -> io::Result<()>
        ensures nature { PreservesDisk (as_disk (state self.old)) (as_disk (state self.new)) }
        ensures within { LeavesWithin (as_disk (state self.old)) (as_disk (state self.new)) }
        ensures synced { OnOk result ((state self.old).honest
            → IsSynced (as_disk (state self.old)) (as_disk (state self.new))) }
        ensures failed { OnErr result (¬ (state self.old).calm) }
        ensures refused { (state self.old).failed → IsErr result }
        ensures kept { OnErr result (state self.new).failed };
}
