//! The trait `OpenFile`: the open file below a medium.

ghost use Rattle.std.specs.Prelude.{◌≡◌, ℕ, length, IfOk, OnOk, OnErr};
ghost use Rattle.duk_store.specs.Disk.{DiffersWithin, IsSynced, PreservesBytes, PreservesDisk, LeavesChanged, LeavesItsSize, LeavesWithin, ReadsMayStay, range_of, written};
ghost use Rattle.duk_store.specs.Medium.{IsInside, MediumState, as_disk};

use std::io;

/// An open file, which may report which bytes it holds. Where it reports none it is not honest.
/// Places are in bytes and count from 0.
///
/// It may forget that a call failed: Linux reports once that a write did not reach the disk, and a
/// later sync succeeds although the bytes are lost. So nothing is asked of it once a write or a
/// sync has failed.
pub trait OpenFile: Drop {
    /// What the file is known to be.
    ghost state: { Self → MediumState };

    /// The file has this length, as far as it reports one.
    ghost has_length: { Self → ℕ → Type 0 };

    /// What a read gives is at all times one of the states that a stop could leave.
    ghost reads_may_stay: { (file : Self) → ReadsMayStay (as_disk (state file)) };

    /// Each state that a stop could leave has as many bytes as a read gives.
    ghost leaves_its_size: { (file : Self) → LeavesItsSize (as_disk (state file)) };

    /// Reads the bytes from place `at` on into all of `bytes`. The range is inside the file.
    fn read_range(&mut self, at: u64, bytes: &mut [u8]) -> io::Result<()>
        requires inside { IsInside (state self.old) at (length bytes.old) }
        requires sound { ¬ (state self.old).failed }
        ensures nature { PreservesDisk (as_disk (state self.old)) (as_disk (state self.new)) }
        ensures bytes { PreservesBytes (as_disk (state self.old)) (as_disk (state self.new)) }
        ensures read { OnOk result ((state self.old).honest
            → bytes.new ≡ range_of at (length bytes.old) (state self.old).reads) }
        ensures failed { OnErr result (¬ (state self.old).calm) }
        ensures length { length bytes.new ≡ length bytes.old }
        ensures stays_sound { ¬ (state self.new).failed };

    /// Writes all of `bytes` from place `at` on. The range is inside the file, and until a
    /// `sync_writes` has succeeded a stop may leave any bytes in it, also where the write failed.
    fn write_range(&mut self, at: u64, bytes: &[u8]) -> io::Result<()>
        requires inside { IsInside (state self.old) at (length bytes.now) }
        requires sound { ¬ (state self.old).failed }
        ensures nature { PreservesDisk (as_disk (state self.old)) (as_disk (state self.new)) }
        ensures torn { LeavesChanged (DiffersWithin at (length bytes.now))
            (as_disk (state self.old)) (as_disk (state self.new)) }
        ensures written { OnOk result ((state self.old).honest
            → (state self.new).reads ≡ written (state self.old).reads at bytes.now) }
        ensures failed { OnErr result (¬ (state self.old).calm) }
        ensures stays_sound { OnOk result (¬ (state self.new).failed) };

    /// Makes sure of all that was written: where this succeeds, a stop leaves what a read gives.
    fn sync_writes(&mut self) -> io::Result<()>
        requires sound { ¬ (state self.old).failed }
        ensures nature { PreservesDisk (as_disk (state self.old)) (as_disk (state self.new)) }
        ensures within { LeavesWithin (as_disk (state self.old)) (as_disk (state self.new)) }
        ensures synced { OnOk result ((state self.old).honest
            → IsSynced (as_disk (state self.old)) (as_disk (state self.new))) }
        ensures failed { OnErr result (¬ (state self.old).calm) }
        ensures stays_sound { OnOk result (¬ (state self.new).failed) };

    /// How many bytes the file has now.
    fn length(&self) -> io::Result<u64>
        ensures reported { IfOk result (has_length self.now) }
        ensures size { IfOk result (λ reported. (state self.now).honest
            → reported ≡ length (state self.now).reads) }
        ensures failed { OnErr result (¬ (state self.now).calm) };
}
