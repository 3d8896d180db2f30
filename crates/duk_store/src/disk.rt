//! The trait `Disk`: the bytes below a store, which are read, written and synced.

ghost use Rattle.std.specs.Prelude.{◌≡◌, ◌+◌, ◌≤◌, length, OnOk, IfErr};
ghost use Rattle.duk_store.specs.Disk.{DiskMeaning, ReadsMayStay, LeavesItsSize, PreservesDisk, StaysArmed, HasFailed, PreservesBytes, DiffersWithin, LeavesChanged, LeavesWithin, IsSynced, StaysButArmed, range_of, written};

use crate::fault::StoreFault;

/// A medium of bytes, as a file or two sectors of a flash memory, whose size is fixed. Places and
/// sizes are in bytes, and places count from 0.
///
/// Its device steps are `read_at`, `write_at` and `sync`. A write may be lost or torn by a stop
/// until a sync has succeeded. A stop is a disk of which each device step fails from some point on,
/// and a `restart` after it.
pub trait Disk: Drop {
    /// What the disk means: its state, and how `arm` leaves it.
    ghost meaning: { DiskMeaning Self };

    /// What a read gives is at all times one of the states that a stop could leave.
    ghost reads_may_stay: { (disk : Self) → ReadsMayStay (meaning.state_of disk) };

    /// Each state that a stop could leave has the size of the disk.
    ghost leaves_its_size: { (disk : Self) → LeavesItsSize (meaning.state_of disk) };

    /// How many bytes the disk has.
    fn size(&self) -> u64
        ensures { result ≡ (meaning.state_of self.now).size };

    /// Reads the bytes from place `at` on into all of `bytes`. The range is inside the disk.
    ///
    /// Refused with `Device` where the device step failed.
    fn read_at(&mut self, at: u64, bytes: &mut [u8]) -> Result<(), StoreFault>
        requires { at + length bytes.old ≤ (meaning.state_of self.old).size }
        ensures nature { PreservesDisk (meaning.state_of self.old) (meaning.state_of self.new) }
        ensures arming { StaysArmed (meaning.state_of self.old) (meaning.state_of self.new) }
        ensures bytes { PreservesBytes (meaning.state_of self.old) (meaning.state_of self.new) }
        ensures read { OnOk result ((meaning.state_of self.old).honest
            → bytes.new ≡ range_of at (length bytes.old) (meaning.state_of self.old).reads) }
        ensures no_failure { OnOk result
            ((meaning.state_of self.new).failures ≡ (meaning.state_of self.old).failures) }
        ensures failed { IfErr result
            (HasFailed (meaning.state_of self.old) (meaning.state_of self.new)) }
        ensures length { length bytes.new ≡ length bytes.old };

    /// Writes all of `bytes` from place `at` on. The range is inside the disk, and until a sync has
    /// succeeded a stop may leave any bytes in it, also where the write failed.
    ///
    /// Refused with `Device` where the device step failed.
    fn write_at(&mut self, at: u64, bytes: &[u8]) -> Result<(), StoreFault>
        requires { at + length bytes.now ≤ (meaning.state_of self.old).size }
        ensures nature { PreservesDisk (meaning.state_of self.old) (meaning.state_of self.new) }
        ensures arming { StaysArmed (meaning.state_of self.old) (meaning.state_of self.new) }
        ensures torn { LeavesChanged (DiffersWithin at (length bytes.now))
            (meaning.state_of self.old) (meaning.state_of self.new) }
        ensures written { OnOk result ((meaning.state_of self.old).honest
            → (meaning.state_of self.new).reads
            ≡ written (meaning.state_of self.old).reads at bytes.now) }
        ensures no_failure { OnOk result
            ((meaning.state_of self.new).failures ≡ (meaning.state_of self.old).failures) }
        ensures failed { IfErr result
            (HasFailed (meaning.state_of self.old) (meaning.state_of self.new)) };

    /// Makes sure of all that was written: where this succeeds, a stop leaves what a read gives.
    ///
    /// Refused with `Device` where the device step failed.
    fn sync(&mut self) -> Result<(), StoreFault>
        ensures nature { PreservesDisk (meaning.state_of self.old) (meaning.state_of self.new) }
        ensures arming { StaysArmed (meaning.state_of self.old) (meaning.state_of self.new) }
        ensures within { LeavesWithin (meaning.state_of self.old) (meaning.state_of self.new) }
        ensures synced { OnOk result ((meaning.state_of self.old).honest
            → IsSynced (meaning.state_of self.old) (meaning.state_of self.new)) }
        ensures no_failure { OnOk result
            ((meaning.state_of self.new).failures ≡ (meaning.state_of self.old).failures) }
        ensures failed { IfErr result
            (HasFailed (meaning.state_of self.old) (meaning.state_of self.new)) };

    /// Goes on after a stop, with one of the states that the stop could leave. A further stop
    /// before a sync has succeeded could leave another one of these. It disarms first, and is no
    /// device step.
    ///
    /// Refused with `Device` where the disk cannot be used.
    fn restart(&mut self) -> Result<(), StoreFault>
        ensures nature { PreservesDisk (meaning.state_of self.old) (meaning.state_of self.new) }
        ensures disarmed { (meaning.state_of self.new).disarmed }
        ensures within { LeavesWithin (meaning.state_of self.old) (meaning.state_of self.new) }
        ensures found { OnOk result ((meaning.state_of self.old).honest
            → (meaning.state_of self.old).may_leave (meaning.state_of self.new).reads) }
        ensures no_failure { OnOk result
            ((meaning.state_of self.new).failures ≡ (meaning.state_of self.old).failures) }
        ensures failed { IfErr result
            (HasFailed (meaning.state_of self.old) (meaning.state_of self.new)) };

    /// Lets the next `steps` device steps pass and each later one fail, until a restart.
    fn arm(&mut self, steps: u32)
        ensures stays { StaysButArmed (meaning.state_of self.old) (meaning.state_of self.new) }
        ensures armed { meaning.arms self.old steps self.new };
}
