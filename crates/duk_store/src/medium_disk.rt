//! A disk over a medium.

ghost use Rattle.std.specs.Prelude.{◌≡◌, ◌+◌, ◌≤◌, ◌⊎◌, length, IsErr, IsOk, IfErr, OnErr, OnOk};
ghost use Rattle.duk_store.specs.Disk.{DiffersWithin, HasFailed, IsSynced, PreservesBytes, PreservesDisk, LeavesChanged, LeavesWithin, StaysArmed, range_of, written};
ghost use Rattle.duk_store.specs.DiskDevice.{HasFailedStep, HasDiskStepPassed, IsDue, disarmed_device};
ghost use Rattle.duk_store.specs.MediumDisk.{medium_disk_meaning, medium_disk_state, new_medium_disk};
ghost use Rattle.duk_store.specs.Medium.{IsSizeOf};

use crate::disk::Disk;
use crate::disk_device::DiskDevice;
use crate::fault::StoreFault;
use crate::medium::Medium;
use std::marker::Model;

/// A disk over a medium, as an open file. Its bytes are the medium's, and it is honest where its
/// medium is: whatever the medium reports of itself holds of the disk.
///
/// Each call of the medium that fails, for whatever cause, is answered as `Device` and counted
/// once. A step that fails by arming does not come to the medium. Once a write or a sync of the
/// medium has failed, each later step fails, and a restart does not change that.
#[derive(Drop)]
pub struct MediumDisk<M: Medium> {
    medium: M,
    size: u64,
    device: DiskDevice,
}

impl<M: Medium> Model for MediumDisk<M> {
    ghost use Rattle.duk_store.specs.Medium.{IsSizeOf};
    ghost use Rattle.duk_store.specs.MediumDisk.{MediumDiskOf};

    ghost Value = { MediumDiskOf M };

    ghost view = { λ disk. record {
      medium = disk.medium;
      size = disk.size;
      device = disk.device;
    } };

    ghost invariant = { λ disk. IsSizeOf disk.size (M.state disk.medium) };
}

impl<M: Medium> MediumDisk<M> {
    /// A disk over all bytes of a medium, which are so many. No step is to fail by arming.
    pub fn over(medium: M, size: u64) -> Self
        requires { IsSizeOf size (M.state medium) }
        ensures disk { result ≡ new_medium_disk medium size }
        ensures honest { (M.state medium).honest → (medium_disk_state M.state result).honest }
        ensures calm { (M.state medium).calm → (medium_disk_state M.state result).calm }
        ensures disarmed { (medium_disk_state M.state result).disarmed }
    {
        MediumDisk {
            medium,
            size,
            device: DiskDevice::new(),
        }
    }
}

impl<M: Medium> Disk for MediumDisk<M> {
    ghost meaning = { medium_disk_meaning M.state };

    ghost reads_may_stay = { λ disk honest. M.reads_may_stay disk.medium honest.medium_honest };

    ghost leaves_its_size = { λ disk honest bytes could.
        rw (← honest.size_is) (M.leaves_its_size disk.medium honest.medium_honest bytes could) };

    fn size(&self) -> u64 {
        self.size
    }

    fn read_at(&mut self, at: u64, bytes: &mut [u8]) -> Result<(), StoreFault>
        requires { at + length bytes.old ≤ self.old.size }
        ensures nature { PreservesDisk (medium_disk_state M.state self.old)
            (medium_disk_state M.state self.new) }
        ensures arming { StaysArmed (medium_disk_state M.state self.old)
            (medium_disk_state M.state self.new) }
        ensures bytes { PreservesBytes (medium_disk_state M.state self.old)
            (medium_disk_state M.state self.new) }
        ensures read { OnOk result ((medium_disk_state M.state self.old).honest
            → bytes.new ≡ range_of at (length bytes.old) (M.state self.old.medium).reads) }
        ensures no_failure { OnOk result (self.new.device.failures ≡ self.old.device.failures) }
        ensures failed { IfErr result (HasFailed (medium_disk_state M.state self.old)
            (medium_disk_state M.state self.new)) }
        ensures length { length bytes.new ≡ length bytes.old }
        ensures passed { OnOk result (HasDiskStepPassed self.old.device self.new.device) }
        ensures counted { OnErr result (HasFailedStep self.old.device self.new.device) }
        ensures refused { (M.state self.old.medium).failed → IsErr result }
        ensures stays_failed { (M.state self.old.medium).failed
            → (M.state self.new.medium).failed }
        ensures not_read { IsDue self.old.device → self.new.medium ≡ self.old.medium }
    {
        self.device.step()?;
        match self.medium.read_range(at, bytes) {
            Ok(()) => Ok(()),
            Err(_) => Err(self.device.fail()),
        }
    }

    fn write_at(&mut self, at: u64, bytes: &[u8]) -> Result<(), StoreFault>
        requires { at + length bytes.now ≤ self.old.size }
        ensures nature { PreservesDisk (medium_disk_state M.state self.old)
            (medium_disk_state M.state self.new) }
        ensures arming { StaysArmed (medium_disk_state M.state self.old)
            (medium_disk_state M.state self.new) }
        ensures torn { LeavesChanged (DiffersWithin at (length bytes.now))
            (medium_disk_state M.state self.old) (medium_disk_state M.state self.new) }
        ensures written { OnOk result ((medium_disk_state M.state self.old).honest
            → (M.state self.new.medium).reads
            ≡ written (M.state self.old.medium).reads at bytes.now) }
        ensures no_failure { OnOk result (self.new.device.failures ≡ self.old.device.failures) }
        ensures failed { IfErr result (HasFailed (medium_disk_state M.state self.old)
            (medium_disk_state M.state self.new)) }
        ensures passed { OnOk result (HasDiskStepPassed self.old.device self.new.device) }
        ensures counted { OnErr result (HasFailedStep self.old.device self.new.device) }
        ensures refused { (M.state self.old.medium).failed → IsErr result }
        ensures kept { OnErr result (IsDue self.old.device ⊎ (M.state self.new.medium).failed) }
        ensures stays_failed { (M.state self.old.medium).failed
            → (M.state self.new.medium).failed }
        ensures not_written { IsDue self.old.device → self.new.medium ≡ self.old.medium }
    {
        self.device.step()?;
        match self.medium.write_range(at, bytes) {
            Ok(()) => Ok(()),
            Err(_) => Err(self.device.fail()),
        }
    }

    fn sync(&mut self) -> Result<(), StoreFault>
        ensures nature { PreservesDisk (medium_disk_state M.state self.old)
            (medium_disk_state M.state self.new) }
        ensures arming { StaysArmed (medium_disk_state M.state self.old)
            (medium_disk_state M.state self.new) }
        ensures within { LeavesWithin (medium_disk_state M.state self.old)
            (medium_disk_state M.state self.new) }
        ensures synced { OnOk result ((medium_disk_state M.state self.old).honest
            → IsSynced (medium_disk_state M.state self.old)
            (medium_disk_state M.state self.new)) }
        ensures no_failure { OnOk result (self.new.device.failures ≡ self.old.device.failures) }
        ensures failed { IfErr result (HasFailed (medium_disk_state M.state self.old)
            (medium_disk_state M.state self.new)) }
        ensures passed { OnOk result (HasDiskStepPassed self.old.device self.new.device) }
        ensures counted { OnErr result (HasFailedStep self.old.device self.new.device) }
        ensures refused { (M.state self.old.medium).failed → IsErr result }
        ensures kept { OnErr result (IsDue self.old.device ⊎ (M.state self.new.medium).failed) }
        ensures stays_failed { (M.state self.old.medium).failed
            → (M.state self.new.medium).failed }
        ensures not_synced { IsDue self.old.device → self.new.medium ≡ self.old.medium }
    {
        self.device.step()?;
        match self.medium.sync_writes() {
            Ok(()) => Ok(()),
            Err(_) => Err(self.device.fail()),
        }
    }

    fn restart(&mut self) -> Result<(), StoreFault>
        ensures nature { PreservesDisk (medium_disk_state M.state self.old)
            (medium_disk_state M.state self.new) }
        ensures disarmed { (medium_disk_state M.state self.new).disarmed }
        ensures within { LeavesWithin (medium_disk_state M.state self.old)
            (medium_disk_state M.state self.new) }
        ensures found { OnOk result ((medium_disk_state M.state self.old).honest
            → (M.state self.old.medium).may_leave (M.state self.new.medium).reads) }
        ensures no_failure { OnOk result (self.new.device.failures ≡ self.old.device.failures) }
        ensures failed { IfErr result (HasFailed (medium_disk_state M.state self.old)
            (medium_disk_state M.state self.new)) }
        ensures never_refused { IsOk result }
        ensures restarted { self.new
            ≡ record self.old { device = disarmed_device self.old.device } }
    {
        self.device.disarm();
        Ok(())
    }

    fn arm(&mut self, steps: u32) {
        self.device.arm(steps);
    }
}
