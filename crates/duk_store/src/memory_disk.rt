//! A disk in memory, for trials: what a stop leaves of it can be chosen.

ghost use Rattle.std.specs.Prelude.{◌≡◌, ◌+◌, ◌-◌, ◌<◌, ◌≤◌, ◌++◌, length, take, drop, replicate, refl, slice_index, None, IsOk, IfOk, IfErr, OnOk, OnErr};
ghost use Rattle.duk_store.specs.Disk.{StaysArmed, PreservesDisk, PreservesBytes, LeavesChanged, LeavesReads, LeavesWithin, DiffersWithin, HasFailed, IsSynced, StaysButArmed, range_of, written};
ghost use Rattle.duk_store.specs.DiskDevice.{HasDiskStepPassed, IsCalmDevice, IsDiskStepDue};
ghost use Rattle.duk_store.specs.MemoryDisk.{IsHonestDisk, IsRefilled, SameButDevice, armed_disk, byte_left, disarmed_disk, disk_failing_once, memory_disk_meaning, memory_disk_state, new_disk, new_disk_with, synced_disk, wanting, written_disk};
ghost use Rattle.duk_store.specs.inner.MemoryDisk.{IsMarked, refilled_at};

use crate::disk::Disk;
use crate::disk_device::DiskDevice;
use crate::fault::StoreFault;
use std::alloc::{AllocError, Global};
use std::marker::Model;

/// What a restart of a disk in memory leaves in each byte that was written since the last sync.
#[derive(Debug, Clone, Copy, PartialEq, Eq)]
pub enum Filling {
    /// What was there at the last sync.
    Old,
    /// What was to be written there last, also where that write failed.
    New,
    /// This byte.
    Fill(u8),
}

/// A disk in memory, for trials: it can be armed to fail at a device step, and what a restart
/// leaves where something was written since the last sync. Only `new` takes memory.
///
/// A sync and a restart go over one range around all that was written since the last sync, and not
/// over the whole disk.
#[derive(Drop)]
pub struct MemDisk {
    /// What a read gives.
    reads: Vec<u8>,
    /// What a read gave after the last sync.
    synced: Vec<u8>,
    /// What a read would give if every write since had succeeded.
    wanted: Vec<u8>,
    /// Which bytes were written since the last sync.
    unsynced: Vec<bool>,
    /// All of these lie from here ..
    from: usize,
    /// .. to before here.
    to: usize,
    chosen: Filling,
    device: DiskDevice,
}

impl Model for MemDisk {
    ghost use Rattle.duk_store.specs.MemoryDisk.{MemoryDisk};
    ghost use Rattle.duk_store.specs.inner.MemoryDisk.{IsUnsyncedWithin};

    ghost Value = { MemoryDisk };

    ghost view = { λ disk. record {
      reads = disk.reads.items;
      synced = disk.synced.items;
      wanted = disk.wanted.items;
      unsynced = disk.unsynced.items;
      filling = disk.chosen;
      device = disk.device;
    } };

    ghost invariant = { λ disk. IsUnsyncedWithin disk.from disk.to (record {
      reads = disk.reads.items;
      synced = disk.synced.items;
      wanted = disk.wanted.items;
      unsynced = disk.unsynced.items;
      filling = disk.chosen;
      device = disk.device;
    }) };
}

impl MemDisk {
    /// A disk of `size` zero bytes, in which no step is to fail. Its restart leaves the old bytes.
    ///
    /// Refused with `NoMemory` where the memory for all that later calls need is.
    pub fn new(alloc: Global, size: usize) -> Result<MemDisk, StoreFault>
        ensures disk { IfOk result (λ disk. disk ≡ new_disk size) }
        ensures honest { IfOk result (λ disk. (memory_disk_state disk).honest) }
        ensures calm { IfOk result (λ disk. (memory_disk_state disk).calm) }
        ensures synced { IfOk result (λ disk. LeavesReads (memory_disk_state disk)) }
        ensures refused { IfErr result (λ fault. fault ≡ StoreFault.NoMemory) }
    {
        Ok(MemDisk {
            reads: vec![in alloc; 0; size]?,
            synced: vec![in alloc; 0; size]?,
            wanted: vec![in alloc; 0; size]?,
            unsynced: vec![in alloc; false; size]?,
            from: 0,
            to: 0,
            chosen: Filling::Old,
            device: DiskDevice::new(),
        })
    }

    /// The same with these bytes in front of the zeros.
    ///
    /// Refused with `NoMemory` where the memory for all that later calls need is.
    pub fn with_front(alloc: Global, front: &[u8], size: usize) -> Result<MemDisk, StoreFault>
        requires { length front.now ≤ size }
        ensures disk { IfOk result (λ disk. disk ≡ new_disk_with front.now size) }
        ensures refused { IfErr result (λ fault. fault ≡ StoreFault.NoMemory) }
    {
        Ok(MemDisk {
            reads: zeros_behind(alloc, front, size)?,
            synced: zeros_behind(alloc, front, size)?,
            wanted: zeros_behind(alloc, front, size)?,
            unsynced: vec![in alloc; false; size]?,
            from: 0,
            to: 0,
            chosen: Filling::Old,
            device: DiskDevice::new(),
        })
    }

    /// Chooses what each later restart leaves in the bytes written since the last sync.
    pub fn filling(&mut self, filling: Filling)
        ensures nature { PreservesDisk (memory_disk_state self.old) (memory_disk_state self.new) }
        ensures bytes { PreservesBytes (memory_disk_state self.old) (memory_disk_state self.new) }
        ensures disk { self.new ≡ record self.old { filling = filling } }
    {
        self.chosen = filling;
    }

    /// Lets the next `steps` device steps pass and the one after them fail. Later ones pass.
    pub fn fail_once(&mut self, steps: u32)
        ensures stays { StaysButArmed (memory_disk_state self.old) (memory_disk_state self.new) }
        ensures disk { self.new ≡ disk_failing_once steps self.old }
    {
        self.device.fail_once(steps);
    }

    /// A device step.
    fn step(&mut self) -> Result<(), StoreFault>
        ensures stays { SameButDevice self.old self.new }
        ensures passed { IfOk result (λ _. HasDiskStepPassed self.old.device self.new.device) }
        ensures due { IfErr result (λ fault. (fault ≡ StoreFault.Device)
            × IsDiskStepDue self.old.device self.new.device) }
        ensures arming { self.new.device.passes ≡ None → self.old.device.passes ≡ None }
        ensures was_honest { IsHonestDisk self.old }
        ensures honest { IsHonestDisk self.new }
    {
        self.device.step()
    }

    /// Notes that these bytes are to be written.
    fn want(&mut self, at: usize, bytes: &[u8])
        requires { at + length bytes.now ≤ length self.old.reads }
        ensures disk { self.new ≡ wanting self.old at bytes.now }
        ensures was_honest { IsHonestDisk self.old }
        ensures marked { IsMarked self.new at (length bytes.now) }
    {
        overwrite(&mut self.wanted, at, bytes);
        set_flags(&mut self.unsynced, at, bytes.len(), true);
        let end = at + bytes.len();
        if self.from == self.to {
            self.from = at;
            self.to = end;
        } else {
            self.from = self.from.min(at);
            self.to = self.to.max(end);
        }
    }

    /// Writes bytes where they are noted.
    fn put(&mut self, at: usize, bytes: &[u8])
        requires in_size { at + length bytes.now ≤ length self.old.reads }
        requires marked { IsMarked self.old at (length bytes.now) }
        ensures disk { self.new ≡ record self.old {
          reads = written self.old.reads at bytes.now;
        } }
        ensures honest { IsHonestDisk self.new }
    {
        overwrite(&mut self.reads, at, bytes);
    }

    /// Notes that all that was written is synced.
    fn settle(&mut self)
        ensures disk { self.new ≡ synced_disk self.old }
        ensures honest { IsHonestDisk self.new }
    {
        let (from, to) = (self.from, self.to);
        overwrite(&mut self.synced, from, &self.reads[from..to]);
        overwrite(&mut self.wanted, from, &self.reads[from..to]);
        set_flags(&mut self.unsynced, from, to - from, false);
        self.from = 0;
        self.to = 0;
    }

    /// The byte that a restart leaves at a place that was written since the last sync.
    fn byte_left(&self, place: usize) -> u8
        requires { place < length self.now.reads }
        ensures { result ≡ byte_left self.now.filling self.now place }
    {
        match self.chosen {
            Filling::Old => self.synced[place],
            Filling::New => self.wanted[place],
            Filling::Fill(byte) => byte,
        }
    }

    /// Leaves at a place what a restart does.
    fn refill(&mut self, place: usize)
        requires { place < length self.old.reads }
        ensures { self.new ≡ refilled_at place self.old }
    {
        if self.unsynced[place] {
            self.reads[place] = self.byte_left(place);
        }
    }

    /// Leaves at each place what a restart does.
    fn refill_all(&mut self)
        ensures refilled { IsRefilled self.old self.new }
        ensures was_honest { IsHonestDisk self.old }
        ensures honest { IsHonestDisk self.new }
    {
        for place in self.from..self.to {
            self.refill(place);
        }
    }
}

impl Disk for MemDisk {
    ghost meaning = { memory_disk_meaning };

    ghost reads_may_stay = { λ disk honest. record {
      same_length = refl;
      as_synced = honest.reads_synced;
    } };

    ghost leaves_its_size = { λ disk honest bytes could. could.same_length };

    fn size(&self) -> u64 {
        self.reads.len() as u64
    }

    fn read_at(&mut self, at: u64, bytes: &mut [u8]) -> Result<(), StoreFault>
        requires { at + length bytes.old ≤ length self.old.reads }
        ensures nature { PreservesDisk (memory_disk_state self.old) (memory_disk_state self.new) }
        ensures arming { StaysArmed (memory_disk_state self.old) (memory_disk_state self.new) }
        ensures bytes { PreservesBytes (memory_disk_state self.old) (memory_disk_state self.new) }
        ensures read { OnOk result ((memory_disk_state self.old).honest
            → bytes.new ≡ range_of at (length bytes.old) self.old.reads) }
        ensures no_failure { OnOk result (self.new.device.failures ≡ self.old.device.failures) }
        ensures failed { IfErr result
            (HasFailed (memory_disk_state self.old) (memory_disk_state self.new)) }
        ensures length { length bytes.new ≡ length bytes.old }
        ensures passed { IfOk result (λ _. HasDiskStepPassed self.old.device self.new.device) }
        ensures due { IfErr result (λ _. IsDiskStepDue self.old.device self.new.device) }
        ensures disk { SameButDevice self.old self.new }
        ensures read_nothing { OnErr result (bytes.new ≡ bytes.old) }
    {
        self.step()?;
        let rest = &self.reads[at as usize..];
        bytes.copy_from_slice(&rest[..bytes.len()]);
        Ok(())
    }

    fn write_at(&mut self, at: u64, bytes: &[u8]) -> Result<(), StoreFault>
        requires { at + length bytes.now ≤ length self.old.reads }
        ensures nature { PreservesDisk (memory_disk_state self.old) (memory_disk_state self.new) }
        ensures arming { StaysArmed (memory_disk_state self.old) (memory_disk_state self.new) }
        ensures torn { LeavesChanged (DiffersWithin at (length bytes.now))
            (memory_disk_state self.old) (memory_disk_state self.new) }
        ensures written { OnOk result ((memory_disk_state self.old).honest
            → self.new.reads ≡ written self.old.reads at bytes.now) }
        ensures no_failure { OnOk result (self.new.device.failures ≡ self.old.device.failures) }
        ensures failed { IfErr result
            (HasFailed (memory_disk_state self.old) (memory_disk_state self.new)) }
        ensures passed { IfOk result (λ _. HasDiskStepPassed self.old.device self.new.device) }
        ensures due { IfErr result (λ _. IsDiskStepDue self.old.device self.new.device) }
        ensures done { OnOk result (SameButDevice (written_disk self.old at bytes.now) self.new) }
        ensures not_done { OnErr result (SameButDevice (wanting self.old at bytes.now) self.new) }
    {
        let at = at as usize;
        self.want(at, bytes);
        self.step()?;
        self.put(at, bytes);
        Ok(())
    }

    fn sync(&mut self) -> Result<(), StoreFault>
        ensures nature { PreservesDisk (memory_disk_state self.old) (memory_disk_state self.new) }
        ensures arming { StaysArmed (memory_disk_state self.old) (memory_disk_state self.new) }
        ensures within { LeavesWithin (memory_disk_state self.old) (memory_disk_state self.new) }
        ensures synced { OnOk result ((memory_disk_state self.old).honest
            → IsSynced (memory_disk_state self.old) (memory_disk_state self.new)) }
        ensures no_failure { OnOk result (self.new.device.failures ≡ self.old.device.failures) }
        ensures failed { IfErr result
            (HasFailed (memory_disk_state self.old) (memory_disk_state self.new)) }
        ensures passed { IfOk result (λ _. HasDiskStepPassed self.old.device self.new.device) }
        ensures due { IfErr result (λ _. IsDiskStepDue self.old.device self.new.device) }
        ensures done { OnOk result (SameButDevice (synced_disk self.old) self.new) }
        ensures not_done { OnErr result (SameButDevice self.old self.new) }
    {
        self.step()?;
        self.settle();
        Ok(())
    }

    fn restart(&mut self) -> Result<(), StoreFault>
        ensures nature { PreservesDisk (memory_disk_state self.old) (memory_disk_state self.new) }
        ensures disarmed { (memory_disk_state self.new).disarmed }
        ensures within { LeavesWithin (memory_disk_state self.old) (memory_disk_state self.new) }
        ensures found { OnOk result ((memory_disk_state self.old).honest
            → (memory_disk_state self.old).may_leave self.new.reads) }
        ensures no_failure { OnOk result (self.new.device.failures ≡ self.old.device.failures) }
        ensures failed { IfErr result
            (HasFailed (memory_disk_state self.old) (memory_disk_state self.new)) }
        ensures never_refused { IsOk result }
        ensures restarted { IsRefilled (disarmed_disk self.old) self.new }
    {
        self.device.disarm();
        self.refill_all();
        Ok(())
    }

    fn arm(&mut self, steps: u32)
        ensures stays { StaysButArmed (memory_disk_state self.old) (memory_disk_state self.new) }
        ensures armed { self.new ≡ armed_disk steps self.old }
    {
        self.device.arm(steps);
    }
}

/// Writes bytes over a list from a place on.
fn overwrite(list: &mut [u8], at: usize, bytes: &[u8])
    requires { at + length bytes.now ≤ length list.old }
    ensures { list.new ≡ written list.old at bytes.now }
{
    list[at..at + bytes.len()].copy_from_slice(bytes);
}

/// Sets so many flags of a list, from a place on.
fn set_flags(flags: &mut [bool], at: usize, count: usize, flag: bool)
    requires { at + count ≤ length flags.old }
    ensures { flags.new
        ≡ take at flags.old ++ (replicate count flag ++ drop (at + count) flags.old) }
{
    flags[at..at + count].fill(flag);
}

/// Bytes, and behind them as many zeros as make a size.
///
/// Refused where the memory for them is.
fn zeros_behind(alloc: Global, front: &[u8], size: usize) -> Result<Vec<u8>, AllocError>
    requires { length front.now ≤ size }
    ensures bytes { IfOk result
        (λ bytes. bytes.items ≡ front.now ++ replicate (size - length front.now) 0) }
{
    let mut bytes = Vec::new(alloc);
    bytes.extend_from_slice(front)?;
    bytes.resize(size, 0)?;
    Ok(bytes)
}
