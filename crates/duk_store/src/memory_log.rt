//! A log of used numbers in memory.

ghost use Rattle.std.specs.Prelude.{◌≡◌, ◌+◌, ◌<◌, ◌≤◌, [], true, Ok, IfOk, IfErr, length};
ghost use Rattle.duk_store.specs.StoreState.{IsNew, StaysButCalm};
ghost use Rattle.duk_store.specs.Restart.{RestartFailed};
ghost use Rattle.duk_store.specs.Log.{LogRestarted, IsAppended, AppendFailed, IsReadAt, ReadFailed, length_of, room_of};
ghost use Rattle.duk_store.specs.MemoryLog.{memory_log_meaning, memory_log_state, new_log, restarted_log, armed_log, IsMemoryAppended, MemoryAppendFailed};

use crate::device::MemoryDevice;
use crate::fault::StoreFault;
use crate::log::UsedLog;
use duk_tree::Ksn;
use std::alloc::Global;
use std::marker::Model;

/// A log in memory, which can be armed to fail at a device step. An append has two device steps: the
/// first keeps the number, the second acknowledges it. Only `new` takes memory.
#[derive(Drop)]
pub struct MemLog {
    /// The numbers kept, and after them places that are free.
    places: Vec<Ksn>,
    len: usize,
    device: MemoryDevice,
}

impl Model for MemLog {
    ghost use Rattle.std.specs.Prelude.{◌≤◌, length, take};
    ghost use Rattle.duk_store.specs.MemoryLog.{MemoryLog};

    ghost Value = { MemoryLog };

    ghost view = { λ log. record {
      numbers = take log.len log.places.items;
      capacity = length log.places.items;
      device = log.device;
    } };

    ghost invariant = { λ log. log.len ≤ length log.places.items };
}

impl MemLog {
    /// A log with no number kept and room for `capacity`, stopped, in which no step is to fail.
    ///
    /// Refused with `NoMemory` where the memory for all of them is.
    pub fn new(alloc: Global, capacity: usize) -> Result<MemLog, StoreFault>
        ensures log { IfOk result (λ log. log ≡ new_log capacity) }
        ensures new { IfOk result (λ log. IsNew (memory_log_state log) []) }
        ensures refused { IfErr result (λ fault. fault ≡ StoreFault.NoMemory) }
    {
        let free = Ksn::from_bytes([0; 10]);
        let places = vec![in alloc; free; capacity]?;
        Ok(MemLog {
            places,
            len: 0,
            device: MemoryDevice::new(),
        })
    }

    /// Appends a number by its two device steps.
    fn push(&mut self, number: Ksn) -> Result<(), StoreFault>
        requires { self.old.device.running ≡ true → length self.old.numbers < self.old.capacity }
        ensures done { IfOk result (λ _. IsMemoryAppended self.old self.new number) }
        ensures not_done { IfErr result (MemoryAppendFailed self.old self.new number) }
    {
        if !self.device.is_running() {
            return Err(StoreFault::Stopped);
        }
        self.device.step()?;
        self.places[self.len] = number;
        self.len += 1;
        self.device.step()
    }
}

impl UsedLog for MemLog {
    ghost meaning = { memory_log_meaning };

    fn restart(&mut self) -> Result<u64, StoreFault>
        ensures found { IfOk result (LogRestarted memory_log_meaning self.old self.new) }
        ensures counted { IfOk result (λ found. length self.new.numbers ≡ found) }
        ensures capacity { self.new.capacity ≡ self.old.capacity }
        ensures failed { IfErr result
            (RestartFailed (memory_log_state self.old) (memory_log_state self.new)) }
        ensures disarmed { memory_log_meaning.disarmed self.new }
        ensures kept { result ≡ Ok (length self.old.numbers) }
        ensures log { self.new ≡ restarted_log self.old }
    {
        self.device.start();
        Ok(self.len as u64)
    }

    fn len(&self) -> u64 {
        if self.device.is_running() {
            self.len as u64
        } else {
            0
        }
    }

    fn room(&self) -> u64 {
        if self.device.is_running() {
            (self.places.len() - self.len) as u64
        } else {
            0
        }
    }

    /// The number at a place of the list. This takes no device step, so that it is refused with
    /// `Stopped` alone.
    fn at(&mut self, place: u64) -> Result<Ksn, StoreFault>
        requires { self.old.device.running ≡ true → place < length self.old.numbers }
        ensures read { IfOk result (IsReadAt memory_log_meaning self.old self.new place) }
        ensures counted { IfOk result (λ _. length self.new.numbers ≡ length self.old.numbers) }
        ensures capacity { self.new.capacity ≡ self.old.capacity }
        ensures disarmed { memory_log_meaning.disarmed self.old
            → memory_log_meaning.disarmed self.new }
        ensures failed { IfErr result (ReadFailed memory_log_meaning self.old self.new) }
        ensures stopped { IfErr result (λ fault. fault ≡ StoreFault.Stopped) }
        ensures same { self.new ≡ self.old }
    {
        if !self.device.is_running() {
            return Err(StoreFault::Stopped);
        }
        Ok(self.places[place as usize])
    }

    #[tactic(auto, using(crate::proofs::MemoryLogMeaning::appended_in_memory))]
    fn append(&mut self, number: Ksn) -> Result<(), StoreFault>
        requires { self.old.device.running ≡ true → length self.old.numbers < self.old.capacity }
        ensures appended { IfOk result
            (λ _. IsAppended memory_log_meaning self.old self.new number) }
        ensures counted { IfOk result (λ _. length self.new.numbers ≡ length self.old.numbers + 1) }
        ensures capacity { self.new.capacity ≡ self.old.capacity }
        ensures failed { IfErr result (AppendFailed memory_log_meaning self.old self.new number) }
        ensures done { IfOk result (λ _. IsMemoryAppended self.old self.new number) }
        ensures not_done { IfErr result (MemoryAppendFailed self.old self.new number) }
    {
        self.push(number)
    }

    fn arm(&mut self, steps: u32)
        ensures stays { StaysButCalm (memory_log_state self.old) (memory_log_state self.new) }
        ensures counted { length self.new.numbers ≡ length self.old.numbers }
        ensures capacity { self.new.capacity ≡ self.old.capacity }
        ensures armed { self.new ≡ armed_log steps self.old }
    {
        self.device.arm(steps);
    }
}
