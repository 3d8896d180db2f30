//! A cell in memory, for trials.

ghost use Rattle.std.specs.Prelude.{◌≡◌, None, Ok, IfOk, IfErr};
ghost use Rattle.duk_store.specs.StoreState.{IsNew, StaysButCalm};
ghost use Rattle.duk_store.specs.Cell.{IsPut, PutFailed};
ghost use Rattle.duk_store.specs.Restart.{Restarted, RestartFailed};
ghost use Rattle.duk_store.specs.MemoryCell.{MemoryCell, memory_cell_meaning, memory_cell_state, new_cell, restarted, armed_cell, IsMemoryPut, MemoryPutFailed};

use crate::cell::{Body, Cell};
use crate::device::MemoryDevice;
use crate::fault::StoreFault;
use std::marker::Model;

/// A cell in memory, for trials: it can be armed to fail at a device step. A write has two device
/// steps: the first keeps the new body, the second acknowledges it.
#[derive(Drop)]
pub struct MemCell {
    kept: Option<Body>,
    device: MemoryDevice,
}

impl Model for MemCell {
    ghost Value = { MemoryCell };

    ghost view = { λ cell. record { kept = cell.kept; device = cell.device } };
}

impl MemCell {
    /// A cell with nothing kept, stopped, in which no step is to fail.
    pub fn new() -> MemCell
        ensures cell { result ≡ new_cell }
        ensures new { IsNew (memory_cell_state result) None }
    {
        MemCell {
            kept: None,
            device: MemoryDevice::new(),
        }
    }
}

impl Cell for MemCell {
    ghost meaning = { memory_cell_meaning };

    fn restart(&mut self) -> Result<Option<Body>, StoreFault>
        ensures found { IfOk result
            (Restarted (memory_cell_state self.old) (memory_cell_state self.new)) }
        ensures failed { IfErr result
            (RestartFailed (memory_cell_state self.old) (memory_cell_state self.new)) }
        ensures disarmed { memory_cell_meaning.disarmed self.new }
        ensures kept { result ≡ Ok self.old.kept }
        ensures cell { self.new ≡ restarted self.old }
    {
        self.device.start();
        Ok(self.kept)
    }

    fn put(&mut self, body: &Body) -> Result<(), StoreFault>
        ensures kept { IfOk result (λ _. IsPut memory_cell_meaning self.old self.new body.now) }
        ensures after_put { IfOk result
            (λ _. memory_cell_meaning.after_put self.new body.now) }
        ensures failed { IfErr result (PutFailed memory_cell_meaning self.old self.new body.now) }
        ensures done { IfOk result (λ _. IsMemoryPut self.old self.new body.now) }
        ensures not_done { IfErr result (MemoryPutFailed self.old self.new body.now) }
    {
        if !self.device.is_running() {
            return Err(StoreFault::Stopped);
        }
        self.device.step()?;
        self.kept = Some(*body);
        self.device.step()
    }

    fn arm(&mut self, steps: u32)
        ensures stays { StaysButCalm (memory_cell_state self.old) (memory_cell_state self.new) }
        ensures armed { self.new ≡ armed_cell steps self.old }
    {
        self.device.arm(steps);
    }
}
