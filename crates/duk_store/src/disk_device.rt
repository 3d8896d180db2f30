//! Which device step of a disk fails, and how many failed.

ghost use Rattle.std.specs.Prelude.{◌≡◌, ◌≢◌, Some, None, IfOk, IfErr, IsTrue, ◌↔◌};
ghost use Rattle.duk_store.specs.DiskDevice.{HasDiskStepPassed, IsDue, IsDiskStepDue, armed_device, disarmed_device, failing_once, new_disk_device, once_left, passes_left, with_failure};

use crate::fault::StoreFault;
use std::marker::Model;

/// Which device step of a disk is to fail, and how many failed.
#[derive(Drop)]
pub struct DiskDevice {
    /// How many steps pass before each one fails, until that is taken back.
    passes: Option<u32>,
    /// How many steps pass before one fails.
    once: Option<u32>,
    failures: u64,
}

impl Model for DiskDevice {
    ghost use Rattle.duk_store.specs.DiskDevice.{DiskDevice};

    ghost Value = { DiskDevice };

    ghost view = { λ device. record {
      passes = device.passes;
      once = device.once;
      failures = device.failures;
    } };
}

impl DiskDevice {
    /// A device in which no step is to fail.
    pub fn new() -> Self
        ensures { result ≡ new_disk_device }
    {
        DiskDevice {
            passes: None,
            once: None,
            failures: 0,
        }
    }

    /// Lets the next `steps` steps pass and each later one fail.
    pub fn arm(&mut self, steps: u32)
        ensures { self.new ≡ armed_device steps self.old }
    {
        self.passes = Some(steps);
    }

    /// Disarms: takes back what `arm` asked for.
    pub fn disarm(&mut self)
        ensures { self.new ≡ disarmed_device self.old }
    {
        self.passes = None;
    }

    /// Lets the next `steps` steps pass and the one after them fail.
    pub fn fail_once(&mut self, steps: u32)
        ensures { self.new ≡ failing_once steps self.old }
    {
        self.once = Some(steps);
    }

    /// A device step: it passes, or fails where it comes due. Both ways of failing count it.
    pub fn step(&mut self) -> Result<(), StoreFault>
        ensures passed { IfOk result (λ _. HasDiskStepPassed self.old self.new) }
        ensures due { IfErr result
            (λ fault. (fault ≡ StoreFault.Device) × IsDiskStepDue self.old self.new) }
        ensures arming { self.new.passes ≡ None → self.old.passes ≡ None }
    {
        let is_due = is_at_its_step(self.passes) || is_at_its_step(self.once);
        self.passes = after_each(self.passes);
        self.once = after_one(self.once);
        if is_due {
            return Err(self.fail());
        }
        Ok(())
    }

    /// Counts a failure, and answers its fault.
    pub fn fail(&mut self) -> StoreFault
        ensures fault { result ≡ StoreFault.Device }
        ensures device { self.new ≡ with_failure self.old }
        ensures counted { self.new.failures ≢ self.old.failures }
    {
        self.failures = self.failures.wrapping_add(1);
        StoreFault::Device
    }
}

/// Whether no step is to pass before one that fails.
fn is_at_its_step(passes: Option<u32>) -> bool
    ensures { IsTrue result ↔ (passes ≡ Some 0) }
{
    matches!(passes, Some(0))
}

/// How many steps are still to pass before each one fails.
fn after_each(passes: Option<u32>) -> Option<u32>
    ensures { result ≡ passes_left passes }
{
    passes.map(|passes| passes.saturating_sub(1))
}

/// How many steps are still to pass before one fails.
fn after_one(passes: Option<u32>) -> Option<u32>
    ensures { result ≡ once_left passes }
{
    passes.and_then(|passes| passes.checked_sub(1))
}
