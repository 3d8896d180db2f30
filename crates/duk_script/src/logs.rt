//! Makes the log of a configuration's host.

ghost use Rattle.std.specs.Prelude.{◌≡◌, ◌≤◌, [], IfOk, IfErr};
ghost use Rattle.duk_script.specs.OnDisk.{log_on_disk_meaning, new_log_on_disk};
ghost use Rattle.duk_store.specs.MemoryLog.{memory_log_meaning, new_log};
ghost use Rattle.duk_store.specs.StoreState.{IsNew};

use duk_config::ScriptFault;
use duk_store::{DiskLog, MemDisk, MemLog, RECORD_LENGTH};
use std::alloc::Global;

/// The log of a host, on a disk in memory.
pub(crate) type LogOnDisk = DiskLog<MemDisk>;

/// A new log in memory, with room for so many numbers. Refused with `NoMemory`.
pub(crate) fn memory_log(alloc: Global, room: u32) -> Result<MemLog, ScriptFault>
    ensures made { IfOk result (λ log. log ≡ new_log room) }
    ensures new { IfOk result (λ log. IsNew (memory_log_meaning.state_of log) []) }
    ensures refused { IfErr result (λ why. why ≡ ScriptFault.NoMemory) }
{
    let Ok(log) = MemLog::new(alloc, room as usize) else {
        return Err(ScriptFault::NoMemory);
    };
    Ok(log)
}

/// A new log on a new disk with room for so many numbers. Refused with `NoMemory`.
pub(crate) fn disk_log(alloc: Global, room: u32) -> Result<LogOnDisk, ScriptFault>
    requires { 1 ≤ room }
    ensures made { IfOk result (λ log. log ≡ new_log_on_disk room) }
    ensures new { IfOk result (λ log. IsNew (log_on_disk_meaning.state_of log) []) }
    ensures refused { IfErr result (λ why. why ≡ ScriptFault.NoMemory) }
{
    duk_store::laws::new_disk_log();
    let Ok(disk) = MemDisk::new(alloc, RECORD_LENGTH * room as usize) else {
        return Err(ScriptFault::NoMemory);
    };
    Ok(DiskLog::new(disk))
}
