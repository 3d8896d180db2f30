//! The command `serve` over a log in memory, or in a file: opens that, and serves.

ghost use Rattle.std.specs.Prelude.{IfErr, OnOk};
ghost use Rattle.duk_config.specs.NewHost.{new_host_of};
ghost use Rattle.duk_io.specs.Sink.{IsHandedOn};
ghost use Rattle.duk_service.specs.Serve.{HasNotServedLog, HasServedLog, over_log, serving_of};
ghost use Rattle.duk_service.specs.ServeLogFiles.{IsServedOnDisk, IsUnservedOnDisk};
ghost use Rattle.duk_store.specs.MemoryLog.{memory_log_meaning, new_log};

use crate::left_records::RecordFormat;
use crate::log_files::{Access, LogFiles};
use crate::own_files::open_own;
use crate::serve::serve_over_log;
use crate::serve_fault::ServeFault;
use duk_config::Config;
use duk_host::HostFault;
use duk_io::{Sink, Source};
use duk_store::{Disk, DiskLog, MemLog};
use std::alloc::Global;

/// Serves over a log in memory, which has the room that the configuration says.
pub fn serve_in_memory<R: Source, W: Sink>(
    alloc: Global,
    config: &Config,
    input: &mut R,
    output: &mut W,
) -> Result<(), ServeFault>
    ensures done { OnOk result (HasServedLog (over_log memory_log_meaning)
        (new_host_of config.now (new_log config.now.log))
        (serving_of R.known R.reads W.known input.old input.new output.old output.new)) }
    ensures handed_on { OnOk result (IsHandedOn (W.held_back output.new)) }
    ensures not_done { IfErr result (HasNotServedLog (over_log memory_log_meaning)
        (new_host_of config.now (new_log config.now.log))
        (serving_of R.known R.reads W.known input.old input.new output.old output.new)) }
{
    duk_io::laws::writes();
    match MemLog::new(alloc, config.log as usize) {
        Ok(log) => serve_over_log(alloc, config, log, input, output),
        Err(_) => Err(ServeFault::Host(RecordFormat::Log, HostFault::NoMemory)),
    }
}

/// Serves over a log in the file under a path, which is opened where a log left it. What the
/// configuration says of the log's room is not used.
pub fn serve_on_file<S: LogFiles, R: Source, W: Sink>(
    alloc: Global,
    files: &S,
    config: &Config,
    path: &str,
    input: &mut R,
    output: &mut W,
) -> Result<(), ServeFault>
    requires { S.may_write files.now path.now }
    ensures done { OnOk result (IsServedOnDisk S.Disk.meaning (S.disks files.now path.now)
        config.now (serving_of R.known R.reads W.known input.old input.new output.old output.new)) }
    ensures handed_on { OnOk result (IsHandedOn (W.held_back output.new)) }
    ensures not_done { IfErr result (IsUnservedOnDisk S.Disk.meaning (S.disks files.now path.now)
        config.now (serving_of R.known R.reads W.known input.old input.new output.old output.new)) }
{
    match open_own(files, path, RecordFormat::Log, Access::Write) {
        Ok(disk) => serve_over_log(alloc, config, DiskLog::new(disk), input, output),
        Err(why) => Err(ServeFault::NotOpened(RecordFormat::Log, why)),
    }
}
