//! Reads the configuration from its file.

ghost use Rattle.std.specs.Prelude.{IfErr, IfOk};
ghost use Rattle.duk_program.specs.Configured.{IsConfigured, IsConfigRefused};

use crate::fault::Fault;
use duk_config::{Config, LONGEST_FILE, ScriptFault, read_config};
use duk_service::{FileFault, FileSystem};
use std::alloc::Global;

/// The configuration that the file under a path states.
///
/// The faults, in this order: `config: cannot read` and `config: too long`, then those of the
/// configuration. A file cannot be read where it cannot be opened or a read fails, so a folder
/// cannot. Where the cause is that memory was refused, the fault is `out of memory` instead.
pub(crate) fn read_configuration<S: FileSystem>(
    alloc: Global,
    files: &S,
    path: &str,
) -> Result<Config, Fault>
    ensures configured { IfOk result (IsConfigured (S.held files.now path.now)) }
    ensures refused { IfErr result (IsConfigRefused (S.held files.now path.now)) }
{
    let bytes = match files.read_file(alloc, path, LONGEST_FILE) {
        Ok(bytes) => bytes,
        Err(FileFault::CannotRead) => return Err(Fault::ConfigUnread),
        Err(FileFault::TooLong) => return Err(Fault::Script(ScriptFault::ConfigTooLong)),
        Err(FileFault::NoMemory) => return Err(Fault::Script(ScriptFault::NoMemory)),
    };
    match read_config(alloc, bytes.as_slice()) {
        Ok(config) => Ok(config),
        Err(why) => Err(Fault::Script(why)),
    }
}
