//! The arguments that the process is started with.

ghost use Rattle.duk_program.specs.Status.{IsStatus};

use duk_commands::{Fault, tell};
use duk_io::Sink;
use std::rt::Env;
use std::{env, io};

/// The arguments of the process, the program's name first.
pub fn process_arguments<R: Env + AllocGlobal>(rt: &R) -> io::Result<Vec<String>> {
    Ok(env::args(rt)?.collect(rt.alloc())?)
}

/// Reports why the arguments of the process could not be read, and gives the status.
pub fn refuse_arguments<F: Sink>(error: &io::Error, fault: &mut F) -> u8
    ensures { IsStatus result }
{
    if error.kind() == io::ErrorKind::OutOfMemory {
        return refuse_memory(fault);
    }
    tell(fault, b"error: a word is not UTF-8\n");
    2
}

/// Reports that there is no memory to read the arguments, and gives the status.
pub fn refuse_memory<F: Sink>(fault: &mut F) -> u8
    ensures { IsStatus result }
{
    tell(fault, Fault::OutOfMemory.line().as_slice());
    1
}
