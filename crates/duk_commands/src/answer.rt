//! Writes the lines of a command, and what is told beside them.

ghost use Rattle.std.specs.Prelude.{◌≡◌, IfErr, OnOk};
ghost use Rattle.duk_commands.specs.declared.fault.Fault.TheVariants.{WriteFailed};
ghost use Rattle.duk_io.specs.Sink.{IsCut, IsTried, IsWritten};

use crate::fault::Fault;
use crate::lines::Lines;
use duk_io::{Sink, write_text};

/// Writes the lines of a command. The fault is `write failed`, where a write failed or took no byte.
pub fn write_lines<W: Sink>(lines: &Lines, output: &mut W) -> Result<(), Fault>
    ensures written { OnOk result
        (IsWritten (W.known output.old) (W.known output.new) lines.now.items) }
    ensures cut { IfErr result (λ why. (why ≡ WriteFailed)
        × IsCut (W.known output.old) (W.known output.new) lines.now.items) }
{
    match write_text(output, lines.as_slice()) {
        Ok(()) => Ok(()),
        Err(_) => Err(Fault::WriteFailed),
    }
}

/// Writes a text beside the lines of a command. What cannot be written of it is lost.
pub fn tell<F: Sink>(fault: &mut F, text: &[u8])
    ensures { IsTried (F.known fault.old) (F.known fault.new) text.now }
{
    let _ = write_text(fault, text);
}
