//! The command `registers`.

ghost use Rattle.std.specs.Prelude.{◌≡◌, IfErr, IfOk};
ghost use Rattle.duk_program.specs.CommandLine.{row_of};
ghost use Rattle.duk_program.specs.inner.CommandLine.{row_of_usage};
ghost use Rattle.duk_program.specs.Commands.{command_by};

use crate::command_line::arguments::{BDK, INITIAL_KEY, KSN, Usage, Way};
use crate::command_line::{CommandName, Request};
use crate::commands::key_of;
use crate::shape::{Answers, Shape};
use duk_commands::{Fault, Lines, registers_lines};

/// `registers BDK KSN [--initial]`
pub(crate) fn usage<'a>() -> Usage<'a>
    ensures { row_of_usage result ≡ row_of CommandName.Registers }
{
    Usage {
        name: "registers",
        way: Way::Lines,
        answers: Answers::Are(Shape::Whole),
        about: "Prints the 21 registers of a terminal at a key serial number",
        after_help: HELP,
        conflict: None,
        arguments: &[BDK, KSN, INITIAL_KEY],
    }
}

/// The lines of a request, or why it is refused.
pub(super) fn lines(request: &Request<'_>) -> Result<Lines, Fault>
    ensures lines { IfOk result
        (λ lines. (command_by CommandName.Registers request.now).writes lines.items) }
    ensures refused { IfErr result (command_by CommandName.Registers request.now).refuses }
{
    registers_lines(key_of(request), request.text("KSN"))
}

/// At the end of its help.
const HELP: &str = "\
KSN is the number that the terminal takes next. Each of the 21 lines has a place of the counter,
from the least significant bit on, the number of its Future Key Register, and the key serial number
and key that the register holds, or `empty`.

BDK is better written as @FILE (the first line of a file) or @- (of standard input): every user of
the machine sees the words of a process.

Example:
  $ echo 0123456789ABCDEFFEDCBA9876543210 >bdk.txt
  $ dukpt registers @bdk.txt FFFF9876543210E00002 | sed -n 1,3p
  register 0 21 empty
  register 1 20 FFFF9876543210E00002 C46551CEF9FD24B0AA9AD834130D3BC7
  register 2 19 FFFF9876543210E00004 279C0F6AEED0BE652B2C733E1383AE91

Faults, on standard error with status 1, the first alone; --explain says more:
  NAME: ..         The argument NAME as @FILE or @-: cannot read, too long, not UTF-8
  BDK refused      BDK is not 32 hexadecimal digits
  initial refused  The same, with --initial
  KSN refused      KSN is not 20 hexadecimal digits
  counter refused  The counter of KSN is zero or has more than ten one bits
  write failed     Standard output takes no more
  out of memory    Memory was refused";
