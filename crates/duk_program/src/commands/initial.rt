//! The command `initial`.

ghost use Rattle.std.specs.Prelude.{◌≡◌, IfErr, IfOk};
ghost use Rattle.duk_program.specs.CommandLine.{row_of};
ghost use Rattle.duk_program.specs.inner.CommandLine.{row_of_usage};
ghost use Rattle.duk_program.specs.Commands.{command_by};

use crate::command_line::arguments::{BDK, IKSN, Usage, Way};
use crate::command_line::{CommandName, Request};
use crate::shape::{Answers, Shape};
use duk_commands::{Fault, Lines, initial_lines};

/// `initial BDK IKSN`
pub(crate) fn usage<'a>() -> Usage<'a>
    ensures { row_of_usage result ≡ row_of CommandName.Initial }
{
    Usage {
        name: "initial",
        way: Way::Lines,
        answers: Answers::Are(Shape::Whole),
        about: "Prints the initial key (IPEK) of a terminal, and its check value",
        after_help: HELP,
        conflict: None,
        arguments: &[BDK, IKSN],
    }
}

/// The lines of a request, or why it is refused.
pub(super) fn lines(request: &Request<'_>) -> Result<Lines, Fault>
    ensures lines { IfOk result
        (λ lines. (command_by CommandName.Initial request.now).writes lines.items) }
    ensures refused { IfErr result (command_by CommandName.Initial request.now).refuses }
{
    initial_lines(request.text("BDK"), request.text("IKSN"))
}

/// At the end of its help.
const HELP: &str = "\
Other tools call this key IPEK or IK. Its check value is the first three bytes of zeros enciphered
under it.

BDK is better written as @FILE (the first line of a file) or @- (of standard input): every user of
the machine sees the words of a process.

Example:
  $ echo 0123456789ABCDEFFEDCBA9876543210 >bdk.txt
  $ dukpt initial @bdk.txt FFFF9876543210E00000
  initial 6AC292FAA1315B4D858AB3A3D7D5933A
  kcv AF8C07

Faults, on standard error with status 1, the first alone; --explain says more:
  NAME: ..       The argument NAME as @FILE or @-: cannot read, too long, not UTF-8
  BDK refused    BDK is not 32 hexadecimal digits
  IKSN refused   IKSN is not 20 hexadecimal digits with a counter of zero
  write failed   Standard output takes no more
  out of memory  Memory was refused";
