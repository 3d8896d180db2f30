//! The command `walk`.

ghost use Rattle.std.specs.Prelude.{◌≡◌, IfErr, OnOk};
ghost use Rattle.duk_program.specs.CommandLine.{row_of};
ghost use Rattle.duk_program.specs.inner.CommandLine.{row_of_usage};
ghost use Rattle.duk_commands.specs.Answer.{IsDone, IsNotDone};
ghost use Rattle.duk_program.specs.Commands.{command_by};

use crate::command_line::arguments::Form::Reference;
use crate::command_line::arguments::{Argument, BDK, IKSN, INITIAL_KEY, Usage, Way};
use crate::command_line::{CommandName, Request};
use crate::commands::key_of;
use crate::shape::{Answers, Shape};
use duk_commands::{Fault, walk_command};
use duk_io::Sink;

/// `walk BDK IKSN COUNT [--skip K] [--ksn] [--initial]`
pub(crate) fn usage<'a>() -> Usage<'a>
    ensures { row_of_usage result ≡ row_of CommandName.Walk }
{
    Usage {
        name: "walk",
        way: Way::LineByLine,
        answers: Answers::Are(Shape::Numbers),
        about: "Walks a terminal through its numbers and prints the key of each",
        after_help: HELP,
        conflict: None,
        arguments: &[
            BDK,
            IKSN,
            Argument::Needed(
                Reference,
                "COUNT",
                "How many numbers to print, at most 1048576",
            ),
            Argument::Valued(Reference, "skip", "K", "Skips K numbers before printing"),
            Argument::Flag("ksn", "Prints the key serial numbers alone"),
            INITIAL_KEY,
        ],
    }
}

/// Writes the lines of a request.
pub(super) fn write<W: Sink>(request: &Request<'_>, output: &mut W) -> Result<(), Fault>
    ensures done { OnOk result (IsDone (command_by CommandName.Walk request.now)
        (W.known output.old) (W.known output.new)) }
    ensures not_done { IfErr result (λ why. IsNotDone (command_by CommandName.Walk request.now) why
        (W.known output.old) (W.known output.new)) }
{
    walk_command(
        key_of(request),
        request.text("IKSN"),
        request.text("COUNT"),
        request.value("skip"),
        request.flag("ksn"),
        output,
    )
}

/// At the end of its help.
const HELP: &str = "\
The terminal is loaded with the initial key of IKSN, or with BDK itself under --initial, and skips K
numbers. Then it takes up to COUNT numbers. `spent` is printed where a number is to be taken and
none is left. An IKSN of 16 digits is refused: write FFFF before it.

BDK is better written as @FILE (the first line of a file) or @- (of standard input): every user of
the machine sees the words of a process.

Examples:
  $ echo 0123456789ABCDEFFEDCBA9876543210 >bdk.txt
  $ dukpt walk @bdk.txt FFFF9876543210E00000 1
  FFFF9876543210E00001 042666B49184CFA368DE9628D0397BC9
  $ dukpt walk @bdk.txt FFFF9876543210E00000 2 --skip 1048574 --ksn
  FFFF9876543210FFF800
  spent

Faults, on standard error with status 1, the first alone; --explain says more:
  NAME: ..         The argument NAME as @FILE or @-: cannot read, too long, not UTF-8
  BDK refused      BDK is not 32 hexadecimal digits
  initial refused  The same, with --initial
  IKSN refused     IKSN is not 20 hexadecimal digits with a counter of zero
  count refused    COUNT or K is no number, or is above 1048576
  write failed     Standard output takes no more
  out of memory    Memory was refused";
