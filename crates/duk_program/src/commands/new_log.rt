//! The command `new-log` on the command line.

ghost use Rattle.std.specs.Prelude.{◌≡◌};
ghost use Rattle.duk_program.specs.CommandLine.{row_of};
ghost use Rattle.duk_program.specs.inner.CommandLine.{row_of_usage};

use crate::command_line::CommandName;
use crate::command_line::arguments::Form::{Plain, Reference};
use crate::command_line::arguments::{Argument, Usage, Way};
use crate::shape::{Answers, Shape};

/// `new-log FILE RECORDS`
pub(crate) fn usage<'a>() -> Usage<'a>
    ensures { row_of_usage result ≡ row_of CommandName.NewLog }
{
    Usage {
        name: "new-log",
        way: Way::Files,
        answers: Answers::Are(Shape::Whole),
        about: "Makes the file of a new log",
        after_help: HELP,
        conflict: None,
        arguments: &[
            Argument::Needed(
                Plain,
                "FILE",
                "The file of the log, which is made and must not be there",
            ),
            Argument::Needed(
                Reference,
                "RECORDS",
                "For how many numbers it has room, 1 to 1000000000",
            ),
        ],
    }
}

/// At the end of its help.
const HELP: &str = "\
A log takes 16 bytes for each used number. They are zeros at first, and all of them are written, so that a
device without room for them shows now and not at a number. FILE and its folder are synced.

Example:
  $ dukpt new-log used.log 1000

Faults, on standard error with status 1, the first alone; --explain says more:
  NAME: ..           The argument NAME as @FILE or @-: cannot read, too long, not UTF-8
  records refused    RECORDS is no decimal number of 1 to 1000000000
  log: cannot make   FILE is there, cannot be made, written or synced, or its folder cannot be synced
  out of memory      Memory was refused";
