//! The command `copy-ledger` on the command line.

ghost use Rattle.std.specs.Prelude.{◌≡◌};
ghost use Rattle.duk_program.specs.CommandLine.{row_of};
ghost use Rattle.duk_program.specs.inner.CommandLine.{row_of_usage};

use crate::command_line::CommandName;
use crate::command_line::arguments::Form::Plain;
use crate::command_line::arguments::{Argument, Usage, Way};
use crate::shape::{Answers, Shape};

/// `copy-ledger OLD NEW`
pub(crate) fn usage<'a>() -> Usage<'a>
    ensures { row_of_usage result ≡ row_of CommandName.CopyLedger }
{
    Usage {
        name: "copy-ledger",
        way: Way::Files,
        answers: Answers::Are(Shape::Whole),
        about: "Copies a ledger of version 1 into the file of a new one",
        after_help: HELP,
        conflict: None,
        arguments: &[
            Argument::Needed(
                Plain,
                "OLD",
                "The file of the ledger, which is read and not written",
            ),
            Argument::Needed(
                Plain,
                "NEW",
                "The file of the copy, which is made and must not be there",
            ),
        ],
    }
}

/// At the end of its help.
const HELP: &str = "\
OLD is a ledger of version 1, which has the form of a log. NEW is of version 2, with as much room, the
numbers that OLD keeps, in the same order, and zeros behind them. OLD does not say how its keys were made,
so NEW has no check values and no run of them. NEW and its folder are synced.

Example:
  $ dukpt new-log old.ledger 1000
  $ dukpt copy-ledger old.ledger issued.ledger

Faults, on standard error with status 1, the first alone; --explain says more:
  identity: cannot read      The system's random device gives nothing
  ledger: cannot open        OLD is missing, cannot be opened, or is in use
  ledger: version 2 already  OLD is of version 2, which needs no copy
  ledger: failed             OLD is damaged, has a number of no initial key, or a device step of it failed
  ledger: cannot make        NEW is there, cannot be made, written or synced, or its folder cannot be synced
  out of memory              Memory was refused";
