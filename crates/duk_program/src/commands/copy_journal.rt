//! The command `copy-journal` on the command line.

ghost use Rattle.std.specs.Prelude.{◌≡◌};
ghost use Rattle.duk_program.specs.CommandLine.{row_of};
ghost use Rattle.duk_program.specs.inner.CommandLine.{row_of_usage};

use crate::command_line::CommandName;
use crate::command_line::arguments::Form::Plain;
use crate::command_line::arguments::{Argument, Usage, Way};
use crate::shape::{Answers, Shape};

/// `copy-journal OLD NEW`
pub(crate) fn usage<'a>() -> Usage<'a>
    ensures { row_of_usage result ≡ row_of CommandName.CopyJournal }
{
    Usage {
        name: "copy-journal",
        way: Way::Files,
        answers: Answers::Are(Shape::Whole),
        about: "Copies what a journal keeps into the file of a new one",
        after_help: HELP,
        conflict: None,
        arguments: &[
            Argument::Needed(
                Plain,
                "OLD",
                "The file of the journal, which is read and not written",
            ),
            Argument::Needed(
                Plain,
                "NEW",
                "The file of the copy, which is made and must not be there",
            ),
        ],
    }
}

/// At the end of its help.
const HELP: &str = "\
OLD is checked first, as a host checks its journal when it starts. It may be of version 1. NEW is of version
2, with as much room, the payments that OLD keeps, in the same places, and zeros behind them. NEW and its
folder are synced.

Example:
  $ dukpt new-journal payments.journal 1000
  $ dukpt copy-journal payments.journal copy.journal

Faults, on standard error with status 1, the first alone; --explain says more:
  identity: cannot read  The system's random device gives nothing
  journal: cannot open   OLD is missing, cannot be opened, or is in use by a service
  journal: failed        OLD is damaged, has a number twice, or a device step of it failed
  journal: cannot make   NEW is there, cannot be made, written or synced, or its folder cannot be synced
  out of memory          Memory was refused";
