//! The command `grow-journal` on the command line.

ghost use Rattle.std.specs.Prelude.{◌≡◌};
ghost use Rattle.duk_program.specs.CommandLine.{row_of};
ghost use Rattle.duk_program.specs.inner.CommandLine.{row_of_usage};

use crate::command_line::CommandName;
use crate::command_line::arguments::Form::{Plain, Reference};
use crate::command_line::arguments::{Argument, Usage, Way};
use crate::shape::{Answers, Shape};

/// `grow-journal FILE RECORDS`
pub(crate) fn usage<'a>() -> Usage<'a>
    ensures { row_of_usage result ≡ row_of CommandName.GrowJournal }
{
    Usage {
        name: "grow-journal",
        way: Way::Files,
        answers: Answers::Are(Shape::Whole),
        about: "Makes the file of a journal larger, while no service has it",
        after_help: HELP,
        conflict: None,
        arguments: &[
            Argument::Needed(
                Plain,
                "FILE",
                "The file of the journal, which keeps what it keeps",
            ),
            Argument::Needed(
                Reference,
                "RECORDS",
                "How many records more it has then, 1 to 1000000000; a sixteenth of all is for reversals",
            ),
        ],
    }
}

/// At the end of its help.
const HELP: &str = "\
Stop the service first. FILE is locked, looked at, and not changed; zeros are written behind its end, 32
bytes for each record, and synced. A stop leaves it with what it keeps and a part of them. If that is no
whole record, a service refuses the journal until it is made larger again, which completes the record.

Example:
  $ dukpt new-journal payments.journal 1000
  $ dukpt grow-journal payments.journal 1000

Faults, on standard error with status 1, the first alone; --explain says more:
  NAME: ..                The argument NAME as @FILE or @-: cannot read, too long, not UTF-8
  records refused         RECORDS is no decimal number of 1 to 1000000000
  journal: cannot open    FILE is missing, cannot be opened, or is in use by a service
  journal: failed         FILE has bytes that no journal leaves, or a read of it failed
  journal: version 1, ..  FILE is a journal of version 1: copy it with copy-journal, and grow that
  journal: cannot grow    FILE would be larger than a file may be, or a write or sync failed
  out of memory           Memory was refused";
