//! The command `unpin`.

ghost use Rattle.std.specs.Prelude.{◌≡◌, IfErr, IfOk};
ghost use Rattle.duk_program.specs.CommandLine.{row_of};
ghost use Rattle.duk_program.specs.inner.CommandLine.{row_of_usage};
ghost use Rattle.duk_program.specs.Commands.{command_by};

use crate::command_line::arguments::Form::Reference;
use crate::command_line::arguments::{Argument, PAN, Usage, Way};
use crate::command_line::{CommandName, Request};
use crate::shape::{Answers, Shape};
use duk_commands::{Fault, Lines, unpin_lines};

/// `unpin BLOCK PAN [--key KEY] [--show]`
pub(crate) fn usage<'a>() -> Usage<'a>
    ensures { row_of_usage result ≡ row_of CommandName.Unpin }
{
    Usage {
        name: "unpin",
        way: Way::Lines,
        answers: Answers::Are(Shape::Whole),
        about: "Says whether a PIN block is valid, or prints its PIN",
        after_help: HELP,
        conflict: None,
        arguments: &[
            Argument::Needed(Reference, "BLOCK", "The PIN block, 16 hexadecimal digits"),
            PAN,
            Argument::Valued(
                Reference,
                "key",
                "KEY",
                "Deciphers the block under this key, 32 hexadecimal digits",
            ),
            Argument::Flag("show", "Prints the PIN"),
        ],
    }
}

/// The lines of a request, or why it is refused.
pub(super) fn lines(request: &Request<'_>) -> Result<Lines, Fault>
    ensures lines { IfOk result
        (λ lines. (command_by CommandName.Unpin request.now).writes lines.items) }
    ensures refused { IfErr result (command_by CommandName.Unpin request.now).refuses }
{
    unpin_lines(
        request.text("BLOCK"),
        request.text("PAN"),
        request.value("key"),
        request.flag("show"),
    )
}

/// At the end of its help.
const HELP: &str = "\
The PIN block is of ISO 9564-1 format 0. KEY is a PIN key, as `derive` prints it. Without --show the
PIN is not printed.

BLOCK, PAN and KEY are better written as @FILE (the first line of a file) or @- (of standard input):
every user of the machine sees the words of a process.

Examples:
  $ echo 4012345678909 >pan.txt
  $ echo 042666B49184CF5C68DE9628D0397B36 >key.txt
  $ dukpt unpin 1B9C1845EB993A7A @pan.txt --key @key.txt
  block valid
  $ echo 041274EDCBA9876F | dukpt unpin @- @pan.txt --show
  pin 1234

Faults, on standard error with status 1, the first alone; --explain says more:
  NAME: ..       The argument NAME as @FILE or @-: cannot read, too long, not UTF-8
  block refused  BLOCK is not 16 hexadecimal digits
  PanLength      PAN is not 12 to 19 characters
  PanDigit       PAN has a character that is no digit
  key refused    KEY is not 32 hexadecimal digits
  NotAPinBlock   The block holds no PIN of this PAN, or was enciphered under another key
  write failed   Standard output takes no more
  out of memory  Memory was refused";
