//! The command `pin`.

ghost use Rattle.std.specs.Prelude.{◌≡◌, IfErr, IfOk};
ghost use Rattle.duk_program.specs.CommandLine.{row_of};
ghost use Rattle.duk_program.specs.inner.CommandLine.{row_of_usage};
ghost use Rattle.duk_program.specs.Commands.{command_by};

use crate::command_line::arguments::Form::Reference;
use crate::command_line::arguments::{Argument, PAN, Usage, Way};
use crate::command_line::{CommandName, Request};
use crate::shape::{Answers, Shape};
use duk_commands::{Fault, Lines, pin_lines};

/// `pin PIN PAN [--key KEY]`
pub(crate) fn usage<'a>() -> Usage<'a>
    ensures { row_of_usage result ≡ row_of CommandName.Pin }
{
    Usage {
        name: "pin",
        way: Way::Lines,
        answers: Answers::Are(Shape::Items(PIN_BLOCKS)),
        about: "Prints the PIN block of a PIN and a PAN, and the block enciphered",
        after_help: HELP,
        conflict: None,
        arguments: &[
            Argument::Needed(Reference, "PIN", "The PIN, 4 to 12 digits"),
            PAN,
            Argument::Valued(
                Reference,
                "key",
                "KEY",
                "Enciphers the block under this key, 32 hexadecimal digits",
            ),
        ],
    }
}

/// The lines of a request, or why it is refused.
pub(super) fn lines(request: &Request<'_>) -> Result<Lines, Fault>
    ensures lines { IfOk result
        (λ lines. (command_by CommandName.Pin request.now).writes lines.items) }
    ensures refused { IfErr result (command_by CommandName.Pin request.now).refuses }
{
    pin_lines(
        request.text("PIN"),
        request.text("PAN"),
        request.value("key"),
    )
}

/// The names of the lines of an answer.
const PIN_BLOCKS: &[&str] = &["block", "enciphered"];

/// At the end of its help.
const HELP: &str = "\
The PIN block is of ISO 9564-1 format 0. The check digit of PAN is not verified. KEY is a PIN key,
as `derive` prints it. With - for PIN or for PAN, these are read from standard input, one a line; one
that is refused has the line of its fault in its place.

PIN, PAN and KEY are better written as @FILE (the first line of a file) or @- (of standard input):
every user of the machine sees the words of a process.

Example:
  $ echo 4012345678909 >pan.txt
  $ echo 042666B49184CF5C68DE9628D0397B36 >key.txt
  $ echo 1234 | dukpt pin @- @pan.txt --key @key.txt
  block 041274EDCBA9876F
  enciphered 1B9C1845EB993A7A

Faults, on standard error with status 1, the first alone; --explain says more:
  NAME: ..       The argument NAME as @FILE or @-: cannot read, too long, not UTF-8
  PinLength      PIN is not 4 to 12 characters
  PinDigit       PIN has a character that is no digit
  PanLength      PAN is not 12 to 19 characters
  PanDigit       PAN has a character that is no digit
  key refused    KEY is not 32 hexadecimal digits
  batch: ..      With - for PIN or PAN: items refused, read failed
  write failed   Standard output takes no more
  out of memory  Memory was refused";
