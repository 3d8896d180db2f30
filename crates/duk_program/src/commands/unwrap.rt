//! The command `unwrap`.

ghost use Rattle.std.specs.Prelude.{◌≡◌, IfErr, IfOk};
ghost use Rattle.duk_program.specs.CommandLine.{row_of};
ghost use Rattle.duk_program.specs.inner.CommandLine.{row_of_usage};
ghost use Rattle.duk_program.specs.Commands.{command_by};

use crate::command_line::arguments::Form::Reference;
use crate::command_line::arguments::{Argument, KBPK, Usage, Way};
use crate::command_line::{CommandName, Request};
use crate::shape::{Answers, Shape};
use duk_commands::{Fault, Lines, unwrap_lines};

/// `unwrap KBPK BLOCK`
pub(crate) fn usage<'a>() -> Usage<'a>
    ensures { row_of_usage result ≡ row_of CommandName.Unwrap }
{
    Usage {
        name: "unwrap",
        way: Way::Lines,
        answers: Answers::Are(Shape::Items(UNWRAPPED)),
        about: "Prints the header fields and the key of a key block (TR-31)",
        after_help: HELP,
        conflict: None,
        arguments: &[KBPK, Argument::Needed(Reference, "BLOCK", "The key block")],
    }
}

/// The lines of a request, or why it is refused.
pub(super) fn lines(request: &Request<'_>) -> Result<Lines, Fault>
    ensures lines { IfOk result
        (λ lines. (command_by CommandName.Unwrap request.now).writes lines.items) }
    ensures refused { IfErr result (command_by CommandName.Unwrap request.now).refuses }
{
    unwrap_lines(request.text("KBPK"), request.text("BLOCK"))
}

/// The names of the lines of an answer.
const UNWRAPPED: &[&str] = &["fields", "key"];

/// At the end of its help.
const HELP: &str = "\
The key block is of ANSI X9.143, version B. What its optional blocks hold is not examined.
With - for BLOCK, key blocks are read from standard input, one a line; one that is refused has the
line of its fault in its place.

KBPK is better written as @FILE (the first line of a file) or @- (of standard input): every user of
the machine sees the words of a process.

Example:
  $ echo DD7515F2BFC17F85CE48F3CA25CB21F6 >kbpk.txt
  $ dukpt unwrap @kbpk.txt B0080P0TE00E000094B420079CC80BA3461F86FE26EFC4A3B8E4FA4C5F5341176EED7B727B8A248E
  fields P0TE00E
  key 3F419E1CB7079442AA37474C2EFBF8B8

Faults, on standard error with status 1, the first alone; --explain says more:
  NAME: ..       The argument NAME as @FILE or @-: cannot read, too long, not UTF-8
  KBPK refused   KBPK is not 32 or 48 hexadecimal digits
  Length         The length of BLOCK is not allowed, or is not the one that it names
  Version        BLOCK does not begin with B
  HeaderField    The header has a character that does not belong there
  OptionalBlock  The optional blocks are not as the header says
  Hex            What follows them is not hexadecimal
  Mac            BLOCK was changed, or KBPK is another key
  Payload        BLOCK has no key of 16 or 24 bytes
  batch: ..      With - for BLOCK: items refused, read failed
  write failed   Standard output takes no more
  out of memory  Memory was refused";
