//! The command `wrap`.

ghost use Rattle.std.specs.Prelude.{◌≡◌, IfErr, IfOk};
ghost use Rattle.duk_program.specs.CommandLine.{row_of};
ghost use Rattle.duk_program.specs.inner.CommandLine.{row_of_usage};
ghost use Rattle.duk_program.specs.Commands.{command_by};

use crate::command_line::arguments::Form::Reference;
use crate::command_line::arguments::{Argument, KBPK, Usage, Way};
use crate::command_line::{CommandName, Request};
use crate::shape::{Answers, Shape};
use duk_commands::{Fault, Lines, wrap_line};

/// `wrap KBPK FIELDS KEY PAD`
pub(crate) fn usage<'a>() -> Usage<'a>
    ensures { row_of_usage result ≡ row_of CommandName.Wrap }
{
    Usage {
        name: "wrap",
        way: Way::Lines,
        answers: Answers::Are(Shape::Bare("block")),
        about: "Prints the key block (TR-31) of a key",
        after_help: HELP,
        conflict: None,
        arguments: &[
            KBPK,
            Argument::Needed(
                Reference,
                "FIELDS",
                "The header fields, 7 bytes: usage, algorithm, mode, version and exportability",
            ),
            Argument::Needed(Reference, "KEY", "The key, 32 or 48 hexadecimal digits"),
            Argument::Needed(
                Reference,
                "PAD",
                "The padding in hexadecimal, which should be random",
            ),
        ],
    }
}

/// The lines of a request, or why it is refused.
pub(super) fn lines(request: &Request<'_>) -> Result<Lines, Fault>
    ensures lines { IfOk result
        (λ lines. (command_by CommandName.Wrap request.now).writes lines.items) }
    ensures refused { IfErr result (command_by CommandName.Wrap request.now).refuses }
{
    wrap_line(
        request.text("KBPK"),
        request.text("FIELDS"),
        request.text("KEY"),
        request.text("PAD"),
    )
}

/// At the end of its help.
const HELP: &str = "\
The key block is of ANSI X9.143, version B, without optional blocks. PAD is 6 bytes, and 8 more for
each block that is to hide the key's length.

KBPK and KEY are better written as @FILE (the first line of a file) or @- (of standard input): every
user of the machine sees the words of a process.

Example:
  $ echo DD7515F2BFC17F85CE48F3CA25CB21F6 >kbpk.txt
  $ echo 3F419E1CB7079442AA37474C2EFBF8B8 >key.txt
  $ dukpt wrap @kbpk.txt P0TE00E @key.txt A5A5A5A5A5A5
  B0080P0TE00E0000E7EA8C782E7641E7CE775995E04329A4A0870CA20BF8F6E92E580F2E81EC0BA5

Faults, on standard error with status 1, the first alone; --explain says more:
  NAME: ..        The argument NAME as @FILE or @-: cannot read, too long, not UTF-8
  KBPK refused    KBPK is not 32 or 48 hexadecimal digits
  fields refused  FIELDS is not 7 bytes
  key refused     KEY is not 32 or 48 hexadecimal digits
  pad refused     PAD is not pairs of hexadecimal digits
  HeaderField     FIELDS has a character that is not printable
  PadLength       Length, key and padding fill no whole blocks, or the key block is too long
  write failed    Standard output takes no more
  out of memory   Memory was refused";
