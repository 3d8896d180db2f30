//! The command `mac`.

ghost use Rattle.std.specs.Prelude.{◌≡◌, IfErr, IfOk};
ghost use Rattle.duk_program.specs.CommandLine.{row_of};
ghost use Rattle.duk_program.specs.inner.CommandLine.{row_of_usage};
ghost use Rattle.duk_program.specs.Commands.{message_by};

use crate::command_line::arguments::Form::{Plain, Reference};
use crate::command_line::arguments::{Argument, Usage, Way};
use crate::command_line::{CommandName, Request};
use crate::shape::{Answers, Shape};
use duk_commands::{Fault, Lines, mac_lines};
use std::alloc::Global;

/// `mac KEY TEXT [--cmac] [--hex]`
pub(crate) fn usage<'a>() -> Usage<'a>
    ensures { row_of_usage result ≡ row_of CommandName.Mac }
{
    Usage {
        name: "mac",
        way: Way::Message,
        answers: Answers::Are(Shape::Whole),
        about: "Prints the MAC of a text",
        after_help: HELP,
        conflict: None,
        arguments: &[
            Argument::Needed(
                Reference,
                "KEY",
                "The key, 32 hexadecimal digits; with --cmac 32 or 48",
            ),
            Argument::Needed(Plain, "TEXT", "The text, whose bytes the MAC is of"),
            Argument::Flag("cmac", "Prints the CMAC, and not the retail MAC"),
            Argument::Flag("hex", "TEXT is bytes in hexadecimal"),
        ],
    }
}

/// The lines of a request over these bytes of its TEXT, or why it is refused.
pub(super) fn lines(alloc: Global, request: &Request<'_>, message: &[u8]) -> Result<Lines, Fault>
    ensures lines { IfOk result
        (λ lines. (message_by CommandName.Mac request.now message.now).writes lines.items) }
    ensures refused { IfErr result (message_by CommandName.Mac request.now message.now).refuses }
{
    mac_lines(
        alloc,
        request.text("KEY"),
        message,
        request.flag("cmac"),
        request.flag("hex"),
    )
}

/// At the end of its help.
const HELP: &str = "\
The retail MAC is of ANSI X9.19, the CMAC of NIST SP 800-38B. With --hex TEXT stands for the bytes
of its pairs of digits.

KEY is better written as @FILE (the first line of a file) or @- (of standard input): every user of
the machine sees the words of a process. TEXT as @FILE is all bytes of a file, up to 16777216, and as
@- all that standard input has left. A TEXT that begins with an @ is written with two.

Examples:
  $ echo 042666B4918430A368DE9628D03984C9 >key.txt
  $ dukpt mac @key.txt 4012345678909
  mac 38842EFB38B0AA13
  $ dukpt mac @key.txt 34303132333435363738393039 --cmac --hex
  mac DBACB76230ADE923

Faults, on standard error with status 1, the first alone; --explain says more:
  NAME: ..       The argument NAME as @FILE or @-: cannot read, too long, not UTF-8
  key refused    KEY is not 32 hexadecimal digits, or with --cmac not 32 or 48
  text refused   With --hex TEXT is not pairs of digits; without --cmac it is empty
  write failed   Standard output takes no more
  out of memory  Memory was refused";
