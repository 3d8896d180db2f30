//! The command `data`.

ghost use Rattle.std.specs.Prelude.{◌≡◌, IfErr, IfOk};
ghost use Rattle.duk_program.specs.CommandLine.{row_of};
ghost use Rattle.duk_program.specs.inner.CommandLine.{row_of_usage};
ghost use Rattle.duk_program.specs.Commands.{message_by};

use crate::command_line::arguments::Form::{Plain, Reference};
use crate::command_line::arguments::{Argument, Usage, Way};
use crate::command_line::{CommandName, Request};
use crate::shape::{Answers, Shape};
use duk_commands::{Fault, Lines, data_lines};
use std::alloc::Global;

/// `data KEY TEXT [--iv BLOCK] [--decipher] [--hex]`
pub(crate) fn usage<'a>() -> Usage<'a>
    ensures { row_of_usage result ≡ row_of CommandName.Data }
{
    Usage {
        name: "data",
        way: Way::Message,
        answers: Answers::Are(Shape::Whole),
        about: "Enciphers data under a key by TDES-CBC, or deciphers them",
        after_help: HELP,
        conflict: None,
        arguments: &[
            Argument::Needed(
                Reference,
                "KEY",
                "The key for data, 32 or 48 hexadecimal digits",
            ),
            Argument::Needed(Plain, "TEXT", "The text, 1 to 255 blocks of 8 bytes"),
            Argument::Valued(
                Reference,
                "iv",
                "BLOCK",
                "The initial vector, 16 hexadecimal digits; without it zeros",
            ),
            Argument::Flag("decipher", "Deciphers TEXT, which is bytes in hexadecimal"),
            Argument::Flag("hex", "TEXT is bytes in hexadecimal"),
        ],
    }
}

/// The lines of a request over these bytes of its TEXT, or why it is refused.
pub(super) fn lines(alloc: Global, request: &Request<'_>, message: &[u8]) -> Result<Lines, Fault>
    ensures lines { IfOk result
        (λ lines. (message_by CommandName.Data request.now message.now).writes lines.items) }
    ensures refused { IfErr result (message_by CommandName.Data request.now message.now).refuses }
{
    data_lines(
        alloc,
        request.text("KEY"),
        message,
        request.value("iv"),
        request.flag("decipher"),
        request.flag("hex"),
    )
}

/// At the end of its help.
const HELP: &str = "\
TDES-CBC is of NIST SP 800-38A. KEY is a key for data, as `derive --all` prints it, or any other TDES
key. TEXT has 1 to 255 whole blocks of 8 bytes: no padding is added, and none is taken away. With
--hex or --decipher TEXT stands for the bytes of its pairs of digits.

KEY is better written as @FILE (the first line of a file) or @- (of standard input): every user of
the machine sees the words of a process. TEXT as @FILE is all bytes of a file, up to 16777216, and as
@- all that standard input has left. A TEXT that begins with an @ is written with two.

Examples:
  $ echo 448D3F076D8304036A55A3D7E0055A78 >key.txt
  $ dukpt data @key.txt 4012345678909D98
  data FC0D53B7EA1FDA9EE68AAF2E70D9B950
  $ dukpt data @key.txt FC0D53B7EA1FDA9EE68AAF2E70D9B950 --decipher
  data 34303132333435363738393039443938

Faults, on standard error with status 1, the first alone; --explain says more:
  NAME: ..       The argument NAME as @FILE or @-: cannot read, too long, not UTF-8
  block refused  BLOCK is not 16 hexadecimal digits
  key refused    KEY is not 32 or 48 hexadecimal digits
  text refused   TEXT is not 1 to 255 blocks, or not pairs of digits with --hex or --decipher
  write failed   Standard output takes no more
  out of memory  Memory was refused";
