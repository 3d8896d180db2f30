//! The command `translate`.

ghost use Rattle.std.specs.Prelude.{◌≡◌, IfErr, IfOk};
ghost use Rattle.duk_program.specs.CommandLine.{row_of};
ghost use Rattle.duk_program.specs.inner.CommandLine.{row_of_usage};
ghost use Rattle.duk_program.specs.Commands.{command_by};

use crate::command_line::arguments::Form::Reference;
use crate::command_line::arguments::{Argument, BDK, INITIAL_KEY, KSN, PAN, Usage, Way};
use crate::command_line::{CommandName, Request};
use crate::commands::key_of;
use crate::shape::{Answers, Shape};
use duk_commands::{Fault, Lines, translate_lines};

/// `translate BLOCK PAN BDK KSN ZONE [--initial]`
pub(crate) fn usage<'a>() -> Usage<'a>
    ensures { row_of_usage result ≡ row_of CommandName.Translate }
{
    Usage {
        name: "translate",
        way: Way::Lines,
        answers: Answers::Are(Shape::Whole),
        about: "Prints the PIN block of a terminal, enciphered under a zone key",
        after_help: HELP,
        conflict: None,
        arguments: &[
            Argument::Needed(
                Reference,
                "BLOCK",
                "The enciphered PIN block, 16 hexadecimal digits",
            ),
            PAN,
            BDK,
            KSN,
            Argument::Needed(
                Reference,
                "ZONE",
                "The zone key, 32 or 48 hexadecimal digits",
            ),
            INITIAL_KEY,
        ],
    }
}

/// The lines of a request, or why it is refused.
pub(super) fn lines(request: &Request<'_>) -> Result<Lines, Fault>
    ensures lines { IfOk result
        (λ lines. (command_by CommandName.Translate request.now).writes lines.items) }
    ensures refused { IfErr result (command_by CommandName.Translate request.now).refuses }
{
    translate_lines(
        request.text("BLOCK"),
        request.text("PAN"),
        key_of(request),
        request.text("KSN"),
        request.text("ZONE"),
    )
}

/// At the end of its help.
const HELP: &str = "\
BLOCK is enciphered under the PIN key of KSN. The PIN blocks are of ISO 9564-1 format 0.

BLOCK, PAN, BDK and ZONE are better written as @FILE (the first line of a file) or @- (of standard
input): every user of the machine sees the words of a process.

Example:
  $ echo 4012345678909 >pan.txt
  $ echo 0123456789ABCDEFFEDCBA9876543210 >bdk.txt
  $ echo 89E88CF7931444F334BD7547FC3F380C >zone.txt
  $ dukpt translate 1B9C1845EB993A7A @pan.txt @bdk.txt FFFF9876543210E00001 @zone.txt
  translated 8856DB66D89E9EFF

Faults, on standard error with status 1, the first alone; --explain says more:
  NAME: ..         The argument NAME as @FILE or @-: cannot read, too long, not UTF-8
  block refused    BLOCK is not 16 hexadecimal digits
  PanLength        PAN is not 12 to 19 characters
  PanDigit         PAN has a character that is no digit
  BDK refused      BDK is not 32 hexadecimal digits
  initial refused  The same, with --initial
  KSN refused      KSN is not 20 hexadecimal digits
  counter refused  The counter of KSN is zero or has more than ten one bits
  zone refused     ZONE is not 32 or 48 hexadecimal digits
  NotAPinBlock     The block holds no PIN of this PAN, or was enciphered under another key
  write failed     Standard output takes no more
  out of memory    Memory was refused";
