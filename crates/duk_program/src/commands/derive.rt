//! The command `derive`.

ghost use Rattle.std.specs.Prelude.{◌≡◌, IfErr, IfOk};
ghost use Rattle.duk_program.specs.CommandLine.{row_of};
ghost use Rattle.duk_program.specs.inner.CommandLine.{row_of_usage};
ghost use Rattle.duk_program.specs.Commands.{command_by};

use crate::command_line::arguments::{Argument, BDK, INITIAL_KEY, KSN, Usage, Way};
use crate::command_line::{CommandName, Request};
use crate::commands::key_of;
use crate::shape::{Answers, Shape};
use duk_commands::{Fault, Lines, derived_lines};

/// `derive BDK KSN [--initial] [--trace] [--all]`
pub(crate) fn usage<'a>() -> Usage<'a>
    ensures { row_of_usage result ≡ row_of CommandName.Derive }
{
    Usage {
        name: "derive",
        way: Way::Lines,
        answers: Answers::Are(Shape::Items(DERIVED)),
        about: "Prints the initial key, the transaction key and the PIN key of a key serial number",
        after_help: HELP,
        conflict: None,
        arguments: &[
            BDK,
            KSN,
            INITIAL_KEY,
            Argument::Flag(
                "trace",
                "Prints the steps from the initial key to the transaction key",
            ),
            Argument::Flag("all", "Prints the keys of MACs and data too"),
        ],
    }
}

/// The lines of a request, or why it is refused.
pub(super) fn lines(request: &Request<'_>) -> Result<Lines, Fault>
    ensures lines { IfOk result
        (λ lines. (command_by CommandName.Derive request.now).writes lines.items) }
    ensures refused { IfErr result (command_by CommandName.Derive request.now).refuses }
{
    derived_lines(
        key_of(request),
        request.text("KSN"),
        request.flag("trace"),
        request.flag("all"),
    )
}

/// The names of the lines of an answer.
const DERIVED: &[&str] = &[
    "step",
    "initial",
    "key",
    "pin",
    "mac-request",
    "mac-response",
    "data-request",
    "data-response",
];

/// At the end of its help.
const HELP: &str = "\
The initial key is the same at every number of a terminal. A KSN of 16 digits is refused: write FFFF
before it. --trace prints a key for each one bit of the counter, from the most significant on.
With - for KSN, numbers are read from standard input, one a line; one that is refused has the line of
its fault in its place.

BDK is better written as @FILE (the first line of a file) or @- (of standard input): every user of
the machine sees the words of a process.

Examples:
  $ echo 0123456789ABCDEFFEDCBA9876543210 >bdk.txt
  $ dukpt derive @bdk.txt FFFF9876543210E00001
  initial 6AC292FAA1315B4D858AB3A3D7D5933A
  key 042666B49184CFA368DE9628D0397BC9
  pin 042666B49184CF5C68DE9628D0397B36
  $ echo 6AC292FAA1315B4D858AB3A3D7D5933A >initial.txt
  $ dukpt derive @initial.txt FFFF9876543210E00003 --initial --trace --all
  step FFFF9876543210E00002 C46551CEF9FD24B0AA9AD834130D3BC7
  step FFFF9876543210E00003 0DF3D9422ACA56E547676D07AD6BADFA
  initial 6AC292FAA1315B4D858AB3A3D7D5933A
  key 0DF3D9422ACA56E547676D07AD6BADFA
  pin 0DF3D9422ACA561A47676D07AD6BAD05
  mac-request 0DF3D9422ACAA9E547676D07AD6B52FA
  mac-response 0DF3D942D5CA56E547676D07526BADFA
  data-request EEEEF522C67239E4A2A65FEBF4C511F4
  data-response 6A21701227FA12E8952E89A0F6695862

Faults, on standard error with status 1, the first alone; --explain says more:
  NAME: ..         The argument NAME as @FILE or @-: cannot read, too long, not UTF-8
  BDK refused      BDK is not 32 hexadecimal digits
  initial refused  The same, with --initial
  KSN refused      KSN is not 20 hexadecimal digits
  counter refused  The counter of KSN is zero or has more than ten one bits
  batch: ..        With - for KSN: items refused, read failed
  write failed     Standard output takes no more
  out of memory    Memory was refused";
