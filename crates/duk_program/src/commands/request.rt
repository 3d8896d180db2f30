//! The command `request`.

ghost use Rattle.std.specs.Prelude.{◌≡◌, IfErr, IfOk};
ghost use Rattle.duk_program.specs.CommandLine.{row_of};
ghost use Rattle.duk_program.specs.inner.CommandLine.{row_of_usage};
ghost use Rattle.duk_program.specs.Commands.{command_by};
ghost use Rattle.duk_program.specs.Fits.{has_payment_or_number};

use crate::command_line::arguments::Form::Reference;
use crate::command_line::arguments::{Argument, BDK, INITIAL_KEY, KSN, Usage, Way};
use crate::command_line::{CommandName, Request};
use crate::commands::key_of;
use crate::shape::{Answers, Shape};
use duk_commands::{Fault, Lines, request_lines, reversal_lines};

/// `request BDK KSN [PAN] [PIN] [AMOUNT] [--reverse NUMBER] [--initial]`
pub(crate) fn usage<'a>() -> Usage<'a>
    ensures { row_of_usage result ≡ row_of CommandName.Request }
{
    Usage {
        name: "request",
        way: Way::Lines,
        answers: Answers::Are(Shape::Whole),
        about: "Prints the frame of a payment's request or of a reversal, as a terminal makes it",
        after_help: HELP,
        conflict: Some(CONFLICT),
        arguments: &[
            BDK,
            KSN,
            Argument::Optional(
                Reference,
                "PAN",
                "The PAN, 12 to 19 digits with its check digit",
            ),
            Argument::Optional(Reference, "PIN", "The PIN, 4 to 12 digits"),
            Argument::Optional(Reference, "AMOUNT", "The amount, a number up to 4294967295"),
            Argument::Valued(
                Reference,
                "reverse",
                "NUMBER",
                "Reverses this key serial number, and takes no PAN, PIN and AMOUNT",
            ),
            INITIAL_KEY,
        ],
    }
}

/// Whether `request` is told of a payment, or of the number that it reverses.
pub(crate) fn fits(request: &Request<'_>) -> bool
    ensures { result ≡ has_payment_or_number request.now }
{
    let (pan, pin) = (request.flag("PAN"), request.flag("PIN"));
    let amount = request.flag("AMOUNT");
    if request.flag("reverse") {
        !(pan || pin || amount)
    } else {
        pan && pin && amount
    }
}

/// What is told of arguments that exclude each other.
const CONFLICT: &str =
    "PAN, PIN and AMOUNT are required without '--reverse <NUMBER>', and cannot be used with it";

/// The lines of a request, or why it is refused.
pub(super) fn lines(request: &Request<'_>) -> Result<Lines, Fault>
    ensures lines { IfOk result
        (λ lines. (command_by CommandName.Request request.now).writes lines.items) }
    ensures refused { IfErr result (command_by CommandName.Request request.now).refuses }
{
    match request.value("reverse") {
        Some(number) => reversal_lines(key_of(request), request.text("KSN"), number),
        None => request_lines(
            key_of(request),
            request.text("KSN"),
            request.text("PAN"),
            request.text("PIN"),
            request.text("AMOUNT"),
        ),
    }
}

/// At the end of its help.
const HELP: &str = "\
The frame of a payment has the PIN block under the PIN key of KSN, and a MAC under its key for
requests. With --reverse it is a reversal, which uses KSN and undoes the payment of NUMBER.

BDK, PAN and PIN are better written as @FILE (the first line of a file) or @- (of standard input):
every user of the machine sees the words of a process.

Example:
  $ echo 0123456789ABCDEFFEDCBA9876543210 >bdk.txt
  $ echo 4012345678909 >pan.txt
  $ echo 1234 | dukpt request @bdk.txt FFFF9876543210E00001 @pan.txt @- 1000
  request 002E0101FFFF9876543210E000010D34303132333435363738393039000003E81B9C1845EB993A7A25ECC2EEB37FB551
  $ dukpt request @bdk.txt FFFF9876543210E00002 --reverse FFFF9876543210E00001
  reversal 001E0104FFFF9876543210E00002FFFF9876543210E000013B8EA61D9F5F532F

Faults, on standard error with status 1, the first alone; --explain says more:
  NAME: ..         The argument NAME as @FILE or @-: cannot read, too long, not UTF-8
  BDK refused      BDK is not 32 hexadecimal digits
  initial refused  The same, with --initial
  KSN refused      KSN is not 20 hexadecimal digits
  counter refused  The counter of KSN is zero or has more than ten one bits
  PanLength        PAN is not 12 to 19 characters
  PanDigit         PAN has a character that is no digit
  PinLength        PIN is not 4 to 12 characters
  PinDigit         PIN has a character that is no digit
  amount refused   AMOUNT is no number, or is above 4294967295
  number refused   NUMBER is not 20 hexadecimal digits
  OtherIksn        NUMBER has another initial key serial number than KSN
  SameNumber       NUMBER is KSN
  NotUsable        The counter of NUMBER is zero or has more than ten one bits
  write failed     Standard output takes no more
  out of memory    Memory was refused";
