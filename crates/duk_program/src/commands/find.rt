//! The command `find`: seeks the number and the key that made something.

ghost use Rattle.std.specs.Prelude.{◌≡◌, IfErr, IfOk, OnOk, codes, true};
ghost use Rattle.duk_program.specs.CommandLine.{row_of};
ghost use Rattle.duk_program.specs.inner.CommandLine.{row_of_usage};
ghost use Rattle.duk_arguments.specs.Request.{flag_in, value_in};
ghost use Rattle.duk_commands.specs.Answer.{streams};
ghost use Rattle.duk_host.specs.Serve.{supply};
ghost use Rattle.duk_io.specs.Sink.{IsHandedOn};
ghost use Rattle.duk_program.specs.Find.{HasFound, HasFoundIt, HasFoundOver, HasNotFound, HasNotFoundIt, HasNotFoundOver, IsClueIn};
ghost use Rattle.duk_program.specs.Message.{IsSomeMessage, IsSomeMessageUnread};
ghost use Rattle.duk_service.specs.Serve.{serving_of};
ghost use Rattle.duk_program.specs.Fits.{has_one_sought, is_one_at_most};

use crate::command_line::arguments::Form::{Plain, Reference};
use crate::command_line::arguments::{Argument, BDK, INITIAL_KEY, Usage, Way};
use crate::command_line::{CommandName, Request};
use crate::commands::key_of;
use crate::fault::Fault;
use crate::message::read_message;
use crate::shape::{Answers, Shape};
use duk_commands::{Clue, FindFault, find_command, hand_on};
use duk_io::{Sink, Source};
use duk_service::{FileFault, FileSystem};
use std::alloc::Global;

/// `find BDK WHAT [--from KSN] [--window N] [--text TEXT] [--hex] [--pan PAN] [--clear BLOCK]
/// [--initial]`
pub(crate) fn usage<'a>() -> Usage<'a>
    ensures { row_of_usage result ≡ row_of CommandName.Find }
{
    Usage {
        name: "find",
        way: Way::Told,
        answers: Answers::Are(Shape::Whole),
        about: "Finds the number and the key that made a frame, a MAC, a PIN block or a ciphertext",
        after_help: HELP,
        conflict: Some(CONFLICT),
        arguments: &[
            BDK,
            Argument::Needed(
                Reference,
                "WHAT",
                "A frame in hexadecimal, or with --text, --pan or --clear 16 hexadecimal digits",
            ),
            Argument::Valued(
                Reference,
                "from",
                "KSN",
                "Begins at this key serial number; of a frame it may be left out",
            ),
            Argument::Valued(
                Reference,
                "window",
                "N",
                "Tries N numbers at most, 1 to 100000; without it 100000",
            ),
            Argument::Valued(Plain, "text", "TEXT", "WHAT is the MAC of this text"),
            Argument::Flag("hex", "TEXT is bytes in hexadecimal"),
            Argument::Valued(
                Reference,
                "pan",
                "PAN",
                "WHAT is a PIN block of this PAN, enciphered",
            ),
            Argument::Valued(
                Reference,
                "clear",
                "BLOCK",
                "WHAT is this block enciphered, 16 hexadecimal digits",
            ),
            INITIAL_KEY,
        ],
    }
}

/// Whether `find` is told of one text, PAN or block at most, each with the number at which the search
/// begins.
pub(crate) fn fits(request: &Request<'_>) -> bool
    ensures { result ≡ has_one_sought request.now }
{
    let (text, pan) = (request.flag("text"), request.flag("pan"));
    let clear = request.flag("clear");
    is_one_at_most(text, pan, clear)
        && (request.flag("from") || !(text || pan || clear))
        && (text || !request.flag("hex"))
}

/// Whether one of three is there at most.
fn is_one_at_most(a: bool, b: bool, c: bool) -> bool
    ensures { result ≡ is_one_at_most a b c }
{
    !(a && b) && !(a && c) && !(b && c)
}

/// What is told of arguments that exclude each other.
const CONFLICT: &str =
    "'--text <TEXT>', '--pan <PAN>' and '--clear <BLOCK>' cannot be used with each other and require '--from <KSN>', and '--hex' requires '--text <TEXT>'";

/// Prints the number and the key that made what is sought, and hands that on. The bytes of a TEXT are
/// read first. A long search tells its progress on `fault`.
pub(crate) fn find_made<S: FileSystem, R: Source, W: Sink, F: Sink>(
    alloc: Global,
    files: &S,
    request: &Request<'_>,
    input: &mut R,
    output: &mut W,
    fault: &mut F,
) -> Result<(), Fault>
    ensures done { OnOk result (HasFoundIt (S.held files.now)
        (serving_of R.known R.reads W.known input.old input.new output.old output.new) request.now
        (streams (W.known output.old) (W.known output.new) (F.known fault.old)
        (F.known fault.new))) }
    ensures handed_on { OnOk result (IsHandedOn (W.held_back output.new)) }
    ensures not_done { IfErr result (HasNotFoundIt (S.held files.now)
        (serving_of R.known R.reads W.known input.old input.new output.old output.new) request.now
        (streams (W.known output.old) (W.known output.new) (F.known fault.old)
        (F.known fault.new))) }
{
    duk_io::laws::writes();
    let message = match read_sought(alloc, files, request, input) {
        Ok(message) => message,
        Err(why) => return Err(Fault::Text(why)),
    };
    find_over(alloc, request, message.as_slice(), output, fault)
}

/// The bytes of the TEXT whose MAC is sought; none where no TEXT is given.
fn read_sought<S: FileSystem, R: Source>(
    alloc: Global,
    files: &S,
    request: &Request<'_>,
    input: &mut R,
) -> Result<Vec<u8>, FileFault>
    ensures read { IfOk result (λ bytes. IsSomeMessage (S.held files.now)
        (supply (R.known input.old) (R.reads input.old))
        (supply (R.known input.new) (R.reads input.new))
        (value_in (codes "text") request.now) bytes.items) }
    ensures unread { IfErr result (IsSomeMessageUnread (S.held files.now)
        (supply (R.known input.old) (R.reads input.old))
        (supply (R.known input.new) (R.reads input.new))
        (value_in (codes "text") request.now)) }
{
    match request.value("text") {
        Some(text) => read_message(alloc, files, text, input),
        None => Ok(Vec::new(alloc)),
    }
}

/// The same over the bytes of a TEXT.
fn find_over<W: Sink, F: Sink>(
    alloc: Global,
    request: &Request<'_>,
    message: &[u8],
    output: &mut W,
    fault: &mut F,
) -> Result<(), Fault>
    ensures done { OnOk result (HasFoundOver request.now message.now (streams (W.known output.old)
        (W.known output.new) (F.known fault.old) (F.known fault.new))) }
    ensures handed_on { OnOk result (IsHandedOn (W.held_back output.new)) }
    ensures not_done { IfErr result (HasNotFoundOver request.now message.now (streams
        (W.known output.old) (W.known output.new) (F.known fault.old) (F.known fault.new))) }
{
    let ended = find_written(alloc, request, message, output, fault);
    match hand_on(ended, FindFault::WriteFailed, output) {
        Ok(()) => Ok(()),
        Err(why) => Err(Fault::Find(why)),
    }
}

/// The same, but what is printed may still be held back.
fn find_written<W: Sink, F: Sink>(
    alloc: Global,
    request: &Request<'_>,
    message: &[u8],
    output: &mut W,
    fault: &mut F,
) -> Result<(), FindFault>
    ensures done { OnOk result (HasFound request.now message.now (streams (W.known output.old)
        (W.known output.new) (F.known fault.old) (F.known fault.new))) }
    ensures failed { IfErr result (λ why. HasNotFound request.now message.now why (streams
        (W.known output.old) (W.known output.new) (F.known fault.old) (F.known fault.new))) }
{
    find_command(
        alloc,
        key_of(request),
        request.text("WHAT"),
        clue_of(request, message),
        request.value("from"),
        request.value("window"),
        output,
        fault,
    )
}

/// What a request says of what is sought, where these are the bytes of its TEXT.
fn clue_of<'a>(request: &Request<'a>, message: &'a [u8]) -> Clue<'a>
    ensures { IsClueIn request.now message.now result }
{
    if request.flag("text") {
        return Clue::Mac {
            text: message,
            hex: request.flag("hex"),
        };
    }
    if let Some(pan) = request.value("pan") {
        return Clue::PinBlock { pan };
    }
    match request.value("clear") {
        Some(clear) => Clue::Ciphertext { clear },
        None => Clue::Frame,
    }
}

/// At the end of its help.
const HELP: &str = "\
WHAT is a frame with a MAC; with --text a MAC of that text, retail or CMAC; with --pan an enciphered PIN
block of format 0; with --clear a block enciphered by TDES. These three exclude each other. The usable
numbers of one terminal are tried in their order, from KSN on; of a frame without --from, from the
first number of its own terminal on.

Of each number these keys are tried, in this order: `key`, the transaction key itself; its variants
`pin`, `request-mac` and `response-mac`; and the data keys `request-data` and `response-data`, each a
variant whose halves are enciphered under the variant itself. The first key that made WHAT is told,
with the number before it, and behind it of a MAC whether it is `retail` or `cmac`.

With --text a long search tells its progress on standard error, about each second:
`tried 34090 of 100000`.

BDK, WHAT, PAN and BLOCK are better written as @FILE (the first line of a file) or @- (of standard
input): every user of the machine sees the words of a process. TEXT as @FILE is all bytes of a file, up
to 16777216, and as @- all that standard input has left. A TEXT that begins with an @ is written with
two.

Examples:
  $ echo 0123456789ABCDEFFEDCBA9876543210 >bdk.txt
  $ echo 4012345678909 >pan.txt
  $ dukpt find @bdk.txt 38842EFB38B0AA13 --from FFFF9876543210E00001 --text 4012345678909
  found FFFF9876543210E00001 request-mac retail
  $ dukpt find @bdk.txt 1B9C1845EB993A7A --from FFFF9876543210E00000 --pan @pan.txt
  found FFFF9876543210E00001 pin
  $ dukpt find @bdk.txt 001E0104FFFF9876543210E00002FFFF9876543210E000013B8EA61D9F5F532F
  found FFFF9876543210E00002 request-mac retail

Faults, on standard error with status 1, the first alone; --explain says more:
  NAME: ..         The argument NAME as @FILE or @-: cannot read, too long, not UTF-8
  BDK refused      BDK is not 32 hexadecimal digits
  initial refused  The same, with --initial
  WHAT refused     WHAT is no frame with a MAC, or with --text, --pan or --clear not 16 hexadecimal digits
  TEXT refused     TEXT is empty, or with --hex not pairs of hexadecimal digits
  PAN refused      PAN is not 12 to 19 digits
  BLOCK refused    BLOCK is not 16 hexadecimal digits
  KSN refused      KSN is not 20 hexadecimal digits
  window refused   N is no number from 1 to 100000
  not found        No key of the numbers that were tried made WHAT
  write failed     Standard output takes no more
  out of memory    Memory was refused";
