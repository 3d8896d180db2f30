//! The command `lmk`: check values of the components of a local master key and of that key, new
//! components, and key blocks under that key.

ghost use Rattle.std.specs.Prelude.{◌≡◌, IfErr, IfOk, OnOk, map};
ghost use Rattle.duk_io.specs.Sink.{IsHandedOn};
ghost use Rattle.duk_program.specs.CommandLine.{row_of};
ghost use Rattle.duk_program.specs.Fits.{has_one_work};
ghost use Rattle.duk_program.specs.Lmk.{HasNotPrintedLmk, HasPrintedLmk, IsAskedRefused, IsAskedText, IsLmkFault, IsLmkNotPrinted, IsLmkPrinted, components_in};
ghost use Rattle.duk_program.specs.inner.CommandLine.{row_of_usage};

use crate::command_line::arguments::Form::Reference;
use crate::command_line::arguments::{Argument, Usage, Way};
use crate::command_line::{CommandName, Request};
use crate::fault::Fault;
use crate::shape::{Answers, Shape};
use duk_commands::{Lines, hand_on};
use duk_components::{ComponentFault, block_lines, lmk_lines, new_component_line};
use duk_io::{Sink, write_text};
use std::alloc::Global;

/// `lmk COMPONENT.. [--new] [--key KEY --fields FIELDS --pad PAD]`
pub(crate) fn usage<'a>() -> Usage<'a>
    ensures { row_of_usage result ≡ row_of CommandName.Lmk }
{
    Usage {
        name: "lmk",
        way: Way::Files,
        answers: Answers::ByOption("new", Shape::Bare("component"), Shape::Whole),
        about: "Makes and checks components of a local master key (LMK), and key blocks under it",
        after_help: HELP,
        conflict: Some(CONFLICT),
        arguments: &[
            Argument::Several(
                Reference,
                "COMPONENT",
                "The line of a component: its digits, a space, its check value; 2 to 9 components",
            ),
            Argument::Flag(
                "new",
                "Makes a component: COMPONENT is 32 or 48 random hexadecimal digits",
            ),
            Argument::Valued(
                Reference,
                "key",
                "KEY",
                "Prints the key block of this key too, 32 or 48 hexadecimal digits",
            ),
            Argument::Valued(
                Reference,
                "fields",
                "FIELDS",
                "The header fields of the key block, 7 bytes, as in wrap",
            ),
            Argument::Valued(
                Reference,
                "pad",
                "PAD",
                "The padding of the key block in hexadecimal, which should be random",
            ),
        ],
    }
}

/// Whether `lmk` is told of a new component, or of all that a key block is made of, or of neither.
pub(crate) fn fits(request: &Request<'_>) -> bool
    ensures { result ≡ has_one_work request.now }
{
    let (key, fields) = (request.flag("key"), request.flag("fields"));
    let pad = request.flag("pad");
    if request.flag("new") {
        !(key || fields || pad)
    } else {
        (key && fields && pad) || !(key || fields || pad)
    }
}

/// What is told of arguments that exclude each other.
const CONFLICT: &str =
    "'--key <KEY>', '--fields <FIELDS>' and '--pad <PAD>' require each other, and cannot be used with '--new'";

/// Prints what a request asks for of its components, and hands that on.
pub(crate) fn lmk_asked<W: Sink>(
    alloc: Global,
    request: &Request<'_>,
    output: &mut W,
) -> Result<(), Fault>
    ensures done { OnOk result
        (HasPrintedLmk request.now (W.known output.old) (W.known output.new)) }
    ensures handed_on { OnOk result (IsHandedOn (W.held_back output.new)) }
    ensures not_done { IfErr result (λ why.
        HasNotPrintedLmk request.now (W.known output.old) why (W.known output.new)) }
{
    let ended = print_lmk(alloc, request, output);
    hand_on(
        ended,
        Fault::Command(duk_commands::Fault::WriteFailed),
        output,
    )
}

/// The same, but what is printed may still be held back.
fn print_lmk<W: Sink>(alloc: Global, request: &Request<'_>, output: &mut W) -> Result<(), Fault>
    ensures done { OnOk result
        (IsLmkPrinted request.now (W.known output.old) (W.known output.new)) }
    ensures not_done { IfErr result (λ why.
        IsLmkNotPrinted request.now (W.known output.old) why (W.known output.new)) }
{
    duk_io::laws::writes();
    let lines = match checked_lines(alloc, request) {
        Ok(lines) => lines,
        Err(why) => return Err(why),
    };
    match write_text(output, lines.as_slice()) {
        Ok(()) => Ok(()),
        Err(_) => Err(Fault::Command(duk_commands::Fault::WriteFailed)),
    }
}

/// The lines that a request asks for, or why it is refused.
fn checked_lines(alloc: Global, request: &Request<'_>) -> Result<Lines, Fault>
    ensures lines { IfOk result (λ lines. IsAskedText request.now lines.items) }
    ensures refused { IfErr result (IsLmkFault request.now) }
{
    let Ok(texts) = request.texts(alloc, "COMPONENT") else {
        return Err(Fault::Command(duk_commands::Fault::OutOfMemory));
    };
    match asked_lines(alloc, request, texts.as_slice()) {
        Ok(lines) => Ok(lines),
        Err(why) => Err(Fault::Lmk(why)),
    }
}

/// The same over the texts of its components.
fn asked_lines(
    alloc: Global,
    request: &Request<'_>,
    texts: &[&str],
) -> Result<Lines, ComponentFault>
    requires { map (λ text. text.now) texts.now ≡ components_in request.now }
    ensures lines { IfOk result (λ lines. IsAskedText request.now lines.items) }
    ensures refused { IfErr result (IsAskedRefused request.now) }
{
    if request.flag("new") {
        return new_component_line(texts);
    }
    match request.value("key") {
        Some(key) => block_lines(
            alloc,
            texts,
            key,
            request.text("fields"),
            request.text("pad"),
        ),
        None => lmk_lines(texts),
    }
}

/// At the end of its help.
const HELP: &str = "\
A local master key is the exclusive or of its components, of which each has one holder. The line of a
component is its 32 or 48 hexadecimal digits, a space, and its check value, as kcv prints it. All have
one length. A key is refused of which kcv says that it is weak. No key is printed, and no component
but a new one.

With --new COMPONENT is one text of random digits, and the line of that key with odd parity is
printed. With --key, --fields and --pad the last line is the key block that wrap makes of KEY, FIELDS
and PAD with the local master key as KBPK.

COMPONENT and KEY are better written as @FILE (the first line of a file) or @- (of standard input):
every user of the machine sees the words of a process.

Examples:
  $ echo DC7515F2BFC17F85CE48F3CA25CB21F6 | dukpt lmk --new @- >second.txt
  $ echo 0123456789ABCDEFFEDCBA9876543210 08D7B4 >first.txt
  $ dukpt lmk @first.txt @second.txt
  component 1 08D7B4
  component 2 F7BAA8
  lmk FB3C61
  $ echo 3F419E1CB7079442AA37474C2EFBF8B8 >key.txt
  $ dukpt lmk @first.txt @second.txt --key @key.txt --fields P0TB00N --pad A5A5A5A5A5A5
  component 1 08D7B4
  component 2 F7BAA8
  lmk FB3C61
  block B0080P0TB00N0000521A3E226D37089C24B6EFD0621E4BAE3C3F63B3D77DBF70F6CACCA2E64A8F80

Faults, on standard error with status 1, the first alone; --explain says more:
  NAME: ..             The argument NAME as @FILE or @-: cannot read, too long, not UTF-8
  components refused   There is one COMPONENT, or there are more than 9
  component N refused  COMPONENT N is no such line, or not as long as those before it
  LMK weak             The key that they make is weak
  random refused       With --new COMPONENT is not one text of 32 or 48 digits, or its key is weak
  fields refused       FIELDS is not 7 bytes
  key refused          KEY is not 32 or 48 hexadecimal digits
  pad refused          PAD is not pairs of hexadecimal digits
  HeaderField          FIELDS has a character that is not printable
  PadLength            Length, key and padding fill no whole blocks, or the key block is too long
  write failed         Standard output takes no more
  out of memory        Memory was refused";
