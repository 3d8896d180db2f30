//! The command `kcv`.

ghost use Rattle.std.specs.Prelude.{◌≡◌, IfErr, IfOk};
ghost use Rattle.duk_program.specs.CommandLine.{row_of};
ghost use Rattle.duk_program.specs.inner.CommandLine.{row_of_usage};
ghost use Rattle.duk_program.specs.Commands.{command_by};

use crate::command_line::arguments::Form::Reference;
use crate::command_line::arguments::{Argument, Usage, Way};
use crate::command_line::{CommandName, Request};
use crate::shape::{Answers, Shape};
use duk_commands::{Fault, Lines, MOST_KEYS, values_lines};
use std::alloc::Global;

/// `kcv KEY.. [--components] [--show]`
pub(crate) fn usage<'a>() -> Usage<'a>
    ensures { row_of_usage result ≡ row_of CommandName.Kcv }
{
    Usage {
        name: "kcv",
        way: Way::Lines,
        answers: Answers::ByOption("components", Shape::Whole, Shape::Items(VALUES)),
        about: "Prints the check values of keys, or of the components of a key and of the key",
        after_help: HELP,
        conflict: None,
        arguments: &[
            Argument::Several(
                Reference,
                "KEY",
                "A key, 32 or 48 hexadecimal digits; 1 to 16 keys",
            ),
            Argument::Flag(
                "components",
                "The keys are components of one key, whose check values come last",
            ),
            Argument::Flag(
                "show",
                "Prints the key that the components make; changes nothing without --components",
            ),
        ],
    }
}

/// The lines of a request, or why it is refused.
pub(super) fn lines(alloc: Global, request: &Request<'_>) -> Result<Lines, Fault>
    ensures lines { IfOk result
        (λ lines. (command_by CommandName.Kcv request.now).writes lines.items) }
    ensures refused { IfErr result (command_by CommandName.Kcv request.now).refuses }
{
    let Ok(keys) = request.texts(alloc, "KEY") else {
        return Err(Fault::OutOfMemory);
    };
    if keys.is_empty() || keys.len() > MOST_KEYS {
        return Err(Fault::KeyRefused);
    }
    let components = request.flag("components");
    values_lines(keys.as_slice(), components, request.flag("show"))
}

/// The names of the lines of an answer.
const VALUES: &[&str] = &["kcv", "cmac", "weak"];

/// At the end of its help.
const HELP: &str = "\
`kcv` is the first three bytes of zeros enciphered under a key, `cmac` the first five of the CMAC of
zeros. With --components the keys are combined by exclusive or, and the values of the components
come first; --show prints the key that they make, and without --components it changes nothing.
Of a weak key a further line says why, the first of these: `weak zeros`, all its bits are zero;
`weak halves`, two of its DES keys are equal, so that it is worth one; `weak DES`, one is a weak or
semi-weak key of DES. Parity bits do not count.
With - for KEY keys are read from standard input, one a line; one that is refused has the line of its
fault in its place. Beside an option or another KEY - is a key as any other word, and is refused.

KEY is better written as @FILE (the first line of a file) or @- (of standard input): every user of
the machine sees the words of a process.

Examples:
  $ echo 0123456789ABCDEFFEDCBA9876543210 >key.txt
  $ dukpt kcv @key.txt
  kcv 08D7B4
  cmac 0A82458664
  $ echo 67E092EFE36BCE10A2F1D9F1B6DA6B2C >one.txt
  $ echo 66C3D7886AC003FF5C2D6369C08E593C >two.txt
  $ dukpt kcv @one.txt @two.txt --components
  component-kcv 0AAAEB
  component-cmac C984D8CF44
  component-kcv 7B7B4B
  component-cmac 50AE824742
  kcv 08D7B4
  cmac 0A82458664

Faults, on standard error with status 1, the first alone; --explain says more:
  NAME: ..       The argument NAME as @FILE or @-: cannot read, too long, not UTF-8
  key refused    A KEY is not 32 or 48 hexadecimal digits, or components differ in length
  batch: ..      With - for KEY: items refused, read failed
  write failed   Standard output takes no more
  out of memory  Memory was refused";
