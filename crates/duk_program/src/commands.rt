//! Does the command of a request over its arguments alone.

ghost use Rattle.std.specs.Prelude.{IfErr, IfOk, OnOk, codes};
ghost use Rattle.duk_arguments.specs.Request.{flag_in, text_in};
ghost use Rattle.duk_commands.specs.Answer.{IsDone, IsNotDone};
ghost use Rattle.duk_io.specs.Sink.{IsHandedOn};
ghost use Rattle.duk_program.specs.Commands.{IsCommandDone, IsCommandNotDone, IsDoneWhole, IsKeyOf, IsNotDoneWhole, command_for, message_command};
ghost use Rattle.duk_program.specs.inner.Commands.{IsOverArguments, IsOverMessage, MakesLines};

pub(crate) mod copy_journal;
pub(crate) mod copy_ledger;
pub(crate) mod data;
pub(crate) mod derive;
pub(crate) mod find;
pub(crate) mod grow_journal;
pub(crate) mod initial;
pub(crate) mod issue;
pub(crate) mod kcv;
pub(crate) mod lmk;
pub(crate) mod mac;
pub(crate) mod new_journal;
pub(crate) mod new_ledger;
pub(crate) mod new_log;
pub(crate) mod pin;
pub(crate) mod registers;
pub(crate) mod reply;
pub(crate) mod request;
pub(crate) mod run;
pub(crate) mod serve;
pub(crate) mod show;
pub(crate) mod translate;
pub(crate) mod unpin;
pub(crate) mod unwrap;
pub(crate) mod walk;
pub(crate) mod wrap;

use crate::command_line::{CommandName, Request};
use crate::fault::Fault;
use duk_commands::{KeyArgument, Lines, hand_on, write_lines};
use duk_io::Sink;
use std::alloc::Global;

/// Does the command of a request over its arguments alone, and hands on what it writes.
pub(crate) fn do_command<W: Sink>(
    alloc: Global,
    request: &Request<'_>,
    output: &mut W,
) -> Result<(), Fault>
    requires { IsOverArguments request.now.command }
    ensures done { OnOk result
        (IsCommandDone request.now (W.known output.old) (W.known output.new)) }
    ensures handed_on { OnOk result (IsHandedOn (W.held_back output.new)) }
    ensures not_done { IfErr result (λ why.
        IsCommandNotDone request.now (W.known output.old) why (W.known output.new)) }
{
    let ended = write_command(alloc, request, output);
    match hand_on(ended, duk_commands::Fault::WriteFailed, output) {
        Ok(()) => Ok(()),
        Err(why) => Err(Fault::Command(why)),
    }
}

/// The same, but what is written may still be held back.
fn write_command<W: Sink>(
    alloc: Global,
    request: &Request<'_>,
    output: &mut W,
) -> Result<(), duk_commands::Fault>
    requires { IsOverArguments request.now.command }
    ensures done { OnOk result
        (IsDone (command_for request.now) (W.known output.old) (W.known output.new)) }
    ensures not_done { IfErr result (λ why.
        IsNotDone (command_for request.now) why (W.known output.old) (W.known output.new)) }
{
    duk_io::laws::writes();
    match request.command() {
        CommandName::Walk => walk::write(request, output),
        _ => {
            let lines = lines_of(alloc, request)?;
            write_lines(&lines, output)
        }
    }
}

/// Does `mac` or `data` over these bytes of its TEXT, and hands on what it writes.
pub(crate) fn do_over_message<W: Sink>(
    alloc: Global,
    request: &Request<'_>,
    message: &[u8],
    output: &mut W,
) -> Result<(), Fault>
    requires { IsOverMessage request.now.command }
    ensures done { OnOk result (IsDoneWhole (message_command request.now message.now)
        (W.known output.old) (W.known output.new)) }
    ensures handed_on { OnOk result (IsHandedOn (W.held_back output.new)) }
    ensures not_done { IfErr result (λ why. IsNotDoneWhole
        (message_command request.now message.now) (W.known output.old) why (W.known output.new)) }
{
    let ended = write_over_message(alloc, request, message, output);
    match hand_on(ended, duk_commands::Fault::WriteFailed, output) {
        Ok(()) => Ok(()),
        Err(why) => Err(Fault::Command(why)),
    }
}

/// The same, but what is written may still be held back.
fn write_over_message<W: Sink>(
    alloc: Global,
    request: &Request<'_>,
    message: &[u8],
    output: &mut W,
) -> Result<(), duk_commands::Fault>
    requires { IsOverMessage request.now.command }
    ensures done { OnOk result (IsDone (message_command request.now message.now)
        (W.known output.old) (W.known output.new)) }
    ensures not_done { IfErr result (λ why. IsNotDone (message_command request.now message.now) why
        (W.known output.old) (W.known output.new)) }
{
    duk_io::laws::writes();
    let lines = message_lines(alloc, request, message)?;
    write_lines(&lines, output)
}

/// The lines of `mac` or `data` over these bytes of its TEXT, or why it is refused.
fn message_lines(
    alloc: Global,
    request: &Request<'_>,
    message: &[u8],
) -> Result<Lines, duk_commands::Fault>
    requires { IsOverMessage request.now.command }
    ensures lines { IfOk result
        (λ lines. (message_command request.now message.now).writes lines.items) }
    ensures refused { IfErr result (message_command request.now message.now).refuses }
{
    match request.command() {
        CommandName::Mac => mac::lines(alloc, request, message),
        CommandName::Data => data::lines(alloc, request, message),
        _ => unreachable!(),
    }
}

/// The lines of a command that makes them all before it writes, or why it is refused.
fn lines_of(alloc: Global, request: &Request<'_>) -> Result<Lines, duk_commands::Fault>
    requires { MakesLines request.now.command }
    ensures lines { IfOk result (λ lines. (command_for request.now).writes lines.items) }
    ensures refused { IfErr result (command_for request.now).refuses }
{
    match request.command() {
        CommandName::Derive => derive::lines(request),
        CommandName::Initial => initial::lines(request),
        CommandName::Registers => registers::lines(request),
        CommandName::Kcv => kcv::lines(alloc, request),
        CommandName::Mac | CommandName::Data => {
            message_lines(alloc, request, request.text("TEXT").as_bytes())
        }
        CommandName::Pin => pin::lines(request),
        CommandName::Unpin => unpin::lines(request),
        CommandName::Translate => translate::lines(request),
        CommandName::Wrap => wrap::lines(request),
        CommandName::Unwrap => unwrap::lines(request),
        CommandName::Request => request::lines(request),
        CommandName::Reply => reply::lines(alloc, request),
        _ => unreachable!(),
    }
}

/// The key under BDK, which is a terminal's initial key where the request says so.
pub(crate) fn key_of<'a>(request: &Request<'a>) -> KeyArgument<'a>
    ensures { IsKeyOf (text_in (codes "BDK") request.now) (flag_in (codes "initial") request.now)
        result }
{
    KeyArgument::new(request.text("BDK"), request.flag("initial"))
}
