//! The command of the arguments, where it needs neither files nor the input.

ghost use Rattle.std.specs.Prelude.{◌≡◌, ◌⊎◌, IfErr, IfOk, IsFalse, IsTrue, OnOk};
ghost use Rattle.std.specs.Io.KnownBytes.{Keeps};
ghost use Rattle.duk_program.specs.Asked.{AreRefused, texts_of};
ghost use Rattle.duk_commands.specs.Answer.{streams};
ghost use Rattle.duk_io.specs.Sink.{IsUntouched};
ghost use Rattle.duk_program.specs.Commands.{IsCommandDone};
ghost use Rattle.duk_program.specs.Items.{IsAtOnce};
ghost use Rattle.duk_program.specs.Status.{EndsWith, HasEnded, HasNotEnded, IsKept, IsLeftToDo, IsToRun, RunsAsked, RunsRequest};
ghost use Rattle.duk_program.specs.inner.Commands.{IsOverArguments};
ghost use Rattle.duk_program.specs.inner.Status.{HasToldCommand};

use crate::command_line::arguments::Way;
use crate::command_line::{CommandName, Request, read_request, usage_of};
use crate::commands::do_command;
use crate::items::reads_items;
use crate::references::has_reference;
use crate::shown::show;
use duk_io::Sink;
use std::alloc::Global;

/// Where a service keeps the used numbers.
#[derive(Clone, Copy)]
pub enum Kept<'a> {
    /// In memory.
    InMemory,
    /// In the log of the file under this path.
    InLog(&'a str),
    /// In the journal of the file under this path.
    InJournal(&'a str),
}

/// What is left to do when the arguments are dealt with.
#[derive(Drop)]
pub enum Todo<'a> {
    /// To end with this status: 0 where all is done, 1 after the line of a fault, 2 where the
    /// arguments were refused.
    Exit(u8),
    /// To run a script under a configuration. Nothing is written yet.
    Run {
        /// The path of the configuration.
        config: &'a str,
        /// The path of the script.
        script: &'a str,
        /// Whether it is played over tills and a host with a journal.
        journal: bool,
    },
    /// To serve the frames of the input under a configuration. Nothing is written yet.
    Serve {
        /// The path of the configuration.
        config: &'a str,
        /// Where the used numbers are kept.
        kept: Kept<'a>,
    },
    /// To do another request that needs files or the input. Nothing is written yet.
    Do(Request<'a>),
}

/// Does what the arguments ask, the first of which is the program's name. What needs files or
/// the input is left to do.
///
/// What a command prints goes to `output`, and so does help that was asked for; the line of a fault
/// and the text that refuses the arguments go to `fault`. Where all is done, `output` is flushed
/// before the status is given.
pub fn command<'a, W: Sink, F: Sink>(
    alloc: Global,
    arguments: &'a [String],
    output: &mut W,
    fault: &mut F,
) -> Todo<'a>
    ensures status { IsLeftToDo result }
    ensures refused { EndsWith result 2
        → Keeps (W.known output.old).contents (W.known output.new).contents }
    ensures arguments_refused { EndsWith result 2 → AreRefused (texts_of arguments.now) }
    ensures done { EndsWith result 0 → HasEnded (texts_of arguments.now)
        (streams (W.known output.old) (W.known output.new)
        (F.known fault.old) (F.known fault.new)) }
    ensures not_done { EndsWith result 1 → HasNotEnded (texts_of arguments.now)
        (streams (W.known output.old) (W.known output.new)
        (F.known fault.old) (F.known fault.new)) }
    ensures asked { RunsAsked (texts_of arguments.now) result }
    ensures quiet { IsToRun result → W.known output.new ≡ W.known output.old }
    ensures silent { IsToRun result → F.known fault.new ≡ F.known fault.old }
{
    match read_request(alloc, arguments) {
        Ok(request) => do_request(alloc, request, output, fault),
        Err(answer) => Todo::Exit(show(&answer, output, fault)),
    }
}

/// Does the command of a request, where that needs neither files nor the input, and gives what is left
/// to do.
fn do_request<'a, W: Sink, F: Sink>(
    alloc: Global,
    request: Request<'a>,
    output: &mut W,
    fault: &mut F,
) -> Todo<'a>
    ensures status { IsLeftToDo result }
    ensures not_refused { ¬ EndsWith result 2 }
    ensures done { EndsWith result 0 → IsAtOnce request.entry
        × IsCommandDone request.entry (W.known output.old) (W.known output.new)
        × IsUntouched (F.known fault.old) (F.known fault.new) }
    ensures not_done { EndsWith result 1 → IsAtOnce request.entry
        × HasToldCommand request.entry (streams (W.known output.old) (W.known output.new)
        (F.known fault.old) (F.known fault.new)) }
    ensures asked { RunsRequest request.entry result }
    ensures quiet { IsToRun result → W.known output.new ≡ W.known output.old }
    ensures silent { IsToRun result → F.known fault.new ≡ F.known fault.old }
{
    match request.command() {
        CommandName::Run => Todo::Run {
            config: request.text("CONFIG"),
            script: request.text("SCRIPT"),
            journal: request.flag("journal"),
        },
        CommandName::Serve => Todo::Serve {
            config: request.text("CONFIG"),
            kept: kept_of(&request),
        },
        _ if is_left(&request) => Todo::Do(request),
        _ => Todo::Exit(end_command(alloc, &request, output, fault)),
    }
}

/// Where a request keeps the used numbers.
fn kept_of<'a>(request: &Request<'a>) -> Kept<'a>
    ensures { IsKept request.now result }
{
    if let Some(path) = request.value("log") {
        return Kept::InLog(path);
    }
    match request.value("journal") {
        Some(path) => Kept::InJournal(path),
        None => Kept::InMemory,
    }
}

/// Does the command of a request over its arguments alone, and gives the status: 0, or 1 with the line
/// of a fault.
fn end_command<W: Sink, F: Sink>(
    alloc: Global,
    request: &Request<'_>,
    output: &mut W,
    fault: &mut F,
) -> u8
    requires { IsOverArguments request.now.command }
    ensures status { (result ≡ 0) ⊎ (result ≡ 1) }
    ensures done { result ≡ 0
        → IsCommandDone request.now (W.known output.old) (W.known output.new) }
    ensures no_fault { result ≡ 0 → IsUntouched (F.known fault.old) (F.known fault.new) }
    ensures not_done { result ≡ 1 → HasToldCommand request.now
        (streams (W.known output.old) (W.known output.new)
        (F.known fault.old) (F.known fault.new)) }
{
    duk_io::laws::writes();
    match do_command(alloc, request, output) {
        Ok(()) => 0,
        Err(why) => {
            why.tell(fault);
            1
        }
    }
}

/// Whether a request needs files or the input.
fn is_left(request: &Request<'_>) -> bool
    ensures over { IsFalse result → IsOverArguments request.now.command }
    ensures at_once { IsFalse result → IsAtOnce request.now }
{
    !is_over_arguments(request.command()) || has_reference(request) || reads_items(request)
}

/// Whether a command is one over its arguments alone.
fn is_over_arguments(command: CommandName) -> bool
    ensures { IsTrue result → IsOverArguments command }
{
    match usage_of(command).way {
        Way::Lines | Way::LineByLine | Way::Message => true,
        Way::Files | Way::Told => false,
    }
}
