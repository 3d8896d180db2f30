//! The command `serve`: serves the frames of its input under a configuration.

ghost use Rattle.std.specs.Prelude.{◌≡◌, IfErr, IfSome, OnOk, codes};
ghost use Rattle.duk_program.specs.CommandLine.{row_of};
ghost use Rattle.duk_program.specs.inner.CommandLine.{row_of_usage};
ghost use Rattle.duk_arguments.specs.Request.{text_in, value_in};
ghost use Rattle.duk_io.specs.Sink.{IsHandedOn};
ghost use Rattle.duk_program.specs.ServeFiles.{HasNotServedFiles, HasServedFiles, IsServedOver, IsUnservedOver, file_service, kept_in};
ghost use Rattle.duk_service.specs.Serve.{serving_of};
ghost use Rattle.duk_program.specs.Fits.{has_one_store};

use crate::command_line::arguments::Form::Plain;
use crate::command_line::arguments::{Argument, Usage, Way};
use crate::command_line::{CommandName, Request};
use crate::configuration::read_configuration;
use crate::fault::Fault;
use crate::shape::{Answers, Shape};
use duk_config::Config;
use duk_io::{Sink, Source};
use duk_service::{
    FileSystem, LogFiles, ServeFault, serve_in_memory, serve_on_file, serve_on_journal,
};
use std::alloc::Global;

/// `serve CONFIG [--log FILE] [--journal FILE]`
pub(crate) fn usage<'a>() -> Usage<'a>
    ensures { row_of_usage result ≡ row_of CommandName.Serve }
{
    Usage {
        name: "serve",
        way: Way::Files,
        answers: Answers::Are(Shape::Text),
        about: "Answers the request frames of standard input on standard output",
        after_help: HELP,
        conflict: Some(CONFLICT),
        arguments: &[
            Argument::Needed(
                Plain,
                "CONFIG",
                "The file of the host's configuration, in TOML",
            ),
            Argument::Valued(
                Plain,
                "log",
                "FILE",
                "Keeps the used numbers in this file, which has to be there, and not in memory",
            ),
            Argument::Valued(
                Plain,
                "journal",
                "FILE",
                "Keeps them with what was decided in this file, which has to be there",
            ),
        ],
    }
}

/// Whether `serve` is told of one store at most.
pub(crate) fn fits(request: &Request<'_>) -> bool
    ensures { result ≡ has_one_store request.now }
{
    !(request.flag("log") && request.flag("journal"))
}

/// What is told of arguments that exclude each other.
const CONFLICT: &str = "the argument '--log <FILE>' cannot be used with '--journal <FILE>'";

/// Serves the frames of `input` under the configuration of a request, over its log or its journal, or
/// over a log in memory where it has neither.
///
/// The faults, in this order: those of the configuration's file; `log: cannot open`, of a journal
/// `journal: cannot open`; those of serving, as `serve_over_log` has them, and of a journal
/// `serve_over_journal`. Where the cause is that memory was refused, the fault is `out of memory`
/// instead.
pub(crate) fn serve_files<S: FileSystem + LogFiles, R: Source, W: Sink>(
    alloc: Global,
    files: &S,
    request: &Request<'_>,
    input: &mut R,
    output: &mut W,
) -> Result<(), Fault>
    requires log { IfSome (value_in (codes "log") request.now) (S.may_write files.now) }
    requires journal { IfSome (value_in (codes "journal") request.now) (S.may_write files.now) }
    ensures done { OnOk result (HasServedFiles S.Disk.meaning (file_service
        (S.held files.now (text_in (codes "CONFIG") request.now))
        (kept_in (S.disks files.now) request.now)
        (serving_of R.known R.reads W.known input.old input.new output.old output.new))) }
    ensures handed_on { OnOk result (IsHandedOn (W.held_back output.new)) }
    ensures not_done { IfErr result (HasNotServedFiles S.Disk.meaning (file_service
        (S.held files.now (text_in (codes "CONFIG") request.now))
        (kept_in (S.disks files.now) request.now)
        (serving_of R.known R.reads W.known input.old input.new output.old output.new))) }
{
    let config = read_configuration(alloc, files, request.text("CONFIG"))?;
    match serve_over(alloc, files, &config, request, input, output) {
        Ok(()) => Ok(()),
        Err(why) => Err(Fault::Serve(why)),
    }
}

/// The same under a configuration that is read.
fn serve_over<S: LogFiles, R: Source, W: Sink>(
    alloc: Global,
    files: &S,
    config: &Config,
    request: &Request<'_>,
    input: &mut R,
    output: &mut W,
) -> Result<(), ServeFault>
    requires log { IfSome (value_in (codes "log") request.now) (S.may_write files.now) }
    requires journal { IfSome (value_in (codes "journal") request.now) (S.may_write files.now) }
    ensures done { OnOk result (IsServedOver S.Disk.meaning
        (kept_in (S.disks files.now) request.now) config.now
        (serving_of R.known R.reads W.known input.old input.new output.old output.new)) }
    ensures handed_on { OnOk result (IsHandedOn (W.held_back output.new)) }
    ensures not_done { IfErr result (IsUnservedOver S.Disk.meaning
        (kept_in (S.disks files.now) request.now) config.now
        (serving_of R.known R.reads W.known input.old input.new output.old output.new)) }
{
    if let Some(path) = request.value("log") {
        return serve_on_file(alloc, files, config, path, input, output);
    }
    match request.value("journal") {
        Some(path) => serve_on_journal(alloc, files, config, path, input, output),
        None => serve_in_memory(alloc, config, input, output),
    }
}

/// At the end of its help.
const HELP: &str = "\
An answer is written for each frame, in their order. FILE has 16 bytes for each number that it has room
for, and `new-log` makes it. It is opened and never made. Without it the used numbers are lost at the
end: that is for trials.

FILE of --journal has 32 bytes for each payment, and `new-journal` makes it. Frames that come together
are answered together, and a request among the latest 1048576 that were accepted gets its reply again,
also after a restart. --log and --journal exclude each other.

Example:
  $ dukpt new-log used.log 1000
  $ dukpt serve examples/bank.toml --log used.log <requests >answers
  $ dukpt new-journal payments.journal 1000
  $ dukpt serve examples/bank.toml --journal payments.journal <requests >answers

Faults, on standard error with status 1, the first alone; --explain says more:
  config: ..                    The configuration, as of `run`
  log: cannot open              FILE is missing, cannot be opened, or is in use by another service
  log: failed                   FILE is damaged or no log, or a device step failed
  journal: cannot open          FILE is missing, cannot be opened, or is in use by another service
  journal: failed               FILE is damaged or no journal, or a device step failed
  journal: version 1, ..        FILE is a journal of version 1: copy it with copy-journal, and serve that
  serve: read failed            Standard input cannot be read, or took 1000000 reads without --journal
  serve: input ends in a frame  Standard input ended inside a frame
  serve: frame too long         A length above 62 where a frame begins
  serve: write failed           Standard output takes no more
  out of memory                 Memory was refused";
