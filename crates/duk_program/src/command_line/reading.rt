//! The request that the arguments of the command line make.

ghost use Rattle.std.specs.Prelude.{◌≡◌, [], IfErr, IfNone, IfOk, IfSome, Some};
ghost use Rattle.clap.specs.Values.{kind_of};
ghost use Rattle.clap.specs.Words.{app_of, fault_of, found_of, rows_of, subcommand_rows_of};
ghost use Rattle.clap.specs.declared.error.kind.ErrorKind.TheVariants.{ArgumentConflict};
ghost use Rattle.duk_program.specs.Asked.{Asks, AsksAfter, IsNoRequestOf, texts_of};
ghost use Rattle.duk_program.specs.CommandLine.{command_line, row_of};
ghost use Rattle.duk_arguments.specs.Request.{Written};
ghost use Rattle.duk_program.specs.inner.Asked.{IsNoRequestAfter, IsReportedAs};

use crate::command_line::arguments::command_of;
use crate::command_line::fits::fits;
use crate::command_line::found::request_of;
use crate::command_line::{CommandName, Request, command_named, program, usage_of};
use clap::error::ErrorKind;
use clap::{ArgMatches, Command, Error};
use std::alloc::{AllocError, Global};

/// What stands in place of a request.
#[derive(Debug, Drop)]
pub enum NoRequest {
    /// Help or the version, which was asked for: its text, with its last line ended.
    Help(String),
    /// The arguments are refused: the text that says why, with its last line ended.
    Refused(String),
    /// Memory was refused.
    NoMemory,
}

/// The request that the arguments make, the first of which is the program's name: that of the
/// command that they use, with the arguments after it. `clap` finds them by the program's command
/// line.
pub fn read_request<'a>(alloc: Global, arguments: &'a [String]) -> Result<Request<'a>, NoRequest>
    ensures asks { IfOk result (Asks (texts_of arguments.now)) }
    ensures taken { IfOk result (λ _. fault_of command_line (texts_of arguments.now) ≡ []) }
    ensures instead { IfErr result (IsNoRequestOf (texts_of arguments.now)) }
{
    let Ok(mut program) = program(alloc) else {
        return Err(NoRequest::NoMemory);
    };
    match_by(alloc, &mut program, arguments)
}

/// The request that `clap` finds in the arguments by this program, or what stands in its place.
fn match_by<'a>(
    alloc: Global,
    program: &mut Command<'a>,
    arguments: &'a [String],
) -> Result<Request<'a>, NoRequest>
    requires { app_of program.old ≡ command_line }
    ensures asks { IfOk result (Asks (texts_of arguments.now)) }
    ensures taken { IfOk result (λ _. fault_of command_line (texts_of arguments.now) ≡ []) }
    ensures instead { IfErr result (IsNoRequestOf (texts_of arguments.now)) }
{
    match program.try_get_matches_from_mut(arguments) {
        Ok(matches) => request_in(alloc, &matches),
        Err(error) => Err(no_request(alloc, &error)),
    }
}

/// The request of the command that was used, over what was found after it, unless its arguments
/// exclude each other.
fn request_in<'a>(alloc: Global, matches: &ArgMatches<'a>) -> Result<Request<'a>, NoRequest>
    ensures asks { IfOk result (AsksAfter (subcommand_rows_of matches.now)) }
    ensures instead { IfErr result (IsNoRequestAfter (subcommand_rows_of matches.now)) }
{
    let Some((command, found)) = used_command(matches) else {
        return Err(conflict_answer(alloc, CommandName::Serve));
    };
    let Ok(request) = request_of(alloc, command, found) else {
        return Err(NoRequest::NoMemory);
    };
    if fits(&request) {
        Ok(request)
    } else {
        Err(conflict_answer(alloc, command))
    }
}

/// The command that was used, with what was found after it.
fn used_command<'f, 'a>(matches: &'f ArgMatches<'a>) -> Option<(CommandName, &'f ArgMatches<'a>)>
    ensures used { IfSome result (λ used. subcommand_rows_of matches.now
        ≡ Some ((row_of used.0).name, rows_of (found_of used.1.now))) }
    ensures none { IfNone result ((request : Written)
        → ¬ AsksAfter (subcommand_rows_of matches.now) request) }
{
    let (name, found) = matches.subcommand()?;
    Some((command_named(name)?, found))
}

/// What stands in place of a request of a command whose arguments exclude each other.
fn conflict_answer(alloc: Global, command: CommandName) -> NoRequest
    ensures { IsReportedAs ArgumentConflict result }
{
    match conflict_error(alloc, command) {
        Ok(error) => no_request(alloc, &error),
        Err(AllocError) => NoRequest::NoMemory,
    }
}

/// The error of `clap` for arguments of a command that exclude each other.
fn conflict_error(alloc: Global, command: CommandName) -> Result<Error, AllocError>
    ensures { IfOk result (λ error. kind_of error ≡ ArgumentConflict) }
{
    let usage = usage_of(command);
    let written = format!(in alloc; "dukpt {}", usage.name)?;
    let mut command = command_of(alloc, &usage)?.bin_name(written.as_str())?;
    command.error(ErrorKind::ArgumentConflict, usage.conflict.unwrap_or(""))
}

/// What `clap` reports with an error: that memory was refused, or a text for the user.
fn no_request(alloc: Global, error: &Error) -> NoRequest
    ensures { IsReportedAs (kind_of error.now) result }
{
    if error.kind() == ErrorKind::OutOfMemory {
        return NoRequest::NoMemory;
    }
    match text_of(alloc, error) {
        Ok(text) if error.use_stderr() => NoRequest::Refused(text),
        Ok(text) => NoRequest::Help(text),
        Err(AllocError) => NoRequest::NoMemory,
    }
}

/// The text that `clap` has for the user, its last line ended.
fn text_of(alloc: Global, error: &Error) -> Result<String, AllocError> {
    let mut text = format!(in alloc; "{error}")?;
    if !text.ends_with('\n') {
        text.push('\n')?;
    }
    Ok(text)
}
