//! The program, with its commands, as `clap` reads them.

ghost use Rattle.std.specs.Prelude.{◌≡◌, [], IfOk, bytes_eq, find};
ghost use Rattle.clap.specs.Words.{app_of};
ghost use Rattle.duk_program.specs.CommandLine.{all_commands, command_line, program_shape, row_of};
ghost use Rattle.duk_program.specs.References.{help_name, may_refer};
ghost use Rattle.duk_program.specs.inner.CommandLine.{row_of_usage};

pub(crate) mod arguments;
mod fits;
mod found;
mod help;
mod reading;
mod references;

use crate::commands;
use arguments::{Usage, command_of};
use clap::Command;
pub use duk_arguments::{CommandName, Entry, Request};
pub use reading::{NoRequest, read_request};
pub(crate) use references::{references, with_references};
use std::alloc::{AllocError, Global};

/// What `--version` prints after the program's name.
const VERSION: &str = "0.1.0";

/// The program's commands, in the order in which help lists them.
fn all_commands() -> [CommandName; 26]
    ensures { result ≡ all_commands }
{
    [
        CommandName::Derive,
        CommandName::Walk,
        CommandName::Initial,
        CommandName::Issue,
        CommandName::Registers,
        CommandName::Kcv,
        CommandName::Lmk,
        CommandName::Mac,
        CommandName::Data,
        CommandName::Pin,
        CommandName::Unpin,
        CommandName::Translate,
        CommandName::Wrap,
        CommandName::Unwrap,
        CommandName::Show,
        CommandName::Request,
        CommandName::Reply,
        CommandName::Find,
        CommandName::Run,
        CommandName::Serve,
        CommandName::NewLog,
        CommandName::NewJournal,
        CommandName::NewLedger,
        CommandName::GrowJournal,
        CommandName::CopyJournal,
        CommandName::CopyLedger,
    ]
}

/// How a command is used.
pub(crate) fn usage_of<'a>(command: CommandName) -> Usage<'a>
    ensures { row_of_usage result ≡ row_of command }
{
    match command {
        CommandName::Derive => commands::derive::usage(),
        CommandName::Walk => commands::walk::usage(),
        CommandName::Initial => commands::initial::usage(),
        CommandName::Issue => commands::issue::usage(),
        CommandName::Registers => commands::registers::usage(),
        CommandName::Kcv => commands::kcv::usage(),
        CommandName::Lmk => commands::lmk::usage(),
        CommandName::Mac => commands::mac::usage(),
        CommandName::Data => commands::data::usage(),
        CommandName::Pin => commands::pin::usage(),
        CommandName::Unpin => commands::unpin::usage(),
        CommandName::Translate => commands::translate::usage(),
        CommandName::Wrap => commands::wrap::usage(),
        CommandName::Unwrap => commands::unwrap::usage(),
        CommandName::Show => commands::show::usage(),
        CommandName::Request => commands::request::usage(),
        CommandName::Reply => commands::reply::usage(),
        CommandName::Find => commands::find::usage(),
        CommandName::Run => commands::run::usage(),
        CommandName::Serve => commands::serve::usage(),
        CommandName::NewLog => commands::new_log::usage(),
        CommandName::NewJournal => commands::new_journal::usage(),
        CommandName::NewLedger => commands::new_ledger::usage(),
        CommandName::GrowJournal => commands::grow_journal::usage(),
        CommandName::CopyJournal => commands::copy_journal::usage(),
        CommandName::CopyLedger => commands::copy_ledger::usage(),
    }
}

/// The command that is written so, where there is one.
pub(crate) fn command_named(name: &str) -> Option<CommandName>
    ensures { result ≡ find (λ command. bytes_eq (row_of command).name name.now) all_commands }
{
    for command in &all_commands() {
        if usage_of(*command).name == name {
            return Some(*command);
        }
    }
    None
}

/// Whether the text of an argument of a command may be a reference.
pub(crate) fn may_refer(command: CommandName, name: &str) -> bool
    ensures { result ≡ may_refer name.now (row_of command) }
{
    for argument in usage_of(command).arguments {
        if argument.may_refer() && argument.name() == name {
            return true;
        }
    }
    false
}

/// What the help calls an argument of a command: an option by its text.
pub(crate) fn help_name(command: CommandName, name: &'static str) -> &'static str
    ensures { result.now ≡ help_name name.now (row_of command) }
{
    for argument in usage_of(command).arguments {
        if argument.name() == name {
            return argument.shown();
        }
    }
    name
}

/// The program with its commands.
pub(crate) fn program<'a>(alloc: Global) -> Result<Command<'a>, AllocError>
    ensures { IfOk result (λ made. app_of made ≡ command_line) }
{
    let mut program = bare_program(alloc);
    for command in &all_commands() {
        program = program.subcommand(command_of(alloc, &usage_of(*command))?)?;
    }
    Ok(program)
}

/// The program, before it has commands. Where no arguments are given, it prints its help.
fn bare_program<'a>(alloc: Global) -> Command<'a>
    ensures { app_of result ≡ record { top = program_shape; subs = [] } }
{
    Command::new(alloc, "dukpt")
        .about("A payment host, its HSM and its PIN terminals, keyed by TDES DUKPT")
        .version(VERSION)
        .after_help(help::PROGRAM)
        .arg_required_else_help(true)
        .subcommand_required(true)
}
