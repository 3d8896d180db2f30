//! What stands after a command, as `clap` has it.

ghost use Rattle.std.specs.Prelude.{◌≡◌, IfOk};
ghost use Rattle.duk_program.specs.CommandLine.{rule_by, rule_of_parameter, shape_of_row, valued};
ghost use Rattle.duk_program.specs.inner.CommandLine.{IsArgument, IsCommand, parameter_of, row_of_usage};

use crate::shape::Answers;
use clap::{Arg, ArgAction, Command};
use std::alloc::{AllocError, Global};

/// How the text of an argument may be written.
#[derive(Clone, Copy)]
pub(crate) enum Form {
    /// As it is.
    Plain,
    /// As it is, or as a reference to it, `@FILE`.
    Reference,
}

/// What may stand after a command.
#[derive(Clone, Copy)]
pub(crate) enum Argument<'a> {
    /// An argument that has to be there: its form, its name, and its help.
    Needed(Form, &'a str, &'a str),
    /// An argument that may be left out: its form, its name, and its help.
    Optional(Form, &'a str, &'a str),
    /// An argument that has to be there, from once to 16 times: its form, its name, and its help.
    Several(Form, &'a str, &'a str),
    /// An option that has a value: its form, its name, that of the value, and its help.
    Valued(Form, &'a str, &'a str, &'a str),
    /// An option that has to be there, and has a value: the same.
    Named(Form, &'a str, &'a str, &'a str),
    /// An option that is there or not: its name, and its help.
    Flag(&'a str, &'a str),
}

impl<'a> Argument<'a> {
    /// The name.
    pub(crate) fn name(&self) -> &'a str
        ensures { result.now ≡ (parameter_of self.now).name }
    {
        match self {
            Argument::Needed(_, name, _)
            | Argument::Optional(_, name, _)
            | Argument::Several(_, name, _)
            | Argument::Valued(_, name, _, _)
            | Argument::Named(_, name, _, _)
            | Argument::Flag(name, _) => name,
        }
    }

    /// What the help calls it: an option by its text.
    pub(crate) fn shown(&self) -> &'a str
        ensures { result.now ≡ (parameter_of self.now).shown }
    {
        match self {
            Argument::Needed(_, name, _)
            | Argument::Optional(_, name, _)
            | Argument::Several(_, name, _)
            | Argument::Flag(name, _) => name,
            Argument::Valued(_, _, value, _) | Argument::Named(_, _, value, _) => value,
        }
    }

    /// Whether its text may be a reference.
    pub(crate) fn may_refer(&self) -> bool
        ensures { result ≡ (parameter_of self.now).may_refer }
    {
        match self {
            Argument::Needed(form, _, _)
            | Argument::Optional(form, _, _)
            | Argument::Several(form, _, _)
            | Argument::Valued(form, _, _, _)
            | Argument::Named(form, _, _, _) => matches!(form, Form::Reference),
            Argument::Flag(_, _) => false,
        }
    }
}

/// How a command is done.
#[derive(Clone, Copy)]
pub(crate) enum Way {
    /// Over its arguments alone: all its lines are made before one is written.
    Lines,
    /// Over its arguments alone, line by line.
    LineByLine,
    /// Over the bytes that its TEXT stands for: all its lines are made before one is written.
    Message,
    /// Over files or the input.
    Files,
    /// The same, and it tells of its work beside its answer.
    Told,
}

/// How a command is used.
#[derive(Clone, Copy)]
pub(crate) struct Usage<'a> {
    /// The command's name.
    pub(crate) name: &'a str,
    /// How it is done.
    pub(crate) way: Way,
    /// How its lines make answers.
    pub(crate) answers: Answers,
    /// What the command is about.
    pub(crate) about: &'a str,
    /// What stands at the end of its help.
    pub(crate) after_help: &'a str,
    /// What is told of arguments that exclude each other, where some do.
    pub(crate) conflict: Option<&'a str>,
    /// What may stand after the command, in order.
    pub(crate) arguments: &'a [Argument<'a>],
}

/// A command as `clap` has it.
pub(crate) fn command_of<'a>(alloc: Global, usage: &Usage<'a>) -> Result<Command<'a>, AllocError>
    ensures { IfOk result (IsCommand (shape_of_row (row_of_usage usage.now))) }
{
    let mut command = Command::new(alloc, usage.name)
        .about(usage.about)
        .after_help(usage.after_help);
    for argument in usage.arguments {
        command = command.arg(clap_argument(alloc, *argument))?;
    }
    Ok(command)
}

/// An argument as `clap` has it.
fn clap_argument<'a>(alloc: Global, argument: Argument<'a>) -> Arg<'a>
    ensures { IsArgument (rule_of_parameter (parameter_of argument.entry)) result }
{
    match argument {
        Argument::Needed(_, name, help) => Arg::new(alloc, name).required(true).help(help),
        Argument::Optional(_, name, help) => Arg::new(alloc, name).help(help),
        Argument::Several(_, name, help) => Arg::new(alloc, name)
            .num_args(1..=16)
            .required(true)
            .help(help),
        Argument::Valued(_, name, value, help) => option(alloc, name, value, help),
        Argument::Named(_, name, value, help) => option(alloc, name, value, help).required(true),
        Argument::Flag(name, help) => Arg::new(alloc, name)
            .long(name)
            .action(ArgAction::SetTrue)
            .help(help),
    }
}

/// An option that has a value.
fn option<'a>(alloc: Global, name: &'a str, value: &'a str, help: &'a str) -> Arg<'a>
    ensures { IsArgument (rule_by valued name.entry.now) result }
{
    Arg::new(alloc, name)
        .long(name)
        .value_name(value)
        .help(help)
}

/// The base derivation key.
pub(crate) const BDK: Argument<'static> = Argument::Needed(
    Form::Reference,
    "BDK",
    "The base derivation key, 32 hexadecimal digits",
);

/// The key serial number.
pub(crate) const KSN: Argument<'static> = Argument::Needed(
    Form::Reference,
    "KSN",
    "The key serial number, 20 hexadecimal digits",
);

/// The initial key serial number.
pub(crate) const IKSN: Argument<'static> = Argument::Needed(
    Form::Reference,
    "IKSN",
    "The initial key serial number, 20 hexadecimal digits",
);

/// The PAN.
pub(crate) const PAN: Argument<'static> = Argument::Needed(
    Form::Reference,
    "PAN",
    "The PAN, 12 to 19 digits with its check digit",
);

/// The key block protection key.
pub(crate) const KBPK: Argument<'static> = Argument::Needed(
    Form::Reference,
    "KBPK",
    "The key block protection key, 32 or 48 hexadecimal digits",
);

/// That BDK is the terminal's initial key.
pub(crate) const INITIAL_KEY: Argument<'static> = Argument::Flag(
    "initial",
    "BDK is the terminal's initial key",
);
