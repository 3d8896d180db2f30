//! The request of a command, of what `clap` found after it.

ghost use Rattle.std.specs.Prelude.{◌≡◌, ◌∷◌, ◌++◌, [], IfOk, OnOk, codes, flat_map, if◌then◌else◌, map, option_map, unwrap_or};
ghost use Rattle.clap.specs.Words.{all_of, found_of, rows_of};
ghost use Rattle.duk_program.specs.Asked.{entries_found, is_flagged};
ghost use Rattle.duk_program.specs.CommandLine.{row_of};
ghost use Rattle.duk_arguments.specs.Request.{pair_of};
ghost use Rattle.duk_program.specs.inner.CommandLine.{parameter_of};

use crate::command_line::arguments::Argument;
use crate::command_line::{CommandName, Entry, Request, usage_of};
use clap::ArgMatches;
use std::alloc::{AllocError, Global};

/// The request of a command with what was found after it.
pub(crate) fn request_of<'a>(
    alloc: Global,
    command: CommandName,
    found: &ArgMatches<'a>,
) -> Result<Request<'a>, AllocError>
    ensures { IfOk result (λ request. request ≡ record {
      command = command;
      entries = flat_map (entries_found (rows_of (found_of found.now))) (row_of command).parameters;
    }) }
{
    let mut entries = Vec::new(alloc);
    for argument in usage_of(command).arguments {
        push_found(&mut entries, *argument, found)?;
    }
    Ok(Request::new(command, entries))
}

/// Adds what was found of an argument.
fn push_found<'a>(
    entries: &mut Vec<Entry<'a>>,
    argument: Argument<'static>,
    found: &ArgMatches<'a>,
) -> Result<(), AllocError>
    ensures { OnOk result (map pair_of entries.new.items ≡ map pair_of entries.old.items
        ++ entries_found (rows_of (found_of found.now)) (parameter_of argument.entry)) }
{
    match argument {
        Argument::Needed(_, name, _)
        | Argument::Optional(_, name, _)
        | Argument::Several(_, name, _)
        | Argument::Valued(_, name, _, _)
        | Argument::Named(_, name, _, _) => push_texts(entries, name, found),
        Argument::Flag(name, _) => push_flag(entries, name, found),
    }
}

/// Adds the texts that were found under a name.
fn push_texts<'a>(
    entries: &mut Vec<Entry<'a>>,
    name: &'static str,
    found: &ArgMatches<'a>,
) -> Result<(), AllocError>
    ensures { OnOk result (map pair_of entries.new.items ≡ map pair_of entries.old.items
        ++ map (λ text. (name.entry.now, text))
        (unwrap_or (all_of name.entry.now (rows_of (found_of found.now))) [])) }
{
    let Some(texts) = texts(found, name) else {
        return Ok(());
    };
    for text in texts {
        entries.push(Entry { name, text })?;
    }
    Ok(())
}

/// Adds a flag, where it was found.
fn push_flag<'a>(
    entries: &mut Vec<Entry<'a>>,
    name: &'static str,
    found: &ArgMatches<'a>,
) -> Result<(), AllocError>
    ensures { OnOk result (map pair_of entries.new.items ≡ map pair_of entries.old.items
        ++ map (λ text. (name.entry.now, text))
        (if is_flagged name.entry.now (rows_of (found_of found.now)) then codes "true" ∷ [] else [])) }
{
    if flag(found, name) {
        entries.push(Entry { name, text: "true" })?;
    }
    Ok(())
}

/// The texts that were found under a name, where there are any.
#[tactic(auto, using(crate::proofs::FoundRows::by_rows))]
fn texts<'f, 'a>(found: &'f ArgMatches<'a>, name: &str) -> Option<&'f [&'a str]>
    ensures { all_of name.now (rows_of (found_of found.now))
        ≡ option_map (λ texts. map (λ text. text.now) texts.now) result }
{
    found.get_strs(name)
}

/// Whether a flag was found.
#[tactic(auto, using(crate::proofs::FoundRows::by_rows))]
fn flag(found: &ArgMatches<'_>, name: &str) -> bool
    ensures { result ≡ is_flagged name.now (rows_of (found_of found.now)) }
{
    match found.get_str(name) {
        Some(text) => text == "true",
        None => false,
    }
}
