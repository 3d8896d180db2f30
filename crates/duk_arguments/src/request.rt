//! What the arguments ask for.

ghost use Rattle.std.specs.Prelude.{◌≡◌, IfOk, length, map, option_map};
ghost use Rattle.duk_arguments.specs.Request.{flag_in, pair_of, text_in, texts_in, value_in};

use crate::entry::Entry;
use crate::name::CommandName;
use std::alloc::{AllocError, Global};
use std::marker::Model;

/// What the arguments ask for: a command, and what was written after it. It holds keys and PINs as
/// written, and so has no `Debug`.
#[derive(Drop)]
pub struct Request<'a> {
    command: CommandName,
    entries: Vec<Entry<'a>>,
}

impl<'a> Model for Request<'a> {
    ghost use Rattle.std.specs.Prelude.{map};
    ghost use Rattle.duk_arguments.specs.Request.{Written, pair_of};

    ghost Value = { Written };

    ghost view = { λ request. record { command = request.command; entries = map pair_of request.entries.items } };
}

impl<'a> Request<'a> {
    /// A request of a command, with these entries, in the order of the command's row.
    pub fn new(command: CommandName, entries: Vec<Entry<'a>>) -> Self
        ensures { result ≡ record { command = command; entries = map pair_of entries.entry.items } }
    {
        Request { command, entries }
    }

    /// The command.
    pub fn command(&self) -> CommandName
        ensures { result ≡ self.now.command }
    {
        self.command
    }

    /// What was written after the command, in the order of its row.
    pub fn entries(&self) -> &[Entry<'a>]
        ensures { map pair_of result.now ≡ self.now.entries }
    {
        self.entries.as_slice()
    }

    /// The text of an argument, or the first of several; none where there is none.
    pub fn value(&self, name: &str) -> Option<&'a str>
        ensures { option_map (λ text. text.now) result ≡ value_in name.now self.now }
    {
        for entry in self.entries() {
            if entry.name == name {
                return Some(entry.text);
            }
        }
        None
    }

    /// The same, and no text where there is none.
    pub fn text(&self, name: &str) -> &'a str
        ensures { result.now ≡ text_in name.now self.now }
    {
        self.value(name).unwrap_or("")
    }

    /// Whether a flag is there, or the text of another argument.
    pub fn flag(&self, name: &str) -> bool
        ensures { result ≡ flag_in name.now self.now }
    {
        self.value(name).is_some()
    }

    /// How many texts an argument has.
    pub fn count(&self, name: &str) -> usize
        ensures { result ≡ length (texts_in name.now self.now) }
    {
        let mut count = 0;
        for entry in self.entries() {
            if entry.name == name {
                count += 1;
            }
        }
        count
    }

    /// The texts of an argument.
    pub fn texts(&self, alloc: Global, name: &str) -> Result<Vec<&'a str>, AllocError>
        ensures { IfOk result (λ texts. map (λ text. text.now) texts.items
            ≡ texts_in name.now self.now) }
    {
        let mut texts = Vec::new(alloc);
        for entry in self.entries() {
            if entry.name == name {
                texts.push(entry.text)?;
            }
        }
        Ok(texts)
    }
}
