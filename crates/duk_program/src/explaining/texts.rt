//! The texts of arguments, and what is told of one.

use crate::command_line::{CommandName, Entry, Request, help_name, usage_of};
use crate::explaining::seen::{Found, Seen};

/// A request that is explained.
#[derive(Clone, Copy)]
pub(crate) struct About<'r, 'a> {
    /// The request.
    pub(crate) request: &'r Request<'a>,
    /// An item, and the name of the argument in whose place it stands.
    pub(crate) item: Option<(&'static str, &'a str)>,
}

impl<'a> About<'_, 'a> {
    /// The text of the argument with this name, of several that at a place; empty where none is.
    pub(crate) fn text(self, name: &str, place: usize) -> &'a str {
        match self.item {
            Some((argument, item)) if argument == name => item,
            _ => text_of(self.request, name, place),
        }
    }

    /// What is told of that argument, of which bytes of this kind are wanted.
    pub(crate) fn seen_at(self, name: &'static str, place: usize, kind: Kind) -> Seen {
        self.placed(
            Seen::new(name, measured(kind, self.text(name, place))),
            place,
        )
    }

    /// The same of that at a place, where there are several with its name.
    pub(crate) fn placed(self, mut seen: Seen, place: usize) -> Seen {
        seen.is_one_of_several = self.request.count(seen.name) > 1;
        seen.place = if seen.is_one_of_several { place } else { 0 };
        seen
    }

    /// The same of the only argument with this name, and what is wanted.
    pub(crate) fn seen(self, name: &'static str, kind: Kind, wanted: &'static str) -> Seen {
        self.seen_at(name, 0, kind).wanted(wanted)
    }
}

/// Whether a command takes an argument of this name.
pub(crate) fn takes(command: CommandName, name: &str) -> bool {
    for argument in usage_of(command).arguments {
        if argument.name() == name {
            return true;
        }
    }
    false
}

/// The text of the argument of a request with this name, of several that at a place; empty where
/// there is none.
pub(crate) fn text_of<'a>(request: &Request<'a>, name: &str, place: usize) -> &'a str {
    entry_of(request, name, place).map_or("", |entry| entry.text)
}

/// The entry of a request whose argument is called so, of several that at a place.
pub(crate) fn entry_of<'a>(request: &Request<'a>, name: &str, place: usize) -> Option<Entry<'a>> {
    let mut left = place;
    for entry in request.entries() {
        if called(request.command(), entry.name) == name {
            if left == 0 {
                return Some(*entry);
            }
            left -= 1;
        }
    }
    None
}

/// What an argument of a command is called in its help: an option by its value.
pub(crate) fn called(command: CommandName, name: &'static str) -> &'static str {
    match name {
        "bdk-kcv" => "KCV",
        "from" => "KSN",
        "iv" => "BLOCK",
        "reverse" => "NUMBER",
        "skip" => "K",
        "text" => "TEXT",
        "window" => "N",
        _ => help_name(command, name),
    }
}

/// Which bytes are wanted of a text.
#[derive(Clone, Copy)]
pub(crate) enum Kind {
    /// Hexadecimal digits, in either case.
    Hexadecimal,
    /// Decimal digits.
    Decimal,
    /// Characters that can be printed, 20 to 7E hexadecimal.
    Printable,
    /// Any bytes.
    Any,
}

impl Kind {
    /// Whether a byte is of this kind.
    fn has(self, byte: u8) -> bool {
        match self {
            Kind::Hexadecimal => byte.is_ascii_hexdigit(),
            Kind::Decimal => byte.is_ascii_digit(),
            Kind::Printable => matches!(byte, b' '..=b'~'),
            Kind::Any => true,
        }
    }
}

/// The length of a text, and its first byte that is not of this kind.
pub(crate) fn measured(kind: Kind, text: &str) -> Found {
    let wrong = text.as_bytes().iter().position(|byte| !kind.has(*byte));
    Found::Text(text.len(), wrong)
}
