//! Secrets that arguments give by reference, and why one is not read.

ghost use Rattle.std.specs.Prelude.{◌≡◌, ◌≤◌, length, take};
ghost use Rattle.duk_program.specs.Secrets.{longest_name, secret_line, unread_text};

use duk_commands::{Lines, push_end, push_text};

/// The most bytes of a name that is told, which no name has.
const LONGEST_NAME: usize = 64;

/// An argument that may be a reference.
#[derive(Clone, Copy, Debug, PartialEq, Eq)]
pub struct Secret {
    /// Its name in the help.
    pub name: &'static str,
    /// Its place among those of the request, from 0.
    pub place: usize,
}

impl Secret {
    /// The bytes of its name.
    fn told_name(&self) -> &'static [u8]
        ensures name { result.now ≡ take longest_name self.now.name.now }
        ensures short { length result.now ≤ 64 }
    {
        let name = self.name.as_bytes();
        if name.len() <= LONGEST_NAME {
            return name;
        }
        &name[..LONGEST_NAME]
    }
}

/// Why the line that a secret refers to is not read.
#[derive(Clone, Copy, Debug, PartialEq, Eq)]
pub enum Unread {
    /// There is no such file, it cannot be read, or standard input was read for another secret.
    CannotRead,
    /// The line has more than 4,096 bytes.
    TooLong,
    /// The line is not UTF-8.
    NotUtf8,
}

impl Unread {
    /// What is reported behind the name of the argument.
    fn text(self) -> &'static str
        ensures text { result.now ≡ unread_text self }
        ensures short { length result.now ≤ 13 }
    {
        match self {
            Unread::CannotRead => ": cannot read",
            Unread::TooLong => ": too long",
            Unread::NotUtf8 => ": not UTF-8",
        }
    }
}

/// Why a command over secrets is not begun.
#[derive(Clone, Copy, Debug, PartialEq, Eq)]
pub enum SecretFault {
    /// A secret is not read.
    Unread(Secret, Unread),
    /// Memory was refused.
    NoMemory,
}

impl SecretFault {
    /// The line of the fault.
    pub(crate) fn line(self) -> Lines
        ensures { result.items ≡ secret_line self }
    {
        let mut line = Lines::new();
        match self {
            SecretFault::Unread(secret, why) => {
                push_text(&mut line, secret.told_name());
                push_text(&mut line, why.text().as_bytes());
            }
            SecretFault::NoMemory => push_text(&mut line, b"out of memory"),
        }
        push_end(&mut line);
        line
    }
}
