//! What is counted of a command.

use crate::progress::pace::Pace;
use duk_commands::read_decimal;

/// What is counted of a command.
#[derive(Clone, Copy)]
pub(crate) enum Counting {
    /// Nothing: without the option, or of another command.
    Nothing,
    /// The lines that are read from standard input.
    LinesRead,
    /// The lines that are written, to standard output or to a new file, so many where that is known.
    LinesWritten(Option<u32>),
    /// The records that are written to a new file.
    Records,
}

impl Counting {
    /// The lines of a command that writes so many, as a text says. One that is no decimal number, as a
    /// reference, says nothing of them.
    pub(crate) fn lines_of(count: &str) -> Counting {
        Counting::LinesWritten(read_decimal(count, u32::MAX))
    }

    /// The pace of lines that are read, where they are counted.
    pub(crate) fn lines_read(self) -> Option<Pace> {
        match self {
            Counting::LinesRead => Some(Pace::unknown()),
            _ => None,
        }
    }

    /// The pace of lines that are written, where they are counted.
    pub(crate) fn lines_written(self) -> Option<Pace> {
        match self {
            Counting::LinesWritten(Some(count)) => Some(Pace::of(u64::from(count))),
            Counting::LinesWritten(None) => Some(Pace::unknown()),
            _ => None,
        }
    }

    /// Whether the records of a new file are counted.
    pub(crate) fn records(self) -> bool {
        match self {
            Counting::Records => true,
            _ => false,
        }
    }
}
