//! What an explanation tells.

use crate::explaining::paths::File;
use duk_service::{Reason, RecordFormat};

/// What was found.
#[derive(Clone, Copy)]
pub(crate) enum Found {
    /// An argument of so many bytes, and the place of its first wrong one.
    Text(usize, Option<usize>),
    /// COUNT, which is this number, written in so many digits.
    Count(u128, usize),
    /// The bytes of an initial key serial number, and words behind it.
    Number([u8; 10], &'static str),
    /// A counter with so many one bits.
    Ones(u32),
    /// What words tell.
    Words(&'static str),
    /// A configuration; words, where no line is found that is wrong.
    Config(&'static str),
    /// Records of a format; words, where none is found that is wrong.
    Records(RecordFormat, &'static str),
    /// A file that is not read, as the system says.
    Unread(Reason),
    /// One that is not opened and locked.
    Unopened(Reason),
    /// One that is not made.
    Unmade(Reason),
    /// A file without records of this format, as it is empty.
    Empty(RecordFormat),
    /// The record at a place, from 0, which is wrong.
    Record(u64),
    /// The record at a place, from 0, which is that of another kind of file.
    Foreign(u64),
    /// Two entries of `bdk`, from 1, which have one key.
    EqualKeys(u64, u64),
    /// The line of this number, from 1.
    Line(u64),
}

/// What is told of a fault. There is no room in it for the text of an argument, but for the number
/// that COUNT is, and for one that is issued.
#[derive(Clone, Copy)]
pub(crate) struct Seen {
    /// The name of the argument, the file or the stream that is at fault.
    pub(crate) name: &'static str,
    /// Its place among the arguments of this name, from 0.
    pub(crate) place: usize,
    /// Whether there are more of this name.
    pub(crate) is_one_of_several: bool,
    /// The file whose path is told.
    pub(crate) file: File,
    /// What was found.
    pub(crate) found: Found,
    /// Up to how many are wanted, where that is as many as are left.
    pub(crate) left: Option<u32>,
    /// What is wanted.
    pub(crate) wanted: &'static str,
}

impl Seen {
    /// What was found of what has this name.
    pub(crate) fn new(name: &'static str, found: Found) -> Seen {
        Seen {
            name,
            place: 0,
            is_one_of_several: false,
            file: File::Forgotten,
            found,
            left: None,
            wanted: "",
        }
    }

    /// The same of a file.
    pub(crate) fn of(mut self, file: File) -> Seen {
        self.file = file;
        self
    }

    /// The same, and what is wanted.
    pub(crate) fn wanted(mut self, wanted: &'static str) -> Seen {
        self.wanted = wanted;
        self
    }

    /// The same, of a COUNT its length alone.
    pub(crate) fn without_count(mut self) -> Seen {
        if let Found::Count(_, digits) = self.found {
            self.found = Found::Text(digits, None);
        }
        self
    }

    /// The same, with what else was found, if anything was.
    pub(crate) fn with(mut self, found: Option<Found>) -> Seen {
        self.found = found.unwrap_or(self.found);
        self
    }
}

/// What words tell of what has this name.
pub(crate) fn words(name: &'static str, words: &'static str) -> Seen {
    Seen::new(name, Found::Words(words))
}
