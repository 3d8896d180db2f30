//! The versions of a journal's format.

ghost use Rattle.duk_journal_copy.specs.Version.{format_of};

use duk_journal::{CheckedFormat, Entry, EntryFormat, RECORD_LENGTH};
use duk_store::Format;

/// A version of a journal's format, which is a format itself: so a journal of either is read by the
/// same code.
#[derive(Clone, Copy, Debug, PartialEq, Eq)]
pub enum Version {
    /// Records alone (`EntryFormat`).
    One,
    /// A header, and records with check sums (`CheckedFormat`).
    Two,
}

impl Format for Version {
    type Item = Entry;

    ghost meaning = { format_of };

    fn laws(&self) {
        match *self {
            Version::One => EntryFormat {}.laws(),
            Version::Two => CheckedFormat {}.laws(),
        }
    }

    fn record_length(&self) -> usize {
        RECORD_LENGTH
    }

    fn headers(&self) -> u64 {
        match *self {
            Version::One => EntryFormat {}.headers(),
            Version::Two => CheckedFormat {}.headers(),
        }
    }

    fn is_header(&self, record: &[u8]) -> bool {
        match *self {
            Version::One => EntryFormat {}.is_header(record),
            Version::Two => CheckedFormat {}.is_header(record),
        }
    }

    fn identity(&self, header: &[u8]) -> u64 {
        match *self {
            Version::One => EntryFormat {}.identity(header),
            Version::Two => CheckedFormat {}.identity(header),
        }
    }

    fn write(&self, identity: u64, place: u64, followers: u16, item: &Entry, contents: &mut [u8]) {
        match *self {
            Version::One => EntryFormat {}.write(identity, place, followers, item, contents),
            Version::Two => CheckedFormat {}.write(identity, place, followers, item, contents),
        }
    }

    fn read(&self, identity: u64, place: u64, contents: &[u8]) -> Option<(u16, Entry)> {
        match *self {
            Version::One => EntryFormat {}.read(identity, place, contents),
            Version::Two => CheckedFormat {}.read(identity, place, contents),
        }
    }
}
