//! What a host has decided, kept beyond every stop: a journal of payments and reversals.
//!
//! A journal keeps a list of entries, in the records of a disk or in memory. They are appended in
//! groups: after a stop in the midst of an append a restart finds the old list, or the old list and
//! the whole group, and nothing else.
//!
//! A disk has a header and records with check sums (`CheckedFormat`, version 2 of the format). The
//! records of version 1 (`EntryFormat`) have neither, and are read alone.
#![tactic(auto)]

mod check_sum;
mod checked_format;
mod disk_journal;
mod entry;
mod header;
mod journal;
pub mod laws;
mod memory_journal;
mod record_format;

pub use check_sum::CheckSum;
pub use checked_format::{CheckedFormat, with_check};
pub use disk_journal::DiskJournal;
pub use entry::{Decided, Entry};
pub use header::{
    HeaderBytes, JOURNAL_KIND, file_header, identity_in, is_file_header, is_journal_header,
    journal_header,
};
pub use journal::Journal;
pub use memory_journal::MemJournal;
pub use record_format::{
    Contents, ContentsBytes, EntryFormat, OPEN, RECORD_LENGTH, append, contents_of_record,
};
