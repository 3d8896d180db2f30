//! Why nothing is shown, and the line of each fault.

ghost use Rattle.std.specs.Prelude.{◌≡◌, ◌≤◌, ◌++◌, length};
ghost use Rattle.duk_commands.specs.Fault.{line_end};
ghost use Rattle.duk_show.specs.Fault.{show_line, stopped_text};

use crate::decimal::push_decimal;
use crate::frame_fault::FrameFault;
use crate::image_fault::ImageFault;
use duk_block::BlockFault;
use duk_commands::{Lines, push_end, push_text};

/// Why nothing is shown. Places are counted from 0.
#[derive(Clone, Copy, Debug, PartialEq, Eq)]
pub enum ShowFault {
    /// What is to be shown is of no known kind.
    KindRefused,
    /// The base derivation key is not 32 hexadecimal digits.
    BdkRefused,
    /// The initial key is not 32 hexadecimal digits.
    InitialRefused,
    /// The counter of the frame's number is zero or has more than ten one bits.
    KsnRefused,
    /// The text is no frame in hexadecimal.
    FrameRefused {
        /// The byte at which the wrong field begins, or the character that is no digit.
        place: usize,
        /// The wrong field.
        why: FrameFault,
    },
    /// The text is no key block, whatever the key is.
    BlockRefused {
        /// The character at which the wrong part begins, or that is wrong.
        place: usize,
        /// The first fault of the key block.
        why: BlockFault,
    },
    /// The text is no image of a terminal in hexadecimal.
    ImageRefused {
        /// The byte at which the wrong field begins, or the character that is no digit.
        place: usize,
        /// The wrong field.
        why: ImageFault,
    },
    /// The file of a log cannot be read.
    LogUnread,
    /// The file of a log is too long.
    LogTooLong,
    /// The bytes are not those of a log.
    LogRefused {
        /// The first record that is in no log.
        place: usize,
    },
    /// The file of a journal cannot be read.
    JournalUnread,
    /// The file of a journal is too long.
    JournalTooLong,
    /// The bytes are not those of a journal.
    JournalRefused {
        /// The first record that is in no journal.
        place: usize,
    },
    /// The file of a ledger cannot be read.
    LedgerUnread,
    /// The file of a ledger is too long.
    LedgerTooLong,
    /// The bytes are not those of a ledger.
    LedgerRefused {
        /// The first record that is in no ledger.
        place: usize,
    },
    /// Memory was refused.
    OutOfMemory,
}

impl ShowFault {
    /// The line of the fault.
    pub fn line(self) -> Lines
        ensures { result.items ≡ show_line self }
    {
        match self {
            ShowFault::KindRefused => line_of("KIND refused"),
            ShowFault::BdkRefused => line_of("BDK refused"),
            ShowFault::InitialRefused => line_of("initial refused"),
            ShowFault::KsnRefused => line_of("KSN refused"),
            ShowFault::FrameRefused { place, why } => stopped_line("frame", place, why.name()),
            ShowFault::BlockRefused { place, why } => stopped_line("block", place, why.name()),
            ShowFault::ImageRefused { place, why } => stopped_line("image", place, why.name()),
            ShowFault::LogUnread => line_of("log: cannot read"),
            ShowFault::LogTooLong => line_of("log: too long"),
            ShowFault::LogRefused { place } => stopped_line("log", place, "Damaged"),
            ShowFault::JournalUnread => line_of("journal: cannot read"),
            ShowFault::JournalTooLong => line_of("journal: too long"),
            ShowFault::JournalRefused { place } => stopped_line("journal", place, "Damaged"),
            ShowFault::LedgerUnread => line_of("ledger: cannot read"),
            ShowFault::LedgerTooLong => line_of("ledger: too long"),
            ShowFault::LedgerRefused { place } => stopped_line("ledger", place, "Damaged"),
            ShowFault::OutOfMemory => line_of("out of memory"),
        }
    }
}

/// The line that says no more than this.
fn line_of(text: &str) -> Lines
    requires { length text.now ≤ 20 }
    ensures { result.items ≡ text.now ++ line_end }
{
    let mut line = Lines::new();
    push_text(&mut line, text.as_bytes());
    push_end(&mut line);
    line
}

/// The line that says where the reading of a text of this kind stops, and why.
fn stopped_line(kind: &str, place: usize, why: &str) -> Lines
    requires kind { length kind.now ≤ 15 }
    requires why { length why.now ≤ 15 }
    ensures { result.items ≡ stopped_text kind.now place why.now ++ line_end }
{
    let mut line = Lines::new();
    push_text(&mut line, kind.as_bytes());
    push_text(&mut line, b" refused at ");
    push_decimal(&mut line, place);
    push_text(&mut line, b": ");
    push_text(&mut line, why.as_bytes());
    push_end(&mut line);
    line
}
