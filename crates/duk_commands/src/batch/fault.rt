//! Why a command is not done for each line of its input, and the line of each fault.

ghost use Rattle.std.specs.Prelude.{◌≡◌, ◌≤◌, ◌++◌, length};
ghost use Rattle.duk_commands.specs.Batch.{batch_line};
ghost use Rattle.duk_commands.specs.Fault.{line_end};

use crate::lines::{Lines, push_end, push_text};

/// Why a command is not done for each line of its input.
#[derive(Clone, Copy, Debug, PartialEq, Eq)]
pub enum BatchFault {
    /// An item was refused, and all lines were answered.
    ItemsRefused,
    /// The input could not be read to its end. The lines that had ended were answered.
    ReadFailed,
    /// The answers could not be written.
    WriteFailed,
}

impl BatchFault {
    /// The line of the fault, LF at its end.
    pub fn line(self) -> Lines
        ensures { result.items ≡ batch_line self }
    {
        let mut line = Lines::new();
        push_text(&mut line, self.text().as_bytes());
        push_end(&mut line);
        line
    }

    /// What is reported of the fault.
    fn text(self) -> &'static str
        ensures text { batch_line self ≡ result.now ++ line_end }
        ensures short { length result.now ≤ 20 }
    {
        match self {
            BatchFault::ItemsRefused => "batch: items refused",
            BatchFault::ReadFailed => "batch: read failed",
            BatchFault::WriteFailed => "write failed",
        }
    }
}
