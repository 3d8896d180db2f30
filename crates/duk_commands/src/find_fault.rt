//! Why nothing is found, and the line of each fault.

ghost use Rattle.std.specs.Prelude.{◌≡◌, ◌≤◌, length};
ghost use Rattle.duk_commands.specs.FindFault.{find_line, find_text};

use crate::lines::{Lines, push_end, push_text};

/// Why `find` finds nothing.
#[derive(Clone, Copy, Debug, PartialEq, Eq)]
pub enum FindFault {
    /// The base derivation key is not 32 hexadecimal digits.
    BdkRefused,
    /// The initial key is not 32 hexadecimal digits.
    InitialRefused,
    /// What is looked for is no frame with a MAC in hexadecimal, or else not 16 digits.
    WhatRefused,
    /// The text of a MAC is empty, or not pairs of hexadecimal digits.
    TextRefused,
    /// The PAN is not 12 to 19 decimal digits.
    PanRefused,
    /// The block in clear is not 16 hexadecimal digits.
    BlockRefused,
    /// The number from which the search starts is not 20 hexadecimal digits, or is missing.
    KsnRefused,
    /// The number of numbers that are tried is none from 1 to 100,000.
    WindowRefused,
    /// No key of the numbers that are tried makes it.
    NotFound,
    /// Memory was refused.
    OutOfMemory,
    /// The line of what was found cannot be written.
    WriteFailed,
}

impl FindFault {
    /// What is reported of the fault.
    fn text(self) -> &'static str
        ensures text { result.now ≡ find_text self }
        ensures short { length result.now ≤ 15 }
    {
        match self {
            FindFault::BdkRefused => "BDK refused",
            FindFault::InitialRefused => "initial refused",
            FindFault::WhatRefused => "WHAT refused",
            FindFault::TextRefused => "TEXT refused",
            FindFault::PanRefused => "PAN refused",
            FindFault::BlockRefused => "BLOCK refused",
            FindFault::KsnRefused => "KSN refused",
            FindFault::WindowRefused => "window refused",
            FindFault::NotFound => "not found",
            FindFault::OutOfMemory => "out of memory",
            FindFault::WriteFailed => "write failed",
        }
    }

    /// The line that reports the fault, LF at its end.
    pub fn line(self) -> Lines
        ensures { result.items ≡ find_line self }
    {
        let mut line = Lines::new();
        push_text(&mut line, self.text().as_bytes());
        push_end(&mut line);
        line
    }
}
