//! Why bytes are no frame.

ghost use Rattle.std.specs.Prelude.{◌≡◌, ◌≤◌, length};
ghost use Rattle.duk_show.specs.FrameFault.{frame_fault_name, frame_place};

/// The field of a frame that is wrong.
#[derive(Clone, Copy, Debug, PartialEq, Eq)]
pub enum FrameFault {
    /// The text is not pairs of hexadecimal digits.
    Hex,
    /// The length is not that of the bytes after it.
    Length,
    /// The version is not 1.
    Version,
    /// The kind is none of 1 to 5.
    Kind,
    /// The length is none that a frame of its kind has.
    Size,
    /// The number of the PAN's digits is not the one that a request of its length has.
    PanLength,
    /// The PAN is not made of decimal digits.
    PanDigit,
    /// The code is none.
    Code,
    /// The reason is none.
    Reason,
    /// The number that is reversed is none that a reversal under the other number may reverse.
    Reversed,
    /// The state is none.
    State,
}

impl FrameFault {
    /// The fault's name.
    pub fn name(self) -> &'static str
        ensures name { result.now ≡ frame_fault_name self }
        ensures short { length result.now ≤ 15 }
    {
        match self {
            FrameFault::Hex => "Hex",
            FrameFault::Length => "Length",
            FrameFault::Version => "Version",
            FrameFault::Kind => "Kind",
            FrameFault::Size => "Size",
            FrameFault::PanLength => "PanLength",
            FrameFault::PanDigit => "PanDigit",
            FrameFault::Code => "Code",
            FrameFault::Reason => "Reason",
            FrameFault::Reversed => "Reversed",
            FrameFault::State => "State",
        }
    }

    /// Where the field of the fault begins, in bytes.
    pub(crate) fn place(self) -> usize
        ensures { result ≡ frame_place self }
    {
        match self {
            FrameFault::Hex | FrameFault::Length | FrameFault::Size => 0,
            FrameFault::Version => 2,
            FrameFault::Kind => 3,
            FrameFault::PanLength | FrameFault::Code | FrameFault::Reason | FrameFault::Reversed =>
                14,
            FrameFault::PanDigit => 15,
            FrameFault::State => 24,
        }
    }
}
