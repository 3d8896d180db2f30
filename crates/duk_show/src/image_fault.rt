//! Why bytes are no image of a terminal.

ghost use Rattle.std.specs.Prelude.{◌≡◌, ◌≤◌, length};
ghost use Rattle.duk_show.specs.ImageFault.{image_fault_name};

/// The field of a terminal's image that is wrong.
#[derive(Clone, Copy, Debug, PartialEq, Eq)]
pub enum ImageFault {
    /// The text is not pairs of hexadecimal digits.
    Hex,
    /// The version is neither 1 nor 2.
    Version,
    /// The image has not the length of its version.
    Length,
    /// The counter bits of the initial key serial number are not zero.
    Iksn,
    /// The next counter is neither usable nor that of a spent terminal.
    Counter,
    /// A register without a number holds a key.
    Registers,
    /// The past initial key serial numbers are not lawful.
    Past,
}

impl ImageFault {
    /// The fault's name.
    pub fn name(self) -> &'static str
        ensures name { result.now ≡ image_fault_name self }
        ensures short { length result.now ≤ 15 }
    {
        match self {
            ImageFault::Hex => "Hex",
            ImageFault::Version => "Version",
            ImageFault::Length => "Length",
            ImageFault::Iksn => "Iksn",
            ImageFault::Counter => "Counter",
            ImageFault::Registers => "Registers",
            ImageFault::Past => "Past",
        }
    }
}
