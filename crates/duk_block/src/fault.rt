//! Why a key block, or the key in it, is refused.

ghost use Rattle.std.specs.Prelude.{◌≡◌};
ghost use Rattle.duk_block.specs.FaultName.{block_fault_name};

use std::error::Error;
use std::fmt;

/// Why a key block cannot be read, or a key cannot be wrapped. `Display` writes the name.
#[derive(Debug, Clone, Copy, PartialEq, Eq)]
pub enum BlockFault {
    /// The text has fewer than 80 or more than 512 characters or is not a multiple of 8, or its
    /// length field is not its length.
    Length,
    /// The first character is not `B`.
    Version,
    /// A header field cannot be printed, or the number of optional blocks is not two decimal
    /// digits.
    HeaderField,
    /// An optional block does not fit or its length is no length, or what is left after them is
    /// too short for a ciphertext and a MAC or is not made of whole blocks. In wrapping: what is
    /// given is not optional blocks that can be written.
    OptionalBlock,
    /// A character after the optional blocks is no hexadecimal digit.
    Hex,
    /// The MAC is not that of the block.
    Mac,
    /// The key's length is neither 128 nor 192 bits, or the payload is too short for it.
    Payload,
    /// The payload would not be made of whole blocks, or the text would be longer than 512
    /// characters.
    PadLength,
}

impl BlockFault {
    /// The fault's name.
    pub fn name(self) -> &'static str
        ensures { result.now ≡ block_fault_name self }
    {
        match self {
            BlockFault::Length => "Length",
            BlockFault::Version => "Version",
            BlockFault::HeaderField => "HeaderField",
            BlockFault::OptionalBlock => "OptionalBlock",
            BlockFault::Hex => "Hex",
            BlockFault::Mac => "Mac",
            BlockFault::Payload => "Payload",
            BlockFault::PadLength => "PadLength",
        }
    }
}

impl fmt::Display for BlockFault {
    ghost use Rattle.std.specs.Prelude.{Some};

    ghost output = { λ fault. Some (block_fault_name fault) };

    fn fmt<W: fmt::Write>(&self, f: &mut fmt::Formatter<W>) -> fmt::Result {
        f.write_str(self.name())
    }
}

impl Error for BlockFault {}

/// Why a key block has no key for a use.
#[derive(Debug, Clone, Copy, PartialEq, Eq)]
pub enum KeyFault {
    /// The key block cannot be read.
    Block(BlockFault),
    /// Its key is for another use, or has not the length that was asked for.
    WrongUse,
}
