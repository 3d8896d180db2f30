//! Why a call is refused.

ghost use Rattle.std.specs.Prelude.{◌≡◌};
ghost use Rattle.duk_calls.specs.Answer.{status_of};
ghost use Rattle.duk_calls.specs.Fault.{fault_number};

use duk_block::BlockFault;
use duk_pin::PinFault;
use std::error::Error;
use std::fmt;

/// Why a call is refused. `Display` writes the name.
#[derive(Debug, Clone, Copy, PartialEq, Eq)]
pub enum Fault {
    /// 1: a slice has another length than the call takes.
    Length,
    /// 2: the counter of an initial key serial number is not zero.
    NotInitial,
    /// 3: the counter numbers no transaction: it is zero or has more than ten one bits.
    NotUsable,
    /// 4: no number is left.
    Spent,
    /// 5: the bytes are no image of a terminal.
    NotAnImage,
    /// 6: the initial key serial number is the terminal's own, or one that it had before.
    IksnSpent,
    /// 7: the terminal had eight initial key serial numbers before its own.
    LoadsSpent,
    /// 8 to 11: the text is no PIN, or no PAN.
    Pin(PinFault),
    /// 12: the block is no PIN block of this PAN.
    NotAPinBlock,
    /// 13 to 20: the text is no key block, or the key cannot be wrapped.
    Block(BlockFault),
    /// 21: the bytes are no request's frame.
    NotARequest,
    /// 22: the bytes are no accepted reply's frame.
    NotAReply,
    /// 23: the bytes are no refusal's frame.
    NotARefusal,
    /// 24: the two bytes are no code of a reply: 00, 14, 55, 51 or 30.
    NotACode,
    /// 25: the reason of a refusal is none of 1 to 6.
    NotAReason,
    /// 26: the reply is to another key serial number.
    NotMine,
    /// 27: the MAC is not that of the frame.
    BadMac,
    /// 28: fewer than the two bytes of a frame's length are there.
    PartOfFrame,
    /// 29: a length above 62 stands where a frame would begin.
    TooLong,
    /// 30: the key serial number cannot reverse that one: the two have not the same initial key
    /// serial number, are one number, or the reversed one is not usable.
    NotReversed,
    /// 31: the bytes are no reversal's frame.
    NotAReversal,
    /// 32: the state of a reversal's reply is neither 1 nor 0.
    NotAState,
    /// 33: the bytes are no frame of a reversal's reply.
    NotAReversalReply,
    /// 34: the key block is for another key usage.
    OtherUsage,
    /// 35: the key in the block has another length.
    OtherKeyLength,
    /// 36: the key block has no optional block with this id.
    NoOptionalBlock,
    /// 37: the bytes are no security module.
    NotAModule,
    /// 38: the key block's usage, algorithm, mode of use or key length is not that of such a key.
    WrongUse,
    /// 39: the module has a base derivation key for this prefix.
    PrefixTaken,
    /// 40: the module has eight base derivation keys.
    SlotsFull,
    /// 41: the module has a zone key.
    ZoneTaken,
    /// 42: the module has no zone key.
    NoZone,
    /// 43: a place among the cards has none.
    NotACard,
    /// 44: the bytes are no payment and no reversal with its settlement.
    NotSettled,
    /// 45: the module has no base derivation key for the prefix of the key serial number.
    NoKeySet,
}

impl Fault {
    /// The fault's number, by which other languages know it. It does not change any more.
    pub fn number(self) -> u32
        ensures { result ≡ fault_number self }
    {
        match self {
            Fault::Length => 1,
            Fault::NotInitial => 2,
            Fault::NotUsable => 3,
            Fault::Spent => 4,
            Fault::NotAnImage => 5,
            Fault::IksnSpent => 6,
            Fault::LoadsSpent => 7,
            Fault::Pin(PinFault::PinLength) => 8,
            Fault::Pin(PinFault::PinDigit) => 9,
            Fault::Pin(PinFault::PanLength) => 10,
            Fault::Pin(PinFault::PanDigit) => 11,
            Fault::NotAPinBlock => 12,
            Fault::Block(BlockFault::Length) => 13,
            Fault::Block(BlockFault::Version) => 14,
            Fault::Block(BlockFault::HeaderField) => 15,
            Fault::Block(BlockFault::OptionalBlock) => 16,
            Fault::Block(BlockFault::Hex) => 17,
            Fault::Block(BlockFault::Mac) => 18,
            Fault::Block(BlockFault::Payload) => 19,
            Fault::Block(BlockFault::PadLength) => 20,
            Fault::NotARequest => 21,
            Fault::NotAReply => 22,
            Fault::NotARefusal => 23,
            Fault::NotACode => 24,
            Fault::NotAReason => 25,
            Fault::NotMine => 26,
            Fault::BadMac => 27,
            Fault::PartOfFrame => 28,
            Fault::TooLong => 29,
            Fault::NotReversed => 30,
            Fault::NotAReversal => 31,
            Fault::NotAState => 32,
            Fault::NotAReversalReply => 33,
            Fault::OtherUsage => 34,
            Fault::OtherKeyLength => 35,
            Fault::NoOptionalBlock => 36,
            Fault::NotAModule => 37,
            Fault::WrongUse => 38,
            Fault::PrefixTaken => 39,
            Fault::SlotsFull => 40,
            Fault::ZoneTaken => 41,
            Fault::NoZone => 42,
            Fault::NotACard => 43,
            Fault::NotSettled => 44,
            Fault::NoKeySet => 45,
        }
    }
}

impl fmt::Display for Fault {
    ghost use Rattle.std.specs.Prelude.{Some};
    ghost use Rattle.duk_calls.specs.Fault.{fault_name};

    ghost output = { λ fault. Some (fault_name fault) };

    fn fmt<W: fmt::Write>(&self, f: &mut fmt::Formatter<W>) -> fmt::Result {
        match self {
            Fault::Length => f.write_str("Length"),
            Fault::NotInitial => f.write_str("NotInitial"),
            Fault::NotUsable => f.write_str("NotUsable"),
            Fault::Spent => f.write_str("Spent"),
            Fault::NotAnImage => f.write_str("NotAnImage"),
            Fault::IksnSpent => f.write_str("IksnSpent"),
            Fault::LoadsSpent => f.write_str("LoadsSpent"),
            Fault::Pin(fault) => write!(f, "{fault}"),
            Fault::NotAPinBlock => f.write_str("NotAPinBlock"),
            Fault::Block(fault) => write!(f, "Block{fault}"),
            Fault::NotARequest => f.write_str("NotARequest"),
            Fault::NotAReply => f.write_str("NotAReply"),
            Fault::NotARefusal => f.write_str("NotARefusal"),
            Fault::NotACode => f.write_str("NotACode"),
            Fault::NotAReason => f.write_str("NotAReason"),
            Fault::NotMine => f.write_str("NotMine"),
            Fault::BadMac => f.write_str("BadMac"),
            Fault::PartOfFrame => f.write_str("PartOfFrame"),
            Fault::TooLong => f.write_str("TooLong"),
            Fault::NotReversed => f.write_str("NotReversed"),
            Fault::NotAReversal => f.write_str("NotAReversal"),
            Fault::NotAState => f.write_str("NotAState"),
            Fault::NotAReversalReply => f.write_str("NotAReversalReply"),
            Fault::OtherUsage => f.write_str("OtherUsage"),
            Fault::OtherKeyLength => f.write_str("OtherKeyLength"),
            Fault::NoOptionalBlock => f.write_str("NoOptionalBlock"),
            Fault::NotAModule => f.write_str("NotAModule"),
            Fault::WrongUse => f.write_str("WrongUse"),
            Fault::PrefixTaken => f.write_str("PrefixTaken"),
            Fault::SlotsFull => f.write_str("SlotsFull"),
            Fault::ZoneTaken => f.write_str("ZoneTaken"),
            Fault::NoZone => f.write_str("NoZone"),
            Fault::NotACard => f.write_str("NotACard"),
            Fault::NotSettled => f.write_str("NotSettled"),
            Fault::NoKeySet => f.write_str("NoKeySet"),
        }
    }
}

impl Error for Fault {}

/// An answer as a number: 0 where the call is done, or the number of the fault.
pub fn status(answer: Result<(), Fault>) -> u32
    ensures { result ≡ status_of answer }
{
    match answer {
        Ok(()) => 0,
        Err(fault) => fault.number(),
    }
}
