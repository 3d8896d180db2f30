//! Why a command ends with status 1, and the line of each fault.

ghost use Rattle.std.specs.Prelude.{◌≡◌, ◌≤◌, length};
ghost use Rattle.duk_commands.specs.Fault.{fault_text, report_line};

use crate::lines::{Lines, push_end, push_text};
use duk_block::BlockFault;
use duk_pin::PinFault;

/// Why a command ends with status 1.
#[derive(Clone, Copy, Debug, PartialEq, Eq)]
pub enum Fault {
    /// The base derivation key is not 32 hexadecimal digits.
    BdkRefused,
    /// The initial key is not 32 hexadecimal digits.
    InitialRefused,
    /// The key serial number is not 20 hexadecimal digits.
    KsnRefused,
    /// The initial key serial number is not 20 hexadecimal digits with a counter of zero.
    IksnRefused,
    /// COUNT or K is not one or more decimal digits, or is too great.
    CountRefused,
    /// The counter is zero or has more than ten one bits.
    CounterRefused,
    /// The key block protection key is neither 32 nor 48 hexadecimal digits.
    KbpkRefused,
    /// The header fields are not 7 bytes.
    FieldsRefused,
    /// The key of `--key` is not 32 hexadecimal digits, or the key of `wrap` neither 32 nor 48.
    KeyRefused,
    /// The padding is not zero or more pairs of hexadecimal digits.
    PadRefused,
    /// The PIN block is not 16 hexadecimal digits.
    PinBlockRefused,
    /// The zone key is neither 32 nor 48 hexadecimal digits.
    ZoneRefused,
    /// The text of a MAC is not pairs of hexadecimal digits, or is empty.
    TextRefused,
    /// The amount is not one or more decimal digits, or is too great.
    AmountRefused,
    /// The number that is reversed is not 20 hexadecimal digits.
    NumberRefused,
    /// The number that is reversed has another initial key serial number.
    OtherIksn,
    /// The number that is reversed is the one that the reversal uses.
    SameNumber,
    /// The counter of the number that is reversed is zero or has more than ten one bits.
    NotUsable,
    /// The bytes are no request's frame, or its counter numbers no transaction.
    RequestRefused,
    /// The bytes are no answer's frame.
    AnswerRefused,
    /// The PIN or the PAN is refused.
    PinRefused(PinFault),
    /// The key block is refused, or the key cannot be wrapped.
    BlockRefused(BlockFault),
    /// The block is that of no PIN under the PAN and the key.
    NotAPinBlock,
    /// The answer is to another key serial number, or of another kind than what was sent.
    NotMine,
    /// The MAC of the answer is wrong.
    BadMac,
    /// Memory was refused.
    OutOfMemory,
    /// What had to be written could not be.
    WriteFailed,
}

impl Fault {
    /// The line that reports the fault, LF at its end.
    pub fn line(self) -> Lines
        ensures { result.items ≡ report_line self }
    {
        let mut line = Lines::new();
        push_text(&mut line, self.text().as_bytes());
        push_end(&mut line);
        line
    }

    /// What is reported of the fault.
    pub fn text(self) -> &'static str
        ensures text { result.now ≡ fault_text self }
        ensures short { length result.now ≤ 15 }
    {
        match self {
            Fault::BdkRefused => "BDK refused",
            Fault::InitialRefused => "initial refused",
            Fault::KsnRefused => "KSN refused",
            Fault::IksnRefused => "IKSN refused",
            Fault::CountRefused => "count refused",
            Fault::CounterRefused => "counter refused",
            Fault::KbpkRefused => "KBPK refused",
            Fault::FieldsRefused => "fields refused",
            Fault::KeyRefused => "key refused",
            Fault::PadRefused => "pad refused",
            Fault::PinBlockRefused => "block refused",
            Fault::ZoneRefused => "zone refused",
            Fault::TextRefused => "text refused",
            Fault::AmountRefused => "amount refused",
            Fault::NumberRefused => "number refused",
            Fault::OtherIksn => "OtherIksn",
            Fault::SameNumber => "SameNumber",
            Fault::NotUsable => "NotUsable",
            Fault::RequestRefused => "request refused",
            Fault::AnswerRefused => "answer refused",
            Fault::PinRefused(fault) => fault.name(),
            Fault::BlockRefused(fault) => fault.name(),
            Fault::NotAPinBlock => "NotAPinBlock",
            Fault::NotMine => "NotMine",
            Fault::BadMac => "BadMac",
            Fault::OutOfMemory => "out of memory",
            Fault::WriteFailed => "write failed",
        }
    }
}
