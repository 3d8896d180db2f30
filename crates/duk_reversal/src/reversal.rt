//! Reversals, which a terminal sends to the host.

ghost use Rattle.std.specs.Prelude.{◌≡◌, ◌≤◌, ◌++◌, IfSome, Some, List, ℕ, length};
ghost use Rattle.duk_des.specs.Block.{IsBlock};
ghost use Rattle.duk_frame.specs.Frame.{framed, mac_text_of};
ghost use Rattle.duk_reversal.specs.Reversal.{IsReversal, reversal_text};

use crate::numbers::ReversalNumbers;
use crate::text::{AFTER_NUMBERS, ReversalText, begin_text, numbers_at, with_mac};
use duk_frame::Frame;
use duk_tdes::array_of;

/// The kind of a reversal, in the second byte of its contents.
const KIND: u8 = 4;

/// The bytes of its frame.
const LENGTH: usize = 32;

/// The fields of a reversal.
#[derive(Clone, Copy)]
pub struct Reversal {
    /// The number that it uses, and the one that it reverses.
    pub numbers: ReversalNumbers,
    /// The MAC.
    pub mac: [u8; 8],
}

impl Reversal {
    /// The text of the MAC of a reversal with these numbers: version 1, kind 4, and the numbers in
    /// 10 bytes each.
    pub fn text(numbers: ReversalNumbers) -> ReversalText
        ensures text { result.items ≡ reversal_text numbers }
        ensures reversal { (mac : List ℕ) → IsBlock mac
            → IsReversal (framed (reversal_text numbers ++ mac))
            (record { numbers = numbers; mac = mac }) }
    {
        begin_text(KIND, numbers)
    }

    /// The frame of a reversal: its text, and the MAC.
    pub fn bytes(&self) -> Frame
        ensures reversal { IsReversal result.items self.now }
        ensures mac_text { mac_text_of result.items ≡ reversal_text self.now.numbers }
        ensures least { 10 ≤ length result.items }
    {
        crate::laws::mac_texts();
        with_mac(&Reversal::text(self.numbers), self.mac)
    }
}

/// The fields of a reversal's frame, or `None` where the bytes are no such frame. Its numbers are
/// those of one initial key serial number, differ, and the reversed one is usable.
pub fn read_reversal(bytes: &[u8]) -> Option<Reversal>
    ensures found { IfSome result (IsReversal bytes.now) }
    ensures every { (reversal : Reversal) → IsReversal bytes.now reversal
        → result ≡ Some reversal }
{
    duk_tree::laws::serials();
    if bytes.len() != LENGTH {
        return None;
    }
    let numbers = numbers_at(bytes)?;
    let mac = array_of(&bytes[AFTER_NUMBERS..]);
    let reversal = Reversal { numbers, mac };
    if reversal.bytes().as_slice() == bytes {
        Some(reversal)
    } else {
        None
    }
}
