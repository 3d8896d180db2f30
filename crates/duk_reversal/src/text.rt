//! What a reversal and its reply have in common: their heads, their numbers, and the text that the
//! MAC is made over.

ghost use Rattle.std.specs.Prelude.{◌≡◌, ◌≤◌, ◌+◌, ◌∷◌, ◌++◌, IfSome, Some, drop, length, take};
ghost use Rattle.arrayvec.specs.ArrayVec.{array_vec_len};
ghost use Rattle.duk_des.specs.Block.{IsBlock};
ghost use Rattle.duk_frame.specs.Frame.{framed, mac_text_of};
ghost use Rattle.duk_reversal.specs.Numbers.{AreNumbers, Numbers, number_bytes};

use crate::numbers::ReversalNumbers;
use arrayvec::ArrayVec;
use byteorder::{BigEndian, ByteOrder};
use duk_frame::Frame;
use duk_tdes::array_of;
use duk_tree::Ksn;

/// The bytes that a text has room for: that of a reply has 23.
const TEXT_ROOM: usize = 23;

/// The text that a MAC is made over: the contents of the frame but for the MAC.
pub type ReversalText = ArrayVec<u8, TEXT_ROOM>;

/// The first byte of every contents.
const VERSION: u8 = 1;

/// The bytes of a MAC.
const MAC_LENGTH: usize = 8;

/// Where the MAC begins in a reversal, and the state in its reply.
pub(crate) const AFTER_NUMBERS: usize = 24;

/// The text with these numbers alone, of this kind.
pub(crate) fn begin_text(kind: u8, numbers: ReversalNumbers) -> ReversalText
    ensures bytes { result.items ≡ 1 ∷ kind ∷ number_bytes numbers }
    ensures len { array_vec_len result ≡ 22 }
    ensures numbers { AreNumbers numbers }
{
    let mut text = ReversalText::new();
    append(&mut text, &[VERSION, kind]);
    append(&mut text, &numbers.ksn().bytes());
    append(&mut text, &numbers.reversed().bytes());
    text
}

/// Appends bytes to a text that has room for them.
pub(crate) fn append(text: &mut ReversalText, bytes: &[u8])
    requires { array_vec_len text.old + length bytes.now ≤ TEXT_ROOM }
    ensures bytes { text.new.items ≡ text.old.items ++ bytes.now }
    ensures len { array_vec_len text.new ≡ array_vec_len text.old + length bytes.now }
{
    text.try_extend_from_slice(bytes).unwrap();
}

/// The frame with this text and this MAC: their length in two bytes, the text and the MAC.
pub fn with_mac(text: &ReversalText, mac: [u8; MAC_LENGTH]) -> Frame
    ensures frame { result.items ≡ framed (text.now.items ++ mac) }
    ensures mac { IsBlock mac }
{
    let mut frame = Frame::new();
    let mut length = [0; 2];
    BigEndian::write_u16(&mut length, (text.len() + MAC_LENGTH) as u16);
    frame.try_extend_from_slice(&length).unwrap();
    frame.try_extend_from_slice(text.as_slice()).unwrap();
    frame
        .try_extend_from_slice(&array_of::<MAC_LENGTH>(&mac))
        .unwrap();
    frame
}

/// What stands where a frame has its numbers, if the first reverses the second.
pub(crate) fn numbers_at(bytes: &[u8]) -> Option<ReversalNumbers>
    requires { 24 ≤ length bytes.now }
    ensures found { IfSome result AreNumbers }
    ensures at { IfSome result (λ numbers. number_bytes numbers ≡ take 20 (drop 4 bytes.now)) }
    ensures every { (numbers : Numbers) → AreNumbers numbers
        → number_bytes numbers ≡ take 20 (drop 4 bytes.now)
        → result ≡ Some numbers }
{
    duk_tree::laws::serials();
    let ksn = Ksn::from_bytes(array_of(&bytes[4..14]));
    let reversed = Ksn::from_bytes(array_of(&bytes[14..AFTER_NUMBERS]));
    ReversalNumbers::new(ksn, reversed)
}
