//! Answers, which the host sends back: an accepted reply or a refusal.

ghost use Rattle.std.specs.Prelude.{◌≡◌, ◌≤◌, ◌++◌, IfSome, Some, List, ℕ, length};
ghost use Rattle.duk_des.specs.Block.{IsBlock};
ghost use Rattle.duk_frame.specs.Frame.{framed, mac_text_of};
ghost use Rattle.duk_frame.specs.Answer.{AreAnswerFields, IsAnswer, IsReason, IsRefusal, IsReply, answer_bytes, refusal_text, reply_text};
ghost use Rattle.duk_tree.specs.Serial.{IsSerial, Serial, serial_bytes};

use crate::code::Code;
use crate::frame::{Frame, append, begin_frame, has_kind};
use crate::text::MacText;
use duk_tdes::array_of;
use duk_tree::Ksn;

/// The kind of an accepted reply, in the second byte of its contents.
const REPLY: u8 = 2;

/// The bytes of its contents.
const REPLY_CONTENTS: usize = 22;

/// The kind of a refusal.
const REFUSAL: u8 = 3;

/// The bytes of its contents.
const REFUSAL_CONTENTS: usize = 13;

/// The fields of an answer.
#[derive(Clone, Copy)]
pub enum AnswerFrame {
    /// The payment was accepted, and this is its code.
    Reply {
        /// The key serial number of the request.
        ksn: Ksn,
        /// What the issuer says.
        code: Code,
        /// The MAC.
        mac: [u8; 8],
    },
    /// The request was refused.
    Refusal {
        /// The key serial number of the request, or that of ten zero bytes where the bytes were no
        /// request.
        ksn: Ksn,
        /// Why, from 1 to 6.
        reason: u8,
    },
}

/// The text of an accepted reply's MAC: version 1, kind 2, the key serial number in 10 bytes, and
/// the code as two digits.
pub fn reply_text(ksn: Ksn, code: Code) -> MacText
    ensures text { result ≡ reply_text ksn code }
    ensures reply { (mac : List ℕ) → IsBlock mac
        → IsReply (framed (reply_text ksn code ++ mac)) ksn code mac }
{
    let mut frame = begin_frame(REPLY_CONTENTS as u16, REPLY);
    append(&mut frame, &ksn.bytes());
    append(&mut frame, &code.text());
    MacText::new(frame)
}

/// The frame of an accepted reply: its text, and the MAC.
pub fn write_reply(ksn: Ksn, code: Code, mac: [u8; 8]) -> Frame
    ensures reply { IsReply result.items ksn code mac }
    ensures mac_text { mac_text_of result.items ≡ reply_text ksn code }
    ensures least { 10 ≤ length result.items }
{
    reply_text(ksn, code).with_mac(mac)
}

/// The frame of a refusal: version 1, kind 3, the key serial number in 10 bytes, and the reason.
pub fn write_refusal(ksn: [u8; 10], reason: u8) -> Frame
    requires { IsReason reason }
    ensures frame { result.items ≡ framed (refusal_text ksn reason) }
    ensures refusal { (serial : Serial) → IsSerial serial → serial_bytes serial ≡ ksn
        → IsRefusal result.items serial reason }
{
    let mut frame = begin_frame(REFUSAL_CONTENTS as u16, REFUSAL);
    append(&mut frame, &ksn);
    append(&mut frame, &[reason]);
    frame
}

/// The fields of an answer's frame, or `None` where the bytes are no such frame.
pub fn read_answer(bytes: &[u8]) -> Option<AnswerFrame>
    ensures found { IfSome result (IsAnswer bytes.now) }
    ensures every { (answer : AnswerFrame) → IsAnswer bytes.now answer → result ≡ Some answer }
{
    match *bytes.get(3)? {
        REPLY => read_reply(bytes),
        REFUSAL => read_refusal(bytes),
        _ => None,
    }
}

/// The fields of an accepted reply's frame, or `None` where the bytes are no such frame.
fn read_reply(bytes: &[u8]) -> Option<AnswerFrame>
    ensures found { IfSome result (IsAnswer bytes.now) }
    ensures every { (ksn : Serial) (code : Code) (mac : List ℕ) → IsReply bytes.now ksn code mac
        → result ≡ Some (AnswerFrame.Reply ksn code mac) }
{
    duk_tree::laws::serials();
    if bytes.len() != 2 + REPLY_CONTENTS {
        return None;
    }
    if !has_kind(bytes, REPLY) {
        return None;
    }
    let ksn = Ksn::from_bytes(array_of(&bytes[4..14]));
    let code = Code::from_text(array_of(&bytes[14..16]))?;
    let mac = array_of(&bytes[16..]);
    Some(AnswerFrame::Reply { ksn, code, mac })
}

/// The fields of a refusal's frame, or `None` where the bytes are no such frame.
fn read_refusal(bytes: &[u8]) -> Option<AnswerFrame>
    ensures found { IfSome result (IsAnswer bytes.now) }
    ensures every { (ksn : Serial) (reason : ℕ) → IsRefusal bytes.now ksn reason
        → result ≡ Some (AnswerFrame.Refusal ksn reason) }
{
    duk_tree::laws::serials();
    if bytes.len() != 2 + REFUSAL_CONTENTS {
        return None;
    }
    if !has_kind(bytes, REFUSAL) {
        return None;
    }
    let reason = bytes[14];
    if !(1..=6).contains(&reason) {
        return None;
    }
    let ksn = Ksn::from_bytes(array_of(&bytes[4..14]));
    Some(AnswerFrame::Refusal { ksn, reason })
}
