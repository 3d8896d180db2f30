//! What the frames on the network say.
//!
//! A number is read off the bytes of its frame, so that the laws speak of what went over the
//! network, and not of what a till remembers.

ghost use Rattle.std.specs.Prelude.{◌≡◌, ◌↔◌, IsTrue, Contains};
ghost use Rattle.duk_frame.specs.Answer.{IsAnswer};
ghost use Rattle.duk_reversal.specs.Reply.{IsReversalReply};
ghost use Rattle.duk_reversal.specs.Reversal.{IsReversal};
ghost use Rattle.duk_term.specs.Reply.{ksn_in};
ghost use Rattle.duk_books.specs.Frames.{IsRefusalFrame, IsReversalReplyFrame};

use duk_frame::{AnswerFrame, Frame, read_answer};
use duk_reversal::{Reversal, ReversalReply, read_reversal, read_reversal_reply};
use duk_tree::Ksn;

/// The key serial number in an answer.
pub(crate) fn ksn_of_answer(frame: &Frame) -> Ksn
    requires { (answer : AnswerFrame) × IsAnswer frame.now.items answer }
    ensures { (answer : AnswerFrame) → IsAnswer frame.now.items answer → result ≡ ksn_in answer }
{
    match read_answer(frame.as_slice()).unwrap() {
        AnswerFrame::Reply { ksn, .. } | AnswerFrame::Refusal { ksn, .. } => ksn,
    }
}

/// The key serial number of the purchase that a reversal undoes.
pub(crate) fn reversed_by(frame: &Frame) -> Ksn
    requires { (reversal : Reversal) × IsReversal frame.now.items reversal }
    ensures { (reversal : Reversal) → IsReversal frame.now.items reversal
        → result ≡ reversal.numbers.reversed }
{
    read_reversal(frame.as_slice()).unwrap().numbers.reversed()
}

/// The key serial number of the purchase in a reply to its reversal.
pub(crate) fn undone_in(frame: &Frame) -> Ksn
    requires { (reply : ReversalReply) × IsReversalReply frame.now.items reply }
    ensures { (reply : ReversalReply) → IsReversalReply frame.now.items reply
        → result ≡ reply.numbers.reversed }
{
    read_reversal_reply(frame.as_slice())
        .unwrap()
        .numbers
        .reversed()
}

/// Whether an answer is the reply to a reversal.
pub(crate) fn is_reversal_reply(frame: &Frame) -> bool
    ensures { IsTrue result ↔ IsReversalReplyFrame frame.now }
{
    read_reversal_reply(frame.as_slice()).is_some()
}

/// Whether an answer is a refusal.
pub(crate) fn is_refusal(frame: &Frame) -> bool
    ensures { IsTrue result ↔ IsRefusalFrame frame.now }
{
    match read_answer(frame.as_slice()) {
        Some(AnswerFrame::Refusal { .. }) => true,
        Some(AnswerFrame::Reply { .. }) => false,
        None => false,
    }
}

/// Whether a frame stands among others.
pub(crate) fn is_among(frames: &[Frame], frame: &Frame) -> bool
    ensures { IsTrue result ↔ Contains frames.now frame.now }
{
    frames.iter().any(|other| *other == *frame)
}

/// A copy of a frame.
pub(crate) fn copy_of(frame: &Frame) -> Frame
    ensures { result ≡ frame.now }
{
    let mut copy = Frame::new();
    copy.try_extend_from_slice(frame.as_slice()).unwrap();
    copy
}
