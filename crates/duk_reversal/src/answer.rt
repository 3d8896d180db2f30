//! What the host sends back to a reversal: a reply to it, or a refusal.

ghost use Rattle.std.specs.Prelude.{◌≡◌, IfSome, Some};
ghost use Rattle.duk_reversal.specs.Answer.{IsReversalAnswer};

use crate::laws;
use crate::reply::{ReversalReply, read_reversal_reply};
use duk_frame::{AnswerFrame, read_answer};
use duk_tree::Ksn;

/// The fields of what comes back to a reversal.
#[derive(Clone, Copy)]
pub enum ReversalAnswerFrame {
    /// The reversal was accepted.
    Reply(ReversalReply),
    /// It was refused, by the frame that refuses a payment too.
    Refusal {
        /// The key serial number that the reversal used.
        ksn: Ksn,
        /// Why, from 1 to 6.
        reason: u8,
    },
}

/// The fields of a frame that answers a reversal, or `None` where the bytes are no such frame.
pub fn read_reversal_answer(bytes: &[u8]) -> Option<ReversalAnswerFrame>
    ensures found { IfSome result (IsReversalAnswer bytes.now) }
    ensures every { (answer : ReversalAnswerFrame) → IsReversalAnswer bytes.now answer
        → result ≡ Some answer }
{
    laws::apart_from_payments();
    if let Some(reply) = read_reversal_reply(bytes) {
        return Some(ReversalAnswerFrame::Reply(reply));
    }
    match read_answer(bytes)? {
        AnswerFrame::Refusal { ksn, reason } => Some(ReversalAnswerFrame::Refusal { ksn, reason }),
        AnswerFrame::Reply { .. } => None,
    }
}
