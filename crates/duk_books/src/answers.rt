//! What a till makes of an answer.

ghost use Rattle.duk_books.specs.Down.{TakesAnswer, TakesReversalReply};

use crate::frames::{is_refusal, is_reversal_reply, ksn_of_answer, undone_in};
use crate::outcome::Outcome;
use duk_frame::Frame;
use duk_store::Cell;
use duk_term::{Answer, ReversalAnswer, TermFault};
use duk_till::{Till, TillFault};

/// Takes an answer to till `t`: to the reversal of its open purchase where it is the reply to one,
/// and else to the purchase; a refusal to whichever the till waits for.
pub(crate) fn take_answer<C: Cell, B: Cell>(till: &mut Till<C, B>, t: u32, frame: &Frame) -> Outcome
    ensures { TakesAnswer C.meaning B.meaning t frame.now result till.old till.new }
{
    if is_reversal_reply(frame) {
        return take_reversal_reply(till, t, frame);
    }
    match till.reply(frame.as_slice()) {
        Ok(Answer::Done(code)) => Outcome::Done {
            t,
            ksn: ksn_of_answer(frame),
            code,
        },
        Ok(Answer::Refused(reason)) => Outcome::GotRefusal {
            t,
            ksn: ksn_of_answer(frame),
            reason,
        },
        Err(fault) => {
            if fault == TillFault::Terminal(TermFault::NotPending) && is_refusal(frame) {
                take_reversal_reply(till, t, frame)
            } else {
                Outcome::TillFaulted { t, fault }
            }
        }
    }
}

/// Takes an answer to the reversal of the open purchase of till `t`.
fn take_reversal_reply<C: Cell, B: Cell>(till: &mut Till<C, B>, t: u32, frame: &Frame) -> Outcome
    ensures { TakesReversalReply C.meaning B.meaning t frame.now result till.old till.new }
{
    match till.reversal_reply(frame.as_slice()) {
        Ok(ReversalAnswer::Done(state)) => Outcome::Undone {
            t,
            ksn: undone_in(frame),
            state,
        },
        Ok(ReversalAnswer::Refused(reason)) => Outcome::GotRefusal {
            t,
            ksn: ksn_of_answer(frame),
            reason,
        },
        Err(fault) => Outcome::TillFaulted { t, fault },
    }
}
