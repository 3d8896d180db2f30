//! What the frames on the network say.
//!
//! A number is read off the bytes of its frame, so that the laws speak of what went over the
//! network, and not of what a terminal remembers.

ghost use Rattle.std.specs.Prelude.{◌≡◌};
ghost use Rattle.duk_frame.specs.Answer.{IsAnswer};
ghost use Rattle.duk_term.specs.Reply.{ksn_in};
ghost use Rattle.duk_net.specs.inner.Up.{verdict_outcome};

use crate::outcome::Outcome;
use duk_frame::{AnswerFrame, Frame, read_answer};
use duk_host::Verdict;
use duk_tree::Ksn;

/// The key serial number in an answer.
pub(crate) fn ksn_of_answer(frame: &Frame) -> Ksn
    requires { (answer : AnswerFrame) × IsAnswer frame.now.items answer }
    ensures { (answer : AnswerFrame) → IsAnswer frame.now.items answer → result ≡ ksn_in answer }
{
    match read_answer(frame.as_slice()).unwrap() {
        AnswerFrame::Reply { ksn, .. } | AnswerFrame::Refusal { ksn, .. } => ksn,
    }
}

/// What comes of a request of which the host says so, in answer `k`.
pub(crate) fn outcome_of(k: u64, says: Verdict) -> Outcome
    ensures { result ≡ verdict_outcome k says }
{
    match says {
        Verdict::Accepted { ksn, code } => Outcome::Accepted { k, ksn, code },
        Verdict::Repeated { ksn, code } => Outcome::Repeated { k, ksn, code },
        Verdict::Refused { ksn, reason } => Outcome::Refused { k, ksn, reason },
    }
}
