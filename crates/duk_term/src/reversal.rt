//! What a terminal in this state may reverse, and what comes back to its reversal.

ghost use Rattle.std.specs.Prelude.{◌≡◌, IfOk, IfErr};
ghost use Rattle.duk_reversal.specs.Answer.{IsReversalAnswer};
ghost use Rattle.duk_reversal.specs.Reply.{IsReversalReply};
ghost use Rattle.duk_tree.specs.Derivation.{response_key_of};
ghost use Rattle.duk_term.specs.Reply.{IsPending};
ghost use Rattle.duk_term.specs.Reversal.{ComesBefore, ReportsReversal, ReversalReplyRefused, pending_number_of};
ghost use Rattle.duk_term.specs.inner.Reversal.{IsReversalFrom, MayNotReverse};

use crate::answer::ReversalAnswer;
use crate::fault::TermFault;
use crate::state::{Pending, State};
use duk_reversal::{
    ReversalAnswerFrame, ReversalNumbers, ReversalReply, is_reversal_reply, read_reversal_answer,
};
use duk_tdes::Key;
use duk_tree::{Ksn, response_key};

impl State {
    /// The number whose reply the terminal waits for.
    pub fn pending_number(&self) -> Option<Ksn>
        ensures { result ≡ pending_number_of self.now }
    {
        match self {
            State::Loaded {
                pending: Some(pending),
                ..
            } => Some(pending.ksn),
            _ => None,
        }
    }

    /// The numbers of a reversal of a number that the terminal used: its next one, and that.
    pub fn reversal_of(&self, reversed: Ksn) -> Result<ReversalNumbers, TermFault>
        ensures numbers { IfOk result (IsReversalFrom self.now reversed) }
        ensures refused { IfErr result (MayNotReverse self.now reversed) }
    {
        match self {
            State::Stopped => Err(TermFault::Stopped),
            State::Empty => Err(TermFault::NotLoaded),
            State::Loaded { registers, .. } => match registers.ksn() {
                Some(ksn) => numbers_of(ksn, reversed),
                None => Err(TermFault::Spent),
            },
        }
    }

    /// What the bytes that came back say of the reversal of this number, or the first reason to
    /// refuse them.
    pub fn judge_reversal(&self, reversed: Ksn, bytes: &[u8]) -> Result<ReversalAnswer, TermFault>
        ensures reported { IfOk result (ReportsReversal self.now reversed bytes.now) }
        ensures refused { IfErr result (ReversalReplyRefused self.now reversed bytes.now) }
    {
        let pending = match self {
            State::Stopped => return Err(TermFault::Stopped),
            State::Empty => None,
            State::Loaded { pending, .. } => *pending,
        };
        let answer = read_reversal_answer(bytes).ok_or(TermFault::Malformed)?;
        let pending = pending.ok_or(TermFault::NotPending)?;
        pending.judge_reversal(reversed, bytes, answer)
    }
}

impl Pending {
    /// What is pending under a number, by its transaction key.
    pub fn of_number(ksn: Ksn, key: &Key<16>) -> Pending
        ensures { result ≡ record { ksn = ksn; response_key = response_key_of key.now } }
    {
        Pending {
            ksn,
            response_key: response_key(key),
        }
    }

    /// What an answer says of this reversal.
    fn judge_reversal(
        &self,
        reversed: Ksn,
        bytes: &[u8],
        answer: ReversalAnswerFrame,
    ) -> Result<ReversalAnswer, TermFault>
        requires { IsReversalAnswer bytes.now answer }
        ensures reported { IfOk result (λ reported. (state : State) → IsPending state self.now
            → ReportsReversal state reversed bytes.now reported) }
        ensures refused { IfErr result (λ why. (state : State) → IsPending state self.now
            → ReversalReplyRefused state reversed bytes.now why) }
    {
        match answer {
            ReversalAnswerFrame::Reply(reply) => self.judge_reversal_reply(reversed, bytes, &reply),
            ReversalAnswerFrame::Refusal { ksn, reason } => {
                if ksn == self.ksn {
                    Ok(ReversalAnswer::Refused(reason))
                } else {
                    Err(TermFault::NotMine)
                }
            }
        }
    }

    /// What a reply says of this reversal.
    fn judge_reversal_reply(
        &self,
        reversed: Ksn,
        bytes: &[u8],
        reply: &ReversalReply,
    ) -> Result<ReversalAnswer, TermFault>
        requires { IsReversalReply bytes.now reply.now }
        ensures reported { IfOk result (λ reported. (state : State) → IsPending state self.now
            → ReportsReversal state reversed bytes.now reported) }
        ensures refused { IfErr result (λ why. (state : State) → IsPending state self.now
            → ReversalReplyRefused state reversed bytes.now why) }
    {
        if reply.numbers.ksn() != self.ksn {
            return Err(TermFault::NotMine);
        }
        if reply.numbers.reversed() != reversed {
            return Err(TermFault::NotMine);
        }
        if is_reversal_reply(&self.response_key, reply) {
            Ok(ReversalAnswer::Done(reply.state))
        } else {
            Err(TermFault::BadMac)
        }
    }
}

/// The numbers of a reversal under the next number, of one that comes before it.
fn numbers_of(ksn: Ksn, reversed: Ksn) -> Result<ReversalNumbers, TermFault>
    ensures numbers { IfOk result (λ numbers. (numbers ≡ record { ksn = ksn; reversed = reversed })
        × ComesBefore reversed ksn) }
    ensures refused { IfErr result (λ why. (why ≡ TermFault.NotMine) × ¬ ComesBefore reversed ksn) }
{
    if reversed.counter() >= ksn.counter() {
        return Err(TermFault::NotMine);
    }
    match ReversalNumbers::new(ksn, reversed) {
        Some(numbers) => Ok(numbers),
        None => Err(TermFault::NotMine),
    }
}
