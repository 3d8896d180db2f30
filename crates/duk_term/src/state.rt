//! What a terminal holds in memory.

ghost use Rattle.std.specs.Prelude.{◌≡◌, ◌≢◌, ◌↔◌, IsTrue, ℕ, List, Some, None, IfOk, IfErr, MatchOption};
ghost use Rattle.duk_regs.specs.Registers.{RegisterSet};
ghost use Rattle.duk_frame.specs.Answer.{IsAnswer, IsReply};
ghost use Rattle.duk_regs.specs.Registers.{IsRegisterSet, AreFutureKeysOf};
ghost use Rattle.duk_term.specs.Begin.{TakesFrom};
ghost use Rattle.duk_term.specs.inner.Begin.{IsNotTaken};
ghost use Rattle.duk_term.specs.Load.{MayTake, past_after_load};
ghost use Rattle.duk_term.specs.inner.Load.{MayNotTake};
ghost use Rattle.duk_term.specs.Terminal.{next_of, serial_of};
ghost use Rattle.duk_term.specs.Reply.{ReportsAnswer, IsPending, ReplyRefused, completed, reply_to};

use crate::answer::{Answer, Next};
use crate::fault::TermFault;
use duk_frame::{AnswerFrame, Code, is_payment_reply, read_answer};
use duk_regs::Registers;
use duk_tdes::Key;
use duk_tree::{Iksn, Ksn};
use std::mem;

/// A transaction whose reply has not come yet.
#[derive(Clone, Copy)]
pub struct Pending {
    /// Its key serial number.
    pub ksn: Ksn,
    /// The key of its reply's MAC.
    pub response_key: Key<16>,
}

/// What a terminal holds beside its cell.
#[derive(Drop)]
pub enum State {
    /// It is stopped.
    Stopped,
    /// It runs, and was not loaded yet.
    Empty,
    /// It runs, loaded.
    Loaded {
        /// Its registers.
        registers: Registers,
        /// The transaction that it began last, until its reply comes.
        pending: Option<Pending>,
    },
}

impl State {
    /// Which number comes next.
    pub fn next(&self) -> Next
        ensures { result ≡ next_of self.now }
    {
        match self {
            State::Stopped => Next::Stopped,
            State::Empty => Next::Empty,
            State::Loaded { registers, .. } => match registers.ksn() {
                Some(ksn) => Next::At(ksn),
                None => Next::Spent,
            },
        }
    }

    /// Whether the terminal may be given an initial key serial number.
    pub fn may_take(&self, iksn: Iksn) -> Result<(), TermFault>
        ensures may { IfOk result (λ _. MayTake self.now iksn) }
        ensures refused { IfErr result (MayNotTake self.now iksn) }
    {
        match self {
            State::Stopped => Err(TermFault::Stopped),
            State::Empty => Ok(()),
            State::Loaded { registers, .. } => Ok(registers.check_reload(iksn)?),
        }
    }

    /// The first registers of an initial key, with the history of the terminal.
    pub fn first_registers(&self, initial: Key<16>, iksn: Iksn) -> Result<Registers, TermFault>
        ensures iksn { IfOk result (λ set. set.iksn ≡ iksn) }
        ensures counter { IfOk result (λ set. set.counter ≡ 1) }
        ensures past { IfOk result (λ set. set.past ≡ past_after_load self.now) }
        ensures future_keys { IfOk result (λ set. AreFutureKeysOf initial set) }
        ensures refused { IfErr result (MayNotTake self.now iksn) }
    {
        match self {
            State::Stopped => Err(TermFault::Stopped),
            State::Empty => Ok(Registers::load(initial, iksn)),
            State::Loaded { registers, .. } => Ok(registers.reload(initial, iksn)?),
        }
    }

    /// Takes the next number: its key, its key serial number, and the registers that are left. The
    /// state is stopped until their image is kept.
    pub fn take_number(&mut self) -> Result<(Key<16>, Ksn, Registers), TermFault>
        ensures taken { IfOk result
            (λ taken. (set : RegisterSet) × TakesFrom self.old set taken.0 taken.2
            × (taken.1 ≡ serial_of set) × (self.new ≡ State.Stopped)) }
        ensures refused { IfErr result (IsNotTaken self.old) }
        ensures same { IfErr result (λ _. self.new ≡ self.old) }
    {
        match mem::replace(self, State::Stopped) {
            State::Stopped => Err(TermFault::Stopped),
            State::Empty => {
                *self = State::Empty;
                Err(TermFault::NotLoaded)
            }
            State::Loaded { registers, pending } => match registers.take() {
                Ok(taken) => Ok(taken),
                Err(registers) => {
                    *self = State::Loaded { registers, pending };
                    Err(TermFault::Spent)
                }
            },
        }
    }

    /// What the bytes that came back say, or the first reason to refuse them.
    pub fn judge(&self, bytes: &[u8]) -> Result<Answer, TermFault>
        ensures reported { IfOk result (ReportsAnswer self.now bytes.now) }
        ensures refused { IfErr result (ReplyRefused self.now bytes.now) }
    {
        let pending = match self {
            State::Stopped => return Err(TermFault::Stopped),
            State::Empty => None,
            State::Loaded { pending, .. } => *pending,
        };
        let answer = read_answer(bytes).ok_or(TermFault::Malformed)?;
        let pending = pending.ok_or(TermFault::NotPending)?;
        pending.judge(bytes, answer)
    }

    /// Ends what is pending.
    pub fn complete(&mut self)
        ensures { self.new ≡ completed self.old }
    {
        if let State::Loaded { pending, .. } = self {
            *pending = None;
        }
    }
}

impl Pending {
    /// What an answer says of this transaction.
    fn judge(&self, bytes: &[u8], answer: AnswerFrame) -> Result<Answer, TermFault>
        requires { IsAnswer bytes.now answer }
        ensures reported { IfOk result
            (λ reported. (state : State) → IsPending state self.now → ReportsAnswer state bytes.now reported) }
        ensures refused { IfErr result
            (λ why. (state : State) → IsPending state self.now → ReplyRefused state bytes.now why) }
    {
        match answer {
            AnswerFrame::Reply { ksn, code, mac } => self.judge_reply(bytes, ksn, code, mac),
            AnswerFrame::Refusal { ksn, reason } => {
                if ksn == self.ksn {
                    Ok(Answer::Refused(reason))
                } else {
                    Err(TermFault::NotMine)
                }
            }
        }
    }

    /// What a reply says of this transaction.
    fn judge_reply(
        &self,
        bytes: &[u8],
        ksn: Ksn,
        code: Code,
        mac: [u8; 8],
    ) -> Result<Answer, TermFault>
        requires { IsReply bytes.now ksn code mac }
        ensures reported { IfOk result
            (λ reported. (state : State) → IsPending state self.now → ReportsAnswer state bytes.now reported) }
        ensures refused { IfErr result
            (λ why. (state : State) → IsPending state self.now → ReplyRefused state bytes.now why) }
    {
        if ksn != self.ksn {
            return Err(TermFault::NotMine);
        }
        if is_payment_reply(&self.response_key, bytes, mac) {
            Ok(Answer::Done(code))
        } else {
            Err(TermFault::BadMac)
        }
    }
}
