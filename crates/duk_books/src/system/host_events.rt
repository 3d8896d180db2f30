//! The host's events.

ghost use Rattle.std.specs.Prelude.{◌≡◌, ◌≢◌, ◌∷◌, ℕ, List, [], IfErr, IfOk, OnErr};
ghost use Rattle.duk_books.specs.Arm.{ArmsHost};
ghost use Rattle.duk_books.specs.Books.{meanings_of};
ghost use Rattle.duk_books.specs.Restart.{IsHostLeft, RestartsHost};
ghost use Rattle.duk_books.specs.Up.{IsUpLeft, ReachesHost, SaysAnswer};
ghost use Rattle.duk_books.specs.declared.outcome.Outcome.TheVariants as came;
ghost use Rattle.duk_books.specs.Frames.{IsReversalReplyFrame};
ghost use Rattle.duk_books.specs.inner.Up.{IsAnswerFrame, SaysReversed, said_by};
ghost use Rattle.duk_journal_host.specs.Group.{AnswersFrames, GroupRefused};
ghost use Rattle.duk_journal_host.specs.Host.{host_meaning_of};

use crate::event::End;
use crate::frames::{copy_of, is_among};
use crate::outcome::Outcome;
use crate::system::System;
use duk_frame::{AnswerFrame, Frame, read_answer};
use duk_host::{HostFault, Issuer};
use duk_journal::Journal;
use duk_journal_host::{Group, JournalHost};
use duk_reversal::read_reversal_reply;
use duk_stations::{place_of, push_within};
use duk_store::Cell;
use std::alloc::AllocError;
use std::slice;

/// What comes of a fault of the host, if it is another than out of memory.
fn outcome_of_fault(fault: HostFault) -> Result<Outcome, AllocError>
    ensures other { IfOk result
        (λ outcome. (outcome ≡ came.HostFaulted fault) × (fault ≢ HostFault.NoMemory)) }
    ensures memory { OnErr result (fault ≡ HostFault.NoMemory) }
{
    match fault {
        HostFault::NoMemory => Err(AllocError),
        fault => Ok(Outcome::HostFaulted(fault)),
    }
}

/// Takes a frame to the host, alone, and gives its answer.
fn answer_alone<const N: usize, J: Journal, I: Issuer>(
    host: &mut JournalHost<N, J, I>,
    group: &mut Group,
    frame: &Frame,
) -> Result<Frame, HostFault>
    ensures answered { IfOk result (λ answer. AnswersFrames
        (host_meaning_of J.meaning I.decides)
        (frame.now.items ∷ []) host.old host.new (answer.items ∷ [])) }
    ensures kind { IfOk result IsAnswerFrame }
    ensures refused { IfErr result (λ why. (answers : List (List ℕ)) × GroupRefused
        (host_meaning_of J.meaning I.decides)
        (frame.now.items ∷ []) host.old host.new answers why) }
{
    duk_journal_host::laws::answers();
    host.judges();
    host.answer(slice::from_ref(frame), group)?;
    Ok(first_answer(group))
}

/// The first answer of a group that has one.
fn first_answer(group: &Group) -> Frame
    requires { group.now.answers ≢ [] }
    ensures { (answer : List ℕ) (others : List (List ℕ)) → group.now.answers ≡ answer ∷ others
        → result.items ≡ answer }
{
    copy_of(&group.answers()[0])
}

/// What an answer says that is sent after these.
fn outcome_of(answers: &[Frame], answer: &Frame) -> Outcome
    requires { IsAnswerFrame answer.now }
    ensures { SaysAnswer answers.now answer.now result }
{
    let k = answers.len() as u64 + 1;
    let again = is_among(answers, answer);
    match read_answer(answer.as_slice()) {
        Some(given) => outcome_of_answer(k, again, given),
        None => outcome_of_reversal(k, answer),
    }
}

/// What answer `k` to a request says, which was perhaps given before.
fn outcome_of_answer(k: u64, again: bool, given: AnswerFrame) -> Outcome
    ensures { result ≡ said_by k again given }
{
    match given {
        AnswerFrame::Reply { ksn, code, .. } => {
            if again {
                Outcome::Repeated { k, ksn, code }
            } else {
                Outcome::Accepted { k, ksn, code }
            }
        }
        AnswerFrame::Refusal { ksn, reason } => Outcome::Refused { k, ksn, reason },
    }
}

/// What the reply to a reversal says, which is answer `k`.
fn outcome_of_reversal(k: u64, answer: &Frame) -> Outcome
    requires { IsReversalReplyFrame answer.now }
    ensures { SaysReversed k answer.now result }
{
    let reply = read_reversal_reply(answer.as_slice()).unwrap();
    Outcome::Reversed {
        k,
        ksn: reply.numbers.ksn(),
        reversed: reply.numbers.reversed(),
        state: reply.state,
    }
}

impl<const N: usize, C: Cell, B: Cell, J: Journal, I: Issuer> System<N, C, B, J, I> {
    /// Takes a request or a reversal to the host, and its answer to the network.
    pub(crate) fn up(&mut self, k: u32) -> Result<Outcome, AllocError>
        ensures outcome { IfOk result (λ outcome. ReachesHost
            (meanings_of C.meaning B.meaning J.meaning I.decides) self.old k outcome self.new) }
        ensures left { OnErr result (IsUpLeft
            (meanings_of C.meaning B.meaning J.meaning I.decides) self.old k self.new) }
    {
        let Some(sent) = place_of(k, self.requests.len()) else {
            return Ok(Outcome::NoSuchFrame);
        };
        self.answers.reserve(1)?;
        let mut group = Group::new(self.alloc)?;
        match answer_alone(&mut self.host, &mut group, &self.requests[sent]) {
            Ok(answer) => {
                let outcome = outcome_of(self.answers.as_slice(), &answer);
                push_within(&mut self.answers, answer);
                Ok(outcome)
            }
            Err(fault) => outcome_of_fault(fault),
        }
    }

    /// Restarts the host.
    pub(crate) fn restart_host(&mut self) -> Result<Outcome, AllocError>
        ensures outcome { IfOk result (λ outcome. RestartsHost
            (meanings_of C.meaning B.meaning J.meaning I.decides) self.old outcome self.new) }
        ensures left { OnErr result (IsHostLeft
            (meanings_of C.meaning B.meaning J.meaning I.decides) self.old self.new) }
    {
        match self.host.restart() {
            Ok(kept) => Ok(Outcome::HostKeeps(kept)),
            Err(fault) => outcome_of_fault(fault),
        }
    }

    /// Arms the host's journal.
    pub(crate) fn arm_host(&mut self, n: u32) -> Outcome
        ensures { ArmsHost (meanings_of C.meaning B.meaning J.meaning I.decides)
            self.old n result self.new }
    {
        self.host.judges();
        self.host.arm(n);
        self.host.judges();
        Outcome::Armed { end: End::Host, n }
    }
}
