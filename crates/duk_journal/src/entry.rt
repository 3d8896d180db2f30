//! Entries, as a journal keeps them: payments and reversals.

ghost use Rattle.std.specs.Prelude.{◌≡◌, ◌<◌, ◌^◌, ◌↔◌, IfSome, IsTrue, Some};
ghost use Rattle.duk_journal.specs.Entry.{MayStandUnder, figure_of, kind_of, number_of_code, number_of_state, outcome_of};
ghost use Rattle.duk_journal.specs.inner.Entry.{IsWrittenAs};
ghost use Rattle.duk_frame.specs.declared.code.Code.{Code};
ghost use Rattle.duk_reversal.specs.declared.state.ReversalState.{ReversalState};
ghost use Rattle.duk_journal.specs.declared.entry.Decided.{Decided};

use duk_frame::Code;
use duk_reversal::ReversalState;
use duk_tree::{Ksn, usable};

/// What a journal keeps under a number: what was decided, and by which request.
#[derive(Clone, Copy)]
pub struct Entry {
    /// The key serial number of the request. Its counter is usable.
    pub number: Ksn,
    /// What was decided.
    pub decided: Decided,
    /// The MAC of the request, by which the same request is known again.
    pub mac: [u8; 8],
}

/// What a host decided of a request that it accepted.
#[derive(Clone, Copy)]
pub enum Decided {
    /// A payment.
    Payment {
        /// The amount, in the smallest unit of the currency.
        amount: u32,
        /// What the issuer said.
        code: Code,
    },
    /// A reversal, of another number of the same initial key serial number.
    Reversal {
        /// The counter of that number. It is usable.
        counter: u32,
        /// Whether a payment stood under that number and is undone.
        state: ReversalState,
    },
}

impl Decided {
    /// The kind of the record.
    pub(crate) fn kind(self) -> u8
        ensures { result ≡ kind_of self }
    {
        match self {
            Decided::Payment { .. } => 1,
            Decided::Reversal { .. } => 2,
        }
    }

    /// The figure that a record has of it: an amount, or the counter of the reversed number.
    pub(crate) fn figure(self) -> u32
        ensures value { result ≡ figure_of self }
        ensures fits { figure_of self < 2 ^ 32 }
    {
        match self {
            Decided::Payment { amount, .. } => amount,
            Decided::Reversal { counter, .. } => counter,
        }
    }

    /// The byte that a record has of its outcome: a code's number, or a state's.
    pub(crate) fn outcome(self) -> u8
        ensures { result ≡ outcome_of self }
    {
        match self {
            Decided::Payment { code, .. } => code_number(code),
            Decided::Reversal { state, .. } => state_number(state),
        }
    }

    /// What is written as this kind, this figure and this outcome.
    pub(crate) fn written_as(kind: u8, figure: u32, outcome: u8) -> Option<Decided>
        ensures found { IfSome result (λ decided. IsWrittenAs decided kind figure outcome) }
        ensures every { (decided : Decided) → IsWrittenAs decided kind figure outcome
            → result ≡ Some decided }
    {
        match kind {
            1 => Some(Decided::Payment {
                amount: figure,
                code: code_of_number(outcome)?,
            }),
            2 => Some(Decided::Reversal {
                counter: figure,
                state: state_of_number(outcome)?,
            }),
            _ => None,
        }
    }

    /// Whether it may stand under this number: a payment under any, a reversal where the number
    /// that it is of is usable, and another.
    pub fn may_stand_under(self, number: Ksn) -> bool
        ensures { IsTrue result ↔ MayStandUnder number self }
    {
        match self {
            Decided::Payment { .. } => true,
            Decided::Reversal { counter, .. } => usable(counter) && counter != number.counter(),
        }
    }
}

/// The number that a code is written as.
fn code_number(code: Code) -> u8
    ensures { result ≡ number_of_code code }
{
    match code {
        Code::Approved => 0,
        Code::NoCard => 14,
        Code::WrongPin => 55,
        Code::OverLimit => 51,
        Code::Unreadable => 30,
    }
}

/// The code that is written as this number.
fn code_of_number(number: u8) -> Option<Code>
    ensures found { IfSome result (λ code. number_of_code code ≡ number) }
    ensures every { (code : Code) → number_of_code code ≡ number → result ≡ Some code }
{
    match number {
        0 => Some(Code::Approved),
        14 => Some(Code::NoCard),
        55 => Some(Code::WrongPin),
        51 => Some(Code::OverLimit),
        30 => Some(Code::Unreadable),
        _ => None,
    }
}

/// The number that a state is written as. None is that of a code, which has two digits: so a record
/// whose kind alone is wrong has no contents.
fn state_number(state: ReversalState) -> u8
    ensures { result ≡ number_of_state state }
{
    match state {
        ReversalState::Undone => 129,
        ReversalState::NoneStands => 128,
    }
}

/// The state that is written as this number.
fn state_of_number(number: u8) -> Option<ReversalState>
    ensures found { IfSome result (λ state. number_of_state state ≡ number) }
    ensures every { (state : ReversalState) → number_of_state state ≡ number → result ≡ Some state }
{
    match number {
        129 => Some(ReversalState::Undone),
        128 => Some(ReversalState::NoneStands),
        _ => None,
    }
}
