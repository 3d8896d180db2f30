//! What becomes of authentic frames by what is kept: the entry that is kept, and the answer.

ghost use Rattle.std.specs.Prelude.{◌≡◌, IfSome};
ghost use Rattle.std.specs.Option.{option_to_list};
ghost use Rattle.duk_hsm.specs.Commands.{HasTransactionKey};
ghost use Rattle.duk_hsm.specs.Keys.{HsmKeys};
ghost use Rattle.duk_journal.specs.Entry.{MayStandUnder};
ghost use Rattle.duk_reversal.specs.Numbers.{AreNumbers};
ghost use Rattle.duk_tree.specs.Path.{IsUsable};
ghost use Rattle.duk_journal_host.specs.Judgement.{reversal_entry};
ghost use Rattle.duk_journal.specs.Standing.{payment_entry};
ghost use Rattle.duk_journal_host.specs.Steps.{IsAnswerOf, added_by, number_in};
ghost use Rattle.duk_journal_host.specs.inner.Draft.{IsDraftUnder, frame_of};

use crate::authentic::Purchase;
use crate::draft::Draft;
use duk_frame::Code;
use duk_host::Reason;
use duk_journal::{Decided, Entry};
use duk_reversal::{Reversal, ReversalState};
use duk_tree::Ksn;

/// What becomes of an authentic frame by what is kept.
#[derive(Clone, Copy)]
pub enum Settlement<T> {
    /// It is kept from now on, and this comes of it.
    Kept(T),
    /// The same was kept before, and this came of it then.
    KnownAgain(T),
    /// Its number is used.
    Used,
    /// There is no room for it.
    Full,
}

/// An authentic frame with its settlement.
#[derive(Clone, Copy)]
pub enum Settled {
    /// A payment: its code comes of it.
    Payment(Purchase, Settlement<Code>),
    /// A reversal: what it finds comes of it.
    Reversal(Reversal, Settlement<ReversalState>),
}

impl Settled {
    /// The entry that is kept from now on, if one is.
    pub fn entry(&self) -> Option<Entry>
        ensures entry { option_to_list result ≡ added_by self.now }
        ensures usable { IsUsable (number_in self.now).counter
            → IfSome result (λ entry. IsUsable entry.number.counter) }
        ensures stands { IfSome result (λ entry. MayStandUnder entry.number entry.decided) }
    {
        match self {
            Settled::Payment(purchase, Settlement::Kept(code)) => Some(purchase.entry(*code)),
            Settled::Reversal(reversal, Settlement::Kept(state)) => {
                Some(reversal_entry(reversal, *state))
            }
            _ => None,
        }
    }

    /// The number that it uses.
    pub(crate) fn number(&self) -> Ksn
        ensures { result ≡ number_in self.now }
    {
        match self {
            Settled::Payment(purchase, _) => purchase.number,
            Settled::Reversal(reversal, _) => reversal.numbers.ksn(),
        }
    }

    /// The answer: its reply, or the refusal for reason 5 or 6.
    pub(crate) fn answer(&self) -> Draft
        ensures answer { (keys : HsmKeys)
            → HasTransactionKey keys (number_in self.now)
            → IsAnswerOf keys self.now (frame_of keys result) }
        ensures under { (keys : HsmKeys)
            → HasTransactionKey keys (number_in self.now)
            → IsDraftUnder keys (number_in self.now) result }
    {
        match self {
            Settled::Payment(purchase, settlement) => {
                let number = purchase.number;
                match settlement {
                    Settlement::Kept(code) => Draft::payment_reply(number, *code),
                    Settlement::KnownAgain(code) => Draft::payment_reply(number, *code),
                    Settlement::Used => Draft::Whole(Reason::Used.refusal(number)),
                    Settlement::Full => Draft::Whole(Reason::LogFull.refusal(number)),
                }
            }
            Settled::Reversal(reversal, settlement) => {
                let numbers = reversal.numbers;
                match settlement {
                    Settlement::Kept(state) => Draft::reversal_reply(numbers, *state),
                    Settlement::KnownAgain(state) => Draft::reversal_reply(numbers, *state),
                    Settlement::Used => Draft::Whole(Reason::Used.refusal(numbers.ksn())),
                    Settlement::Full => Draft::Whole(Reason::LogFull.refusal(numbers.ksn())),
                }
            }
        }
    }
}

impl Purchase {
    /// What is kept of it, with this code.
    pub(crate) fn entry(&self, code: Code) -> Entry
        ensures { result ≡ payment_entry self.now.number self.now.amount code self.now.mac }
    {
        let mac = self.mac;
        Entry {
            number: self.number,
            decided: Decided::Payment {
                amount: self.amount,
                code,
            },
            mac,
        }
    }
}

/// What is kept of a reversal that found this.
pub(crate) fn reversal_entry(reversal: &Reversal, state: ReversalState) -> Entry
    ensures entry { result ≡ reversal_entry reversal.now state }
    ensures numbers { AreNumbers reversal.now.numbers }
{
    let mac = reversal.mac;
    Entry {
        number: reversal.numbers.ksn(),
        decided: Decided::Reversal {
            counter: reversal.numbers.reversed().counter(),
            state,
        },
        mac,
    }
}
