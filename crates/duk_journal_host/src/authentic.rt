//! Frames that are authentic, whatever is kept.

ghost use Rattle.std.specs.Prelude.{◌≡◌, IfErr, IfOk, OnOk};
ghost use Rattle.duk_host.specs.Judgement.{IsOpenedTo};
ghost use Rattle.duk_hsm.specs.Keys.{HsmKeys};
ghost use Rattle.duk_journal_host.specs.Judgement.{IsAuthenticReversal};
ghost use Rattle.duk_journal_host.specs.Steps.{IsDismissed, purchase_of};
ghost use Rattle.duk_journal_host.specs.inner.Judged.{IsAgainstMac, OpensFrame};
ghost use Rattle.duk_journal_host.specs.inner.Steps.{IsAuthenticated, IsOpenedUnder};

use duk_frame::{Frame, Request};
use duk_host::{Payment, Reason, authenticate_opened};
use duk_hsm::{HsmFault, Transaction};
use duk_reversal::{Reversal, read_reversal};
use duk_tree::Ksn;

/// What a request asks for: all that is kept of it but its code. It has no PAN and no PIN block.
#[derive(Clone, Copy)]
pub struct Purchase {
    /// The number that it uses.
    pub number: Ksn,
    /// The amount, in the smallest unit of the currency.
    pub amount: u32,
    /// The MAC of the request, by which the same request is known again.
    pub mac: [u8; 8],
}

impl Purchase {
    /// What a request asks for.
    pub(crate) fn of(request: &Request) -> Self
        ensures { result ≡ purchase_of request.now }
    {
        let mac = request.mac;
        Purchase {
            number: request.ksn,
            amount: request.amount,
            mac,
        }
    }
}

/// An authentic frame. Whether it is accepted depends on what is kept.
#[derive(Drop)]
pub(crate) enum Authentic {
    /// A request, with its transaction.
    Payment(Payment),
    /// A reversal.
    Reversal(Reversal),
}

/// Authenticates a frame, whose number was opened to this: as a reversal where it is one, and else as
/// a request. Or it gives the frame of the refusal, whose reason is one of 1 to 4.
pub(crate) fn authenticate(
    opened: Result<Transaction, HsmFault>,
    frame: &[u8],
) -> Result<Authentic, Frame>
    requires opened { (keys : HsmKeys) × OpensFrame keys frame.now opened }
    ensures authentic { IfOk result (λ authentic. (keys : HsmKeys)
        → OpensFrame keys frame.now opened → IsAuthenticated keys frame.now authentic) }
    ensures opened { IfOk result (λ authentic. (keys : HsmKeys)
        → OpensFrame keys frame.now opened → IsOpenedUnder keys authentic) }
    ensures dismissed { IfErr result (λ refusal. (keys : HsmKeys)
        → OpensFrame keys frame.now opened → IsDismissed keys frame.now refusal.items) }
{
    match read_reversal(frame) {
        Some(reversal) => match verified(opened, &reversal) {
            Ok(()) => Ok(Authentic::Reversal(reversal)),
            Err(reason) => Err(reason.refusal(reversal.numbers.ksn())),
        },
        None => match authenticate_opened(opened, frame) {
            Ok(payment) => Ok(Authentic::Payment(payment)),
            Err(refusal) => Err(refusal),
        },
    }
}

/// Whether the MAC of a reversal is verified, whose number was opened to this, or the least reason
/// against it.
fn verified(opened: Result<Transaction, HsmFault>, reversal: &Reversal) -> Result<(), Reason>
    ensures authentic { OnOk result ((keys : HsmKeys)
        → IsOpenedTo keys reversal.now.numbers.ksn opened
        → IsAuthenticReversal keys reversal.now) }
    ensures refused { IfErr result (λ reason. (keys : HsmKeys)
        → IsOpenedTo keys reversal.now.numbers.ksn opened
        → IsAgainstMac keys reversal.now reason) }
{
    let transaction = match opened {
        Ok(transaction) => transaction,
        Err(HsmFault::NoKeySet) => return Err(Reason::UnknownKeySet),
        // The only other fault of an opening is that of the counter.
        Err(_) => return Err(Reason::BadCounter),
    };
    let text = Reversal::text(reversal.numbers);
    match transaction.verify(text.as_slice(), reversal.mac) {
        Ok(()) => Ok(()),
        Err(_) => Err(Reason::BadMac),
    }
}
