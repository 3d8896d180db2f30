//! How a host judges a request.

ghost use Rattle.std.specs.Prelude.{◌≡◌, ◌≤◌, ◌<◌, ℕ, List, IfOk, IfErr, OnOk, length};
ghost use Rattle.duk_frame.specs.Frame.{mac_text_of};
ghost use Rattle.duk_frame.specs.Request.{IsRequest};
ghost use Rattle.duk_hsm.specs.Keys.{HsmKeys};
ghost use Rattle.duk_hsm.specs.TransactionKeys.{AreTransactionKeys};
ghost use Rattle.duk_host.specs.Handle.{IsVerdictOn};
ghost use Rattle.duk_host.specs.inner.Judged.{IfFresh, IfSettled, IsReasonAgainstMac, IsReasonAgainstNumber, IsSettled};
ghost use Rattle.duk_host.specs.Judgement.{Decision, IsAcceptable, IsAuthentic, IsOpenedTo, basis_with, authenticated_text};
ghost use Rattle.duk_host.specs.Used.{IsUsed};

use crate::answered::Answered;
use crate::payment::Payment;
use crate::reason::Reason;
use crate::running::Running;
use crate::used::UsedNumbers;
use duk_frame::{Request, mac_text, read_request};
use duk_hsm::{Hsm, HsmFault, Transaction};
use duk_tree::Ksn;

/// What the bytes of a request are judged to be.
#[derive(Drop)]
pub(crate) enum Judgement {
    /// A request against which there is no reason, with its transaction: it is to be accepted.
    Fresh(Payment),
    /// What is refused, or was accepted before, with its answer: nothing is to change.
    Settled(Answered),
}

/// Judges bytes. What is refused is settled with the refusal of the least reason, and what was
/// accepted before with the reply that it was given then.
pub(crate) fn judge<const N: usize>(
    hsm: &Hsm<N>,
    running: &Running,
    room: u64,
    bytes: &[u8],
) -> Judgement
    ensures acceptable { (decides : Decision) → IfFresh result (λ payment. IsAcceptable
        (basis_with hsm.now running.now.used running.now.recent room decides) payment.request) }
    ensures request { IfFresh result (λ payment. IsRequest bytes.now payment.request) }
    ensures opened { IfFresh result
        (λ payment. AreTransactionKeys hsm.now payment.request.ksn payment.transaction) }
    ensures settled { (decides : Decision) → IfSettled result (λ answered. IsSettled
        (basis_with hsm.now running.now.used running.now.recent room decides)
        bytes.now answered.frame.items answered.says) }
    ensures reported { IfSettled result (λ answered. IsVerdictOn answered.frame.items answered.says) }
{
    let Some(request) = read_request(bytes) else {
        return Judgement::Settled(Reason::Malformed.answer(Ksn::from_bytes([0; 10])));
    };
    duk_frame::laws::mac_texts();
    let transaction = match verified(hsm.open(request.ksn), &request, mac_text(bytes)) {
        Ok(transaction) => transaction,
        Err(reason) => return Judgement::Settled(reason.answer(request.ksn)),
    };
    if let Some(repeat) = running.recent.answer_to(request.ksn, bytes) {
        return Judgement::Settled(repeat);
    }
    match check_number(&running.used, room, request.ksn) {
        Ok(()) => Judgement::Fresh(Payment {
            request,
            transaction,
        }),
        Err(reason) => Judgement::Settled(reason.answer(request.ksn)),
    }
}

/// Whether a number can be used by the next request, or why not.
pub(crate) fn check_number(used: &UsedNumbers, room: u64, ksn: Ksn) -> Result<(), Reason>
    ensures fresh { OnOk result (¬ IsUsed used.now ksn) }
    ensures room { OnOk result (0 < room) }
    ensures refused { IfErr result (IsReasonAgainstNumber used.now room ksn) }
{
    if used.contains(ksn) {
        Err(Reason::Used)
    } else if room == 0 {
        Err(Reason::LogFull)
    } else {
        Ok(())
    }
}

/// The transaction that the number of a request with this text was opened to, or the least reason
/// against its MAC.
pub(crate) fn verified(
    opened: Result<Transaction, HsmFault>,
    request: &Request,
    text: &[u8],
) -> Result<Transaction, Reason>
    requires text { text.now ≡ authenticated_text request.now }
    ensures opened { IfOk result (λ transaction. (keys : HsmKeys)
        → IsOpenedTo keys request.now.ksn opened
        → AreTransactionKeys keys request.now.ksn transaction) }
    ensures authentic { IfOk result (λ _. (keys : HsmKeys)
        → IsOpenedTo keys request.now.ksn opened → IsAuthentic keys request.now) }
    ensures refused { IfErr result (λ reason. (keys : HsmKeys)
        → IsOpenedTo keys request.now.ksn opened → IsReasonAgainstMac keys request.now reason) }
{
    let transaction = match opened {
        Ok(transaction) => transaction,
        Err(HsmFault::NoKeySet) => return Err(Reason::UnknownKeySet),
        // The only other fault of an opening is that of the counter.
        Err(_) => return Err(Reason::BadCounter),
    };
    match transaction.verify(text, request.mac) {
        Ok(()) => Ok(transaction),
        Err(_) => Err(Reason::BadMac),
    }
}
