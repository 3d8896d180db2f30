//! The reply to a request that is accepted.

ghost use Rattle.std.specs.Prelude.{◌≡◌, IsSome};
ghost use Rattle.duk_hsm.specs.Keys.{HsmKeys};
ghost use Rattle.duk_hsm.specs.TransactionKeys.{AreTransactionKeys};
ghost use Rattle.duk_host.specs.Judgement.{IsCodeOf, IsReplyWith};
ghost use Rattle.duk_host.specs.Recent.{IsReplyWithCode};

use crate::issuer::Issuer;
use crate::payment::Payment;
use duk_frame::{Code, Frame, reply_text};
use duk_hsm::Transaction;
use duk_tree::Ksn;

/// The code for a request: what the issuer says of its PIN block under the zone key. Where the
/// block is that of no PIN, the issuer is not asked.
pub fn code_for<I: Issuer>(payment: &Payment, issuer: &I) -> Code
    requires opened { (keys : HsmKeys)
        × AreTransactionKeys keys payment.now.request.ksn payment.now.transaction }
    requires zone { IsSome payment.now.transaction.zone }
    ensures { (keys : HsmKeys)
        → AreTransactionKeys keys payment.now.request.ksn payment.now.transaction
        → IsCodeOf keys (I.decides issuer.now) payment.now.request result }
{
    let request = &payment.request;
    match payment.transaction.translate(request.block, &request.pan) {
        Ok(block) => issuer.decide(&request.pan, request.amount, block),
        // Where a zone key is held, the only fault of this call is that of the PIN block.
        Err(_) => Code::Unreadable,
    }
}

/// The accepted reply with this code.
pub fn reply_with(transaction: &Transaction, ksn: Ksn, code: Code) -> Frame
    ensures reply { (keys : HsmKeys) → AreTransactionKeys keys ksn transaction.now
        → IsReplyWith keys ksn code result.items }
    ensures code { IsReplyWithCode result.items ksn code }
{
    let text = reply_text(ksn, code);
    let mac = transaction.reply_mac(text.bytes());
    text.with_mac(mac)
}
