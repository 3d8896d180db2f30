//! The steps of a judgement, for a host that keeps what it accepted in another way than `Host`.

ghost use Rattle.std.specs.Prelude.{ℕ, [], IfOk, IfErr};
ghost use Rattle.duk_frame.specs.Request.{IsRequest};
ghost use Rattle.duk_frame.specs.declared.request.Request.{Request};
ghost use Rattle.duk_hsm.specs.Keys.{HsmKeys};
ghost use Rattle.duk_hsm.specs.TransactionKeys.{AreTransactionKeys};
ghost use Rattle.duk_store.specs.Log.{Numbers};
ghost use Rattle.duk_host.specs.Judgement.{Decision, IsAuthentic, IsRefusalFor, OpensRequest, basis_with};

use crate::judge::verified;
use crate::payment::Payment;
use crate::reason::Reason;
use duk_frame::{Frame, mac_text, read_request};
use duk_hsm::{HsmFault, Transaction};
use duk_tree::Ksn;

/// Reads a request whose number was opened to this and verifies its MAC, or gives the frame of its
/// refusal, whose reason is one of 1 to 4. What was opened is not looked at where the bytes are no
/// request.
pub fn authenticate_opened(
    opened: Result<Transaction, HsmFault>,
    bytes: &[u8],
) -> Result<Payment, Frame>
    ensures request { IfOk result (λ payment. IsRequest bytes.now payment.request) }
    ensures authentic { IfOk result (λ payment. (keys : HsmKeys)
        → OpensRequest keys bytes.now opened → IsAuthentic keys payment.request) }
    ensures opened { IfOk result (λ payment. (keys : HsmKeys)
        → OpensRequest keys bytes.now opened
        → AreTransactionKeys keys payment.request.ksn payment.transaction) }
    ensures refused { IfErr result (λ frame. (keys : HsmKeys) (numbers : Numbers) (room : ℕ)
        → (decides : Decision) → OpensRequest keys bytes.now opened
        → IsRefusalFor (basis_with keys numbers [] room decides) bytes.now frame.items) }
    ensures not_authentic { IfErr result (λ _. (keys : HsmKeys) (request : Request)
        → OpensRequest keys bytes.now opened → IsRequest bytes.now request
        → ¬ IsAuthentic keys request) }
{
    let Some(request) = read_request(bytes) else {
        return Err(Reason::Malformed.answer(Ksn::from_bytes([0; 10])).frame);
    };
    duk_frame::laws::mac_texts();
    duk_frame::laws::one_reading();
    match verified(opened, &request, mac_text(bytes)) {
        Ok(transaction) => Ok(Payment {
            request,
            transaction,
        }),
        Err(reason) => Err(reason.answer(request.ksn).frame),
    }
}
