//! Laws of a reversal's frames, each the contract of a function that does nothing.

ghost use Rattle.std.specs.Prelude.{◌≡◌, ◌≤◌, ◌⊎◌, ℕ, List, length};
ghost use Rattle.duk_frame.specs.Answer.{IsAnswer};
ghost use Rattle.duk_frame.specs.Frame.{mac_text_of};
ghost use Rattle.duk_frame.specs.Request.{IsRequest};
ghost use Rattle.duk_frame.specs.declared.answer.AnswerFrame.{AnswerFrame};
ghost use Rattle.duk_frame.specs.declared.request.Request.{Request};
ghost use Rattle.duk_reversal.specs.Authentic.{reversal_of, reversal_reply_of, reversal_reply_under, reversal_under};
ghost use Rattle.duk_reversal.specs.Numbers.{AreNumbers, Numbers};
ghost use Rattle.duk_reversal.specs.Reply.{IsReversalReply, reversal_reply_text};
ghost use Rattle.duk_reversal.specs.Reversal.{IsReversal, reversal_text};

use crate::reply::ReversalReply;
use crate::reversal::Reversal;
use crate::state::ReversalState;

/// Bytes are the frame of at most one reversal, or of at most one reply to one, and never of both.
pub fn one_reading()
    ensures reversal { (bytes : List ℕ) (one other : Reversal) → IsReversal bytes one
        → IsReversal bytes other → one ≡ other }
    ensures reply { (bytes : List ℕ) (one other : ReversalReply) → IsReversalReply bytes one
        → IsReversalReply bytes other → one ≡ other }
    ensures apart { (bytes : List ℕ) (reversal : Reversal) (reply : ReversalReply)
        → IsReversal bytes reversal
        → ¬ IsReversalReply bytes reply }
{
    duk_tree::laws::serials();
}

/// No frame of a reversal is one of a payment, so whoever knows payments alone finds it malformed.
pub fn apart_from_payments()
    ensures requests { (bytes : List ℕ) (request : Request) → IsRequest bytes request
        → ((reversal : Reversal) → ¬ IsReversal bytes reversal)
        × ((reply : ReversalReply) → ¬ IsReversalReply bytes reply) }
    ensures answers { (bytes : List ℕ) (answer : AnswerFrame) → IsAnswer bytes answer
        → ((reversal : Reversal) → ¬ IsReversal bytes reversal)
        × ((reply : ReversalReply) → ¬ IsReversalReply bytes reply) }
{}

/// The reversal and the reply that are made under a key are read as what they were made of.
pub fn authentic()
    ensures reversal { (key : List ℕ) (numbers : Numbers) → AreNumbers numbers
        → IsReversal (reversal_under key numbers) (reversal_of key numbers) }
    ensures reply { (response_key : List ℕ) (numbers : Numbers) (state : ReversalState)
        → AreNumbers numbers
        → IsReversalReply (reversal_reply_under response_key numbers state)
        (reversal_reply_of response_key numbers state) }
{
    duk_mac::laws::retail_is_a_block();
}

/// A reversal and its reply are long enough for the `mac_text` of `duk_frame`, which is the contents
/// before the MAC.
pub fn mac_texts()
    ensures reversal { (bytes : List ℕ) (reversal : Reversal) → IsReversal bytes reversal
        → (10 ≤ length bytes) × (mac_text_of bytes ≡ reversal_text reversal.numbers) }
    ensures reply { (bytes : List ℕ) (reply : ReversalReply) → IsReversalReply bytes reply
        → (10 ≤ length bytes)
        × (mac_text_of bytes ≡ reversal_reply_text reply.numbers reply.state) }
{}
