//! The frames of a reversal, made under the transaction key of the number that it uses.

ghost use Rattle.std.specs.Prelude.{◌≡◌, ◌↔◌, IsTrue};
ghost use Rattle.duk_reversal.specs.Authentic.{reversal_of, reversal_reply_under, reversal_under};
ghost use Rattle.duk_reversal.specs.Reply.{reversal_reply_bytes};
ghost use Rattle.duk_reversal.specs.Reversal.{IsReversal};

use crate::laws;
use crate::numbers::ReversalNumbers;
use crate::reply::ReversalReply;
use crate::reversal::Reversal;
use duk_frame::Frame;
use duk_mac::{retail, same_mac};
use duk_tdes::Key;
use duk_tree::request_key;

/// The reversal with these numbers: the MAC is the retail MAC under the transaction key's variant
/// for requests.
pub fn reversal_under(key: &Key<16>, numbers: ReversalNumbers) -> Frame
    ensures frame { result.items ≡ reversal_under key.now numbers }
    ensures reversal { IsReversal result.items (reversal_of key.now numbers) }
{
    let mac = retail(&request_key(key), Reversal::text(numbers).as_slice());
    Reversal { numbers, mac }.bytes()
}

/// Whether a reply to a reversal is the host's: the MAC is the retail MAC of its text under the
/// transaction key's variant for responses.
pub fn is_reversal_reply(response_key: &Key<16>, reply: &ReversalReply) -> bool
    ensures { IsTrue result
        ↔ (reversal_reply_bytes reply.now
        ≡ reversal_reply_under response_key.now reply.now.numbers reply.now.state) }
{
    laws::mac_texts();
    let text = ReversalReply::text(reply.numbers, reply.state);
    same_mac(&retail(response_key, text.as_slice()), &reply.mac)
}
