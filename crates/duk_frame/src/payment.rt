//! The frames of a payment, made under its transaction key.

ghost use Rattle.std.specs.Prelude.{◌≡◌, ◌↔◌, ℕ, List, IsTrue};
ghost use Rattle.duk_frame.specs.Answer.{IsReply, reply_text};
ghost use Rattle.duk_frame.specs.Payment.{authenticated, payment_request, request_of};
ghost use Rattle.duk_frame.specs.Request.{IsRequest};
ghost use Rattle.duk_frame.specs.declared.code.Code.{Code as CodeValue};
ghost use Rattle.duk_pin.specs.PinBlock.{IsPinBlock, pin_block};
ghost use Rattle.duk_tree.specs.Serial.{Serial};

use crate::frame::{Frame, mac_text};
use crate::laws;
use crate::request::request_text;
use duk_mac::{retail, same_mac};
use duk_pin::{Pan, Pin, encode};
use duk_tdes::{Key, tdes_encrypt};
use duk_tree::{Ksn, pin_key, request_key};

/// The request of a payment: the PIN block is enciphered under the transaction key's variant for
/// PINs, and the MAC is the retail MAC under its variant for requests.
pub fn payment_request(key: &Key<16>, ksn: Ksn, pan: &Pan, pin: &Pin, amount: u32) -> Frame
    ensures frame { result.items ≡ payment_request key.now ksn pan.now pin.now amount }
    ensures request { IsRequest result.items (request_of key.now ksn pan.now pin.now amount) }
    ensures pin { IsPinBlock pin.now pan.now (pin_block pin.now pan.now) }
{
    let block = tdes_encrypt(&pin_key(key), encode(pin, pan));
    let text = request_text(ksn, pan, amount, block);
    let mac = retail(&request_key(key), text.bytes());
    text.with_mac(mac)
}

/// Whether an accepted reply with this MAC is the host's: the MAC is the retail MAC of its text
/// under the transaction key's variant for responses.
pub fn is_payment_reply(response_key: &Key<16>, reply: &[u8], mac: [u8; 8]) -> bool
    requires { (ksn : Serial) × (code : CodeValue) × IsReply reply.now ksn code mac }
    ensures { (ksn : Serial) (code : CodeValue) → IsReply reply.now ksn code mac
        → IsTrue result ↔ (reply.now ≡ authenticated response_key.now (reply_text ksn code)) }
{
    laws::mac_texts();
    same_mac(&retail(response_key, mac_text(reply)), &mac)
}
