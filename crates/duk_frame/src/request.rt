//! Requests, which a terminal sends to the host.

ghost use Rattle.std.specs.Prelude.{◌≡◌, ◌≤◌, ◌∷◌, ◌++◌, IfSome, Some, List, ℕ, drop, length};
ghost use Rattle.duk_des.specs.Block.{IsBlock};
ghost use Rattle.duk_frame.specs.Frame.{framed, mac_text_of};
ghost use Rattle.duk_pin.specs.Pan.{IsPan};
ghost use Rattle.duk_frame.specs.Request.{AreRequestFields, IsRequest, request_bytes, request_text};

use crate::frame::{Frame, append, begin_frame, has_kind};
use crate::text::MacText;
use byteorder::{BigEndian, ByteOrder};
use duk_pin::Pan;
use duk_tdes::array_of;
use duk_tree::Ksn;
use std::str;

/// The kind of a request, in the second byte of its contents.
const KIND: u8 = 1;

/// The bytes of a contents without the digits of its PAN.
const CONTENTS: usize = 33;

/// Where the PAN's digits begin in a frame, after their number.
const DIGITS: usize = 15;

/// The fields of a request.
#[derive(Clone, Copy)]
pub struct Request {
    /// The key serial number whose transaction key the payment has.
    pub ksn: Ksn,
    /// The card.
    pub pan: Pan,
    /// The amount, in the smallest unit of the currency.
    pub amount: u32,
    /// The PIN block, enciphered.
    pub block: [u8; 8],
    /// The MAC.
    pub mac: [u8; 8],
}

/// The text of a request's MAC: version 1, kind 1, the key serial number in 10 bytes, the PAN as a
/// length and ASCII digits, the amount in 4 bytes, and the enciphered PIN block.
pub fn request_text(ksn: Ksn, pan: &Pan, amount: u32, block: [u8; 8]) -> MacText
    ensures text { result ≡ request_text ksn pan.now amount block }
    ensures request { (mac : List ℕ) → IsBlock mac
        → IsRequest (framed (request_text ksn pan.now amount block ++ mac))
        (record { ksn = ksn; pan = pan.now; amount = amount; block = block; mac = mac }) }
{
    let digits = pan.digits().as_bytes();
    let mut amount_bytes = [0; 4];
    BigEndian::write_u32(&mut amount_bytes, amount);
    let mut frame = begin_frame((CONTENTS + digits.len()) as u16, KIND);
    append(&mut frame, &ksn.bytes());
    append(&mut frame, &[digits.len() as u8]);
    append(&mut frame, digits);
    append(&mut frame, &amount_bytes);
    append(&mut frame, &array_of::<8>(&block));
    MacText::new(frame)
}

/// The frame of a request: its text, and the MAC.
pub fn write_request(ksn: Ksn, pan: &Pan, amount: u32, block: [u8; 8], mac: [u8; 8]) -> Frame
    ensures request { IsRequest result.items
        (record { ksn = ksn; pan = pan.now; amount = amount; block = block; mac = mac }) }
    ensures mac_text { mac_text_of result.items ≡ request_text ksn pan.now amount block }
    ensures least { 10 ≤ length result.items }
{
    request_text(ksn, pan, amount, block).with_mac(mac)
}

/// The fields of a request's frame, or `None` where the bytes are no such frame.
pub fn read_request(bytes: &[u8]) -> Option<Request>
    ensures found { IfSome result (IsRequest bytes.now) }
    ensures every { (request : Request) → IsRequest bytes.now request → result ≡ Some request }
{
    duk_tree::laws::serials();
    if has_kind(bytes, KIND) {
        fields_at_their_places(bytes)
    } else {
        None
    }
}

/// What stands where a request of this length has its fields.
fn fields_at_their_places(bytes: &[u8]) -> Option<Request>
    ensures fields { IfSome result AreRequestFields }
    ensures text { IfSome result (λ request. 1 ∷ 1 ∷ drop 4 bytes.now
        ≡ request_text request.ksn request.pan request.amount request.block ++ request.mac) }
    ensures every { (request : Request) → IsRequest bytes.now request → result ≡ Some request }
{
    duk_tree::laws::serials();
    if bytes.len() < 2 + CONTENTS {
        return None;
    }
    let digits = usize::from(bytes[DIGITS - 1]);
    if bytes.len() != 2 + CONTENTS + digits {
        return None;
    }
    let (pan, rest) = bytes[DIGITS..].split_at(digits);
    Some(Request {
        ksn: Ksn::from_bytes(array_of(&bytes[4..14])),
        pan: read_pan(pan)?,
        amount: BigEndian::read_u32(rest),
        block: array_of(&rest[4..12]),
        mac: array_of(&rest[12..]),
    })
}

/// The PAN of ASCII digits.
fn read_pan(digits: &[u8]) -> Option<Pan>
    ensures found { IfSome result (λ pan. pan ≡ digits.now) }
    ensures every { IsPan digits.now → result ≡ Some digits.now }
{
    duk_pin::laws::digits_are_text();
    Pan::parse(str::from_utf8(digits).ok()?).ok()
}
