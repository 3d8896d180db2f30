//! The requests of many transactions checked at once, a group of them in lanes.
//!
//! No branch and no address depends on a key or on what is made of one.

ghost use Rattle.std.specs.Prelude.{◌≡◌, ◌≢◌, ◌⊎◌, ◌<◌, ◌≤◌, ◌/◌, ◌%◌, List, ℕ, length, slice_index_or};
ghost use Rattle.duk_frame.specs.Frame.{mac_text_of};
ghost use Rattle.duk_frame.specs.Request.{IsRequest};
ghost use Rattle.duk_frame.specs.declared.request.Request.{Request};
ghost use Rattle.duk_group.specs.Numbers.{bytes_at};
ghost use Rattle.duk_tree.specs.Derivation.{derived_key_of};
ghost use Rattle.duk_calls.specs.Answer.{Reports, part_at};
ghost use Rattle.duk_calls.specs.Requests.{CheckRequestsAnswers, IsVerdict, front_frame, request_mac};

use crate::arguments::double_key;
use crate::fault::Fault;
use byteorder::{BigEndian, ByteOrder};
use duk_frame::{mac_text, read_request};
use duk_group::{WIDTH, derived_keys, retail_macs, spread_key};
use duk_lanes::scatter_wide;
use duk_mac::same_mac;
use duk_tdes::Key;
use duk_tree::{Ksn, usable};

/// Writes what is told of frames, each at the begin of 64 bytes, in the front of a slice of at least
/// a byte for each of them: 0 for a request with its MAC under the transaction key of its own key
/// serial number, which is derived of the base derivation key (16 bytes), and else the number of its
/// first fault: `NotARequest`; `NotUsable`; `BadMac`. Bytes behind a frame are not looked at.
///
/// Refused with `Length`.
pub fn check_requests(bdk: &[u8], frames: &[u8], results: &mut [u8]) -> Result<(), Fault>
    ensures { CheckRequestsAnswers bdk.now frames.now results.old results.new result }
{
    let count = frames.len() / 64;
    if bdk.len() != 16 || frames.len() % 64 != 0 || results.len() < count {
        return Err(Fault::Length);
    }
    let bdk = double_key(bdk);
    let mut done = 0;
    while done < count {
        let end = done + (count - done).min(WIDTH);
        check_group(&bdk, &frames[64 * done..64 * end], &mut results[done..end]);
        done = end;
    }
    Ok(())
}

/// Writes what is told of at most as many frames as there are lanes.
fn check_group(bdk: &Key<16>, frames: &[u8], results: &mut [u8])
    requires whole { length frames.now % 64 ≡ 0 }
    requires few { length frames.now / 64 ≤ WIDTH }
    requires room { length results.old ≡ length frames.now / 64 }
    ensures { (i : ℕ) → i < length frames.now / 64 → Reports (slice_index_or results.new i 0)
        (IsVerdict bdk.now (front_frame (part_at 64 frames.now i))) }
{
    let macs = right_macs(bdk, frames);
    for i in 0..frames.len() / 64 {
        results[i] = verdict(&frames[64 * i..64 * i + 64], macs[i]);
    }
}

/// The MACs that requests have to have, each under the transaction key of its own number.
fn right_macs(bdk: &Key<16>, frames: &[u8]) -> [[u8; 8]; WIDTH]
    requires whole { length frames.now % 64 ≡ 0 }
    requires few { length frames.now / 64 ≤ WIDTH }
    ensures { (i : ℕ) → i < length frames.now / 64 → (request : Request)
        → IsRequest (front_frame (part_at 64 frames.now i)) request → bytes_at result i
        ≡ request_mac (derived_key_of bdk.now request.ksn)
        (front_frame (part_at 64 frames.now i)) }
{
    let count = frames.len() / 64;
    let mut numbers = [Ksn::from_bytes([0; 10]); WIDTH];
    let mut texts = [&frames[..0]; WIDTH];
    for i in 0..count {
        let (number, text) = number_and_text(&frames[64 * i..64 * i + 64]);
        numbers[i] = number;
        texts[i] = text;
    }
    let keys = derived_keys(&spread_key(bdk), &numbers[..count]).request_keys();
    scatter_wide(&retail_macs(&keys, &texts[..count]))
}

/// The frame with which bytes begin.
pub(crate) fn front_frame(bytes: &[u8]) -> &[u8]
    requires { 2 ≤ length bytes.now }
    ensures { result.now ≡ front_frame bytes.now }
{
    let end = 2 + usize::from(BigEndian::read_u16(bytes));
    &bytes[..end.min(bytes.len())]
}

/// The key serial number of the request with whose frame bytes begin, and the text of its MAC:
/// zeros and no text where they begin with none.
fn number_and_text(bytes: &[u8]) -> (Ksn, &[u8])
    requires { 2 ≤ length bytes.now }
    ensures number { (request : Request) → IsRequest (front_frame bytes.now) request
        → result.0 ≡ request.ksn }
    ensures text { (request : Request) → IsRequest (front_frame bytes.now) request
        → result.1.now ≡ mac_text_of (front_frame bytes.now) }
{
    duk_frame::laws::mac_texts();
    let frame = front_frame(bytes);
    match read_request(frame) {
        Some(request) => (request.ksn, mac_text(frame)),
        None => (Ksn::from_bytes([0; 10]), &frame[..0]),
    }
}

/// What is told of the frame with which bytes begin, where this is the MAC that it has to have.
fn verdict(bytes: &[u8], mac: [u8; 8]) -> u8
    requires { 2 ≤ length bytes.now }
    ensures { (bdk : List ℕ)
        → ((request : Request) → IsRequest (front_frame bytes.now) request
        → mac ≡ request_mac (derived_key_of bdk request.ksn) (front_frame bytes.now))
        → Reports result (IsVerdict bdk (front_frame bytes.now)) }
{
    let Some(request) = read_request(front_frame(bytes)) else {
        return Fault::NotARequest.number() as u8;
    };
    if usable(request.ksn.counter()) {
        told_of_mac(request.mac, mac)
    } else {
        Fault::NotUsable.number() as u8
    }
}

/// Zero where a MAC is that which it has to be, and else the number of the fault, without a branch.
fn told_of_mac(mac: [u8; 8], right: [u8; 8]) -> u8
    ensures { ((mac ≡ right) × (result ≡ 0)) ⊎ ((mac ≢ right) × (result ≡ 27)) }
{
    u8::from(!same_mac(&mac, &right)) * Fault::BadMac.number() as u8
}
