//! Laws of frames, each the contract of a function that does nothing.

ghost use Rattle.std.specs.Prelude.{◌≡◌, ◌<◌, ◌≤◌, ◌^◌, ◌++◌, List, ℕ, length};
ghost use Rattle.duk_frame.specs.Answer.{IsAnswer, IsReply, reply_text};
ghost use Rattle.duk_frame.specs.Frame.{mac_text_of};
ghost use Rattle.duk_frame.specs.Payment.{payment_reply, payment_request, reply_mac, request_of};
ghost use Rattle.duk_frame.specs.Request.{IsRequest, request_text};
ghost use Rattle.duk_frame.specs.Stream.{BeginsWith, IsFrame, IsPart, Splits};
ghost use Rattle.duk_pin.specs.Pan.{IsPan};
ghost use Rattle.duk_tree.specs.Serial.{IsSerial, Serial};

use crate::answer::AnswerFrame;
use crate::code::Code;
use crate::request::Request;

/// Bytes are the frame of at most one request, or of at most one answer, and never of both.
pub fn one_reading()
    ensures request { (bytes : List ℕ) (request other : Request) → IsRequest bytes request
        → IsRequest bytes other → request ≡ other }
    ensures answer { (bytes : List ℕ) (answer other : AnswerFrame) → IsAnswer bytes answer
        → IsAnswer bytes other → answer ≡ other }
    ensures apart { (bytes : List ℕ) (request : Request) (answer : AnswerFrame)
        → IsRequest bytes request
        → ¬ IsAnswer bytes answer }
{
    duk_tree::laws::serials();
}

/// The request and the accepted reply of a payment are read as what they were made of.
pub fn payments()
    ensures request { (key : List ℕ) (ksn : Serial) (pan pin : List ℕ) (amount : ℕ)
        → IsSerial ksn → IsPan pan → amount < 2 ^ 32
        → IsRequest (payment_request key ksn pan pin amount) (request_of key ksn pan pin amount) }
    ensures reply { (key : List ℕ) (ksn : Serial) (code : Code) → IsSerial ksn
        → IsReply (payment_reply key ksn code) ksn code (reply_mac key ksn code) }
{
    duk_tdes::laws::blocks();
    duk_mac::laws::retail_is_a_block();
}

/// A request and an accepted reply are long enough for `mac_text`, which is the contents before the
/// MAC.
pub fn mac_texts()
    ensures request { (bytes : List ℕ) (request : Request) → IsRequest bytes request
        → (10 ≤ length bytes)
        × (mac_text_of bytes ≡ request_text request.ksn request.pan request.amount request.block) }
    ensures reply { (bytes : List ℕ) (ksn : Serial) (code : Code) (mac : List ℕ)
        → IsReply bytes ksn code mac
        → (10 ≤ length bytes) × (mac_text_of bytes ≡ reply_text ksn code) }
{}

/// The bytes of a stream are split into frames and a rest, and in one way alone; the frames that
/// they begin with are the first of these; and no bytes at the front of a part of a frame are one.
pub fn streams()
    ensures split { (bytes : List ℕ) → (frames : List (List ℕ)) × (rest : List ℕ)
        × Splits bytes frames rest }
    ensures one_way { (bytes : List ℕ) (frames : List (List ℕ)) (rest : List ℕ)
        → (others : List (List ℕ)) (last : List ℕ)
        → Splits bytes frames rest → Splits bytes others last
        → (frames ≡ others) × (rest ≡ last) }
    ensures first { (bytes : List ℕ) (frames : List (List ℕ)) (rest : List ℕ)
        → (all : List (List ℕ)) (last : List ℕ)
        → BeginsWith bytes frames rest → Splits bytes all last
        → (others : List (List ℕ)) × (all ≡ frames ++ others) × Splits rest others last }
    ensures not_yet { (frame more : List ℕ) → IsPart (frame ++ more) → ¬ IsFrame frame }
{}
