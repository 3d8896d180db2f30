//! What the host sends back, and whether it is told of what was sent to it.

ghost use Rattle.std.specs.Prelude.{◌≡◌, IfSome, MatchBool, Some};
ghost use Rattle.duk_commands.specs.Frames.{Answers, HasItsMac, IsTold, IsToldOf, Undoes};
ghost use Rattle.duk_tree.specs.Serial.{serial_bytes};

use crate::asked::Asked;
use duk_frame::{AnswerFrame, is_payment_reply, read_answer};
use duk_reversal::{ReversalNumbers, ReversalReply, is_reversal_reply, read_reversal_reply};
use duk_tdes::Key;
use duk_tree::response_key;

/// A frame of the host.
#[derive(Clone, Copy)]
pub(crate) enum Told {
    /// A reply to a payment, or a refusal of what was sent.
    Answer(AnswerFrame),
    /// A reply to a reversal.
    Undoing(ReversalReply),
}

/// The fields of a frame of the host, or `None` where the bytes are no such frame.
pub(crate) fn read_told(bytes: &[u8]) -> Option<Told>
    ensures found { IfSome result (IsTold bytes.now) }
    ensures every { (told : Told) → IsTold bytes.now told → result ≡ Some told }
{
    duk_reversal::laws::apart_from_payments();
    if let Some(answer) = read_answer(bytes) {
        return Some(Told::Answer(answer));
    }
    match read_reversal_reply(bytes) {
        Some(reply) => Some(Told::Undoing(reply)),
        None => None,
    }
}

/// Whether this is told of what was asked.
pub(crate) fn is_told_of(asked: &Asked, told: &Told) -> bool
    ensures { MatchBool result (IsToldOf asked.now told.now) (¬ IsToldOf asked.now told.now) }
{
    match told {
        Told::Answer(answer) => answers(answer, asked),
        Told::Undoing(reply) => undoes(reply, asked),
    }
}

/// Whether an answer is that of a terminal's frame; a refusal may name no number.
fn answers(answer: &AnswerFrame, asked: &Asked) -> bool
    ensures { MatchBool result (Answers answer.now asked.now) (¬ Answers answer.now asked.now) }
{
    match answer {
        AnswerFrame::Reply { ksn, .. } => match asked {
            Asked::Payment(request) => ksn.bytes() == request.ksn.bytes(),
            Asked::Reversal(_) => false,
        },
        AnswerFrame::Refusal { ksn, .. } => {
            ksn.bytes() == asked.ksn().bytes() || ksn.bytes() == [0; 10]
        }
    }
}

/// Whether a reversal's reply is that of a terminal's frame.
fn undoes(reply: &ReversalReply, asked: &Asked) -> bool
    ensures { MatchBool result (Undoes reply.now asked.now) (¬ Undoes reply.now asked.now) }
{
    match asked {
        Asked::Payment(_) => false,
        Asked::Reversal(reversal) => are_same(reply.numbers, reversal.numbers),
    }
}

/// Whether both numbers of one reversal are those of another.
fn are_same(one: ReversalNumbers, other: ReversalNumbers) -> bool
    ensures { MatchBool result
        ((serial_bytes one.ksn ≡ serial_bytes other.ksn)
        × (serial_bytes one.reversed ≡ serial_bytes other.reversed))
        (¬ ((serial_bytes one.ksn ≡ serial_bytes other.ksn)
        × (serial_bytes one.reversed ≡ serial_bytes other.reversed))) }
{
    one.ksn().bytes() == other.ksn().bytes() && one.reversed().bytes() == other.reversed().bytes()
}

/// Whether a reply has its MAC under the transaction key; a refusal has none.
pub(crate) fn has_its_mac(key: &Key<16>, bytes: &[u8], told: &Told) -> bool
    requires { IsTold bytes.now told.now }
    ensures { MatchBool result (HasItsMac key.now bytes.now told.now)
        (¬ HasItsMac key.now bytes.now told.now) }
{
    match told {
        Told::Answer(AnswerFrame::Reply { mac, .. }) => {
            is_payment_reply(&response_key(key), bytes, *mac)
        }
        Told::Answer(AnswerFrame::Refusal { .. }) => true,
        Told::Undoing(reply) => is_reversal_reply(&response_key(key), reply),
    }
}
