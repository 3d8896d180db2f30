//! The frames of accepted replies and refusals.

ghost use Rattle.std.specs.Prelude.{◌≡◌, MatchOption, length};
ghost use Rattle.duk_frame.specs.Answer.{IsRefusal, IsReply};
ghost use Rattle.duk_frame.specs.Code.{code_text};
ghost use Rattle.duk_frame.specs.Payment.{payment_reply};
ghost use Rattle.duk_calls.specs.Answer.{buffer};
ghost use Rattle.duk_calls.specs.Replies.{CheckReplyAnswers, IsNoCode, IsNoRefusal, IsNoReply, ReadRefusalAnswers, ReadReplyAnswers, RequestRefusalAnswers, RequestReplyAnswers, refusal_parts, reply_parts};

use crate::arguments::{double_key, serial_number, write_front};
use crate::fault::Fault;
use crate::frames::{FRAME_ROOM, fill_frame};
use duk_frame::{
    AnswerFrame, Code, Frame, is_payment_reply, read_answer, reply_text, write_refusal,
};
use duk_mac::retail;
use duk_tdes::{Key, array_of};
use duk_tree::{Ksn, response_key};

/// The fields of an accepted reply.
#[derive(Clone, Copy)]
struct ReplyFields {
    ksn: Ksn,
    code: Code,
    mac: [u8; 8],
}

/// The fields of a refusal.
#[derive(Clone, Copy)]
struct RefusalFields {
    ksn: Ksn,
    reason: u8,
}

/// Writes the accepted reply to a request in the front of a slice of at least 64 bytes, and the
/// number of its bytes. `key` is the transaction key (16 bytes) of the request's key serial number
/// (10 bytes); the code is two digits.
///
/// Refused with, in this order: `Length`; `NotACode`.
pub fn request_reply(
    key: &[u8],
    ksn: &[u8],
    code: &[u8],
    frame: &mut [u8],
    frame_length: &mut u32,
) -> Result<(), Fault>
    ensures { RequestReplyAnswers key.now ksn.now code.now
        (buffer frame.old frame_length.old) (buffer frame.new frame_length.new) result }
{
    if [key.len(), ksn.len(), code.len()] != [16, 10, 2] || frame.len() < FRAME_ROOM {
        return Err(Fault::Length);
    }
    let Some(code) = read_code(array_of(code)) else {
        return Err(Fault::NotACode);
    };
    let key = double_key(key);
    let reply = payment_reply(&key, serial_number(ksn), code);
    fill_frame(&reply, frame, frame_length);
    Ok(())
}

/// Writes the refusal of a request in the front of a slice of at least 64 bytes, and the number of
/// its bytes. `ksn` is the request's key serial number (10 bytes), and zeros where the bytes were
/// no request; the reason is from 1 to 6.
///
/// Refused with, in this order: `Length`; `NotAReason`.
pub fn request_refusal(
    ksn: &[u8],
    reason: u32,
    frame: &mut [u8],
    frame_length: &mut u32,
) -> Result<(), Fault>
    ensures { RequestRefusalAnswers ksn.now reason
        (buffer frame.old frame_length.old) (buffer frame.new frame_length.new) result }
{
    if ksn.len() != 10 || frame.len() < FRAME_ROOM {
        return Err(Fault::Length);
    }
    if !(1..=6).contains(&reason) {
        return Err(Fault::NotAReason);
    }
    let refusal = write_refusal(array_of(ksn), reason as u8);
    fill_frame(&refusal, frame, frame_length);
    Ok(())
}

/// Writes the key serial number and the code of an accepted reply's frame, each in the front of a
/// slice, of at least 10 bytes and of at least 2. The MAC is not compared: `check_reply` does that.
///
/// Refused with, in this order: `Length`; `NotAReply`.
pub fn read_reply(frame: &[u8], ksn: &mut [u8], code: &mut [u8]) -> Result<(), Fault>
    ensures { ReadReplyAnswers frame.now (reply_parts ksn.old code.old)
        (reply_parts ksn.new code.new) result }
{
    if ksn.len() < 10 || code.len() < 2 {
        return Err(Fault::Length);
    }
    let Some(found) = reply_in(frame) else {
        return Err(Fault::NotAReply);
    };
    write_front(&found.ksn.bytes(), ksn);
    write_front(&found.code.text(), code);
    Ok(())
}

/// Writes the key serial number of a refusal's frame in the front of a slice of at least 10 bytes,
/// and the reason, from 1 to 6.
///
/// Refused with, in this order: `Length`; `NotARefusal`.
pub fn read_refusal(frame: &[u8], ksn: &mut [u8], reason: &mut u32) -> Result<(), Fault>
    ensures { ReadRefusalAnswers frame.now (refusal_parts ksn.old reason.old)
        (refusal_parts ksn.new reason.new) result }
{
    if ksn.len() < 10 {
        return Err(Fault::Length);
    }
    let Some(found) = refusal_in(frame) else {
        return Err(Fault::NotARefusal);
    };
    write_front(&found.ksn.bytes(), ksn);
    *reason = u32::from(found.reason);
    Ok(())
}

/// Whether a frame is the accepted reply of the payment with this transaction key (16 bytes) and
/// this key serial number (10 bytes).
///
/// Refused with, in this order: `Length`; `NotAReply`; `NotMine`, where the reply is to another key
/// serial number; `BadMac`.
pub fn check_reply(key: &[u8], ksn: &[u8], frame: &[u8]) -> Result<(), Fault>
    ensures { CheckReplyAnswers key.now ksn.now frame.now result }
{
    if [key.len(), ksn.len()] != [16, 10] {
        return Err(Fault::Length);
    }
    let Some(found) = reply_in(frame) else {
        return Err(Fault::NotAReply);
    };
    if found.ksn != serial_number(ksn) {
        return Err(Fault::NotMine);
    }
    let key = response_key(&double_key(key));
    if is_payment_reply(&key, frame, found.mac) {
        Ok(())
    } else {
        Err(Fault::BadMac)
    }
}

/// The accepted reply of a payment.
fn payment_reply(key: &Key<16>, ksn: Ksn, code: Code) -> Frame
    ensures { result.items ≡ payment_reply key.now ksn code }
{
    let text = reply_text(ksn, code);
    let mac = retail(&response_key(key), text.bytes());
    text.with_mac(mac)
}

/// The fields of an accepted reply's frame.
fn reply_in(frame: &[u8]) -> Option<ReplyFields>
    ensures { MatchOption result (IsNoReply frame.now)
        (λ reply. IsReply frame.now reply.ksn reply.code reply.mac) }
{
    let Some(answer) = read_answer(frame) else {
        return None;
    };
    match answer {
        AnswerFrame::Reply { ksn, code, mac } => Some(ReplyFields { ksn, code, mac }),
        AnswerFrame::Refusal { .. } => None,
    }
}

/// The fields of a refusal's frame.
fn refusal_in(frame: &[u8]) -> Option<RefusalFields>
    ensures { MatchOption result (IsNoRefusal frame.now)
        (λ refusal. IsRefusal frame.now refusal.ksn refusal.reason) }
{
    let Some(answer) = read_answer(frame) else {
        return None;
    };
    match answer {
        AnswerFrame::Refusal { ksn, reason } => Some(RefusalFields { ksn, reason }),
        AnswerFrame::Reply { .. } => None,
    }
}

/// The code of two digits.
pub(crate) fn read_code(digits: [u8; 2]) -> Option<Code>
    ensures { MatchOption result (IsNoCode digits) (λ code. code_text code ≡ digits) }
{
    match &digits {
        b"00" => Some(Code::Approved),
        b"14" => Some(Code::NoCard),
        b"55" => Some(Code::WrongPin),
        b"51" => Some(Code::OverLimit),
        b"30" => Some(Code::Unreadable),
        _ => None,
    }
}
