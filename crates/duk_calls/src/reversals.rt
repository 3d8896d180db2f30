//! The frames of a reversal, by which a terminal undoes a payment, and of the reply to it.

ghost use Rattle.std.specs.Prelude.{◌≡◌, ◌↔◌, IsTrue, MatchOption, length};
ghost use Rattle.duk_reversal.specs.Authentic.{reversal_reply_under};
ghost use Rattle.duk_reversal.specs.Numbers.{AreNumbers, Reverses};
ghost use Rattle.duk_reversal.specs.Reply.{IsReversalReply};
ghost use Rattle.duk_reversal.specs.Reversal.{IsReversal};
ghost use Rattle.duk_reversal.specs.State.{state_byte};
ghost use Rattle.duk_tree.specs.Derivation.{response_key_of};
ghost use Rattle.duk_tree.specs.Serial.{serial_of_bytes};
ghost use Rattle.duk_calls.specs.Answer.{buffer};
ghost use Rattle.duk_calls.specs.Reversals.{CheckReversalAnswers, CheckReversalReplyAnswers, IsNoReversal, IsNoReversalReply, IsNoState, ReadReversalAnswers, ReadReversalReplyAnswers, ReversalReplyAnswers, ReversalRequestAnswers, reversal_parts, reversal_reply_parts, reversing};

use crate::arguments::{double_key, serial_number, write_front};
use crate::fault::Fault;
use crate::frames::{FRAME_ROOM, fill_frame};
use duk_frame::Frame;
use duk_mac::retail;
use duk_reversal::{
    Reversal, ReversalNumbers, ReversalReply, ReversalState, is_reversal_reply, reversal_under,
};
use duk_tdes::Key;
use duk_tree::response_key;

/// Writes a reversal in the front of a slice of at least 64 bytes, and the number of its bytes.
/// `key` is the transaction key (16 bytes) of the key serial number that the reversal uses (10
/// bytes); `reversed` is that of the payment to be undone (10 bytes).
///
/// Refused with, in this order: `Length`; `NotReversed`, where the two have not the same initial
/// key serial number, are one number, or the reversed one is not usable.
pub fn reversal_request(
    key: &[u8],
    ksn: &[u8],
    reversed: &[u8],
    frame: &mut [u8],
    frame_length: &mut u32,
) -> Result<(), Fault>
    ensures { ReversalRequestAnswers (reversing key.now ksn.now reversed.now)
        (buffer frame.old frame_length.old) (buffer frame.new frame_length.new) result }
{
    if [key.len(), ksn.len(), reversed.len()] != [16, 10, 10] || frame.len() < FRAME_ROOM {
        return Err(Fault::Length);
    }
    let Some(numbers) = numbers_of(ksn, reversed) else {
        return Err(Fault::NotReversed);
    };
    let reversal = reversal_under(&double_key(key), numbers);
    fill_frame(&reversal, frame, frame_length);
    Ok(())
}

/// Writes the fields of a reversal's frame, each in the front of a slice: the key serial number
/// that it uses (at least 10 bytes), the one that it reverses (at least 10) and the MAC (at least
/// 8). The MAC is not compared: `check_reversal` does that.
///
/// Refused with, in this order: `Length`; `NotAReversal`.
pub fn read_reversal(
    frame: &[u8],
    ksn: &mut [u8],
    reversed: &mut [u8],
    mac: &mut [u8],
) -> Result<(), Fault>
    ensures { ReadReversalAnswers frame.now (reversal_parts ksn.old reversed.old mac.old)
        (reversal_parts ksn.new reversed.new mac.new) result }
{
    if ksn.len() < 10 || reversed.len() < 10 || mac.len() < 8 {
        return Err(Fault::Length);
    }
    let Some(reversal) = reversal_in(frame) else {
        return Err(Fault::NotAReversal);
    };
    write_front(&reversal.numbers.ksn().bytes(), ksn);
    write_front(&reversal.numbers.reversed().bytes(), reversed);
    write_front(&reversal.mac, mac);
    Ok(())
}

/// Whether a reversal's frame has the MAC of its bytes under the transaction key (16 bytes).
///
/// Refused with, in this order: `Length`; `NotAReversal`; `BadMac`.
pub fn check_reversal(key: &[u8], frame: &[u8]) -> Result<(), Fault>
    ensures { CheckReversalAnswers key.now frame.now result }
{
    if key.len() != 16 {
        return Err(Fault::Length);
    }
    let Some(reversal) = reversal_in(frame) else {
        return Err(Fault::NotAReversal);
    };
    if reversal_under(&double_key(key), reversal.numbers).as_slice() == frame {
        Ok(())
    } else {
        Err(Fault::BadMac)
    }
}

/// Writes the reply to a reversal in the front of a slice of at least 64 bytes, and the number of
/// its bytes. `key` is the transaction key (16 bytes) of the key serial number that the reversal
/// uses (10 bytes); `reversed` is the one that it reverses (10 bytes). The state is 1 where a
/// payment of that number stood and is undone, and 0 where none stands.
///
/// Refused with, in this order: `Length`; `NotReversed`, as by `reversal_request`; `NotAState`.
pub fn reversal_reply(
    key: &[u8],
    ksn: &[u8],
    reversed: &[u8],
    state: u32,
    frame: &mut [u8],
    frame_length: &mut u32,
) -> Result<(), Fault>
    ensures { ReversalReplyAnswers (reversing key.now ksn.now reversed.now) state
        (buffer frame.old frame_length.old) (buffer frame.new frame_length.new) result }
{
    if [key.len(), ksn.len(), reversed.len()] != [16, 10, 10] || frame.len() < FRAME_ROOM {
        return Err(Fault::Length);
    }
    let Some(numbers) = numbers_of(ksn, reversed) else {
        return Err(Fault::NotReversed);
    };
    let Some(state) = state_of(state) else {
        return Err(Fault::NotAState);
    };
    let reply = reply_under(&response_key(&double_key(key)), numbers, state);
    fill_frame(&reply, frame, frame_length);
    Ok(())
}

/// Writes the key serial number that a reversal uses and the one that it reverses, as the frame of
/// its reply has them, each in the front of a slice of at least 10 bytes, and the state: 1 where a
/// payment stood and is undone, and 0 where none stands. The MAC is not compared:
/// `check_reversal_reply` does that.
///
/// Refused with, in this order: `Length`; `NotAReversalReply`.
pub fn read_reversal_reply(
    frame: &[u8],
    ksn: &mut [u8],
    reversed: &mut [u8],
    state: &mut u32,
) -> Result<(), Fault>
    ensures { ReadReversalReplyAnswers frame.now
        (reversal_reply_parts ksn.old reversed.old state.old)
        (reversal_reply_parts ksn.new reversed.new state.new) result }
{
    if ksn.len() < 10 || reversed.len() < 10 {
        return Err(Fault::Length);
    }
    let Some(reply) = reply_in(frame) else {
        return Err(Fault::NotAReversalReply);
    };
    write_front(&reply.numbers.ksn().bytes(), ksn);
    write_front(&reply.numbers.reversed().bytes(), reversed);
    *state = u32::from(reply.state.byte());
    Ok(())
}

/// Whether a frame is the reply to the reversal with this transaction key (16 bytes), which uses
/// this key serial number and reverses that one (10 bytes each).
///
/// Refused with, in this order: `Length`; `NotAReversalReply`; `NotMine`, where the reply is to a
/// reversal with other numbers; `BadMac`.
pub fn check_reversal_reply(
    key: &[u8],
    ksn: &[u8],
    reversed: &[u8],
    frame: &[u8],
) -> Result<(), Fault>
    ensures { CheckReversalReplyAnswers (reversing key.now ksn.now reversed.now) frame.now result }
{
    if [key.len(), ksn.len(), reversed.len()] != [16, 10, 10] {
        return Err(Fault::Length);
    }
    let Some(reply) = reply_in(frame) else {
        return Err(Fault::NotAReversalReply);
    };
    if !are_numbers(reply.numbers, ksn, reversed) {
        return Err(Fault::NotMine);
    }
    if is_reversal_reply(&response_key(&double_key(key)), &reply) {
        Ok(())
    } else {
        Err(Fault::BadMac)
    }
}

/// The numbers of a reversal, in ten bytes each, where the first can reverse the second.
pub(crate) fn numbers_of(ksn: &[u8], reversed: &[u8]) -> Option<ReversalNumbers>
    requires ksn { length ksn.now ≡ 10 }
    requires reversed { length reversed.now ≡ 10 }
    ensures { MatchOption result
        (¬ Reverses (serial_of_bytes ksn.now) (serial_of_bytes reversed.now))
        (λ numbers. Reverses (serial_of_bytes ksn.now) (serial_of_bytes reversed.now)
        × (numbers ≡ record {
          ksn = serial_of_bytes ksn.now;
          reversed = serial_of_bytes reversed.now;
        })) }
{
    ReversalNumbers::new(serial_number(ksn), serial_number(reversed))
}

/// Whether these are the numbers of a reversal.
fn are_numbers(numbers: ReversalNumbers, ksn: &[u8], reversed: &[u8]) -> bool
    requires ksn { length ksn.now ≡ 10 }
    requires reversed { length reversed.now ≡ 10 }
    ensures { IsTrue result
        ↔ (numbers ≡ record {
          ksn = serial_of_bytes ksn.now;
          reversed = serial_of_bytes reversed.now;
        }) }
{
    numbers.ksn() == serial_number(ksn) && numbers.reversed() == serial_number(reversed)
}

/// The state of a number.
fn state_of(number: u32) -> Option<ReversalState>
    ensures { MatchOption result (IsNoState number) (λ state. state_byte state ≡ number) }
{
    match number {
        1 => Some(ReversalState::Undone),
        0 => Some(ReversalState::NoneStands),
        _ => None,
    }
}

/// The reply to a reversal with these numbers, with a MAC under this variant of its key.
fn reply_under(response_key: &Key<16>, numbers: ReversalNumbers, state: ReversalState) -> Frame
    ensures { result.items ≡ reversal_reply_under response_key.now numbers state }
{
    let mac = retail(response_key, ReversalReply::text(numbers, state).as_slice());
    ReversalReply {
        numbers,
        state,
        mac,
    }
    .bytes()
}

/// The fields of a reversal's frame.
fn reversal_in(frame: &[u8]) -> Option<Reversal>
    ensures { MatchOption result (IsNoReversal frame.now) (IsReversal frame.now) }
{
    duk_reversal::read_reversal(frame)
}

/// The fields of the frame of a reversal's reply.
fn reply_in(frame: &[u8]) -> Option<ReversalReply>
    ensures { MatchOption result (IsNoReversalReply frame.now) (IsReversalReply frame.now) }
{
    duk_reversal::read_reversal_reply(frame)
}
