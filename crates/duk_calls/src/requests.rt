//! Request frames.

ghost use Rattle.duk_calls.specs.Answer.{buffer};
ghost use Rattle.duk_calls.specs.Requests.{CheckRequestAnswers, PaymentRequestAnswers, ReadRequestAnswers, RequestPinAnswers, payment, request_parts};

use crate::arguments::{double_key, fill, serial_number, write_front};
use crate::fault::Fault;
use crate::frames::{FRAME_ROOM, fill_frame};
use crate::pins::{read_pan, read_pin};
use duk_frame::mac_text;
use duk_mac::{retail, same_mac};
use duk_pin::decode;
use duk_tdes::tdes_decrypt;
use duk_tree::{pin_key, request_key};

/// Writes the request of a payment in the front of a slice of at least 64 bytes, and the number of
/// its bytes. `key` is the transaction key (16 bytes) of the key serial number (10 bytes); the
/// amount is in the smallest unit of the currency.
///
/// Refused with, in this order: `Length`; `PanLength`, `PanDigit`; `PinLength`, `PinDigit`.
pub fn payment_request(
    key: &[u8],
    ksn: &[u8],
    pan: &[u8],
    pin: &[u8],
    amount: u32,
    frame: &mut [u8],
    frame_length: &mut u32,
) -> Result<(), Fault>
    ensures { PaymentRequestAnswers (payment key.now ksn.now pan.now pin.now amount)
        (buffer frame.old frame_length.old) (buffer frame.new frame_length.new) result }
{
    if [key.len(), ksn.len()] != [16, 10] || frame.len() < FRAME_ROOM {
        return Err(Fault::Length);
    }
    let pan = read_pan(pan).map_err(Fault::Pin)?;
    let pin = read_pin(pin).map_err(Fault::Pin)?;
    let key = double_key(key);
    let ksn = serial_number(ksn);
    let request = duk_frame::payment_request(&key, ksn, &pan, &pin, amount);
    fill_frame(&request, frame, frame_length);
    Ok(())
}

/// Writes the fields of a request's frame, each in the front of a slice: the key serial number (at
/// least 10 bytes), the PAN (at least 19) and the number of its digits, the amount, the enciphered
/// PIN block (at least 8) and the MAC (at least 8). The MAC is not compared: `check_request` does
/// that.
///
/// Refused with, in this order: `Length`; `NotARequest`.
pub fn read_request(
    frame: &[u8],
    ksn: &mut [u8],
    pan: &mut [u8],
    pan_length: &mut u32,
    amount: &mut u32,
    block: &mut [u8],
    mac: &mut [u8],
) -> Result<(), Fault>
    ensures { ReadRequestAnswers frame.now
        (request_parts ksn.old (buffer pan.old pan_length.old) amount.old block.old mac.old)
        (request_parts ksn.new (buffer pan.new pan_length.new) amount.new block.new mac.new)
        result }
{
    if ksn.len() < 10 || pan.len() < 19 || block.len() < 8 || mac.len() < 8 {
        return Err(Fault::Length);
    }
    let Some(request) = duk_frame::read_request(frame) else {
        return Err(Fault::NotARequest);
    };
    write_front(&request.ksn.bytes(), ksn);
    fill(request.pan.digits().as_bytes(), pan, pan_length);
    *amount = request.amount;
    write_front(&request.block, block);
    write_front(&request.mac, mac);
    Ok(())
}

/// Whether a request's frame has the MAC of its bytes under the transaction key (16 bytes).
///
/// Refused with, in this order: `Length`; `NotARequest`; `BadMac`.
pub fn check_request(key: &[u8], frame: &[u8]) -> Result<(), Fault>
    ensures { CheckRequestAnswers key.now frame.now result }
{
    if key.len() != 16 {
        return Err(Fault::Length);
    }
    let Some(request) = duk_frame::read_request(frame) else {
        return Err(Fault::NotARequest);
    };
    duk_frame::laws::mac_texts();
    let key = request_key(&double_key(key));
    if same_mac(&request.mac, &retail(&key, mac_text(frame))) {
        Ok(())
    } else {
        Err(Fault::BadMac)
    }
}

/// Writes the PIN of a request's frame under the transaction key (16 bytes) in the front of a slice
/// of at least 12 bytes, and the number of its digits, 4 to 12. The MAC is not compared:
/// `check_request` does that.
///
/// Refused with, in this order: `Length`; `NotARequest`; `NotAPinBlock`.
pub fn request_pin(
    key: &[u8],
    frame: &[u8],
    pin: &mut [u8],
    pin_length: &mut u32,
) -> Result<(), Fault>
    ensures { RequestPinAnswers key.now frame.now (buffer pin.old pin_length.old)
        (buffer pin.new pin_length.new) result }
{
    if key.len() != 16 || pin.len() < 12 {
        return Err(Fault::Length);
    }
    let Some(request) = duk_frame::read_request(frame) else {
        return Err(Fault::NotARequest);
    };
    let key = pin_key(&double_key(key));
    let Some(found) = decode(tdes_decrypt(&key, request.block), &request.pan) else {
        return Err(Fault::NotAPinBlock);
    };
    fill(found.digits().as_bytes(), pin, pin_length);
    Ok(())
}
