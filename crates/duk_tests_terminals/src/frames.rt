//! Frames: their bytes, and what is none where a frame is cut or has a byte after it.

use duk_frame::{
    Code, Frame, mac_text, read_answer, read_request, write_refusal, write_reply, write_request,
};
use duk_mac::retail;
use duk_pin::PinFault;
use duk_tests_support::frames::{
    FIRST_REPLY, FIRST_REQUEST, MALFORMED, REQUEST_OF_500, SECOND_REPLY, SECOND_REQUEST,
    THIRD_REPLY, THIRD_REQUEST,
};
use duk_tests_support::sample::{key, ksn, pan};
use std::alloc::{AllocError, Global};
use std::test::Fail;

/// The keys for requests and for responses of the first number, and its PIN block.
const REQUEST: u128 = 0x042666B4_918430A3_68DE9628_D03984C9;

const RESPONSE: u128 = 0x042666B4_6E84CFA3_68DE9628_2F397BC9;

const BLOCK: [u8; 8] = [0x1B, 0x9C, 0x18, 0x45, 0xEB, 0x99, 0x3A, 0x7A];

/// The request of the first number with an amount of 500, written twice: to make its MAC, and with
/// it.
fn request() -> Result<Frame, PinFault> {
    let pan = pan()?;
    let draft = write_request(ksn(1), &pan, 500, BLOCK, [0; 8]);
    let mac = retail(&key(REQUEST), mac_text(draft.as_slice()));
    Ok(write_request(ksn(1), &pan, 500, BLOCK, mac))
}

/// The reply to it, written in the same way.
fn reply() -> Frame {
    let draft = write_reply(ksn(1), Code::Approved, [0; 8]);
    let mac = retail(&key(RESPONSE), mac_text(draft.as_slice()));
    write_reply(ksn(1), Code::Approved, mac)
}

#[test]
fn written_frames(rt: HostRuntime) -> Result<(), Fail> {
    assert!(rt; request()?.as_slice() == REQUEST_OF_500.as_slice());
    assert!(rt; reply().as_slice() == FIRST_REPLY.as_slice());
    assert!(rt; write_refusal([0; 10], 1).as_slice() == MALFORMED.as_slice());
    Ok(())
}

/// Requests, and answers after them.
static FRAMES: [&[u8]; 11] = [
    REQUEST_OF_500,
    FIRST_REQUEST,
    SECOND_REQUEST,
    THIRD_REQUEST,
    FIRST_REPLY,
    SECOND_REPLY,
    THIRD_REPLY,
    MALFORMED,
    b"\x00\x0D\x01\x03\x00\xFF\x98\x76\x54\x32\x10\xE0\x00\x01\x02",
    b"\x00\x0D\x01\x03\xFF\xFF\x98\x76\x54\x32\x10\xE0\x07\xFF\x03",
    b"\x00\x0D\x01\x03\xFF\xFF\x98\x76\x54\x32\x10\xE0\x00\x01\x05",
];

/// Whether bytes are a frame: a request's and an answer's.
fn are_frames(bytes: &[u8]) -> [bool; 2] {
    [read_request(bytes).is_some(), read_answer(bytes).is_some()]
}

/// The first number of bytes of a frame, fewer than all, that are read as one.
fn read_too_early(frame: &[u8]) -> Option<usize> {
    for length in 0..frame.len() {
        if are_frames(&frame[..length]) != [false; 2] {
            return Some(length);
        }
    }
    None
}

/// The first byte that, put after a frame, leaves it one.
fn read_too_late(alloc: Global, frame: &[u8]) -> Result<Option<u8>, AllocError> {
    for byte in 0..=255 {
        let mut longer = Vec::from_slice(alloc, frame)?;
        longer.push(byte)?;
        if are_frames(longer.as_slice()) != [false; 2] {
            return Ok(Some(byte));
        }
    }
    Ok(None)
}

#[test]
fn changed_frames(rt: HostRuntime) -> Result<(), Fail> {
    for (place, frame) in FRAMES.iter().enumerate() {
        assert_eq!(rt; are_frames(frame), [place < 4, place >= 4]);
        assert_eq!(rt; read_too_early(frame), None);
        assert_eq!(rt; read_too_late(rt.alloc(), frame)?, None);
    }
    Ok(())
}
