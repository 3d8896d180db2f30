//! A service of which one read or one write fails, at each place.

use crate::hosts::host;
use duk_host::{HostFault, serve};
use duk_tests_support::sample::ksn;
use duk_tests_support::streams::{Drip, Tap, Wrong};
use std::alloc::Global;
use std::io::ErrorKind;

/// Requests of the first and the second number, the first again, and no request; and their answers.
/// The MACs were computed with OpenSSL.
const INPUT: &[u8; 148] =
    b"\x00\x2E\x01\x01\xFF\xFF\x98\x76\x54\x32\x10\xE0\x00\x01\x0D4012345678909\x00\x00\x00\x01\x1B\x9C\x18\x45\xEB\x99\x3A\x7A\xA0\x56\x19\x89\x6B\x68\x3F\x13\
\x00\x2E\x01\x01\xFF\xFF\x98\x76\x54\x32\x10\xE0\x00\x02\x0D4012345678909\x00\x00\x00\x01\x10\xA0\x1C\x8D\x02\xC6\x91\x07\x3E\xB1\xB1\x12\x3F\x0A\xBE\x82\
\x00\x2E\x01\x01\xFF\xFF\x98\x76\x54\x32\x10\xE0\x00\x01\x0D4012345678909\x00\x00\x00\x01\x1B\x9C\x18\x45\xEB\x99\x3A\x7A\xA0\x56\x19\x89\x6B\x68\x3F\x13\
\x00\x02\x01\x01";

const ANSWERS: &[u8; 87] =
    b"\x00\x16\x01\x02\xFF\xFF\x98\x76\x54\x32\x10\xE0\x00\x0100\x59\x1B\x50\xE0\xCA\x98\xFE\x70\
\x00\x16\x01\x02\xFF\xFF\x98\x76\x54\x32\x10\xE0\x00\x0200\xEC\x70\xAA\x0A\x71\xE6\xC9\xDE\
\x00\x16\x01\x02\xFF\xFF\x98\x76\x54\x32\x10\xE0\x00\x0100\x59\x1B\x50\xE0\xCA\x98\xFE\x70\
\x00\x0D\x01\x03\x00\x00\x00\x00\x00\x00\x00\x00\x00\x00\x01";

/// How many bytes of answers belong to the frames that end before a place of the input.
fn answered_before(place: usize) -> usize {
    match place {
        0..=47 => 0,
        48..=95 => 24,
        96..=143 => 48,
        144..=147 => 72,
        _ => 87,
    }
}

/// Whether a service whose read at a place fails reports that, and has written the answers of the
/// frames before it alone.
fn stops_reading(alloc: Global, place: usize, kind: ErrorKind) -> Option<bool> {
    let mut host = host(alloc, 4)?;
    let mut reader = Drip::failing(INPUT, place, kind);
    let mut written = Vec::new(alloc);
    let reported = serve(&mut host, &mut reader, &mut written);
    let before = ANSWERS.get(..answered_before(place))?;
    Some(reported == Err(HostFault::Read) && written.as_slice() == before)
}

/// The first read of a service whose failure is reported otherwise. The last one reports the end.
fn read_reported_otherwise(alloc: Global, kind: ErrorKind) -> Option<usize> {
    for place in 0..=INPUT.len() {
        if stops_reading(alloc, place, kind) != Some(true) {
            return Some(place);
        }
    }
    None
}

/// A failure, an interrupted read, which might be made again, an end that came too early, and a
/// reader that is out of memory.
const KINDS: [ErrorKind; 4] = [
    ErrorKind::BrokenPipe,
    ErrorKind::Interrupted,
    ErrorKind::UnexpectedEof,
    ErrorKind::OutOfMemory,
];

#[test]
fn a_service_that_cannot_read(rt: HostRuntime) {
    for kind in KINDS {
        assert_eq!(rt; read_reported_otherwise(rt.alloc(), kind), None);
    }
}

/// Whether a service whose write of a byte at a place goes wrong reports that, has written what
/// stands before it, and has used the number of the answer that was cut and those before it. At the
/// place after the last one all is written.
fn stops_writing(alloc: Global, place: usize, wrong: Wrong) -> Option<bool> {
    let mut host = host(alloc, 4)?;
    let mut writer = Tap::failing(alloc, 1, place, wrong);
    let reported = serve(&mut host, &mut INPUT.as_slice(), &mut writer);
    let expected = if place < ANSWERS.len() {
        Err(HostFault::Write)
    } else {
        Ok(4)
    };
    let has_used = host.is_used(ksn(1)) && host.is_used(ksn(2)) == (place >= 24);
    Some(reported == expected && has_used && writer.written() == ANSWERS.get(..place)?)
}

/// The first write of a service that is reported otherwise.
fn write_reported_otherwise(alloc: Global, wrong: Wrong) -> Option<usize> {
    for place in 0..=ANSWERS.len() {
        if stops_writing(alloc, place, wrong) != Some(true) {
            return Some(place);
        }
    }
    None
}

/// A failure, an interrupted write, which might be made again, and a write that takes no byte.
const WRONGS: [Wrong; 3] = [
    Wrong::Fails(ErrorKind::BrokenPipe),
    Wrong::Fails(ErrorKind::Interrupted),
    Wrong::TakesNone,
];

#[test]
fn a_service_that_cannot_write(rt: HostRuntime) {
    for wrong in WRONGS {
        assert_eq!(rt; write_reported_otherwise(rt.alloc(), wrong), None);
    }
}
