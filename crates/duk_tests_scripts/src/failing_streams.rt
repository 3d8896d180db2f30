//! A script of which one read fails, or one write of its lines, at each place.

use duk_config::ScriptFault;
use duk_script::run_script;
use duk_tests_support::files::BANK;
use duk_tests_support::streams::{Drip, Tap, Wrong};
use std::alloc::Global;
use std::io::ErrorKind;

/// A payment, and its lines.
const SCRIPT: &str = "load t1 FFFF9876543210E00000
begin t1 4012345678909 1234 500
up 1
";

const LINES: &str = "t1 loaded FFFF9876543210E00000
t1 sent 1 FFFF9876543210E00001
answer 1 accepted FFFF9876543210E00001 00
";

/// Whether a script whose read at a place fails reports that and writes nothing.
fn stops_reading(alloc: Global, place: usize, kind: ErrorKind) -> bool {
    let mut reader = Drip::failing(SCRIPT.as_bytes(), place, kind);
    let mut written = Vec::new(alloc);
    let reported = run_script(alloc, BANK.as_bytes(), &mut reader, &mut written);
    reported == Err(ScriptFault::CannotRead) && written.is_empty()
}

/// The first read of a script whose failure is reported otherwise. The last one reports the end.
fn read_reported_otherwise(alloc: Global, kind: ErrorKind) -> Option<usize> {
    for place in 0..=SCRIPT.len() {
        if !stops_reading(alloc, place, kind) {
            return Some(place);
        }
    }
    None
}

/// A failure, an interrupted read, which might be made again, an end that came too early, and a
/// reader that is out of memory.
const KINDS: [ErrorKind; 4] = [
    ErrorKind::BrokenPipe,
    ErrorKind::Interrupted,
    ErrorKind::UnexpectedEof,
    ErrorKind::OutOfMemory,
];

#[test]
fn a_script_that_cannot_be_read(rt: HostRuntime) {
    for kind in KINDS {
        assert_eq!(rt; read_reported_otherwise(rt.alloc(), kind), None);
    }
}

/// Whether a script whose write of a byte at a place goes wrong reports that, and has written what
/// stands before it. At the place after the last one all is written.
fn stops_writing(alloc: Global, place: usize, wrong: Wrong) -> bool {
    let mut reader = SCRIPT.as_bytes();
    let mut writer = Tap::failing(alloc, 1, place, wrong);
    let reported = run_script(alloc, BANK.as_bytes(), &mut reader, &mut writer);
    let is_reported = if place < LINES.len() {
        reported == Err(ScriptFault::WriteFailed)
    } else {
        reported == Ok(())
    };
    is_reported && Some(writer.written()) == LINES.as_bytes().get(..place)
}

/// The first write of a script that is reported otherwise.
fn write_reported_otherwise(alloc: Global, wrong: Wrong) -> Option<usize> {
    for place in 0..=LINES.len() {
        if !stops_writing(alloc, place, wrong) {
            return Some(place);
        }
    }
    None
}

/// A failure, an interrupted write, which might be made again, and a write that takes no byte.
const WRONGS: [Wrong; 3] = [
    Wrong::Fails(ErrorKind::BrokenPipe),
    Wrong::Fails(ErrorKind::Interrupted),
    Wrong::TakesNone,
];

#[test]
fn lines_that_cannot_be_written(rt: HostRuntime) {
    for wrong in WRONGS {
        assert_eq!(rt; write_reported_otherwise(rt.alloc(), wrong), None);
    }
}
