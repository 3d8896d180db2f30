//! Commands whose lines cannot be written, and scripts of no events.

use duk_program::{Todo, command, run_status};
use duk_tests_support::files::BANK;
use duk_tests_support::streams::{Tap, Wrong};
use std::alloc::{AllocError, Global};
use std::io::ErrorKind;

/// The arguments of a command, after the program's name.
pub fn arguments_of(alloc: Global, command: &[&str]) -> Result<Vec<String>, AllocError> {
    let mut arguments = Vec::new(alloc);
    arguments.push(String::from_str(alloc, "dukpt")?)?;
    for argument in command {
        arguments.push(String::from_str(alloc, argument)?)?;
    }
    Ok(arguments)
}

pub const DERIVE: [&str; 3] = [
    "derive",
    "0123456789ABCDEFFEDCBA9876543210",
    "FFFF9876543210E00001",
];

const DERIVED: &str = "initial 6AC292FAA1315B4D858AB3A3D7D5933A
key 042666B49184CFA368DE9628D0397BC9
pin 042666B49184CF5C68DE9628D0397B36
";

/// Whether a command of which a write at a place goes wrong reports that, and has written what
/// stands before it. At the place after the last one all is written.
fn stops_writing(alloc: Global, place: usize, wrong: Wrong) -> Option<bool> {
    let arguments = arguments_of(alloc, &DERIVE).ok()?;
    let mut writer = Tap::failing(alloc, 1, place, wrong);
    let mut fault = Vec::new(alloc);
    let todo = command(alloc, arguments.as_slice(), &mut writer, &mut fault);
    let (exit, line) = if place < DERIVED.len() {
        (1, "write failed\n")
    } else {
        (0, "")
    };
    let is_reported = matches!(todo, Todo::Exit(status) if status == exit)
        && fault.as_slice() == line.as_bytes();
    Some(is_reported && writer.written() == DERIVED.as_bytes().get(..place)?)
}

/// The first write of the command that is reported otherwise.
fn write_reported_otherwise(alloc: Global, wrong: Wrong) -> Option<usize> {
    for place in 0..=DERIVED.len() {
        if stops_writing(alloc, place, wrong) != Some(true) {
            return Some(place);
        }
    }
    None
}

/// A failure, and a write that takes no byte.
const WRONGS: [Wrong; 2] = [Wrong::Fails(ErrorKind::BrokenPipe), Wrong::TakesNone];

#[test]
fn lines_that_cannot_be_written(rt: HostRuntime) {
    for wrong in WRONGS {
        assert_eq!(rt; write_reported_otherwise(rt.alloc(), wrong), None);
    }
}

/// Whether a script writes nothing, and ends with the status that goes with this fault.
fn reports(alloc: Global, script: &str, line: &str) -> bool {
    let (mut output, mut fault) = (Vec::new(alloc), Vec::new(alloc));
    let mut script = script.as_bytes();
    let status = run_status(alloc, BANK.as_bytes(), &mut script, &mut output, &mut fault);
    status == u8::from(!line.is_empty()) && output.is_empty() && fault.as_slice() == line.as_bytes()
}

#[test]
fn scripts_of_no_events(rt: HostRuntime) {
    assert!(rt; reports(rt.alloc(), "", ""));
    assert!(rt; reports(rt.alloc(), "up 1\nup 01\n", "line 2: not an event\n"));
}
