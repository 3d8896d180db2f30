//! What is held back is handed on once, before the status; where that fails, it is reported.

use crate::commands::{DERIVE, arguments_of};
use duk_config::read_config;
use duk_program::{Todo, command, run_status, serve_with};
use duk_store::{DiskLog, MemDisk, MemLog};
use duk_tests_support::files::BANK;
use duk_tests_support::frames::FIRST_REQUEST;
use std::alloc::Global;
use std::io;
use std::io::{ErrorKind, Write};

/// A writer that takes all, and counts how often it is flushed. A flush may fail.
#[derive(Drop)]
struct CountingFlushes {
    flushes: u32,
    fails: bool,
}

impl Write for CountingFlushes {
    fn write(&mut self, bytes: &[u8]) -> io::Result<usize> {
        Ok(bytes.len())
    }

    fn flush(&mut self) -> io::Result<()> {
        self.flushes = self.flushes.saturating_add(1);
        if self.fails {
            return Err(io::Error::from(ErrorKind::BrokenPipe));
        }
        Ok(())
    }
}

/// A status, how often the output was flushed, and whether this line was reported.
type Reported = (u8, u32, bool);

/// What comes of a service that is given these bytes.
fn of_service(alloc: Global, mut input: &[u8], fails: bool, line: &str) -> Option<Reported> {
    let config = read_config(alloc, BANK.as_bytes()).ok()?;
    let log = MemLog::new(alloc, 4).ok()?;
    let mut output = CountingFlushes { flushes: 0, fails };
    let mut fault = Vec::new(alloc);
    let status = serve_with(alloc, &config, log, &mut input, &mut output, &mut fault);
    Some((status, output.flushes, fault.as_slice() == line.as_bytes()))
}

/// What comes of a service over a log whose disk is none of a log.
fn of_damaged_log(alloc: Global, fails: bool, line: &str) -> Option<Reported> {
    let config = read_config(alloc, BANK.as_bytes()).ok()?;
    let log = DiskLog::new(MemDisk::new(alloc, 15).ok()?);
    let mut input = FIRST_REQUEST.as_slice();
    let mut output = CountingFlushes { flushes: 0, fails };
    let mut fault = Vec::new(alloc);
    let status = serve_with(alloc, &config, log, &mut input, &mut output, &mut fault);
    Some((status, output.flushes, fault.as_slice() == line.as_bytes()))
}

/// What comes of a run of one event.
fn of_run(alloc: Global, fails: bool, line: &str) -> Reported {
    let mut output = CountingFlushes { flushes: 0, fails };
    let mut fault = Vec::new(alloc);
    let mut script = "up 1\n".as_bytes();
    let status = run_status(alloc, BANK.as_bytes(), &mut script, &mut output, &mut fault);
    (status, output.flushes, fault.as_slice() == line.as_bytes())
}

/// What comes of a command.
fn of_command(alloc: Global, fails: bool, line: &str) -> Option<Reported> {
    let arguments = arguments_of(alloc, &DERIVE).ok()?;
    let mut output = CountingFlushes { flushes: 0, fails };
    let mut fault = Vec::new(alloc);
    match command(alloc, arguments.as_slice(), &mut output, &mut fault) {
        Todo::Exit(status) => {
            Some((status, output.flushes, fault.as_slice() == line.as_bytes()))
        }
        _ => None,
    }
}

#[test]
fn a_service_that_is_flushed(rt: HostRuntime) {
    let (whole, cut) = (FIRST_REQUEST.as_slice(), &FIRST_REQUEST[..20]);
    let (lost, inside) = ("serve: write failed\n", "serve: input ends in a frame\n");
    assert_eq!(rt;
        of_service(rt.alloc(), whole, false, ""),
        Some((0, 1, true))
    );
    assert_eq!(rt;
        of_service(rt.alloc(), whole, true, lost),
        Some((1, 1, true))
    );
    assert_eq!(rt;
        of_service(rt.alloc(), cut, false, inside),
        Some((1, 1, true))
    );
    assert_eq!(rt; of_service(rt.alloc(), cut, true, lost), Some((1, 1, true)));
}

#[test]
fn a_log_that_fails_beside_the_output(rt: HostRuntime) {
    let (failed, both) = ("log: failed\n", "log: failed\nserve: write failed\n");
    assert_eq!(rt;
        of_damaged_log(rt.alloc(), false, failed),
        Some((1, 1, true))
    );
    assert_eq!(rt; of_damaged_log(rt.alloc(), true, both), Some((1, 1, true)));
}

#[test]
fn commands_that_are_flushed(rt: HostRuntime) {
    assert_eq!(rt; of_run(rt.alloc(), false, ""), (0, 1, true));
    assert_eq!(rt;
        of_run(rt.alloc(), true, "script: write failed\n"),
        (1, 1, true)
    );
    assert_eq!(rt; of_command(rt.alloc(), false, ""), Some((0, 1, true)));
    assert_eq!(rt;
        of_command(rt.alloc(), true, "write failed\n"),
        Some((1, 1, true))
    );
}
