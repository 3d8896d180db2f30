//! A service over a log on a disk in memory of which a device step fails.

use duk_config::read_config;
use duk_program::serve_with;
use duk_store::{DiskLog, MemDisk};
use duk_tests_support::files::BANK;
use duk_tests_support::frames::{FIRST_REPLY, FIRST_REQUEST};
use std::alloc::Global;

/// The status of a service that is given the first request, what it writes and what it reports,
/// where this device step of its log fails.
fn of_service(alloc: Global, step: u32) -> Option<(u8, Vec<u8>, Vec<u8>)> {
    let config = read_config(alloc, BANK.as_bytes()).ok()?;
    let mut disk = MemDisk::new(alloc, 64).ok()?;
    disk.fail_once(step);
    let (mut output, mut fault) = (Vec::new(alloc), Vec::new(alloc));
    let log = DiskLog::new(disk);
    let mut input = FIRST_REQUEST.as_slice();
    let status = serve_with(alloc, &config, log, &mut input, &mut output, &mut fault);
    Some((status, output, fault))
}

/// Whether that service is done, or fails for its log and writes nothing.
fn is_as_reported(alloc: Global, step: u32, is_done: bool) -> Option<bool> {
    let (status, output, fault) = of_service(alloc, step)?;
    Some(if is_done {
        status == 0 && output.as_slice() == FIRST_REPLY.as_slice() && fault.is_empty()
    } else {
        status == 1 && output.is_empty() && fault.as_slice() == b"log: failed\n".as_slice()
    })
}

/// A restart over four records that are empty has five device steps, a sync and a read of each
/// record, and an append four.
#[test]
fn steps_that_fail(rt: HostRuntime) {
    for step in 0..9 {
        assert_eq!(rt; is_as_reported(rt.alloc(), step, false), Some(true));
    }
    assert_eq!(rt; is_as_reported(rt.alloc(), 9, true), Some(true));
}
