//! The calls that a host makes on the disk of its log.

use crate::hosts::{OTHER_MAC, issuer};
use crate::security_module::security_module;
use duk_host::Host;
use duk_store::DiskLog;
use duk_tests_support::frames::REQUEST_OF_500;
use duk_tests_support::recorded::Call::{Read, Restart, Sync, Write};
use duk_tests_support::recorded::{Call, RecordingDisk, Seen};
use std::alloc::Global;
use std::cell::Cell;

/// A host comes up over a log of two records that is empty. A refusal comes to no disk, an
/// acceptance keeps its number, and a reply that is given again comes to no disk. After that the
/// host comes up over one number, which it reads once.
static HOST: [Call; 13] = [
    Restart,
    Sync,
    Read(0, 16),
    Read(16, 16),
    // The acceptance.
    Write(1, 15),
    Sync,
    Write(0, 1),
    Sync,
    // The second restart.
    Restart,
    Sync,
    Read(0, 16),
    Read(16, 16),
    Read(0, 16),
];

/// The calls of that host.
fn seen_of_host(alloc: Global) -> Option<Seen> {
    let seen = Cell::new(Seen::NONE);
    let hsm = security_module().ok()?;
    if !hsm.has_zone() {
        return None;
    }
    let log = DiskLog::new(RecordingDisk::new(alloc, 32, &HOST, &seen).ok()?);
    let mut host = Host::new(alloc, hsm, issuer(alloc)?, log);
    host.restart().ok()?;
    for request in [OTHER_MAC, REQUEST_OF_500, REQUEST_OF_500] {
        host.handle(request).ok()?;
    }
    host.restart().ok()?;
    Some(seen.get())
}

#[test]
fn calls_of_a_host(rt: HostRuntime) {
    assert_eq!(rt; seen_of_host(rt.alloc()), Some(Seen::all(&HOST)));
}
