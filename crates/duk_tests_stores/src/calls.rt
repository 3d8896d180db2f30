//! The calls that cells and logs make on their disk, in their order and with their places.

use crate::cells::{NEW, OLD};
use crate::logs::append;
use duk_store::{Cell as _, DiskLog, SlotCell, StoreFault, UsedLog};
use duk_tests_support::recorded::Call::{Read, Restart, Sync, Write};
use duk_tests_support::recorded::{Call, RecordingDisk, Seen};
use duk_tests_support::sample::ksn;
use std::alloc::Global;
use std::cell::Cell;

/// A cell comes up over nothing: the disk is synced before it is read, the first slot is read
/// first, and both are wiped after their commit bytes, which are closed.
///
/// A put fills the slot that is empty: its contents, then its commit byte, each synced. Then it
/// empties the other one: its commit byte, then its contents.
///
/// A cell comes up over a body: the slot that does not count is wiped.
static CELL: [Call; 36] = [
    Restart,
    Sync,
    Read(0, 512),
    Read(512, 512),
    Write(1, 511),
    Sync,
    Write(513, 511),
    Sync,
    // The first body.
    Write(1, 511),
    Sync,
    Write(0, 1),
    Sync,
    Write(512, 1),
    Sync,
    Write(513, 511),
    Sync,
    // The second one.
    Write(513, 511),
    Sync,
    Write(512, 1),
    Sync,
    Write(0, 1),
    Sync,
    Write(1, 511),
    Sync,
    // The second one is found.
    Restart,
    Sync,
    Read(0, 512),
    Read(512, 512),
    Write(1, 511),
    Sync,
    // And again.
    Restart,
    Sync,
    Read(0, 512),
    Read(512, 512),
    Write(1, 511),
    Sync,
];

/// The calls of a cell that comes up, keeps two bodies, and comes up twice.
fn seen_of_cell(alloc: Global) -> Result<Seen, StoreFault> {
    let seen = Cell::new(Seen::NONE);
    let mut cell = SlotCell::new(RecordingDisk::new(alloc, 1024, &CELL, &seen)?);
    cell.restart()?;
    cell.put(&OLD)?;
    cell.put(&NEW)?;
    cell.restart()?;
    cell.restart()?;
    Ok(seen.get())
}

#[test]
fn calls_of_a_cell(rt: HostRuntime) {
    assert_eq!(rt; seen_of_cell(rt.alloc()), Ok(Seen::all(&CELL)));
}

/// A log comes up: the disk is synced before it is read, and each record is read once, in turn. A
/// number is read by one read. A number goes into its record: what is after the commit byte, then
/// the commit byte, each synced.
static LOG: [Call; 14] = [
    Restart,
    Sync,
    Read(0, 16),
    Read(16, 16),
    // The first number.
    Write(1, 15),
    Sync,
    Write(0, 1),
    Sync,
    // The second one.
    Write(17, 15),
    Sync,
    Write(16, 1),
    Sync,
    // They are read.
    Read(16, 16),
    Read(0, 16),
];

/// The calls of a log that comes up, keeps two numbers, and reads them.
fn seen_of_log(alloc: Global) -> Result<Seen, StoreFault> {
    let seen = Cell::new(Seen::NONE);
    let mut log = DiskLog::new(RecordingDisk::new(alloc, 32, &LOG, &seen)?);
    log.restart()?;
    append(&mut log, ksn(1))?;
    append(&mut log, ksn(3))?;
    if log.len() == 2 {
        log.at(1)?;
        log.at(0)?;
    }
    Ok(seen.get())
}

#[test]
fn calls_of_a_log(rt: HostRuntime) {
    assert_eq!(rt; seen_of_log(rt.alloc()), Ok(Seen::all(&LOG)));
}

/// What a cell reports at a restart over a disk of this size, and the calls that it makes.
fn cell_of_size(alloc: Global, size: usize) -> Result<(StoreFault, Seen), StoreFault> {
    let seen = Cell::new(Seen::NONE);
    let mut cell = SlotCell::new(RecordingDisk::new(alloc, size, &[Restart], &seen)?);
    match cell.restart() {
        Ok(_) => Err(StoreFault::Stopped),
        Err(fault) => Ok((fault, seen.get())),
    }
}

/// What a log reports there, and the calls that it makes.
fn log_of_size(alloc: Global, size: usize) -> Result<(StoreFault, Seen), StoreFault> {
    let seen = Cell::new(Seen::NONE);
    let mut log = DiskLog::new(RecordingDisk::new(alloc, size, &[Restart], &seen)?);
    match log.restart() {
        Ok(_) => Err(StoreFault::Stopped),
        Err(fault) => Ok((fault, seen.get())),
    }
}

/// A size that is damaged is reported before anything is synced or read.
#[test]
fn calls_over_other_sizes(rt: HostRuntime) {
    let damaged = Ok((StoreFault::Damaged, Seen::all(&[Restart])));
    for size in [0, 1023, 1040] {
        assert_eq!(rt; cell_of_size(rt.alloc(), size), damaged);
    }
    for size in [0, 15, 17] {
        assert_eq!(rt; log_of_size(rt.alloc(), size), damaged);
    }
}
