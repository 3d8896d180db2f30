//! Logs in memory, and logs on a disk in memory that are stopped at each device call of an append.

use duk_store::{DiskLog, Filling, MemDisk, MemLog, StoreFault, UsedLog};
use duk_tests_support::printed::misprinted;
use duk_tests_support::sample::ksn;
use duk_tree::Ksn;
use std::alloc::Global;

/// Appends a number where there is room. A full log is reported as worn.
pub fn append<L: UsedLog>(log: &mut L, number: Ksn) -> Result<(), StoreFault> {
    if log.room() == 0 {
        return Err(StoreFault::Worn);
    }
    log.append(number)
}

/// How many numbers a log in memory finds at each of two restarts between which it takes one, and
/// for how many it has room then.
fn of_memory_log(alloc: Global, capacity: usize) -> Result<[u64; 3], StoreFault> {
    let mut log = MemLog::new(alloc, capacity)?;
    let first = log.restart()?;
    append(&mut log, ksn(1))?;
    Ok([first, log.restart()?, log.room()])
}

#[test]
fn a_log_in_memory(rt: HostRuntime) {
    assert_eq!(rt; of_memory_log(rt.alloc(), 5), Ok([0, 1, 4]));
}

/// How many numbers a restart finds where an append of a second one stops once so many device calls
/// have passed. Another number in its place is reported as damage.
fn found_after(alloc: Global, filling: Filling, calls: u32) -> Result<u64, StoreFault> {
    let mut disk = MemDisk::new(alloc, 32)?;
    disk.filling(filling);
    let mut log = DiskLog::new(disk);
    log.restart()?;
    append(&mut log, ksn(1))?;
    log.arm(calls);
    if append(&mut log, ksn(3)) != Err(StoreFault::Device) {
        return Err(StoreFault::Damaged);
    }
    let found = log.restart()?;
    if found == 2 && log.at(1)? != ksn(3) {
        return Err(StoreFault::Damaged);
    }
    Ok(found)
}

/// The number counts once its commit byte is open, which is what the filling makes of it until it
/// is synced.
static STOPS: [(Filling, [u64; 4]); 5] = [
    (Filling::Old, [1, 1, 1, 1]),
    (Filling::New, [1, 1, 2, 2]),
    (Filling::Fill(0x00), [1, 1, 1, 1]),
    (Filling::Fill(0x01), [1, 1, 2, 2]),
    (Filling::Fill(0x5A), [1, 1, 1, 1]),
];

#[test]
fn an_append_that_stops(rt: HostRuntime) {
    for (filling, row) in &STOPS {
        for (calls, found) in (0..4).zip(row) {
            assert_eq!(rt; found_after(rt.alloc(), *filling, calls), Ok(*found));
        }
    }
}

static FAULTS: [(StoreFault, &str); 5] = [
    (StoreFault::Device, "Device"),
    (StoreFault::Stopped, "Stopped"),
    (StoreFault::Damaged, "Damaged"),
    (StoreFault::Worn, "Worn"),
    (StoreFault::NoMemory, "NoMemory"),
];

#[test]
fn names_of_faults(rt: HostRuntime) {
    assert_eq!(rt; misprinted(rt.alloc(), &FAULTS), Ok(None));
}
