//! Cells on a disk in memory that are stopped at each device call of a put, and at each device step
//! of the restart after it.

use duk_store::{BODY_LENGTH, Body, Cell, Filling, MemDisk, SlotCell, StoreFault};
use std::alloc::Global;
use std::test::Fail;

/// The body that is kept before, and the one that is put.
pub const OLD: Body = [0xC3; BODY_LENGTH];

pub const NEW: Body = [0x3C; BODY_LENGTH];

/// What a restart finds.
#[derive(Clone, Copy, PartialEq)]
pub enum Found {
    Nothing,
    Old,
    New,
    /// Another body.
    Other,
    /// It is refused.
    Fault(StoreFault),
}

pub const DEVICE: Found = Found::Fault(StoreFault::Device);

/// Brings a cell up.
pub fn found_by(cell: &mut SlotCell<MemDisk>) -> Found {
    match cell.restart() {
        Ok(None) => Found::Nothing,
        Ok(Some(body)) if body == OLD => Found::Old,
        Ok(Some(body)) if body == NEW => Found::New,
        Ok(Some(_)) => Found::Other,
        Err(fault) => Found::Fault(fault),
    }
}

/// A put over nothing or over the old body, which stops once so many device calls have passed.
#[derive(Clone, Copy)]
struct Stop {
    /// What a restart leaves of what was not synced.
    filling: Filling,
    is_over_old: bool,
    calls: u32,
}

/// A cell on a new disk after this stop. A device step of the restarts after it fails: before them
/// the first restart has seven, a put that is done eight, and the put that stops those that pass
/// and the one that fails.
fn stopped_cell(alloc: Global, stop: Stop, step: u32) -> Result<SlotCell<MemDisk>, StoreFault> {
    let before = if stop.is_over_old { 16 } else { 8 };
    let mut disk = MemDisk::new(alloc, 1024)?;
    disk.filling(stop.filling);
    disk.fail_once(stop.calls.saturating_add(step).saturating_add(before));
    let mut cell = SlotCell::new(disk);
    cell.restart()?;
    if stop.is_over_old {
        cell.put(&OLD)?;
    }
    cell.arm(stop.calls);
    match cell.put(&NEW) {
        Err(StoreFault::Device) => Ok(cell),
        _ => Err(StoreFault::Damaged),
    }
}

/// What two restarts after a stop find, of which this device step fails.
fn found_twice(alloc: Global, stop: Stop, step: u32) -> Result<[Found; 2], StoreFault> {
    let mut cell = stopped_cell(alloc, stop, step)?;
    let first = found_by(&mut cell);
    Ok([first, found_by(&mut cell)])
}

/// Whether a restart after a stop finds this, in so many device steps: wherever one of them fails,
/// the next restart finds it, and a step after them is one of the next restart.
fn finds_in(alloc: Global, stop: Stop, found: Found, steps: u32) -> Result<bool, StoreFault> {
    for step in 0..steps {
        if found_twice(alloc, stop, step)? != [DEVICE, found] {
            return Ok(false);
        }
    }
    Ok(found_twice(alloc, stop, steps)? == [found, DEVICE])
}

/// A filling, and the device call of a put after which the new body is found; and by the call at
/// which it stops the device steps of a restart, where there was an old body and where there was
/// none.
///
/// The third and the fourth call of a put write and sync the commit byte of the new slot: there it
/// depends on the filling which body is found. A restart syncs and reads twice, and wipes each slot
/// that does not count in two steps, or in four where it is open.
type Row = (Filling, u32, [u32; 8], [u32; 8]);

static STOPS: [Row; 5] = [
    (
        Filling::Old,
        4,
        [5, 5, 5, 5, 7, 7, 5, 5],
        [7, 7, 7, 7, 5, 5, 5, 5],
    ),
    (
        Filling::New,
        2,
        [5, 5, 7, 7, 5, 5, 5, 5],
        [7, 7, 5, 5, 5, 5, 5, 5],
    ),
    (Filling::Fill(0x00), 4, [5; 8], [7, 7, 7, 7, 5, 5, 5, 5]),
    (
        Filling::Fill(0x01),
        2,
        [5, 5, 7, 7, 7, 7, 5, 5],
        [7, 7, 5, 5, 7, 7, 5, 5],
    ),
    (Filling::Fill(0x5A), 4, [5; 8], [7, 7, 7, 7, 5, 5, 5, 5]),
];

/// The first call of a put at which a stop leaves something else than such a row says.
fn first_wrong(alloc: Global, row: &Row, is_over_old: bool) -> Result<Option<u32>, StoreFault> {
    let (filling, counts, over_old, over_nothing) = row;
    let (before, steps) = if is_over_old {
        (Found::Old, over_old)
    } else {
        (Found::Nothing, over_nothing)
    };
    for (calls, steps) in (0..8).zip(steps) {
        let stop = Stop {
            filling: *filling,
            is_over_old,
            calls,
        };
        let found = if calls < *counts { before } else { Found::New };
        if !finds_in(alloc, stop, found, *steps)? {
            return Ok(Some(calls));
        }
    }
    Ok(None)
}

#[test]
fn a_put_that_stops(rt: HostRuntime) -> Result<(), Fail> {
    for row in &STOPS {
        assert_eq!(rt; first_wrong(rt.alloc(), row, true)?, None);
        assert_eq!(rt; first_wrong(rt.alloc(), row, false)?, None);
    }
    Ok(())
}
