//! Cells on disks that are written here, slot by slot.

use crate::cells::{DEVICE, Found, NEW, OLD, found_by};
use duk_store::{Body, Cell, Disk, MemDisk, SlotCell, StoreFault};
use std::alloc::Global;
use std::test::Fail;

/// A slot's commit byte and sequence.
type Slot = (u8, u64);

/// Writes a slot whose commit byte is at this place.
fn write_slot(disk: &mut MemDisk, at: u16, slot: Slot, body: &Body) -> Result<(), StoreFault> {
    let mut bytes = [0; 512];
    bytes[0] = slot.0;
    bytes[1..9].copy_from_slice(&slot.1.to_be_bytes());
    bytes[9..].copy_from_slice(body);
    if disk.size() < u64::from(at) + 512 {
        return Err(StoreFault::Damaged);
    }
    disk.write_at(u64::from(at), &bytes)
}

/// A cell over a disk with the old body in its first slot and the new one in its second, of which
/// this device step fails.
fn cell_of(alloc: Global, slots: (Slot, Slot), step: u32) -> Result<SlotCell<MemDisk>, StoreFault> {
    let mut disk = MemDisk::new(alloc, 1024)?;
    write_slot(&mut disk, 0, slots.0, &OLD)?;
    write_slot(&mut disk, 512, slots.1, &NEW)?;
    disk.sync()?;
    disk.fail_once(step);
    Ok(SlotCell::new(disk))
}

/// What is found there.
fn found_with(alloc: Global, slots: (Slot, Slot), step: u32) -> Result<Found, StoreFault> {
    Ok(found_by(&mut cell_of(alloc, slots, step)?))
}

/// Whether this is found there, in so many device steps.
fn finds_in(
    alloc: Global,
    slots: (Slot, Slot),
    found: Found,
    steps: u32,
) -> Result<bool, StoreFault> {
    for step in 0..steps {
        if found_with(alloc, slots, step)? != DEVICE {
            return Ok(false);
        }
    }
    Ok(found_with(alloc, slots, steps)? == found)
}

const DAMAGED: Found = Found::Fault(StoreFault::Damaged);

/// Gates and sequences, what is found, and in how many device steps. A commit byte is open at one
/// alone, and that of a closed slot is not written.
static WRITTEN: [((Slot, Slot), Found, u32); 15] = [
    (((0, 7), (0, 7)), Found::Nothing, 7),
    (((0x5A, 9), (0, 0)), Found::Nothing, 7),
    (((0x5A, 9), (0xFF, 9)), Found::Nothing, 7),
    (((1, 0), (0, 0)), Found::Old, 5),
    (((1, 1), (0, 2)), Found::Old, 5),
    (((0, 2), (1, 1)), Found::New, 5),
    (((2, 9), (1, 3)), Found::New, 5),
    (((1, 3), (0x81, 9)), Found::Old, 5),
    (((1, 1), (1, 0)), Found::Old, 7),
    (((1, 255), (1, 256)), Found::New, 7),
    (((1, 256), (1, 255)), Found::Old, 7),
    (((1, u64::MAX), (1, 1)), Found::Old, 7),
    (((1, u64::MAX - 1), (1, u64::MAX)), Found::New, 7),
    (((1, 0), (1, 0)), DAMAGED, 3),
    (((1, 7), (1, 7)), DAMAGED, 3),
];

#[test]
fn slots(rt: HostRuntime) -> Result<(), Fail> {
    for (slots, found, steps) in &WRITTEN {
        assert!(rt; finds_in(rt.alloc(), *slots, *found, *steps)?);
    }
    Ok(())
}

/// More device steps than are made.
const NEVER: u32 = 1000;

/// How often a cell of this sequence is worn where it is given two bodies, of which each was armed
/// to fail at once; and what is found then.
fn of_worn_cell(alloc: Global, sequence: u64) -> Result<([bool; 2], Found), StoreFault> {
    let mut cell = cell_of(alloc, ((1, sequence), (0, 0)), NEVER)?;
    cell.restart()?;
    let first = cell.put(&NEW) == Err(StoreFault::Worn);
    cell.arm(0);
    let second = cell.put(&OLD) == Err(StoreFault::Worn);
    Ok(([first, second], found_by(&mut cell)))
}

/// A cell of the greatest sequence takes no body, makes no device step and stays as it is. The
/// sequence before that leaves one body to put.
#[test]
fn a_worn_cell(rt: HostRuntime) -> Result<(), Fail> {
    let (of_last, last) = of_worn_cell(rt.alloc(), u64::MAX)?;
    assert!(rt; of_last == [true, true] && last == Found::Old);
    let (of_one_left, one_left) = of_worn_cell(rt.alloc(), u64::MAX - 1)?;
    assert!(rt; of_one_left == [false, true] && one_left == Found::New);
    Ok(())
}

/// What is found on a new disk of this size whose first device step fails.
fn found_on(alloc: Global, size: usize) -> Result<Found, StoreFault> {
    let mut disk = MemDisk::new(alloc, size)?;
    disk.fail_once(0);
    Ok(found_by(&mut SlotCell::new(disk)))
}

/// The size is tested before the first device step.
#[test]
fn disks_of_other_sizes(rt: HostRuntime) -> Result<(), Fail> {
    for (size, found) in [
        (0, DAMAGED),
        (1023, DAMAGED),
        (1024, DEVICE),
        (1025, DAMAGED),
    ] {
        assert!(rt; found_on(rt.alloc(), size)? == found);
    }
    Ok(())
}
