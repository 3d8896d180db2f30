//! What stands on a terminal's disk after a begin that stopped, a restart that fails at any of its
//! steps, and a further begin: the image of the registers, once, and nothing else of a key.

use crate::loading::{begin_number, loaded};
use duk_store::{Disk, Filling, MemDisk, SlotCell, StoreFault};
use duk_term::{Next, TermFault, Terminal};
use duk_tests_support::images::FOURTH;
use duk_tests_support::sample::ksn;
use std::alloc::Global;
use std::test::Fail;

const DEVICE: TermFault = TermFault::Store(StoreFault::Device);

/// The disk of a terminal whose second begin stops at the fifth step of its put, where both slots
/// are open. What a restart leaves is what was synced.
fn stopped_disk(alloc: Global) -> Result<MemDisk, Fail> {
    let mut disk = MemDisk::new(alloc, 1024)?;
    disk.filling(Filling::Old);
    let mut terminal = loaded(SlotCell::new(disk))?;
    let first = begin_number(&mut terminal);
    terminal.arm(4);
    let second = begin_number(&mut terminal);
    if first != Ok(Some(ksn(1))) || second != Err(DEVICE) {
        return Err("another begin".into());
    }
    Ok(terminal.into_cell().into_disk())
}

/// What a restart answers, and which number comes next then.
fn restart(terminal: &mut Terminal<SlotCell<MemDisk>>) -> (Result<(), TermFault>, Next) {
    (terminal.restart(), terminal.next())
}

/// Whether a terminal finds its third number and begins with it, at its first restart, or at its
/// second one where a step of the first one fails.
fn goes_on(terminal: &mut Terminal<SlotCell<MemDisk>>, fails: bool) -> bool {
    if fails && restart(terminal) != (Err(DEVICE), Next::Stopped) {
        return false;
    }
    restart(terminal) == (Ok(()), Next::At(ksn(3))) && begin_number(terminal) == Ok(Some(ksn(3)))
}

/// The bytes of a disk, where a stop leaves 5A in whatever was not synced.
fn bytes_left(mut disk: MemDisk) -> Result<[u8; 1024], StoreFault> {
    let mut bytes = [0; 1024];
    disk.filling(Filling::Fill(0x5A));
    disk.restart()?;
    if disk.size() == 1024 {
        disk.read_at(0, &mut bytes)?;
    }
    Ok(bytes)
}

const ZEROS: [u8; 511] = [0; 511];

/// Whether a slot is open and has the image before the fourth number, and zeros.
fn has_image(slot: &[u8]) -> bool {
    slot.first() == Some(&1)
        && slot.get(9..440) == Some(FOURTH.as_slice())
        && slot.get(440..512) == ZEROS.get(..72)
}

/// Whether a slot is closed, with zeros after its gate.
fn is_blank(slot: &[u8]) -> bool {
    slot.first() != Some(&1) && slot.get(1..) == Some(ZEROS.as_slice())
}

/// Whether one slot of a disk has the image, and the other is blank.
fn has_image_alone(bytes: &[u8; 1024]) -> bool {
    let (first, second) = bytes.split_at(512);
    (has_image(first) && is_blank(second)) || (has_image(second) && is_blank(first))
}

/// Whether a terminal made anew over the disk, of which this step fails, goes on, and leaves the
/// image alone.
fn is_restarted(alloc: Global, step: u32) -> Result<bool, Fail> {
    let mut disk = stopped_disk(alloc)?;
    disk.fail_once(step);
    let mut terminal = Terminal::new(SlotCell::new(disk));
    if !goes_on(&mut terminal, step < 7) {
        return Ok(false);
    }
    let bytes = bytes_left(terminal.into_cell().into_disk())?;
    Ok(has_image_alone(&bytes))
}

/// The restart over two open slots has seven device steps.
#[test]
fn a_restart_that_fails(rt: HostRuntime) -> Result<(), Fail> {
    for step in [0, 1, 2, 3, 4, 5, 6, 1000] {
        assert!(rt; is_restarted(rt.alloc(), step)?);
    }
    Ok(())
}
