//! The device calls on the slots of a cell's disk: to read, fill, close and wipe them.

ghost use Rattle.std.specs.Prelude.{◌≡◌, ◌+◌, ◌≤◌, ◌<◌, ◌↔◌, true, length, IfErr, IfOk, OnOk};
ghost use Rattle.duk_store.specs.Disk.{DiffersWithin, StaysArmed, written};
ghost use Rattle.duk_store.specs.SlotFormat.{cell_disk_size, slot_at};
ghost use Rattle.duk_store.specs.inner.SlotFormat.{Says};
ghost use Rattle.duk_store.specs.inner.SlotSteps.{ChangesAt, FindFailed, IsClosed, IsEmptied, IsFilled, IsFound, IsPartlyClosed, IsPartlyEmptied, IsPartlyFilled, IsPartlyWiped, IsRead, IsStepDone, IsStepFailed, IsWiped};

use crate::cell::Body;
use crate::disk::Disk;
use crate::fault::StoreFault;
use crate::slot_format::{
    CELL_DISK_SIZE, CLOSED, CONTENTS_LENGTH, OPEN, Place, SLOT_LENGTH, Slot, Slots, contents_of,
};

/// Brings the disk up and reads both slots. The disk has one possible image then.
///
/// Refused with `Device` where a device step failed, and with `Damaged` where the disk has another
/// size than two slots.
pub fn find<D: Disk>(disk: &mut D) -> Result<Slots, StoreFault>
    ensures found { IfOk result
        (IsFound (D.meaning.state_of disk.old) (D.meaning.state_of disk.new)) }
    ensures failed { IfErr result
        (FindFailed (D.meaning.state_of disk.old) (D.meaning.state_of disk.new)) }
{
    disk.restart()?;
    if disk.size() != CELL_DISK_SIZE {
        return Err(StoreFault::Damaged);
    }
    disk.sync()?;
    let first = read_slot(disk, Place::First)?;
    let second = read_slot(disk, Place::Second)?;
    Ok(Slots { first, second })
}

/// Reads a slot.
fn read_slot<D: Disk>(disk: &mut D, place: Place) -> Result<Slot, StoreFault>
    requires { (D.meaning.state_of disk.old).size ≡ cell_disk_size }
    ensures read { IfOk result
        (IsRead place (D.meaning.state_of disk.old) (D.meaning.state_of disk.new)) }
    ensures failed { IfErr result
        (IsStepFailed (◌≡◌) (D.meaning.state_of disk.old) (D.meaning.state_of disk.new)) }
{
    let mut bytes = [0; SLOT_LENGTH];
    disk.read_at(place.commit(), &mut bytes)?;
    Ok(Slot::of_bytes(&bytes))
}

/// Fills a slot, and opens it once its sequence and body are synced.
pub fn fill<D: Disk>(
    disk: &mut D,
    place: Place,
    sequence: u64,
    body: &Body,
) -> Result<(), StoreFault>
    requires { (D.meaning.state_of disk.old).size ≡ cell_disk_size }
    ensures filled { OnOk result (IsStepDone (ChangesAt place (IsFilled sequence body.now))
        (D.meaning.state_of disk.old) (D.meaning.state_of disk.new)) }
    ensures failed { IfErr result
        (IsStepFailed (ChangesAt place (IsPartlyFilled sequence body.now))
        (D.meaning.state_of disk.old) (D.meaning.state_of disk.new)) }
    ensures arming { StaysArmed (D.meaning.state_of disk.old) (D.meaning.state_of disk.new) }
{
    write_through(disk, place.commit() + 1, &contents_of(sequence, body))?;
    write_through(disk, place.commit(), &[OPEN])
}

/// Closes a slot.
pub fn close<D: Disk>(disk: &mut D, place: Place) -> Result<(), StoreFault>
    requires { (D.meaning.state_of disk.old).size ≡ cell_disk_size }
    ensures closed { OnOk result (IsStepDone (ChangesAt place IsClosed)
        (D.meaning.state_of disk.old) (D.meaning.state_of disk.new)) }
    ensures failed { IfErr result (IsStepFailed (ChangesAt place IsPartlyClosed)
        (D.meaning.state_of disk.old) (D.meaning.state_of disk.new)) }
    ensures arming { StaysArmed (D.meaning.state_of disk.old) (D.meaning.state_of disk.new) }
{
    write_through(disk, place.commit(), &[CLOSED])
}

/// Writes zeros over the sequence and the body of a slot.
pub fn wipe<D: Disk>(disk: &mut D, place: Place) -> Result<(), StoreFault>
    requires { (D.meaning.state_of disk.old).size ≡ cell_disk_size }
    ensures wiped { OnOk result (IsStepDone (ChangesAt place IsWiped)
        (D.meaning.state_of disk.old) (D.meaning.state_of disk.new)) }
    ensures failed { IfErr result (IsStepFailed (ChangesAt place IsPartlyWiped)
        (D.meaning.state_of disk.old) (D.meaning.state_of disk.new)) }
    ensures arming { StaysArmed (D.meaning.state_of disk.old) (D.meaning.state_of disk.new) }
{
    write_through(disk, place.commit() + 1, &[0; CONTENTS_LENGTH])
}

/// Empties a slot: closes it, and wipes it once that is synced.
pub fn empty<D: Disk>(disk: &mut D, place: Place) -> Result<(), StoreFault>
    requires { (D.meaning.state_of disk.old).size ≡ cell_disk_size }
    ensures emptied { OnOk result (IsStepDone (ChangesAt place IsEmptied)
        (D.meaning.state_of disk.old) (D.meaning.state_of disk.new)) }
    ensures failed { IfErr result (IsStepFailed (ChangesAt place IsPartlyEmptied)
        (D.meaning.state_of disk.old) (D.meaning.state_of disk.new)) }
    ensures arming { StaysArmed (D.meaning.state_of disk.old) (D.meaning.state_of disk.new) }
{
    close(disk, place)?;
    wipe(disk, place)
}

/// Writes bytes and syncs them.
pub fn write_through<D: Disk>(disk: &mut D, at: u64, bytes: &[u8]) -> Result<(), StoreFault>
    requires { at + length bytes.now ≤ (D.meaning.state_of disk.old).size }
    ensures through { OnOk result
        (IsStepDone (λ before after. after ≡ written before at bytes.now)
        (D.meaning.state_of disk.old) (D.meaning.state_of disk.new)) }
    ensures failed { IfErr result (IsStepFailed (DiffersWithin at (length bytes.now))
        (D.meaning.state_of disk.old) (D.meaning.state_of disk.new)) }
    ensures arming { StaysArmed (D.meaning.state_of disk.old) (D.meaning.state_of disk.new) }
{
    disk.write_at(at, bytes)?;
    disk.sync()
}
