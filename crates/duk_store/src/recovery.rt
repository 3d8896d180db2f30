//! The restart of a cell on a disk, and its device calls.

ghost use Rattle.std.specs.Prelude.{◌≡◌, IfErr, IfOk, OnOk};
ghost use Rattle.duk_store.specs.Disk.{LeavesChanged};
ghost use Rattle.duk_store.specs.SlotFormat.{cell_disk_size};
ghost use Rattle.duk_store.specs.SlotCell.{IsRestored};
ghost use Rattle.duk_store.specs.inner.SlotCell.{IsCellBroughtUp, RecoveryFailed};
ghost use Rattle.duk_store.specs.inner.SlotSteps.{ChangesAt, IsCleared, IsPartlyCleared, IsPartlyWipedBoth, IsStepDone, IsStepFailed, IsWipedBoth, KnowsCommit};

use crate::cell::Body;
use crate::disk::Disk;
use crate::fault::StoreFault;
use crate::slot_format::{Place, SlotState};
use crate::slot_steps::{empty, find, wipe};

/// Brings a disk up as that of a cell: finds the slot that counts, and leaves nothing in the other
/// one, or in both where none counts. Answers what is known of the disk then, and what it keeps.
///
/// A restart makes these device calls:
///
/// 1. The disk's own restart. A disk of another size than 1,024 bytes is refused then.
/// 2. A sync. From here on the disk has one possible image.
/// 3. A read of each slot, the first one first.
/// 4. Each slot that does not count is emptied, the first one first. One that reads open is closed
///    and wiped, as by calls 5 to 8 of a put (`replace`). One that reads closed is wiped, as by
///    calls 7 and 8: its commit byte is never written, since a write that is torn could open it.
///
/// That is five device steps where one slot is open, and seven where both are or none is. A restart
/// that is itself stopped, at any place, leaves a disk that keeps what it kept.
///
/// Refused with `Device` where a device step failed, and with `Damaged` where the disk has another
/// size than two slots, or both are open and their sequences are equal.
pub fn recover<D: Disk>(disk: &mut D) -> Result<(SlotState, Option<Body>), StoreFault>
    ensures found { IfOk result (λ found. IsCellBroughtUp (D.meaning.state_of disk.old)
        (D.meaning.state_of disk.new) found.0 found.1) }
    ensures failed { IfErr result
        (RecoveryFailed (D.meaning.state_of disk.old) (D.meaning.state_of disk.new)) }
    ensures restored { LeavesChanged IsRestored (D.meaning.state_of disk.old)
        (D.meaning.state_of disk.new) }
{
    let slots = find(disk)?;
    let Some(place) = slots.current()? else {
        wipe_both(disk)?;
        return Ok((SlotState::Empty, None));
    };
    clear(disk, place.other(), slots.at(place.other()).is_open)?;
    let slot = slots.at(place);
    let sequence = slot.sequence;
    Ok((SlotState::Holds { place, sequence }, Some(slot.body)))
}

/// Clears a slot that does not count: empties it if it is open, and wipes it alone if it is closed.
fn clear<D: Disk>(disk: &mut D, place: Place, is_open: bool) -> Result<(), StoreFault>
    requires size { (D.meaning.state_of disk.old).size ≡ cell_disk_size }
    requires commit { (D.meaning.state_of disk.old).honest
        → KnowsCommit place is_open (D.meaning.state_of disk.old) }
    ensures cleared { OnOk result (IsStepDone (ChangesAt place IsCleared)
        (D.meaning.state_of disk.old) (D.meaning.state_of disk.new)) }
    ensures failed { IfErr result (IsStepFailed (ChangesAt place IsPartlyCleared)
        (D.meaning.state_of disk.old) (D.meaning.state_of disk.new)) }
{
    if is_open {
        empty(disk, place)
    } else {
        wipe(disk, place)
    }
}

/// Wipes both slots, the first one first.
fn wipe_both<D: Disk>(disk: &mut D) -> Result<(), StoreFault>
    requires { (D.meaning.state_of disk.old).size ≡ cell_disk_size }
    ensures wiped { OnOk result (IsStepDone IsWipedBoth
        (D.meaning.state_of disk.old) (D.meaning.state_of disk.new)) }
    ensures failed { IfErr result (IsStepFailed IsPartlyWipedBoth
        (D.meaning.state_of disk.old) (D.meaning.state_of disk.new)) }
{
    wipe(disk, Place::First)?;
    wipe(disk, Place::Second)
}
