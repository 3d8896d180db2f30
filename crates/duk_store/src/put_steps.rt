//! The put of a cell on a disk, and its eight device calls.

ghost use Rattle.std.specs.Prelude.{◌≡◌, IfErr, OnOk};
ghost use Rattle.duk_store.specs.Disk.{StaysArmed};
ghost use Rattle.duk_store.specs.SlotFormat.{cell_disk_size};
ghost use Rattle.duk_store.specs.SlotCell.{IsReplaced};
ghost use Rattle.duk_store.specs.inner.SlotCell.{IsReadyFor, ReplaceFailed};

use crate::cell::Body;
use crate::disk::Disk;
use crate::fault::StoreFault;
use crate::slot_format::Place;
use crate::slot_steps::{empty, fill};

/// Fills the slot at `place`, and empties the other one once the new one is open.
///
/// These are the eight device calls of a put. Each is followed by what a stop before the next one
/// leaves. A restart then finds the old body, and from the fourth call on the new one.
///
/// 1. Write sequence and body of the new slot: it is closed, with any bytes after its commit byte.
/// 2. Sync: it is closed, with the new sequence and body.
/// 3. Write 01 to its commit byte: it is whole, with any commit byte. Where that is 01, the new body is found.
/// 4. Sync: it is open. The old slot is open too, with a smaller sequence.
/// 5. Write 00 to the commit byte of the old slot: that is as it was, with any commit byte. Where the write tears
///    the commit byte of an empty slot open, its sequence is 0, which is smaller.
/// 6. Sync: the old slot is closed.
/// 7. Write zeros after the commit byte of the old slot: it is closed, with any bytes after its commit byte.
/// 8. Sync: the old slot is closed and zero.
///
/// A stop in a call, or a call that fails, leaves what a stop after it, or after the one before it,
/// could leave. So the bodies never mix: a commit byte is written by itself, and opened only once
/// the body of its slot is synced.
///
/// Refused with `Device` where a device step failed.
pub fn replace<D: Disk>(
    disk: &mut D,
    place: Place,
    sequence: u64,
    body: &Body,
) -> Result<(), StoreFault>
    requires size { (D.meaning.state_of disk.old).size ≡ cell_disk_size }
    requires ready { (D.meaning.state_of disk.old).honest
        → IsReadyFor place sequence (D.meaning.state_of disk.old) }
    ensures replaced { OnOk result (IsReplaced place sequence body.now
        (D.meaning.state_of disk.old) (D.meaning.state_of disk.new)) }
    ensures failed { IfErr result (ReplaceFailed body.now
        (D.meaning.state_of disk.old) (D.meaning.state_of disk.new)) }
    ensures arming { StaysArmed (D.meaning.state_of disk.old) (D.meaning.state_of disk.new) }
{
    fill(disk, place, sequence, body)?;
    empty(disk, place.other())
}
