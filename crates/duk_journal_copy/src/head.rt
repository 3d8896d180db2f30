//! The head of a journal's disk: the first two bytes of its header, the gate of its first record and
//! the byte behind it. It is settled last, so that all the rest is whole before a disk can be taken
//! for a journal.

ghost use Rattle.std.specs.Prelude.{◌≡◌, ◌+◌, ◌<◌, ◌≤◌, slice_index, IfErr, OnErr, OnOk};
ghost use Rattle.duk_store.specs.Disk.{DiffersWithin, HasFailed, LeavesChanged, LeavesWithin, PreservesDisk};
ghost use Rattle.duk_journal_copy.specs.inner.Head.{IsByteSettled, IsHeadSettled, LeavesHeadInTurn};

use duk_store::{Disk, StoreFault};

/// The bytes of a head.
pub(crate) const HEAD_LENGTH: u64 = 2;

/// The first two bytes of a header.
const HEAD: [u8; 2] = [0x01, 0xD5];

/// Makes the head of a disk that of a header, and syncs it: first the gate, and then the byte behind
/// it.
pub(crate) fn settle_head<D: Disk>(disk: &mut D) -> Result<(), StoreFault>
    requires room { 2 ≤ (D.meaning.state_of disk.old).size }
    ensures settled { OnOk result (IsHeadSettled
        (D.meaning.state_of disk.old) (D.meaning.state_of disk.new)) }
    ensures failed { IfErr result
        (HasFailed (D.meaning.state_of disk.old) (D.meaning.state_of disk.new)) }
    ensures nature { PreservesDisk
        (D.meaning.state_of disk.old) (D.meaning.state_of disk.new) }
    ensures in_turn { LeavesHeadInTurn
        (D.meaning.state_of disk.old) (D.meaning.state_of disk.new) }
{
    settle_byte(disk, 0, HEAD[0])?;
    settle_byte(disk, 1, HEAD[1])
}

/// Makes a byte of a disk this one, and syncs it, where it is another. A right one is not written
/// again, since a stop could leave any byte in its place then.
pub(crate) fn settle_byte<D: Disk>(disk: &mut D, place: u64, byte: u8) -> Result<(), StoreFault>
    requires inside { place < (D.meaning.state_of disk.old).size }
    ensures settled { OnOk result (IsByteSettled place byte
        (D.meaning.state_of disk.old) (D.meaning.state_of disk.new)) }
    ensures failed { IfErr result
        (HasFailed (D.meaning.state_of disk.old) (D.meaning.state_of disk.new)) }
    ensures nature { PreservesDisk
        (D.meaning.state_of disk.old) (D.meaning.state_of disk.new) }
    ensures torn { LeavesChanged (DiffersWithin place 1)
        (D.meaning.state_of disk.old) (D.meaning.state_of disk.new) }
    ensures stays { slice_index (D.meaning.state_of disk.old).reads place ≡ byte
        → LeavesWithin (D.meaning.state_of disk.old) (D.meaning.state_of disk.new) }
{
    let mut there = [0];
    disk.read_at(place, &mut there)?;
    if there[0] == byte {
        return Ok(());
    }
    disk.write_at(place, &[byte])?;
    disk.sync()
}
