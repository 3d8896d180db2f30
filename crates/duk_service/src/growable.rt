//! Whether the bytes of a disk are such as a log or a journal of ours leaves in its file, or a stop as
//! that is made larger.

ghost use Rattle.std.specs.Prelude.{◌≡◌, ◌+◌, ◌<◌, ◌≤◌, IfErr, IfOk, OnOk};
ghost use Rattle.duk_store.specs.Disk.{HasFailed, PreservesBytes, PreservesDisk, StaysArmed};
ghost use Rattle.duk_service.specs.inner.GrowJournal.{AreSeenZeros, IsSeenToGrow};

use crate::left_records::{Layout, Seen, has_front, look_at_records};
use duk_store::{Disk, StoreFault};

/// Whether a file with the bytes of a disk is a log or a journal, or one that a stop left as it was
/// made longer: behind whole records such as one leaves may stand zeros that are less than a record.
///
/// Refused with `Device` where a device step failed.
pub(crate) fn may_be_grown<D: Disk>(disk: &mut D, layout: Layout) -> Result<bool, StoreFault>
    ensures seen { IfOk result (IsSeenToGrow layout (D.meaning.state_of disk.new)) }
    ensures nature { PreservesDisk (D.meaning.state_of disk.old) (D.meaning.state_of disk.new) }
    ensures arming { StaysArmed (D.meaning.state_of disk.old) (D.meaning.state_of disk.new) }
    ensures bytes { PreservesBytes (D.meaning.state_of disk.old) (D.meaning.state_of disk.new) }
    ensures no_failure { OnOk result
        ((D.meaning.state_of disk.new).failures ≡ (D.meaning.state_of disk.old).failures) }
    ensures failed { IfErr result
        (HasFailed (D.meaning.state_of disk.old) (D.meaning.state_of disk.new)) }
{
    let length = layout.record_length() as u64;
    let size = disk.size();
    let records = size / length;
    let whole = length * records;
    if records == 0 {
        return Ok(false);
    }
    if !has_front(disk, layout)? {
        return Ok(false);
    }
    if !are_zeros(disk, whole, (size - whole) as usize)? {
        return Ok(false);
    }
    match look_at_records(disk, layout, records)? {
        Seen::Left => Ok(true),
        Seen::Empty => Ok(false),
        Seen::Cut => Ok(false),
        Seen::OtherFront => Ok(false),
        Seen::Foreign(_) => Ok(false),
    }
}

/// Whether so many bytes of a disk from a place on, less than a record has, are zeros.
fn are_zeros<D: Disk>(disk: &mut D, at: u64, count: usize) -> Result<bool, StoreFault>
    requires inside { at + count ≤ (D.meaning.state_of disk.old).size }
    requires few { count < 32 }
    ensures are { IfOk result (AreSeenZeros at count (D.meaning.state_of disk.new)) }
    ensures nature { PreservesDisk (D.meaning.state_of disk.old) (D.meaning.state_of disk.new) }
    ensures arming { StaysArmed (D.meaning.state_of disk.old) (D.meaning.state_of disk.new) }
    ensures bytes { PreservesBytes (D.meaning.state_of disk.old) (D.meaning.state_of disk.new) }
    ensures no_failure { OnOk result
        ((D.meaning.state_of disk.new).failures ≡ (D.meaning.state_of disk.old).failures) }
    ensures failed { IfErr result
        (HasFailed (D.meaning.state_of disk.old) (D.meaning.state_of disk.new)) }
{
    if count == 0 {
        return Ok(true);
    }
    let mut bytes = [0; 32];
    let rest = &mut bytes[..count];
    disk.read_at(at, rest)?;
    Ok(rest.iter().all(|byte| *byte == 0))
}
