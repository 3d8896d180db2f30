//! Zeros over all of a disk.

ghost use Rattle.std.specs.Prelude.{◌≡◌, ◌≤◌, replicate, IfErr, OnOk};
ghost use Rattle.duk_store.specs.Disk.{HasFailed, PreservesDisk};
ghost use Rattle.duk_journal_copy.specs.Blank.{IsBlankWritten};
ghost use Rattle.duk_journal_copy.specs.inner.Blank.{AreZerosKept, AreZerosWritten, LeavesOutside};

use duk_store::{Disk, StoreFault};

/// The bytes of a piece: what is written to a disk at once.
pub const PIECE_LENGTH: usize = 65_536;

/// Writes zeros over all bytes of a disk, whatever they were, a piece of zeros at a time, and syncs
/// them. A log over it keeps nothing then.
///
/// Refused with `Device` where a device step failed.
pub fn write_blank<D: Disk>(disk: &mut D, zeros: &[u8]) -> Result<(), StoreFault>
    requires { zeros.now ≡ replicate 65536 0 }
    ensures blank { OnOk result (IsBlankWritten
        (D.meaning.state_of disk.old) (D.meaning.state_of disk.new)) }
    ensures failed { IfErr result
        (HasFailed (D.meaning.state_of disk.old) (D.meaning.state_of disk.new)) }
{
    let size = disk.size();
    write_synced(disk, zeros, 0, size)
}

/// Writes zeros over the bytes of a disk from one place to another, and syncs it.
pub(crate) fn write_synced<D: Disk>(
    disk: &mut D,
    zeros: &[u8],
    from: u64,
    to: u64,
) -> Result<(), StoreFault>
    requires zeros { zeros.now ≡ replicate 65536 0 }
    requires order { from ≤ to }
    requires inside { to ≤ (D.meaning.state_of disk.old).size }
    ensures written { OnOk result (AreZerosKept from to
        (D.meaning.state_of disk.old) (D.meaning.state_of disk.new)) }
    ensures failed { IfErr result
        (HasFailed (D.meaning.state_of disk.old) (D.meaning.state_of disk.new)) }
    ensures nature { PreservesDisk
        (D.meaning.state_of disk.old) (D.meaning.state_of disk.new) }
    ensures outside { LeavesOutside from to
        (D.meaning.state_of disk.old) (D.meaning.state_of disk.new) }
{
    write_zeros(disk, zeros, from, to)?;
    disk.sync()
}

/// Writes zeros over the bytes of a disk from one place to another.
fn write_zeros<D: Disk>(disk: &mut D, zeros: &[u8], from: u64, to: u64) -> Result<(), StoreFault>
    requires zeros { zeros.now ≡ replicate 65536 0 }
    requires order { from ≤ to }
    requires inside { to ≤ (D.meaning.state_of disk.old).size }
    ensures written { OnOk result (AreZerosWritten from to
        (D.meaning.state_of disk.old) (D.meaning.state_of disk.new)) }
    ensures failed { IfErr result
        (HasFailed (D.meaning.state_of disk.old) (D.meaning.state_of disk.new)) }
    ensures nature { PreservesDisk
        (D.meaning.state_of disk.old) (D.meaning.state_of disk.new) }
    ensures outside { LeavesOutside from to
        (D.meaning.state_of disk.old) (D.meaning.state_of disk.new) }
{
    let mut at = from;
    while at < to {
        let count = (to - at).min(PIECE_LENGTH as u64);
        disk.write_at(at, &zeros[..count as usize])?;
        at += count;
    }
    Ok(())
}
