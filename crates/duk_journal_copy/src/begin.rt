//! A file that keeps nothing: a header in front of a disk, and zeros behind it.

ghost use Rattle.std.specs.Prelude.{◌≡◌, ◌<◌, ◌≤◌, ◌^◌, [], replicate, slice_index, IfErr, OnOk};
ghost use Rattle.duk_store.specs.Disk.{HasFailed, PreservesDisk};
ghost use Rattle.duk_journal_copy.specs.Blank.{IsFileBegun, IsJournalBegun, begun_bytes};
ghost use Rattle.duk_journal_copy.specs.InPart.{LeavesFileInPart, LeavesInPart};
ghost use Rattle.duk_journal_copy.specs.inner.Blank.{LeavesByte, LeavesOutside};
ghost use Rattle.duk_journal_copy.specs.inner.Rest.{IsFrontWritten};

use crate::blank::write_synced;
use crate::head::{HEAD_LENGTH, settle_byte, settle_head};
use duk_journal::{JOURNAL_KIND, RECORD_LENGTH, file_header};
use duk_store::{Disk, StoreFault};

/// The bytes of a header, which is a record.
pub(crate) const HEADER_LENGTH: u64 = RECORD_LENGTH as u64;

/// The place of the byte of a header that says how many bytes a record has. It is none of a log's
/// first record, which has a zero there.
const LENGTH_PLACE: usize = 15;

/// Begins the file of a journal with this identity, as `begin_file` does. A journal over it keeps
/// nothing then, and a disk that begins as that of no journal is none until it does.
///
/// Refused with `Device` where a device step failed.
pub fn write_journal<D: Disk>(disk: &mut D, identity: u64, zeros: &[u8]) -> Result<(), StoreFault>
    requires zeros { zeros.now ≡ replicate 65536 0 }
    requires room { 32 ≤ (D.meaning.state_of disk.old).size }
    ensures begun { OnOk result (IsJournalBegun identity
        (D.meaning.state_of disk.old) (D.meaning.state_of disk.new)) }
    ensures failed { IfErr result
        (HasFailed (D.meaning.state_of disk.old) (D.meaning.state_of disk.new)) }
    ensures in_part { LeavesInPart []
        (D.meaning.state_of disk.old) (D.meaning.state_of disk.new) }
{
    duk_journal::laws::headers();
    begin_file(disk, JOURNAL_KIND, identity, zeros)
}

/// Writes a header of this kind and with this identity in front of a disk, and zeros over all bytes
/// behind it, and syncs them. The first two bytes are settled last, once all behind them is synced: a
/// disk that begins as that of no file of ours is none until they are.
///
/// Refused with `Device` where a device step failed.
pub fn begin_file<D: Disk>(
    disk: &mut D,
    kind: u8,
    identity: u64,
    zeros: &[u8],
) -> Result<(), StoreFault>
    requires zeros { zeros.now ≡ replicate 65536 0 }
    requires room { 32 ≤ (D.meaning.state_of disk.old).size }
    ensures begun { OnOk result (IsFileBegun kind identity
        (D.meaning.state_of disk.old) (D.meaning.state_of disk.new)) }
    ensures failed { IfErr result
        (HasFailed (D.meaning.state_of disk.old) (D.meaning.state_of disk.new)) }
    ensures in_part { LeavesFileInPart
        (begun_bytes kind identity (D.meaning.state_of disk.old).size)
        (D.meaning.state_of disk.old) (D.meaning.state_of disk.new) }
    ensures identity_fits { identity < 2 ^ 64 }
{
    duk_journal::laws::headers();
    let size = disk.size();
    write_front(disk, kind, identity)?;
    write_synced(disk, zeros, HEADER_LENGTH, size)?;
    settle_head(disk)
}

/// Writes a header of this kind and with this identity in front of a disk, but for its first two
/// bytes. The byte that says how many bytes a record has is not written again where it is right.
pub(crate) fn write_front<D: Disk>(disk: &mut D, kind: u8, identity: u64) -> Result<(), StoreFault>
    requires room { 32 ≤ (D.meaning.state_of disk.old).size }
    ensures written { OnOk result (IsFrontWritten kind identity
        (D.meaning.state_of disk.old) (D.meaning.state_of disk.new)) }
    ensures failed { IfErr result
        (HasFailed (D.meaning.state_of disk.old) (D.meaning.state_of disk.new)) }
    ensures nature { PreservesDisk
        (D.meaning.state_of disk.old) (D.meaning.state_of disk.new) }
    ensures outside { LeavesOutside 2 32
        (D.meaning.state_of disk.old) (D.meaning.state_of disk.new) }
    ensures stays { slice_index (D.meaning.state_of disk.old).reads 15 ≡ 32
        → LeavesByte 15 (D.meaning.state_of disk.old) (D.meaning.state_of disk.new) }
    ensures fits { identity < 2 ^ 64 }
{
    duk_journal::laws::headers();
    let header = file_header(kind, identity);
    let bytes = header.as_slice();
    settle_byte(disk, LENGTH_PLACE as u64, RECORD_LENGTH as u8)?;
    disk.write_at(HEAD_LENGTH, &bytes[HEAD_LENGTH as usize..LENGTH_PLACE])?;
    disk.write_at(LENGTH_PLACE as u64 + 1, &bytes[LENGTH_PLACE + 1..])
}
