//! The device calls that write a group of items into the records of a disk.

ghost use Rattle.std.specs.Prelude.{◌≡◌, ◌+◌, ◌-◌, ◌*◌, ◌<◌, ◌≤◌, ◌^◌, length, IfErr, OnOk};
ghost use Rattle.duk_store.specs.Disk.{DiffersWithin, HasFailed, LeavesChanged, PreservesDisk, StaysArmed};
ghost use Rattle.duk_store.specs.Format.{IsFormat};
ghost use Rattle.duk_store.specs.Records.{IsGroup};
ghost use Rattle.duk_store.specs.inner.Groups.{followers_at};
ghost use Rattle.duk_store.specs.inner.GroupSteps.{ContentsFailed, GateFailed, GroupFailed, HasRecords, IsRecordWritten, LeavesOne, OpensGate, SyncsContents, WritesContents, WritesGroup};

use crate::disk::Disk;
use crate::fault::StoreFault;
use crate::format::{Format, OPEN};

/// Writes a group from a closed record on, and opens it once that is synced: the device calls of an
/// append (`Records::append`). The disk has this identity.
pub fn write_group<D: Disk, F: Format>(
    disk: &mut D,
    format: &F,
    identity: u64,
    place: u64,
    group: &[F::Item],
    piece: &mut [u8],
) -> Result<(), StoreFault>
    requires format { IsFormat (F.meaning format.now) }
    requires group { IsGroup (F.meaning format.now) group.now }
    requires room { HasRecords (F.meaning format.now).record_length place (length group.now)
        (D.meaning.state_of disk.old) }
    requires one { LeavesOne (D.meaning.state_of disk.old) }
    requires piece { (F.meaning format.now).record_length ≤ length piece.old }
    ensures written { OnOk result (WritesGroup (F.meaning format.now) identity group.now place
        (D.meaning.state_of disk.old) (D.meaning.state_of disk.new)) }
    ensures failed { IfErr result (GroupFailed (F.meaning format.now) identity group.now place
        (D.meaning.state_of disk.old) (D.meaning.state_of disk.new)) }
    ensures arming { StaysArmed (D.meaning.state_of disk.old) (D.meaning.state_of disk.new) }
{
    sync_contents(disk, format, identity, place, group, piece)?;
    open_gate(disk, format.record_length(), place)
}

/// Writes the contents of a group's records, and syncs them.
fn sync_contents<D: Disk, F: Format>(
    disk: &mut D,
    format: &F,
    identity: u64,
    place: u64,
    group: &[F::Item],
    piece: &mut [u8],
) -> Result<(), StoreFault>
    requires format { IsFormat (F.meaning format.now) }
    requires group { IsGroup (F.meaning format.now) group.now }
    requires room { HasRecords (F.meaning format.now).record_length place (length group.now)
        (D.meaning.state_of disk.old) }
    requires one { LeavesOne (D.meaning.state_of disk.old) }
    requires piece { (F.meaning format.now).record_length ≤ length piece.old }
    ensures synced { OnOk result (SyncsContents (F.meaning format.now) identity group.now place
        (D.meaning.state_of disk.old) (D.meaning.state_of disk.new)) }
    ensures failed { IfErr result (ContentsFailed (F.meaning format.now).record_length place
        (length group.now) (D.meaning.state_of disk.old) (D.meaning.state_of disk.new)) }
    ensures arming { StaysArmed (D.meaning.state_of disk.old) (D.meaning.state_of disk.new) }
{
    write_contents(disk, format, identity, place, group, piece)?;
    disk.sync()
}

/// Writes 1 into the gate of a record of so many bytes, and syncs it.
fn open_gate<D: Disk>(disk: &mut D, long: usize, place: u64) -> Result<(), StoreFault>
    requires long { 2 ≤ long }
    requires room { HasRecords long place 1 (D.meaning.state_of disk.old) }
    requires one { LeavesOne (D.meaning.state_of disk.old) }
    ensures open_now { OnOk result (OpensGate long place
        (D.meaning.state_of disk.old) (D.meaning.state_of disk.new)) }
    ensures failed { IfErr result (GateFailed long place
        (D.meaning.state_of disk.old) (D.meaning.state_of disk.new)) }
    ensures arming { StaysArmed (D.meaning.state_of disk.old) (D.meaning.state_of disk.new) }
{
    disk.write_at(byte_of(long, place, 0), &[OPEN])?;
    disk.sync()
}

/// Writes the contents of a group's records, a device call for each, by way of `piece`. All gates
/// stay as they are.
fn write_contents<D: Disk, F: Format>(
    disk: &mut D,
    format: &F,
    identity: u64,
    place: u64,
    group: &[F::Item],
    piece: &mut [u8],
) -> Result<(), StoreFault>
    requires format { IsFormat (F.meaning format.now) }
    requires group { IsGroup (F.meaning format.now) group.now }
    requires room { HasRecords (F.meaning format.now).record_length place (length group.now)
        (D.meaning.state_of disk.old) }
    requires one { LeavesOne (D.meaning.state_of disk.old) }
    requires piece { (F.meaning format.now).record_length ≤ length piece.old }
    ensures written { OnOk result (WritesContents (F.meaning format.now) identity (length group.now)
        group.now place (D.meaning.state_of disk.old) (D.meaning.state_of disk.new)) }
    ensures failed { IfErr result (ContentsFailed (F.meaning format.now).record_length place
        (length group.now) (D.meaning.state_of disk.old) (D.meaning.state_of disk.new)) }
    ensures arming { StaysArmed (D.meaning.state_of disk.old) (D.meaning.state_of disk.new) }
{
    for index in 0..group.len() {
        let followers = followers_of(group.len(), index);
        write_record(
            disk,
            format,
            identity,
            place + index as u64,
            followers,
            &group[index],
            piece,
        )?;
    }
    Ok(())
}

/// Writes the contents of a record, by way of `piece`.
fn write_record<D: Disk, F: Format>(
    disk: &mut D,
    format: &F,
    identity: u64,
    place: u64,
    followers: u16,
    item: &F::Item,
    piece: &mut [u8],
) -> Result<(), StoreFault>
    requires format { IsFormat (F.meaning format.now) }
    requires stands { (F.meaning format.now).may_stand item.now }
    requires followers_fit { followers + 1 ≤ (F.meaning format.now).most }
    requires room { HasRecords (F.meaning format.now).record_length place 1
        (D.meaning.state_of disk.old) }
    requires piece { (F.meaning format.now).record_length ≤ length piece.old }
    ensures nature { PreservesDisk (D.meaning.state_of disk.old) (D.meaning.state_of disk.new) }
    ensures torn { LeavesChanged (DiffersWithin ((F.meaning format.now).record_length * place + 1)
        ((F.meaning format.now).record_length - 1))
        (D.meaning.state_of disk.old) (D.meaning.state_of disk.new) }
    ensures written { OnOk result ((D.meaning.state_of disk.old).honest
        → IsRecordWritten (F.meaning format.now) identity place followers item.now
        (D.meaning.state_of disk.old).reads (D.meaning.state_of disk.new).reads) }
    ensures no_failure { OnOk result
        ((D.meaning.state_of disk.new).failures ≡ (D.meaning.state_of disk.old).failures) }
    ensures failed { IfErr result
        (HasFailed (D.meaning.state_of disk.old) (D.meaning.state_of disk.new)) }
    ensures arming { StaysArmed (D.meaning.state_of disk.old) (D.meaning.state_of disk.new) }
    ensures length { length piece.new ≡ length piece.old }
{
    let long = format.record_length();
    let contents = &mut piece[1..long];
    format.write(identity, place, followers, item, contents);
    disk.write_at(byte_of(long, place, 1), contents)
}

/// Where a byte of the record at a place stands.
fn byte_of(long: usize, place: u64, offset: u64) -> u64
    requires inside { offset < long }
    requires fits { long * (place + 1) < 2 ^ 64 }
    ensures { result ≡ long * place + offset }
{
    long as u64 * place + offset
}

/// How many records follow that at a place of a group of so many.
fn followers_of(count: usize, index: usize) -> u16
    requires some { 1 ≤ count }
    requires most { count ≤ 65536 }
    ensures followers { result ≡ followers_at index count }
    ensures most { result + 1 ≤ count }
{
    if index == 0 { (count - 1) as u16 } else { 0 }
}
