//! The device calls that bring a disk of records up and read it by pieces.

ghost use Rattle.std.specs.Prelude.{◌≡◌, ◌*◌, ◌+◌, ◌<◌, ◌≤◌, ◌^◌, ◌↔◌, ℕ, true, length, IfErr, IfOk, OnOk};
ghost use Rattle.duk_store.specs.Format.{IsFormat};
ghost use Rattle.duk_store.specs.Records.{HasHeader, IsRecordsSize, record_at};
ghost use Rattle.duk_store.specs.Disk.{PreservesBytes, PreservesDisk, StaysArmed};
ghost use Rattle.duk_store.specs.inner.GroupSteps.{HasRecords};
ghost use Rattle.duk_store.specs.inner.Reading.{kept_in};
ghost use Rattle.duk_store.specs.declared.reading.Reading.TheVariants.{Groups};
ghost use Rattle.duk_store.specs.inner.RecordSteps.{AreAllRead, AreRecordsRead, AreRecordsUp, HasIdentity, HeaderFailed, IsDiskOpen, OpenFailed, RecordUnread, RecordsUnread, RecordsUpFailed, StaysSame};

use crate::disk::Disk;
use crate::fault::StoreFault;
use crate::format::Format;
use crate::reading::{Reading, finish_reading, read_piece};
use crate::visitor::Visitor;

/// What a disk of records is found to be.
#[derive(Clone, Copy)]
pub struct Found {
    /// The identity that its header gives it.
    pub identity: u64,
    /// How many items it keeps.
    pub count: u64,
}

/// Brings a disk of records up, gives its items to a visitor, and counts them: the disk's own
/// restart, a test of its size, a sync, a read of the header where there is one, and reads of pieces
/// to the last record, each of as many records as `piece` takes. It writes nothing.
///
/// Refused with `Device` where a device step failed, with `Damaged` where the disk has no size of
/// the format's, or keeps no list, and as the visitor refuses.
pub fn bring_up<D: Disk, F: Format, V: Visitor<F::Item>>(
    disk: &mut D,
    format: &F,
    piece: &mut [u8],
    visitor: &mut V,
) -> Result<Found, StoreFault>
    requires format { IsFormat (F.meaning format.now) }
    requires piece { (F.meaning format.now).record_length ≤ length piece.old }
    ensures up { IfOk result (λ found. AreRecordsUp (F.meaning format.now) V.takes
        (D.meaning.state_of disk.old) (D.meaning.state_of disk.new) visitor.old visitor.new
        found.count) }
    ensures identity { IfOk result (λ found. HasIdentity (F.meaning format.now) found.identity
        (D.meaning.state_of disk.new)) }
    ensures failed { IfErr result (RecordsUpFailed (F.meaning format.now) V.takes V.refuses
        (D.meaning.state_of disk.old) (D.meaning.state_of disk.new) visitor.old) }
{
    open_disk(disk, format)?;
    let identity = read_header(disk, format, piece)?;
    let count = visit_records(disk, format, identity, piece, visitor)?;
    Ok(Found { identity, count })
}

/// Brings the disk up. It has one possible image then.
///
/// Refused with `Device` where a device step failed, and with `Damaged` where its size is no
/// positive multiple of that of a record.
fn open_disk<D: Disk, F: Format>(disk: &mut D, format: &F) -> Result<(), StoreFault>
    requires format { IsFormat (F.meaning format.now) }
    ensures open_now { OnOk result (IsDiskOpen (F.meaning format.now)
        (D.meaning.state_of disk.old) (D.meaning.state_of disk.new)) }
    ensures failed { IfErr result (OpenFailed (F.meaning format.now)
        (D.meaning.state_of disk.old) (D.meaning.state_of disk.new)) }
{
    disk.restart()?;
    if !is_records_size(format, disk.size()) {
        return Err(StoreFault::Damaged);
    }
    disk.sync()
}

/// Whether a disk of this size is one of records.
fn is_records_size<F: Format>(format: &F, size: u64) -> bool
    requires format { IsFormat (F.meaning format.now) }
    ensures { (result ≡ true) ↔ IsRecordsSize (F.meaning format.now) size }
{
    size != 0 && size % format.record_length() as u64 == 0
}

/// Reads the header, where the format has one, and the identity that it gives the disk.
///
/// Refused with `Device` where the device step failed, and with `Damaged` where it is none of the
/// format's.
fn read_header<D: Disk, F: Format>(
    disk: &mut D,
    format: &F,
    piece: &mut [u8],
) -> Result<u64, StoreFault>
    requires format { IsFormat (F.meaning format.now) }
    requires size { IsRecordsSize (F.meaning format.now) (D.meaning.state_of disk.old).size }
    requires piece { (F.meaning format.now).record_length ≤ length piece.old }
    ensures same { OnOk result
        (StaysSame (D.meaning.state_of disk.old) (D.meaning.state_of disk.new)) }
    ensures header { OnOk result ((D.meaning.state_of disk.old).honest
        → HasHeader (F.meaning format.now) (D.meaning.state_of disk.old).reads) }
    ensures identity { IfOk result (λ identity. HasIdentity (F.meaning format.now) identity
        (D.meaning.state_of disk.old)) }
    ensures failed { IfErr result (HeaderFailed (F.meaning format.now)
        (D.meaning.state_of disk.old) (D.meaning.state_of disk.new)) }
    ensures length { length piece.new ≡ length piece.old }
{
    if format.headers() == 0 {
        return Ok(format.identity(&[]));
    }
    let bytes = &mut piece[..format.record_length()];
    disk.read_at(0, bytes)?;
    if format.is_header(bytes) {
        Ok(format.identity(bytes))
    } else {
        Err(StoreFault::Damaged)
    }
}

/// Gives the items that are kept to a visitor, and counts them.
///
/// Refused with `Device` where a device step failed, with `Damaged` where the records keep no list,
/// and as the visitor refuses.
fn visit_records<D: Disk, F: Format, V: Visitor<F::Item>>(
    disk: &mut D,
    format: &F,
    identity: u64,
    piece: &mut [u8],
    visitor: &mut V,
) -> Result<u64, StoreFault>
    requires format { IsFormat (F.meaning format.now) }
    requires identity { HasIdentity (F.meaning format.now) identity (D.meaning.state_of disk.old) }
    requires size { IsRecordsSize (F.meaning format.now) (D.meaning.state_of disk.old).size }
    requires piece { (F.meaning format.now).record_length ≤ length piece.old }
    ensures read { IfOk result (AreAllRead (F.meaning format.now) V.takes
        (D.meaning.state_of disk.old) (D.meaning.state_of disk.new) visitor.old visitor.new) }
    ensures failed { IfErr result (RecordsUnread (F.meaning format.now) V.takes V.refuses
        (F.meaning format.now).headers (Groups 0 0)
        (D.meaning.state_of disk.old) (D.meaning.state_of disk.new) visitor.old) }
{
    let long = format.record_length();
    let records = disk.size() / long as u64;
    let mut reading = Reading::Groups { kept: 0, left: 0 };
    let mut place = format.headers();
    while place < records {
        let count = (records - place).min((piece.len() / long) as u64) as usize;
        let bytes = &mut piece[..long * count];
        reading = read_records(
            disk, format, identity, place, count, reading, bytes, visitor,
        )?;
        place += count as u64;
    }
    finish_reading(format, reading)
}

/// Reads the record at a place into all of `bytes`.
pub fn read_record<D: Disk>(disk: &mut D, place: u64, bytes: &mut [u8]) -> Result<(), StoreFault>
    requires { HasRecords (length bytes.old) place 1 (D.meaning.state_of disk.old) }
    ensures same { OnOk result
        (StaysSame (D.meaning.state_of disk.old) (D.meaning.state_of disk.new)) }
    ensures read { OnOk result ((D.meaning.state_of disk.old).honest
        → bytes.new ≡ record_at (length bytes.old) place (D.meaning.state_of disk.old).reads) }
    ensures failed { IfErr result
        (RecordUnread (D.meaning.state_of disk.old) (D.meaning.state_of disk.new)) }
    ensures arming { StaysArmed (D.meaning.state_of disk.old) (D.meaning.state_of disk.new) }
    ensures nature { PreservesDisk (D.meaning.state_of disk.old) (D.meaning.state_of disk.new) }
    ensures bytes { PreservesBytes (D.meaning.state_of disk.old) (D.meaning.state_of disk.new) }
    ensures length { length bytes.new ≡ length bytes.old }
{
    disk.read_at(bytes.len() as u64 * place, bytes)
}

/// Reads the records of a piece from a place on, which follow those that were read.
///
/// Refused with `Device` where the device step failed, with `Damaged` where no list of items goes on
/// so, and as the visitor refuses.
fn read_records<D: Disk, F: Format, V: Visitor<F::Item>>(
    disk: &mut D,
    format: &F,
    identity: u64,
    place: u64,
    count: usize,
    reading: Reading,
    piece: &mut [u8],
    visitor: &mut V,
) -> Result<Reading, StoreFault>
    requires format { IsFormat (F.meaning format.now) }
    requires identity { HasIdentity (F.meaning format.now) identity (D.meaning.state_of disk.old) }
    requires whole { length piece.old ≡ (F.meaning format.now).record_length * count }
    requires inside { (F.meaning format.now).record_length * (place + count)
        ≤ (D.meaning.state_of disk.old).size }
    requires size { (D.meaning.state_of disk.old).size < 2 ^ 64 }
    requires fits { kept_in reading + count < 2 ^ 63 }
    ensures read { IfOk result (AreRecordsRead (F.meaning format.now) V.takes place count reading
        (D.meaning.state_of disk.old) (D.meaning.state_of disk.new) visitor.old visitor.new) }
    ensures failed { IfErr result (RecordsUnread (F.meaning format.now) V.takes V.refuses place
        reading (D.meaning.state_of disk.old) (D.meaning.state_of disk.new) visitor.old) }
    ensures length { length piece.new ≡ length piece.old }
{
    disk.read_at(format.record_length() as u64 * place, piece)?;
    read_piece(format, identity, reading, count, piece, visitor)
}
