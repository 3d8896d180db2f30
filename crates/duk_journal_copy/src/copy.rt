//! A journal that keeps what another does.

ghost use Rattle.std.specs.Prelude.{◌≡◌, ◌+◌, ◌*◌, ◌<◌, ◌≤◌, ◌^◌, length, replicate, IfErr, IfOk, OnOk};
ghost use Rattle.duk_store.specs.Disk.{HasFailed, PreservesBytes, PreservesDisk};
ghost use Rattle.duk_journal.specs.Groups.{Entries};
ghost use Rattle.duk_journal_copy.specs.Copy.{CopyFailed, IsCopied};
ghost use Rattle.duk_journal_copy.specs.InPart.{LeavesInPart};
ghost use Rattle.duk_journal_copy.specs.Version.{KeepsIn, format_of};
ghost use Rattle.duk_journal_copy.specs.inner.Blank.{LeavesOutside};
ghost use Rattle.duk_journal_copy.specs.inner.Copy.{AreRecordsCopied, IsIdentityRead, IsPieceCopied, IsRestCopied, PieceUncopied, RecordsUncopied};

use crate::begin::{HEADER_LENGTH, write_front};
use crate::blank::write_synced;
use crate::convert::{Spot, convert_records};
use crate::head::settle_head;
use crate::version::Version;
use duk_journal::{JOURNAL_KIND, RECORD_LENGTH};
use duk_store::{Disk, Format, StoreFault};

/// The records of a piece.
const PIECE_RECORDS: u64 = 2048;

/// Why a journal is not copied.
#[derive(Clone, Copy, Debug, PartialEq, Eq)]
pub enum CopyFault {
    /// A device step of the journal that is copied failed.
    Old,
    /// The journal that is copied does not keep so many entries: its disk gives other bytes than it
    /// did.
    Changed,
    /// A device step of the copy failed.
    New,
}

/// The journal that a copy is made of: the version of its format, and how many entries it keeps.
#[derive(Clone, Copy)]
pub struct Kept {
    /// The version of its format.
    pub version: Version,
    /// How many entries it keeps.
    pub count: u64,
}

/// Writes what a journal keeps over another disk, in version 2 with this identity, in the same
/// groups, and zeros over all bytes behind it, and syncs them. A journal over that disk keeps the same
/// entries then. The first two bytes are settled last, once all behind them is synced: a disk that
/// begins as that of no journal is none until they are.
///
/// Refused where a device step failed, and where the journal is another than it was.
pub fn write_copy<D: Disk, E: Disk>(
    old: &mut D,
    kept: Kept,
    new: &mut E,
    identity: u64,
    zeros: &[u8],
    piece: &mut [u8],
) -> Result<(), CopyFault>
    requires zeros { zeros.now ≡ replicate 65536 0 }
    requires piece { length piece.old ≡ 65536 }
    requires inside { 32 * ((format_of kept.version).headers + kept.count)
        ≤ (D.meaning.state_of old.old).size }
    requires room { 32 * (1 + kept.count) ≤ (E.meaning.state_of new.old).size }
    ensures copied { OnOk result (IsCopied kept identity (D.meaning.state_of old.old)
        (E.meaning.state_of new.old) (E.meaning.state_of new.new)) }
    ensures failed { IfErr result (CopyFailed kept
        (D.meaning.state_of old.old) (D.meaning.state_of old.new)
        (E.meaning.state_of new.old) (E.meaning.state_of new.new)) }
    ensures nature { PreservesDisk (D.meaning.state_of old.old) (D.meaning.state_of old.new) }
    ensures bytes { PreservesBytes (D.meaning.state_of old.old) (D.meaning.state_of old.new) }
    ensures in_part { (D.meaning.state_of old.old).honest → (entries : Entries)
        → KeepsIn kept.version (D.meaning.state_of old.old).reads entries
        → length entries ≡ kept.count
        → LeavesInPart entries (E.meaning.state_of new.old) (E.meaning.state_of new.new) }
{
    duk_journal::laws::headers();
    duk_journal::laws::one_list();
    kept.version.laws();
    let _size = old.size();
    let Ok(own) = read_identity(old, kept.version, piece) else {
        return Err(CopyFault::Old);
    };
    copy_rest(old, kept, own, new, identity, zeros, piece)?;
    match settle_head(new) {
        Ok(()) => Ok(()),
        Err(_) => Err(CopyFault::New),
    }
}

/// The identity of the disk of a journal.
fn read_identity<D: Disk>(
    disk: &mut D,
    version: Version,
    piece: &mut [u8],
) -> Result<u64, StoreFault>
    requires piece { length piece.old ≡ 65536 }
    requires inside { 32 * (format_of version).headers ≤ (D.meaning.state_of disk.old).size }
    ensures identity { IfOk result (IsIdentityRead version
        (D.meaning.state_of disk.old) (D.meaning.state_of disk.new)) }
    ensures failed { IfErr result
        (HasFailed (D.meaning.state_of disk.old) (D.meaning.state_of disk.new)) }
    ensures nature { PreservesDisk (D.meaning.state_of disk.old) (D.meaning.state_of disk.new) }
    ensures bytes { PreservesBytes (D.meaning.state_of disk.old) (D.meaning.state_of disk.new) }
    ensures length { length piece.new ≡ length piece.old }
{
    let header = &mut piece[..RECORD_LENGTH * version.headers() as usize];
    disk.read_at(0, header)?;
    Ok(version.identity(header))
}

/// Writes all of a copy but its first two bytes, and syncs it: the header, the records, and zeros
/// behind them.
fn copy_rest<D: Disk, E: Disk>(
    old: &mut D,
    kept: Kept,
    own: u64,
    new: &mut E,
    identity: u64,
    zeros: &[u8],
    piece: &mut [u8],
) -> Result<(), CopyFault>
    requires zeros { zeros.now ≡ replicate 65536 0 }
    requires piece { length piece.old ≡ 65536 }
    requires inside { 32 * ((format_of kept.version).headers + kept.count)
        ≤ (D.meaning.state_of old.old).size }
    requires room { 32 * (1 + kept.count) ≤ (E.meaning.state_of new.old).size }
    ensures copied { OnOk result (IsRestCopied kept own identity
        (D.meaning.state_of old.old) (D.meaning.state_of old.new)
        (E.meaning.state_of new.old) (E.meaning.state_of new.new)) }
    ensures failed { IfErr result (RecordsUncopied kept own
        (D.meaning.state_of old.old) (D.meaning.state_of old.new)
        (E.meaning.state_of new.old) (E.meaning.state_of new.new)) }
    ensures outside { LeavesOutside 2 (E.meaning.state_of new.old).size
        (E.meaning.state_of new.old) (E.meaning.state_of new.new) }
    ensures length { length piece.new ≡ length piece.old }
{
    duk_journal::laws::headers();
    if write_front(new, JOURNAL_KIND, identity).is_err() {
        return Err(CopyFault::New);
    }
    copy_records(old, kept, own, new, identity, piece)?;
    let end = new.size();
    match write_synced(new, zeros, HEADER_LENGTH * (1 + kept.count), end) {
        Ok(()) => Ok(()),
        Err(_) => Err(CopyFault::New),
    }
}

/// Writes the records of a journal behind the header of a copy, a piece at a time.
fn copy_records<D: Disk, E: Disk>(
    old: &mut D,
    kept: Kept,
    own: u64,
    new: &mut E,
    identity: u64,
    piece: &mut [u8],
) -> Result<(), CopyFault>
    requires piece { length piece.old ≡ 65536 }
    requires inside { 32 * ((format_of kept.version).headers + kept.count)
        ≤ (D.meaning.state_of old.old).size }
    requires room { 32 * (1 + kept.count) ≤ (E.meaning.state_of new.old).size }
    ensures copied { OnOk result (AreRecordsCopied kept.version own identity 0 kept.count
        (D.meaning.state_of old.old) (D.meaning.state_of old.new)
        (E.meaning.state_of new.old) (E.meaning.state_of new.new)) }
    ensures failed { IfErr result (RecordsUncopied kept own
        (D.meaning.state_of old.old) (D.meaning.state_of old.new)
        (E.meaning.state_of new.old) (E.meaning.state_of new.new)) }
    ensures outside { LeavesOutside 32 (32 * (1 + kept.count))
        (E.meaning.state_of new.old) (E.meaning.state_of new.new) }
    ensures length { length piece.new ≡ length piece.old }
{
    let _old_size = old.size();
    let _new_size = new.size();
    let headers = kept.version.headers();
    let mut place = 0;
    while place < kept.count {
        let count = (kept.count - place).min(PIECE_RECORDS) as usize;
        let from = Spot {
            identity: own,
            place: headers + place,
        };
        let to = Spot {
            identity,
            place: 1 + place,
        };
        let records = &mut piece[..RECORD_LENGTH * count];
        copy_piece(old, kept.version, from, new, to, count, records)?;
        place += count as u64;
    }
    Ok(())
}

/// Reads so many records of a disk from a place on into a piece, and writes them to a place of another,
/// where they say the same.
fn copy_piece<D: Disk, E: Disk>(
    old: &mut D,
    version: Version,
    from: Spot,
    new: &mut E,
    to: Spot,
    count: usize,
    records: &mut [u8],
) -> Result<(), CopyFault>
    requires whole { length records.old ≡ 32 * count }
    requires most { count ≤ 2048 }
    requires inside { 32 * (from.place + count) ≤ (D.meaning.state_of old.old).size }
    requires room { 32 * (to.place + count) ≤ (E.meaning.state_of new.old).size }
    ensures copied { OnOk result (IsPieceCopied version from to count
        (D.meaning.state_of old.old) (D.meaning.state_of old.new)
        (E.meaning.state_of new.old) (E.meaning.state_of new.new)) }
    ensures failed { IfErr result (PieceUncopied version from count
        (D.meaning.state_of old.old) (D.meaning.state_of old.new)
        (E.meaning.state_of new.old) (E.meaning.state_of new.new)) }
    ensures outside { LeavesOutside (32 * to.place) (32 * (to.place + count))
        (E.meaning.state_of new.old) (E.meaning.state_of new.new) }
    ensures length { length records.new ≡ length records.old }
{
    let _old_size = old.size();
    let _new_size = new.size();
    if old
        .read_at(RECORD_LENGTH as u64 * from.place, records)
        .is_err()
    {
        return Err(CopyFault::Old);
    }
    if convert_records(version, from, to, count, records).is_err() {
        return Err(CopyFault::Changed);
    }
    match new.write_at(RECORD_LENGTH as u64 * to.place, records) {
        Ok(()) => Ok(()),
        Err(_) => Err(CopyFault::New),
    }
}
