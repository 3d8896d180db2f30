//! A list of items in the records of a disk, and the device calls of an append.

ghost use Rattle.std.specs.Prelude.{◌≡◌, ◌+◌, ◌*◌, ◌<◌, ◌≤◌, ℕ, List, [], true, length, IfErr, IfOk, OnOk};
ghost use Rattle.duk_store.specs.Disk.{LeavesReads, LeavesWithin, PreservesBytes, PreservesDisk, StaysArmed};
ghost use Rattle.duk_store.specs.StoreState.{IsNew, KeepsNothing, StaysButCalm};
ghost use Rattle.duk_store.specs.DiskRecords.{IsBlankDisk, IsEmptyDisk, IsFreshDisk, IsZeroDisk, are_running, count_in, new_records, records_meaning};
ghost use Rattle.duk_store.specs.Listed.{CountsFound, GroupAppendFailed, IsGroupAppended, IsItemRead, ItemReadFailed, ListRestartFailed, ListRestarted, length_of, room_of};
ghost use Rattle.duk_store.specs.Records.{HasContents, IsGroup, identity_in};

use crate::disk::Disk;
use crate::fault::StoreFault;
use crate::format::Format;
use crate::group_steps::write_group;
use crate::record_steps::{bring_up, read_record};
use crate::visitor::Visitor;
use std::marker::Model;

/// A list of items in the records of a disk, which are of one format. Groups of them stand one after
/// the other behind the header, and all others are closed.
///
/// A group is written into closed records, and its first record is opened once they are synced
/// (`append` has the device calls). So a stop leaves the list without the group or with all of it.
///
/// They take no memory: the calls that read or write records are given a piece of it, of one record
/// at least. A restart reads as many records at once as go into the piece.
#[derive(Drop)]
pub struct Records<D: Disk, F: Format> {
    disk: D,
    format: F,
    /// The identity that the header gives the disk, while the records run.
    identity: u64,
    /// How many items are kept, while the records run.
    kept: Option<u64>,
}

impl<D: Disk, F: Format> Model for Records<D, F> {
    ghost use Rattle.duk_store.specs.DiskRecords.{RecordsOf};
    ghost use Rattle.duk_store.specs.Format.{IsFormat};
    ghost use Rattle.duk_store.specs.inner.RecordSteps.{KnowsRecords};

    ghost Value = { RecordsOf D F };

    ghost view = { λ records. record {
      disk = records.disk;
      format = records.format;
      kept = records.kept;
    } };

    ghost invariant = { λ records. IsFormat (F.meaning records.format)
        × KnowsRecords (F.meaning records.format) records.identity
        (D.meaning.state_of records.disk) records.kept };
}

impl<D: Disk, F: Format> Records<D, F> {
    /// Stopped records over this disk, which keep what was left on it in this format.
    pub fn new(disk: D, format: F) -> Self
        ensures records { result ≡ new_records disk format }
        ensures new { IsBlankDisk (F.meaning format) (D.meaning.state_of disk)
            → IsNew ((records_meaning D.meaning F.meaning).state_of result) [] }
        ensures empty { IsEmptyDisk (F.meaning format) (D.meaning.state_of disk)
            → KeepsNothing ((records_meaning D.meaning F.meaning).state_of result) [] }
        ensures zeros { (F.meaning format).headers ≡ 0
            → IsZeroDisk (F.meaning format) (D.meaning.state_of disk)
            → IsEmptyDisk (F.meaning format) (D.meaning.state_of disk) }
        ensures fresh { (header : List ℕ)
            → IsFreshDisk (F.meaning format) header (D.meaning.state_of disk)
            → IsEmptyDisk (F.meaning format) (D.meaning.state_of disk) }
    {
        format.laws();
        Records {
            disk,
            format,
            identity: 0,
            kept: None,
        }
    }

    /// The disk, as it stands. That of running records has room for the items that are kept, and a
    /// stop leaves what a read of it gives.
    pub fn into_disk(self) -> D
        ensures disk { result ≡ self.disk }
        ensures inside { are_running self.kept ≡ true → (F.meaning self.format).record_length
            * ((F.meaning self.format).headers + count_in self.kept)
            ≤ (D.meaning.state_of result).size }
        ensures one { are_running self.kept ≡ true → (D.meaning.state_of result).honest
            → LeavesReads (D.meaning.state_of result) }
    {
        self.disk
    }

    /// Their format.
    pub fn format(&self) -> &F
        ensures { result.now ≡ self.now.format }
    {
        &self.format
    }

    /// Brings the records up, gives each item that is kept to a visitor, in order, and reports how
    /// many these are. It disarms first. `piece` is what the records are read into.
    ///
    /// Refused with `Device` where a device step failed, with `Damaged` where the disk holds what
    /// no records of this format leave, and as the visitor refuses. The records are stopped then.
    pub fn restart<V: Visitor<F::Item>>(
        &mut self,
        piece: &mut [u8],
        visitor: &mut V,
    ) -> Result<u64, StoreFault>
        requires piece { (F.meaning self.old.format).record_length ≤ length piece.old }
        ensures found { IfOk result (ListRestarted (records_meaning D.meaning F.meaning) V.takes
            self.old self.new visitor.old visitor.new) }
        ensures counted { IfOk result
            (λ found. (records_meaning D.meaning F.meaning).count self.new ≡ found) }
        ensures capacity { (records_meaning D.meaning F.meaning).capacity self.new
            ≡ (records_meaning D.meaning F.meaning).capacity self.old }
        ensures size { (D.meaning.state_of self.new.disk).size
            ≡ (D.meaning.state_of self.old.disk).size }
        ensures failed { IfErr result (ListRestartFailed (records_meaning D.meaning F.meaning)
            V.takes V.refuses self.old self.new visitor.old) }
        ensures disarmed { (records_meaning D.meaning F.meaning).disarmed self.new }
        ensures restored { LeavesWithin (D.meaning.state_of self.old.disk)
            (D.meaning.state_of self.new.disk) }
        ensures format { self.new.format ≡ self.old.format }
    {
        self.kept = None;
        let found = bring_up(&mut self.disk, &self.format, piece, visitor)?;
        self.identity = found.identity;
        self.kept = Some(found.count);
        Ok(found.count)
    }

    /// How many items are kept; none while the records are stopped. Of an honest disk, so many are
    /// those that a restart would find.
    pub fn len(&self) -> u64
        ensures counted { result ≡ length_of (records_meaning D.meaning F.meaning) self.now }
        ensures found { CountsFound (records_meaning D.meaning F.meaning) self.now }
    {
        match self.kept {
            None => 0,
            Some(count) => count,
        }
    }

    /// For how many more there is room; none while the records are stopped.
    pub fn room(&self) -> u64
        ensures { result ≡ room_of (records_meaning D.meaning F.meaning) self.now }
    {
        match self.kept {
            None => 0,
            Some(count) => {
                self.disk.size() / self.format.record_length() as u64
                    - self.format.headers()
                    - count
            }
        }
    }

    /// Reads the record of the item at a place of the list, counted from 0, into all of `bytes`. No
    /// byte of the disk changes, also where this fails.
    ///
    /// Refused with `Stopped` where the records are stopped, which changes nothing, and with
    /// `Device` where a device step failed, which stops them.
    pub fn read_record(&mut self, place: u64, bytes: &mut [u8]) -> Result<(), StoreFault>
        requires whole { length bytes.old ≡ (F.meaning self.old.format).record_length }
        requires kept { are_running self.old.kept ≡ true
            → place < (records_meaning D.meaning F.meaning).count self.old }
        ensures read { OnOk result (IsItemRead (records_meaning D.meaning F.meaning)
            (λ item. (followers : ℕ) × HasContents (F.meaning self.old.format)
            (identity_in (F.meaning self.old.format) (D.meaning.state_of self.old.disk).reads)
            ((F.meaning self.old.format).headers + place) followers item bytes.new)
            self.old self.new place) }
        ensures counted { OnOk result ((records_meaning D.meaning F.meaning).count self.new
            ≡ (records_meaning D.meaning F.meaning).count self.old) }
        ensures capacity { (records_meaning D.meaning F.meaning).capacity self.new
            ≡ (records_meaning D.meaning F.meaning).capacity self.old }
        ensures disarmed { (records_meaning D.meaning F.meaning).disarmed self.old
            → (records_meaning D.meaning F.meaning).disarmed self.new }
        ensures failed { IfErr result (ItemReadFailed (records_meaning D.meaning F.meaning)
            self.old self.new) }
        ensures arming { StaysArmed (D.meaning.state_of self.old.disk)
            (D.meaning.state_of self.new.disk) }
        ensures nature { PreservesDisk (D.meaning.state_of self.old.disk)
            (D.meaning.state_of self.new.disk) }
        ensures bytes { PreservesBytes (D.meaning.state_of self.old.disk)
            (D.meaning.state_of self.new.disk) }
        ensures format { self.new.format ≡ self.old.format }
        ensures length { length bytes.new ≡ length bytes.old }
    {
        let Some(count) = self.kept else {
            return Err(StoreFault::Stopped);
        };
        self.kept = None;
        read_record(&mut self.disk, self.format.headers() + place, bytes)?;
        self.kept = Some(count);
        Ok(())
    }

    /// Appends items together, as many as a group of the format may have, which may stand. `room`
    /// says whether there is place for them, and `piece` is what their records are written from.
    ///
    /// An append makes a device call for each record of the group, and three more. Each is followed
    /// by what a stop before the next one leaves of these records; all others stay as they were.
    ///
    /// 1. Write the contents of each record: all are closed, with any bytes after their gates. 2.
    /// Sync: they are closed, with the new items. 3. Write 1 into the gate of the first: it has any
    /// gate. 4. Sync: it is open, and the group with it.
    ///
    /// A restart finds the list without the group until that gate is 1, and then with all of it.
    ///
    /// Refused with `Stopped` where the records are stopped, which changes nothing, and with
    /// `Device` where a device step failed, which stops them.
    pub fn append(&mut self, piece: &mut [u8], group: &[F::Item]) -> Result<(), StoreFault>
        requires piece { (F.meaning self.old.format).record_length ≤ length piece.old }
        requires group { IsGroup (F.meaning self.old.format) group.now }
        requires room { are_running self.old.kept ≡ true
            → (records_meaning D.meaning F.meaning).count self.old + length group.now
            ≤ (records_meaning D.meaning F.meaning).capacity self.old }
        ensures appended { OnOk result (IsGroupAppended (records_meaning D.meaning F.meaning)
            self.old self.new group.now) }
        ensures counted { OnOk result ((records_meaning D.meaning F.meaning).count self.new
            ≡ (records_meaning D.meaning F.meaning).count self.old + length group.now) }
        ensures capacity { (records_meaning D.meaning F.meaning).capacity self.new
            ≡ (records_meaning D.meaning F.meaning).capacity self.old }
        ensures failed { IfErr result (GroupAppendFailed (records_meaning D.meaning F.meaning)
            self.old self.new group.now) }
        ensures arming { StaysArmed (D.meaning.state_of self.old.disk)
            (D.meaning.state_of self.new.disk) }
        ensures format { self.new.format ≡ self.old.format }
    {
        let Some(count) = self.kept else {
            return Err(StoreFault::Stopped);
        };
        self.kept = None;
        let place = self.format.headers() + count;
        write_group(
            &mut self.disk,
            &self.format,
            self.identity,
            place,
            group,
            piece,
        )?;
        self.kept = Some(count + group.len() as u64);
        Ok(())
    }

    /// Lets the next `steps` device steps pass and each later one fail, until a restart.
    pub fn arm(&mut self, steps: u32)
        ensures stays { StaysButCalm ((records_meaning D.meaning F.meaning).state_of self.old)
            ((records_meaning D.meaning F.meaning).state_of self.new) }
        ensures counted { (records_meaning D.meaning F.meaning).count self.new
            ≡ (records_meaning D.meaning F.meaning).count self.old }
        ensures capacity { (records_meaning D.meaning F.meaning).capacity self.new
            ≡ (records_meaning D.meaning F.meaning).capacity self.old }
        ensures armed { (records_meaning D.meaning F.meaning).arms self.old steps self.new }
        ensures format { self.new.format ≡ self.old.format }
    {
        self.disk.arm(steps);
    }
}
