//! A log of used numbers on a disk.

ghost use Rattle.std.specs.Prelude.{◌≡◌, ◌+◌, ◌<◌, [], true, IfErr, IfOk};
ghost use Rattle.duk_store.specs.Disk.{LeavesWithin, StaysArmed};
ghost use Rattle.duk_store.specs.DiskLog.{IsBlankLogDisk, IsZeroLogDisk, disk_log_meaning, disk_log_state, new_disk_log};
ghost use Rattle.duk_store.specs.Log.{AppendFailed, IsAppended, IsReadAt, LogRestarted, ReadFailed};
ghost use Rattle.duk_store.specs.RecordFormat.{number_in};
ghost use Rattle.duk_store.specs.Restart.{RestartFailed};
ghost use Rattle.duk_store.specs.StoreState.{IsNew, KeepsNothing};

use crate::disk::Disk;
use crate::fault::StoreFault;
use crate::log::UsedLog;
use crate::log_format::{LogFormat, RECORD_LENGTH};
use crate::records::Records;
use crate::visitor::NoVisitor;
use duk_tree::Ksn;
use std::marker::Model;

/// A log on a disk of records of 16 bytes, of which those in front have the numbers kept, and all
/// others are closed.
///
/// A number is written into the first closed record, which is opened once that is synced (`append`
/// has the device calls). So a stop leaves the list without the number or with it.
#[derive(Drop)]
pub struct DiskLog<D: Disk> {
    records: Records<D, LogFormat>,
}

impl<D: Disk> Model for DiskLog<D> {
    ghost use Rattle.duk_store.specs.DiskLog.{DiskLogOf};

    ghost Value = { DiskLogOf D };

    ghost view = { λ log. log.records };
}

impl<D: Disk> DiskLog<D> {
    /// A stopped log over this disk, which keeps what a log left on it. A disk of zero bytes, so
    /// many as make whole records, keeps nothing.
    pub fn new(disk: D) -> Self
        ensures log { result ≡ new_disk_log disk }
        ensures new { IsBlankLogDisk (D.meaning.state_of disk)
            → IsNew ((disk_log_meaning D.meaning).state_of result) [] }
        ensures empty { IsZeroLogDisk (D.meaning.state_of disk)
            → KeepsNothing ((disk_log_meaning D.meaning).state_of result) [] }
    {
        DiskLog {
            records: Records::new(disk, LogFormat {}),
        }
    }

    /// The disk, as it stands.
    pub fn into_disk(self) -> D
        ensures { result ≡ self.disk }
    {
        self.records.into_disk()
    }
}

impl<D: Disk> UsedLog for DiskLog<D> {
    ghost meaning = { disk_log_meaning D.meaning };

    fn restart(&mut self) -> Result<u64, StoreFault>
        ensures found { IfOk result (LogRestarted (disk_log_meaning D.meaning) self.old self.new) }
        ensures counted { IfOk result
            (λ found. (disk_log_meaning D.meaning).count self.new ≡ found) }
        ensures capacity { (disk_log_meaning D.meaning).capacity self.new
            ≡ (disk_log_meaning D.meaning).capacity self.old }
        ensures failed { IfErr result
            (RestartFailed ((disk_log_meaning D.meaning).state_of self.old)
            ((disk_log_meaning D.meaning).state_of self.new)) }
        ensures disarmed { (disk_log_meaning D.meaning).disarmed self.new }
        ensures restored { LeavesWithin (D.meaning.state_of self.old.disk)
            (D.meaning.state_of self.new.disk) }
    {
        let mut piece = [0; RECORD_LENGTH];
        self.records.restart(&mut piece, &mut NoVisitor {})
    }

    fn len(&self) -> u64 {
        self.records.len()
    }

    fn room(&self) -> u64 {
        self.records.room()
    }

    fn at(&mut self, place: u64) -> Result<Ksn, StoreFault>
        requires { ((disk_log_meaning D.meaning).state_of self.old).running ≡ true
            → place < (disk_log_meaning D.meaning).count self.old }
        ensures read { IfOk result (IsReadAt (disk_log_meaning D.meaning) self.old self.new place) }
        ensures counted { IfOk result (λ _. (disk_log_meaning D.meaning).count self.new
            ≡ (disk_log_meaning D.meaning).count self.old) }
        ensures capacity { (disk_log_meaning D.meaning).capacity self.new
            ≡ (disk_log_meaning D.meaning).capacity self.old }
        ensures disarmed { (disk_log_meaning D.meaning).disarmed self.old
            → (disk_log_meaning D.meaning).disarmed self.new }
        ensures failed { IfErr result
            (ReadFailed (disk_log_meaning D.meaning) self.old self.new) }
        ensures arming { StaysArmed (D.meaning.state_of self.old.disk)
            (D.meaning.state_of self.new.disk) }
    {
        let mut bytes = [0; RECORD_LENGTH];
        self.records.read_record(place, &mut bytes)?;
        Ok(number_of(&bytes))
    }

    /// An append makes four device calls, on the first closed record. Each is followed by what a
    /// stop before the next one leaves of that record; all others stay as they were.
    ///
    /// 1. Write the number and its zeros: the record is closed, with any bytes after its commit
    /// byte. 2. Sync: it is closed, with the new number. 3. Write 01 to its commit byte: it is
    /// whole, with any commit byte. 4. Sync: it is open.
    ///
    /// A restart finds the list without the number until the commit byte is 01, and then with it.
    fn append(&mut self, number: Ksn) -> Result<(), StoreFault>
        requires { ((disk_log_meaning D.meaning).state_of self.old).running ≡ true
            → (disk_log_meaning D.meaning).count self.old
            < (disk_log_meaning D.meaning).capacity self.old }
        ensures appended { IfOk result
            (λ _. IsAppended (disk_log_meaning D.meaning) self.old self.new number) }
        ensures counted { IfOk result (λ _. (disk_log_meaning D.meaning).count self.new
            ≡ (disk_log_meaning D.meaning).count self.old + 1) }
        ensures capacity { (disk_log_meaning D.meaning).capacity self.new
            ≡ (disk_log_meaning D.meaning).capacity self.old }
        ensures failed { IfErr result
            (AppendFailed (disk_log_meaning D.meaning) self.old self.new number) }
        ensures arming { StaysArmed (D.meaning.state_of self.old.disk)
            (D.meaning.state_of self.new.disk) }
    {
        let mut piece = [0; RECORD_LENGTH];
        self.records.append(&mut piece, &[number])
    }

    fn arm(&mut self, steps: u32) {
        self.records.arm(steps);
    }
}

/// The number in the bytes of a record.
fn number_of(record: &[u8; RECORD_LENGTH]) -> Ksn
    ensures { result ≡ number_in «record».now }
{
    let mut number = [0; 10];
    number.copy_from_slice(&record[1..11]);
    Ksn::from_bytes(number)
}
