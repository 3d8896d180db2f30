//! A journal of entries on a disk.

ghost use Rattle.std.specs.Prelude.{◌≡◌, ◌+◌, ◌*◌, ◌≤◌, ℕ, [], true, length, IfErr, IfOk, OnOk};
ghost use Rattle.duk_store.specs.DiskRecords.{are_running, count_in};
ghost use Rattle.duk_store.specs.Listed.{GroupAppendFailed, IsGroupAppended, ListRestartFailed, ListRestarted};
ghost use Rattle.duk_store.specs.Disk.{LeavesReads, LeavesWithin, StaysArmed};
ghost use Rattle.duk_store.specs.StoreState.{IsNew, KeepsNothing};
ghost use Rattle.duk_journal.specs.DiskJournal.{IsBlankJournalDisk, IsFreshJournalDisk, disk_journal_meaning, new_disk_journal};
ghost use Rattle.duk_journal.specs.Groups.{IsGroup};

use crate::checked_format::CheckedFormat;
use crate::entry::Entry;
use crate::journal::Journal;
use duk_store::{Disk, Records, StoreFault, Visitor};
use std::alloc::Global;
use std::marker::Model;

/// The bytes of a piece: what a restart reads of the disk at once, at most.
const PIECE_LENGTH: usize = 65_536;

/// A journal on a disk of records of 32 bytes, of which the first is its header. `Records` has the
/// device calls of a restart, which reads pieces of at most 64 KiB, and of an append. Only `new`
/// takes memory, that of a piece.
#[derive(Drop)]
pub struct DiskJournal<D: Disk> {
    records: Records<D, CheckedFormat>,
    /// What a piece of the disk is read into, and contents are written from.
    piece: Vec<u8>,
}

impl<D: Disk> Model for DiskJournal<D> {
    ghost use Rattle.std.specs.Prelude.{◌≡◌, length};
    ghost use Rattle.duk_journal.specs.DiskJournal.{DiskJournalOf};

    ghost Value = { DiskJournalOf D };

    ghost view = { λ journal. journal.records };

    ghost invariant = { λ journal. length journal.piece.items ≡ 65536 };
}

impl<D: Disk> DiskJournal<D> {
    /// A stopped journal over this disk, which keeps what a journal left on it. A disk of a header
    /// (`journal_header`) and zero bytes, so many as make whole records, keeps nothing.
    ///
    /// Refused with `NoMemory` where the memory for a piece is.
    pub fn new(alloc: Global, disk: D) -> Result<Self, StoreFault>
        ensures journal { IfOk result (λ journal. journal ≡ new_disk_journal disk) }
        ensures new { IfOk result (λ journal. (identity : ℕ)
            → IsBlankJournalDisk identity (D.meaning.state_of disk)
            → IsNew ((disk_journal_meaning D.meaning).state_of journal) []) }
        ensures empty { IfOk result (λ journal. (identity : ℕ)
            → IsFreshJournalDisk identity (D.meaning.state_of disk)
            → KeepsNothing ((disk_journal_meaning D.meaning).state_of journal) []) }
        ensures refused { IfErr result (λ fault. fault ≡ StoreFault.NoMemory) }
    {
        let piece = vec![in alloc; 0; PIECE_LENGTH]?;
        let records = Records::new(disk, CheckedFormat {});
        Ok(DiskJournal { records, piece })
    }

    /// The disk, as it stands. That of a running journal has room for the header and the entries
    /// that are kept, and a stop leaves what a read of it gives.
    pub fn into_disk(self) -> D
        ensures disk { result ≡ self.disk }
        ensures inside { 32 * count_in self.kept ≤ (D.meaning.state_of result).size }
        ensures with_header { are_running self.kept ≡ true
            → 32 * (1 + count_in self.kept) ≤ (D.meaning.state_of result).size }
        ensures one { are_running self.kept ≡ true → (D.meaning.state_of result).honest
            → LeavesReads (D.meaning.state_of result) }
    {
        self.records.into_disk()
    }
}

impl<D: Disk> Journal for DiskJournal<D> {
    ghost meaning = { disk_journal_meaning D.meaning };

    fn restart<V: Visitor<Entry>>(&mut self, visitor: &mut V) -> Result<u64, StoreFault>
        ensures found { IfOk result (ListRestarted (disk_journal_meaning D.meaning) V.takes
            self.old self.new visitor.old visitor.new) }
        ensures counted { IfOk result
            (λ found. (disk_journal_meaning D.meaning).count self.new ≡ found) }
        ensures capacity { (disk_journal_meaning D.meaning).capacity self.new
            ≡ (disk_journal_meaning D.meaning).capacity self.old }
        ensures failed { IfErr result (ListRestartFailed (disk_journal_meaning D.meaning)
            V.takes V.refuses self.old self.new visitor.old) }
        ensures disarmed { (disk_journal_meaning D.meaning).disarmed self.new }
        ensures restored { LeavesWithin (D.meaning.state_of self.old.disk)
            (D.meaning.state_of self.new.disk) }
    {
        self.records.restart(&mut self.piece[..], visitor)
    }

    fn len(&self) -> u64 {
        self.records.len()
    }

    fn room(&self) -> u64 {
        self.records.room()
    }

    fn append(&mut self, group: &[Entry]) -> Result<(), StoreFault>
        requires group { IsGroup group.now }
        requires room { ((disk_journal_meaning D.meaning).state_of self.old).running ≡ true
            → (disk_journal_meaning D.meaning).count self.old + length group.now
            ≤ (disk_journal_meaning D.meaning).capacity self.old }
        ensures appended { OnOk result
            (IsGroupAppended (disk_journal_meaning D.meaning) self.old self.new group.now) }
        ensures counted { OnOk result ((disk_journal_meaning D.meaning).count self.new
            ≡ (disk_journal_meaning D.meaning).count self.old + length group.now) }
        ensures capacity { (disk_journal_meaning D.meaning).capacity self.new
            ≡ (disk_journal_meaning D.meaning).capacity self.old }
        ensures failed { IfErr result
            (GroupAppendFailed (disk_journal_meaning D.meaning) self.old self.new group.now) }
        ensures arming { StaysArmed (D.meaning.state_of self.old.disk)
            (D.meaning.state_of self.new.disk) }
    {
        self.records.append(&mut self.piece[..], group)
    }

    fn arm(&mut self, steps: u32) {
        self.records.arm(steps);
    }
}
