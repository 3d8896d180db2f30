//! Laws of stores, each the contract of a function that does nothing.

ghost use Rattle.std.specs.Prelude.{◌≡◌, ◌↔◌, ◌≤◌, ◌*◌, ◌++◌, ℕ, List, [], None, Some, length, replicate};
ghost use Rattle.duk_store.specs.Cell.{Kept, PutFailed};
ghost use Rattle.duk_store.specs.CellCalls.{AreCellCalls, FindsAtMostTwo, FindsOneOf, FindsOneWhileItRuns};
ghost use Rattle.duk_store.specs.DiskLog.{IsSoundLogDisk, MayFindNumbers, disk_log_meaning, new_disk_log};
ghost use Rattle.duk_store.specs.DiskRecords.{IsHeaderOf, records_state};
ghost use Rattle.duk_store.specs.Grown.{SaysNoZeros};
ghost use Rattle.duk_store.specs.Log.{Numbers};
ghost use Rattle.duk_store.specs.LogFormat.{log_format};
ghost use Rattle.duk_store.specs.MemoryDisk.{memory_disk_meaning, memory_disk_state, new_disk, new_disk_with};
ghost use Rattle.duk_store.specs.RecordFormat.{IsLogSize, KeepsNumbers};
ghost use Rattle.duk_store.specs.Records.{IsRecordsSize, KeepsItems};
ghost use Rattle.duk_store.specs.SlotCell.{new_slot_cell, slot_cell_meaning};
ghost use Rattle.duk_store.specs.StoreState.{FindsOnly, IsNew};
ghost use Rattle.duk_store.specs.declared.fault.StoreFault.{StoreFault};

use crate::cell::Cell;
use crate::disk::Disk;
use crate::format::Format;
use crate::log_format::LogFormat;

/// A cell over a new disk in memory of 1,024 bytes is a new cell: it keeps nothing, and is honest,
/// sound and calm.
pub fn new_disk_cell()
    ensures { IsNew ((slot_cell_meaning memory_disk_meaning).state_of
        (new_slot_cell (new_disk 1024))) None }
{}

/// Records of a format without a header, over a new disk in memory of as many bytes as one or more
/// of them have, are new: they keep nothing, and are honest, sound and calm.
pub fn new_disk_records<F: Format>(format: &F)
    ensures { (F.meaning format.now).headers ≡ 0 → (records : ℕ) → 1 ≤ records
        → IsNew (records_state (F.meaning format.now) (memory_disk_state
        (new_disk ((F.meaning format.now).record_length * records))) None) [] }
{
    format.laws();
}

/// The same of a format with a header, over a new disk in memory that has one in front.
pub fn new_headed_records<F: Format>(format: &F)
    ensures { (header : List ℕ) (records : ℕ) → IsHeaderOf (F.meaning format.now) header
        → 1 ≤ records → IsNew (records_state (F.meaning format.now) (memory_disk_state
        (new_disk_with header ((F.meaning format.now).record_length * records))) None) [] }
{
    format.laws();
}

/// A log over a new disk in memory of 16 bytes for each of one or more records is a new log: it
/// keeps nothing, and is honest, sound and calm.
pub fn new_disk_log()
    ensures { (records : ℕ) → 1 ≤ records
        → IsNew ((disk_log_meaning memory_disk_meaning).state_of
        (new_disk_log (new_disk (16 * records)))) [] }
{
    new_disk_records(&LogFormat {});
}

/// What a stop could leave of an honest cell is at most two values. A put that failed leaves the old
/// body or the new one. Whatever calls are made in turn of a cell that finds one value, as a new one
/// does, a restart would find at most two values at all times, and one alone while the cell runs.
pub fn at_most_two_values<C: Cell>()
    ensures old_or_new { (old new : C) (kept : Kept) (body : List ℕ) (fault : StoreFault)
        → (C.meaning.state_of old).honest → FindsOnly (C.meaning.state_of old) kept
        → PutFailed C.meaning old new body fault
        → FindsOneOf (C.meaning.state_of new) kept (Some body) }
    ensures at_most_two { (first last : C) (after_each : List C) (kept : Kept)
        → (C.meaning.state_of first).honest → FindsOnly (C.meaning.state_of first) kept
        → AreCellCalls C.meaning first after_each last
        → FindsAtMostTwo (C.meaning.state_of last) }
    ensures one_while_it_runs { (first last : C) (after_each : List C) (kept : Kept)
        → (C.meaning.state_of first).honest → FindsOnly (C.meaning.state_of first) kept
        → AreCellCalls C.meaning first after_each last
        → FindsOneWhileItRuns (C.meaning.state_of last) }
{}

/// The bytes of a disk keep one list of items at most, in one format.
pub fn one_list<F: Format>(format: &F)
    ensures { (bytes : List ℕ) (one other : List F.Item)
        → KeepsItems (F.meaning format.now) bytes one
        → KeepsItems (F.meaning format.now) bytes other → one ≡ other }
{
    format.laws();
}

/// Bytes that keep a list keep the same one with zeros behind them, however many and whether or not
/// these are whole records: so does what a stop leaves of a disk that is made larger. And they keep
/// none then that they did not keep, where a record of zeros says nothing.
pub fn grown<F: Format>(format: &F)
    ensures keeps { (bytes : List ℕ) (items : List F.Item) (count : ℕ)
        → (F.meaning format.now).record_length ≤ length bytes
        → KeepsItems (F.meaning format.now) bytes items
        → KeepsItems (F.meaning format.now) (bytes ++ replicate count 0) items }
    ensures nothing_else { (bytes : List ℕ) (items : List F.Item) (count : ℕ)
        → SaysNoZeros (F.meaning format.now)
        → IsRecordsSize (F.meaning format.now) (length bytes)
        → KeepsItems (F.meaning format.now) (bytes ++ replicate count 0) items
        → KeepsItems (F.meaning format.now) bytes items }
{
    format.laws();
}

/// The list that bytes keep in the format of a log has the numbers of the records in front that have
/// some, where all others are closed.
pub fn log_lists()
    ensures { (bytes : List ℕ) (numbers : Numbers)
        → KeepsItems log_format bytes numbers ↔ KeepsNumbers bytes numbers }
{}

/// And so do the lists that a log may find on its disk. It is sound where it has the size of a log's,
/// and all that a stop could leave keeps such a list.
pub fn log_states<D: Disk>(_disk: &D)
    ensures found { (numbers : Numbers)
        → MayFindNumbers (D.meaning.state_of _disk.now) numbers
        ↔ ((bytes : List ℕ) × (D.meaning.state_of _disk.now).may_leave bytes
        × KeepsNumbers bytes numbers) }
    ensures size { IsSoundLogDisk (D.meaning.state_of _disk.now)
        → IsLogSize (D.meaning.state_of _disk.now).size }
    ensures each_keeps { IsSoundLogDisk (D.meaning.state_of _disk.now) → (bytes : List ℕ)
        → (D.meaning.state_of _disk.now).may_leave bytes
        → (numbers : Numbers) × KeepsNumbers bytes numbers }
    ensures sound { IsLogSize (D.meaning.state_of _disk.now).size
        → ((bytes : List ℕ) → (D.meaning.state_of _disk.now).may_leave bytes
        → (numbers : Numbers) × KeepsNumbers bytes numbers)
        → IsSoundLogDisk (D.meaning.state_of _disk.now) }
{}
