//! Disks in memory that fail, and cells and logs over them.

ghost use Rattle.std.specs.Prelude.{◌≡◌, [], ℕ, List, ◌↔◌, IfOk, length, replicate};
ghost use Rattle.duk_host.specs.Table.{table_decision};
ghost use Rattle.duk_net.specs.First.{IsNewTerminal, IsUnused};
ghost use Rattle.duk_net.specs.World.{meanings_of};
ghost use Rattle.duk_store.specs.DiskLog.{disk_log_meaning};
ghost use Rattle.duk_store.specs.MemoryDisk.{CouldLeave, IsHonestDisk, memory_disk_meaning};
ghost use Rattle.duk_store.specs.SlotCell.{slot_cell_meaning};

use crate::texts::number;
use crate::trouble::Trouble;
use duk_store::{CELL_DISK_SIZE, Disk, DiskLog, Filling, MemDisk, SlotCell, StoreFault};
use duk_term::Terminal;
use hex::FromHex;
use std::alloc::Global;

/// A terminal over a cell on a disk.
pub type DiskTerminal = Terminal<SlotCell<MemDisk>>;

/// What a disk does: what its restart leaves of what was not synced, and how many of its device
/// steps pass before one fails.
#[derive(Clone, Copy)]
pub struct Habit {
    filling: Filling,
    passes: u32,
}

impl Habit {
    /// That of a disk of which no step fails.
    pub const CALM: Habit = Habit {
        filling: Filling::Old,
        passes: u32::MAX,
    };

    /// The habit of these tokens.
    pub fn of_tokens(filling: &str, passes: &str) -> Result<Habit, Trouble> {
        Ok(Habit {
            filling: filling_of(filling)?,
            passes: number(passes)?,
        })
    }
}

/// `old`, `new`, or a byte in hexadecimal.
pub fn filling_of(token: &str) -> Result<Filling, Trouble> {
    match token {
        "old" => Ok(Filling::Old),
        "new" => Ok(Filling::New),
        _ => match <[u8; 1] as FromHex>::from_hex(token) {
            Ok(byte) => Ok(Filling::Fill(byte[0])),
            Err(_) => Err(Trouble::NotAStep),
        },
    }
}

/// A new disk of so many bytes.
fn new_disk(alloc: Global, size: usize, habit: Habit) -> Result<MemDisk, StoreFault>
    ensures honest { IfOk result (λ disk. IsHonestDisk disk) }
    ensures size { IfOk result (λ disk. length disk.reads ≡ size) }
    ensures zeros { IfOk result (λ disk. (bytes : List ℕ)
        → CouldLeave disk bytes ↔ (bytes ≡ replicate size 0)) }
{
    let mut disk = MemDisk::new(alloc, size)?;
    disk.filling(habit.filling);
    disk.fail_once(habit.passes);
    Ok(disk)
}

/// A disk that holds these bytes.
pub fn disk_of(alloc: Global, bytes: &[u8], habit: Habit) -> Result<MemDisk, StoreFault> {
    let mut disk = MemDisk::new(alloc, bytes.len())?;
    disk.write_at(0, bytes)?;
    disk.sync()?;
    disk.filling(habit.filling);
    disk.fail_once(habit.passes);
    Ok(disk)
}

/// A terminal over a new disk.
pub fn new_terminal(alloc: Global, habit: Habit) -> Result<DiskTerminal, StoreFault>
    ensures { IfOk result (IsNewTerminal (meanings_of
        (slot_cell_meaning memory_disk_meaning)
        (disk_log_meaning memory_disk_meaning) table_decision)) }
{
    let disk = new_disk(alloc, CELL_DISK_SIZE as usize, habit)?;
    Ok(Terminal::new(SlotCell::new(disk)))
}

/// A log for so many numbers, one at least, over a new disk.
pub fn new_log(alloc: Global, room: u32, habit: Habit) -> Result<DiskLog<MemDisk>, StoreFault>
    ensures { IfOk result (λ log.
        IsUnused ((disk_log_meaning memory_disk_meaning).state_of log) []) }
{
    if room == 0 {
        return Err(StoreFault::Damaged);
    }
    let disk = new_disk(alloc, 16 * room as usize, habit)?;
    Ok(DiskLog::new(disk))
}
