//! Makes the terminals of a configuration, over new cells.

ghost use Rattle.std.specs.Prelude.{◌≡◌, All, None, IfOk, IfErr, replicate};
ghost use Rattle.duk_net.specs.InMemory.{new_terminal};
ghost use Rattle.duk_script.specs.OnDisk.{disk_cell_meaning, new_disk_cell, new_disk_terminal};
ghost use Rattle.duk_script.specs.inner.Opening.{HasNewCell};
ghost use Rattle.duk_store.specs.MemoryCell.{memory_cell_meaning};
ghost use Rattle.duk_store.specs.StoreState.{IsNew};

use duk_config::ScriptFault;
use duk_store::{CELL_DISK_SIZE, MemCell, MemDisk, SlotCell};
use duk_term::Terminal;
use std::alloc::Global;

/// The cell of a terminal, on a disk in memory.
pub type DiskCell = SlotCell<MemDisk>;

/// So many terminals over new cells in memory. Refused with `NoMemory`.
pub(crate) fn memory_terminals(
    alloc: Global,
    count: u32,
) -> Result<Vec<Terminal<MemCell>>, ScriptFault>
    ensures made { IfOk result (λ terminals. terminals.items ≡ replicate count new_terminal) }
    ensures new { IfOk result
        (λ terminals. All (HasNewCell memory_cell_meaning) terminals.items) }
    ensures refused { IfErr result (λ why. why ≡ ScriptFault.NoMemory) }
{
    let mut terminals = Vec::new(alloc);
    for _ in 0..count {
        terminals.push(Terminal::new(MemCell::new()))?;
    }
    Ok(terminals)
}

/// So many terminals, each over a new cell on a new disk. Refused with `NoMemory`.
pub(crate) fn disk_terminals(
    alloc: Global,
    count: u32,
) -> Result<Vec<Terminal<DiskCell>>, ScriptFault>
    ensures made { IfOk result
        (λ terminals. terminals.items ≡ replicate count new_disk_terminal) }
    ensures new { IfOk result (λ terminals. All (HasNewCell disk_cell_meaning) terminals.items) }
    ensures refused { IfErr result (λ why. why ≡ ScriptFault.NoMemory) }
{
    let mut terminals = Vec::new(alloc);
    for _ in 0..count {
        terminals.push(Terminal::new(disk_cell(alloc)?))?;
    }
    Ok(terminals)
}

/// A new cell on a new disk. Refused with `NoMemory`.
pub fn disk_cell(alloc: Global) -> Result<DiskCell, ScriptFault>
    ensures made { IfOk result (λ cell. cell ≡ new_disk_cell) }
    ensures new { IfOk result (λ cell. IsNew (disk_cell_meaning.state_of cell) None) }
    ensures refused { IfErr result (λ why. why ≡ ScriptFault.NoMemory) }
{
    duk_store::laws::new_disk_cell();
    let Ok(disk) = MemDisk::new(alloc, CELL_DISK_SIZE as usize) else {
        return Err(ScriptFault::NoMemory);
    };
    Ok(SlotCell::new(disk))
}
