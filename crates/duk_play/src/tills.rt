//! Makes the tills of a configuration, over new cells.

ghost use Rattle.std.specs.Prelude.{◌≡◌, All, IfOk, IfErr, replicate};
ghost use Rattle.duk_play.specs.Opening.{new_disk_till, new_memory_till};
ghost use Rattle.duk_play.specs.inner.Opening.{HasNewCells};
ghost use Rattle.duk_script.specs.OnDisk.{disk_cell_meaning};
ghost use Rattle.duk_store.specs.MemoryCell.{memory_cell_meaning};

use duk_config::ScriptFault;
use duk_script::{DiskCell, disk_cell};
use duk_store::MemCell;
use duk_till::Till;
use std::alloc::Global;

/// So many tills over new cells in memory. Refused with `NoMemory`.
pub(crate) fn memory_tills(
    alloc: Global,
    count: u32,
) -> Result<Vec<Till<MemCell, MemCell>>, ScriptFault>
    ensures made { IfOk result (λ tills. tills.items ≡ replicate count new_memory_till) }
    ensures new { IfOk result
        (λ tills. All (HasNewCells memory_cell_meaning memory_cell_meaning) tills.items) }
    ensures refused { IfErr result (λ why. why ≡ ScriptFault.NoMemory) }
{
    let mut tills = Vec::new(alloc);
    for _ in 0..count {
        tills.push(Till::new(MemCell::new(), MemCell::new()))?;
    }
    Ok(tills)
}

/// So many tills, each over two new cells on new disks. Refused with `NoMemory`.
pub(crate) fn disk_tills(
    alloc: Global,
    count: u32,
) -> Result<Vec<Till<DiskCell, DiskCell>>, ScriptFault>
    ensures made { IfOk result (λ tills. tills.items ≡ replicate count new_disk_till) }
    ensures new { IfOk result
        (λ tills. All (HasNewCells disk_cell_meaning disk_cell_meaning) tills.items) }
    ensures refused { IfErr result (λ why. why ≡ ScriptFault.NoMemory) }
{
    let mut tills = Vec::new(alloc);
    for _ in 0..count {
        tills.push(Till::new(disk_cell(alloc)?, disk_cell(alloc)?))?;
    }
    Ok(tills)
}
