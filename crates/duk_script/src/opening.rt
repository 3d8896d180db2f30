//! Makes the world of a configuration, and restarts its ends.

ghost use Rattle.std.specs.Prelude.{◌≡◌, IfOk, IfErr, OnOk, length};
ghost use Rattle.duk_net.specs.InMemory.{in_memory};
ghost use Rattle.duk_net.specs.World.{meanings_of};
ghost use Rattle.duk_script.specs.OnDisk.{on_disk};
ghost use Rattle.duk_script.specs.Opening.{AreEndsBroughtUp, StartsCalm, opening};
ghost use Rattle.duk_script.specs.Play.{new_disk_world, new_memory_world};
ghost use Rattle.duk_tdes.specs.KeyBytes.{bytes_of};
ghost use Rattle.duk_tdes.specs.Tdes.{IsTdesLength};

use crate::logs::{LogOnDisk, disk_log, memory_log};
use crate::terminals::{DiskCell, disk_terminals, memory_terminals};
use duk_config::{Config, ScriptFault, new_host};
use duk_host::{Issuer, TableIssuer};
use duk_net::{Event, World, run};
use duk_store::{Cell, MemCell, MemLog, UsedLog};
use duk_tdes::Key;
use std::alloc::Global;

/// The world of a configuration over stores in memory, with its ends brought up. Refused with
/// `NoMemory`.
pub(crate) fn open_in_memory<const N: usize>(
    alloc: Global,
    lmk: &Key<N>,
    config: &Config,
) -> Result<World<N, MemCell, MemLog, TableIssuer>, ScriptFault>
    requires length { IsTdesLength N }
    requires lmk { lmk.now ≡ bytes_of config.now.lmk }
    ensures starts { IfOk result (λ _. StartsCalm in_memory (new_memory_world config.now)) }
    ensures opened { IfOk result (AreEndsBroughtUp in_memory (new_memory_world config.now)) }
    ensures refused { IfErr result (λ why. why ≡ ScriptFault.NoMemory) }
{
    let terminals = memory_terminals(alloc, config.terminals)?;
    let log = memory_log(alloc, config.log)?;
    let host = new_host(alloc, lmk, config, log)?;
    let mut world = World::new(alloc, host, config.loading, terminals);
    bring_up(alloc, &mut world, config.terminals)?;
    Ok(world)
}

/// The world of a configuration over stores on disks in memory, with its ends brought up. Refused
/// with `NoMemory`.
pub(crate) fn open_on_disk<const N: usize>(
    alloc: Global,
    lmk: &Key<N>,
    config: &Config,
) -> Result<World<N, DiskCell, LogOnDisk, TableIssuer>, ScriptFault>
    requires length { IsTdesLength N }
    requires lmk { lmk.now ≡ bytes_of config.now.lmk }
    ensures starts { IfOk result (λ _. StartsCalm on_disk (new_disk_world config.now)) }
    ensures opened { IfOk result (AreEndsBroughtUp on_disk (new_disk_world config.now)) }
    ensures refused { IfErr result (λ why. why ≡ ScriptFault.NoMemory) }
{
    let terminals = disk_terminals(alloc, config.terminals)?;
    let log = disk_log(alloc, config.log)?;
    let host = new_host(alloc, lmk, config, log)?;
    let mut world = World::new(alloc, host, config.loading, terminals);
    bring_up(alloc, &mut world, config.terminals)?;
    Ok(world)
}

/// Brings the host and all terminals of a new world up. Refused with `NoMemory`.
fn bring_up<const N: usize, C: Cell, L: UsedLog, I: Issuer>(
    alloc: Global,
    world: &mut World<N, C, L, I>,
    terminals: u32,
) -> Result<(), ScriptFault>
    requires starts { StartsCalm (meanings_of C.meaning L.meaning I.decides) world.old }
    requires count { length world.old.terminals ≡ terminals }
    ensures opened { OnOk result
        (AreEndsBroughtUp (meanings_of C.meaning L.meaning I.decides) world.old world.new) }
    ensures refused { IfErr result (λ why. why ≡ ScriptFault.NoMemory) }
{
    let events = restarts(alloc, terminals)?;
    duk_net::laws::calm_restarts::<C, L, I>();
    let mut outcomes = Vec::new(alloc);
    match run(world, events.as_slice(), &mut outcomes) {
        Ok(()) => Ok(()),
        Err(_) => Err(ScriptFault::NoMemory),
    }
}

/// The restarts of the host and of so many terminals.
fn restarts(alloc: Global, terminals: u32) -> Result<Vec<Event>, ScriptFault>
    ensures events { IfOk result (λ events. events.items ≡ opening terminals) }
    ensures refused { IfErr result (λ why. why ≡ ScriptFault.NoMemory) }
{
    let mut events = Vec::new(alloc);
    events.push(Event::RestartHost)?;
    for t in 0..terminals {
        events.push(Event::RestartTerm { t: t + 1 })?;
    }
    Ok(events)
}
