//! Worlds of three terminals over disks.

ghost use Rattle.std.specs.Prelude.{All, IfOk};
ghost use Rattle.duk_host.specs.Table.{table_decision};
ghost use Rattle.duk_net.specs.First.{IsNewHost, IsNewTerminal};
ghost use Rattle.duk_net.specs.World.{meanings_of};
ghost use Rattle.duk_store.specs.DiskLog.{disk_log_meaning};
ghost use Rattle.duk_store.specs.MemoryDisk.{memory_disk_meaning};
ghost use Rattle.duk_store.specs.SlotCell.{slot_cell_meaning};

use crate::disks::{DiskTerminal, Habit, new_log, new_terminal};
use crate::host::{DiskHost, new_host};
use crate::texts::{Reported, done, next, number, serial, yes_or_no};
use crate::trouble::Trouble;
use duk_config::read_config;
use duk_frame::Frame;
use duk_host::TableIssuer;
use duk_net::{Event, Outcome, World, run};
use duk_script::{outcome_line, parse_script};
use duk_store::{DiskLog, MemDisk, SlotCell};
use std::alloc::Global;
use std::str;

/// A world over stores on disks.
pub type DiskWorld = World<16, SlotCell<MemDisk>, DiskLog<MemDisk>, TableIssuer>;

/// Three terminals over new disks.
fn new_terminals(alloc: Global, habits: [Habit; 3]) -> Result<Vec<DiskTerminal>, Trouble>
    ensures { IfOk result (λ terminals. All (IsNewTerminal (meanings_of
        (slot_cell_meaning memory_disk_meaning)
        (disk_log_meaning memory_disk_meaning) table_decision)) terminals.items) }
{
    let [first, second, third] = habits;
    let mut terminals = Vec::new(alloc);
    terminals.push(new_terminal(alloc, first)?)?;
    terminals.push(new_terminal(alloc, second)?)?;
    terminals.push(new_terminal(alloc, third)?)?;
    Ok(terminals)
}

/// A host of a configuration over a log for so many numbers on a new disk.
fn unused_host(alloc: Global, config: &[u8], room: u32, habit: Habit) -> Result<DiskHost, Trouble>
    ensures { IfOk result (IsNewHost (meanings_of
        (slot_cell_meaning memory_disk_meaning)
        (disk_log_meaning memory_disk_meaning) table_decision)) }
{
    let log = new_log(alloc, room, habit)?;
    new_host(alloc, config, log)
}

/// A world of a configuration over stores on new disks.
pub fn new_world(
    alloc: Global,
    config: &[u8],
    of_host: Habit,
    of_terminals: [Habit; 3],
) -> Result<DiskWorld, Trouble> {
    let settings = read_config(alloc, config)?;
    let host = unused_host(alloc, config, settings.log, of_host)?;
    let terminals = new_terminals(alloc, of_terminals)?;
    Ok(World::new(alloc, host, settings.loading, terminals))
}

/// Makes a world, or does something in it.
pub fn take_world_step(
    alloc: Global,
    config: &[u8],
    world: &mut Option<DiskWorld>,
    step: &str,
) -> Reported {
    let tokens: Vec<&str> = step.split(' ').collect(alloc)?;
    match tokens.as_slice() {
        ["new", h, hp, a, ap, b, bp, c, cp] => {
            let of_host = Habit::of_tokens(h, hp)?;
            let first = Habit::of_tokens(a, ap)?;
            let second = Habit::of_tokens(b, bp)?;
            let third = Habit::of_tokens(c, cp)?;
            *world = Some(new_world(alloc, config, of_host, [first, second, third])?);
            done(alloc, "ready")
        }
        tokens => act(
            alloc,
            world.as_mut().ok_or(Trouble::NotAStep)?,
            tokens,
            step,
        ),
    }
}

/// Reports something of a world, or lets events happen in it: those of a script's lines, with `;`
/// in place of their ends.
fn act(alloc: Global, world: &mut DiskWorld, tokens: &[&str], step: &str) -> Reported {
    match tokens {
        ["requests"] => frames_text(alloc, world.requests()),
        ["answers"] => frames_text(alloc, world.answers()),
        ["next", place] => match world.terminals().get(number(place)? as usize) {
            Some(terminal) => next(alloc, terminal.next()),
            None => Err(Trouble::NotAStep),
        },
        ["is-used", ksn] => yes_or_no(alloc, world.host().is_used(serial(ksn)?)),
        _ => happen(alloc, world, step),
    }
}

/// Lets events happen in one call, and reports their outcomes, each with `;` after it.
fn happen(alloc: Global, world: &mut DiskWorld, step: &str) -> Reported {
    let script = step.replace(alloc, ';', "\n")?;
    let events = parse_script(alloc, script.as_bytes())?;
    let mut outcomes = Vec::new(alloc);
    if run(world, events.as_slice(), &mut outcomes).is_err() {
        return Err(Trouble::Memory);
    }
    let mut came = String::new(alloc);
    for outcome in &outcomes {
        let line = outcome_line(*outcome);
        came.push_str(str::from_utf8(line.as_slice())?.trim_end())?;
        came.push(';')?;
    }
    Ok(came)
}

/// Frames in hexadecimal.
fn frames_text(alloc: Global, frames: &[Frame]) -> Reported {
    let mut text = String::new(alloc);
    for frame in frames {
        text.push_str(hex::encode_upper(alloc, frame.as_slice())?.as_str())?;
        text.push(' ')?;
    }
    Ok(text)
}
