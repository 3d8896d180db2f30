//! A terminal by itself, over a disk.

use crate::disks::{DiskTerminal, Habit, disk_of, filling_of, new_terminal};
use crate::texts::{Reported, bytes, done, fault, next, number, with_bytes};
use crate::trouble::Trouble;
use duk_pin::{Pan, Pin};
use duk_store::{Disk, Filling, MemDisk, SlotCell};
use duk_tdes::Key;
use duk_term::{Answer, Purchase, Terminal};
use duk_tree::Iksn;
use std::alloc::Global;
use std::str;

/// Makes a terminal, over a new disk or over one that holds bytes, or does something with it.
pub fn take_terminal_step(
    alloc: Global,
    terminal: &mut Option<DiskTerminal>,
    step: &str,
) -> Reported {
    let tokens: Vec<&str> = step.split(' ').collect(alloc)?;
    match tokens.as_slice() {
        ["new", filling, passes] => {
            *terminal = Some(new_terminal(alloc, Habit::of_tokens(filling, passes)?)?);
            done(alloc, "ready")
        }
        ["over", filling, passes, held] => {
            let held = bytes(alloc, held)?;
            let disk = disk_of(alloc, held.as_slice(), Habit::of_tokens(filling, passes)?)?;
            *terminal = Some(Terminal::new(SlotCell::new(disk)));
            done(alloc, "ready")
        }
        ["stop", filling] => stop(alloc, terminal, filling_of(filling)?),
        tokens => act(alloc, terminal.as_mut().ok_or(Trouble::NotAStep)?, tokens),
    }
}

/// Stops a terminal, and reports what its disk then leaves with this filling. A new terminal over
/// the disk takes its place.
fn stop(alloc: Global, terminal: &mut Option<DiskTerminal>, filling: Filling) -> Reported {
    let mut disk = terminal
        .take()
        .ok_or(Trouble::NotAStep)?
        .into_cell()
        .into_disk();
    disk.filling(filling);
    disk.restart()?;
    let left = left_on(alloc, &mut disk);
    *terminal = Some(Terminal::new(SlotCell::new(disk)));
    left
}

/// All bytes of a disk.
fn left_on(alloc: Global, disk: &mut MemDisk) -> Reported {
    let mut left = vec![in alloc; 0; disk.size() as usize]?;
    match disk.read_at(0, left.as_mut_slice()) {
        Ok(()) => with_bytes(alloc, "disk", left.as_slice()),
        Err(why) => fault(alloc, &why),
    }
}

/// Does something with a terminal.
fn act(alloc: Global, terminal: &mut DiskTerminal, tokens: &[&str]) -> Reported {
    match tokens {
        ["restart"] => match terminal.restart() {
            Ok(()) => next(alloc, terminal.next()),
            Err(why) => fault(alloc, &why),
        },
        ["next"] => next(alloc, terminal.next()),
        ["arm", passes] => {
            terminal.arm(number(passes)?);
            done(alloc, "armed")
        }
        ["load", loading, block, iksn] => load(alloc, terminal, loading, block, iksn),
        ["begin", pan, pin, amount] => begin(alloc, terminal, pan, pin, amount),
        ["reply", frame] => reply(alloc, terminal, frame),
        _ => Err(Trouble::NotAStep),
    }
}

/// Loads a terminal with the bytes of a key block under a loading key.
fn load(
    alloc: Global,
    terminal: &mut DiskTerminal,
    loading: &str,
    block: &str,
    iksn: &str,
) -> Reported {
    let loading = Key::<16>::parse(loading).ok_or(Trouble::NotAStep)?;
    let block = bytes(alloc, block)?;
    let iksn = Iksn::parse(iksn).ok_or(Trouble::NotAStep)?;
    match terminal.load(&loading, block.as_slice(), iksn) {
        Ok(()) => done(alloc, "loaded"),
        Err(why) => fault(alloc, &why),
    }
}

/// Begins a payment.
fn begin(
    alloc: Global,
    terminal: &mut DiskTerminal,
    pan: &str,
    pin: &str,
    amount: &str,
) -> Reported {
    let (Ok(pan), Ok(pin)) = (Pan::parse(pan), Pin::parse(pin)) else {
        return Err(Trouble::NotAStep);
    };
    let amount = number(amount)?;
    match terminal.begin(&Purchase { pan, pin, amount }) {
        Ok(frame) => with_bytes(alloc, "sent", frame.as_slice()),
        Err(why) => fault(alloc, &why),
    }
}

/// Gives a terminal an answer.
fn reply(alloc: Global, terminal: &mut DiskTerminal, frame: &str) -> Reported {
    let frame = bytes(alloc, frame)?;
    match terminal.reply(frame.as_slice()) {
        Ok(Answer::Done(code)) => {
            let code = code.text();
            let code = str::from_utf8(&code)?;
            Ok(format!(in alloc; "done {code}")?)
        }
        Ok(Answer::Refused(reason)) => Ok(format!(in alloc; "refused {reason}")?),
        Err(why) => fault(alloc, &why),
    }
}
