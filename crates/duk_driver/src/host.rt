//! A host by itself, over a log on a disk.

ghost use Rattle.std.specs.Prelude.{◌≡◌, IfOk, None};

use crate::disks::{Habit, disk_of, new_log};
use crate::streams::{Drip, Tap, streams_of};
use crate::texts::{Reported, bytes, done, fault, number, serial, with_bytes, yes_or_no};
use crate::trouble::Trouble;
use duk_config::read_config;
use duk_host::{Host, TableIssuer, serve};
use duk_store::{DiskLog, MemDisk};
use duk_tdes::KeyBytes;
use std::alloc::Global;

/// A host over a log on a disk. Its local master key has 16 bytes.
pub type DiskHost = Host<16, DiskLog<MemDisk>, TableIssuer>;

/// A stopped host of a configuration over a log.
pub fn new_host(alloc: Global, config: &[u8], log: DiskLog<MemDisk>) -> Result<DiskHost, Trouble>
    ensures log { IfOk result (λ host. host.log ≡ log) }
    ensures stopped { IfOk result (λ host. host.state ≡ None) }
{
    let config = read_config(alloc, config)?;
    let KeyBytes::Double(lmk) = &config.lmk else {
        return Err(Trouble::NotAStep);
    };
    Ok(duk_config::new_host(alloc, lmk, &config, log)?)
}

/// Makes a host, over a new log of so many records or over a disk that holds bytes, or does
/// something with it.
pub fn take_host_step(
    alloc: Global,
    config: &[u8],
    host: &mut Option<DiskHost>,
    step: &str,
) -> Reported {
    let tokens: Vec<&str> = step.split(' ').collect(alloc)?;
    match tokens.as_slice() {
        ["new", filling, passes, room] => {
            let log = new_log(alloc, number(room)?, Habit::of_tokens(filling, passes)?)?;
            *host = Some(new_host(alloc, config, log)?);
            done(alloc, "ready")
        }
        ["over", filling, passes, held] => {
            let held = bytes(alloc, held)?;
            let disk = disk_of(alloc, held.as_slice(), Habit::of_tokens(filling, passes)?)?;
            *host = Some(new_host(alloc, config, DiskLog::new(disk))?);
            done(alloc, "ready")
        }
        tokens => act(alloc, host.as_mut().ok_or(Trouble::NotAStep)?, tokens),
    }
}

/// Does something with a host.
fn act(alloc: Global, host: &mut DiskHost, tokens: &[&str]) -> Reported {
    match tokens {
        ["restart"] => match host.restart() {
            Ok(used) => Ok(format!(in alloc; "used {used}")?),
            Err(why) => fault(alloc, &why),
        },
        ["arm", passes] => {
            host.arm(number(passes)?);
            done(alloc, "armed")
        }
        ["is-used", ksn] => yes_or_no(alloc, host.is_used(serial(ksn)?)),
        ["handle", frame] => handle(alloc, host, frame),
        ["serve", most, reads, writes, frames] => {
            let frames = bytes(alloc, frames)?;
            let (mut reader, mut writer) = streams_of(
                alloc,
                most,
                reads,
                writes,
                frames.as_slice(),
            )?;
            serve_stream(alloc, host, &mut reader, &mut writer)
        }
        _ => Err(Trouble::NotAStep),
    }
}

/// Gives a host a frame.
fn handle(alloc: Global, host: &mut DiskHost, frame: &str) -> Reported {
    let frame = bytes(alloc, frame)?;
    match host.handle(frame.as_slice()) {
        Ok(answer) => with_bytes(alloc, "answer", answer.as_slice()),
        Err(why) => fault(alloc, &why),
    }
}

/// Lets a host serve a stream, and reports how many frames there were, or the fault, and then what
/// was written.
fn serve_stream(
    alloc: Global,
    host: &mut DiskHost,
    reader: &mut Drip<'_>,
    writer: &mut Tap,
) -> Reported {
    let reported = match serve(host, reader, writer) {
        Ok(frames) => format!(in alloc; "served {frames}")?,
        Err(why) => fault(alloc, &why)?,
    };
    with_bytes(alloc, reported.as_str(), writer.held.as_slice())
}
