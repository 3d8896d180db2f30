//! A host that is brought up, asked, and serves.

use super::sample::{BANK, FIRST, FIRST_REPLY, SECOND, SECOND_REPLY, log_of, number};
use super::{Answer, Tried};
use crate::trouble::Trouble;
use duk_config::{new_host, read_config};
use duk_frame::Frame;
use duk_host::{Host, HostFault, TableIssuer, serve};
use duk_store::MemLog;
use duk_tdes::KeyBytes;
use std::alloc::{AllocError, Global};

/// A host over a log in memory.
type MemoryHost = Host<16, MemLog, TableIssuer>;

/// Which numbers, from the first on, the host whose restart is tried used before it.
const USED: (u16, u16) = (10, 40);

/// A stopped host over a log that keeps these numbers.
fn stopped_host(alloc: Global, used: (u16, u16)) -> Result<MemoryHost, Trouble> {
    let config = read_config(alloc, BANK.as_bytes())?;
    let KeyBytes::Double(lmk) = &config.lmk else {
        return Err(Trouble::NotAStep);
    };
    let log = log_of(alloc, used.0, used.1)?;
    Ok(new_host(alloc, lmk, &config, log)?)
}

/// A restart that is refused memory stops the host, and a second one finds all numbers.
pub fn try_restart(alloc: Global) -> Tried {
    let mut host = stopped_host(alloc, USED)?;
    Ok(restarted(&mut host))
}

/// A second restart, which has the room for exchanges that the first one made. Where it is refused
/// memory, it leaves what the first one leaves then.
pub fn try_second_restart(alloc: Global) -> Tried {
    let mut host = stopped_host(alloc, USED)?;
    if host.restart()? != 30 {
        return Err(Trouble::NotSetUp);
    }
    Ok(restarted(&mut host))
}

fn restarted(host: &mut MemoryHost) -> Answer {
    match host.restart() {
        Ok(used) => Answer::Whole.where_holds(used == 30, "another number of numbers"),
        Err(HostFault::NoMemory) => after_refused_restart(host),
        Err(_) => Answer::Wrong("another fault"),
    }
}

fn after_refused_restart(host: &mut MemoryHost) -> Answer {
    let stopped = !host.is_used(number(USED.0)) && host.handle(FIRST) == Err(HostFault::Stopped);
    let mut again = host.restart() == Ok(30);
    for counter in USED.0..USED.1 {
        again &= host.is_used(number(counter));
    }
    Answer::Refused
        .where_holds(stopped, "the host is not stopped")
        .where_holds(again, "a second restart finds something else")
}

/// A host that was brought up and uses no number, so that its first one wants memory.
fn running_host(alloc: Global) -> Result<MemoryHost, Trouble> {
    let mut host = stopped_host(alloc, (0, 0))?;
    host.restart()?;
    Ok(host)
}

/// Whether a host answered the first request with its reply.
fn is_first_reply(reported: &Result<Frame, HostFault>) -> bool {
    match reported {
        Ok(frame) => frame.as_slice() == FIRST_REPLY.as_slice(),
        Err(_) => false,
    }
}

/// A request that is refused memory changes nothing, and is accepted when it comes again.
pub fn try_handle(alloc: Global) -> Tried {
    let mut host = running_host(alloc)?;
    let reported = host.handle(FIRST);
    if reported == Err(HostFault::NoMemory) {
        return Ok(after_refused_request(&mut host));
    }
    Ok(Answer::Whole.where_holds(is_first_reply(&reported), "another answer"))
}

fn after_refused_request(host: &mut MemoryHost) -> Answer {
    let same = !host.is_used(number(1));
    let replied = is_first_reply(&host.handle(FIRST));
    let kept = host.restart() == Ok(1) && host.is_used(number(1));
    Answer::Refused
        .where_holds(same, "the host is changed")
        .where_holds(replied, "the request is not accepted then")
        .where_holds(kept, "the log keeps something else")
}

/// A request that comes again is given its reply, whether or not memory is left.
pub fn try_repeat(alloc: Global) -> Tried {
    let mut host = running_host(alloc)?;
    host.handle(FIRST)?;
    let reported = host.handle(FIRST);
    if reported == Err(HostFault::NoMemory) {
        return Ok(Answer::Refused);
    }
    Ok(Answer::Whole.where_holds(is_first_reply(&reported), "another answer"))
}

/// Two frames, one after the other.
fn both(alloc: Global, first: &[u8], second: &[u8]) -> Result<Vec<u8>, AllocError> {
    let mut frames = Vec::from_slice(alloc, first)?;
    frames.extend_from_slice(second)?;
    Ok(frames)
}

/// A service that is refused memory has written the answers before, goes on with the frame that it
/// was refused at, and keeps each number once.
pub fn try_serve(alloc: Global) -> Tried {
    let frames = both(alloc, FIRST, SECOND)?;
    let answers = both(alloc, FIRST_REPLY, SECOND_REPLY)?;
    let mut host = running_host(alloc)?;
    let mut written = Vec::with_capacity(alloc, 200)?;
    match serve(&mut host, &mut frames.as_slice(), &mut written) {
        Ok(count) => {
            let all = count == 2 && written.as_slice() == answers.as_slice();
            Ok(Answer::Whole.where_holds(all, "other answers"))
        }
        Err(HostFault::NoMemory) => Ok(after_refused_service(
            &mut host,
            frames.as_slice(),
            answers.as_slice(),
            &mut written,
        )),
        Err(_) => Ok(Answer::Wrong("another fault")),
    }
}

fn after_refused_service(
    host: &mut MemoryHost,
    frames: &[u8],
    answers: &[u8],
    written: &mut Vec<u8>,
) -> Answer {
    let done = written.len() / 24;
    let before = answers.starts_with(written.as_slice()) && written.len() % 24 == 0;
    let used = [host.is_used(number(1)), host.is_used(number(2))];
    let mut rest = frames.get(48 * done..).unwrap_or(&[]);
    let again = serve(host, &mut rest, written).is_ok() && written.as_slice() == answers;
    let kept = host.restart() == Ok(2);
    Answer::Refused
        .where_holds(before, "other answers before")
        .where_holds(used == [done > 0, false], "other numbers are used")
        .where_holds(again, "it does not go on")
        .where_holds(kept, "the log keeps something else")
}
