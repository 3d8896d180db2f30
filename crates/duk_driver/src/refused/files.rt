//! Configurations, scripts, and the events of one.

use super::sample::{BANK, LINES, SCRIPT};
use super::{Answer, Tried};
use crate::disks::Habit;
use crate::trouble::Trouble;
use crate::world::{DiskWorld, new_world};
use duk_config::{ScriptFault, read_config};
use duk_net::{Event, NetFault, Outcome, run};
use duk_script::{outcome_line, parse_script, run_script};
use std::alloc::Global;

pub fn try_read_config(alloc: Global) -> Tried {
    match read_config(alloc, BANK.as_bytes()) {
        Ok(config) => Ok(Answer::Whole.where_holds(config.terminals == 3, "another configuration")),
        Err(ScriptFault::NoMemory) => Ok(Answer::Refused),
        Err(_) => Ok(Answer::Wrong("another fault")),
    }
}

pub fn try_parse_script(alloc: Global) -> Tried {
    match parse_script(alloc, SCRIPT.as_bytes()) {
        Ok(events) => Ok(Answer::Whole.where_holds(events.len() == 15, "other events")),
        Err(ScriptFault::NoMemory) => Ok(Answer::Refused),
        Err(_) => Ok(Answer::Wrong("another fault")),
    }
}

/// Whether these are some of the script's lines, from the first on, and not all.
fn are_first_lines(lines: &[u8]) -> bool {
    let are_whole = lines.is_empty() || lines.ends_with(b"\n");
    are_whole && LINES.as_bytes().starts_with(lines) && lines.len() < LINES.len()
}

/// A script that is refused memory has written the lines of the first events.
pub fn try_run_script(alloc: Global) -> Tried {
    let mut written = Vec::with_capacity(alloc, 1000)?;
    let reported = run_script(alloc, BANK.as_bytes(), &mut SCRIPT.as_bytes(), &mut written);
    let lines = written.as_slice();
    match reported {
        Ok(()) => Ok(Answer::Whole.where_holds(lines == LINES.as_bytes(), "other lines")),
        Err(ScriptFault::NoMemory) => {
            let refused = Answer::refused_after(!lines.is_empty());
            Ok(refused.where_holds(are_first_lines(lines), "other lines before"))
        }
        Err(_) => Ok(Answer::Wrong("another fault")),
    }
}

/// A world whose host and first terminal were brought up.
fn running_world(alloc: Global) -> Result<DiskWorld, Trouble> {
    let mut world = new_world(alloc, BANK.as_bytes(), Habit::CALM, [Habit::CALM; 3])?;
    let mut outcomes = Vec::new(alloc);
    let restarts = [Event::RestartHost, Event::RestartTerm { t: 1 }];
    match run(&mut world, &restarts, &mut outcomes) {
        Ok(()) => Ok(world),
        Err(_) => Err(Trouble::Memory),
    }
}

/// Whether outcomes have the first lines of the script.
fn have_first_lines(outcomes: &[Outcome]) -> bool {
    let mut rest = LINES.as_bytes();
    for outcome in outcomes {
        match rest.strip_prefix(outcome_line(*outcome).as_slice()) {
            Some(later) => rest = later,
            None => return false,
        }
    }
    true
}

/// A run that is refused memory has done the events before, and a second one from there does the
/// others, with the outcomes that were wanting.
pub fn try_run(alloc: Global) -> Tried {
    let events = parse_script(alloc, SCRIPT.as_bytes())?;
    let mut world = running_world(alloc)?;
    let mut outcomes = Vec::new(alloc);
    match run(&mut world, events.as_slice(), &mut outcomes) {
        Ok(()) => Ok(Answer::Whole.where_holds(
            outcomes.len() == 15 && have_first_lines(outcomes.as_slice()),
            "other outcomes",
        )),
        Err(NetFault::NoMemory { done }) => {
            let before = outcomes.len() == done && have_first_lines(outcomes.as_slice());
            let rest = events.as_slice().get(done..).unwrap_or(&[]);
            let again = run(&mut world, rest, &mut outcomes).is_ok();
            let whole = outcomes.len() == 15 && have_first_lines(outcomes.as_slice());
            Ok(
                Answer::refused_after(done > 0)
                    .where_holds(before, "other outcomes before")
                    .where_holds(again && whole, "other outcomes later"),
            )
        }
    }
}
