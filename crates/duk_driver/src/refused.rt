//! Calls to which memory is refused at one growth, one call and one growth a run: whether each
//! reports that it is out of memory, and what it leaves.

mod files;
mod hosts;
mod sample;

use crate::trouble::Trouble;
use duk_store::{MemDisk, MemLog, StoreFault};
use std::alloc::Global;

/// The number of the allocation that is to fail, after those of the program's tokens.
const REFUSED_AT: u32 = 4000;

/// What came of a call to which memory was refused, or not.
#[derive(Clone, Copy)]
pub enum Answer {
    /// The call answered that it is out of memory, and left what it is to leave.
    Refused,
    /// It did so after some events that it had done.
    Midway,
    /// The call was done.
    Whole,
    /// Something else came.
    Wrong(&'static str),
}

impl Answer {
    /// Out of memory, after some events or after none.
    pub fn refused_after(has_events: bool) -> Answer {
        if has_events {
            Answer::Midway
        } else {
            Answer::Refused
        }
    }

    /// This answer where something holds, and else what is wrong.
    pub fn where_holds(self, holds: bool, why: &'static str) -> Answer {
        if holds { self } else { Answer::Wrong(why) }
    }
}

/// What came of a call, if what it needs could be made.
pub type Tried = Result<Answer, Trouble>;

/// Tries the call of a name with an allocation that fails, the one of number `REFUSED_AT`, and
/// reports what came of it. It takes as many before the call as put that allocation where it is
/// wanted: at this growth, from the first of what the call needs on.
pub fn reported_of_call(alloc: Global, name: &str, growth: u32) -> &'static str {
    for _ in 0..REFUSED_AT.saturating_sub(growth) {
        let _ = Vec::<u8>::with_capacity(alloc, 1);
    }
    match try_call(alloc, name) {
        Err(Trouble::Memory) => "before",
        Err(_) => "what the call needs is refused",
        Ok(Answer::Refused) => "refused",
        Ok(Answer::Midway) => "midway",
        Ok(Answer::Whole) => "whole",
        Ok(Answer::Wrong(why)) => why,
    }
}

/// What came of the call of this name.
fn try_call(alloc: Global, name: &str) -> Tried {
    match name {
        "MemLog::new" => Ok(of_store(MemLog::new(alloc, 100))),
        "MemDisk::new" => Ok(of_store(MemDisk::new(alloc, 1024))),
        "Host::restart" => hosts::try_restart(alloc),
        "Host::restart-again" => hosts::try_second_restart(alloc),
        "Host::handle" => hosts::try_handle(alloc),
        "Host::handle-again" => hosts::try_repeat(alloc),
        "serve" => hosts::try_serve(alloc),
        "run" => files::try_run(alloc),
        "read_config" => files::try_read_config(alloc),
        "parse_script" => files::try_parse_script(alloc),
        "run_script" => files::try_run_script(alloc),
        _ => Ok(Answer::Wrong("no such call")),
    }
}

/// What came of making a store.
fn of_store<S: Drop>(made: Result<S, StoreFault>) -> Answer {
    match made {
        Ok(_) => Answer::Whole,
        Err(StoreFault::NoMemory) => Answer::Refused,
        Err(_) => Answer::Wrong("another fault"),
    }
}
