//! Reads steps, one a line, and writes what came of each: of a terminal by itself, of a host by
//! itself and of a world, over disks in memory whose device steps fail and which keep what they are
//! set to. It shows what the library does where the built `dukpt` does not reach, and judges
//! nothing. And calls to which memory is refused.
#![tactic(auto)]

mod disks;
mod driver;
mod host;
mod refused;
mod streams;
mod terminal;
mod texts;
mod trouble;
mod world;

use driver::Driver;
use refused::reported_of_call;
use std::io::Read;
use std::process::ExitCode;
use std::{env, io, str};
use trouble::Trouble;

fn main(rt: HostRuntime) -> io::Result<ExitCode> {
    let tokens: Vec<String> = env::args(&rt)?.collect(rt.alloc())?;
    if let [_, token, call, growth] = tokens.as_slice() {
        if token.as_str() == "refuse" {
            let reported = reported_of_call(rt.alloc(), call.as_str(), growth.parse().unwrap_or(0));
            println!(rt; "{call} {growth}: {reported}")?;
            return Ok(ExitCode::SUCCESS);
        }
    }
    let mut steps = Vec::new(rt.alloc());
    rt.stdin().read_to_end(&mut steps)?;
    match take_steps(&rt, steps.as_slice()) {
        Ok(()) => Ok(ExitCode::SUCCESS),
        Err(trouble) => {
            eprintln!(rt; "{trouble}")?;
            Ok(ExitCode::from(2))
        }
    }
}

/// Takes each step of a text, and writes what came of it.
fn take_steps(rt: &(impl Print + AllocGlobal), steps: &[u8]) -> Result<(), Trouble> {
    let mut driver = Driver::new(rt.alloc());
    take_lines(rt, &mut driver, str::from_utf8(steps)?)
}

/// Takes the step of each line, and writes what came of it.
fn take_lines(rt: &impl Print, driver: &mut Driver, steps: &str) -> Result<(), Trouble> {
    for line in steps.lines() {
        match driver.take_step(line) {
            Ok(came) => println!(rt; "{came}")?,
            Err(trouble) => {
                println!(rt; "this is no step: {line}")?;
                return Err(trouble);
            }
        }
    }
    Ok(())
}
