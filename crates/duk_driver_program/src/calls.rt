//! The calls, each with what it is given, and what comes of one.

use crate::streams::Holding;
use duk_config::{ScriptFault, read_config};
use duk_play::play_script;
use duk_program::{Todo, command, run_status};
use std::alloc::{AllocError, Global};
use std::fmt;
use std::fmt::{Display, Formatter, Write};

/// A call of the program's crate, or of the one that plays scripts of tills.
#[derive(Clone, Copy)]
pub enum Call<'a> {
    /// `run_status`, over a configuration and a script.
    RunStatus { config: &'a str, script: &'a str },
    /// `play_script` of tills, over a configuration and a script.
    PlayScript { config: &'a str, script: &'a str },
    /// `command`, over tokens, one a line, the first of which is the program's name.
    Command { tokens: &'a str },
}

impl<'a> Call<'a> {
    /// The call of this name over the input: an empty line ends the configuration.
    pub fn of(name: &str, given: &'a str) -> Option<Call<'a>> {
        match name {
            "run_status" => {
                let (config, script) = given.split_once("\n\n")?;
                Some(Call::RunStatus { config, script })
            }
            "play_script" => {
                let (config, script) = given.split_once("\n\n")?;
                Some(Call::PlayScript { config, script })
            }
            "command" => Some(Call::Command { tokens: given }),
            _ => None,
        }
    }

    /// Makes the call, if what it needs can be made.
    pub fn make(self, alloc: Global) -> Result<Came, AllocError> {
        match self {
            Call::RunStatus { config, script } => make_run(alloc, config, script),
            Call::PlayScript { config, script } => make_play(alloc, config, script),
            Call::Command { tokens } => make_command(alloc, tokens),
        }
    }
}

/// What came of a call.
#[derive(Drop)]
pub struct Came {
    /// The status, unless something is left to do.
    status: Option<u8>,
    output: Holding,
    fault: Vec<u8>,
}

impl Display for Came {
    fn fmt<W: Write>(&self, f: &mut Formatter<W>) -> fmt::Result {
        match self.status {
            Some(status) => write!(f, "status {status}")?,
            None => write!(f, "no status")?,
        }
        write!(f, ", {} handed on, ", self.output.handed_on)?;
        write!(f, "output \"{}\", ", self.output.held.escape_ascii())?;
        write!(f, "fault \"{}\"", self.fault.escape_ascii())
    }
}

/// Runs a script under a configuration.
fn make_run(alloc: Global, config: &str, script: &str) -> Result<Came, AllocError> {
    let held = Vec::with_capacity(alloc, 1000)?;
    let mut output = Holding { held, handed_on: 0 };
    let mut fault = Vec::with_capacity(alloc, 100)?;
    let mut reader = script.as_bytes();
    let status = run_status(
        alloc,
        config.as_bytes(),
        &mut reader,
        &mut output,
        &mut fault,
    );
    Ok(Came {
        status: Some(status),
        output,
        fault,
    })
}

/// Plays a script of tills under a configuration.
fn make_play(alloc: Global, config: &str, script: &str) -> Result<Came, AllocError> {
    let held = Vec::with_capacity(alloc, 2000)?;
    let mut output = Holding { held, handed_on: 0 };
    let mut fault = Vec::with_capacity(alloc, 100)?;
    let status = match play(alloc, config, script, &mut output) {
        Ok(()) => 0,
        Err(ScriptFault::NoMemory) => {
            fault.extend_from_slice(b"out of memory\n")?;
            1
        }
        Err(_) => 2,
    };
    output.handed_on = output.held.len();
    Ok(Came {
        status: Some(status),
        output,
        fault,
    })
}

/// Reads a configuration, and plays a script of tills under it.
fn play(
    alloc: Global,
    config: &str,
    script: &str,
    output: &mut Holding,
) -> Result<(), ScriptFault> {
    let config = read_config(alloc, config.as_bytes())?;
    play_script(alloc, &config, script.as_bytes(), output)
}

/// Does what tokens ask for.
fn make_command(alloc: Global, lines: &str) -> Result<Came, AllocError> {
    let mut tokens = Vec::new(alloc);
    for token in lines.lines() {
        tokens.push(String::from_str(alloc, token)?)?;
    }
    let held = Vec::with_capacity(alloc, 8000)?;
    let mut output = Holding { held, handed_on: 0 };
    let mut fault = Vec::with_capacity(alloc, 100)?;
    let status = match command(alloc, tokens.as_slice(), &mut output, &mut fault) {
        Todo::Exit(status) => Some(status),
        _ => None,
    };
    Ok(Came {
        status,
        output,
        fault,
    })
}
