//! What steps are taken on.

use crate::disks::DiskTerminal;
use crate::host::{DiskHost, take_host_step};
use crate::streams::play;
use crate::terminal::take_terminal_step;
use crate::texts::{Reported, bytes, done};
use crate::trouble::Trouble;
use crate::world::{DiskWorld, take_world_step};
use std::alloc::Global;

/// A configuration, and a terminal, a host and a world, each by itself, where it was made.
#[derive(Drop)]
pub struct Driver {
    alloc: Global,
    config: Vec<u8>,
    terminal: Option<DiskTerminal>,
    host: Option<DiskHost>,
    world: Option<DiskWorld>,
}

impl Driver {
    /// Nothing was made yet.
    pub fn new(alloc: Global) -> Self {
        Driver {
            alloc,
            config: Vec::new(alloc),
            terminal: None,
            host: None,
            world: None,
        }
    }

    /// Takes the step of a line: what it is taken on, a space, and what is done.
    pub fn take_step(&mut self, line: &str) -> Reported {
        let alloc = self.alloc;
        let Some((on, step)) = line.split_once(' ') else {
            return Err(Trouble::NotAStep);
        };
        match on {
            "config" => {
                self.config = bytes(alloc, step)?;
                done(alloc, "ready")
            }
            "terminal" => take_terminal_step(alloc, &mut self.terminal, step),
            "host" => take_host_step(alloc, self.config.as_slice(), &mut self.host, step),
            "world" => take_world_step(alloc, self.config.as_slice(), &mut self.world, step),
            "script" => play(alloc, self.config.as_slice(), step),
            _ => Err(Trouble::NotAStep),
        }
    }
}
