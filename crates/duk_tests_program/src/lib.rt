//! Tests of the program's commands, over writers, logs and files of this crate's own.
#![tactic(auto)]

#[cfg(test)]
mod commands;
#[cfg(test)]
mod files;
#[cfg(test)]
mod flushes;
#[cfg(test)]
mod services;
