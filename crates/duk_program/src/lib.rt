//! What the program `dukpt` does: one command a run, over the arguments that it is started with.
#![tactic(auto)]

mod answer;
mod command_line;
mod commands;
mod configuration;
mod dispatch;
mod explaining;
mod fault;
mod items;
pub mod laws;
mod meant;
mod message;
mod options;
mod program;
mod random;
mod references;
mod secrets;
mod shape;
mod shown;

pub use command_line::{CommandName, Entry, NoRequest, Request, read_request};
pub use commands::run::run_status;
pub use dispatch::{Kept, Todo, command};
pub use duk_script::print_fault;
pub use duk_service::{FileFault, FileSystem, LogFiles, Reason, serve_with};
pub use items::reads_items;
pub use options::take_option;
pub use program::run_program;
pub use shape::{Shape, shape_of};
