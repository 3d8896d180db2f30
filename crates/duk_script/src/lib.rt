//! Payment networks from their files: scripts of events, and the text of what comes of them.
#![tactic(auto)]

mod event_line;
mod fault_line;
mod fault_name;
pub mod laws;
mod line;
mod logs;
mod opening;
mod outcome_lines;
mod outcome_text;
mod script;
mod session;
mod terminals;
mod tokens;
mod whole_text;

pub use duk_config::{Config, ConfigKey, LONGEST_FILE, ScriptFault, open_hsm, read_config};
pub use event_line::read_event;
pub use fault_line::print_fault;
pub use line::{LINE_ROOM, Line, LineText};
pub use outcome_text::{outcome_line, restart_line};
pub use script::{is_quiet, parse_script, split_line};
pub use session::{play_script, run_script};
pub use terminals::{DiskCell, disk_cell};
pub use tokens::{read_number, read_terminal, split_token};
