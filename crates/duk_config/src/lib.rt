//! The configuration of a payment network, read from its file, and the host and host security
//! module that it describes.
#![tactic(auto)]

mod config;
mod fault;
mod host;
mod hsm;
pub mod laws;
mod read;

pub use config::Config;
pub use fault::{ConfigKey, ScriptFault};
pub use host::new_host;
pub use hsm::open_hsm;
pub use read::{LONGEST_FILE, read_config};
