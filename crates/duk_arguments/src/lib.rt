//! What is written on the command line: the name of a command, and the arguments after it.
#![tactic(auto)]

mod entry;
mod name;
mod request;

pub use entry::Entry;
pub use name::CommandName;
pub use request::Request;
