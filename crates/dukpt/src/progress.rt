//! The option `--progress`: how far a command is, told on standard error while it goes on.
//!
//! What is counted passes through adapters around what `run_program` is given: the streams, and the
//! files with their disks. They hand each call on as it came, and give what came back. So what is
//! proved of the program holds with them as without.

mod counted;
mod counting;
mod meter;
mod pace;
mod telling;
mod watched_disk;
mod watched_files;
mod written;

pub(crate) use counted::Counted;
pub(crate) use counting::Counting;
pub(crate) use telling::Telling;
pub(crate) use watched_files::Watched;
