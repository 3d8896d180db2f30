//! The option `--json`: what a command writes as lines is written as objects of JSON, one a line.
//! The streams here stand between the commands, which know nothing of it, and the standard streams.

mod answer;
mod answers;
mod faults;
mod names;
mod notes;
mod object;
mod objects;

pub(crate) use answers::Answers;
pub(crate) use faults::Faults;
