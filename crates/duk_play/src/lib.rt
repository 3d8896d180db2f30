//! Scripts of payments and their reversals, played over tills and a host over a journal.
//!
//! Configurations are those of `duk_script`, and so are scripts, but for two more words: `reverse`, and
//! `book` of `arm`. What comes of an event is written as there, where it has the same name.
#![tactic(auto)]

mod event_line;
mod journal;
pub mod laws;
mod opening;
mod outcome_lines;
mod outcome_text;
mod script;
mod session;
mod tills;

pub use outcome_text::outcome_line;
pub use script::parse_script;
pub use session::play_script;
