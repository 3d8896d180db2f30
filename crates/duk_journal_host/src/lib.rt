//! A payment host over a journal, for a busy line.
//!
//! It judges requests as `duk_host` does, and reversals of payments, a group of frames at a time: what
//! a group accepts goes into the journal together, with one pair of syncs, before any answer of the
//! group goes out. The journal keeps what was decided, so a request or a reversal that is one of the
//! latest is given its reply again in any run with the same keys. The key serial numbers of a group
//! are opened many at a time, its frames are judged in turn, and the MACs of its replies are made
//! many at a time. A restart reads the journal by large pieces.
#![tactic(auto)]

mod answer;
mod authentic;
mod candidate;
mod check;
mod draft;
mod gathered;
mod group;
mod host;
mod index;
mod judge;
mod latest;
pub mod laws;
mod opening;
mod reading;
mod service;
mod sets;
mod settle;
mod settlement;
mod workspace;

pub use answer::answer_together;
pub use authentic::Purchase;
pub use candidate::{Candidate, Judgement, judge_together};
pub use check::{Checked, check_records};
pub use group::{Group, MOST_FRAMES};
pub use host::JournalHost;
pub use service::serve;
pub use settlement::{Settled, Settlement};
pub use workspace::Workspace;
