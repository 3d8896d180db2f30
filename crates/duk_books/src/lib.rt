//! Tills, one host over a journal, and the network between them, under any list of events; and the
//! merchants' book of what the tills have as approved.
//!
//! The network keeps every frame that was ever sent, and an event names the one that it delivers:
//! so frames may be lost, come again, late, or in any order. A stop is a store that was armed to
//! fail, followed by a restart.
#![tactic(auto)]

mod answers;
mod books;
mod event;
mod frames;
pub mod laws;
mod outcome;
mod owner;
mod runs;
mod sales;
mod system;

pub use books::Books;
pub use duk_stations::Owner;
pub use event::{End, Event};
pub use outcome::Outcome;
pub use runs::{RunFault, run};
pub use sales::Sale;
