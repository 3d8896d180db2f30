//! Terminals, one host and the network between them, under any list of events.
//!
//! The network keeps every frame that was ever sent, and an event names the one that it delivers:
//! so frames may be lost, come again, late, or in any order. A stop is a store that was armed to
//! fail, followed by a restart.
#![tactic(auto)]

mod event;
mod frames;
pub mod laws;
mod outcome;
mod owner;
mod runs;
mod system;
mod world;

pub use duk_stations::Owner;
pub use event::{End, Event};
pub use outcome::Outcome;
pub use runs::{NetFault, run};
pub use world::{MemoryWorld, World};
