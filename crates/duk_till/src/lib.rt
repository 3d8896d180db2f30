//! A till: a terminal that knows which payment is in doubt, and undoes it.
//!
//! Beside its terminal's cell it has a second one, the book, which keeps the state of the last
//! purchase. A purchase is open from before its request goes out until its outcome is known and
//! kept, and no other begins meanwhile. Where the reply is lost or an end stops, a reversal undoes
//! it, under a number of its own. An outcome is told only once the book keeps it; a restart tells
//! what the book keeps. So what a till has told and what it keeps are the same, whatever stops.
//! The book has no key. Nothing here takes memory of the heap.
#![tactic(auto)]

mod checks;
mod disks;
mod fault;
mod image;
mod last;
pub mod laws;
mod state;
mod till;

pub use disks::{DiskTill, till_on_disks};
pub use fault::TillFault;
pub use last::{Last, Payment};
pub use state::TillState;
pub use till::Till;
