//! A PIN terminal, keyed by TDES DUKPT (ANSI X9.24-1:2009 annex A).
//!
//! It is loaded with the initial key of a key block, and then takes a number for each purchase. It
//! may be loaded again with another initial key, and never under an initial key serial number that
//! it had before. The image of the registers after a number was taken is in its cell before the
//! request of that number goes out. So a stop at any moment loses a number at most and never gives
//! one twice, and no image has the key of a number that was used. A reversal takes a number of its
//! own in the same way, and names the number whose payment it undoes. What is pending is in memory
//! alone. Nothing here takes memory of the heap.
#![tactic(auto)]

mod answer;
mod body;
mod fault;
pub mod laws;
mod purchase;
mod reversal;
mod state;
mod terminal;

pub use answer::{Answer, Begun, Next, ReversalAnswer};
pub use fault::TermFault;
pub use purchase::Purchase;
pub use terminal::Terminal;
