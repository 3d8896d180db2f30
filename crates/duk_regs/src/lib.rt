//! The future key registers of a terminal (ANSI X9.24-1:2009 annex A, double-length keys).
//!
//! Registers with the future keys of an initial key hold the keys of the frontier of the key tree:
//! the usable nodes from the next counter on whose parent is below that counter, at most one for
//! each bit place, in the register of that place. The root, whose key is the initial key, and the
//! nodes of used numbers are none of them. Each number that is left is one of these nodes or below
//! exactly one of them.
//!
//! A terminal may be reloaded: it gets another initial key under another initial key serial number,
//! up to eight times. The numbers that it had before are kept, and none of them is taken again.
#![tactic(auto)]

mod fault;
mod frontier;
mod image;
pub mod laws;
mod past;
mod past_image;
mod registers;

pub use fault::ReloadFault;
pub use image::{IMAGE_LENGTH, IMAGE_LENGTH_OF_VERSION_1};
pub use past_image::are_zeros;
pub use registers::Registers;
