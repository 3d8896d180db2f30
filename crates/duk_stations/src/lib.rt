//! What the worlds of terminals and of tills share: stations in their places, who owns which initial
//! key serial number, and what holds of the registers and the stored images of stations.
//!
//! A station is a terminal, or a till over one. `specs/inner/Moves.antt` says how one may go on. What holds
//! of each station is proved over that alone, in `proofs/`: both worlds show that their steps are such
//! moves.
#![tactic(auto)]

pub mod laws;
mod owner;
mod places;

pub use owner::{Owner, add_owner, is_elsewhere};
pub use places::{place_of, push_within};
