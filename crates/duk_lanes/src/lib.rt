//! DES in lanes: one computation enciphers as many blocks as a word has bits, each under a key of
//! its own (NIST SP 800-67 section 2).
//!
//! A word holds one bit of each lane. There is no table that is read at a secret place, and no
//! branch on a secret: the selection functions are circuits of gates, and permutations are wiring.
#![tactic(auto)]

mod boxes;
mod cipher;
mod lanes;
mod rounds;
mod transposition;
mod wide;
mod wiring;
mod words;

pub use cipher::{decrypt, encrypt};
pub use lanes::Lanes;
pub use transposition::{gather, scatter, spread};
pub use wide::{gather_wide, scatter_wide, spread_wide, word_of_flags};
