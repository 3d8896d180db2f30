//! The key tree of TDES DUKPT (ANSI X9.24-1:2009 annex A, double-length keys): key serial numbers,
//! initial keys, transaction keys and their variants.
//!
//! Every counter of 21 bits is a node of a tree, whose root is counter zero and whose parent
//! relation drops the lowest one bit. The root has the initial key, and each other node a key made
//! of its parent's by the non-reversible key generation process.
#![tactic(auto)]

mod counter;
mod derivation;
pub mod laws;
mod next;
mod parent;
mod serial;
mod variants;

pub use counter::usable;
pub use derivation::{derive, initial_key, step, transaction_key};
pub use next::{MOST_ONES, next_usable};
pub use parent::Parent;
pub use serial::{Iksn, Ksn, PREFIX_LENGTH};
pub use variants::{pin_key, request_key, response_key};
