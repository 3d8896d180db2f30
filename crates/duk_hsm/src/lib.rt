//! A host security module for TDES DUKPT (ANSI X9.24-1:2009 annex A): it holds base derivation keys
//! and a zone key, and answers commands about key serial numbers with them.
//!
//! Keys come in as key blocks under its local master key (ANSI X9.143, version B), and leave it
//! only as an initial key in a key block under a loading key. Nothing here takes memory of the
//! heap.
#![tactic(auto)]

mod asked;
mod fault;
mod group;
mod hsm;
mod key_set;
mod known;
mod lanes;
pub mod laws;
mod one_by_one;
mod pin_block;
mod prepared;
mod text;
mod transaction;

pub use asked::Asked;
pub use fault::HsmFault;
pub use group::OpenedGroup;
pub use hsm::Hsm;
pub use transaction::Transaction;
