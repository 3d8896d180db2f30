//! New journals: one that keeps nothing, and one that keeps what another does, of either version. And
//! other new files with a header, that keep nothing.
//!
//! Every byte of a new disk is written, and all are synced. Three bytes of a header are not written
//! again where they are right already: the first two, and the 16th, which says how many bytes a record
//! has. So nothing of what the medium held before is left, and a medium that has a place for each byte
//! shows a want of room then and not at an entry. The first two bytes are settled last, each by a write
//! of its own. So a disk that began as that of no journal is none until it is whole, wherever its writer
//! is stopped, and also where the last write is torn.
#![tactic(auto)]

mod begin;
mod blank;
mod convert;
mod copy;
mod head;
pub mod laws;
mod ledger;
mod version;

pub use begin::{begin_file, write_journal};
pub use blank::{PIECE_LENGTH, write_blank};
pub use copy::{CopyFault, Kept, write_copy};
pub use ledger::{LedgerCopyFault, write_ledger};
pub use version::Version;
