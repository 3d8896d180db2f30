//! A ledger of the initial keys that were issued: a list that outlives every stop, in the records of
//! a disk with a header and check sums, as a journal of version 2 has them.
#![tactic(auto)]

mod format;
mod issued;
pub mod laws;
mod ledger;

pub use duk_journal::RECORD_LENGTH;
pub use format::IssuedFormat;
pub use issued::{Issued, Made};
pub use ledger::{LEDGER_KIND, Ledger, is_ledger_header, ledger_header};
