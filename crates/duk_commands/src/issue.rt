//! The command `issue` of a key injection facility: initial keys of many terminals, each in a key
//! block with its check value, over a ledger of the initial key serial numbers that were issued. A
//! number stands in the ledger before its line is begun, so that none is issued twice. The line of one
//! that was issued can be made again.

mod again;
mod check_value;
mod count;
mod fault;
mod group;
mod issuing;
pub mod laws;
mod ledger;
mod line;
mod marks;
mod note;
mod order;
mod serial;

pub use again::issue_again;
pub use fault::IssueFault;
pub use issuing::issue;
pub use note::note_passed_over;
pub use order::{Order, PADDING_LENGTH};
