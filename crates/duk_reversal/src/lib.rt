//! The frames of a reversal: a format of this project's own.
//!
//! A terminal that does not know what became of a payment undoes it. Its reversal uses a number of
//! its own, and names the number that it reverses; the reply says whether a payment of that number
//! stood. Both have a MAC under the transaction key of the number that is used, and both are apart
//! from the frames of payments. Nothing here takes memory.
#![tactic(auto)]

mod answer;
mod authentic;
pub mod laws;
mod numbers;
mod reply;
mod reversal;
mod state;
mod text;

pub use answer::{ReversalAnswerFrame, read_reversal_answer};
pub use authentic::{is_reversal_reply, reversal_under};
pub use numbers::ReversalNumbers;
pub use reply::{ReversalReply, read_reversal_reply};
pub use reversal::{Reversal, read_reversal};
pub use state::ReversalState;
pub use text::{ReversalText, with_mac};
