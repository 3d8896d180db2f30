//! The law of many hosts over one book.
//!
//! Any number of hosts judge frames and answer them, and one book, as a journal or a table of a
//! database, settles in turn what they send. None of them knows of the others, and each may stop or
//! sleep at any point. What they do together is what one host could have done. `MemBook` is such a book,
//! plain and slow, with which others are compared.
#![tactic(auto)]

mod book;
pub mod laws;
mod settle;

pub use book::MemBook;
