//! What the calls of a terminal answer.

use duk_frame::{Code, Frame};
use duk_reversal::ReversalState;
use duk_tree::Ksn;

/// Which number a terminal uses next.
#[derive(Clone, Copy, Debug, PartialEq, Eq)]
pub enum Next {
    /// The terminal is stopped.
    Stopped,
    /// It is not loaded yet.
    Empty,
    /// It has used all its numbers.
    Spent,
    /// The number of this key serial number.
    At(Ksn),
}

/// What came back for the pending transaction.
#[derive(Clone, Copy, Debug, PartialEq, Eq)]
pub enum Answer {
    /// The host accepted it, and this is the code. It is pending no more.
    Done(Code),
    /// The request was refused for a reason from 1 to 6. It is pending as before.
    Refused(u8),
}

/// What came back for the pending reversal.
#[derive(Clone, Copy, Debug, PartialEq, Eq)]
pub enum ReversalAnswer {
    /// The host accepted it, and this is what it found. It is pending no more.
    Done(ReversalState),
    /// The reversal was refused for a reason from 1 to 6. It is pending as before.
    Refused(u8),
}

/// A transaction that a terminal began.
#[derive(Drop)]
pub struct Begun {
    /// Its key serial number.
    pub ksn: Ksn,
    /// Its request, or its reversal.
    pub frame: Frame,
}
