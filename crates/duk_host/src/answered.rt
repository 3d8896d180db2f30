//! What a host answers.

use duk_frame::{Code, Frame};
use duk_tree::Ksn;

/// The answer of a host: a frame, and what it says.
#[derive(Drop)]
pub struct Answered {
    /// The frame.
    pub frame: Frame,
    /// What it says.
    pub says: Verdict,
}

/// What a host says of a request.
#[derive(Clone, Copy)]
pub enum Verdict {
    /// It is accepted.
    Accepted {
        /// The key serial number of the request.
        ksn: Ksn,
        /// What the issuer says.
        code: Code,
    },
    /// It was accepted before, and is given the same reply again.
    Repeated {
        /// The key serial number of the request.
        ksn: Ksn,
        /// What the issuer said then.
        code: Code,
    },
    /// It is refused.
    Refused {
        /// The key serial number of the request, or that of ten zero bytes where the bytes were no
        /// request.
        ksn: Ksn,
        /// Why, from 1 to 6.
        reason: u8,
    },
}
