//! A payment host, keyed by TDES DUKPT (ANSI X9.24-1:2009 annex A).
//!
//! It judges each request by the keys of its security module and by the numbers that were used. The
//! number of a request that is accepted is in the log before the reply goes out, so that a stop at
//! any moment never lets a number be accepted twice. A request that is one of the last 64 that were
//! accepted since the restart, equal in every byte, is given its reply again. What the card's issuer
//! says is asked of an `Issuer`.
#![tactic(auto)]

mod answered;
mod exchange;
mod fault;
mod host;
mod issuer;
mod judge;
pub mod laws;
mod payment;
mod ranges;
mod reading;
mod reason;
mod recent;
mod reply;
mod running;
mod service;
mod steps;
mod table;
mod used;

pub use answered::{Answered, Verdict};
pub use duk_pin::Card;
pub use fault::HostFault;
pub use host::Host;
pub use issuer::Issuer;
pub use payment::Payment;
pub use reason::Reason;
pub use reply::{code_for, reply_with};
pub use service::serve;
pub use steps::authenticate_opened;
pub use table::TableIssuer;
pub use used::UsedNumbers;
