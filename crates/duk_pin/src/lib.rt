//! PINs, PANs, cards and the PIN blocks of ISO 9564-1 format 0.
//!
//! A PIN block masks a PIN of 4 to 12 digits with the PAN of its card: 8 bytes, the exclusive or
//! of a PIN field and an account field. It is no encryption: whoever knows the PAN and the block
//! can read the PIN.
//!
//! Nothing here takes memory. The check digit of a PAN, its last digit, is not verified.
#![tactic(auto)]

mod block;
mod card;
mod digits;
mod fault;
mod field;
pub mod laws;
mod nibbles;
mod pan;
mod pin;

pub use block::{decode, encode};
pub use card::Card;
pub use fault::PinFault;
pub use pan::Pan;
pub use pin::Pin;
