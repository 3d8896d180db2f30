//! Triple DES of NIST SP 800-67 and its keys.
//!
//! A TDES key has 16 bytes (two single keys, the third being the first again) or 24 bytes (three
//! single keys). Parity bits are neither checked nor adjusted.
#![tactic(auto)]

mod bytes;
mod chaining;
mod cipher;
mod key;
mod key_text;
pub mod laws;

pub use bytes::array_of;
pub use chaining::{cbc_decrypt, cbc_encrypt};
pub use cipher::{Tdes, tdes_decrypt, tdes_encrypt};
pub use duk_des::xor_bytes;
pub use key::{Key, KeyBytes};
