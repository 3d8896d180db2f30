//! Key blocks of ANSI X9.143 in version B: a key under a key block protection key, bound to a
//! header that says what the key is for.
#![tactic(auto)]

mod derivation;
mod digits;
mod fault;
mod header;
mod key_use;
pub mod laws;
mod optional;
mod parts;
mod payload;
mod sealing;
mod text;
mod unwrapping;
mod unwrapping_for;
mod unwrapping_optional;
mod wrapping;

pub use fault::{BlockFault, KeyFault};
pub use header::Header;
pub use key_use::KeyUse;
pub use parts::{derivation_data, front_text, written_text};
pub use payload::payload_with;
pub use text::{BlockText, MAX_TEXT};
pub use unwrapping::unwrap;
pub use unwrapping_for::{unwrap_double_for, unwrap_for};
pub use unwrapping_optional::unwrap_optional;
pub use wrapping::{ZERO_PADDING, wrap, wrap_with};
