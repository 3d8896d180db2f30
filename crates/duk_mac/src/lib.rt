//! Message authentication codes over TDES keys, with blocks and MACs of 8 bytes: CMAC and the
//! retail MAC.
//!
//! To verify a MAC, make it again, and compare both with `same_mac`.
#![tactic(auto)]

mod block;
mod check_values;
mod cipher_mac;
mod comparison;
pub mod laws;
mod retail_mac;

pub use check_values::{check_value, cmac_check_value};
pub use cipher_mac::{cmac, cmac_under, double_block};
pub use comparison::same_mac;
pub use retail_mac::retail;
