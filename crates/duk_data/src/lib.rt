//! The keys of a transaction that encipher data (ANSI X9.24-1:2009 annex A.4.1).
//!
//! Each is made of a variant of the transaction key, whose halves are enciphered under the variant
//! itself. Data are enciphered under them by TDES-CBC, `duk_tdes::cbc_encrypt`.
#![tactic(auto)]

mod keys;
pub mod laws;

pub use keys::{request_data_key, response_data_key};
